// Clients that are let in, and those that are hung up.
use client_doors::{Address, ClientLimits, Door, LimitedListener, Limits, SharedLimits};
use std::alloc::Global;
use std::net::{IpAddr, Ipv4Addr};
use std::test::Fail;
use std::time::Duration;
use wire_streams::{Got, Listener, MemListener, MemSink, MemSource, Source};

const TWO: Limits = Limits {
    clients: 2,
    per_address: 1,
};

// A listener of clients that send a letter each, the one after the other.
fn letters(alloc: Global, letters: &[u8]) -> Result<MemListener<MemSource, MemSink>, Fail> {
    let mut pairs = Vec::new(alloc);
    for letter in letters {
        let source = MemSource::new([*letter].to_vec(alloc)?, Vec::new(alloc));
        pairs.push((source, MemSink::new(Vec::new(alloc), Vec::new(alloc))))?;
    }
    Ok(MemListener::new(pairs, Vec::new(alloc)))
}

// Of five that come two are let in, a third once one has gone, and those behind it are hung up.
#[test]
fn who_is_over_is_passed_over(rt: HostRuntime) -> Result<(), Fail> {
    let alloc = rt.alloc();
    let door = ClientLimits::new(alloc, TWO)?;
    let name = String::from_str(alloc, "thread_tests")?;
    let mut listener = LimitedListener::new(rt, alloc, name, letters(alloc, b"abcde")?, door);
    for (letter, goes) in [(b'a', false), (b'b', true), (b'c', false)] {
        let Ok((admitted, _)) = listener.accept() else {
            return Err("nobody came".into());
        };
        let (mut source, ()) = admitted.into_parts();
        let mut heard = [b'-'];
        assert!(rt; source.read(&mut heard) == Got::Bytes(1));
        assert!(rt; heard[0] == letter);
        if goes {
            listener.door().leave(None);
        }
    }
    assert!(rt; listener.accept().is_err());
    Ok(())
}

// A place is free again once it is dropped, and wrong answers are counted by its address.
#[test]
fn a_place_goes_with_its_client(rt: HostRuntime) -> Result<(), Fail> {
    let Some(mut limits) = SharedLimits::new(rt, rt.alloc(), TWO) else {
        return Err("no memory".into());
    };
    let here = Some(Address::new(IpAddr::V4(Ipv4Addr::LOCALHOST)));
    let Some(place) = limits.let_in(here) else {
        return Err("it isn't let in".into());
    };
    assert!(rt; limits.let_in(here).is_none());
    for _ in 0..20 {
        assert!(rt; place.wait() == Duration::from_millis(0));
        place.note_wrong();
    }
    assert!(rt; place.wait() > Duration::from_millis(0));
    drop(place);
    assert!(rt; limits.let_in(here).is_some());
    Ok(())
}
