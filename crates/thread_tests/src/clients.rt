// Clients accepted and served, by hand.
use crate::expect::expect;
use auth_server::{AuthCore, AuthEnd, AuthJob, ListenEnd, accept_clients};
use auth_tables::{parse_keys, parse_speaks};
use std::alloc::Global;
use std::process::Abort;
use std::sync::{Arc, Wait};
use std::test::Fail;
use wire_base::Text;
use wire_streams::{MemListener, MemSink, MemSource, MemSpawner, MemWords};

fn core(alloc: Global) -> Result<Arc<AuthCore, Global>, Fail> {
    let Some(dom) = Text::from_slice(alloc, b"x")? else {
        return Err("dom".into());
    };
    let keys = parse_keys(alloc, b"user=ann !password=a\n").map_err(|_| "keys")?;
    let speaks = parse_speaks(alloc, b"").map_err(|_| "speaks")?;
    Ok(Arc::new(alloc, AuthCore::new(dom, keys, speaks))?)
}

// A client that sends as many ones.
fn source(alloc: Global, count: usize) -> Result<MemSource, Fail> {
    Ok(MemSource::new(vec![in alloc; 1u8; count]?, Vec::new(alloc)))
}

// How accepting two clients ends, and how many jobs there are then.
fn check(
    rt: &(impl Wait + Abort),
    alloc: Global,
    lost: u64,
    want: ListenEnd,
    jobs: usize,
) -> Result<(), Fail> {
    let core = core(alloc)?;
    let mut pairs = Vec::new(alloc);
    for count in [0, 141] {
        let sink = MemSink::new(Vec::new(alloc), Vec::new(alloc));
        pairs.push((source(alloc, count)?, sink))?;
    }
    let mut listener = MemListener::new(pairs, Vec::new(alloc));
    let mut spawner = MemSpawner::new(Vec::new(alloc), [lost].to_vec(alloc)?);
    let end = accept_clients(rt, &core, &mut listener, &mut spawner);
    expect(rt, &end, &want);
    expect(rt, &spawner.content().len(), &jobs);
    Ok(())
}

#[test]
fn each_client_is_a_job(rt: HostRuntime) -> Result<(), Fail> {
    check(&rt, rt.alloc(), 3, ListenEnd::ListenFault, 2)?;
    check(&rt, rt.alloc(), 2, ListenEnd::NoThread, 1)
}

// How a client that sends 141 ones is served, where the write of this number fails.
fn serve_one(alloc: Global, lost: u64) -> Result<AuthEnd, Fail> {
    let drawn = [[7u8; 8]; 3].to_vec(alloc)?;
    let mut words = MemWords::new(drawn, Vec::new(alloc));
    let sink = MemSink::new(Vec::new(alloc), [lost].to_vec(alloc)?);
    let mut job = AuthJob::new(core(alloc)?, source(alloc, 141)?, sink);
    Ok(job.serve(alloc, &mut words))
}

// Its one answer is written.
#[test]
fn a_client_is_served(rt: HostRuntime) -> Result<(), Fail> {
    expect(&rt, &serve_one(rt.alloc(), 1)?, &AuthEnd::WriteFault);
    expect(&rt, &serve_one(rt.alloc(), 2)?, &AuthEnd::End);
    Ok(())
}
