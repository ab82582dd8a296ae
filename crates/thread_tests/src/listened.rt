// Connections that come from memory.
use crate::expect::expect_at;
use std::test::Fail;
use wire_streams::{Got, Listener, MemListener, MemSink, MemSource, Sink, Source};

#[test]
fn connections_come_in_order_but_at_planned_faults(rt: HostRuntime) -> Result<(), Fail> {
    let mut pairs = Vec::new(rt.alloc());
    for name in [b"a", b"b"] {
        let source = MemSource::new(name.to_vec(rt.alloc())?, Vec::new(rt.alloc()));
        let sink = MemSink::new(name.to_vec(rt.alloc())?, Vec::new(rt.alloc()));
        pairs.push((source, sink))?;
    }
    let mut listener = MemListener::new(pairs, [2].to_vec(rt.alloc())?);
    for (call, want) in [(1, "a"), (2, "-"), (3, "b"), (4, "-")] {
        let mut heard = [b'-'];
        if let Ok((mut source, sink)) = listener.accept() {
            expect_at(&rt, &source.read(&mut heard), &Got::Bytes(1), &call);
            expect_at(&rt, &sink.content(), &want.as_bytes(), &call);
        }
        expect_at(&rt, &heard.as_slice(), &want.as_bytes(), &call);
    }
    Ok(())
}
