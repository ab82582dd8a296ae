// Bells are counted, and woken by.
use crate::expect::expect;
use std::process::Abort;
use std::test::Fail;
use turn_lock::Bells;

#[test]
fn numbers_have_bells(rt: HostRuntime) -> Result<(), Fail> {
    let Some(bells) = Bells::new(rt.alloc(), 3) else {
        panic!(rt; "memory is short")
    };
    bells.of(5).ring();
    expect(&rt, &bells.of(1).count(), &1);
    expect(&rt, &bells.of(4).count(), &0);
    expect(&rt, &bells.of(3).count(), &0);
    bells.ring_all();
    expect(&rt, &bells.of(7).count(), &1);
    expect(&rt, &bells.of(9).count(), &2);
    Ok(())
}

#[test]
fn nobody_sleeps_behind_a_ring(rt: HostRuntime) -> Result<(), Fail> {
    let Some(bells) = Bells::new(rt.alloc(), 0) else {
        panic!(rt; "memory is short")
    };
    let count = bells.of(0).count();
    bells.of(17).ring();
    bells.of(0).sleep(&rt, count);
    expect(&rt, &bells.of(0).count(), &1);
    Ok(())
}
