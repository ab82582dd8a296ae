// Jobs that are kept in memory.
use crate::expect::expect_at;
use std::test::Fail;
use wire_streams::{MemSpawner, NoStart, Spawner};

#[test]
fn jobs_are_kept_but_at_planned_faults(rt: HostRuntime) -> Result<(), Fail> {
    let jobs = b"a".to_vec(rt.alloc())?;
    let mut spawner = MemSpawner::new(jobs, [2, 4].to_vec(rt.alloc())?);
    for (job, want, content) in [
        (b'b', Ok(()), "ab"),
        (b'c', Err(NoStart), "ab"),
        (b'd', Ok(()), "abd"),
        (b'e', Err(NoStart), "abd"),
        (b'f', Ok(()), "abdf"),
    ] {
        expect_at(&rt, &spawner.spawn(job), &want, &job);
        expect_at(&rt, &spawner.content(), &content.as_bytes(), &job);
    }
    Ok(())
}
