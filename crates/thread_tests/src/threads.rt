// Jobs in threads of their own.
use crate::expect::expect;
use crossbeam_channel::{Receiver, Sender};
use sockets::{Job, ThreadSpawner, Unstarted};
use std::sync::Wait;
use std::test::Fail;
use wire_streams::Spawner;

// The first waits for the word of the second and hands it on.
#[derive(Drop)]
enum Task {
    HandOn { from: Receiver<u8>, to: Sender<u8> },
    Say { word: u8, to: Sender<u8> },
}

impl<R: Wait> Job<R> for Task {
    fn run(self, rt: &R) {
        match self {
            Task::HandOn { from, to } => {
                if let Ok(word) = from.recv(rt) {
                    let _ = to.send(rt, word);
                }
            }
            Task::Say { word, to } => {
                let _ = to.send(rt, word);
            }
        }
    }
}

#[test]
fn jobs_run_beside_each_other(rt: HostRuntime) -> Result<(), Fail> {
    let (to_first, from_second) = crossbeam_channel::unbounded(rt.alloc())?;
    let (to_us, from_first) = crossbeam_channel::unbounded(rt.alloc())?;
    let Ok(mut spawner) = ThreadSpawner::new(rt, rt.alloc(), "tests", Unstarted::Told) else {
        return Err("no thread".into());
    };
    let first = Task::HandOn {
        from: from_second,
        to: to_us,
    };
    expect(&rt, &spawner.spawn(first), &Ok(()));
    let second = Task::Say {
        word: 7,
        to: to_first,
    };
    expect(&rt, &spawner.spawn(second), &Ok(()));
    expect(&rt, &from_first.recv(&rt), &Ok(7));
    Ok(())
}
