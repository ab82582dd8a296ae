// Words of `serve`, its ends, and its jobs as tasks of a spawner.
use crate::expect::expect;
use agent_core::Agent;
use agent_hub::Hub;
use agent_serving::{
    Again, HubSpawner, ServeEnd, ServeWords, Task, Tools, end_number, print_end, read_serve_words,
    serve,
};
use std::alloc::Global;
use std::process::Abort;
use std::sync::{Arc, Wait};
use std::test::Fail;
use wire_base::{Bytes, Text, TextList};
use wire_streams::{MemDialer, MemListener, MemSink, MemSource, MemSpawner, MemWords};

// What a line of words asks for.
fn read(alloc: Global, line: &[u8]) -> Result<Option<ServeWords>, Fail> {
    let mut words = TextList::new(alloc);
    for word in line.split(|byte| *byte == b' ') {
        match Text::from_slice(alloc, word)? {
            Some(text) => words.push(text)?,
            None => return Err("no text".into()),
        }
    }
    Ok(read_serve_words(words.as_slice()))
}

fn expect_words(
    rt: &impl Abort,
    alloc: Global,
    line: &[u8],
    listen: usize,
    auth: Option<usize>,
    consents: u32,
    asks: u32,
) -> Result<(), Fail> {
    let wanted = ServeWords {
        listen,
        auth,
        consents,
        asks,
    };
    expect(rt, &read(alloc, line)?, &Some(wanted));
    Ok(())
}

#[test]
fn options_come_in_any_order(rt: HostRuntime) -> Result<(), Fail> {
    let alloc = rt.alloc();
    expect_words(&rt, alloc, b"serve --listen /s", 2, None, 0, 8)?;
    expect_words(
        &rt,
        alloc,
        b"serve --auth a:1 --listen /s",
        4,
        Some(2),
        0,
        8,
    )?;
    expect_words(&rt, alloc, b"serve --consent 7 --listen /s", 4, None, 7, 8)?;
    expect_words(
        &rt,
        alloc,
        b"serve --asks 1 --auth a:1 --consent 4294967295 --listen /s",
        8,
        Some(4),
        u32::MAX,
        1,
    )?;
    expect_words(
        &rt,
        alloc,
        b"serve --consent 0 --listen /s --auth a:1 --asks 64",
        4,
        Some(6),
        0,
        64,
    )
}

static FAULTY: &[&[u8]] = &[
    b"serve",
    b"serve --consent 1",
    b"serve --listen",
    b"serve --listen -s",
    b"serve --listen /s --consent 01",
    b"serve --listen /s --consent 4294967296",
    b"serve --listen /s --consent 1x",
    b"serve --listen /s --consent -1",
    b"serve --listen /s --listen /t",
    b"serve --listen /s --consent 1 --consent 2",
    b"serve --listen /s --asks 0",
    b"serve --listen /s --asks 65",
    b"serve --listen /s --asks 08",
    b"serve --listen /s --ask 8",
    b"serve --listen /s --asks",
    b"serves --listen /s",
];

#[test]
fn other_words_are_none(rt: HostRuntime) -> Result<(), Fail> {
    for line in FAULTY {
        expect(&rt, &read(rt.alloc(), line)?, &None);
    }
    Ok(())
}

#[test]
fn each_end_has_a_number_and_a_line(rt: HostRuntime) -> Result<(), Fail> {
    let mut line = Bytes::new(rt.alloc());
    print_end(ServeEnd::ListenFault, &mut line)?;
    expect(
        &rt,
        &line.as_slice(),
        &b"factotum: listen fault\n".as_slice(),
    );
    expect(&rt, &end_number(ServeEnd::ListenFault), &13);
    Ok(())
}

// Tools that are made of nothing.
#[derive(Clone, Copy, Drop)]
struct MemTools;

impl Again for MemTools {
    fn again(&self) -> Option<Self> {
        Some(MemTools)
    }
}

impl<R: AllocGlobal> Tools<R> for MemTools {
    type Dial = MemDialer;

    type Rand = MemWords;

    fn tools(self, rt: &R) -> (MemDialer, MemWords) {
        let alloc = rt.alloc();
        (
            MemDialer::new(alloc, Vec::new(alloc), Vec::new(alloc)),
            MemWords::new(Vec::new(alloc), Vec::new(alloc)),
        )
    }

    fn consents(&self) -> u32 {
        1
    }
}

type ServedTask = Task<MemSource, MemSink, MemTools>;

// How accepting one connection ends, where the call of this number finds no thread.
fn accept_one(rt: &impl Wait, alloc: Global, lost: u64) -> Result<ServeEnd, Fail> {
    let (hub, seat) = Hub::new(alloc, Agent::new(alloc)?)?;
    let hub = Arc::new(alloc, hub)?;
    let shared = Arc::try_clone(&hub)?;
    let tasks: Vec<ServedTask> = Vec::new(alloc);
    let inner = MemSpawner::new(tasks, [lost].to_vec(alloc)?);
    let mut spawner = HubSpawner::new(shared, MemTools, inner);
    let mut pairs = Vec::new(alloc);
    let source = MemSource::new(Vec::new(alloc), Vec::new(alloc));
    let sink = MemSink::new(Vec::new(alloc), Vec::new(alloc));
    pairs.push((source, sink))?;
    let mut listener = MemListener::new(pairs, Vec::new(alloc));
    let (_, end) = serve(rt, alloc, &hub, seat, 1, &mut listener, &mut spawner);
    Ok(end)
}

// Two jobs for questions are started: without the second nothing is accepted. The third is the connection's, which is hung up
// without it.
#[test]
fn each_job_is_a_task_with_tools_of_its_own(rt: HostRuntime) -> Result<(), Fail> {
    let alloc = rt.alloc();
    expect(&rt, &accept_one(&rt, alloc, 2)?, &ServeEnd::NoThread);
    expect(&rt, &accept_one(&rt, alloc, 3)?, &ServeEnd::ListenFault);
    Ok(())
}
