// The jobs of an agent that serves many connections, started one after the other.
ghost use Rattle.std.specs.Prelude.{◌≡◌, ◌≤◌, ◌+◌, [], ℕ, Err, IfErr, List, OnErr, OnOk, Option};
ghost use Rattle.wire_streams.specs.Causes.{Rose};
ghost use Rattle.agent_hub.specs.Submits.{HubSeat, IsSeatOf};
ghost use Rattle.agent_serving.specs.Jobs.{seat_of};
ghost use Rattle.agent_serving.specs.Serving.{Asking, AsksSome, EndedBy, Going, ServesSo};

use crate::job::Job;
use agent_history::Event;
use agent_hub::{Hub, HubSeat};
use std::alloc::Global;
use std::sync::Wait;
use wire_base::Bytes;
use wire_streams::{Listener, NoStart, Spawner};

/// Why an agent accepts no more connections.
#[derive(Clone, Copy, Debug, PartialEq, Eq)]
pub enum ServeEnd {
    /// A job of the agent's questions couldn't be given to a thread.
    NoThread,
    /// Accepting failed.
    ListenFault,
    /// Memory ran out.
    NoMemory,
}

/// Has the authentication server asked by so many jobs and the user's questions answered by another, on the connection
/// 2^64 - 1, and accepts connections, numbered from 0, each of which is a job. Each connection is opened by a take before its
/// job starts, so that a client which sends nothing is hung up as any other. One whose job can't be given to a thread is hung
/// up at once, and accepting goes on. At the end the agent stops. It may wait.
pub fn serve<R: Wait, L: Listener, P: Spawner<Job<L::In, L::Out>>>(
    rt: &R,
    alloc: Global,
    hub: &Hub,
    seat: HubSeat,
    asks: u32,
    listener: &mut L,
    spawner: &mut P,
) -> (HubSeat, ServeEnd)
where
    L::In: Drop,
    L::Out: Drop,
    requires seat { IsSeatOf hub.now seat }
    // The spawner takes every job whose seat is of the hub.
    requires takes { (job : Job L.In L.Out) → IsSeatOf hub.now (seat_of job)
        → P.takes spawner.old job }
    ensures seat { IsSeatOf hub.now result.0 }

    // The jobs taken, and what the seat entered, by the connections accepted and the end.
    ensures served { ServesSo result.1 asks seat result.0 (L.to_come listener.old)
        (L.to_come listener.new) (P.taken spawner.old) (P.taken spawner.new)
        (P.faults spawner.old) (P.faults spawner.new) }

    // A fault comes only where the count of its object rose, and no count falls.
    ensures listen_fault { result.1 ≡ ServeEnd.ListenFault
        → Rose (L.faults listener.old) (L.faults listener.new) }
    ensures no_thread { result.1 ≡ ServeEnd.NoThread
        → Rose (P.faults spawner.old) (P.faults spawner.new) }
    ensures counted_accepts { L.faults listener.old ≤ L.faults listener.new }
    ensures counted_jobs { P.faults spawner.old ≤ P.faults spawner.new }
{
    let (seat, end) = accept_all(rt, alloc, hub, seat, asks, listener, spawner);
    let mut nothing = Bytes::new(alloc);
    let (seat, _) = hub.submit(rt, seat, &Event::Stop, &mut nothing);
    (seat, end)
}

// Starts the jobs of the agent's questions, and accepts connections until that fails.
fn accept_all<R: Wait, L: Listener, P: Spawner<Job<L::In, L::Out>>>(
    rt: &R,
    alloc: Global,
    hub: &Hub,
    seat: HubSeat,
    asks: u32,
    listener: &mut L,
    spawner: &mut P,
) -> (HubSeat, ServeEnd)
where
    L::In: Drop,
    L::Out: Drop,
    requires seat { IsSeatOf hub.now seat }
    requires takes { (job : Job L.In L.Out) → IsSeatOf hub.now (seat_of job)
        → P.takes spawner.old job }
    ensures seat { IsSeatOf hub.now result.0 }
    ensures ended { EndedBy asks seat result.0 (L.to_come listener.old) (L.to_come listener.new)
        (P.taken spawner.old) (P.taken spawner.new)
        (P.faults spawner.old) (P.faults spawner.new) [] result.1 }
    ensures listen_fault { result.1 ≡ ServeEnd.ListenFault
        → Rose (L.faults listener.old) (L.faults listener.new) }
    ensures no_thread { result.1 ≡ ServeEnd.NoThread
        → Rose (P.faults spawner.old) (P.faults spawner.new) }
    ensures counted_accepts { L.faults listener.old ≤ L.faults listener.new }
    ensures counted_jobs { P.faults spawner.old ≤ P.faults spawner.new }
{
    let (mut seat, begun) = begin(hub, seat, asks, spawner);
    let Ok(()) = begun else {
        return (seat, ServeEnd::NoThread);
    };
    let mut conn = 0;
    for _ in rt.forever() {
        if conn == u64::MAX {
            return (seat, ServeEnd::NoMemory);
        }
        let (next, served) = serve_next(rt, alloc, hub, seat, conn, listener, spawner);
        seat = next;
        match served {
            Ok(()) => conn += 1,
            Err(end) => return (seat, end),
        }
    }
    unreachable!()
}

// Starts so many jobs that ask the authentication server.
fn begin_asks<I: Drop, O: Drop, P: Spawner<Job<I, O>>>(
    hub: &Hub,
    mut seat: HubSeat,
    asks: u32,
    spawner: &mut P,
) -> (HubSeat, Result<(), NoStart>)
    requires seat { IsSeatOf hub.now seat }
    requires takes { (job : Job I O) → IsSeatOf hub.now (seat_of job)
        → P.takes spawner.old job }
    ensures seat { IsSeatOf hub.now result.0 }
    ensures takes { (job : Job I O) → IsSeatOf hub.now (seat_of job)
        → P.takes spawner.new job }
    ensures asking { OnOk result.1
        (Asking seat result.0 (P.taken spawner.old) (P.taken spawner.new) asks) }
    ensures lacking { OnErr result.1
        (AsksSome seat result.0 (P.taken spawner.old) (P.taken spawner.new) asks) }
    ensures no_thread { OnErr result.1 (Rose (P.faults spawner.old) (P.faults spawner.new)) }
    ensures counted { P.faults spawner.old ≤ P.faults spawner.new }
{
    for _ in 0..asks {
        let (kept, theirs) = hub.split(seat);
        seat = kept;
        if let Err(fault) = spawner.spawn(Job::Asks { seat: theirs }) {
            return (seat, Err(fault));
        }
    }
    (seat, Ok(()))
}

// Starts so many jobs that ask the authentication server, and the one that answers for the user.
fn begin<I: Drop, O: Drop, P: Spawner<Job<I, O>>>(
    hub: &Hub,
    seat: HubSeat,
    asks: u32,
    spawner: &mut P,
) -> (HubSeat, Result<(), NoStart>)
    requires seat { IsSeatOf hub.now seat }
    requires takes { (job : Job I O) → IsSeatOf hub.now (seat_of job)
        → P.takes spawner.old job }
    ensures seat { IsSeatOf hub.now result.0 }
    ensures takes { (job : Job I O) → IsSeatOf hub.now (seat_of job)
        → P.takes spawner.new job }
    ensures begun { OnOk result.1 ((came : Option (List (I × O)))
        → Going asks seat result.0 came came (P.taken spawner.old) (P.taken spawner.new)
        (P.faults spawner.old) (P.faults spawner.new) 0) }
    ensures ended { OnErr result.1 ((came : Option (List (I × O)))
        → EndedBy asks seat result.0 came came (P.taken spawner.old) (P.taken spawner.new)
        (P.faults spawner.old) (P.faults spawner.new) [] ServeEnd.NoThread) }
    ensures no_thread { OnErr result.1 (Rose (P.faults spawner.old) (P.faults spawner.new)) }
    ensures counted { P.faults spawner.old ≤ P.faults spawner.new }
{
    let (seat, begun) = begin_asks(hub, seat, asks, spawner);
    if let Err(fault) = begun {
        return (seat, Err(fault));
    }
    let (seat, prompts) = hub.split(seat);
    let job = Job::Prompts {
        seat: prompts,
        conn: u64::MAX,
    };
    match spawner.spawn(job) {
        Ok(()) => (seat, Ok(())),
        Err(fault) => (seat, Err(fault)),
    }
}

// Accepts the connection of this number, opens it, and starts its job; or hangs it up where there is no thread for that.
fn serve_next<R: Wait, L: Listener, P: Spawner<Job<L::In, L::Out>>>(
    rt: &R,
    alloc: Global,
    hub: &Hub,
    seat: HubSeat,
    conn: u64,
    listener: &mut L,
    spawner: &mut P,
) -> (HubSeat, Result<(), ServeEnd>)
where
    L::In: Drop,
    L::Out: Drop,
    requires seat { IsSeatOf hub.now seat }
    requires takes { (job : Job L.In L.Out) → IsSeatOf hub.now (seat_of job)
        → P.takes spawner.old job }
    ensures seat { IsSeatOf hub.now result.0 }
    ensures takes { (job : Job L.In L.Out) → IsSeatOf hub.now (seat_of job)
        → P.takes spawner.new job }
    ensures going { OnOk result.1 ((asks : ℕ) (first : HubSeat)
        (came : Option (List (L.In × L.Out))) (taken : Option (List (Job L.In L.Out))) (faults : ℕ)
        → Going asks first seat came (L.to_come listener.old) taken (P.taken spawner.old)
        faults (P.faults spawner.old) conn
        → Going asks first result.0 came (L.to_come listener.new) taken (P.taken spawner.new)
        faults (P.faults spawner.new) (conn + 1)) }
    ensures ends { IfErr result.1 (λ end. (asks : ℕ) (first : HubSeat)
        (came : Option (List (L.In × L.Out))) (taken : Option (List (Job L.In L.Out))) (faults : ℕ)
        → Going asks first seat came (L.to_come listener.old) taken (P.taken spawner.old)
        faults (P.faults spawner.old) conn
        → EndedBy asks first result.0 came (L.to_come listener.new) taken (P.taken spawner.new)
        faults (P.faults spawner.new) [] end) }
    ensures listen_fault { result.1 ≡ Err ServeEnd.ListenFault
        → Rose (L.faults listener.old) (L.faults listener.new) }
    ensures begun { result.1 ≡ Err ServeEnd.NoThread → ⊥ }
    ensures counted_accepts { L.faults listener.old ≤ L.faults listener.new }
    ensures counted_jobs { P.faults spawner.old ≤ P.faults spawner.new }
{
    let Ok((source, sink)) = listener.accept() else {
        return (seat, Err(ServeEnd::ListenFault));
    };
    let mut nothing = Bytes::new(alloc);
    let (seat, opened) = hub.submit(rt, seat, &Event::Take { conn }, &mut nothing);
    let Ok(_) = opened else {
        return (seat, Err(ServeEnd::NoMemory));
    };
    let (seat, theirs) = hub.split(seat);
    let job = Job::Line {
        seat: theirs,
        conn,
        source,
        sink,
    };
    let Ok(()) = spawner.spawn(job) else {
        let (seat, _) = hub.submit(rt, seat, &Event::Hang { conn }, &mut nothing);
        return (seat, Ok(()));
    };
    (seat, Ok(()))
}
