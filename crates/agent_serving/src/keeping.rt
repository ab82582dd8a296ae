// The jobs that go on for as long as the agent does: what ends for want of memory is begun again.
ghost use Rattle.std.specs.Prelude.{◌≡◌, map};
ghost use Rattle.agent_hub.specs.Submits.{IsSeatOf};
ghost use Rattle.agent_serving.specs.Keeping.{KeepsSo, conn_behind, is_last};

use crate::prompts::{PromptsEnd, serve_prompts};
use agent_hub::{AsksEnd, Hub, HubSeat, serve_asks};
use attr_tuples::Tuple;
use prompters::{Chain, Deny, Limited, Prompter};
use std::alloc::Global;
use std::io::Eprint;
use std::sync::Wait;
use std::thread;
use std::time::{Clock, Duration};
use wire_streams::Dialer;

/// How many seconds pass before what ended for want of memory, or of a file, is begun again.
const REST: u64 = 1;

/// Asks the authentication server what the agent asks of it, until the agent stops. It may wait.
pub(crate) fn keep_asking<R: Wait + Clock, D: Dialer>(
    rt: &R,
    alloc: Global,
    hub: &Hub,
    mut seat: HubSeat,
    dialer: &mut D,
) -> HubSeat
    requires { IsSeatOf hub.now seat }
    ensures { IsSeatOf hub.now result }
{
    for _ in rt.forever() {
        let (next, end) = serve_asks(rt, alloc, hub, seat, dialer);
        seat = next;
        match end {
            AsksEnd::Stopped => return seat,
            AsksEnd::NoMemory => thread::sleep(rt, Duration::from_secs(REST)),
        }
    }
    unreachable!()
}

/// Answers for the user, with yes so often and then with no, until the agent stops; with no yes at all it does nothing, and
/// leaves confirm and needkey to others. It may wait.
pub(crate) fn answer_for_user<R: Wait + Clock + Eprint>(
    rt: &R,
    alloc: Global,
    hub: &Hub,
    seat: HubSeat,
    conn: u64,
    consents: u32,
)
    requires { IsSeatOf hub.now seat }
{
    if consents == 0 {
        return;
    }
    for _ in rt.forever() {
        let template = Tuple::new(alloc);
        let left = consents;
        let mut list: Vec<Box<dyn Prompter + Send>> = Vec::new(alloc);
        if let Ok(limited) = Box::new(alloc, Limited { template, left }) {
            let _ = list.push(limited);
        }
        if let Ok(deny) = Box::new(alloc, Deny) {
            let _ = list.push(deny);
        }
        let mut chain = Chain::new(list);
        if chain.len() == 2 {
            let mut ends = EndLog { rt, last: None };
            keep_prompting(rt, alloc, hub, seat, conn, &mut chain, &mut ends);
            return;
        }
        tell_end(rt, PromptsEnd::NoMemory);
        thread::sleep(rt, Duration::from_secs(REST));
    }
}

/// Where it is told how the answers of prompters ended.
pub trait Tells {
    ghost use Rattle.std.specs.Prelude.{[], ◌∷◌, List, Option};
    ghost use Rattle.wire_streams.specs.Spawning.{Gains};
    ghost use Rattle.agent_serving.specs.declared.prompts.PromptsEnd.{PromptsEnd as End};

    /// The ends that it was told, the first one first, where the object tells that.
    ghost told: { Self → Option (List End) };

    /// Tells an end.
    fn tell(&mut self, end: PromptsEnd)
        ensures { Gains (told self.old) (told self.new) (end ∷ []) };
}

// Tells each end on standard error, and one that comes again and again once, but for a question that is too long.
#[derive(Drop)]
struct EndLog<'a, R> {
    rt: &'a R,
    last: Option<PromptsEnd>,
}

impl<R: Eprint> Tells for EndLog<'_, R> {
    ghost use Rattle.std.specs.Prelude.{None};

    ghost told = { λ _. None };

    fn tell(&mut self, end: PromptsEnd) {
        if self.last != Some(end) || end == PromptsEnd::TooLong {
            tell_end(self.rt, end);
        }
        self.last = Some(end);
    }
}

// Whether nobody answers any more behind this end.
fn is_last(end: PromptsEnd) -> bool
    ensures { result ≡ is_last end }
{
    match end {
        PromptsEnd::Idle | PromptsEnd::Gone => true,
        PromptsEnd::InUse | PromptsEnd::TooLong | PromptsEnd::NoQuestion | PromptsEnd::NoMemory => {
            false
        }
    }
}

// Sleeps for a second, but behind a question that is too long.
fn rest_behind<R: Wait + Clock>(rt: &R, end: PromptsEnd) {
    if end != PromptsEnd::TooLong {
        thread::sleep(rt, Duration::from_secs(REST));
    }
}

// The connection on which it goes on behind an end of this one.
fn conn_behind(end: PromptsEnd, conn: u64) -> u64
    ensures { result ≡ conn_behind end conn }
{
    match end {
        PromptsEnd::InUse => conn.saturating_sub(1),
        PromptsEnd::Idle
        | PromptsEnd::Gone
        | PromptsEnd::TooLong
        | PromptsEnd::NoQuestion
        | PromptsEnd::NoMemory => conn,
    }
}

/// Has a chain answer an agent's questions until the agent stops, by `serve_prompts` again and again, each of whose ends is
/// told. It may wait.
///
/// It goes on at once behind a question that is too long, and on the same connection, so that the opening by which the
/// question is refused has the files open again in one turn. Where memory ran out it goes on so after a second. Where another
/// client has a file open it goes on after a second on the connection of the number before, since one that was hung up stays
/// so.
pub fn keep_prompting<R: Wait + Clock, T: Tells>(
    rt: &R,
    alloc: Global,
    hub: &Hub,
    mut seat: HubSeat,
    mut conn: u64,
    chain: &mut Chain,
    ends: &mut T,
) -> (HubSeat, PromptsEnd)
    requires { IsSeatOf hub.now seat }
    ensures seat { IsSeatOf hub.now result.0 }
    ensures kept { KeepsSo conn
        (map (λ b. (⟦<(dyn Prompter + Send) as Prompter>⟧ b.vtable).manner b.value)
        chain.old.list.items)
        (map (λ b. (⟦<(dyn Prompter + Send) as Prompter>⟧ b.vtable).manner b.value)
        chain.new.list.items) seat result.0 (T.told ends.old) (T.told ends.new) result.1 }
{
    for _ in rt.forever() {
        let (next, end) = serve_prompts(rt, alloc, hub, seat, conn, chain);
        seat = next;
        ends.tell(end);
        if is_last(end) {
            return (seat, end);
        }
        rest_behind(rt, end);
        conn = conn_behind(end, conn);
    }
    unreachable!()
}

// Writes the line of an end to standard error.
fn tell_end<R: Eprint>(rt: &R, end: PromptsEnd) {
    let line = match end {
        PromptsEnd::Idle | PromptsEnd::Gone => "factotum: nobody answers questions any more\n",
        PromptsEnd::InUse => "factotum: another program has confirm or needkey open\n",
        PromptsEnd::TooLong => "factotum: a question was too long, and is denied\n",
        PromptsEnd::NoQuestion =>
            "factotum: a read brought no question: none is answered for a second\n",
        PromptsEnd::NoMemory => "factotum: out of memory: no question is answered for a second\n",
    };
    let _ = rt.eprint(line);
}
