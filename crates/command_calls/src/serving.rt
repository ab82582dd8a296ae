// The public calls of `agent_serving`.
ghost use Rattle.std.specs.Prelude.{◌≡◌, ◌≤◌, ◌++◌, OnErr, OnOk, ◌<◌, map, IfSome};
ghost use Rattle.agent_hub.specs.Submits.{HubSeat, IsSeatOf};
ghost use Rattle.agent_serving.specs.Endings.{end_number, end_text};
ghost use Rattle.agent_serving.specs.Jobs.{seat_of};
ghost use Rattle.agent_serving.specs.Keeping.{KeepsSo};
ghost use Rattle.agent_serving.specs.Prompting.{PromptsSo};
ghost use Rattle.agent_serving.specs.Serving.{ServesSo};
ghost use Rattle.agent_serving.specs.Words.{AreWithin, serve_words};
ghost use Rattle.wire_streams.specs.Causes.{Rose};

use agent_hub::{Hub, HubSeat};
use agent_serving::{Job, PromptsEnd, ServeEnd, ServeWords, Tells};
use prompters::{Chain, Prompter};
use std::alloc::Global;
use std::sync::Wait;
use std::time::Clock;
use wire_base::{Bytes, NoMemory, Text};
use wire_streams::{Listener, Spawner};

/// As `serve`.
pub fn serve<R: Wait, L: Listener, P: Spawner<Job<L::In, L::Out>>>(
    rt: &R,
    alloc: Global,
    hub: &Hub,
    seat: HubSeat,
    asks: u32,
    listener: &mut L,
    spawner: &mut P,
) -> (HubSeat, ServeEnd)
where
    L::In: Drop,
    L::Out: Drop,
    requires seat { IsSeatOf hub.now seat }
    requires takes { (job : Job L.In L.Out) → IsSeatOf hub.now (seat_of job)
        → P.takes spawner.old job }
    ensures seat { IsSeatOf hub.now result.0 }

    ensures served { ServesSo result.1 asks seat result.0 (L.to_come listener.old)
        (L.to_come listener.new) (P.taken spawner.old) (P.taken spawner.new)
        (P.faults spawner.old) (P.faults spawner.new) }

    ensures listen_fault { result.1 ≡ ServeEnd.ListenFault
        → Rose (L.faults listener.old) (L.faults listener.new) }
    ensures no_thread { result.1 ≡ ServeEnd.NoThread
        → Rose (P.faults spawner.old) (P.faults spawner.new) }
    ensures counted_accepts { L.faults listener.old ≤ L.faults listener.new }
    ensures counted_jobs { P.faults spawner.old ≤ P.faults spawner.new }
{
    agent_serving::serve(rt, alloc, hub, seat, asks, listener, spawner)
}

/// As `end_number`.
pub fn end_number(end: ServeEnd) -> u8
    ensures { result ≡ end_number end }
{
    agent_serving::end_number(end)
}

/// As `print_end`.
pub fn print_end(end: ServeEnd, out: &mut Bytes) -> Result<(), NoMemory>
    ensures ok { OnOk result (out.new ≡ out.old ++ end_text end) }
    ensures err { OnErr result (out.new ≡ out.old) }
{
    agent_serving::print_end(end, out)
}

/// As `serve_prompts`.
pub fn serve_prompts<R: Wait>(
    rt: &R,
    alloc: Global,
    hub: &Hub,
    seat: HubSeat,
    conn: u64,
    chain: &mut Chain,
) -> (HubSeat, PromptsEnd)
    requires { IsSeatOf hub.now seat }
    ensures seat { IsSeatOf hub.now result.0 }
    ensures prompts { PromptsSo conn
        (map (λ b. (⟦<(dyn Prompter + Send) as Prompter>⟧ b.vtable).manner b.value)
        chain.old.list.items)
        (map (λ b. (⟦<(dyn Prompter + Send) as Prompter>⟧ b.vtable).manner b.value)
        chain.new.list.items) seat result.0 result.1 }
{
    agent_serving::serve_prompts(rt, alloc, hub, seat, conn, chain)
}

/// As `keep_prompting`.
pub fn keep_prompting<R: Wait + Clock, T: Tells>(
    rt: &R,
    alloc: Global,
    hub: &Hub,
    seat: HubSeat,
    conn: u64,
    chain: &mut Chain,
    ends: &mut T,
) -> (HubSeat, PromptsEnd)
    requires { IsSeatOf hub.now seat }
    ensures seat { IsSeatOf hub.now result.0 }
    ensures kept { KeepsSo conn
        (map (λ b. (⟦<(dyn Prompter + Send) as Prompter>⟧ b.vtable).manner b.value)
        chain.old.list.items)
        (map (λ b. (⟦<(dyn Prompter + Send) as Prompter>⟧ b.vtable).manner b.value)
        chain.new.list.items) seat result.0 (T.told ends.old) (T.told ends.new) result.1 }
{
    agent_serving::keep_prompting(rt, alloc, hub, seat, conn, chain, ends)
}

/// As `read_serve_words`.
pub fn read_serve_words(words: &[Text]) -> Option<ServeWords>
    ensures places { result ≡ serve_words words.now }
    ensures within { IfSome result (λ given. AreWithin given words.now) }
{
    agent_serving::read_serve_words(words)
}
