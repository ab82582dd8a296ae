// The public calls of `agent_hub`.
ghost use Rattle.std.specs.Prelude.{◌≤◌, ◌<◌};
ghost use Rattle.agent_core.specs.Events.{IsEvent};
ghost use Rattle.agent_hub.specs.Asking.{AsksEndSo};
ghost use Rattle.agent_hub.specs.Exchanging.{IsCollected, IsExchanged};
ghost use Rattle.agent_hub.specs.Requesting.{frames_in};
ghost use Rattle.agent_hub.specs.Submits.{IsSeatOf, IsSubmitted, HubSeat};

use agent_history::Event;
use agent_hub::{AsksEnd, Exchanged, Hub, HubSeat, Submitted, TakesEnd};
use std::alloc::Global;
use std::sync::Wait;
use wire_base::Bytes;
use wire_streams::Dialer;

/// As `Hub::submit`.
pub fn hub_submit<R: Wait>(
    hub: &Hub,
    rt: &R,
    seat: HubSeat,
    event: &Event,
    out: &mut Bytes,
) -> (HubSeat, Submitted)
    requires seat { IsSeatOf hub.now seat }
    requires event { IsEvent event.now }
    ensures seat { IsSeatOf hub.now result.0 }
    ensures submitted { IsSubmitted event.now result.1 out.old out.new seat result.0 }
{
    hub.submit(rt, seat, event, out)
}

/// As `Hub::exchange`.
pub fn hub_exchange<R: Wait>(
    hub: &Hub,
    rt: &R,
    alloc: Global,
    seat: HubSeat,
    conn: u64,
    frames: &[u8],
    words: &[[u8; 8]],
    out: &mut Bytes,
) -> (HubSeat, Exchanged)
    requires { IsSeatOf hub.now seat }
    ensures seat { IsSeatOf hub.now result.0 }
    ensures exchanged { IsExchanged conn (frames_in frames.now) words.now result.1
        out.old out.new seat result.0 }
{
    hub.exchange(rt, alloc, seat, conn, frames, words, out)
}

/// As `Hub::collect`.
pub fn hub_collect<R: Wait>(
    hub: &Hub,
    rt: &R,
    seat: HubSeat,
    conn: u64,
    most: usize,
    out: &mut Bytes,
) -> (HubSeat, u64, TakesEnd)
    requires { IsSeatOf hub.now seat }
    ensures seat { IsSeatOf hub.now result.0 }
    ensures collected { IsCollected conn result.2 out.old out.new seat result.0 }
{
    hub.collect(rt, seat, conn, most, out)
}

/// As `serve_asks`.
pub fn serve_asks<R: Wait, D: Dialer>(
    rt: &R,
    alloc: Global,
    hub: &Hub,
    seat: HubSeat,
    dialer: &mut D,
) -> (HubSeat, AsksEnd)
    requires { IsSeatOf hub.now seat }
    ensures seat { IsSeatOf hub.now result.0 }
    ensures asked { AsksEndSo result.1 seat result.0 (D.told dialer.old) (D.told dialer.new)
        (D.faults dialer.old) (D.faults dialer.new) }
    ensures counted { D.faults dialer.old ≤ D.faults dialer.new }
{
    agent_hub::serve_asks(rt, alloc, hub, seat, dialer)
}
