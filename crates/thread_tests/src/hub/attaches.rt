// A file server that asks the agent of a hub who its users are.
ghost use Rattle.agent_hub.specs.Submits.{IsSeatOf};

use super::sessions::{ADD_KEY, ATTACH, ATTACHED, KEY_ADDED};
use super::{ask_all, end_of_frame, expect, frame_of, new_hub, submit, take_all};
use agent_history::{Event, StepAnswer};
use agent_hub::{Hub, HubSeat};
use door_ports::{AgentPort, HubCaller, HubPort, Reply, prepare, write};
use doors::Door;
use std::alloc::Global;
use std::process::Abort;
use std::sync::Wait;
use std::test::Fail;
use std::thread::join;
use wire_base::Bytes;

/// The connection on which the key is given, and its fid that has ctl open.
const KEYS: u64 = 0;

const CTL: u32 = 1;

const KEY: &[u8] = b"key proto=p9sk1 dom=x user=srv !password=srvpass";

// The word of the frame of a number.
fn word_of(number: u8) -> [u8; 8] {
    let first = number.wrapping_mul(8).wrapping_add(3);
    [0, 1, 2, 3, 4, 5, 6, 7].map(|at| first.wrapping_add(at))
}

// A port at the agent of a hub, which was given the key before.
fn open_port<'a, R: Wait>(
    rt: &'a R,
    alloc: Global,
    hub: &'a Hub,
    seat: HubSeat,
) -> Result<HubPort<'a, R>, Fail>
    requires { IsSeatOf hub.now seat }
{
    let mut caller = HubCaller::new(rt, hub, seat);
    prepare(alloc, &mut caller, KEYS)?;
    let Reply::Done = write(alloc, &mut caller, KEYS, CTL, KEY)? else {
        return Err("no key".into());
    };
    Ok(AgentPort::new(alloc, caller, 1))
}

// Answers frames by a door over the port.
fn serve<R: Wait + Abort>(
    rt: &R,
    alloc: Global,
    port: &mut HubPort<'_, R>,
    frames: &[u8],
) -> Result<Bytes, Fail> {
    let mut door = Door::new(alloc);
    let mut replies = Bytes::new(alloc);
    let mut at = 0;
    let mut number = 0u8;
    for _ in rt.forever() {
        if at == frames.len() {
            break;
        }
        let end = end_of_frame(frames, at)?;
        let frame = frame_of(rt, alloc, frames.get(at..end).ok_or("no frame")?)?;
        port.set_word(word_of(number));
        door.step(frame.as_slice(), port, &mut replies)?;
        at = end;
        number = number.wrapping_add(1);
    }
    Ok(replies)
}

// A client logs in and attaches, and nothing is left to be taken on the connection of the port.
fn attach<R: Wait + Abort>(rt: &R, alloc: Global, hub: &Hub, seat: HubSeat) -> Result<Bytes, Fail>
    requires { IsSeatOf hub.now seat }
{
    let mut port = open_port(rt, alloc, hub, seat)?;
    let replies = serve(rt, alloc, &mut port, ATTACH)?;
    let (hub, seat) = port.into_agent().give_back();
    let none = Event::Take { conn: 1 };
    submit(rt, alloc, hub, seat, &none, StepAnswer::NoReply, b"")?;
    Ok(replies)
}

// Another connection writes a key meanwhile.
fn add_key<R: Wait + Abort>(rt: &R, alloc: Global, hub: &Hub, seat: HubSeat) -> Result<Bytes, Fail>
    requires { IsSeatOf hub.now seat }
{
    let seat = ask_all(rt, alloc, hub, seat, 2, ADD_KEY)?;
    Ok(take_all(rt, alloc, hub, seat, 2, 5)?.1)
}

#[test]
fn a_file_server_asks_the_agent_of_a_hub(rt: HostRuntime) -> Result<(), Fail> {
    let alloc = rt.alloc();
    let (hub, seat) = new_hub(alloc)?;
    let (one, other) = hub.split(seat);
    let (replies, added) = join(
        &rt,
        || attach(&rt, alloc, &hub, one),
        || add_key(&rt, alloc, &hub, other),
    );
    let Ok(added) = added else {
        panic!(&rt; "no key was added")
    };
    let replies = replies?;
    expect(&rt, &replies, ATTACHED);
    expect(&rt, &added, KEY_ADDED);
    Ok(())
}
