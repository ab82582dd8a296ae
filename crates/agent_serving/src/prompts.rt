// A program that answers for its user: a client of the agent's own files.
ghost use Rattle.std.specs.Prelude.{◌≡◌, ◌<◌, ◌∷◌, ◌++◌, [], map, List, ℕ, IfOk};
ghost use Rattle.nine.specs.declared.message.TMsg.{TMsg};
ghost use Rattle.nine.specs.Messages.{t_frame};
ghost use Rattle.nine.specs.Decoding.{IsFrame};
ghost use Rattle.side_files.specs.declared.line.PromptKind.TheVariants.{Confirm, Needkey};
ghost use Rattle.prompters.specs.Manners.{Manner};
ghost use Rattle.prompters.specs.Requests.{read_of};
ghost use Rattle.agent_hub.specs.Submits.{HubSeat, IsSeatOf};
ghost use Rattle.agent_serving.specs.Prompting.{Asked, Hears, HearsOne, PromptsSo, Speaks, SpeaksOn, Stops, TakesOne, opened_by, taken_of};

use agent_history::{Event, StepAnswer};
use agent_hub::{Exchanged, Hub, HubSeat, Submitted, TakesEnd};
use prompters::{
    Chain, Prompter, TOO_SMALL, are_open, file_read, is_refused_by, meets_use, opening_requests,
    question_read, read_request, write_request,
};
use side_files::{PromptKind, Question};
use std::alloc::Global;
use std::sync::Wait;
use wire_base::{Bytes, NoMemory};

/// The words of the requests by which both files are opened.
const WORDS: [[u8; 8]; 6] = [[0; 8]; 6];

/// Why nobody answers for a user any more.
#[derive(Clone, Copy, Debug, PartialEq, Eq)]
pub enum PromptsEnd {
    /// There are fewer than two prompters, so that another client may open confirm and needkey.
    Idle,
    /// Another client has one of both files open.
    InUse,
    /// A question's line is longer than any read may ask for.
    TooLong,
    /// The reply to a read holds no question, for another reason.
    NoQuestion,
    /// The connection was hung up, or the agent stopped.
    Gone,
    /// Memory was short; or a reply came that comes to nobody who has the connection for himself.
    NoMemory,
}

// What an opening comes to, by the replies that were taken in its turn.
fn opened_by(came: Exchanged, heard: &[u8]) -> Result<(), PromptsEnd>
    ensures { result ≡ opened_by came heard.now }
{
    if meets_use(heard) {
        return Err(PromptsEnd::InUse);
    }
    if came.end == TakesEnd::Stopped {
        return Err(PromptsEnd::Gone);
    }
    if came.entered < 6 || !are_open(heard) {
        return Err(PromptsEnd::NoMemory);
    }
    Ok(())
}

// Opens both files in one turn, in which all that the connection had open is given up first.
fn open_files<R: Wait>(
    rt: &R,
    alloc: Global,
    hub: &Hub,
    seat: HubSeat,
    conn: u64,
) -> (HubSeat, Result<(), PromptsEnd>)
    requires { IsSeatOf hub.now seat }
    ensures seat { IsSeatOf hub.now result.0 }
    ensures told { (chain : List Manner)
        → SpeaksOn conn chain chain seat result.0 result.1 (read_of Needkey ∷ (read_of Confirm ∷ [])) }
{
    let mut heard = Bytes::new(alloc);
    let requests = opening_requests();
    let (seat, came) = hub.exchange(rt, alloc, seat, conn, requests, &WORDS, &mut heard);
    (seat, opened_by(came, heard.as_slice()))
}

// Makes a request, for whose frame there may be no memory.
fn make<R: Wait>(
    rt: &R,
    alloc: Global,
    hub: &Hub,
    seat: HubSeat,
    conn: u64,
    frame: Result<Bytes, NoMemory>,
) -> (HubSeat, Result<(), PromptsEnd>)
    requires seat { IsSeatOf hub.now seat }
    requires whole { IfOk frame (λ frame. IsFrame frame) }
    ensures seat { IsSeatOf hub.now result.0 }
    ensures told { (chain now : List Manner) (first : HubSeat) (still : List TMsg) (m : TMsg)
        → IfOk frame (λ frame. frame ≡ t_frame m)
        → Speaks conn chain now first seat (still ++ m ∷ [])
        → SpeaksOn conn chain now first result.0 result.1 still }
{
    let Ok(frame) = frame else {
        return (seat, Err(PromptsEnd::NoMemory));
    };
    let word = [0; 8];
    let mut nothing = Bytes::new(alloc);
    let (seat, made) = hub.submit(
        rt,
        seat,
        &Event::Request { conn, frame, word },
        &mut nothing,
    );
    match made {
        Ok(_) => (seat, Ok(())),
        Err(NoMemory) => (seat, Err(PromptsEnd::NoMemory)),
    }
}

// What the answer to a take comes to: whether there is a reply, or an end.
fn taken_of(answer: Submitted) -> Result<bool, PromptsEnd>
    ensures { result ≡ taken_of answer }
{
    match answer {
        Ok(StepAnswer::Reply) => Ok(true),
        Ok(StepAnswer::Gone) => Err(PromptsEnd::Gone),
        Ok(StepAnswer::Done) => Ok(false),
        Ok(StepAnswer::NoReply) => Ok(false),
        Ok(StepAnswer::Ask { .. }) => Ok(false),
        Ok(StepAnswer::DropCall { .. }) => Ok(false),
        Ok(StepAnswer::NoAsk) => Ok(false),
        Ok(StepAnswer::Stopped) => Ok(false),
        Err(NoMemory) => Err(PromptsEnd::NoMemory),
    }
}

// Takes a reply, if there is one.
fn take_one<R: Wait>(
    rt: &R,
    hub: &Hub,
    seat: HubSeat,
    conn: u64,
    reply: &mut Bytes,
) -> (HubSeat, Result<bool, PromptsEnd>)
    requires { IsSeatOf hub.now seat }
    ensures seat { IsSeatOf hub.now result.0 }
    ensures told { (chain now : List Manner) (first : HubSeat)
        → Speaks conn chain now first seat []
        → TakesOne conn chain now first result.0 result.1 reply.new }
{
    reply.clear();
    let (seat, answer) = hub.submit(rt, seat, &Event::Take { conn }, reply);
    (seat, taken_of(answer))
}

// Waits for a reply.
fn hear<R: Wait>(
    rt: &R,
    hub: &Hub,
    mut seat: HubSeat,
    conn: u64,
    reply: &mut Bytes,
) -> (HubSeat, Result<(), PromptsEnd>)
    requires { IsSeatOf hub.now seat }
    ensures seat { IsSeatOf hub.now result.0 }
    ensures told { (chain now : List Manner) (first : HubSeat)
        → Speaks conn chain now first seat []
        → HearsOne conn chain now first result.0 result.1 reply.new }
{
    for _ in rt.forever() {
        let rung = hub.count_replies(conn);
        let (next, taken) = take_one(rt, hub, seat, conn, reply);
        seat = next;
        match taken {
            Ok(true) => return (seat, Ok(())),
            Ok(false) => hub.sleep_for_replies(rt, conn, rung),
            Err(end) => return (seat, Err(end)),
        }
    }
    unreachable!()
}

// Makes the next read of a file.
fn read<R: Wait>(
    rt: &R,
    alloc: Global,
    hub: &Hub,
    seat: HubSeat,
    conn: u64,
    file: PromptKind,
) -> (HubSeat, Result<(), PromptsEnd>)
    requires { IsSeatOf hub.now seat }
    ensures seat { IsSeatOf hub.now result.0 }
    ensures told { (chain now : List Manner) (first : HubSeat) (still : List TMsg)
        → Speaks conn chain now first seat (still ++ read_of file ∷ [])
        → SpeaksOn conn chain now first result.0 result.1 still }
{
    let frame = Bytes::from_slice(alloc, read_request(file));
    make(rt, alloc, hub, seat, conn, frame)
}

// The question that the reply to a read holds.
fn question_of(alloc: Global, reply: &[u8]) -> Result<Question, PromptsEnd>
    ensures { Asked result reply.now }
{
    if is_refused_by(TOO_SMALL, reply) {
        return Err(PromptsEnd::TooLong);
    }
    match question_read(alloc, reply) {
        Ok(Some(question)) => Ok(question),
        Ok(None) => Err(PromptsEnd::NoQuestion),
        Err(NoMemory) => Err(PromptsEnd::NoMemory),
    }
}

// Answers the question that a reply holds by the chain's word, if it is the reply to a read.
fn answer_line<R: Wait>(
    rt: &R,
    alloc: Global,
    hub: &Hub,
    seat: HubSeat,
    conn: u64,
    chain: &mut Chain,
    reply: &[u8],
) -> (HubSeat, Result<(), PromptsEnd>)
    requires { IsSeatOf hub.now seat }
    ensures seat { IsSeatOf hub.now result.0 }
    ensures told { (whole : List Manner) (first : HubSeat)
        → Hears conn whole
        (map (λ b. (⟦<(dyn Prompter + Send) as Prompter>⟧ b.vtable).manner b.value)
        chain.old.list.items) first seat reply.now
        → SpeaksOn conn whole
        (map (λ b. (⟦<(dyn Prompter + Send) as Prompter>⟧ b.vtable).manner b.value)
        chain.new.list.items) first result.0 result.1 [] }
{
    let Some(file) = file_read(reply) else {
        return (seat, Ok(()));
    };
    let question = match question_of(alloc, reply) {
        Ok(question) => question,
        Err(end) => return (seat, Err(end)),
    };
    let say = chain.answer(&question);
    let frame = write_request(alloc, file, &question, say);
    let (seat, written) = make(rt, alloc, hub, seat, conn, frame);
    if let Err(end) = written {
        return (seat, Err(end));
    }
    read(rt, alloc, hub, seat, conn, file)
}

// Answers each line that is read, until it ends.
fn answer_all<R: Wait>(
    rt: &R,
    alloc: Global,
    hub: &Hub,
    mut seat: HubSeat,
    conn: u64,
    chain: &mut Chain,
) -> (HubSeat, PromptsEnd)
    requires { IsSeatOf hub.now seat }
    ensures seat { IsSeatOf hub.now result.0 }
    ensures told { (whole : List Manner) (first : HubSeat)
        → Speaks conn whole
        (map (λ b. (⟦<(dyn Prompter + Send) as Prompter>⟧ b.vtable).manner b.value)
        chain.old.list.items) first seat []
        → Stops conn whole
        (map (λ b. (⟦<(dyn Prompter + Send) as Prompter>⟧ b.vtable).manner b.value)
        chain.new.list.items) first result.0 result.1 }
{
    let mut reply = Bytes::new(alloc);
    for _ in rt.forever() {
        let (next, heard) = hear(rt, hub, seat, conn, &mut reply);
        seat = next;
        if let Err(end) = heard {
            return (seat, end);
        }
        let (next, answered) = answer_line(rt, alloc, hub, seat, conn, chain, reply.as_slice());
        seat = next;
        if let Err(end) = answered {
            return (seat, end);
        }
    }
    unreachable!()
}

// Opens both files, reads them, and answers what is read.
fn converse<R: Wait>(
    rt: &R,
    alloc: Global,
    hub: &Hub,
    seat: HubSeat,
    conn: u64,
    chain: &mut Chain,
) -> (HubSeat, PromptsEnd)
    requires { IsSeatOf hub.now seat }
    ensures seat { IsSeatOf hub.now result.0 }
    ensures told { Stops conn
        (map (λ b. (⟦<(dyn Prompter + Send) as Prompter>⟧ b.vtable).manner b.value)
        chain.old.list.items)
        (map (λ b. (⟦<(dyn Prompter + Send) as Prompter>⟧ b.vtable).manner b.value)
        chain.new.list.items)
        seat result.0 result.1 }
{
    let (seat, opened) = open_files(rt, alloc, hub, seat, conn);
    if let Err(end) = opened {
        return (seat, end);
    }
    let (seat, made) = read(rt, alloc, hub, seat, conn, PromptKind::Confirm);
    if let Err(end) = made {
        return (seat, end);
    }
    let (seat, made) = read(rt, alloc, hub, seat, conn, PromptKind::Needkey);
    if let Err(end) = made {
        return (seat, end);
    }
    answer_all(rt, alloc, hub, seat, conn, chain)
}

/// Answers an agent's questions for a user, by a chain of prompters, through requests of a connection of its own: it opens
/// confirm and needkey, reads both, and writes the chain's word to each line, until that ends. Where the chain has fewer than
/// two prompters it does nothing. It may wait.
///
/// Both files are opened in one turn, in which all that the connection had open is given up first, and no request behind that
/// gives them up. It hangs the connection up where another client has a file open, and at no other end. So it may be called
/// again with the same connection: what was asked meanwhile is refused, a question that is too long to be read among it, and
/// in the turn in which that happens the files are open again, so that no other client comes between.
///
/// A reply is taken to belong to the request of its tag that was made last, and the last two of an opening to its opens. That
/// the agent's own replies are so paired wherever nobody else speaks on the connection isn't proved.
pub fn serve_prompts<R: Wait>(
    rt: &R,
    alloc: Global,
    hub: &Hub,
    seat: HubSeat,
    conn: u64,
    chain: &mut Chain,
) -> (HubSeat, PromptsEnd)
    requires { IsSeatOf hub.now seat }
    ensures seat { IsSeatOf hub.now result.0 }
    ensures prompts { PromptsSo conn
        (map (λ b. (⟦<(dyn Prompter + Send) as Prompter>⟧ b.vtable).manner b.value)
        chain.old.list.items)
        (map (λ b. (⟦<(dyn Prompter + Send) as Prompter>⟧ b.vtable).manner b.value)
        chain.new.list.items) seat result.0 result.1 }
{
    if chain.len() < 2 {
        return (seat, PromptsEnd::Idle);
    }
    let (seat, end) = converse(rt, alloc, hub, seat, conn, chain);
    if end != PromptsEnd::InUse {
        return (seat, end);
    }
    let mut nothing = Bytes::new(alloc);
    let (seat, _) = hub.submit(rt, seat, &Event::Hang { conn }, &mut nothing);
    (seat, end)
}
