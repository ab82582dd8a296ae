// A conversation of a labelled record, act by act.
ghost use Rattle.std.specs.Prelude.{◌≡◌, ℕ, ◌∷◌, ◌++◌, ◌==◌, List, [], IfOk, OnErr, OnOk, drop, option_map, take};
ghost use Rattle.std.specs.List.{list_any};
ghost use Rattle.clean_runs.specs.Labels.{Labelled};
ghost use Rattle.clean_runs.specs.Runs.{accepted_field, if_some, moves_for, names_in, takes_now, turns_that_take};
ghost use Rattle.conv_p9any.specs.Offers.{consents};
ghost use Rattle.sealing.specs.Fields.{field};
ghost use Rattle.symbolic_runs.specs.Moves as table;
ghost use Rattle.symbolic_runs.specs.Gifts.{bytes, opened, part, shown};
ghost use Rattle.symbolic_runs.specs.Runs.{Setting, given};
ghost use Rattle.symbolic_runs.specs.Trees.{Tree};
ghost use Rattle.symbolic_runs.specs.Views.{tree};
ghost use Rattle.wire_histories.specs.Histories.{gave, took};
ghost use Rattle.trace_runs.specs.Given.{events_by, given_by, label_of};
ghost use Rattle.trace_runs.specs.Ends.{answer_before, heard_before, heard_first, some_moves, taken_first};
ghost use Rattle.trace_runs.specs.Parts.{found_tree};
ghost use Rattle.trace_runs.specs.Stages.{StandsFor, Tells, chooses, stage_after};
ghost use Rattle.trace_runs.specs.Views.{fields_of, move_of, newest_first, own_of, role_of};

use crate::gifts::next_gift;
use crate::moves::{Move, Names, Own, Role};
use crate::parts::{inner_bytes, opened, shown};
use std::alloc::Global;
use symbolic_runs::Term;
use wire_base::{Bytes, NoMemory};
use wire_histories::Protocol;

/// What a conversation does in a record, as far as its moves depend on it. What is taken stands with its label.
#[derive(Drop)]
pub enum Act<'a> {
    Started(Protocol),
    Gave(&'a [u8]),
    Took { bytes: &'a [u8], label: &'a Term },
    /// A question for the authentication server.
    Asked(&'a [u8]),
    /// The authentication server's answer.
    Answered(&'a Term),
    Unanswered,
    Accepted,
    Failed,
}

// How far a conversation is in choosing a protocol by p9any.
#[derive(Clone, Copy, Debug, PartialEq, Eq)]
enum Stage {
    Unstarted,
    /// It started by p9any.
    Choosing,
    /// It took a list whose server consents to the choice.
    Offered,
    /// It did something else.
    Answering,
    /// It gave its choice, and the consent is to come.
    Consenting,
    /// A protocol is chosen, or p9any was never meant.
    Settled,
}

impl Stage {
    fn chooses(self) -> bool
        ensures { result ≡ chooses self }
    {
        match self {
            Stage::Choosing | Stage::Offered | Stage::Answering | Stage::Consenting => true,
            Stage::Unstarted | Stage::Settled => false,
        }
    }

    fn after(self, act: &Act) -> Stage
        ensures { (a : Labelled) → Tells act.now a → result ≡ stage_after self a.act }
    {
        match self {
            Stage::Unstarted => after_start(act),
            Stage::Choosing => after_choosing(act),
            Stage::Offered => after_offer(act),
            Stage::Answering | Stage::Consenting | Stage::Settled => Stage::Settled,
        }
    }
}

fn after_start(act: &Act) -> Stage
    ensures { (a : Labelled) → Tells act.now a → result ≡ stage_after Stage.Unstarted a.act }
{
    match act {
        Act::Started(Protocol::P9any) => Stage::Choosing,
        _ => Stage::Settled,
    }
}

fn after_choosing(act: &Act) -> Stage
    ensures { (a : Labelled) → Tells act.now a → result ≡ stage_after Stage.Choosing a.act }
{
    match act {
        Act::Took { bytes, .. } if consents(bytes) => Stage::Offered,
        _ => Stage::Answering,
    }
}

fn after_offer(act: &Act) -> Stage
    ensures { (a : Labelled) → Tells act.now a → result ≡ stage_after Stage.Offered a.act }
{
    match act {
        Act::Gave(_) => Stage::Consenting,
        _ => Stage::Settled,
    }
}

// Whether a text says that the server of a list consents to the choice.
fn consents(list: &[u8]) -> bool
    ensures { result ≡ consents list.now }
{
    list.starts_with(b"v.2 ".as_slice())
}

// The field at an offset, of so many bytes, as far as it is there.
fn field(bytes: &[u8], at: usize, size: usize) -> &[u8]
    ensures { result.now ≡ field at size bytes.now }
{
    front(behind(bytes, at), size)
}

fn behind(bytes: &[u8], at: usize) -> &[u8]
    ensures { result.now ≡ drop at bytes.now }
{
    if bytes.len() < at {
        return &[];
    }
    bytes.split_at(at).1
}

fn front(bytes: &[u8], size: usize) -> &[u8]
    ensures { result.now ≡ take size bytes.now }
{
    if bytes.len() < size {
        return bytes;
    }
    bytes.split_at(size).0
}

// The names that stand in the bytes of a request.
fn names_in(bytes: &[u8]) -> Names<'_>
    ensures { fields_of result ≡ names_in bytes.now }
{
    Names {
        authid: field(bytes, 1, 28),
        authdom: field(bytes, 29, 48),
        hostid: field(bytes, 85, 28),
        uid: field(bytes, 113, 28),
    }
}

// The turns in which a role takes a message.
fn turns_that_take(role: Role) -> &'static [usize]
    ensures { result.now ≡ turns_that_take (role_of role) }
{
    match role {
        Role::Client => &[1, 5],
        Role::Server => &[0, 2],
        Role::MailClient(_) => &[0],
        Role::MailServer(_) => &[3, 4],
    }
}

fn is_turn(turns: &[usize], done: usize) -> bool
    ensures { result ≡ list_any (λ turn. turn == done) turns.now }
{
    turns.iter().any(|turn| *turn == done)
}

#[tactic(auto, using(crate::proofs::ConversationLaws::turns_so))]
fn takes_now(role: Role, moves: &[Move]) -> bool
    ensures { result ≡ takes_now (role_of role) (newest_first moves.now) }
{
    is_turn(turns_that_take(role), moves.len())
}

// The newest move, and those before it.
#[tactic(auto, using(crate::proofs::EndLaws::last_parts, crate::proofs::EndLaws::none_last))]
fn newest(moves: &[Move]) -> Option<(&Move, &[Move])>
    ensures { option_map (λ parts. move_of parts.0.now ∷ newest_first parts.1.now) result
        ≡ some_moves (newest_first moves.now) }
{
    moves.split_last()
}

fn heard_first(moves: &[Move]) -> Option<&Term>
    ensures { option_map (λ term. tree term.now) result ≡ heard_first (newest_first moves.now) }
{
    let (answer, _) = newest(moves)?;
    answer.heard()
}

fn taken_first(moves: &[Move]) -> Option<&Term>
    ensures { option_map (λ term. tree term.now) result ≡ taken_first (newest_first moves.now) }
{
    let (message, _) = newest(moves)?;
    message.taken()
}

// What was heard before the newest move, which gave.
fn heard_before(moves: &[Move]) -> Option<&Term>
    ensures { option_map (λ term. tree term.now) result ≡ heard_before (newest_first moves.now) }
{
    let (message, before) = newest(moves)?;
    message.given()?;
    heard_first(before)
}

// What was heard before the two newest moves, which gave and took.
fn answer_before(moves: &[Move]) -> Option<&Term>
    ensures { option_map (λ term. tree term.now) result ≡ answer_before (newest_first moves.now) }
{
    let (proof, before) = newest(moves)?;
    proof.taken()?;
    heard_before(before)
}

// The server's user in the ticket that a client opened.
fn opened_user(answer: Option<&Term>) -> &[u8]
    ensures { result.now ≡ bytes (part (opened (found_tree answer.entry)) 3) }
{
    match answer {
        Some(answer) => inner_bytes(opened(answer), 3),
        None => &[],
    }
}

fn shown_user(message: Option<&Term>) -> &[u8]
    ensures { result.now ≡ bytes (part (shown (found_tree message.entry)) 3) }
{
    match message {
        Some(message) => inner_bytes(shown(message), 3),
        None => &[],
    }
}

// The field of the user in the ticket by which a conversation accepts.
#[tactic(auto, using(crate::proofs::EndLaws::client_field, crate::proofs::EndLaws::server_field, crate::proofs::EndLaws::mail_field))]
fn accepted_field(role: Role, moves: &[Move]) -> &[u8]
    ensures { result.now ≡ accepted_field (role_of role) (newest_first moves.now) }
{
    match role {
        Role::Client => opened_user(answer_before(moves)),
        Role::Server => shown_user(taken_first(moves)),
        Role::MailClient(_) => &[],
        Role::MailServer(_) => opened_user(heard_first(moves)),
    }
}

// Puts a move behind the others, if there is one.
#[tactic(auto, using(crate::proofs::ConversationLaws::put_one))]
fn put(moves: &mut Vec<Move>, made: Option<Move>) -> Result<(), NoMemory>
    ensures ok { OnOk result (newest_first moves.new.items
        ≡ if_some (option_map move_of made) ++ newest_first moves.old.items) }
    ensures err { OnErr result (newest_first moves.new.items ≡ newest_first moves.old.items) }
{
    match made {
        Some(made) => {
            moves.push(made)?;
            Ok(())
        }
        None => Ok(()),
    }
}

// The label of what a move gives, if it gives something.
fn label_of(alloc: Global, made: Option<&Move>) -> Result<Option<Term>, NoMemory>
    ensures { IfOk result (λ label. option_map tree label
        ≡ label_of (option_map (λ m. move_of m.now) made.entry)) }
{
    match made {
        Some(Move::Gives(term) | Move::Asks(term)) => Ok(Some(term.copy(alloc)?)),
        Some(Move::Takes(_) | Move::Hears(_) | Move::Accepts(_) | Move::Fails) | None => Ok(None),
    }
}

/// A conversation, with what it has of its own and the moves that it made.
#[derive(Drop)]
pub struct Conversation {
    own: Own,
    role: Role,
    stage: Stage,
    moves: Vec<Move>,
}

impl Conversation {
    /// A conversation that did nothing yet. It takes no memory.
    pub fn new(alloc: Global, own: Own, role: Role) -> Conversation
        ensures { StandsFor (own_of own) (role_of role) [] result }
    {
        Conversation {
            own,
            role,
            stage: Stage::Unstarted,
            moves: Vec::new(alloc),
        }
    }

    pub fn own(&self) -> &Own
        ensures { result.now ≡ self.now.own }
    {
        &self.own
    }

    pub fn role(&self) -> Role
        ensures { result ≡ self.now.role }
    {
        self.role
    }

    /// Its moves, the newest last.
    pub fn moves(&self) -> &[Move]
        ensures { result.now ≡ self.now.moves.items }
    {
        &self.moves
    }

    /// Does what a record tells next, and answers what it gives to the network by it: the label of what it gives or asks,
    /// or the bytes as they are while a protocol is being chosen; None exactly where it gives nothing. It takes time for
    /// the trees of this act and of the moves that its form speaks of, and none for the moves before them. Where memory
    /// runs out nothing changes.
    pub fn act(&mut self, act: &Act) -> Result<Option<Term>, NoMemory>
        ensures ok { (own : table.Own) (role : table.Role) (acts : List Labelled) (a : Labelled)
            → Tells act.now a → StandsFor own role acts self.old
            → OnOk result (StandsFor own role (a ∷ acts) self.new) }
        ensures err { (own : table.Own) (role : table.Role) (acts : List Labelled)
            → StandsFor own role acts self.old → OnErr result (StandsFor own role acts self.new) }
        ensures given { (own : table.Own) (role : table.Role) (acts : List Labelled) (a : Labelled)
            → Tells act.now a → StandsFor own role acts self.old
            → IfOk result (λ gives. (s : Setting) (number : ℕ)
            → given s (events_by number own role acts a) ≡ if_some (option_map tree gives)) }
    {
        let made = self.next_move(act)?;
        let gives = self.gives(act, made.as_ref())?;
        put(&mut self.moves, made)?;
        self.stage = self.stage.after(act);
        Ok(gives)
    }

    // What an act gives to the network, by the move that it is, if it is one.
    fn gives(&self, act: &Act, made: Option<&Move>) -> Result<Option<Term>, NoMemory>
        ensures { (a : Labelled) → Tells act.now a → IfOk result (λ gives. option_map tree gives
            ≡ given_by a.act (chooses self.now.stage) (option_map (λ m. move_of m.now) made.entry)) }
    {
        let alloc = *self.moves.allocator();
        match act {
            Act::Gave(bytes) if self.stage.chooses() => {
                Ok(Some(Term::Pub(Bytes::from_slice(alloc, bytes)?)))
            }
            Act::Started(_)
            | Act::Gave(_)
            | Act::Took { .. }
            | Act::Asked(_)
            | Act::Answered(_)
            | Act::Unanswered
            | Act::Accepted
            | Act::Failed => label_of(alloc, made),
        }
    }

    // The move of an act, if it is one.
    fn next_move(&self, act: &Act) -> Result<Option<Move>, NoMemory>
        ensures { (a : Labelled) → Tells act.now a → IfOk result (λ made.
            if_some (option_map move_of made) ≡ moves_for (own_of self.now.own)
            (role_of self.now.role) (chooses self.now.stage) (newest_first self.now.moves.items)
            a.act a.label) }
    {
        let alloc = *self.moves.allocator();
        match act {
            Act::Gave(bytes) => self.gift(alloc, bytes),
            Act::Took { label, .. } => self.taken(alloc, label),
            Act::Asked(bytes) => {
                next_gift(alloc, &self.own, self.role, &self.moves, &names_in(bytes))
            }
            Act::Answered(label) => Ok(Some(Move::Hears(label.copy(alloc)?))),
            Act::Accepted => {
                let user = accepted_field(self.role, &self.moves);
                Ok(Some(Move::Accepts(Bytes::from_slice(alloc, user)?)))
            }
            Act::Failed => Ok(Some(Move::Fails)),
            Act::Started(_) | Act::Unanswered => Ok(None),
        }
    }

    // What is given, unless a protocol is being chosen still.
    fn gift(&self, alloc: Global, bytes: &[u8]) -> Result<Option<Move>, NoMemory>
        ensures { (label : Tree) → IfOk result (λ made. if_some (option_map move_of made)
            ≡ moves_for (own_of self.now.own) (role_of self.now.role) (chooses self.now.stage)
            (newest_first self.now.moves.items) (gave bytes.now) label) }
    {
        if self.stage.chooses() {
            return Ok(None);
        }
        next_gift(alloc, &self.own, self.role, &self.moves, &names_in(bytes))
    }

    // What is taken, in a turn that takes a message, unless a protocol is being chosen still.
    fn taken(&self, alloc: Global, label: &Term) -> Result<Option<Move>, NoMemory>
        ensures { (bytes : List ℕ) → IfOk result (λ made. if_some (option_map move_of made)
            ≡ moves_for (own_of self.now.own) (role_of self.now.role) (chooses self.now.stage)
            (newest_first self.now.moves.items) (took bytes) (tree label.now)) }
    {
        if self.stage.chooses() || !takes_now(self.role, &self.moves) {
            return Ok(None);
        }
        Ok(Some(Move::Takes(label.copy(alloc)?)))
    }
}
