// What a machine of a role is to what stands above it.
ghost use Rattle.std.specs.Prelude.{◌≡◌, ℕ, List, [], Bool, true, Option, None, IfOk, IfErr, option_map};
ghost use Rattle.attr_tuples.specs.declared.attr.Attr.{Attr};
ghost use Rattle.roles.specs.declared.answer.Gave.{Gave};
ghost use Rattle.roles.specs.declared.answer.Gave.TheVariants.{NoMemory};
ghost use Rattle.roles.specs.declared.answer.StartFault.{StartFault};
ghost use Rattle.roles.specs.declared.need.Need.{Need};
ghost use Rattle.roles.specs.declared.need.Outcome.{Outcome};
ghost use Rattle.attr_tuples.specs.declared.attr.Value.TheVariants.{Is};
ghost use Rattle.attr_tuples.specs.Attributes.{is_value};
ghost use Rattle.roles.specs.Starts.{Start, start_with, fits_start, fault_of};
ghost use Rattle.roles.specs.Needs.{SeeksKeys};
ghost use Rattle.roles.specs.Talks.{Call, give, get, found, heard, unheard, roomless, undone};
ghost use Rattle.roles.specs.Answers.{IsTold, Tells, Keeps, TellsAlways, KeepsAlways, TakesBack, Puts, Shows};

use crate::answer::{Gave, StartFault};
use crate::key::SkKey;
use crate::need::{Need, Outcome};
use attr_tuples::Tuple;
use std::alloc::Global;
use wire_base::{Bytes, Text};

/// A conversation that does what its role says, whatever it is given. After `NoMemory` it is as before the call.
pub trait Machine {
    /// Why a template starts no conversation, if it starts none.
    ghost refuses: { List Attr → Option StartFault };

    /// What a call is answered after a talk.
    ghost answers: { Start → List Call → Call → Gave };

    /// The bytes that are got by a call after a talk.
    ghost puts: { Start → List Call → Call → List ℕ };

    /// What is needed after a talk.
    ghost needs: { Start → List Call → Need };

    /// How the conversation stands after a talk, as to its end.
    ghost ends: { Start → List Call → Outcome };

    /// Whether the last move was made in a talk.
    ghost ended: { Start → List Call → Bool };

    /// This machine was started so, and had this talk.
    ghost stands: { Self → Start → List Call → Type 0 };

    /// Starts a conversation by a template, with a random word.
    fn start(alloc: Global, template: &Tuple, word: [u8; 8]) -> Result<Self, StartFault>
        requires few { fits_start template.now ≡ true }
        ensures started { IfOk result (λ m. stands m (start_with template.now word) []) }
        ensures valid { IfOk result (λ m. refuses template.now ≡ None) }
        ensures refused { IfErr result (λ fault. IsTold fault (refuses template.now)) };

    /// A message comes from the other side.
    fn give(&mut self, alloc: Global, bytes: &[u8]) -> Gave
        ensures told { Tells stands answers self.old result (give bytes.now) }
        ensures kept { Keeps stands self.old self.new result (give bytes.now) }
        ensures unchanged { result ≡ NoMemory → self.new ≡ self.old };

    /// A message for the other side is put behind what stands.
    fn get(&mut self, out: &mut Bytes) -> Gave
        ensures told { Tells stands answers self.old result get }
        ensures put { Puts stands puts self.old result get out.old out.new }
        ensures kept { Keeps stands self.old self.new result get }
        ensures unchanged { result ≡ NoMemory → self.new ≡ self.old };

    /// What is needed before the conversation can go on.
    fn need(&self) -> &Need
        ensures { Shows stands needs self.now result.now };

    /// The key that is needed was found; where it has a password, it is this.
    fn with_key(&mut self, alloc: Global, key: &SkKey, password: Option<&Text>) -> Gave
        ensures told { Tells stands answers self.old result
            (found key.now (option_map (λ text. text.now) password.entry)) }
        ensures kept { Keeps stands self.old self.new result
            (found key.now (option_map (λ text. text.now) password.entry)) }
        ensures unchanged { result ≡ NoMemory → self.new ≡ self.old };

    /// The authentication server answered.
    fn with_answer(&mut self, alloc: Global, answer: &[u8]) -> Gave
        ensures told { Tells stands answers self.old result (heard answer.now) }
        ensures kept { Keeps stands self.old self.new result (heard answer.now) }
        ensures unchanged { result ≡ NoMemory → self.new ≡ self.old };

    /// The authentication server wasn't reached. It takes no memory.
    fn without_answer(&mut self) -> Gave
        ensures told { TellsAlways stands answers self.old result unheard }
        ensures kept { KeepsAlways stands self.old self.new unheard };

    /// There was no memory for the authentication server's answer. It takes no memory itself.
    fn without_room(&mut self) -> Gave
        ensures told { TellsAlways stands answers self.old result roomless }
        ensures kept { KeepsAlways stands self.old self.new roomless };

    /// The call that wanted a key is taken back: the conversation is as before it. It takes no memory. What a start
    /// wants isn't taken back so; the machine is dropped.
    fn undo_need(&mut self)
        ensures kept { KeepsAlways stands self.old self.new undone }
        ensures back { TakesBack stands needs self.old self.new };

    /// How the conversation stands, as to its end. It takes no memory.
    fn outcome(&self) -> Outcome
        ensures { Shows stands ends self.now result };

    /// Whether the last move was made. It takes no memory.
    fn has_ended(&self) -> bool
        ensures { Shows stands ended self.now result };
}

/// A machine of a protocol whose domains p9any offers. Its roles are client, server and speakfor.
pub trait Offered: Machine {
    /// The protocol's name, as a list of offers and a template have it.
    ghost protocol: { List ℕ };

    /// That name.
    fn protocol_name() -> &'static [u8]
        ensures { result.now ≡ protocol };

    /// A name may stand in a template.
    ghost valid: { is_value (Is protocol) ≡ true };

    /// A template that meets the rules of starts of this protocol isn't refused.
    ghost starts: { (template : List Attr) → fault_of protocol template ≡ None → Self.refuses template ≡ None };

    /// What is needed.
    ghost seeks: { SeeksKeys Self.needs Self.answers };
}
