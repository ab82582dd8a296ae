// The choice of a domain, as far as it has come.
ghost use Rattle.std.specs.Prelude.{◌≡◌, ◌≢◌, IfOk, List, None, OnErr, Option, codes, true, ℕ};
ghost use Rattle.attr_tuples.specs.Attributes.{is_tuple, is_value};
ghost use Rattle.attr_tuples.specs.declared.attr.Value.TheVariants.{Is};
ghost use Rattle.roles.specs.Courses.{answer_of};
ghost use Rattle.roles.specs.Starts.{fault_of, fits_start, role_of, start_with};
ghost use Rattle.roles.specs.Talks.{found, heard, offered, picked, roomless, undone, unheard};
ghost use Rattle.conv_p9any.specs.Courses.{Entry, choice_need, first_stage};
ghost use Rattle.conv_p9any.specs.Moves.{advanced, as_key, as_offers};
ghost use Rattle.conv_p9any.specs.declared.stage.Stage.TheVariants.{ServerOffers};
ghost use Rattle.conv_p9any.specs.Standing.{Begins, Follows, Gets, Takes, verdict_in};
ghost use Rattle.conv_p9any.specs.Steps.{IsNeeded, start_of, verdict_of};

use crate::judge::build_choice;
use crate::need::ask_first;
use crate::offers::consents;
use crate::own::Own;
use crate::stage::Stage;
use crate::step::{Step, idle};
use crate::texts::put_text;
use attr_tuples::Tuple;
use roles::{Cause, Gave, Need, PhaseWord, Role, SkKey, refuse};
use std::alloc::Global;
use std::mem;
use wire_base::{Bytes, NoMemory};

/// A choice: its start, how far it is, why it is broken, if it is, and what it needs.
#[derive(Drop)]
pub struct Chooser {
    pub own: Own,
    pub stage: Stage,
    pub broken: Option<Cause>,
    pub need: Need,
}

/// What a call comes to by which a message is got.
#[derive(Drop)]
pub enum Got {
    Answered(Gave),
    /// Nothing was got so far: this text is to be, and it chooses a domain.
    Chosen(Bytes),
}

// A choice that has just begun.
pub fn begin(
    alloc: Global,
    protocol: &[u8],
    template: &Tuple,
    word: [u8; 8],
    role: Role,
) -> Result<Chooser, NoMemory>
    requires protocol { is_value (Is protocol.now) ≡ true }
    requires role { role ≡ role_of template.now }
    requires valid { is_tuple template.now ≡ true }
    requires few { fits_start template.now ≡ true }
    requires starts { fault_of (codes "p9any") template.now ≡ None }
    ensures { IfOk result (λ c. Begins protocol.now (start_with template.now word) c) }
{
    let template = template.copy()?;
    let own = Own {
        template,
        word,
        role,
    };
    let stage = first_stage(&own.role);
    let need = first_need(alloc, protocol, &own)?;
    Ok(Chooser {
        own,
        stage,
        broken: None,
        need,
    })
}

fn first_stage(role: &Role) -> Stage
    ensures { result ≡ first_stage role.now }
{
    match role {
        Role::Client | Role::Speakfor { .. } => Stage::ClientFirst,
        Role::Server => Stage::ServerOffers,
    }
}

fn first_need(alloc: Global, protocol: &[u8], own: &Own) -> Result<Need, NoMemory>
    requires { is_value (Is protocol.now) ≡ true }
    ensures { IfOk result (λ need. need
        ≡ choice_need protocol.now (start_of own.now) (first_stage own.now.role)) }
{
    match own.role {
        Role::Client | Role::Speakfor { .. } => Ok(Need::Nothing),
        Role::Server => Ok(Need::Offers(ask_first(alloc, protocol, own)?)),
    }
}

impl Chooser {
    /// Goes on as a step says.
    pub fn advance(&mut self, step: Step) -> Gave
        requires { self.old.broken ≡ None }
        ensures answer { result ≡ answer_of (verdict_of step) }
        ensures follows { (name : List ℕ) → IsNeeded name (start_of self.old.own) step
            → Follows name self.old self.new (verdict_of step) }
        ensures unchanged { result ≡ Gave.NoMemory → self.new ≡ self.old }
    {
        match step {
            Step::Waits { next, need } => {
                self.stage = next;
                self.need = need;
                Gave::Wait
            }
            Step::Stays(answer) => answer,
            Step::Breaks(cause) => {
                self.broken = Some(cause);
                self.need = Need::Nothing;
                refuse(cause)
            }
        }
    }

    /// A message is got, where that chooses no domain.
    pub fn take_got(
        &mut self,
        alloc: Global,
        protocol: &[u8],
        out: &mut Bytes,
    ) -> Result<Got, NoMemory>
        ensures gets { IfOk result (λ got.
            Gets protocol.now self.old self.new out.old out.new got) }
        ensures err { OnErr result (self.new ≡ self.old) }
        ensures out { OnErr result (out.new ≡ out.old) }
    {
        if self.broken.is_some() {
            return Ok(Got::Answered(Gave::Phase(PhaseWord::Broken)));
        }
        match &self.stage {
            Stage::ServerFirst { list } => {
                put_text(list.as_slice(), out)?;
                self.move_on();
                Ok(Got::Answered(Gave::Ok))
            }
            Stage::ClientSecond { list, place } => {
                let text = build_choice(alloc, protocol, &self.own, list, *place)?;
                if !consents(list.as_slice()) {
                    return Ok(Got::Chosen(text));
                }
                put_text(text.as_slice(), out)?;
                self.move_on();
                Ok(Got::Answered(Gave::Ok))
            }
            Stage::ServerOffers
            | Stage::ServerKey
            | Stage::ServerSecond { .. }
            | Stage::ClientFirst
            | Stage::ClientPick { .. }
            | Stage::ClientThird { .. } => Ok(Got::Answered(idle(&self.stage))),
        }
    }

    // A message was got.
    fn move_on(&mut self)
        ensures stage { self.new.stage ≡ advanced self.old.stage }
        ensures own { self.new.own ≡ self.old.own }
        ensures broken { self.new.broken ≡ self.old.broken }
        ensures need { self.new.need ≡ self.old.need }
    {
        let stage = mem::replace(&mut self.stage, Stage::ClientFirst);
        self.stage = advanced(stage);
    }

    /// The offers came. It takes no memory.
    pub fn take_offers(&mut self, list: Bytes) -> Gave
        ensures { (name : List ℕ) → Takes name self.old self.new result (offered list) }
    {
        if self.broken.is_some() {
            return Gave::Phase(PhaseWord::Broken);
        }
        match self.stage {
            Stage::ServerOffers => self.put_offers(list),
            Stage::ServerKey
            | Stage::ServerFirst { .. }
            | Stage::ServerSecond { .. }
            | Stage::ClientFirst
            | Stage::ClientPick { .. }
            | Stage::ClientSecond { .. }
            | Stage::ClientThird { .. } => idle(&self.stage),
        }
    }

    fn put_offers(&mut self, list: Bytes) -> Gave
        requires whole { self.old.broken ≡ None }
        requires stage { self.old.stage ≡ ServerOffers }
        ensures { (name : List ℕ) → Takes name self.old self.new result (offered list) }
    {
        if list.len() == 0 {
            let need = mem::replace(&mut self.need, Need::Nothing);
            self.need = as_key(need);
            self.stage = Stage::ServerKey;
            Gave::Wait
        } else {
            self.need = Need::Nothing;
            self.stage = Stage::ServerFirst { list };
            Gave::Ok
        }
    }

    /// A key was found. It takes no memory.
    pub fn take_key(&mut self, key: &SkKey) -> Gave
        ensures told { result ≢ Gave.NoMemory }
        ensures takes { (name : List ℕ) (password : Option (List ℕ)) →
            Takes name self.old self.new result (found key.now password) }
    {
        if self.broken.is_some() {
            return Gave::Phase(PhaseWord::Broken);
        }
        match self.stage {
            Stage::ServerKey => {
                let need = mem::replace(&mut self.need, Need::Nothing);
                self.need = as_offers(need);
                self.stage = Stage::ServerOffers;
                Gave::Wait
            }
            Stage::ServerOffers
            | Stage::ServerFirst { .. }
            | Stage::ServerSecond { .. }
            | Stage::ClientFirst
            | Stage::ClientPick { .. }
            | Stage::ClientSecond { .. }
            | Stage::ClientThird { .. } => idle(&self.stage),
        }
    }

    /// A template was picked. It takes no memory.
    pub fn take_pick(&mut self, place: u32) -> Gave
        ensures { (name : List ℕ) → Takes name self.old self.new result (picked place) }
    {
        if self.broken.is_some() {
            return Gave::Phase(PhaseWord::Broken);
        }
        match mem::replace(&mut self.stage, Stage::ClientFirst) {
            Stage::ClientPick { list } => {
                self.need = Need::Nothing;
                self.stage = Stage::ClientSecond { list, place };
                Gave::Ok
            }
            stage => {
                self.stage = stage;
                idle(&self.stage)
            }
        }
    }

    /// The call that wanted something is taken back. It takes no memory.
    pub fn take_undone(&mut self)
        ensures { (name : List ℕ) (enter : Entry) →
            Follows name self.old self.new (verdict_in name enter self.old undone) }
    {
        if self.broken.is_some() {
            return;
        }
        match self.stage {
            Stage::ClientPick { .. } => {
                self.need = Need::Nothing;
                self.stage = Stage::ClientFirst;
            }
            Stage::ServerOffers
            | Stage::ServerKey
            | Stage::ServerFirst { .. }
            | Stage::ServerSecond { .. }
            | Stage::ClientFirst
            | Stage::ClientSecond { .. }
            | Stage::ClientThird { .. } => {}
        }
    }

    /// What a call is answered that is no move of the choice.
    pub fn stay(&self) -> Gave
        ensures told { result ≢ Gave.NoMemory }
        ensures heard { (name bytes : List ℕ) →
            Takes name self.now self.now result (heard bytes) }
        ensures unheard { (name : List ℕ) → Takes name self.now self.now result unheard }
        ensures roomless { (name : List ℕ) → Takes name self.now self.now result roomless }
    {
        match self.broken {
            Some(_) => Gave::Phase(PhaseWord::Broken),
            None => idle(&self.stage),
        }
    }
}

fn advanced(stage: Stage) -> Stage
    ensures { result ≡ advanced stage }
{
    match stage {
        Stage::ServerFirst { list } => Stage::ServerSecond { list },
        Stage::ClientSecond { list, place } => Stage::ClientThird { list, place },
        other => other,
    }
}

fn as_key(need: Need) -> Need
    ensures { result ≡ as_key need }
{
    match need {
        Need::Offers(template) | Need::Key(template) => Need::Key(template),
        Need::Nothing | Need::Pick(_) | Need::Exchange { .. } => Need::Nothing,
    }
}

fn as_offers(need: Need) -> Need
    ensures { result ≡ as_offers need }
{
    match need {
        Need::Offers(template) | Need::Key(template) => Need::Offers(template),
        Need::Nothing | Need::Pick(_) | Need::Exchange { .. } => Need::Nothing,
    }
}
