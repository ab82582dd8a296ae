// The machine of APOP and CRAM.
ghost use Rattle.std.specs.Prelude.{◌≡◌, ◌++◌, [], true, None, IfOk, List, ℕ, option_map};
ghost use Rattle.attr_tuples.specs.Attributes.{is_tuple};
ghost use Rattle.roles.specs.Answers.{bytes_with};
ghost use Rattle.roles.specs.Courses.{answer_of, bytes_of};
ghost use Rattle.roles.specs.Starts.{fits_start, start_with};
ghost use Rattle.roles.specs.Talks.{found, get, give, heard, roomless, undone, unheard};
ghost use Rattle.conv_challenge.specs.Courses.{first_stage};
ghost use Rattle.conv_challenge.specs.Standing.{Follows, MayFollow, Needs, Stands, verdict_in};
ghost use Rattle.conv_challenge.specs.Starts.{proto_of, side_of};
ghost use Rattle.conv_challenge.specs.Steps.{start_of, verdict_of, with_bytes};

use crate::moves::{
    judge_found, judge_given, judge_heard, judge_roomless, judge_undone, judge_unheard, put_message,
};
use crate::need::{make_need, make_next};
use crate::outcome::{find_outcome, is_last};
use crate::own::Own;
use crate::stage::{Proto, Side, Stage};
use crate::start::read_start;
use crate::step::Step;
use attr_tuples::Tuple;
use roles::{Cause, Gave, Machine, Need, Outcome, PhaseWord, SkKey, StartFault, refuse};
use std::alloc::Global;
use wire_base::{Bytes, NoMemory, Text};

/// A conversation of APOP or CRAM. It has no Debug, which would print keys and passwords.
#[derive(Drop)]
pub struct ChConv {
    own: Own,
    stage: Stage,
    broken: Option<Cause>,
    need: Need,
}

// A conversation that has just begun.
fn begin(
    alloc: Global,
    template: &Tuple,
    word: [u8; 8],
    proto: Proto,
    side: Side,
) -> Result<ChConv, NoMemory>
    requires proto { proto ≡ proto_of template.now }
    requires side { side ≡ side_of template.now }
    requires valid { is_tuple template.now ≡ true }
    requires few { fits_start template.now ≡ true }
    ensures { IfOk result (λ c. Stands c (start_with template.now word) []) }
{
    let template = template.copy()?;
    let own = Own {
        template,
        word,
        proto,
        side,
    };
    let stage = first_stage(side);
    let need = make_need(alloc, &own, &stage)?;
    Ok(ChConv {
        own,
        stage,
        broken: None,
        need,
    })
}

fn first_stage(side: Side) -> Stage
    ensures { result ≡ first_stage side }
{
    match side {
        Side::Client => Stage::ClientFirst,
        Side::Server => Stage::ServerKey,
    }
}

impl ChConv {
    // Goes on as a step says, with what is needed then.
    fn advance(&mut self, step: Step, need: Need) -> Gave
        requires whole { self.old.broken ≡ None }
        requires need { Needs (start_of self.old.own) step need }
        ensures answer { (bytes : List ℕ) → result ≡ answer_of (with_bytes step bytes) }
        ensures follows { (bytes : List ℕ) → Follows self.old self.new (with_bytes step bytes) }
        ensures unchanged { result ≡ Gave.NoMemory → self.new ≡ self.old }
    {
        match step {
            Step::Goes(next) => {
                self.stage = next;
                self.need = need;
                Gave::Ok
            }
            Step::Waits(next) => {
                self.stage = next;
                self.need = need;
                Gave::Wait
            }
            Step::Stays(answer) => answer,
            Step::Breaks(cause) => {
                self.broken = Some(cause);
                self.need = Need::Nothing;
                refuse(cause)
            }
        }
    }

    // Goes on as a step says, where there is memory for what is needed then.
    fn settle(&mut self, alloc: Global, step: Step) -> Gave
        requires { self.old.broken ≡ None }
        ensures { MayFollow self.old self.new result (verdict_of step) }
    {
        match make_next(alloc, &self.own, &step) {
            Ok(need) => self.advance(step, need),
            Err(NoMemory) => Gave::NoMemory,
        }
    }

    fn take_given(&mut self, alloc: Global, bytes: &[u8]) -> Gave
        ensures { MayFollow self.old self.new result (verdict_in self.old (give bytes.now)) }
    {
        if self.broken.is_some() {
            return Gave::Phase(PhaseWord::Broken);
        }
        match judge_given(alloc, &self.own, &self.stage, bytes) {
            Ok(step) => self.settle(alloc, step),
            Err(NoMemory) => Gave::NoMemory,
        }
    }

    fn take_got(&mut self, out: &mut Bytes) -> Gave
        ensures follows { MayFollow self.old self.new result (verdict_in self.old get) }
        ensures put { out.new ≡ out.old ++ bytes_with result (bytes_of (verdict_in self.old get)) }
    {
        if self.broken.is_some() {
            return Gave::Phase(PhaseWord::Broken);
        }
        match put_message(&self.own, &self.stage, out) {
            Ok(step) => self.advance(step, Need::Nothing),
            Err(NoMemory) => Gave::NoMemory,
        }
    }

    fn take_key(&mut self, alloc: Global, key: &SkKey, password: Option<&Text>) -> Gave
        ensures { MayFollow self.old self.new result (verdict_in self.old
            (found key.now (option_map (λ text. text.now) password.entry))) }
    {
        if self.broken.is_some() {
            return Gave::Phase(PhaseWord::Broken);
        }
        match judge_found(alloc, &self.own, &self.stage, key, password) {
            Ok(step) => self.settle(alloc, step),
            Err(NoMemory) => Gave::NoMemory,
        }
    }

    fn take_heard(&mut self, alloc: Global, answer: &[u8]) -> Gave
        ensures { MayFollow self.old self.new result (verdict_in self.old (heard answer.now)) }
    {
        if self.broken.is_some() {
            return Gave::Phase(PhaseWord::Broken);
        }
        match judge_heard(alloc, &self.own, &self.stage, answer) {
            Ok(step) => self.settle(alloc, step),
            Err(NoMemory) => Gave::NoMemory,
        }
    }

    fn take_unheard(&mut self) -> Gave
        ensures answer { result ≡ answer_of (verdict_in self.old unheard) }
        ensures follows { Follows self.old self.new (verdict_in self.old unheard) }
    {
        match self.broken {
            Some(_) => Gave::Phase(PhaseWord::Broken),
            None => {
                let step = judge_unheard(&self.own, &self.stage);
                self.advance(step, Need::Nothing)
            }
        }
    }

    fn take_roomless(&mut self) -> Gave
        ensures answer { result ≡ answer_of (verdict_in self.old roomless) }
        ensures follows { Follows self.old self.new (verdict_in self.old roomless) }
    {
        match self.broken {
            Some(_) => Gave::Phase(PhaseWord::Broken),
            None => {
                let step = judge_roomless(&self.own, &self.stage);
                self.advance(step, Need::Nothing)
            }
        }
    }

    fn take_undone(&mut self) -> Gave
        ensures answer { result ≡ answer_of (verdict_in self.old undone) }
        ensures follows { Follows self.old self.new (verdict_in self.old undone) }
    {
        match self.broken {
            Some(_) => Gave::Phase(PhaseWord::Broken),
            None => {
                let step = judge_undone(&self.own, &self.stage);
                self.advance(step, Need::Nothing)
            }
        }
    }
}

impl Machine for ChConv {
    ghost use Rattle.conv_challenge.specs.Courses.{answer_after, ended_after, need_after, outcome_after, puts_after};
    ghost use Rattle.conv_challenge.specs.Starts.{start_fault};

    ghost refuses = { start_fault };

    ghost answers = { answer_after };

    ghost puts = { puts_after };

    ghost needs = { need_after };

    ghost ends = { outcome_after };

    ghost ended = { ended_after };

    ghost stands = { Stands };

    fn start(alloc: Global, template: &Tuple, word: [u8; 8]) -> Result<ChConv, StartFault> {
        let (proto, side) = read_start(template)?;
        match begin(alloc, template, word, proto, side) {
            Ok(conv) => Ok(conv),
            Err(NoMemory) => Err(StartFault::NoMemory),
        }
    }

    fn give(&mut self, alloc: Global, bytes: &[u8]) -> Gave {
        self.take_given(alloc, bytes)
    }

    fn get(&mut self, out: &mut Bytes) -> Gave {
        self.take_got(out)
    }

    fn need(&self) -> &Need {
        &self.need
    }

    fn with_key(&mut self, alloc: Global, key: &SkKey, password: Option<&Text>) -> Gave {
        self.take_key(alloc, key, password)
    }

    fn with_answer(&mut self, alloc: Global, answer: &[u8]) -> Gave {
        self.take_heard(alloc, answer)
    }

    fn without_answer(&mut self) -> Gave {
        self.take_unheard()
    }

    fn without_room(&mut self) -> Gave {
        self.take_roomless()
    }

    fn undo_need(&mut self) {
        let _answer = self.take_undone();
    }

    fn outcome(&self) -> Outcome {
        match self.broken {
            Some(cause) => Outcome::Broken(cause),
            None => find_outcome(&self.stage),
        }
    }

    fn has_ended(&self) -> bool {
        is_last(&self.stage)
    }
}
