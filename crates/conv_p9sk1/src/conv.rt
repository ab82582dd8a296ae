// The machine of p9sk1.
ghost use Rattle.std.specs.Prelude.{◌≡◌, ◌≢◌, ◌++◌, [], true, None, IfOk, List, ℕ, Option, option_map};
ghost use Rattle.attr_tuples.specs.Attributes.{is_tuple};
ghost use Rattle.roles.specs.Answers.{bytes_with};
ghost use Rattle.roles.specs.Courses.{answer_of, bytes_of, first_stage, is_last};
ghost use Rattle.roles.specs.Starts.{fits_start, role_of, start_with};
ghost use Rattle.roles.specs.Talks.{found, get, give, heard, roomless, undone, unheard};
ghost use Rattle.conv_p9sk1.specs.Standing.{Follows, MayFollow, Needs, Stands, progress_of, verdict_in};
ghost use Rattle.conv_p9sk1.specs.Steps.{IsReady, LeadsOn, NeedsNothing, start_of, verdict_of, with_bytes};

use crate::moves::{
    judge_found, judge_given, judge_heard, judge_roomless, judge_undone, judge_unheard, put_message,
};
use crate::need::{make_need, make_next};
use crate::outcome::find_outcome;
use crate::own::Own;
use crate::step::Step;
use attr_tuples::Tuple;
use roles::{
    Cause, Gave, Machine, Need, Offered, Outcome, PhaseWord, Role, SkKey, Stage, StartFault,
    read_start, refuse,
};
use std::alloc::Global;
use wire_base::{Bytes, NoMemory, Text};

/// A conversation of p9sk1. It has no Debug, which would print keys.
#[derive(Drop)]
pub struct SkConv {
    own: Own,
    stage: Stage,
    broken: Option<Cause>,
    need: Need,
}

// A conversation that has just begun.
fn begin(alloc: Global, template: &Tuple, word: [u8; 8], role: Role) -> Result<SkConv, NoMemory>
    requires role { role ≡ role_of template.now }
    requires valid { is_tuple template.now ≡ true }
    requires few { fits_start template.now ≡ true }
    ensures { IfOk result (λ c. Stands c (start_with template.now word) []) }
{
    let template = template.copy()?;
    let own = Own {
        template,
        word,
        role,
    };
    let stage = first_stage(&own.role);
    let need = make_need(alloc, &own, &stage)?;
    Ok(SkConv {
        own,
        stage,
        broken: None,
        need,
    })
}

fn first_stage(role: &Role) -> Stage
    ensures value { result ≡ first_stage role.now }
    ensures ready { IsReady result }
{
    match role {
        Role::Client | Role::Speakfor { .. } => Stage::ClientFirst,
        Role::Server => Stage::ServerKey,
    }
}

impl SkConv {
    // Goes on as a step says, with what is needed then.
    fn advance(&mut self, step: Step, need: Need) -> Gave
        requires whole { self.old.broken ≡ None }
        requires need { Needs (start_of self.old.own) step need }
        ensures answer { (bytes : List ℕ) → result ≡ answer_of (with_bytes step bytes) }
        ensures follows { (bytes : List ℕ) → Follows self.old self.new (with_bytes step bytes) }
        ensures unchanged { result ≡ Gave.NoMemory → self.new ≡ self.old }
    {
        match step {
            Step::Goes(next) => {
                self.stage = next;
                self.need = need;
                Gave::Ok
            }
            Step::Waits(next) => {
                self.stage = next;
                self.need = need;
                Gave::Wait
            }
            Step::Stays(answer) => answer,
            Step::Breaks(cause) => {
                self.broken = Some(cause);
                self.need = Need::Nothing;
                refuse(cause)
            }
        }
    }

    // Goes on as a step says, where there is memory for what is needed then.
    fn settle(&mut self, alloc: Global, step: Step) -> Gave
        requires whole { self.old.broken ≡ None }
        requires ready { LeadsOn step }
        ensures { MayFollow self.old self.new result (verdict_of step) }
    {
        match make_next(alloc, &self.own, &step) {
            Ok(need) => self.advance(step, need),
            Err(NoMemory) => Gave::NoMemory,
        }
    }

    fn take_given(&mut self, alloc: Global, bytes: &[u8]) -> Gave
        ensures { MayFollow self.old self.new result (verdict_in self.old (give bytes.now)) }
    {
        match self.broken {
            Some(_) => Gave::Phase(PhaseWord::Broken),
            None => {
                let step = judge_given(&self.own, &self.stage, bytes);
                self.settle(alloc, step)
            }
        }
    }

    fn take_got(&mut self, out: &mut Bytes) -> Gave
        ensures follows { MayFollow self.old self.new result (verdict_in self.old get) }
        ensures put { out.new ≡ out.old ++ bytes_with result (bytes_of (verdict_in self.old get)) }
    {
        match self.broken {
            Some(_) => Gave::Phase(PhaseWord::Broken),
            None => self.put_got(out),
        }
    }

    fn put_got(&mut self, out: &mut Bytes) -> Gave
        requires { self.old.broken ≡ None }
        ensures follows { MayFollow self.old self.new result (verdict_in self.old get) }
        ensures put { out.new ≡ out.old ++ bytes_with result (bytes_of (verdict_in self.old get)) }
    {
        match put_message(&self.own, &self.stage, out) {
            Ok(step) => self.advance(step, Need::Nothing),
            Err(_) => Gave::NoMemory,
        }
    }

    fn take_key(&mut self, alloc: Global, key: &SkKey) -> Gave
        ensures { (password : Option (List ℕ)) →
            MayFollow self.old self.new result (verdict_in self.old (found key.now password)) }
    {
        match self.broken {
            Some(_) => Gave::Phase(PhaseWord::Broken),
            None => {
                let step = judge_found(&self.own, &self.stage, key);
                self.settle(alloc, step)
            }
        }
    }

    fn take_heard(&mut self, alloc: Global, answer: &[u8]) -> Gave
        ensures { MayFollow self.old self.new result (verdict_in self.old (heard answer.now)) }
    {
        match self.broken {
            Some(_) => Gave::Phase(PhaseWord::Broken),
            None => {
                let step = judge_heard(&self.own, &self.stage, answer);
                self.settle(alloc, step)
            }
        }
    }

    fn take_unheard(&mut self) -> Gave
        ensures answer { result ≡ answer_of (verdict_in self.old unheard) }
        ensures follows { Follows self.old self.new (verdict_in self.old unheard) }
    {
        match self.broken {
            Some(_) => Gave::Phase(PhaseWord::Broken),
            None => {
                let step = judge_unheard(&self.own, &self.stage);
                self.advance(step, Need::Nothing)
            }
        }
    }

    fn take_roomless(&mut self) -> Gave
        ensures answer { result ≡ answer_of (verdict_in self.old roomless) }
        ensures follows { Follows self.old self.new (verdict_in self.old roomless) }
    {
        match self.broken {
            Some(_) => Gave::Phase(PhaseWord::Broken),
            None => {
                let step = judge_roomless(&self.own, &self.stage);
                self.advance(step, Need::Nothing)
            }
        }
    }

    fn take_undone(&mut self) -> Gave
        ensures answer { result ≡ answer_of (verdict_in self.old undone) }
        ensures follows { Follows self.old self.new (verdict_in self.old undone) }
    {
        match self.broken {
            Some(_) => Gave::Phase(PhaseWord::Broken),
            None => {
                let step = judge_undone(&self.own, &self.stage);
                self.advance(step, Need::Nothing)
            }
        }
    }
}

impl Machine for SkConv {
    ghost use Rattle.roles.specs.Courses.{answer_after, ended_after, need_after, outcome_after, puts_after};
    ghost use Rattle.roles.specs.Starts.{start_fault};

    ghost refuses = { start_fault };

    ghost answers = { answer_after };

    ghost puts = { puts_after };

    ghost needs = { need_after };

    ghost ends = { outcome_after };

    ghost ended = { ended_after };

    ghost stands = { Stands };

    fn start(alloc: Global, template: &Tuple, word: [u8; 8]) -> Result<SkConv, StartFault> {
        let role = read_start(template)?;
        match begin(alloc, template, word, role) {
            Ok(conv) => Ok(conv),
            Err(NoMemory) => Err(StartFault::NoMemory),
        }
    }

    fn give(&mut self, alloc: Global, bytes: &[u8]) -> Gave {
        self.take_given(alloc, bytes)
    }

    fn get(&mut self, out: &mut Bytes) -> Gave {
        self.take_got(out)
    }

    fn need(&self) -> &Need {
        &self.need
    }

    fn with_key(&mut self, alloc: Global, key: &SkKey, password: Option<&Text>) -> Gave {
        self.take_key(alloc, key)
    }

    fn with_answer(&mut self, alloc: Global, answer: &[u8]) -> Gave {
        self.take_heard(alloc, answer)
    }

    fn without_answer(&mut self) -> Gave {
        self.take_unheard()
    }

    fn without_room(&mut self) -> Gave {
        self.take_roomless()
    }

    fn undo_need(&mut self) {
        let _answer = self.take_undone();
    }

    fn outcome(&self) -> Outcome {
        match self.broken {
            Some(cause) => Outcome::Broken(cause),
            None => find_outcome(&self.stage),
        }
    }

    fn has_ended(&self) -> bool {
        is_last(&self.stage)
    }
}

impl Offered for SkConv {
    ghost use Rattle.std.specs.Prelude.{codes};
    ghost use Rattle.roles.proofs.NeedLaws.{p9sk1_seeks};
    ghost use Rattle.roles.proofs.StartLemmas.{p9sk1_starts};
    ghost use Rattle.roles.proofs.ValueLemmas.{protocol_is_value};

    ghost protocol = { codes "p9sk1" };

    fn protocol_name() -> &'static [u8] {
        b"p9sk1".as_slice()
    }

    ghost valid = { protocol_is_value };

    ghost starts = { p9sk1_starts };

    ghost seeks = { p9sk1_seeks };
}

fn is_last(stage: &Stage) -> bool
    ensures { result ≡ is_last stage.now }
{
    match stage {
        Stage::ClientDone { .. } | Stage::ServerDone { .. } => true,
        Stage::ClientFirst
        | Stage::ClientSecond
        | Stage::ClientKey { .. }
        | Stage::ClientAsk { .. }
        | Stage::ClientThird { .. }
        | Stage::ClientFourth { .. }
        | Stage::ServerKey
        | Stage::ServerFirst { .. }
        | Stage::ServerSecond { .. }
        | Stage::ServerThird { .. }
        | Stage::ServerFourth { .. } => false,
    }
}
