//! A dialer in memory, whose exchanges fail where the caller plans it.
ghost use Rattle.std.specs.Option.{option_copied, option_map};
ghost use Rattle.std.specs.List.{AllByRecursion};
ghost use Rattle.std.specs.Prelude.{[], ◌≡◌, ◌≢◌, ◌∷◌, ◌++◌, ◌≤◌, ◌⊎◌, IfNone, IfOk, IfSome, None, OnErr, Some, is_none};
ghost use Rattle.wire_streams.specs.Dials.{IsAnswer, exchanged};
ghost use Rattle.wire_streams.specs.declared.dialer.Made.TheVariants.{Close, Exchange};

use crate::dialer::{Dial, Dialer, Made, Outcome};
use crate::memory::FaultPlan;
use std::alloc::Global;
use std::collections::VecDeque;
use std::marker::Model;
use wire_base::{Bytes, NoMemory, Shape};

/// The answers to come, each short enough.
#[derive(Drop)]
pub(crate) struct Answers {
    list: VecDeque<Bytes>,
}

impl Model for Answers {
    ghost use Rattle.std.specs.List.{AllByRecursion};
    ghost use Rattle.std.specs.Prelude.{List, ℕ};
    ghost use Rattle.wire_streams.specs.Dials.{IsAnswer};

    ghost Value = { List (List ℕ) };

    ghost view = { λ answers. answers.list.items };

    ghost invariant = { λ answers. AllByRecursion IsAnswer answers.list.items };
}

impl Answers {
    fn new(list: Vec<Bytes>) -> Answers
        requires { AllByRecursion IsAnswer list.items }
        ensures { result ≡ list.items }
    {
        Answers {
            list: VecDeque::from(list),
        }
    }

    /// Takes the first one out.
    fn take(&mut self) -> Option<Bytes>
        ensures some { IfSome result (λ answer. self.old ≡ answer ∷ self.new) }
        ensures short { IfSome result IsAnswer }
        ensures none { IfNone result ((self.old ≡ []) × (self.new ≡ [])) }
    {
        self.list.pop_front()
    }
}

/// A dialer that gives the answers that it was made with, in their order, and keeps a record of its calls. Where it
/// finds no memory for the record of a call it tells no content from then on.
#[derive(Drop)]
pub struct MemDialer {
    alloc: Global,
    answers: Answers,
    made: Option<Vec<Made>>,
    plan: FaultPlan,
}

impl MemDialer {
    ghost use Rattle.wire_streams.specs.Memory.{CountsCall, calls_of, failing_calls, faults_of};
    ghost use Rattle.wire_streams.specs.MemDials.{answers_left, calls_made, dialer_plan, ends_or_fails};

    /// A dialer of the answers in `content`; the exchanges whose numbers are in `fails` fail, counted from 1.
    pub fn new(alloc: Global, content: Vec<Bytes>, fails: Vec<u64>) -> MemDialer
        requires { AllByRecursion IsAnswer content.items }
        ensures content { answers_left result ≡ content.items }
        ensures made { calls_made result ≡ Some [] }
        ensures listed { failing_calls (dialer_plan result) ≡ fails.items }
        ensures calls { calls_of (dialer_plan result) ≡ 0 }
        ensures faults { faults_of (dialer_plan result) ≡ 0 }
    {
        MemDialer {
            alloc,
            answers: Answers::new(content),
            made: Some(Vec::new(alloc)),
            plan: FaultPlan::new(fails),
        }
    }

    /// The calls made, the first one first; None once it found no memory for the record of one.
    pub fn made(&self) -> Option<&[Made]>
        ensures { option_copied result ≡ calls_made self.now }
    {
        match &self.made {
            Some(made) => Some(made.as_slice()),
            None => None,
        }
    }

    /// Counts an exchange, and takes the answer to it: none where it is to fail, or where none is left.
    fn next_answer(&mut self) -> Option<Bytes>
        ensures planned { is_none result ≡ ends_or_fails self.old }
        ensures counted { CountsCall (dialer_plan self.old) (dialer_plan self.new)
            (is_none result) }
        ensures later { faults_of (dialer_plan self.old) ≤ faults_of (dialer_plan self.new) }
        ensures some { IfSome result (λ answer.
            answers_left self.old ≡ answer ∷ answers_left self.new) }
        ensures short { IfSome result IsAnswer }
        ensures none { IfNone result (answers_left self.new ≡ answers_left self.old) }
        ensures made { calls_made self.new ≡ calls_made self.old }
    {
        if self.plan.begin_call() {
            return None;
        }
        let answer = self.answers.take();
        if answer.is_none() {
            self.plan.count_fault();
        }
        answer
    }

    /// Puts a call behind those that were made. Where there is no memory for it nothing is told from then on.
    fn keep(&mut self, call: Result<Made, NoMemory>)
        ensures kept { IfOk call (λ call. (calls_made self.new ≡ None)
            ⊎ (calls_made self.new ≡ option_map (λ made. made
            ++ call ∷ []) (calls_made self.old))) }
        ensures lost { OnErr call (calls_made self.new ≡ None) }
        ensures answers { answers_left self.new ≡ answers_left self.old }
        ensures plan { dialer_plan self.new ≡ dialer_plan self.old }
    {
        if let Some(made) = &mut self.made
            && let Ok(call) = call
            && made.push(call).is_ok()
        {
            return;
        }
        self.made = None;
    }
}

impl Dialer for MemDialer {
    ghost use Rattle.wire_streams.specs.Causes.{CountsOutcome};
    ghost use Rattle.wire_streams.specs.Dials.{Makes, has_failed};
    ghost use Rattle.wire_streams.specs.Memory.{CountsCall, faults_of};
    ghost use Rattle.wire_streams.specs.MemDials.{dialed, dialer_plan, ends_or_fails};

    ghost told = { dialed };

    ghost faults = { λ dialer. faults_of (dialer_plan dialer) };

    fn exchange(&mut self, conv: u64, request: &[u8], shape: Shape, out: &mut Bytes) -> Dial
        ensures told { Makes (dialed self.old) (dialed self.new)
            (exchanged conv request.now shape result out.new) }
        ensures heard { result ≡ Dial.Heard → IsAnswer out.new }
        ensures kept { result ≢ Dial.Heard → out.new ≡ out.old }
        ensures counted { faults_of (dialer_plan self.old) ≤ faults_of (dialer_plan self.new) }
        ensures exact { CountsOutcome (faults_of (dialer_plan self.old))
            (faults_of (dialer_plan self.new)) (has_failed result) }

        // An exchange fails exactly where its number is listed or no answer is left; it takes no memory but for its record.
        ensures planned { has_failed result ≡ ends_or_fails self.old }
        ensures memory { result ≢ Dial.NoMemory }
        ensures call { CountsCall (dialer_plan self.old) (dialer_plan self.new)
            (has_failed result) }
    {
        match self.next_answer() {
            Some(answer) => {
                self.keep(answered_exchange(self.alloc, conv, request, shape, &answer));
                *out = answer;
                Dial::Heard
            }
            None => {
                self.keep(exchange_of(self.alloc, conv, request, shape, Outcome::Unanswered));
                Dial::Failed
            }
        }
    }

    fn close(&mut self, conv: u64)
        ensures told { Makes (dialed self.old) (dialed self.new) (Close conv) }
        ensures exact { faults_of (dialer_plan self.new) ≡ faults_of (dialer_plan self.old) }
        ensures plan { dialer_plan self.new ≡ dialer_plan self.old }
    {
        self.keep(Ok(Made::Close { conv }));
    }
}

/// The record of an exchange that came to this.
fn exchange_of(
    alloc: Global,
    conv: u64,
    request: &[u8],
    shape: Shape,
    outcome: Outcome,
) -> Result<Made, NoMemory>
    ensures { IfOk result (λ made. made ≡ Exchange conv request.now shape outcome) }
{
    Ok(Made::Exchange {
        conv,
        request: Bytes::from_slice(alloc, request)?,
        shape,
        outcome,
    })
}

/// The record of an exchange that was answered so.
fn answered_exchange(
    alloc: Global,
    conv: u64,
    request: &[u8],
    shape: Shape,
    answer: &Bytes,
) -> Result<Made, NoMemory>
    ensures { IfOk result (λ made. made ≡ exchanged conv request.now shape Dial.Heard answer.now) }
{
    exchange_of(
        alloc,
        conv,
        request,
        shape,
        Outcome::Answered(answer.copy()?),
    )
}
