// Steps, and the messages among them.
ghost use Rattle.std.specs.Prelude.{◌≡◌, option_map};
ghost use Rattle.world_history.specs.Worlds.{message_in};

use std::alloc::Global;
use std::marker::Model;
use wire_base::{Bytes, NoMemory};
use wire_histories::{Step, Wire, print_step};
use wire_streams::{Sink, write_all};

/// Why recording is cut off.
#[derive(Clone, Copy, Debug, PartialEq, Eq)]
pub enum Cut {
    /// A line couldn't be written.
    WriteFault,
    NoMemory,
}

/// Steps, in the order in which they are recorded. A message is found by its number at once.
#[derive(Drop)]
pub struct Record {
    pub(crate) alloc: Global,
    steps: Wire,
    // A copy of each message.
    pub(crate) messages: Vec<Bytes>,
}

impl Model for Record {
    ghost use Rattle.std.specs.Prelude.{◌≡◌, List};
    ghost use Rattle.wire_histories.specs.declared.step.Step.{Step};
    ghost use Rattle.world_history.specs.Worlds.{messages_in};

    ghost Value = { List Step };

    ghost view = { λ r. r.steps };

    ghost invariant = { λ r. r.messages.items ≡ messages_in r.steps };
}

// The message that a step records, if it does.
fn message_in(step: &Step) -> Option<&[u8]>
    ensures { option_map (λ bytes. bytes.now) result ≡ message_in step.now }
{
    match step {
        Step::Out { bytes, .. } => Some(bytes.as_slice()),
        Step::Ask { bytes, .. } => Some(bytes.as_slice()),
        Step::AsGave { bytes, .. } => Some(bytes.as_slice()),
        Step::Start { .. }
        | Step::In { .. }
        | Step::Heard { .. }
        | Step::Unheard { .. }
        | Step::Accept { .. }
        | Step::Fail { .. }
        | Step::Reply { .. }
        | Step::Refused { .. }
        | Step::AsGot { .. }
        | Step::AsEnd { .. }
        | Step::Restart { .. }
        | Step::Reload => None,
    }
}

impl Record {
    ghost use Rattle.std.specs.Prelude.{◌≡◌, ◌≤◌, ◌∷◌, ◌++◌, [], length, slice_get, option_map, IfErr, IfOk, OnErr, OnOk};
    ghost use Rattle.wire_streams.specs.Causes.{CountsOutcome};
    ghost use Rattle.wire_streams.specs.Streams.{Gains};
    ghost use Rattle.wire_histories.specs.Lines.{step_line};
    ghost use Rattle.world_history.specs.Worlds.{messages_in};
    ghost use Rattle.world_history.specs.Writing.{StopsBy, lines_of, write_failed};

    /// No steps. It takes no memory.
    pub fn new(alloc: Global) -> Record
        ensures { result ≡ [] }
    {
        Record {
            alloc,
            steps: Wire::new(alloc),
            messages: Vec::new(alloc),
        }
    }

    /// The message of a number.
    pub fn message(&self, number: u64) -> Option<&[u8]>
        ensures { option_map (λ bytes. bytes.now) result
            ≡ slice_get (messages_in self.now) number }
    {
        match self.messages.get(number as usize) {
            Some(bytes) => Some(bytes.as_slice()),
            None => None,
        }
    }

    /// The number of the next message. Where it is none, that is want of memory.
    pub fn next_message(&self) -> Result<u32, NoMemory>
        ensures { IfOk result (λ number. number ≡ length (messages_in self.now)) }
    {
        match u32::try_from(self.messages.len()) {
            Ok(number) => Ok(number),
            Err(_) => Err(NoMemory),
        }
    }

    // Keeps a step that records a message.
    fn keep_message(&mut self, message: Bytes, step: Step) -> Result<(), NoMemory>
        requires { message_in step ≡ Some message }
        ensures ok { OnOk result (self.new ≡ self.old ++ step ∷ []) }
        ensures err { OnErr result (self.new ≡ self.old) }
    {
        self.messages.push(message)?;
        match self.steps.push(step) {
            Ok(()) => Ok(()),
            Err(NoMemory) => {
                self.messages.pop();
                Err(NoMemory)
            }
        }
    }

    // Keeps a step.
    fn keep(&mut self, step: Step) -> Result<(), NoMemory>
        ensures ok { OnOk result (self.new ≡ self.old ++ step ∷ []) }
        ensures err { OnErr result (self.new ≡ self.old) }
    {
        let Some(message) = message_in(&step) else {
            return self.steps.push(step);
        };
        let message = Bytes::from_slice(self.alloc, message)?;
        self.keep_message(message, step)
    }

    // Records a step, and writes its line.
    fn put<W: Sink>(&mut self, step: Step, sink: &mut W) -> Result<(), Cut>
        ensures ok { OnOk result (self.new ≡ self.old ++ step ∷ []) }
        ensures written { OnOk result (Gains (W.holds sink.old) (W.holds sink.new)
            (step_line step)) }
        ensures err { IfErr result (λ cut. StopsBy cut (step ∷ []) self.old self.new
            (W.holds sink.old) (W.holds sink.new)) }
        ensures counted { W.faults sink.old ≤ W.faults sink.new }
        ensures exact { CountsOutcome (W.faults sink.old) (W.faults sink.new)
            (write_failed result) }
    {
        let mut line = Bytes::new(self.alloc);
        match print_step(&step, &mut line) {
            Ok(()) => {}
            Err(NoMemory) => return Err(Cut::NoMemory),
        }
        match self.keep(step) {
            Ok(()) => {}
            Err(NoMemory) => return Err(Cut::NoMemory),
        }
        match write_all(line.as_slice(), sink) {
            Ok(()) => Ok(()),
            Err(_) => Err(Cut::WriteFault),
        }
    }

    /// Records steps in order, and writes the line of each.
    pub fn put_all<W: Sink>(&mut self, steps: Vec<Step>, sink: &mut W) -> Result<(), Cut>
        ensures ok { OnOk result (self.new ≡ self.old ++ steps.items) }
        ensures written { OnOk result (Gains (W.holds sink.old) (W.holds sink.new)
            (lines_of steps.items)) }
        ensures err { IfErr result (λ cut. StopsBy cut steps.items self.old self.new
            (W.holds sink.old) (W.holds sink.new)) }
        ensures counted { W.faults sink.old ≤ W.faults sink.new }
        ensures exact { CountsOutcome (W.faults sink.old) (W.faults sink.new)
            (write_failed result) }
    {
        let mut left = steps.into_iter();
        while let Some(step) = left.next() {
            if let Err(cut) = self.put(step, sink) {
                return Err(cut);
            }
        }
        Ok(())
    }

    /// The steps.
    pub fn into_steps(self) -> Wire
        ensures { result ≡ self }
    {
        self.steps
    }
}
