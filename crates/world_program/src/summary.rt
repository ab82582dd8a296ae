// The line on a record.
ghost use Rattle.std.specs.Prelude.{◌≡◌, filter, is_some, length, IfOk, string_bytes};
ghost use Rattle.world_history.specs.Worlds.{message_in, messages_in};
ghost use Rattle.world_program.specs.Counts.{is_sought};
ghost use Rattle.world_program.specs.Summing.{is_accept, is_fail, summary, told};

use std::alloc::Global;
use wire_base::NoMemory;
use wire_histories::Step;

// What is counted of a record.
#[derive(Clone, Copy, Debug, PartialEq, Eq)]
enum Sought {
    Accepted,
    Failed,
    Message,
}

fn is_accept(step: &Step) -> bool
    ensures { result ≡ is_accept step.now }
{
    matches!(step, Step::Accept { .. })
}

fn is_fail(step: &Step) -> bool
    ensures { result ≡ is_fail step.now }
{
    matches!(step, Step::Fail { .. })
}

// Whether a message was recorded.
fn is_message(step: &Step) -> bool
    ensures { result ≡ is_some (message_in step.now) }
{
    match step {
        Step::Out { .. } | Step::Ask { .. } | Step::AsGave { .. } => true,
        Step::Start { .. }
        | Step::In { .. }
        | Step::Heard { .. }
        | Step::Unheard { .. }
        | Step::Accept { .. }
        | Step::Fail { .. }
        | Step::Reply { .. }
        | Step::Refused { .. }
        | Step::AsGot { .. }
        | Step::AsEnd { .. }
        | Step::Restart { .. }
        | Step::Reload => false,
    }
}

fn is_sought(sought: Sought, step: &Step) -> bool
    ensures { result ≡ is_sought sought step.now }
{
    match sought {
        Sought::Accepted => is_accept(step),
        Sought::Failed => is_fail(step),
        Sought::Message => is_message(step),
    }
}

fn count(sought: Sought, steps: &[Step]) -> usize
    ensures { result ≡ length (filter (is_sought sought) steps.now) }
{
    steps.iter().filter(|step| is_sought(sought, step)).count()
}

fn count_messages(steps: &[Step]) -> usize
    ensures { result ≡ length (messages_in steps.now) }
{
    count(Sought::Message, steps)
}

// What is told of the four numbers.
fn told(
    alloc: Global,
    rounds: u32,
    accepted: usize,
    failed: usize,
    messages: usize,
) -> Result<String, NoMemory>
    ensures { IfOk result (λ text. string_bytes text ≡ told rounds accepted failed messages) }
{
    Ok(format!(in alloc;
        "rounds {rounds} accepted {accepted} failed {failed} messages {messages}\n"
    )?)
}

/// The line on the record of so many rounds.
pub(crate) fn summary(alloc: Global, rounds: u32, steps: &[Step]) -> Result<String, NoMemory>
    ensures { IfOk result (λ text. string_bytes text ≡ summary rounds steps.now) }
{
    let (accepted, failed) = (count(Sought::Accepted, steps), count(Sought::Failed, steps));
    told(alloc, rounds, accepted, failed, count_messages(steps))
}
