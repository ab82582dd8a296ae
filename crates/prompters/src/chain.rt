// Prompters in order.
ghost use Rattle.std.specs.Prelude.{◌≡◌, ◌<◌, length, map};
ghost use Rattle.prompters.specs.Manners.{considered, is_spent, said};

use crate::prompter::{Prompter, Say};
use side_files::Question;

type Boxed = Box<dyn Prompter + Send>;

/// Prompters that are asked in order.
#[derive(Drop)]
pub struct Chain {
    list: Vec<Boxed>,
}

impl Chain {
    ghost use Rattle.prompters.specs.Chains.{Asked, after_answer, word_of};

    /// These prompters, the first of which is asked first. It takes no memory.
    pub fn new(list: Vec<Box<dyn Prompter + Send>>) -> Chain
        ensures { map (λ b. (⟦<(dyn Prompter + Send) as Prompter>⟧ b.vtable).manner b.value) result.list.items ≡ map (λ b. (⟦<(dyn Prompter + Send) as Prompter>⟧ b.vtable).manner b.value) list.items }
    {
        Chain { list }
    }

    /// How many prompters there are.
    pub fn len(&self) -> usize
        ensures { result ≡ length self.now.list.items }
    {
        self.list.len()
    }

    /// The answer to a question: the word of the first prompter, in order, that doesn't pass, and else No. Each prompter up
    /// to it considers the question, and those of them that are spent then are dropped. It takes no memory.
    pub fn answer(&mut self, q: &Question) -> Say
        ensures word { result ≡ word_of q.now (map (λ b. (⟦<(dyn Prompter + Send) as Prompter>⟧ b.vtable).manner b.value) self.old.list.items) }
        ensures prompters { map (λ b. (⟦<(dyn Prompter + Send) as Prompter>⟧ b.vtable).manner b.value) self.new.list.items
            ≡ after_answer q.now (map (λ b. (⟦<(dyn Prompter + Send) as Prompter>⟧ b.vtable).manner b.value) self.old.list.items) }
    {
        let mut at = 0;
        while at < self.list.len() {
            let (say, next) = self.ask_at(at, q);
            if say != Say::Pass {
                return say;
            }
            at = next;
        }
        Say::No
    }

    // The prompter at a place considers the question, and is dropped if it is spent then. Its word, and the place of the next.
    fn ask_at(&mut self, at: usize, q: &Question) -> (Say, usize)
        requires { at < length self.old.list.items }
        ensures { Asked q.now at result.0 result.1 (map (λ b. (⟦<(dyn Prompter + Send) as Prompter>⟧ b.vtable).manner b.value) self.old.list.items)
            (map (λ b. (⟦<(dyn Prompter + Send) as Prompter>⟧ b.vtable).manner b.value) self.new.list.items) }
    {
        let say = ask(&mut self.list[at], q);
        if is_spent(&self.list[at]) {
            self.list.remove(at);
            return (say, at);
        }
        (say, at + 1)
    }
}

// One prompter considers a question.
fn ask(prompter: &mut Boxed, q: &Question) -> Say
    ensures word { result ≡ said (manner prompter.old) q.now }
    ensures after { manner prompter.new ≡ considered q.now (manner prompter.old) }
{
    prompter.consider(q)
}

// Whether a prompter is of no more use.
fn is_spent(prompter: &Boxed) -> bool
    ensures { result ≡ is_spent (manner prompter.now) }
{
    prompter.spent()
}
