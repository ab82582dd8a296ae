// The questions to users.
ghost use Rattle.std.specs.Prelude.{◌≡◌, OnErr, OnOk, IfOk};
ghost use Rattle.attr_tuples.specs.Printing.{public_text};
ghost use Rattle.roles.specs.Templates.{shown_text};
ghost use Rattle.side_files.specs.declared.line.PromptKind.TheVariants as k;
ghost use Rattle.side_files.specs.Questions.{no_questions};
ghost use Rattle.conversations.specs.Asking.{IsMade, SameAsks};

use attr_tuples::{Tuple, print_public, print_tuple};
use key_ring::Key;
use side_files::{PromptKind, Prompts};
use std::alloc::Global;
use wire_base::{Bytes, NoMemory};

/// The questions to users: whether a key may be used, and that a key be added.
#[derive(Drop)]
pub struct Asks {
    pub confirm: Prompts,
    pub needkey: Prompts,
}

impl Asks {
    /// No questions. It takes no memory.
    pub fn new(alloc: Global) -> Asks
        ensures confirm { result.confirm ≡ no_questions k.Confirm }
        ensures needkey { result.needkey ≡ no_questions k.Needkey }
    {
        Asks {
            confirm: Prompts::new(alloc, PromptKind::Confirm),
            needkey: Prompts::new(alloc, PromptKind::Needkey),
        }
    }

    /// The question whether a key may be used is made, so that it can be asked without memory.
    pub(crate) fn make_confirm(&mut self, alloc: Global, key: &Key) -> Result<(), NoMemory>
        ensures made { OnOk result (IsMade self.new.confirm (public_text key.now.tuple)) }
        ensures same { SameAsks self.old self.new }
    {
        let mut about = Bytes::new(alloc);
        print_public(key.tuple(), &mut about)?;
        if self.confirm.is_spent() {
            return Err(NoMemory);
        }
        self.confirm.reserve(about.as_slice())
    }

    /// The question for a key that matches a template is made, so that it can be asked without memory.
    pub(crate) fn make_needkey(&mut self, alloc: Global, template: &Tuple) -> Result<(), NoMemory>
        ensures made { OnOk result (IsMade self.new.needkey (shown_text template.now)) }
        ensures same { SameAsks self.old self.new }
    {
        let about = show_template(alloc, template)?;
        if self.needkey.is_spent() {
            return Err(NoMemory);
        }
        self.needkey.reserve(about.as_slice())
    }
}

// A template as it is shown to who is to bring a key.
#[tactic(auto, unfolding(roles::specs::Templates::shown_text))]
fn show_template(alloc: Global, template: &Tuple) -> Result<Bytes, NoMemory>
    ensures { IfOk result (λ text. text ≡ shown_text template.now) }
{
    let mut text = Bytes::new(alloc);
    print_tuple(template, &mut text)?;
    text.append(b" !password?".as_slice())?;
    Ok(text)
}
