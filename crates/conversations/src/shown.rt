// What is shown of a conversation to who asks its user, and writes the log.
ghost use Rattle.std.specs.Prelude.{◌≡◌, option_map};
ghost use Rattle.conversations.specs.Meanings.{phase_of};
ghost use Rattle.conversations.specs.Asking.{asked_kind, start_text, template_begun};
ghost use Rattle.conversations.specs.Fits.{Shows};

use crate::conversation::Conversation;
use crate::{Phase, Stored};
use attr_tuples::Tuple;
use side_files::PromptKind;

impl Conversation {
    /// By which file its user is asked, if he is. It takes no memory.
    pub fn asks(&self) -> Option<PromptKind>
        ensures { Shows self.now (λ s. asked_kind s.phase) result }
    {
        asked_kind(&self.phase)
    }

    /// The text of a start that isn't carried out yet, if its request is one. It takes no memory.
    pub fn start_text(&self) -> Option<&[u8]>
        ensures { Shows self.now (λ s. start_text s.phase) (option_map (λ t. t.now) result) }
    {
        start_text(&self.phase)
    }

    /// The template by which it was started, if it was. It takes no memory.
    pub fn start_template(&self) -> Option<&Tuple>
        ensures { Shows self.now (λ s. template_begun s.begun) (option_map (λ t. t.now) result) }
    {
        match &self.begun {
            Some(begun) => Some(&begun.template),
            None => None,
        }
    }
}

fn asked_kind(phase: &Phase) -> Option<PromptKind>
    ensures { result ≡ asked_kind (phase_of phase.now) }
{
    match phase {
        Phase::OnConfirm(_) => Some(PromptKind::Confirm),
        Phase::OnNeedkey(_) => Some(PromptKind::Needkey),
        Phase::Resting | Phase::Waiting(_) | Phase::Seeking => None,
        Phase::OnServer | Phase::Kept(_) => None,
    }
}

fn start_text(phase: &Phase) -> Option<&[u8]>
    ensures { option_map (λ t. t.now) result ≡ start_text (phase_of phase.now) }
{
    match phase {
        Phase::Waiting(Stored::Start(text)) => Some(text.as_slice()),
        Phase::Waiting(Stored::Read) | Phase::Waiting(Stored::Write(_)) => None,
        Phase::Waiting(Stored::AuthInfo) | Phase::Waiting(Stored::Attr) => None,
        Phase::Resting | Phase::Seeking | Phase::OnConfirm(_) => None,
        Phase::OnNeedkey(_) | Phase::OnServer | Phase::Kept(_) => None,
    }
}
