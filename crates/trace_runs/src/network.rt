// All conversations of a labelled record, by their names.
ghost use Rattle.std.specs.Prelude.{◌≡◌, ◌∷◌, List, [], ℕ, IfOk};
ghost use Rattle.clean_runs.specs.Labels.{Labelled};
ghost use Rattle.clean_runs.specs.Runs.{role_by};
ghost use Rattle.symbolic_runs.specs.Trees.{Tree};
ghost use Rattle.wire_histories.specs.Histories.{started};
ghost use Rattle.trace_runs.specs.Network.{own_for};
ghost use Rattle.trace_runs.specs.Stages.{StandsFor};
ghost use Rattle.trace_runs.specs.Views.{own_of, role_of};

use crate::conversation::{Act, Conversation};
use crate::moves::{Own, Role};
use std::alloc::Global;
use std::collections::BTreeMap;
use symbolic_runs::{MacKind, Term};
use wire_base::{NoMemory, Text};
use wire_histories::{Protocol, Role as Part};

// The role of a conversation that starts with this protocol and this part.
fn role_by(protocol: Protocol, part: Part) -> Role
    ensures { role_of result ≡ role_by protocol part }
{
    match (protocol, part) {
        (Protocol::P9sk1 | Protocol::P9any, Part::Client | Part::Speakfor) => Role::Client,
        (Protocol::P9sk1 | Protocol::P9any, Part::Server) => Role::Server,
        (Protocol::Apop, Part::Client | Part::Speakfor) => Role::MailClient(MacKind::Apop),
        (Protocol::Apop, Part::Server) => Role::MailServer(MacKind::Apop),
        (Protocol::Cram, Part::Client | Part::Speakfor) => Role::MailClient(MacKind::Cram),
        (Protocol::Cram, Part::Server) => Role::MailServer(MacKind::Cram),
    }
}

// What a conversation has of its own, by the number of its start and its holder.
fn own_for(number: u32, holder: &Text) -> Result<Own, NoMemory>
    ensures { IfOk result (λ own. own_of own ≡ own_for number holder.now) }
{
    Ok(Own {
        word: Term::Nonce(number),
        key: Term::LKey(holder.copy()?),
        password: Term::Pw(holder.copy()?),
    })
}

// A conversation behind its start.
fn begin(
    alloc: Global,
    number: u32,
    protocol: Protocol,
    part: Part,
    holder: &Text,
) -> Result<Conversation, NoMemory>
    ensures { (word : List ℕ) (label : Tree) → IfOk result (StandsFor (own_for number holder.now)
        (role_by protocol part) (record { act = started protocol part word; label = label } ∷ [])) }
{
    let own = own_for(number, holder)?;
    let mut conversation = Conversation::new(alloc, own, role_by(protocol, part));
    conversation.act(&Act::Started(protocol))?;
    Ok(conversation)
}

/// The conversations of a labelled record, each behind the steps that are past.
#[derive(Drop)]
pub struct Conversations {
    alloc: Global,
    starts: u32,
    table: BTreeMap<Vec<u8>, Conversation>,
}

impl Conversations {
    ghost use Rattle.std.specs.Prelude.{◌≡◌, ◌∷◌, ℕ, List, [], None, Ok, IfOk, OnOk, option_copied, option_map};
    ghost use Rattle.symbolic_runs.specs.Runs.{Setting, given};
    ghost use Rattle.symbolic_runs.specs.Views.{tree};
    ghost use Rattle.wire_histories.specs.declared.step.Step.{Step};
    ghost use Rattle.wire_histories.specs.declared.step.Step.TheVariants.{Start};
    ghost use Rattle.wire_histories.specs.Histories.{Act as Done, History};
    ghost use Rattle.clean_runs.specs.Labels.{Labelling, started_as};
    ghost use Rattle.clean_runs.specs.Runs.{conv_events, if_some};
    ghost use Rattle.trace_runs.specs.Network.{Begins, HasStarted, IsActOf, IsSettingAt, Stand, labelled_act, talk_at};
    ghost use Rattle.trace_runs.specs.Stages.{Tells};

    /// The conversations of a record before its first step: none.
    pub fn new(alloc: Global) -> Conversations
        ensures { (l : Labelling) → Stand l [] result }
    {
        Conversations {
            alloc,
            starts: 0,
            table: BTreeMap::new(alloc),
        }
    }

    /// The conversation of a name; None exactly where none of this name did anything.
    pub fn find(&self, name: &[u8]) -> Option<&Conversation>
        ensures { option_copied result ≡ talk_at self.now name.now }
    {
        self.table.get(name)
    }

    /// A conversation starts, whose key is that of its holder. False exactly where one of this name started before; then
    /// nothing changes.
    pub fn start(
        &mut self,
        name: &[u8],
        protocol: Protocol,
        part: Part,
        holder: &Text,
    ) -> Result<bool, NoMemory>
        ensures { (l : Labelling) (past : History) (word : List ℕ) → Stand l past self.old
            → l.holder name.now ≡ holder.now
            → IfOk result (λ new. Begins new l past name.now protocol part word self.new) }
    {
        if self.find(name).is_some() {
            return Ok(false);
        }
        let Some(starts) = self.starts.checked_add(1) else {
            // No record that is tested has so many starts.
            return Err(NoMemory);
        };
        let conversation = begin(self.alloc, self.starts, protocol, part, holder)?;
        self.table
            .insert(Vec::from_slice(self.alloc, name)?, conversation)?;
        self.starts = starts;
        Ok(true)
    }

    /// Does what a record tells next of the conversation of a name, behind its start, and answers what it gives to the
    /// network by it; None exactly where it gives nothing. Where none of this name started nothing changes.
    pub fn act(&mut self, name: &[u8], act: &Act) -> Result<Option<Term>, NoMemory>
        ensures stand { (l : Labelling) (past : History) (step : Step) (done : Done)
            → IsActOf name.now done step → Tells act.now (labelled_act l past done)
            → HasStarted name.now past → Stand l past self.old
            → OnOk result (Stand l (step ∷ past) self.new) }
        ensures given { (l : Labelling) (past : History) (done : Done)
            → Tells act.now (labelled_act l past done) → HasStarted name.now past
            → Stand l past self.old → IfOk result (λ gives. (s : Setting)
            → IsSettingAt s l name.now past
            → given s (conv_events s l past name.now done) ≡ if_some (option_map tree gives)) }
        ensures unstarted { (l : Labelling) (past : History) → started_as name.now past ≡ None
            → Stand l past self.old → OnOk result ((result ≡ Ok None) × Stand l past self.new) }
    {
        let Some(conversation) = self.table.get_mut(name) else {
            return Ok(None);
        };
        conversation.act(act)
    }
}
