// What is noted of an agent.
ghost use Rattle.std.specs.Prelude.{◌≡◌, OnOk, IfOk, option_map};
ghost use Rattle.agent_history.specs.Conversations.{chosen_at};
ghost use Rattle.agent_history.specs.Histories.{History, deeds};
ghost use Rattle.agent_core.specs.Agents.{StandsFor};
ghost use Rattle.world_history.specs.NotingFronts.{NotesKey};

use agent_core::Agent;
use wire_base::{NoMemory, Text};
use wire_histories::Setting;

fn copy_text(text: Option<&Text>) -> Result<Option<Text>, NoMemory>
    ensures { IfOk result (λ copied. copied ≡ option_map (λ text. text.now) text.entry) }
{
    match text {
        Some(text) => Ok(Some(text.copy()?)),
        None => Ok(None),
    }
}

/// It is noted of a conversation, which a fid has open, which key it has chosen, or that it has none.
pub fn note_key(agent: &Agent, conv: &[u8], fid: u32, setting: &mut Setting) -> Result<(), NoMemory>
    ensures { OnOk result ((H : History) → StandsFor H agent.now
        → NotesKey conv.now (chosen_at (deeds H) 0 fid) setting.old setting.new) }
{
    match agent.chosen(0, fid) {
        Some(key) => setting.note_key(conv, key.des(), copy_text(key.password())?),
        None => {
            setting.forget_key(conv);
            Ok(())
        }
    }
}
