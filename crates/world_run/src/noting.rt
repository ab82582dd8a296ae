// What a line that was carried out changes of the setting.
ghost use Rattle.std.specs.Prelude.{◌≡◌, option_map};
ghost use Rattle.world_scripts.specs.Said.{said_line};
ghost use Rattle.world_run.specs.Noting.{is_reload, line_asks};

use crate::run::Run;
use wire_base::NoMemory;
use wire_histories::Setting;
use world_history::note_told_tables;
use world_scripts::{BadForm, Line, ScriptLines, parse_line};

// The conversation that a line asks something, answers, or leaves without an answer.
fn conv_asked<'a>(line: Line<'a>) -> Option<&'a [u8]>
    ensures { option_map (λ conv. conv.now) result ≡ line_asks (said_line line.entry) }
{
    match line {
        Line::Start { conv, .. } => Some(conv),
        Line::Read { conv } => Some(conv),
        Line::Write { conv, .. } => Some(conv),
        Line::Answer { conv, .. } => Some(conv),
        Line::NoAnswer { conv } => Some(conv),
        Line::Dom { .. }
        | Line::AsKey { .. }
        | Line::AsSpeak { .. }
        | Line::Reload
        | Line::Node { .. }
        | Line::Restart { .. }
        | Line::Ctl { .. }
        | Line::Open { .. }
        | Line::AsGive { .. }
        | Line::Close { .. } => None,
    }
}

// Whether the tables are read again by a line.
fn is_reload(line: &Line<'_>) -> bool
    ensures { result ≡ is_reload (said_line line.now) }
{
    match line {
        Line::Reload => true,
        Line::Dom { .. }
        | Line::AsKey { .. }
        | Line::AsSpeak { .. }
        | Line::Node { .. }
        | Line::Restart { .. }
        | Line::Ctl { .. }
        | Line::Open { .. }
        | Line::Start { .. }
        | Line::Read { .. }
        | Line::Write { .. }
        | Line::Answer { .. }
        | Line::NoAnswer { .. }
        | Line::AsGive { .. }
        | Line::Close { .. } => false,
    }
}

impl Run {
    ghost use Rattle.std.specs.Prelude.{OnOk};
    ghost use Rattle.world_scripts.specs.Said.{said_line};
    ghost use Rattle.world_run.specs.Noting.{NotesLine, NotesTalk, NotesText};

    // The key that a conversation keeps, or that it keeps none.
    fn note_talk(&self, conv: &[u8], setting: &mut Setting) -> Result<(), NoMemory>
        ensures { OnOk result (NotesTalk conv.now self.now setting.old setting.new) }
    {
        let Some(talk) = self.talks.find(conv) else {
            setting.forget_key(conv);
            return Ok(());
        };
        self.nodes
            .note_key(talk.node.as_slice(), conv, talk.fid, setting)?;
        Ok(())
    }

    // What a line changes.
    fn note_line(
        &self,
        line: Line<'_>,
        left: &ScriptLines<'_>,
        setting: &mut Setting,
    ) -> Result<(), NoMemory>
        ensures { OnOk result (NotesLine left.now (said_line line.entry) self.now
            setting.old setting.new) }
    {
        if is_reload(&line) {
            note_told_tables(self.alloc, left, setting)?;
            return Ok(());
        }
        let Some(conv) = conv_asked(line) else {
            return Ok(());
        };
        self.note_talk(conv, setting)?;
        Ok(())
    }

    /// What the text of a line changes that was carried out, before those that are left. Where memory runs out, some of it
    /// may have been noted.
    pub(crate) fn note_text(
        &self,
        text: &[u8],
        left: &ScriptLines<'_>,
        setting: &mut Setting,
    ) -> Result<(), NoMemory>
        ensures { OnOk result (NotesText text.now left.now self.now setting.old setting.new) }
    {
        let Ok(line) = parse_line(text) else {
            return Ok(());
        };
        self.note_line(line, left, setting)?;
        Ok(())
    }
}
