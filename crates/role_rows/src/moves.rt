// Conversations by moves, each a block of rows: a row that starts it, and a row a call or a question.
use crate::calls::{Conversation, is_call, make_call, start};
use crate::came::Came;
use crate::messages::Messages;
use crate::play_fault::PlayFault;
use crate::shown::{fault_word, put_gave, put_need, put_outcome, shape_word};
use roles::{Gave, Need, Outcome, PhaseWord};
use row_files::{Report, Row};
use std::alloc::Global;
use wire_base::Bytes;

// What rows have named and started so far.
#[derive(Drop)]
struct Player<M> {
    alloc: Global,
    messages: Messages,
    conv: Option<M>,
}

/// Plays a file of conversations.
pub(crate) fn play<M: Conversation + Drop>(
    rt: &HostRuntime,
    file: &str,
    rows: &[Row],
    report: &mut Report,
) -> anyhow::Result<()> {
    let alloc = rt.alloc();
    let mut player = Player::<M> {
        alloc,
        messages: Messages::new(alloc),
        conv: None,
    };
    for row in rows {
        if row.word() == b"messages".as_slice() {
            player.messages.read(rt, row)?;
        } else {
            player.tell(file, rows, row, report)?;
        }
    }
    Ok(())
}

impl<M: Conversation + Drop> Player<M> {
    // Carries a row out, and tells what came; a message is only kept.
    fn tell(
        &mut self,
        file: &str,
        rows: &[Row],
        row: &Row,
        report: &mut Report,
    ) -> anyhow::Result<()> {
        let mut came = Came::new(self.alloc);
        let played = self.carry_out(rows, row, &mut came);
        if played.is_ok() && row.word() == b"message".as_slice() {
            return Ok(());
        }
        came.settle(file, row, played, report)
    }

    fn carry_out(&mut self, rows: &[Row], row: &Row, came: &mut Came) -> Result<(), PlayFault> {
        match row.word() {
            b"message" => self.messages.learn(row),
            b"start" => self.begin(row, 1, came),
            b"talk" => self.begin(row, 2, came),
            b"behind" => self.play_behind(rows, row, came),
            b"needs-behind-offer" => self.play_offered(row, came),
            b"need" | b"shape" | b"outcome" | b"ended" => self.ask(row.word(), came),
            _ => self.play_call(row, came),
        }
    }

    // Starts a conversation, which the rows behind it go on with.
    fn begin(&mut self, row: &Row, at: usize, came: &mut Came) -> Result<(), PlayFault> {
        match start::<M>(self.alloc, &self.messages, row, at)? {
            Ok(conv) => {
                self.conv = Some(conv);
                came.put(b"started".as_slice())?;
            }
            Err(fault) => came.put(fault_word(fault))?,
        }
        Ok(())
    }

    // A call of the conversation that was started last.
    fn play_call(&mut self, row: &Row, came: &mut Came) -> Result<(), PlayFault> {
        let Some(conv) = &mut self.conv else {
            return Err(PlayFault::Row("nothing was started"));
        };
        tell_call(self.alloc, &self.messages, conv, row, 0, came)?;
        Ok(())
    }

    // A question about it.
    fn ask(&self, word: &[u8], came: &mut Came) -> Result<(), PlayFault> {
        let Some(conv) = &self.conv else {
            return Err(PlayFault::Row("nothing was started"));
        };
        match word {
            b"need" => put_need(self.alloc, &self.messages, conv.need(), came)?,
            b"shape" => came.put(shape_word(conv.need()))?,
            b"outcome" => put_outcome(&self.messages, &conv.outcome(), came)?,
            _ if conv.has_ended() => came.put(b"yes".as_slice())?,
            _ => came.put(b"no".as_slice())?,
        }
        Ok(())
    }

    // A call behind the first calls of a talk, so many, in a conversation of its own.
    fn play_behind(&self, rows: &[Row], row: &Row, came: &mut Came) -> Result<(), PlayFault> {
        let (Some(name), Some(count)) = (row.field(1), row.number(2)) else {
            return Err(PlayFault::Row("no talk and no number of calls"));
        };
        let Some((first, calls)) = talk_of(rows, name) else {
            return Err(PlayFault::Row("no talk has this name"));
        };
        match start::<M>(self.alloc, &self.messages, first, 2)? {
            Ok(mut conv) => {
                pass(self.alloc, &self.messages, &mut conv, calls, count)?;
                tell_last(self.alloc, &self.messages, &mut conv, row, came)
            }
            Err(_) => Err(PlayFault::Row("the talk doesn't start")),
        }
    }

    // What a conversation needs, once a list of offers was given to it.
    fn play_offered(&self, row: &Row, came: &mut Came) -> Result<(), PlayFault> {
        match start::<M>(self.alloc, &self.messages, row, 1)? {
            Ok(mut conv) => {
                conv.give(self.alloc, b"p9sk1@x\0".as_slice());
                put_need(self.alloc, &self.messages, conv.need(), came)?;
                Ok(())
            }
            Err(fault) => Ok(came.put(fault_word(fault))?),
        }
    }
}

// The row that starts a talk, and all that stand behind it.
fn talk_of<'a>(rows: &'a [Row], name: &[u8]) -> Option<(&'a Row, &'a [Row])> {
    let mut left = rows;
    for _ in 0..rows.len() {
        let (row, behind) = left.split_first()?;
        if is_talk(row, name) {
            return Some((row, behind));
        }
        left = behind;
    }
    None
}

// Whether a row starts the talk of this name.
fn is_talk(row: &Row, name: &[u8]) -> bool {
    if row.word() != b"talk".as_slice() {
        return false;
    }
    match row.field(1) {
        Some(field) => field == name,
        None => false,
    }
}

// Makes the first calls of a talk, so many.
fn pass<M: Conversation>(
    alloc: Global,
    messages: &Messages,
    conv: &mut M,
    rows: &[Row],
    count: u64,
) -> Result<(), PlayFault> {
    let mut left = count;
    for row in rows {
        if left == 0 || row.word() == b"talk".as_slice() {
            break;
        }
        if is_call(row.word()) {
            make_call(alloc, messages, conv, row, 0, &mut Bytes::new(alloc))?;
            left -= 1;
        }
    }
    if left > 0 {
        return Err(PlayFault::Row("the talk has fewer calls"));
    }
    Ok(())
}

// Makes a call, and tells its answer and what is got, if anything is.
fn tell_call<M: Conversation>(
    alloc: Global,
    messages: &Messages,
    conv: &mut M,
    row: &Row,
    at: usize,
    came: &mut Came,
) -> Result<Gave, PlayFault> {
    let mut out = Bytes::new(alloc);
    let gave = make_call(alloc, messages, conv, row, at, &mut out)?;
    put_gave(gave, came)?;
    if out.len() > 0 {
        messages.tell(out.as_slice(), came)?;
    }
    Ok(gave)
}

// Makes the last call of a conversation; where it breaks it, tells whether nothing more comes of it.
fn tell_last<M: Conversation>(
    alloc: Global,
    messages: &Messages,
    conv: &mut M,
    row: &Row,
    came: &mut Came,
) -> Result<(), PlayFault> {
    let gave = tell_call(alloc, messages, conv, row, 3, came)?;
    if matches!(gave, Gave::BadKey | Gave::Refused(_)) {
        if stays_broken(alloc, conv) {
            came.put(b"broken".as_slice())?;
        } else {
            came.put(b"goes-on".as_slice())?;
        }
    }
    Ok(())
}

// Whether nothing is got from a conversation and nothing is needed, since it is broken.
fn stays_broken<M: Conversation>(alloc: Global, conv: &mut M) -> bool {
    let mut out = Bytes::new(alloc);
    let is_told = matches!(conv.get(&mut out), Gave::Phase(PhaseWord::Broken));
    let is_broken = matches!(conv.outcome(), Outcome::Broken(_));
    is_told && is_broken && out.len() == 0 && matches!(conv.need(), Need::Nothing)
}
