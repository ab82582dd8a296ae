// Reads of both files, and what is written to a question.
ghost use Rattle.std.specs.Prelude.{◌≡◌, ◌<◌, length, IfOk};
ghost use Rattle.nine.specs.Messages.{t_frame};
ghost use Rattle.nine.specs.Decoding.{IsFrame};
ghost use Rattle.prompters.specs.Requests.{answer_text, consent, fid_of, read_of, write_of};

use crate::prompter::Say;
use nine::{TBody, TMsg, encode_t};
use side_files::{PromptKind, Question};
use std::alloc::Global;
use wire_base::{Bytes, NoMemory};

const READ_CONFIRM: &[u8; 23] =
    b"\x17\x00\x00\x00t\x01\x00\x01\x00\x00\x00\x00\x00\x00\x00\x00\x00\x00\x00\x00\x20\x00\x00";

const READ_NEEDKEY: &[u8; 23] =
    b"\x17\x00\x00\x00t\x02\x00\x02\x00\x00\x00\x00\x00\x00\x00\x00\x00\x00\x00\x00\x20\x00\x00";

/// The frame of a read of a file.
#[tactic(auto, unfolding(nine::specs::Messages::frame))]
pub fn read_request(file: PromptKind) -> &'static [u8]
    ensures spelled { result.now ≡ t_frame (read_of file) }
    ensures whole { IsFrame result.now }
{
    match file {
        PromptKind::Confirm => READ_CONFIRM.as_slice(),
        PromptKind::Needkey => READ_NEEDKEY.as_slice(),
    }
}

fn fid_of(file: PromptKind) -> u32
    ensures { result ≡ fid_of file }
{
    match file {
        PromptKind::Confirm => 1,
        PromptKind::Needkey => 2,
    }
}

fn consent(say: Say) -> &'static [u8]
    ensures { result.now ≡ consent say }
{
    match say {
        Say::Yes => b" answer=yes".as_slice(),
        Say::No | Say::Pass => b" answer=no".as_slice(),
    }
}

// What is written to a question.
fn answer_text(alloc: Global, question: &Question, say: Say) -> Result<Bytes, NoMemory>
    ensures text { IfOk result (λ text. text ≡ answer_text question.now say) }
    ensures few { IfOk result (λ text. length text < 64) }
{
    let mut text = Bytes::new(alloc);
    let mut buffer = itoa::Buffer::new();
    text.append(b"tag=".as_slice())?;
    text.append(buffer.format(question.tag).as_bytes())?;
    if question.confirm {
        text.append(consent(say))?;
    }
    Ok(text)
}

/// The frame of the write by which a question that was read in a file is answered.
pub fn write_request(
    alloc: Global,
    file: PromptKind,
    question: &Question,
    say: Say,
) -> Result<Bytes, NoMemory>
    ensures spelled { IfOk result (λ frame. frame
        ≡ t_frame (write_of file (answer_text question.now say))) }
    ensures whole { IfOk result (λ frame. IsFrame frame) }
{
    let content = answer_text(alloc, question, say)?;
    let message = TMsg {
        tag: 3,
        body: TBody::Write {
            fid: fid_of(file),
            offset: 0,
            content,
        },
    };
    let mut frame = Bytes::new(alloc);
    encode_t(&message, &mut frame)?;
    Ok(frame)
}
