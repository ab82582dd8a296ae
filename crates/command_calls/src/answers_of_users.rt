// The public calls of `prompters`.
ghost use Rattle.std.specs.Prelude.{◌≡◌, ◌<◌, IfOk};
ghost use Rattle.nine.specs.Decoding.{IsFrame};
ghost use Rattle.nine.specs.Messages.{t_frame};
ghost use Rattle.prompters.specs.Replies.{has_tag, is_refusal, question_read};
ghost use Rattle.prompters.specs.Requests.{read_of, answer_text, write_of};

use prompters::Say;
use side_files::{PromptKind, Question};
use std::alloc::Global;
use wire_base::{Bytes, NoMemory};

/// As `read_request`.
pub fn read_request(file: PromptKind) -> &'static [u8]
    ensures spelled { result.now ≡ t_frame (read_of file) }
    ensures whole { IsFrame result.now }
{
    prompters::read_request(file)
}

/// As `write_request`.
pub fn write_request(
    alloc: Global,
    file: PromptKind,
    question: &Question,
    say: Say,
) -> Result<Bytes, NoMemory>
    ensures spelled { IfOk result (λ frame. frame
        ≡ t_frame (write_of file (answer_text question.now say))) }
    ensures whole { IfOk result (λ frame. IsFrame frame) }
{
    prompters::write_request(alloc, file, question, say)
}

/// As `has_tag`.
pub fn has_tag(tag: u16, reply: &[u8]) -> bool
    ensures { result ≡ has_tag tag reply.now }
{
    prompters::has_tag(tag, reply)
}

/// As `is_refusal`.
pub fn is_refusal(reply: &[u8]) -> bool
    ensures { result ≡ is_refusal reply.now }
{
    prompters::is_refusal(reply)
}

/// As `question_read`.
pub fn question_read(alloc: Global, reply: &[u8]) -> Result<Option<Question>, NoMemory>
    ensures { IfOk result (λ question. question ≡ question_read reply.now) }
{
    prompters::question_read(alloc, reply)
}
