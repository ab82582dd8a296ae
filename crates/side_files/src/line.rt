// The line of a question.
ghost use Rattle.std.specs.Prelude.{◌≡◌, nat_lt, length, IfOk};
ghost use Rattle.side_files.specs.Lines.{verb, question_line};

use std::alloc::Global;
use wire_base::{Bytes, NoMemory};

/// What is asked for.
#[derive(Clone, Copy, Debug, PartialEq, Eq)]
pub enum PromptKind {
    /// Whether a key may be used.
    Confirm,
    /// That a key be added.
    Needkey,
}

fn verb(kind: PromptKind) -> &'static [u8]
    ensures { result.now ≡ verb kind }
{
    match kind {
        PromptKind::Confirm => b"confirm".as_slice(),
        PromptKind::Needkey => b"needkey".as_slice(),
    }
}

/// The line of a question with its newline.
#[tactic(auto, unfolding(crate::specs::Lines::question_line))]
pub(crate) fn build_line(
    alloc: Global,
    kind: PromptKind,
    tag: u64,
    about: &[u8],
) -> Result<Bytes, NoMemory>
    ensures { IfOk result (λ line. line ≡ question_line kind tag about.now) }
{
    let mut line = Bytes::new(alloc);
    let mut buffer = itoa::Buffer::new();
    line.append(verb(kind))?;
    line.append(b" tag=".as_slice())?;
    line.append(buffer.format(tag).as_bytes())?;
    line.append(b" ".as_slice())?;
    line.append(about)?;
    line.push(b'\n')?;
    Ok(line)
}

// Whether a line has more bytes than may be read.
pub(crate) fn is_over(line: &Bytes, count: u32) -> bool
    ensures { result ≡ nat_lt count (length line.now) }
{
    line.len() > count as usize
}
