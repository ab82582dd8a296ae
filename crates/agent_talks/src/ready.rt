// The line of an end that is made ahead.
ghost use Rattle.std.specs.Prelude.{◌≡◌};

use crate::end_line::EndLine;

/// The line by which the end of a conversation is to be told, with all of its room.
#[derive(Drop)]
pub struct ReadyLine {
    pub line: EndLine,
    ghost done: { line.done.left ≡ 64 },
    ghost error: { line.error.left ≡ 64 },
}
