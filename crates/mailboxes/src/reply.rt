// A reply that wasn't taken yet.
use nine::{put_error, put_read};
use std::alloc::Global;
use std::marker::Model;
use talks::{RpcAnswer, print_answer};
use wire_base::{Bytes, NoMemory};

/// The text of a refusal: fewer than 64 bytes, which stand in the program itself.
#[derive(Drop)]
pub struct ErrorText {
    bytes: &'static [u8],
}

impl Model for ErrorText {
    ghost use Rattle.std.specs.Prelude.{List, ℕ, ◌<◌, length};

    ghost Value = { List ℕ };

    ghost view = { λ t. t.bytes.now };

    ghost invariant = { λ t. length t.bytes.now < 64 };
}

impl ErrorText {
    ghost use Rattle.std.specs.Prelude.{◌≡◌, ◌<◌, length};

    pub fn new(bytes: &'static [u8]) -> ErrorText
        requires { length bytes.now < 64 }
        ensures { result ≡ bytes.now }
    {
        ErrorText { bytes }
    }

    pub fn bytes(&self) -> &'static [u8]
        ensures text { result.now ≡ self.now }
        ensures short { length result.now < 64 }
    {
        self.bytes
    }
}

/// An answer of a conversation, whose text a reply holds: it has fewer than 65536 bytes, and is printed when the reply is
/// taken. It has no Debug, which would print secrets.
#[derive(Drop)]
pub struct ToldAnswer {
    answer: RpcAnswer,
    alloc: Global,
}

impl Model for ToldAnswer {
    ghost use Rattle.std.specs.Prelude.{◌<◌, ◌^◌, length};
    ghost use Rattle.talks.specs.RpcAnswers.{answer_text};
    ghost use Rattle.talks.specs.declared.answer.RpcAnswer.{RpcAnswer};

    ghost Value = { RpcAnswer };

    ghost view = { λ t. t.answer };

    ghost invariant = { λ t. length (answer_text t.answer) < 2 ^ 16 };
}

impl ToldAnswer {
    ghost use Rattle.std.specs.Prelude.{◌≡◌, ◌<◌, ◌^◌, ◌++◌, length, OnOk, OnErr};
    ghost use Rattle.talks.specs.RpcAnswers.{answer_text};
    ghost use Rattle.mailboxes.specs.Kept.{answer_frame};

    /// It takes no memory; what printing takes later comes from this allocator.
    pub fn new(alloc: Global, answer: RpcAnswer) -> ToldAnswer
        requires { length (answer_text answer) < 2 ^ 16 }
        ensures { result ≡ answer }
    {
        ToldAnswer { answer, alloc }
    }

    // Appends the frame that tells it under the tag.
    fn put(&self, tag: u16, out: &mut Bytes) -> Result<(), NoMemory>
        ensures ok { OnOk result (out.new ≡ out.old ++ answer_frame self.now tag) }
        ensures err { OnErr result (out.new ≡ out.old) }
    {
        let mut text = Bytes::new(self.alloc);
        print_answer(&self.answer, &mut text)?;
        put_read(tag, text.as_slice(), out)
    }
}

/// A line of a file, which a reply holds: it has fewer than 65536 bytes.
#[derive(Drop)]
pub struct ToldLine {
    line: Bytes,
}

impl Model for ToldLine {
    ghost use Rattle.std.specs.Prelude.{ℕ, List, ◌<◌, ◌^◌, length};

    ghost Value = { List ℕ };

    ghost view = { λ t. t.line };

    ghost invariant = { λ t. length t.line < 2 ^ 16 };
}

impl ToldLine {
    ghost use Rattle.std.specs.Prelude.{◌≡◌, ◌<◌, ◌^◌, length};

    /// It takes no memory.
    pub fn new(line: Bytes) -> ToldLine
        requires { length line < 2 ^ 16 }
        ensures { result ≡ line }
    {
        ToldLine { line }
    }

    fn as_slice(&self) -> &[u8]
        ensures line { result.now ≡ self.now }
        ensures short { length result.now < 2 ^ 16 }
    {
        self.line.as_slice()
    }
}

/// A reply that wasn't taken yet. A refusal, an answer and a line take no memory before they are taken.
#[derive(Drop)]
pub enum Reply {
    Spelled(Bytes),
    Refused { tag: u16, text: ErrorText },
    Answer { tag: u16, answer: ToldAnswer },
    Line { tag: u16, line: ToldLine },
}

impl Reply {
    ghost use Rattle.std.specs.Prelude.{◌≡◌, ◌++◌, OnOk, OnErr};
    ghost use Rattle.mailboxes.specs.Kept.{reply_bytes};

    /// Appends the frame of the reply.
    pub fn put(&self, out: &mut Bytes) -> Result<(), NoMemory>
        ensures ok { OnOk result (out.new ≡ out.old ++ reply_bytes self.now) }
        ensures err { OnErr result (out.new ≡ out.old) }
    {
        match self {
            Reply::Spelled(bytes) => out.append(bytes.as_slice()),
            Reply::Refused { tag, text } => put_error(*tag, text.bytes(), out),
            Reply::Answer { tag, answer } => answer.put(*tag, out),
            Reply::Line { tag, line } => put_read(*tag, line.as_slice(), out),
        }
    }
}
