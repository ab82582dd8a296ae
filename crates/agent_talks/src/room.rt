// A line whose room was made ahead.
ghost use Rattle.std.specs.Prelude.{◌≡◌, length};
ghost use Rattle.std.specs.List.{list_any};
ghost use Rattle.attr_tuples.specs.Words.{ends_unquoted, needs_quotes};

use std::marker::Model;
use wire_base::{Bytes, NoMemory};

/// The front of a line, with room for so many bytes more: these take no memory.
#[derive(Drop)]
pub struct LineRoom {
    list: Vec<u8>,
    left: usize,
}

impl Model for LineRoom {
    ghost use Rattle.std.specs.Prelude.{◌+◌, ◌≤◌};
    ghost use Rattle.std.specs.Vec.{vec_len, vec_capacity};
    ghost use Rattle.agent_talks.specs.Rooms.{Room};

    ghost Value = { Room };

    ghost view = { λ r. record { text = r.list.items; left = r.left } };

    ghost invariant = { λ r. vec_len r.list + r.left ≤ vec_capacity r.list };
}

impl LineRoom {
    ghost use Rattle.std.specs.Prelude.{◌≡◌, ◌+◌, ◌*◌, ◌≤◌, ◌<◌, ◌++◌, ◌∷◌, [], length, IfOk};
    ghost use Rattle.attr_tuples.specs.Words.{quoted, quoted_byte, value_text};

    /// Room for so many bytes behind a front.
    pub fn new(front: Bytes, left: usize) -> Result<LineRoom, NoMemory>
        ensures text { IfOk result (λ room. room.text ≡ front) }
        ensures left { IfOk result (λ room. room.left ≡ left) }
    {
        let mut list = front.into_vec();
        list.reserve(left)?;
        Ok(LineRoom { list, left })
    }

    /// Puts a byte last. It takes no memory.
    pub fn push(&mut self, byte: u8)
        requires { 0 < self.old.left }
        ensures text { self.new.text ≡ self.old.text ++ byte ∷ [] }
        ensures left { self.new.left + 1 ≡ self.old.left }
    {
        self.list.push(byte).unwrap();
        self.left -= 1;
    }

    /// Puts a piece last. It takes no memory.
    pub fn append(&mut self, piece: &[u8])
        requires { length piece.now ≤ self.old.left }
        ensures text { self.new.text ≡ self.old.text ++ piece.now }
        ensures left { self.new.left + length piece.now ≡ self.old.left }
    {
        for byte in piece {
            self.push(*byte);
        }
    }

    /// Puts a value last, in quotes where a reader would cut it. It takes no memory.
    pub fn put_value(&mut self, text: &[u8])
        requires { 2 * length text.now + 2 ≤ self.old.left }
        ensures text { self.new.text ≡ self.old.text ++ value_text text.now }
        ensures left { self.old.left ≤ self.new.left + (2 * length text.now + 2) }
    {
        if check_needs_quotes(text) {
            self.append_quoted(text);
        } else {
            self.append(text);
        }
    }

    fn append_quoted(&mut self, text: &[u8])
        requires { 2 * length text.now + 2 ≤ self.old.left }
        ensures text { self.new.text ≡ self.old.text ++ quoted text.now }
        ensures left { self.old.left ≤ self.new.left + (2 * length text.now + 2) }
    {
        self.push(b'\'');
        for byte in text {
            self.push_quoted(*byte);
        }
        self.push(b'\'');
    }

    fn push_quoted(&mut self, byte: u8)
        requires { 2 ≤ self.old.left }
        ensures text { self.new.text ≡ self.old.text ++ quoted_byte byte }
        ensures left { self.old.left ≤ self.new.left + 2 }
    {
        if byte == b'\'' {
            self.push(b'\'');
        }
        self.push(byte);
    }

    /// The whole line. It takes no memory.
    pub fn finish(self) -> Bytes
        ensures { result ≡ self.text }
    {
        Bytes::from_vec(self.list)
    }
}

fn check_needs_quotes(text: &[u8]) -> bool
    ensures { result ≡ needs_quotes text.now }
{
    text.is_empty() || holds_end(text)
}

fn holds_end(text: &[u8]) -> bool
    ensures { result ≡ list_any ends_unquoted text.now }
{
    text.iter()
        .any(|byte| *byte == b' ' || *byte == b'\t' || *byte == b'\'')
}
