// A record of fixed size that is written field by field.
ghost use Rattle.std.specs.Prelude.{◌≡◌, ◌+◌, ◌≤◌, ◌<◌, ◌^◌, [], ◌++◌, length, replicate};
ghost use Rattle.std.specs.Int.{w16};
ghost use Rattle.wire_base.specs.Readers.{counted};
ghost use Rattle.wire_base.specs.Names.{IsName, name_field};

use std::marker::Model;
use wire_base::Name;

/// The front of a record of `N` bytes, as contracts see it.
#[derive(Drop)]
pub struct RecordWriter<const N: usize> {
    bytes: [u8; N],
    at: usize,
}

impl<const N: usize> Model for RecordWriter<N> {
    ghost use Rattle.std.specs.Prelude.{◌≡◌, ◌≤◌, ℕ, List, length, take};
    ghost use Rattle.std.specs.Coded.{coded_list, coded_ℕ};

    ghost Value = { List ℕ };

    ghost coded = { coded_list coded_ℕ };

    ghost view = { λ w. take w.at w.bytes };

    ghost invariant = { λ w. (w.at ≤ N) × (length w.bytes ≡ N) };
}

impl<const N: usize> RecordWriter<N> {
    /// Nothing yet.
    pub fn new() -> RecordWriter<N>
        ensures { result ≡ [] }
    {
        RecordWriter {
            bytes: [0; N],
            at: 0,
        }
    }

    /// A piece.
    pub fn put(&mut self, piece: &[u8])
        requires { length self.old + length piece.now ≤ N }
        ensures value { self.new ≡ self.old ++ piece.now }
        ensures size { length self.new ≡ length self.old + length piece.now }
    {
        let begin = self.at;
        let end = begin + piece.len();
        let whole = &mut self.bytes[..];
        whole[begin..end].copy_from_slice(piece);
        self.at = end;
    }

    /// So many NULs.
    pub fn put_nuls(&mut self, count: usize)
        requires { length self.old + count ≤ N }
        ensures value { self.new ≡ self.old ++ replicate count 0 }
        ensures size { length self.new ≡ length self.old + count }
    {
        let begin = self.at;
        let end = begin + count;
        let whole = &mut self.bytes[..];
        whole[begin..end].fill(0);
        self.at = end;
    }

    /// A field of `M` bytes that holds the name, with NULs to the end.
    pub fn put_name<const M: usize>(&mut self, name: &Name<M>)
        requires { length self.old + M ≤ N }
        ensures value { self.new ≡ self.old ++ name_field M name.now }
        ensures size { length self.new ≡ length self.old + M }
        ensures name { IsName M name.now }
    {
        let text = name.text();
        self.put(text);
        self.put_nuls(M - text.len());
    }

    /// A length of two bytes, the lowest first, and the text.
    pub fn put_counted(&mut self, text: &[u8])
        requires room { length self.old + 2 + length text.now ≤ N }
        requires short { length text.now < 2 ^ 16 }
        ensures value { self.new ≡ self.old ++ counted w16 text.now }
        ensures size { length self.new ≡ length self.old + 2 + length text.now }
    {
        self.put(&(text.len() as u16).to_le_bytes());
        self.put(text);
    }

    /// What was written so far.
    pub fn written(&self) -> &[u8]
        ensures { result.now ≡ self.now }
    {
        let whole = &self.bytes[..];
        &whole[..self.at]
    }

    /// The whole record.
    pub fn finish(self) -> [u8; N]
        requires { length self ≡ N }
        ensures { result ≡ self.entry }
    {
        self.bytes
    }
}
