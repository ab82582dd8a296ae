// How far a conversation has come with its choice.

use wire_base::Bytes;

/// The most bytes of a text, with the NUL that ends it.
pub const MOST_TEXT: usize = 1024;

/// Between which two moves of the choice a conversation stands, with what was taken and found in the moves that passed.
/// Texts stand here without the NUL that ends them.
#[derive(Drop)]
pub enum Stage {
    /// A server, which needs the offers.
    ServerOffers,
    /// There were none, and a key is needed.
    ServerKey,
    /// Before the list of offers is got.
    ServerFirst { list: Bytes },
    /// Before the client's choice is given.
    ServerSecond { list: Bytes },
    /// A client, before the list is given.
    ClientFirst,
    /// The list was given, and one of its domains is to be picked.
    ClientPick { list: Bytes },
    /// Before the choice is got: the eligible word of the list at this place.
    ClientSecond { list: Bytes, place: u32 },
    /// Before the server's consent to the choice is given.
    ClientThird { list: Bytes, place: u32 },
}
