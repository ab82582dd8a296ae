// Why a frame could not be decoded.
/// A frame that is no message of its direction, or want of memory.
#[derive(Clone, Copy, Debug, PartialEq, Eq)]
pub enum DecodeFault {
    /// The type isn't one of that direction (`at` is 4), the field that begins at this offset isn't whole or isn't
    /// valid, or bytes are left over from there on. The first fault from the left is the one that is told.
    Bad { at: u32 },
    NoMemory,
}
