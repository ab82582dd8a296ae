// How a connection ends.

/// Why a connection ended.
#[derive(Clone, Copy, Debug, PartialEq, Eq)]
pub enum LineEnd {
    /// The input was read to its end.
    End,
    /// The input ended inside the frame that begins at this byte.
    Torn { at: u64 },
    /// The size at this byte is under 7 or over 8216.
    BadFrame { at: u64, size: u32 },
    /// The source failed.
    ReadFault,
    /// The words failed.
    WordFault,
    /// More than 2^40 bytes came.
    Flood,
    /// Memory was short. The rest of the input isn't handed on.
    NoMemory,
    /// The agent stopped. The rest of the input isn't handed on.
    Stopped,
    /// The sink failed, and some replies weren't written. The rest of the input isn't handed on.
    WriteFault,
}
