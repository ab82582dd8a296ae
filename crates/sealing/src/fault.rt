// Why bytes could not be read as a record.
/// What is wrong with the bytes of a record. A field is named by its offset, and of several bad ones the first.
#[derive(Clone, Copy, Debug, PartialEq, Eq)]
pub enum FieldFault {
    /// There are fewer bytes than the record needs.
    Short { need: u32 },
    /// No byte of the name's field is NUL.
    NoNul { field: u32 },
    /// What stands before the first NUL of the name's field isn't UTF-8.
    NotText { field: u32 },
}
