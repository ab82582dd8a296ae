// Why a line of a script is refused.

/// Why a line of a script isn't carried out.
#[derive(Clone, Copy, Debug, PartialEq, Eq)]
pub enum ScriptCause {
    /// It has no line's form, or can't be carried out where it stands.
    BadLine,
    /// No node of this name was made.
    UnknownNode,
    /// No conversation of this name was opened, or it was closed.
    UnknownConv,
    /// It takes bytes of a message that isn't recorded yet, or more bytes than the message has.
    NoSuchMessage,
}
