// Why a client is refused, and what is told of him.
ghost use Rattle.std.specs.Prelude.{◌≡◌};
ghost use Rattle.pass_program.specs.Changes.{refused};

use auth_server::refuse;

/// Why a change of a password is refused.
#[derive(Clone, Copy, Debug, PartialEq, Eq)]
pub enum Refusal {
    /// The message isn't of the kind, or a field of it is no name.
    BadRequest,
    /// The old password isn't the user's, or there is no such user.
    BadOldPassword,
    /// The new password hasn't 8 to 27 bytes from the blank on.
    BadNewPassword,
    /// A secret is to be changed, and none is kept.
    NoSecretKept,
    /// The new table couldn't be written.
    TableNotWritten,
}

/// What is told of a user.
#[derive(Clone, Copy, Debug, PartialEq, Eq)]
pub enum Event {
    /// He was refused.
    Refused(Refusal),
    /// The table with his new password was written, and he was told.
    Changed,
}

/// A refusal as it is sent.
pub(crate) fn refuse_for(why: Refusal) -> [u8; 65]
    ensures { result ≡ refused why }
{
    match why {
        Refusal::BadRequest => refuse(b"bad request"),
        Refusal::BadOldPassword => refuse(b"bad old password"),
        Refusal::BadNewPassword => refuse(b"bad new password"),
        Refusal::NoSecretKept => refuse(b"no secret kept"),
        Refusal::TableNotWritten => refuse(b"table not written"),
    }
}
