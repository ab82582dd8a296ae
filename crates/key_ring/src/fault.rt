// Why a line of ctl is refused.
ghost use Rattle.std.specs.Prelude.{◌≡◌, ◌<◌, length};
ghost use Rattle.key_lists.specs.CtlLines.{add_text, delete_text};
ghost use Rattle.key_ring.specs.Faults.{line_text};

use key_lists::{AddFault, DeleteFault};

/// Why a line of ctl is refused.
#[derive(Clone, Copy, Debug, PartialEq, Eq)]
pub enum LineFault {
    /// It begins neither with `key ` nor with `delkey `, and isn't `debug`.
    UnknownVerb,
    /// What stands behind the verb is no tuple, or one of more than 32 attributes.
    BadTuple,
    /// The ring doesn't add the key.
    Add(AddFault),
    /// The ring deletes no key.
    Delete(DeleteFault),
}

impl LineFault {
    /// The text that tells a client of it.
    pub fn text(self) -> &'static [u8]
        ensures text { result.now ≡ line_text self }
        ensures short { length result.now < 64 }
    {
        match self {
            LineFault::UnknownVerb => b"unknown ctl verb",
            LineFault::BadTuple => b"bad tuple",
            LineFault::Add(fault) => add_text(fault),
            LineFault::Delete(fault) => delete_text(fault),
        }
    }
}

fn add_text(fault: AddFault) -> &'static [u8]
    ensures text { result.now ≡ add_text fault }
    ensures short { length result.now < 64 }
{
    match fault {
        AddFault::AskInKey => b"question in key",
        AddFault::NoProto => b"no proto",
        AddFault::UnknownProto => b"unknown proto",
        AddFault::NoUser => b"no user",
        AddFault::NoDom => b"no dom",
        AddFault::BadName => b"bad name",
        AddFault::NoSecret => b"no secret",
        AddFault::BadHex => b"bad hex",
        AddFault::Full => b"ring full",
        AddFault::NoMemory => b"out of memory",
    }
}

fn delete_text(fault: DeleteFault) -> &'static [u8]
    ensures text { result.now ≡ delete_text fault }
    ensures short { length result.now < 64 }
{
    match fault {
        DeleteFault::SecretValue => b"secret in template",
        DeleteFault::NoneMatched => b"no key matched",
    }
}
