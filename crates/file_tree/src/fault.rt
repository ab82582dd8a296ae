// Why a request on a fid is refused.
ghost use Rattle.std.specs.Prelude.{◌≡◌};
ghost use Rattle.file_tree.specs.Faults.{fault_text};

/// Why a request on a fid is refused. After each of these nothing has changed.
#[derive(Clone, Copy, Debug, PartialEq, Eq)]
pub enum FidFault {
    /// The fid isn't held.
    UnknownFid,
    /// The fid that was to be new is held.
    InUse,
    /// As many fids are held as may be.
    TooMany,
    /// The fid is open.
    AlreadyOpen,
    /// A walk by names began at a file that is no directory.
    NotDirectory,
    /// The first name of a walk isn't there.
    NotFound,
    /// The mode has bits that no mode of open(5) has.
    BadMode,
    /// The file may not be opened in this mode.
    Denied,
    /// A directory was read neither from 0 nor from where its latest read ended.
    BadOffset,
    /// Memory ran out.
    NoMemory,
}

impl From<wire_base::NoMemory> for FidFault {
    ghost use Rattle.std.specs.Prelude.{◌≡◌};
    ghost use Rattle.file_tree.specs.declared.fault.FidFault.TheVariants.{NoMemory};

    ghost from_gives = { λ _ e. e ≡ NoMemory };

    fn from(_: wire_base::NoMemory) -> Self {
        FidFault::NoMemory
    }
}

impl FidFault {
    /// The text that tells a client of it.
    pub fn text(self) -> &'static [u8]
        ensures { result.now ≡ fault_text self }
    {
        match self {
            FidFault::UnknownFid => b"unknown fid",
            FidFault::InUse => b"fid in use",
            FidFault::TooMany => b"too many fids",
            FidFault::AlreadyOpen => b"already open",
            FidFault::NotDirectory => b"not a directory",
            FidFault::NotFound => b"file not found",
            FidFault::BadMode => b"bad open mode",
            FidFault::Denied => b"permission denied",
            FidFault::BadOffset => b"bad directory offset",
            FidFault::NoMemory => b"out of memory",
        }
    }
}
