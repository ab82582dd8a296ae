// How the program ends: the number and the line.
ghost use Rattle.std.specs.Prelude.{◌≡◌, ◌++◌, OnOk, OnErr, true};
ghost use Rattle.auth_program.specs.Statuses.{is_printable};
ghost use Rattle.auth_program.specs.Endings.{ending_number, ending_text, is_told, of_listening};

use crate::log::print_fault;
use crate::status::Status;
use auth_server::ListenEnd;
use std::alloc::Global;
use wire_base::{Bytes, NoMemory};

/// How the program ended.
#[derive(Clone, Copy, Debug, PartialEq, Eq)]
pub enum Ending {
    /// As `authsrv` ends, before anybody listened.
    Status(Status),
    /// A client couldn't be given to a thread.
    NoThread,
    /// Nobody can listen, or accepting failed.
    ListenFault,
}

impl From<ListenEnd> for Ending {
    ghost from_gives = { λ end ending. ending ≡ of_listening end };

    fn from(end: ListenEnd) -> Self {
        match end {
            ListenEnd::NoThread => Ending::NoThread,
            ListenEnd::ListenFault => Ending::ListenFault,
            ListenEnd::NoMemory => Ending::Status(Status::NoMemory),
        }
    }
}

impl From<Status> for Ending {
    ghost use Rattle.auth_program.specs.declared.ending.Ending.TheVariants as endings;

    ghost from_gives = { λ status ending. ending ≡ endings.Status status };

    fn from(status: Status) -> Self {
        Ending::Status(status)
    }
}

impl Ending {
    /// The number that the process ends with.
    pub fn number(self) -> u8
        ensures { result ≡ ending_number self }
    {
        match self {
            Ending::Status(status) => status.number(),
            Ending::NoThread => 12,
            Ending::ListenFault => 13,
        }
    }

    /// Appends its line for standard error: nothing where it is fine.
    pub fn print(&self, alloc: Global, out: &mut Bytes) -> Result<(), NoMemory>
        requires { is_told self.now ≡ true }
        ensures ok { OnOk result (out.new ≡ out.old ++ ending_text self.now) }
        ensures err { OnErr result (out.new ≡ out.old) }
    {
        match self {
            Ending::Status(status) => print_fault(alloc, status, out),
            Ending::NoThread => out.append(b"authd: no thread\n"),
            Ending::ListenFault => out.append(b"authd: listen fault\n"),
        }
    }
}
