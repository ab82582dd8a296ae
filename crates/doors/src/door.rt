// The door: one connection that is served.
ghost use Rattle.std.specs.Prelude.{◌≡◌, [], List, IsErr, true, OnOk, OnErr};
ghost use Rattle.nine.specs.Decoding.{IsFrame};
ghost use Rattle.doors.specs.Calls.{PortCall};
ghost use Rattle.doors.specs.Histories.{History};
ghost use Rattle.doors.specs.Doors.{StandsFor, Stepped, has_failed};

use crate::connection::Connection;
use crate::port::Port;
use std::alloc::Global;
use wire_base::{Bytes, NoMemory};

/// One connection to the file server, whose users are authenticated through a port.
#[derive(Drop)]
pub struct Door {
    connection: Connection,
    // Memory ran out once.
    has_failed: bool,
}

impl Door {
    /// A connection on which nothing came yet. It takes no memory.
    pub fn new(alloc: Global) -> Door
        ensures { StandsFor [] result }
    {
        Door {
            connection: Connection::new(alloc),
            has_failed: false,
        }
    }

    /// Answers a frame, which is whole: at least 7 bytes, and its size field is their number. Its one reply stands behind what
    /// was to be written. Where memory runs out no reply is begun, and each later frame is answered so.
    pub fn step<P: Port>(
        &mut self,
        frame: &[u8],
        port: &mut P,
        out: &mut Bytes,
    ) -> Result<(), NoMemory>
        requires { IsFrame frame.now }
        ensures stepped { OnOk result ((before : History) (setting : P.Setting) (past : List PortCall)
            → StandsFor before self.old → P.stands setting past port.old
            → Stepped (P.stands setting) before past frame.now self.new port.new out.old out.new) }
        ensures fails { OnErr result (has_failed self.new ≡ true) }
        ensures failed { has_failed self.old ≡ true → IsErr result }
        ensures same { OnErr result (out.new ≡ out.old) }
    {
        if self.has_failed {
            return Err(NoMemory);
        }
        match self.connection.answer(frame, port, out) {
            Ok(()) => Ok(()),
            Err(NoMemory) => {
                self.has_failed = true;
                Err(NoMemory)
            }
        }
    }
}
