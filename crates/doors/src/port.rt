//! A port, through which an agent is asked: conversations of it are opened, asked and closed.
ghost use Rattle.std.specs.Prelude.{◌≡◌, ◌∷◌, true, List};
ghost use Rattle.doors.specs.Calls.{Asked, Closed, Opened, PortCall, is_fit};

use wire_base::Bytes;

/// What an open of a conversation came to.
#[derive(Clone, Copy, Debug, PartialEq, Eq)]
pub enum PortOpen {
    /// It was opened under this number.
    Open(u64),
    /// The agent refused it: it has too many conversations, or the port's connection too many fids; or it is gone.
    Refused,
    NoMemory,
}

/// What a request to a conversation came to.
#[derive(Clone, Copy, Debug, PartialEq, Eq)]
pub enum PortSaid {
    /// It was answered.
    Said,
    /// The port's connection was hung up, or the agent stopped.
    Gone,
    NoMemory,
}

/// What an agent is asked through. A request is one of factotum(4)'s rpc.
pub trait Port {
    ghost use Rattle.std.specs.Prelude.{List};
    ghost use Rattle.doors.specs.Calls.{PortCall};

    // What stood before the calls: of an agent, say, its history so far and the word that it was told.
    ghost Setting: { Type 0 };

    /// The calls that were made of it in a setting, the newest first, are these. A port that doesn't tell them stands for none.
    ghost stands: { Self.Setting → List PortCall → Self → Type 0 };

    /// Opens a conversation.
    fn open(&mut self) -> PortOpen
        ensures { (setting : Setting) (calls : List PortCall)
            → stands setting calls self.old → stands setting (Opened result ∷ calls) self.new };

    /// Closes a conversation. Where memory is short it stays open, and each later open and request is answered so.
    fn close(&mut self, conv: u64)
        ensures { (setting : Setting) (calls : List PortCall)
            → stands setting calls self.old → stands setting (Closed conv ∷ calls) self.new };

    /// Asks a conversation; its answer is put in the place of what `out` holds. A start is one of p9any as its server, so that
    /// no answer waits for the authentication server.
    fn rpc(&mut self, conv: u64, request: &[u8], out: &mut Bytes) -> PortSaid
        requires { is_fit request.now ≡ true }
        ensures { (setting : Setting) (calls : List PortCall)
            → stands setting calls self.old
            → stands setting (Asked conv request.now result out.new ∷ calls) self.new };
}
