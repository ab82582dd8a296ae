// An agent that is asked on connections, by requests each of which is replied to; and one of one's own.
ghost use Rattle.std.specs.Prelude.{◌∷◌, List, IfOk};
ghost use Rattle.nine.specs.Decoding.{IsFrame};
ghost use Rattle.door_ports.specs.Exchanges.{Exchange, exchange};

use crate::reply::{Reply, read_reply, silence_of};
use agent_core::Agent;
use agent_history::{Event, StepAnswer};
use std::alloc::Global;
use wire_base::{Bytes, NoMemory};

/// An agent that is asked on connections.
pub trait AskedAgent {
    ghost use Rattle.std.specs.Prelude.{List};
    ghost use Rattle.door_ports.specs.Exchanges.{Exchange};

    // What stood before it was asked: of an agent of one's own its history, and of one behind a hub the seat.
    ghost Past: { Type 0 };

    /// These exchanges were made with it since, the newest first.
    ghost stands: { Self.Past → List Exchange → Self → Type 0 };

    /// A frame comes on a connection with a word, and its reply is taken.
    fn exchange(
        &mut self,
        alloc: Global,
        conn: u64,
        frame: Bytes,
        word: [u8; 8],
    ) -> Result<Reply, NoMemory>
        requires { IsFrame frame }
        ensures { IfOk result (λ reply. (past : Past) (done : List Exchange)
            → stands past done self.old
            → stands past (exchange conn frame word reply ∷ done) self.new) };
}

impl AskedAgent for Agent {
    ghost use Rattle.agent_history.specs.Histories.{History};
    ghost use Rattle.door_ports.specs.Agents.{StandsBehind};

    ghost Past = { History };

    ghost stands = { StandsBehind };

    fn exchange(
        &mut self,
        alloc: Global,
        conn: u64,
        frame: Bytes,
        word: [u8; 8],
    ) -> Result<Reply, NoMemory> {
        self.request(conn, frame.as_slice(), word)?;
        let mut taken = Bytes::new(alloc);
        let answer = self.step(&Event::Take { conn }, &mut taken)?;
        let StepAnswer::Reply = answer else {
            return Ok(silence_of(answer));
        };
        read_reply(alloc, taken.as_slice())
    }
}
