//! Where a server's tables are had from that may be read again between two requests.
use crate::server::AuthCore;
use std::marker::Model;
use wire_base::NoMemory;

/// A server whose tables may have become others at each request.
pub trait LiveTables {
    ghost use Rattle.std.specs.Prelude.{◌≡◌, ℕ, suc, OnOk};
    ghost use Rattle.auth_server.specs.Answers.{Knowledge};
    ghost use Rattle.auth_server.specs.Standing.{Server, knowledge};

    /// The server as it is known now.
    ghost server: { Self → Server };

    /// What may be in force at a request, by the number of the requests before it from now on.
    ghost in_force: { Self → ℕ → Knowledge → Type 0 };

    /// Has the tables that are in force at the next request.
    fn renew(&mut self) -> Result<(), NoMemory>
        ensures next { OnOk result (in_force self.old 0 (knowledge (server self.new))) }
        ensures later { OnOk result ((number : ℕ) (known : Knowledge)
            → in_force self.new number known → in_force self.old (suc number) known) };

    /// The server by these tables.
    fn core(&self) -> &AuthCore
        ensures { result.now ≡ server self.now };
}

/// A server whose tables stay as they are.
#[derive(Drop)]
pub struct FixedTables<'a> {
    pub(crate) core: &'a AuthCore,
}

impl<'a> Model for FixedTables<'a> {
    ghost use Rattle.auth_server.specs.Standing.{Server};

    ghost Value = { Server };

    ghost view = { λ tables. tables.core.now };
}

impl<'a> FixedTables<'a> {
    ghost use Rattle.std.specs.Prelude.{◌≡◌};

    /// The tables that a server has.
    pub fn new(core: &'a AuthCore) -> FixedTables<'a>
        ensures { result ≡ core.now }
    {
        FixedTables { core }
    }
}

impl<'a> LiveTables for FixedTables<'a> {
    ghost use Rattle.auth_server.specs.Sessions.{exactly};
    ghost use Rattle.auth_server.specs.Standing.{knowledge};

    ghost server = { λ server. server };

    ghost in_force = { λ server. exactly (λ number. knowledge server) };

    fn renew(&mut self) -> Result<(), NoMemory> {
        Ok(())
    }

    fn core(&self) -> &AuthCore {
        self.core
    }
}
