// Who lets clients in.
use crate::{Address, ClientLimits};

/// Who lets clients in.
pub trait Door {
    ghost use Rattle.std.specs.Prelude.{Option, is_some};
    ghost use Rattle.client_doors.specs.Histories.{Seen};
    ghost use Rattle.client_doors.specs.Doors.{Admits};

    /// What a client holds as long as it is inside.
    type Place: Drop;

    /// Who is inside, where that is told.
    ghost seen: { Self → Option Seen };

    /// A client comes: its place, where it is let in.
    fn let_in(&mut self, address: Option<Address>) -> Option<Self::Place>
        ensures { Admits (seen self.old) (seen self.new) address (is_some result) };
}

/// Limits that nobody else sees: who holds them tells them who has gone.
impl Door for ClientLimits {
    ghost use Rattle.std.specs.Prelude.{Some};

    type Place = ();

    ghost seen = { λ limits. Some limits };

    fn let_in(&mut self, address: Option<Address>) -> Option<()> {
        if self.admit(address) { Some(()) } else { None }
    }
}
