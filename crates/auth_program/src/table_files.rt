//! The files of a server's tables, as they change while it runs.
use wire_streams::Source;

/// Two files of tables.
pub trait TableFiles {
    ghost use Rattle.std.specs.Prelude.{List, None, Option, Some, IfNone, IfSome};
    ghost use Rattle.auth_program.specs.Renewals.{Finds, Found};

    /// A file that was opened.
    type File: Source + Drop;

    /// What the looks to come will find, the next one first, where the object tells that.
    ghost finds: { Self → Option (List Found) };

    /// Looks whether either has changed since the last look, and opens both where one has: the keys, and who may speak for
    /// whom.
    fn look(&mut self) -> Option<(Self::File, Self::File)>
        ensures same { IfNone result (Finds (finds self.old) (finds self.new) None) }
        ensures changed { IfSome result (λ files. Finds (finds self.old) (finds self.new)
            (Some (record { keys = Self.File.left files.0; speaks = Self.File.left files.1 }))) };
}
