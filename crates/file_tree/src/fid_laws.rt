// Laws of the definitions, each the contract of a function that does nothing.
ghost use Rattle.std.specs.Prelude.{◌≡◌, ◌≢◌, ℕ, Option, [], ◌∷◌};
ghost use Rattle.file_tree.specs.declared.fids.Fid.{Fid};
ghost use Rattle.file_tree.specs.Held.{fid_at, Becomes, Changes, StandsFor, Table};

/// A request that names one fid changes no other.
pub fn other_fids_stay()
    ensures { (before after : Table) (fid other : ℕ) (now : Option Fid)
        → Becomes before after fid now → fid ≢ other → fid_at after other ≡ fid_at before other }
{}

/// What a fid is can be read off the last request that concerns it: a new table stands for no change, and a table that
/// stands for some changes stands, after one more, for these with the new one.
pub fn a_fid_is_what_the_last_change_made_of_it()
    ensures first { StandsFor [] [] }
    ensures next { (changes : Changes) (before after : Table) (fid : ℕ) (now : Option Fid)
        → StandsFor changes before → Becomes before after fid now
        → StandsFor ((fid, now) ∷ changes) after }
{}
