// Laws of the definitions, each the contract of a function that does nothing.
ghost use Rattle.std.specs.Prelude.{◌≡◌, ◌≢◌, ◌↔◌, ℕ, List, ◌∷◌, ◌++◌, Bool, true, false, Some, None};
ghost use Rattle.std.specs.List.{Contains};
ghost use Rattle.auth_tables.specs.Lines.{IsFirstBad, NoneIsBad, first_bad};
ghost use Rattle.auth_tables.specs.Keys.{KeyLine, bad_key_line, table_keys};
ghost use Rattle.auth_tables.specs.Printing.{IsTable, table_text};
ghost use Rattle.auth_tables.specs.Speaks.{SpeakLine, Speaks, may_speak, names_in};

/// A host may speak for a user exactly where it is the user, or where one of its lines gives it the user or `*` and none
/// of its lines gives it `!` and the user.
pub fn who_speaks_for_whom()
    ensures { (lines : List SpeakLine) (host user : List ℕ)
        → may_speak (names_in lines host) host user ≡ true ↔ Speaks lines host user }
{}

/// A user whom any line of a host denies is denied to it, whatever other lines stand before and behind and whatever else
/// the line gives.
pub fn a_denial_goes_before_every_grant()
    ensures { (before behind : List SpeakLine) (host user : List ℕ) (names : List (List ℕ))
        → host ≢ user → Contains names (33 ∷ user)
        → may_speak (names_in (before ++ (host, names) ∷ behind) host) host user ≡ false }
{}

/// The first bad line of a table is that of the number told: it is bad behind those before it, and none of those is. No
/// number is told exactly where no line is bad behind those before it.
pub fn the_first_bad_line_is_told()
    ensures told { (fits : List (List ℕ) → List ℕ → Bool) (lines : List (List ℕ)) (n : ℕ)
        → first_bad fits lines ≡ Some n ↔ IsFirstBad fits lines n }
    ensures none { (fits : List (List ℕ) → List ℕ → Bool) (lines : List (List ℕ))
        → first_bad fits lines ≡ None ↔ NoneIsBad fits lines }
{}

/// A table that is written is read as it is, and none of its lines is bad.
pub fn a_written_table_is_read()
    ensures keys { (keys : List KeyLine) → IsTable keys → table_keys (table_text keys) ≡ keys }
    ensures good { (keys : List KeyLine) → IsTable keys
        → bad_key_line (table_text keys) ≡ None }
{}
