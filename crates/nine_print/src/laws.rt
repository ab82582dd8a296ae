// Laws of the definitions, each the contract of a function that does nothing.
ghost use Rattle.std.specs.Prelude.{◌≡◌, ℕ, Bool, List, ◌∷◌, ◌++◌, length, true, false};
ghost use Rattle.std.specs.List.{list_all};
ghost use Rattle.nine.specs.declared.message.TBody.TheVariants.{Write};
ghost use Rattle.nine.specs.declared.message.RBody.TheVariants.{Read};
ghost use Rattle.nine_print.specs.Values.{is_in_line, is_printable, open_front};
ghost use Rattle.nine_print.specs.Lines.{t_line, r_line};

/// What stands behind the `=` of a name with a `!` before it is not shown: the line is the same for any other bytes of
/// the same number there, whatever they are and whatever stands before the `!`.
pub fn no_secret_is_shown()
    ensures writes { (secrets : Bool) (tag fid offset : ℕ) (front name value other : List ℕ)
        → list_all is_in_line name ≡ true → length value ≡ length other
        → t_line secrets (record { tag = tag; body = Write fid offset (front ++ 33 ∷ name ++ 61 ∷ value) })
        ≡ t_line secrets (record { tag = tag; body = Write fid offset (front ++ 33 ∷ name ++ 61 ∷ other) }) }
    ensures reads { (secrets : Bool) (tag : ℕ) (front name value other : List ℕ) → list_all is_in_line name ≡ true
        → length value ≡ length other
        → r_line secrets (record { tag = tag; body = Read (front ++ 33 ∷ name ++ 61 ∷ value) })
        ≡ r_line secrets (record { tag = tag; body = Read (front ++ 33 ∷ name ++ 61 ∷ other) }) }
{}

/// Unless secrets are asked for, nothing of what isn't text is shown, as a ticket or what `authinfo` gives: the line is the same
/// for any other bytes of the same number whose front isn't text either.
pub fn no_bytes_are_shown()
    ensures writes { (tag fid offset : ℕ) (content other : List ℕ) → length content ≡ length other
        → is_printable (open_front content) ≡ false → is_printable (open_front other) ≡ false
        → t_line false (record { tag = tag; body = Write fid offset content })
        ≡ t_line false (record { tag = tag; body = Write fid offset other }) }
    ensures reads { (tag : ℕ) (content other : List ℕ) → length content ≡ length other
        → is_printable (open_front content) ≡ false → is_printable (open_front other) ≡ false
        → r_line false (record { tag = tag; body = Read content })
        ≡ r_line false (record { tag = tag; body = Read other }) }
{}
