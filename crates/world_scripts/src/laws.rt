// Laws of the definitions, each the contract of a function that does nothing.
ghost use Rattle.std.specs.Prelude.{◌≡◌, ◌<◌, ◌^◌, ℕ, List, ◌++◌, ◌↔◌, Some, true, replicate};
ghost use Rattle.std.specs.Fmt.{decimal};
ghost use Rattle.world_scripts.specs.Lines.{ScriptLine, IsWritten};
ghost use Rattle.world_scripts.specs.MadeScripts.{MadeIsRead, MadeIsShort};
ghost use Rattle.world_scripts.specs.Pieces.{is_number, number_in};
ghost use Rattle.world_scripts.specs.Reading.{line_of};

/// A text is read as a line exactly where it is that line's text and the line is one that can be written, and a text is
/// that of one line at most. So what is written of a line is read as that line. Lines whose numbers have other zeros in
/// front are other lines here, which say the same.
pub fn lines_are_what_is_written()
    ensures read { (text : List ℕ) (line : ScriptLine)
        → (line_of text ≡ Some line) ↔ IsWritten text line }
    ensures once { (text : List ℕ) (line other : ScriptLine)
        → IsWritten text line → IsWritten text other → line ≡ other }
{}

/// The digits that a number has in decimal are that number, and zeros in front of digits change nothing.
pub fn numbers_have_zeros_in_front()
    ensures decimal { (n : ℕ) → n < 2 ^ 64
        → (is_number (decimal n) ≡ true) × (number_in (decimal n) ≡ n) }
    ensures zeros { (zeros : ℕ) (digits : List ℕ)
        → number_in (replicate zeros 48 ++ digits) ≡ number_in digits }
{}

/// A script that is made of a number is no longer than a script may be, and each of its lines is read as the line that it was
/// made of. So none is refused for its form.
pub fn made_scripts_are_read()
    ensures short { MadeIsShort }
    ensures read { MadeIsRead }
{}
