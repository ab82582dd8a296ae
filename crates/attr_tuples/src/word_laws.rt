// Laws of the definitions, each the contract of a function that does nothing.
ghost use Rattle.std.specs.Prelude.{◌≡◌, ℕ, List, ◌↔◌, Ok, Err, true, length};
ghost use Rattle.attr_tuples.specs.Lines.{is_line, line_len};
ghost use Rattle.attr_tuples.specs.Words.{Cut, IsWord, IsOpen, first_word};

/// The first word of a text is taken as its parts say, exactly where the text begins with the parts of a word; and a
/// quote is named exactly where it isn't closed up to the end of the text.
pub fn words_are_their_parts()
    ensures taken { (at : ℕ) (text : List ℕ) (cut : Cut)
        → (first_word at text ≡ Ok cut) ↔ IsWord at text cut }
    ensures not_closed { (at : ℕ) (text : List ℕ) (opened : ℕ)
        → (first_word at text ≡ Err opened) ↔ IsOpen at text opened }
{}

/// A word of a line is a line, and so is what stands behind it.
pub fn words_of_lines_are_lines()
    ensures { (at : ℕ) (text : List ℕ) (cut : Cut) → first_word at text ≡ Ok cut
        → is_line text ≡ true → (is_line cut.bytes ≡ true) × (is_line cut.behind ≡ true) }
{}

/// All bytes are a line's exactly where they are a line.
pub fn lines_are_whole()
    ensures { (bytes : List ℕ) → (line_len bytes ≡ length bytes) ↔ (is_line bytes ≡ true) }
{}
