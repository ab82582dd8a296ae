// The public calls of `attr_tuples`.
ghost use Rattle.std.specs.Prelude.{◌≡◌, option_map, ◌+◌, ◌<◌, ◌≤◌, ◌∷◌, IfSome, length, codes, Err, false, ◌++◌, OnOk, OnErr, drop, IfOk};
ghost use Rattle.std.specs.Str.{bytes_eq};
ghost use Rattle.attr_tuples.specs.Attributes.{is_secret};
ghost use Rattle.attr_tuples.specs.Cutting.{bytes_left, lines_left, text_lines};
ghost use Rattle.attr_tuples.specs.Equality.{public_equal};
ghost use Rattle.attr_tuples.specs.Forms.{is_user, is_dom};
ghost use Rattle.attr_tuples.specs.Giving.{gives, gives_once};
ghost use Rattle.attr_tuples.specs.Grammar.{tuple_of, Answers};
ghost use Rattle.attr_tuples.specs.Lines.{line_len, is_line};
ghost use Rattle.attr_tuples.specs.Matching.{matches, has_name, value_of};
ghost use Rattle.attr_tuples.specs.Merging.{merged, Merges};
ghost use Rattle.attr_tuples.specs.Printing.{printed_text, public_text};
ghost use Rattle.attr_tuples.specs.Taking.{Takes};
ghost use Rattle.attr_tuples.specs.Words.{value_text, gap_len, first_word};
ghost use Rattle.attr_tuples.specs.declared.fault.MergeFault.TheVariants.{TooMany};
ghost use Rattle.attr_tuples.specs.declared.fault.TupleFault.TheVariants.{NotText};

use attr_tuples::{Attr, MergeFault, Tuple, TupleFault, WordFault};
use std::alloc::Global;
use wire_base::{Bytes, NoMemory, Text};

/// As `matches`.
pub fn matches(template: &Tuple, t: &Tuple) -> bool
    ensures { result ≡ matches template.now t.now }
{
    attr_tuples::matches(template, t)
}

/// As `is_secret_name`.
pub fn is_secret_name(name: &[u8]) -> bool
    ensures { result ≡ is_secret name.now }
{
    attr_tuples::is_secret_name(name)
}

/// As `has_name`.
pub fn has_name(attrs: &[Attr], name: &[u8]) -> bool
    ensures { result ≡ has_name attrs.now name.now }
{
    attr_tuples::has_name(attrs, name)
}

/// As `public_equal`.
pub fn public_equal(a: &Tuple, b: &Tuple) -> bool
    ensures { result ≡ public_equal a.now b.now }
{
    attr_tuples::public_equal(a, b)
}

/// As `value_of`.
pub fn value_of<'a>(t: &'a Tuple, name: &[u8]) -> Option<&'a Text>
    ensures { option_map (λ text. text.now) result ≡ value_of name.now t.now }
{
    attr_tuples::value_of(t, name)
}

/// As `cut_line`.
pub fn cut_line(text: &[u8]) -> (&[u8], Option<&[u8]>)
    ensures lines { text_lines text.now ≡ result.0.now ∷ lines_left result.1 }
    ensures shorter { length result.0.now + bytes_left result.1 ≤ length text.now }
    ensures ends { IfSome result.1 (λ rest. length rest.now < length text.now) }
{
    attr_tuples::cut_line(text)
}

/// As `is_user`.
pub fn is_user(text: &[u8]) -> bool
    ensures { result ≡ is_user text.now }
{
    attr_tuples::is_user(text)
}

/// As `is_dom`.
pub fn is_dom(text: &[u8]) -> bool
    ensures { result ≡ is_dom text.now }
{
    attr_tuples::is_dom(text)
}

/// As `gives`.
pub fn gives(attrs: &[Attr], name: &[u8], text: &[u8]) -> bool
    ensures { result ≡ gives name.now (λ given. bytes_eq given text.now) attrs.now }
{
    attr_tuples::gives(attrs, name, text)
}

/// As `gives_user`.
pub fn gives_user(attrs: &[Attr]) -> bool
    ensures { result ≡ gives_once (codes "user") is_user attrs.now }
{
    attr_tuples::gives_user(attrs)
}

/// As `line_len`.
pub fn line_len(bytes: &[u8]) -> usize
    ensures value { result ≡ line_len bytes.now }
{
    attr_tuples::line_len(bytes)
}

/// As `merge`.
pub fn merge(a: &Tuple, b: &Tuple) -> Result<Tuple, MergeFault>
    ensures answer { Merges result a.now b.now }

    ensures refused { 36 < length (merged a.now b.now) → result ≡ Err TooMany }
{
    attr_tuples::merge(a, b)
}

/// As `parse_tuple`.
pub fn parse_tuple(alloc: Global, text: &[u8]) -> Result<Tuple, TupleFault>
    ensures answer { Answers result (tuple_of text.now) }

    ensures no_text { is_line text.now ≡ false → result ≡ Err (NotText (line_len text.now)) }
{
    attr_tuples::parse_tuple(alloc, text)
}

/// As `print_tuple`.
pub fn print_tuple(tuple: &Tuple, out: &mut Bytes) -> Result<(), NoMemory>
    ensures ok { OnOk result (out.new ≡ out.old ++ printed_text tuple.now) }
    ensures err { OnErr result (out.new ≡ out.old) }
{
    attr_tuples::print_tuple(tuple, out)
}

/// As `print_public`.
pub fn print_public(tuple: &Tuple, out: &mut Bytes) -> Result<(), NoMemory>
    ensures ok { OnOk result (out.new ≡ out.old ++ public_text tuple.now) }
    ensures err { OnErr result (out.new ≡ out.old) }
{
    attr_tuples::print_public(tuple, out)
}

/// As `put_value`.
pub fn put_value(text: &[u8], out: &mut Bytes) -> Result<(), NoMemory>
    ensures ok { OnOk result (out.new ≡ out.old ++ value_text text.now) }
    ensures err { OnErr result (out.new ≡ out.old) }
{
    attr_tuples::put_value(text, out)
}

/// As `gap_end`.
pub fn gap_end(text: &[u8], at: usize) -> usize
    requires { at ≤ length text.now }
    ensures value { result ≡ at + gap_len (drop at text.now) }
    ensures within { result ≤ length text.now }
{
    attr_tuples::gap_end(text, at)
}

/// As `take_word`.
pub fn take_word(text: &[u8], at: usize, word: &mut Bytes) -> Result<usize, WordFault>
    requires { at ≤ length text.now }
    ensures value { Takes result word.new text.now (first_word at (drop at text.now)) }
    ensures within { IfOk result (λ end. (at ≤ end) × (end ≤ length text.now)) }
{
    attr_tuples::take_word(text, at, word)
}
