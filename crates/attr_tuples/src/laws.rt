// Laws of the definitions, each the contract of a function that does nothing.
ghost use Rattle.std.specs.Prelude.{◌≡◌, ℕ, List, ◌↔◌, Ok, Err, true, map, count_by};
ghost use Rattle.attr_tuples.specs.declared.attr.Attr.{Attr};
ghost use Rattle.attr_tuples.specs.Printing.{hidden, printed_text, public_text};
ghost use Rattle.attr_tuples.specs.Equality.{public_equal, public_part, same_attr};
ghost use Rattle.std.specs.Str.{bytes_eq};
ghost use Rattle.wire_base.specs.Names.{IsName};
ghost use Rattle.wire_base.specs.Texts.{is_text};
ghost use Rattle.attr_tuples.specs.Attributes.{is_tuple, is_value};
ghost use Rattle.attr_tuples.specs.Forms.{is_dom, is_user};
ghost use Rattle.attr_tuples.specs.Giving.{gives};
ghost use Rattle.attr_tuples.specs.Matching.{holds};
ghost use Rattle.attr_tuples.specs.declared.attr.Value.TheVariants.{Is};
ghost use Rattle.attr_tuples.specs.declared.fault.TupleFault.{TupleFault};
ghost use Rattle.attr_tuples.specs.Grammar.{Reads, Refuses, tuple_of};

/// Tuples that are alike with their secrets hidden are shown alike.
pub fn public_text_hides_secrets()
    ensures { (a b : List Attr) → map hidden a ≡ map hidden b → public_text a ≡ public_text b }
{}

/// Tuples that are alike with their secrets hidden compare alike with any third, on either side.
pub fn public_equal_hides_secrets()
    ensures left { (a b c : List Attr) → map hidden a ≡ map hidden b
        → public_equal a c ≡ public_equal b c }
    ensures right { (a b c : List Attr) → map hidden a ≡ map hidden b
        → public_equal c a ≡ public_equal c b }
{}

/// Tuples are the same in public exactly where they hold each public attribute, of all there are, equally often.
/// So each is the same as itself, and if one is as another, that one is as the first.
pub fn public_equal_compares()
    ensures counts { (a b : List Attr)
        → (public_equal a b ≡ true) ↔ ((x : Attr)
        → count_by (same_attr x) (public_part a) ≡ count_by (same_attr x) (public_part b)) }
    ensures itself { (a : List Attr) → public_equal a a ≡ true }
    ensures either_way { (a b : List Attr) → public_equal a b ≡ public_equal b a }
{}

/// A text is read as a tuple exactly where it is made of words that say it, and refused with a fault exactly where it
/// has that fault behind what is well. So each text has one tuple or one fault.
pub fn tuples_are_what_they_say()
    ensures says { (text : List ℕ) (attrs : List Attr)
        → (tuple_of text ≡ Ok attrs) ↔ Reads text attrs }
    ensures refuses { (text : List ℕ) (fault : TupleFault)
        → (tuple_of text ≡ Err fault) ↔ Refuses text fault }
{}

/// A tuple that is printed is read back as it was.
pub fn printed_tuples_are_read()
    ensures { (attrs : List Attr) → is_tuple attrs ≡ true
        → tuple_of (printed_text attrs) ≡ Ok attrs }
{}

/// A text that is a user is a name of a field of 28 bytes, one that is a domain of 48, and both are values.
pub fn users_and_domains_are_names()
    ensures user { (text : List ℕ) → is_text text ≡ true → is_user text ≡ true
        → IsName 28 text }
    ensures user_value { (text : List ℕ) → is_text text ≡ true → is_user text ≡ true
        → is_value (Is text) ≡ true }
    ensures dom { (text : List ℕ) → is_text text ≡ true → is_dom text ≡ true
        → IsName 48 text }
    ensures dom_value { (text : List ℕ) → is_text text ≡ true → is_dom text ≡ true
        → is_value (Is text) ≡ true }
{}

/// A tuple gives a name just this value exactly where it holds an attribute of this name and this value.
pub fn what_is_given_is_held()
    ensures { (name text : List ℕ) (attrs : List Attr)
        → gives name (λ other. bytes_eq other text) attrs
        ≡ holds attrs (record { name = name; value = Is text }) }
{}
