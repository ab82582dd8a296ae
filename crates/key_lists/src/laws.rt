// Laws of the definitions, each the contract of a function that does nothing.
ghost use Rattle.std.specs.Prelude.{◌≡◌, ℕ, ◌<◌, filter, ◌≤◌, ◌↔◌, Some, None, true, All, List, [], ◌∷◌, ◌++◌, false, length, map, reverse, AllPairs};
ghost use Rattle.std.specs.List.{list_any};
ghost use Rattle.std.specs.Str.{bytes_eq};
ghost use Rattle.attr_tuples.specs.declared.attr.Attr.{Attr};
ghost use Rattle.attr_tuples.specs.Forms.{is_dom};
ghost use Rattle.attr_tuples.specs.Matching.{matches};
ghost use Rattle.attr_tuples.specs.Printing.{hidden};
ghost use Rattle.key_lists.specs.declared.fault.AddFault.{AddFault};
ghost use Rattle.wire_base.specs.Rules.{Rule, first_told};
ghost use Rattle.key_lists.specs.Lists.{KeyEntry, KeyList, added, deleted, first_serving, is_full, matching, next_serving, no_keys, serves};
ghost use Rattle.key_lists.specs.Listing.{each_once, fitting, list_text, offer_of, offers_text};
ghost use Rattle.key_lists.specs.Finding.{in_turn, offered_doms};
ghost use Rattle.key_lists.specs.Edits.{KeyEdit, keys_after, standing, additions, IsBounded, IsOrdered};

/// The fault that is told is that of the first rule that is broken: those before it are kept. None is told exactly
/// where all are kept.
pub fn the_first_broken_rule_is_told()
    ensures told { (rules : List (Rule AddFault)) (fault : AddFault) → first_told rules ≡ Some fault
        → (kept : List (Rule AddFault)) × (later : List (Rule AddFault))
        × (rules ≡ kept ++ (true, fault) ∷ later) × All (λ rule. rule.0 ≡ false) kept }
    ensures first { (kept later : List (Rule AddFault)) (fault : AddFault)
        → All (λ rule. rule.0 ≡ false) kept
        → first_told (kept ++ (true, fault) ∷ later) ≡ Some fault }
    ensures none { (rules : List (Rule AddFault))
        → first_told rules ≡ None ↔ All (λ rule. rule.0 ≡ false) rules }
{}

/// The keys are those of the accepted lines in order, without those that a later line dropped, each under the number of
/// its line among the lines that added keys.
pub fn keys_are_the_lines_in_order()
    ensures keys { (lines : List KeyEdit) → (keys_after lines).keys ≡ standing 0 (reverse lines) }
    ensures ever_added { (lines : List KeyEdit)
        → (keys_after lines).ever_added ≡ additions (reverse lines) }
{}

/// After any accepted lines the numbers rise in the order of the keys, so that none comes twice, and no two keys are the
/// same in public. One more key, and one more deletion, leave it so.
pub fn numbers_rise_and_keys_are_apart()
    ensures ordered { (lines : List KeyEdit) → IsOrdered (keys_after lines) }
    ensures added { (key : List Attr) (list : KeyList) → IsOrdered list
        → IsOrdered (added key list) }
    ensures deleted { (template : List Attr) (list : KeyList) → IsOrdered list
        → IsOrdered (deleted template list) }
{}

/// A list with no more keys than it may hold keeps so: where a key isn't refused, and where keys are deleted.
pub fn a_list_stays_bounded()
    ensures none { IsBounded no_keys }
    ensures added { (key : List Attr) (list : KeyList) → IsBounded list
        → (is_full key list.keys ≡ true → ⊥) → IsBounded (added key list) }
    ensures deleted { (template : List Attr) (list : KeyList) → IsBounded list
        → IsBounded (deleted template list) }
{}

/// Deleting by a template that no key matches changes nothing, and what is deleted matches no more. A key that doesn't
/// match stands afterwards where it stood: behind what is left of the keys before it, and before what is left of those
/// behind it.
pub fn deleting_drops_what_matches()
    ensures nothing { (template : List Attr) (list : KeyList) → matching template list ≡ 0
        → deleted template list ≡ list }
    ensures all { (template : List Attr) (list : KeyList)
        → matching template (deleted template list) ≡ 0 }
    ensures others { (template : List Attr) (list : KeyList) (before after : List KeyEntry)
        (key : KeyEntry) → list.keys ≡ before ++ key ∷ after → matches template key.tuple ≡ false
        → (deleted template list).keys
        ≡ (deleted template (record { keys = before; ever_added = list.ever_added })).keys
        ++ key ∷ (deleted template (record { keys = after; ever_added = list.ever_added })).keys }
{}

/// What ctl shows of keys depends on no secret: lists that are alike with their secrets hidden are shown alike.
pub fn the_list_shows_no_secret()
    ensures { (a b : KeyList)
        → map (λ (key : KeyEntry). map hidden key.tuple) a.keys
        ≡ map (λ (key : KeyEntry). map hidden key.tuple) b.keys → list_text a ≡ list_text b }
{}

/// Of some domains each is offered, and none twice.
pub fn a_domain_is_offered_once()
    ensures once { (doms : List (List ℕ))
        → AllPairs (λ first second. bytes_eq first second ≡ false) (each_once doms) }
    ensures each { (dom : List ℕ) (doms : List (List ℕ))
        → list_any (bytes_eq dom) (each_once doms) ≡ list_any (bytes_eq dom) doms }
{}

/// The words of a text of offers are the domains that were offered.
pub fn offers_are_read_as_their_domains()
    ensures { (doms : List (List ℕ)) → All (λ dom. is_dom dom ≡ true) doms
        → offered_doms (offers_text (map offer_of doms)) ≡ doms }
{}

/// The offers given are the front of all offers that fits: their text is shorter than the room, and one more offer
/// would make it as long or longer.
pub fn offers_end_where_they_no_longer_fit()
    ensures front { (room : ℕ) (words : List (List ℕ))
        → (rest : List (List ℕ)) × (words ≡ fitting room words ++ rest) }
    ensures short { (room : ℕ) (words : List (List ℕ)) → 1 ≤ room
        → length (offers_text (fitting room words)) < room }
    ensures most { (room : ℕ) (words rest : List (List ℕ)) (word : List ℕ)
        → words ≡ fitting room words ++ word ∷ rest
        → room ≤ length (offers_text (fitting room words ++ word ∷ [])) }
{}

/// What is found serves, and what is found behind a number has a greater one. The keys that are found one after the
/// other, each behind the one before, are those that serve, in the order of the list.
pub fn keys_are_found_in_order()
    ensures first { (template : List Attr) (role : List ℕ) (list : KeyList) (key : KeyEntry)
        → first_serving template role list ≡ Some key → serves template role key ≡ true }
    ensures next { (template : List Attr) (role : List ℕ) (serial : ℕ) (list : KeyList)
        (key : KeyEntry) → next_serving template role serial list ≡ Some key
        → serves template role key ≡ true }
    ensures greater { (template : List Attr) (role : List ℕ) (serial : ℕ) (list : KeyList)
        (key : KeyEntry) → IsOrdered list → next_serving template role serial list ≡ Some key
        → serial < key.serial }
    ensures in_turn { (template : List Attr) (role : List ℕ) (list : KeyList) (turns : ℕ)
        → IsOrdered list → length list.keys ≤ turns
        → in_turn template role list turns (first_serving template role list)
        ≡ filter (serves template role) list.keys }
{}
