// The ring: keys in the order in which they were added.
ghost use Rattle.std.specs.Prelude.{◌≡◌, ◌+◌, ◌<◌, ◌≤◌, ◌^◌, ◌++◌, None, Ok, IfOk, IfSome, IsOk, MatchOption, not, true, false, filter, find, take, length, Err, IfErr, OnErr, OnOk, AllPairs, option_copied};
ghost use Rattle.std.specs.List.{flat_map};
ghost use Rattle.attr_tuples.specs.Equality.{public_equal};
ghost use Rattle.key_lists.specs.KeyFaults.{key_fault};
ghost use Rattle.key_lists.specs.Lists.{KeyEntry, is_full, add_fault, added, delete_fault, deleted, matching};
ghost use Rattle.key_lists.specs.Edits.{IsOrdered};
ghost use Rattle.key_ring.specs.Parts.{IsRing, list_of};
ghost use Rattle.key_lists.specs.Listing.{key_text};

use crate::batch::{Batch, carry_all};
use crate::check::{check_tells_secret, find_fault};
use crate::indexed_keys::IndexedKeys;
use crate::key::Key;
use crate::offer::append_offers;
use attr_tuples::{Tuple, print_public};
use key_lists::{AddFault, DeleteFault, EditList};
use std::alloc::Global;
use std::marker::Model;
use wire_base::{Bytes, NoMemory};

const MOST_KEYS: usize = 4096;

/// Keys in order, and how many were ever added. The numbers of the keys rise in their order, and no two keys are the
/// same in public.
#[derive(Drop)]
pub struct KeyRing {
    keys: IndexedKeys,
    ever_added: u64,
}

impl Model for KeyRing {
    ghost use Rattle.key_lists.specs.Lists.{KeyList};
    ghost use Rattle.key_ring.specs.Parts.{IsRing};

    ghost Value = { KeyList };

    ghost view = { λ r. record { keys = r.keys.keys; ever_added = r.ever_added } };

    ghost invariant = { λ r. IsRing (record { keys = r.keys.keys; ever_added = r.ever_added }) };
}

impl KeyRing {
    ghost use Rattle.std.specs.Prelude.{◌≡◌, ◌+◌, ◌<◌, ◌≤◌, ◌^◌, ◌++◌, IsOk, Some, None, Ok, Err, length, IfErr, IfOk, IfSome, OnErr, OnOk, MatchOption, option_copied, option_map};
    ghost use Rattle.key_lists.specs.Lists.{no_keys, add_fault, added, delete_fault, deleted, matching, first_serving, most_keys, next_serving, serves};
    ghost use Rattle.key_lists.specs.Listing.{list_text, offers, offers_text};
    ghost use Rattle.key_lists.specs.Edits.{IsOrdered, additions};
    ghost use Rattle.key_lists.specs.Batches.{after_edits, edits_fault};
    ghost use Rattle.key_ring.specs.Counts.{edits_taken};
    ghost use Rattle.key_ring.specs.Serials.{serials_of};

    /// No keys. It takes no memory.
    pub fn new(alloc: Global) -> KeyRing
        ensures { result ≡ no_keys }
    {
        KeyRing {
            keys: IndexedKeys::new(alloc),
            ever_added: 0,
        }
    }

    /// How many keys there are.
    pub fn len(&self) -> usize
        ensures value { result ≡ length self.now.keys }
        ensures ordered { IsOrdered self.now }
        ensures few { length self.now.keys ≤ most_keys }
    {
        self.keys.len()
    }

    /// Adds a key, and answers its number. The key that is the same in public is dropped, and the new one stands last.
    ///
    /// It is refused by the first rule that it breaks; where none is broken only want of memory is answered. After any
    /// refusal the ring is as before.
    pub fn add(&mut self, tuple: Tuple) -> Result<u64, AddFault>
        requires { self.old.ever_added + 1 < 2 ^ 64 }
        ensures refused { IfSome (add_fault tuple self.old) (λ fault. result ≡ Err fault) }
        ensures taken { add_fault tuple self.old ≡ None
            → IfErr result (λ fault. fault ≡ AddFault.NoMemory) }
        ensures added { OnOk result (self.new ≡ added tuple self.old) }
        ensures serial { IfOk result (λ serial. serial ≡ self.old.ever_added + 1) }
        ensures unchanged { OnErr result (self.new ≡ self.old) }
    {
        let serial = add_key(&mut self.keys, self.ever_added, tuple)?;
        self.ever_added = serial;
        Ok(serial)
    }

    /// Deletes all keys that match a template, and answers how many. It is refused where a secret attribute of the
    /// template carries a value, and then where no key matches; the ring is as before then. It takes no memory.
    pub fn delete(&mut self, template: &Tuple) -> Result<usize, DeleteFault>
        ensures answer { MatchOption (delete_fault template.now self.old) (result
            ≡ Ok (matching template.now self.old)) (λ fault. result ≡ Err fault) }
        ensures deleted { OnOk result (self.new ≡ deleted template.now self.old) }
        ensures unchanged { OnErr result (self.new ≡ self.old) }
    {
        delete_keys(&mut self.keys, self.ever_added, template)
    }

    /// Carries edits out, the oldest first, up to the first that is refused, whose fault is answered; those before it
    /// stand, and so many they are. All memory is taken before the first is carried out, and none is taken for edits that delete.
    pub fn edit_all(&mut self, edits: EditList) -> Result<Batch, NoMemory>
        requires { self.old.ever_added + length edits < 2 ^ 64 }
        ensures fault { IfOk result (λ batch. batch.refused ≡ edits_fault edits self.old) }
        ensures count { IfOk result (λ batch. batch.count ≡ edits_taken edits self.old) }
        ensures edited { OnOk result (self.new ≡ after_edits edits self.old) }
        ensures few { self.new.ever_added ≤ self.old.ever_added + length edits }
        ensures takes_none { additions edits ≡ 0 → IsOk result }
        ensures unchanged { OnErr result (self.new ≡ self.old) }
    {
        self.keys.reserve(edits.additions())?;
        let edits = edits.into_vec();
        Ok(carry_all(&mut self.keys, &mut self.ever_added, edits))
    }

    /// The first key, in the order of the ring, that matches the template and either names no role or has this one. It
    /// takes no memory.
    pub fn find(&self, template: &Tuple, role: &[u8]) -> Option<&Key>
        ensures value { option_copied result ≡ first_serving template.now role.now self.now }
        ensures serves { IfSome (option_copied result) (λ key.
            serves template.now role.now key ≡ true) }
    {
        self.keys.find(template, role)
    }

    /// The first such key behind the key of a number; None too where the ring has no key of that number. It takes no
    /// memory.
    pub fn next_after(&self, template: &Tuple, role: &[u8], serial: u64) -> Option<&Key>
        ensures value { option_copied result
            ≡ next_serving template.now role.now serial self.now }
        ensures serves { IfSome (option_copied result) (λ key.
            serves template.now role.now key ≡ true) }
        ensures greater { IfSome (option_copied result) (λ key. serial < key.serial) }
    {
        self.keys.next_after(template, role, serial)
    }

    /// The numbers of the keys that hold `proto=proto` and, where a domain is given, `dom=dom`, in the order of the ring.
    /// It takes no memory.
    #[tactic(auto, unfolding(crate::specs::Serials::serials_of))]
    pub fn serials_of(&self, proto: &[u8], dom: Option<&[u8]>) -> &[u64]
        ensures { result.now ≡ serials_of proto.now (option_map (λ dom. dom.now) dom.entry) self.now }
    {
        self.keys.serials_of(proto, dom)
    }

    /// Appends a line for each key: `key `, its public text, and a newline. After want of memory `out` is as before.
    #[tactic(auto, unfolding(key_lists::specs::Listing::list_text))]
    pub fn list_text(&self, out: &mut Bytes) -> Result<(), NoMemory>
        ensures ok { OnOk result (out.new ≡ out.old ++ list_text self.now) }
        ensures err { OnErr result (out.new ≡ out.old) }
    {
        let before = out.len();
        let done = append_keys(self.keys.as_slice(), out);
        out.undo_on_err(before, done)
    }

    /// Appends an offer `p9sk1@dom` for each domain of the keys that serve the template and the role, in the order of the
    /// ring and with one blank between, and answers how many. The list ends before the first offer that would make it
    /// longer than 1023 bytes. After want of memory `out` is as before.
    #[tactic(auto, unfolding(key_lists::specs::Listing::offers))]
    pub fn offers(&self, template: &Tuple, role: &[u8], out: &mut Bytes) -> Result<usize, NoMemory>
        ensures ok { OnOk result (out.new
            ≡ out.old ++ offers_text (offers template.now role.now self.now)) }
        ensures count { IfOk result
            (λ count. count ≡ length (offers template.now role.now self.now)) }
        ensures err { OnErr result (out.new ≡ out.old) }
    {
        let before = out.len();
        let done = append_offers(self.keys.as_slice(), template, role, out);
        out.undo_on_err(before, done)
    }
}

/// Adds a key under the next number, so many having been added before. Where there is room for one more key, it takes no
/// memory.
pub fn add_key(keys: &mut IndexedKeys, ever_added: u64, tuple: Tuple) -> Result<u64, AddFault>
    requires ring { IsRing (list_of keys.old.keys ever_added) }
    requires count { ever_added + 1 < 2 ^ 64 }
    ensures refused { IfSome (add_fault tuple (list_of keys.old.keys ever_added))
        (λ fault. result ≡ Err fault) }
    ensures taken { add_fault tuple (list_of keys.old.keys ever_added) ≡ None
        → IfErr result (λ fault. fault ≡ AddFault.NoMemory) }
    ensures ample { add_fault tuple (list_of keys.old.keys ever_added) ≡ None
        → 1 ≤ keys.old.room → IsOk result }
    ensures added { OnOk result (list_of keys.new.keys (ever_added + 1)
        ≡ added tuple (list_of keys.old.keys ever_added)) }
    ensures serial { IfOk result (λ serial. serial ≡ ever_added + 1) }
    ensures unchanged { OnErr result (keys.new.keys ≡ keys.old.keys) }
    ensures ring { OnOk result (IsRing (list_of keys.new.keys (ever_added + 1))) }
    ensures room { keys.old.room ≤ keys.new.room + 1 }
{
    if let Some(fault) = find_fault(&tuple) {
        return Err(fault);
    }
    make_room(keys, &tuple)?;
    let serial = ever_added + 1;
    keys.push(Key::new(tuple, serial));
    Ok(serial)
}

// Drops the key that is the same in public, or else makes room for one more.
fn make_room(keys: &mut IndexedKeys, tuple: &Tuple) -> Result<(), AddFault>
    requires apart { AllPairs (λ (first second : KeyEntry). public_equal first.tuple second.tuple
        ≡ false) keys.old.keys }
    requires valid { key_fault tuple.now ≡ None }
    ensures full { is_full tuple.now keys.old.keys ≡ true → result ≡ Err AddFault.Full }
    ensures taken { is_full tuple.now keys.old.keys ≡ false
        → IfErr result (λ fault. fault ≡ AddFault.NoMemory) }
    ensures dropped { OnOk result (keys.new.keys
        ≡ filter (λ old. not (public_equal tuple.now old.tuple)) keys.old.keys) }
    ensures room { OnOk result (1 ≤ keys.new.room) }
    ensures unchanged { OnErr result (keys.new.keys ≡ keys.old.keys) }
    ensures ample { 1 ≤ keys.old.room → IfErr result (λ fault. fault ≡ AddFault.Full) }
    ensures kept { keys.old.room ≤ keys.new.room }
{
    match keys.find_equal(tuple) {
        Some(at) => keys.remove(at),
        None if keys.len() >= MOST_KEYS => return Err(AddFault::Full),
        None => keys.reserve(1)?,
    }
    Ok(())
}

/// Deletes the keys that match a template, so many having been added before, and answers how many.
pub fn delete_keys(
    keys: &mut IndexedKeys,
    ever_added: u64,
    template: &Tuple,
) -> Result<usize, DeleteFault>
    requires { IsRing (list_of keys.old.keys ever_added) }
    ensures ring { IsRing (list_of keys.new.keys ever_added) }
    ensures answer { MatchOption (delete_fault template.now (list_of keys.old.keys ever_added))
        (result ≡ Ok (matching template.now (list_of keys.old.keys ever_added)))
        (λ fault. result ≡ Err fault) }
    ensures deleted { OnOk result (list_of keys.new.keys ever_added
        ≡ deleted template.now (list_of keys.old.keys ever_added)) }
    ensures unchanged { OnErr result (keys.new.keys ≡ keys.old.keys) }
    ensures room { keys.old.room ≤ keys.new.room }
{
    if check_tells_secret(template.attrs()) {
        return Err(DeleteFault::SecretValue);
    }
    let count = keys.drop_matching(template);
    if count == 0 {
        return Err(DeleteFault::NoneMatched);
    }
    Ok(count)
}

// What is appended before memory runs out stays, in this function and the next.
#[tactic(auto, using(wire_base::proofs::FrontLemmas::kept_then))]
fn append_keys(keys: &[Key], out: &mut Bytes) -> Result<(), NoMemory>
    ensures ok { OnOk result (out.new ≡ out.old ++ flat_map (λ key. key_text key.tuple) keys.now) }
    ensures err { OnErr result (take (length out.old) out.new ≡ out.old) }
{
    for key in keys {
        append_key(key.tuple(), out)?;
    }
    Ok(())
}

#[tactic(auto, using(wire_base::proofs::FrontLemmas::kept_then), unfolding(key_lists::specs::Listing::key_text))]
fn append_key(tuple: &Tuple, out: &mut Bytes) -> Result<(), NoMemory>
    ensures ok { OnOk result (out.new ≡ out.old ++ key_text tuple.now) }
    ensures err { OnErr result (take (length out.old) out.new ≡ out.old) }
{
    out.append(b"key ".as_slice())?;
    print_public(tuple, out)?;
    out.push(b'\n')
}
