// Keys in order, with their numbers in the order of their protocols, and in that of their protocols and domains. What
// is looked for by a protocol is looked for among the keys of this protocol alone.
ghost use Rattle.std.specs.Prelude.{◌≡◌, ◌<◌, AllPairs, find, filter, map, length, nat_lt, option_copied, option_map};
ghost use Rattle.key_ring.specs.Ranks.{IsRising, numbered};
ghost use Rattle.key_ring.specs.Wanting.{first_of, if_passes, passes};

use crate::index::{drop_matching, find_key, find_place, put_newest, span, take_out};
use crate::key::Key;
use crate::rank::{Order, Rank};
use crate::wanted::Wanted;
use attr_tuples::{Tuple, matches, value_of};
use std::alloc::Global;
use std::marker::Model;
use wire_base::{NoMemory, Text};

// Where a template leaves more than one in so many keys, going over all of them costs no more than going over these.
const FEW: usize = 8;

/// Keys with their indices.
#[derive(Drop)]
pub struct IndexedKeys {
    keys: Vec<Key>,
    protos: Vec<u64>,
    doms: Vec<u64>,
}

impl Model for IndexedKeys {
    ghost use Rattle.std.specs.Prelude.{◌-◌, vec_len, vec_capacity};
    ghost use Rattle.key_ring.specs.Indexed.{Indexed, IsIndexed, least};

    ghost Value = { Indexed };

    ghost view = { λ k. record {
      keys = k.keys.items;
      room = least (vec_capacity k.keys - vec_len k.keys) (vec_capacity k.protos - vec_len k.protos)
          (vec_capacity k.doms - vec_len k.doms);
    } };

    ghost invariant = { λ k. IsIndexed k.keys.items k.protos.items k.doms.items };
}

impl IndexedKeys {
    ghost use Rattle.std.specs.Prelude.{◌≡◌, ◌==◌, ◌+◌, ◌≤◌, ◌<◌, ◌++◌, ◌∷◌, [], All, IfSome, IsOk, OnOk, None, Some, find, filter, map, length, not, position, true, option_copied, option_map};
    ghost use Rattle.std.specs.List.{after_first, remove};
    ghost use Rattle.attr_tuples.specs.Equality.{public_equal};
    ghost use Rattle.attr_tuples.specs.Matching.{matches};
    ghost use Rattle.key_lists.specs.KeyFaults.{key_fault};
    ghost use Rattle.key_lists.specs.Lists.{serves};
    ghost use Rattle.key_ring.specs.Indexed.{is_asked_for};
    ghost use Rattle.key_ring.specs.Ranks.{IsRising};
    ghost use Rattle.key_ring.specs.Serials.{is_of};
    ghost use Rattle.key_ring.specs.Wanting.{passes};

    /// No keys. It takes no memory.
    pub fn new(alloc: Global) -> IndexedKeys
        ensures { result.keys ≡ [] }
    {
        IndexedKeys {
            keys: Vec::new(alloc),
            protos: Vec::new(alloc),
            doms: Vec::new(alloc),
        }
    }

    /// The keys in order.
    pub fn as_slice(&self) -> &[Key]
        ensures keys { result.now ≡ self.now.keys }
        ensures rising { IsRising self.now.keys }
    {
        &self.keys
    }

    /// How many keys there are.
    pub fn len(&self) -> usize
        ensures { result ≡ length self.now.keys }
    {
        self.keys.len()
    }

    /// Makes room for so many keys more.
    pub fn reserve(&mut self, more: usize) -> Result<(), NoMemory>
        ensures same { self.new.keys ≡ self.old.keys }
        ensures room { OnOk result (more ≤ self.new.room) }
        ensures kept { self.old.room ≤ self.new.room }
        ensures ample { more ≤ self.old.room → IsOk result }
    {
        self.keys.reserve(more)?;
        self.protos.reserve(more)?;
        Ok(self.doms.reserve(more)?)
    }

    /// Puts the newest key last, for which there is room.
    pub fn push(&mut self, key: Key)
        requires newest { All (λ old. old.serial < key.serial) self.old.keys }
        requires room { 1 ≤ self.old.room }
        ensures keys { self.new.keys ≡ self.old.keys ++ key ∷ [] }
        ensures room { self.old.room ≤ self.new.room + 1 }
    {
        put_newest(&self.keys, Order::Proto, &mut self.protos, &key);
        put_newest(&self.keys, Order::Dom, &mut self.doms, &key);
        if self.keys.push(key).is_err() {
            unreachable!()
        }
    }

    /// Takes the key at a place out.
    pub fn remove(&mut self, at: usize)
        requires { at < length self.old.keys }
        ensures items { self.new.keys ≡ remove self.old.keys at }
        ensures len { length self.new.keys + 1 ≡ length self.old.keys }
        ensures room { self.old.room + 1 ≤ self.new.room }
    {
        let key = &self.keys[at];
        take_out(&self.keys, Order::Proto, &mut self.protos, key);
        take_out(&self.keys, Order::Dom, &mut self.doms, key);
        self.keys.remove(at);
    }

    /// The numbers of the keys that hold `proto=proto` and, where a domain is given, `dom=dom`.
    pub fn serials_of(&self, proto: &[u8], dom: Option<&[u8]>) -> &[u64]
        ensures { result.now ≡ map (λ key. key.serial)
            (filter (λ key. is_of proto.now (option_map (λ text. text.now) dom.entry) key.tuple)
            self.now.keys) }
    {
        match dom {
            Some(dom) => self.lend_dom(proto, dom),
            None => self.lend_proto(proto),
        }
    }

    fn lend_proto(&self, proto: &[u8]) -> &[u64]
        ensures { result.now ≡ map (λ key. key.serial)
            (filter (λ key. is_of proto.now None key.tuple) self.now.keys) }
    {
        let rank = Rank::new(Some(proto), None);
        span(&self.keys, Order::Proto, &self.protos, &rank).1
    }

    fn lend_dom(&self, proto: &[u8], dom: &[u8]) -> &[u64]
        ensures { result.now ≡ map (λ key. key.serial)
            (filter (λ key. is_of proto.now (Some dom.now) key.tuple) self.now.keys) }
    {
        let rank = Rank::new(Some(proto), Some(dom));
        span(&self.keys, Order::Dom, &self.doms, &rank).1
    }

    // The numbers of the keys that a template leaves, where it gives a protocol.
    fn candidates(&self, template: &Tuple) -> Option<&[u64]>
        ensures { IfSome result (λ serials. serials.now ≡ map (λ key. key.serial)
            (filter (λ key. is_asked_for template.now key.tuple) self.now.keys)) }
    {
        match value_of(template, b"proto".as_slice()) {
            Some(proto) => {
                let dom = value_of(template, b"dom".as_slice());
                Some(self.serials_of(proto.as_slice(), dom.map(Text::as_slice)))
            }
            None => None,
        }
    }

    // The first key that is wanted, where the template leaves each key that is.
    fn find_wanted(&self, template: &Tuple, wanted: &Wanted) -> Option<&Key>
        requires { All (λ key. passes wanted.now key ≡ true
            → is_asked_for template.now key.tuple ≡ true) self.now.keys }
        ensures { option_copied result ≡ find (passes wanted.now) self.now.keys }
    {
        match self.candidates(template) {
            Some(serials) => find_among(&self.keys, serials, wanted),
            None => find_first(&self.keys, wanted),
        }
    }

    /// The first key that matches the template and either names no role or has this one.
    pub fn find(&self, template: &Tuple, role: &[u8]) -> Option<&Key>
        ensures { option_copied result ≡ find (serves template.now role.now) self.now.keys }
    {
        self.find_wanted(template, &Wanted::Serving(template, role))
    }

    /// The first such key behind the key of a number.
    pub fn next_after(&self, template: &Tuple, role: &[u8], serial: u64) -> Option<&Key>
        ensures { option_copied result ≡ find (serves template.now role.now)
            (after_first (λ key. key.serial == serial) self.now.keys) }
    {
        let Some(at) = find_place(&self.keys, serial) else {
            return None;
        };
        let wanted = Wanted::Serving(template, role);
        match self.candidates(template) {
            Some(serials) => find_among(&self.keys, later(serials, serial), &wanted),
            None => find_first(self.keys.split_at(at + 1).1, &wanted),
        }
    }

    /// The place of the key that is the same as a tuple in public, which is a key. It is looked for among the keys of
    /// the same protocol and domain.
    pub fn find_equal(&self, tuple: &Tuple) -> Option<usize>
        requires { key_fault tuple.now ≡ None }
        ensures { result ≡ position (λ old. public_equal tuple.now old.tuple) self.now.keys }
    {
        let rank = Rank::of(Order::Dom, tuple);
        let numbers = span(&self.keys, Order::Dom, &self.doms, &rank).1;
        match find_among(&self.keys, numbers, &Wanted::Equal(tuple)) {
            Some(key) => find_place(&self.keys, key.serial()),
            None => None,
        }
    }

    // The place of the first key that matches a template.
    fn find_matching(&self, template: &Tuple) -> Option<usize>
        ensures { result ≡ position (λ key. matches template.now key.tuple) self.now.keys }
    {
        match self.find_wanted(template, &Wanted::Matching(template)) {
            Some(key) => find_place(&self.keys, key.serial()),
            None => None,
        }
    }

    /// Drops all keys that match, and tells how many. It takes no memory.
    pub fn drop_matching(&mut self, template: &Tuple) -> usize
        ensures dropped { self.new.keys
            ≡ filter (λ key. not (matches template.now key.tuple)) self.old.keys }
        ensures count { result
            ≡ length (filter (λ key. matches template.now key.tuple) self.old.keys) }
        ensures room { self.old.room ≤ self.new.room }
    {
        let before = self.len();
        self.drop_all(template);
        before - self.len()
    }

    fn drop_all(&mut self, template: &Tuple)
        ensures dropped { self.new.keys
            ≡ filter (λ key. not (matches template.now key.tuple)) self.old.keys }
        ensures room { self.old.room ≤ self.new.room }
    {
        if self.leaves_few(template) {
            self.drop_one_by_one(template);
        } else {
            self.drop_over_all(template);
        }
    }

    // Whether a template leaves few of the keys.
    fn leaves_few(&self, template: &Tuple) -> bool {
        match self.candidates(template) {
            Some(serials) => serials.len() < self.keys.len() / FEW,
            None => false,
        }
    }

    fn drop_one_by_one(&mut self, template: &Tuple)
        ensures dropped { self.new.keys
            ≡ filter (λ key. not (matches template.now key.tuple)) self.old.keys }
        ensures room { self.old.room ≤ self.new.room }
    {
        while let Some(at) = self.find_matching(template) {
            self.remove(at);
        }
    }

    fn drop_over_all(&mut self, template: &Tuple)
        ensures dropped { self.new.keys
            ≡ filter (λ key. not (matches template.now key.tuple)) self.old.keys }
        ensures room { self.old.room ≤ self.new.room }
    {
        drop_matching(&self.keys, Order::Proto, &mut self.protos, template);
        drop_matching(&self.keys, Order::Dom, &mut self.doms, template);
        self.keys.retain(|key| !matches(template, key.tuple()));
    }
}

// The numbers behind one, of numbers that rise.
fn later(serials: &[u64], serial: u64) -> &[u64]
    requires { AllPairs (λ first second. first < second) serials.now }
    ensures { result.now ≡ filter (λ other. nat_lt serial other) serials.now }
{
    let at = serials.partition_point(|other| *other <= serial);
    serials.split_at(at).1
}

// The first of some keys that is wanted.
fn find_first<'a>(keys: &'a [Key], wanted: &Wanted) -> Option<&'a Key>
    ensures { option_copied result ≡ find (passes wanted.now) keys.now }
{
    keys.iter().find(|key| wanted.check(key))
}

// The first of the keys of some numbers that is wanted.
fn find_among<'a>(keys: &'a [Key], serials: &[u64], wanted: &Wanted) -> Option<&'a Key>
    requires { IsRising keys.now }
    ensures { option_copied result ≡ first_of wanted.now keys.now serials.now }
{
    for serial in serials {
        if let Some(key) = check_numbered(keys, *serial, wanted) {
            return Some(key);
        }
    }
    None
}

// The key of a number, if it is wanted.
fn check_numbered<'a>(keys: &'a [Key], serial: u64, wanted: &Wanted) -> Option<&'a Key>
    requires { IsRising keys.now }
    ensures { option_copied result ≡ if_passes wanted.now (numbered keys.now serial) }
{
    match find_key(keys, serial) {
        Some(key) if wanted.check(key) => Some(key),
        Some(_) => None,
        None => None,
    }
}
