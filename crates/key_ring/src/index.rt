// An index of a list of keys: the numbers of all of them, in the order of their ranks, and those of one rank in the
// order of the keys. It takes no memory but for its own growth.
ghost use Rattle.std.specs.Prelude.{◌≡◌, ◌+◌, ◌<◌, ◌≤◌, ◌++◌, ◌∷◌, [], ◌==◌, ℕ, Some, None, All, true, false, not, map, filter, get_or, length, position, option_copied, vec_len, vec_capacity};
ghost use Rattle.std.specs.Ordering.{is_lt, is_le};
ghost use Rattle.std.specs.List.Sorted.{IsPartitionPoint, IsPartitionedBy};
ghost use Rattle.attr_tuples.specs.Matching.{matches};
ghost use Rattle.key_ring.specs.Ranks.{IsIndex, IsRising, has_rank, matched, numbered, stood};

use crate::key::Key;
use crate::rank::{Order, Rank};
use attr_tuples::{Tuple, matches};
use std::cmp::Ordering;

/// The place of the key of a number, in a list whose numbers rise.
pub fn find_place(keys: &[Key], serial: u64) -> Option<usize>
    requires { IsRising keys.now }
    ensures { result ≡ position (λ key. key.serial == serial) keys.now }
{
    let at = keys.partition_point(|key| key.serial() < serial);
    if at == keys.len() {
        return None;
    }
    if keys[at].serial() != serial {
        return None;
    }
    Some(at)
}

/// The key of a number.
pub fn find_key(keys: &[Key], serial: u64) -> Option<&Key>
    requires { IsRising keys.now }
    ensures { option_copied result ≡ numbered keys.now serial }
{
    match find_place(keys, serial) {
        Some(at) => Some(&keys[at]),
        None => None,
    }
}

// Where the key of a number stands beside a rank.
fn stand(keys: &[Key], order: Order, serial: u64, rank: &Rank) -> Ordering
    requires { IsRising keys.now }
    ensures { result ≡ stood order rank.now (numbered keys.now serial) }
{
    match find_key(keys, serial) {
        Some(key) => Rank::of(order, key.tuple()).compare(rank),
        None => Ordering::Greater,
    }
}

// The place behind the numbers of lower ranks.
fn find_start(keys: &[Key], order: Order, serials: &[u64], rank: &Rank) -> usize
    requires rising { IsRising keys.now }
    ensures bound { result ≤ length serials.now }
    ensures parted { IsPartitionedBy (λ serial. is_lt (stood order rank.now (numbered keys.now serial)))
        serials.now
        → IsPartitionPoint
        (λ serial. is_lt (stood order rank.now (numbered keys.now serial)) ≡ true)
        (λ serial. is_lt (stood order rank.now (numbered keys.now serial)) ≡ false)
        serials.now result }
{
    serials.partition_point(|serial| stand(keys, order, *serial, rank).is_lt())
}

// The place behind the numbers of lower ranks and of this one.
fn find_end(keys: &[Key], order: Order, serials: &[u64], rank: &Rank) -> usize
    requires rising { IsRising keys.now }
    ensures bound { result ≤ length serials.now }
    ensures parted { IsPartitionedBy (λ serial. is_le (stood order rank.now (numbered keys.now serial)))
        serials.now
        → IsPartitionPoint
        (λ serial. is_le (stood order rank.now (numbered keys.now serial)) ≡ true)
        (λ serial. is_le (stood order rank.now (numbered keys.now serial)) ≡ false)
        serials.now result }
{
    serials.partition_point(|serial| stand(keys, order, *serial, rank).is_le())
}

/// Where the numbers of the keys of a rank begin, and these numbers.
pub fn span<'a>(keys: &[Key], order: Order, serials: &'a [u64], rank: &Rank) -> (usize, &'a [u64])
    requires rising { IsRising keys.now }
    requires index { IsIndex order keys.now serials.now }
    ensures numbers { result.1.now
        ≡ map (λ key. key.serial) (filter (has_rank order rank.now) keys.now) }
    ensures bound { result.0 + length result.1.now ≤ length serials.now }
    ensures place { (k d : ℕ) → k < length result.1.now
        → get_or serials.now (result.0 + k) d ≡ get_or result.1.now k d }
{
    let end = find_end(keys, order, serials, rank);
    let start = find_start(keys, order, serials, rank);
    let numbers = serials.split_at(end).0.split_at(start).1;
    (start, numbers)
}

/// Puts the number of the newest key into an index that has room for it: behind those of its rank.
pub fn put_newest(keys: &[Key], order: Order, serials: &mut Vec<u64>, key: &Key)
    requires rising { IsRising keys.now }
    requires index { IsIndex order keys.now serials.old.items }
    requires newest { All (λ old. old.serial < key.now.serial) keys.now }
    requires room { vec_len serials.old < vec_capacity serials.old }
    ensures index { IsIndex order (keys.now ++ key.now ∷ []) serials.new.items }
    ensures len { vec_len serials.new ≡ vec_len serials.old + 1 }
    ensures capacity { vec_capacity serials.old ≤ vec_capacity serials.new }
{
    let rank = Rank::of(order, key.tuple());
    let at = find_end(keys, order, serials, &rank);
    if serials.insert(at, key.serial()).is_err() {
        unreachable!()
    }
}

/// Takes the number of a key out of an index.
pub fn take_out(keys: &[Key], order: Order, serials: &mut Vec<u64>, key: &Key)
    requires rising { IsRising keys.now }
    requires index { IsIndex order keys.now serials.old.items }
    requires known { numbered keys.now key.now.serial ≡ Some key.now }
    ensures index { IsIndex order
        (filter (λ old. not (old.serial == key.now.serial)) keys.now) serials.new.items }
    ensures len { vec_len serials.new + 1 ≡ vec_len serials.old }
    ensures capacity { vec_capacity serials.new ≡ vec_capacity serials.old }
{
    let rank = Rank::of(order, key.tuple());
    let (start, numbers) = span(keys, order, serials, &rank);
    let Ok(at) = numbers.binary_search(&key.serial()) else {
        unreachable!()
    };
    serials.remove(start + at);
}

/// Drops the numbers of the keys that match a template.
pub fn drop_matching(keys: &[Key], order: Order, serials: &mut Vec<u64>, template: &Tuple)
    requires rising { IsRising keys.now }
    requires index { IsIndex order keys.now serials.old.items }
    ensures index { IsIndex order
        (filter (λ key. not (matches template.now key.tuple)) keys.now) serials.new.items }
    ensures len { vec_len serials.new ≤ vec_len serials.old }
    ensures capacity { vec_capacity serials.new ≡ vec_capacity serials.old }
{
    serials.retain(|serial| !check_matches(keys, *serial, template));
}

// Whether the key of a number matches a template.
fn check_matches(keys: &[Key], serial: u64, template: &Tuple) -> bool
    requires { IsRising keys.now }
    ensures { result ≡ matched template.now (numbered keys.now serial) }
{
    match find_key(keys, serial) {
        Some(key) => matches(template, key.tuple()),
        None => false,
    }
}
