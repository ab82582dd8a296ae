// Where a key stands in an index: by its protocol, and behind that by its domain.
ghost use Rattle.std.specs.Prelude.{◌≡◌, option_map};
ghost use Rattle.attr_tuples.specs.Matching.{value_of};
ghost use Rattle.key_ring.specs.Ranks.{rank_cmp, rank_of, text_cmp};

use attr_tuples::{Tuple, value_of};
use std::cmp::Ordering;
use std::marker::Model;
use wire_base::Text;

/// By what an index is in order.
#[derive(Clone, Copy)]
pub enum Order {
    /// By the protocols alone.
    Proto,
    /// By the protocols, and the keys of one protocol by their domains.
    Dom,
}

/// A protocol and a domain, where they are given.
#[derive(Drop)]
pub struct Rank<'a> {
    proto: Option<&'a [u8]>,
    dom: Option<&'a [u8]>,
}

impl<'a> Model for Rank<'a> {
    ghost use Rattle.std.specs.Prelude.{option_map};
    ghost use Rattle.key_ring.specs.Ranks.{RankOf};

    ghost Value = { RankOf };

    ghost view = { λ r. record {
      proto = option_map (λ text. text.now) r.proto;
      dom = option_map (λ text. text.now) r.dom;
    } };
}

impl<'a> Rank<'a> {
    ghost use Rattle.std.specs.Prelude.{◌≡◌, option_map};
    ghost use Rattle.key_ring.specs.Ranks.{rank_cmp, rank_of};

    pub fn new(proto: Option<&'a [u8]>, dom: Option<&'a [u8]>) -> Rank<'a>
        ensures { result ≡ record {
          proto = option_map (λ text. text.now) proto.entry;
          dom = option_map (λ text. text.now) dom.entry;
        } }
    {
        Rank { proto, dom }
    }

    /// The rank of a tuple in an index.
    pub fn of(order: Order, tuple: &'a Tuple) -> Rank<'a>
        ensures { result ≡ rank_of order tuple.now }
    {
        let dom = match order {
            Order::Proto => None,
            Order::Dom => find_text(tuple, b"dom".as_slice()),
        };
        Rank {
            proto: find_text(tuple, b"proto".as_slice()),
            dom,
        }
    }

    /// Where it stands beside another.
    pub fn compare(&self, other: &Rank) -> Ordering
        ensures { result ≡ rank_cmp self.now other.now }
    {
        match compare_texts(self.proto, other.proto) {
            Ordering::Less => Ordering::Less,
            Ordering::Equal => compare_texts(self.dom, other.dom),
            Ordering::Greater => Ordering::Greater,
        }
    }
}

fn find_text<'a>(tuple: &'a Tuple, name: &[u8]) -> Option<&'a [u8]>
    ensures { option_map (λ text. text.now) result ≡ value_of name.now tuple.now }
{
    match value_of(tuple, name) {
        Some(text) => Some(text.as_slice()),
        None => None,
    }
}

fn compare_texts(a: Option<&[u8]>, b: Option<&[u8]>) -> Ordering
    ensures { result ≡ text_cmp (option_map (λ text. text.now) a.entry)
        (option_map (λ text. text.now) b.entry) }
{
    match (a, b) {
        (None, None) => Ordering::Equal,
        (None, Some(_)) => Ordering::Less,
        (Some(_), None) => Ordering::Greater,
        (Some(a), Some(b)) => a.cmp(&b),
    }
}
