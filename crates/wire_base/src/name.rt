// Names of a limited length, kept without memory of their own, and the record of who authenticated whom.
ghost use Rattle.std.specs.Prelude.{◌≡◌, ◌↔◌, ◌<◌, length, IsSome, IfSome};
ghost use Rattle.wire_base.specs.Names.{IsName};

use crate::text::check_text;
use std::marker::Model;

/// A name that fits a field of `N` bytes: text of fewer bytes, so that a NUL stands behind it (authsrv(6) of the
/// Plan 9 manual).
#[derive(Clone, Copy, Debug, PartialEq, Eq)]
pub struct Name<const N: usize> {
    field: [u8; N],
    len: usize,
}

impl<const N: usize> Model for Name<N> {
    ghost use Rattle.std.specs.Prelude.{◌≡◌, ◌<◌, ℕ, List, take, length};
    ghost use Rattle.std.specs.Coded.{coded_list, coded_ℕ};
    ghost use Rattle.wire_base.specs.Names.{IsName, name_field};

    ghost Value = { List ℕ };

    ghost coded = { coded_list coded_ℕ };

    ghost view = { λ n. take n.len n.field };

    ghost invariant = { λ n. IsName N (take n.len n.field)
        × (n.len ≡ length (take n.len n.field))
        × (n.field ≡ name_field N (take n.len n.field)) };

    ghost inverse = { λ name. record { field = name_field N name; len = length name } };
}

impl<const N: usize> Name<N> {
    /// The name that the input is. None exactly where it is longer than `N - 1`, isn't UTF-8 or holds a NUL.
    pub fn from_text(text: &[u8]) -> Option<Name<N>>
        ensures exactly { IsSome result ↔ IsName N text.now }
        ensures value { IfSome result (λ name. name ≡ text.now) }
    {
        if text.len() >= N || !check_text(text) {
            return None;
        }
        let mut field = [0; N];
        field[..text.len()].copy_from_slice(text);
        Some(Name {
            field,
            len: text.len(),
        })
    }

    pub fn text(&self) -> &[u8]
        ensures value { result.now ≡ self.now }
        ensures name { IsName N result.now }
    {
        &self.field[..self.len]
    }
}

/// Who a client and a server agree to be, and the secret that they share (auth(2) of the Plan 9 manual). It has
/// no Debug, which would print the secret.
#[derive(Clone, Copy, PartialEq, Eq)]
pub struct AuthInfo {
    /// The user on the client's machine.
    pub cuid: Name<28>,
    /// The user as the server knows it.
    pub suid: Name<28>,
    pub secret: [u8; 8],
}
