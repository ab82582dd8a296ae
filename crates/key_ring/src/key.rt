// A key: its attributes, its number, and its DES key.

use crate::des::make_des;
use attr_tuples::{Tuple, value_of};
use key_lists::Key7;
use std::marker::Model;
use wire_base::{NoMemory, Text};

/// A key of a ring: a tuple that is a key, and the number under which it was added.
#[derive(Drop)]
pub struct Key {
    tuple: Tuple,
    serial: u64,
    des: Key7,
}

impl Model for Key {
    ghost use Rattle.std.specs.Prelude.{◌≡◌, None};
    ghost use Rattle.key_lists.specs.KeyFaults.{key_fault};
    ghost use Rattle.key_lists.specs.Lists.{KeyEntry};
    ghost use Rattle.key_ring.specs.DesKeys.{des_key};

    ghost Value = { KeyEntry };

    ghost view = { λ k. record { tuple = k.tuple; serial = k.serial } };

    ghost invariant = { λ k. (key_fault k.tuple ≡ None) × (k.des.0 ≡ des_key k.tuple) };
}

impl Key {
    ghost use Rattle.std.specs.Prelude.{◌≡◌, Some, None, codes, true, false, IfOk, IfSome, IsSome, option_map};
    ghost use Rattle.attr_tuples.specs.Matching.{value_of};
    ghost use Rattle.attr_tuples.specs.Forms.{is_user, is_dom};
    ghost use Rattle.key_lists.specs.KeyFaults.{key_fault, is_p9sk1};
    ghost use Rattle.key_ring.specs.DesKeys.{des_key};

    // The key of a tuple that is one. Its DES key is made here, once for all.
    pub(crate) fn new(tuple: Tuple, serial: u64) -> Key
        requires { key_fault tuple ≡ None }
        ensures { result ≡ record { tuple = tuple; serial = serial } }
    {
        let des = make_des(&tuple);
        Key { tuple, serial, des }
    }

    /// The attributes, in the order of the line that added the key.
    pub fn tuple(&self) -> &Tuple
        ensures same { result.now ≡ self.now.tuple }
        ensures valid { key_fault result.now ≡ None }
    {
        &self.tuple
    }

    /// The number of the key among all keys that were ever added to its ring, from 1 on.
    pub fn serial(&self) -> u64
        ensures { result ≡ self.now.serial }
    {
        self.serial
    }

    /// The user: 1 to 27 bytes, each above the blank.
    pub fn user(&self) -> &Text
        ensures value { Some result.now ≡ value_of (codes "user") self.now.tuple }
        ensures valid { is_user result.now ≡ true }
    {
        match value_of(&self.tuple, b"user".as_slice()) {
            Some(user) => user,
            None => unreachable!(),
        }
    }

    /// The domain, if the key names one: 1 to 47 bytes, each above the blank and none an `@`. A key of p9sk1 names one.
    pub fn dom(&self) -> Option<&Text>
        ensures value { option_map (λ dom. dom.now) result ≡ value_of (codes "dom") self.now.tuple }
        ensures valid { IfSome result (λ dom. is_dom dom.now ≡ true) }
        ensures named { is_p9sk1 self.now.tuple ≡ true → IsSome result }
    {
        value_of(&self.tuple, b"dom".as_slice())
    }

    /// The DES key: of a key of p9sk1 that of its first `!hex`, where it has one, and else that of its password. It was
    /// made when the key was added.
    pub fn des(&self) -> Key7
        ensures { result.0 ≡ des_key self.now.tuple }
    {
        self.des
    }

    /// The first password that is given, if one is. A key of apop or cram has one.
    pub fn password(&self) -> Option<&Text>
        ensures value { option_map (λ password. password.now) result
            ≡ value_of (codes "!password") self.now.tuple }
        ensures given { is_p9sk1 self.now.tuple ≡ false → IsSome result }
    {
        value_of(&self.tuple, b"!password".as_slice())
    }

    /// An equal key.
    pub fn copy(&self) -> Result<Key, NoMemory>
        ensures { IfOk result (λ key. key ≡ self.now) }
    {
        let tuple = self.tuple.copy()?;
        Ok(Key {
            tuple,
            serial: self.serial,
            des: self.des,
        })
    }
}
