// What a program notes of the setting of a record.
ghost use Rattle.std.specs.Prelude.{option_map};

use auth_tables::{KeyTable, SpeaksTable};
use sealing::Key7;
use std::alloc::Global;
use std::collections::BTreeMap;
use std::marker::Model;
use wire_base::{NoMemory, Text};

// A key that a conversation keeps, with its secret. It has no Debug, which would print both.
#[derive(Drop)]
struct NotedKey {
    des: Key7,
    password: Option<Text>,
}

impl Model for NotedKey {
    ghost use Rattle.auth_tables.specs.Keys.{UserKey};

    ghost Value = { UserKey };

    ghost view = { λ k. record { des = k.des.0; password = k.password } };
}

impl NotedKey {
    ghost use Rattle.std.specs.Prelude.{◌≡◌, option_map};

    fn des(&self) -> Key7
        ensures { result.0 ≡ self.now.des }
    {
        self.des
    }

    fn password(&self) -> Option<&Text>
        ensures { option_map (λ password. password.now) result ≡ self.now.password }
    {
        self.password.as_ref()
    }
}

// The tables of the authentication server between two readings.
#[derive(Drop)]
struct NotedTables {
    keys: KeyTable,
    speaks: SpeaksTable,
}

/// The setting of a record as far as a program asks for it: the key that each conversation keeps, with its secret, and the
/// authentication server's domain and all the tables that it had. It has no Debug, which would print secrets.
#[derive(Drop)]
pub struct Setting {
    alloc: Global,
    keys: BTreeMap<Vec<u8>, NotedKey>,
    dom: Text,
    tables: Vec<NotedTables>,
}

impl Model for Setting {
    ghost use Rattle.std.specs.Prelude.{map};
    ghost use Rattle.wire_histories.specs.Noted.{Noted};

    ghost Value = { Noted };

    ghost view = { λ s. record {
      keys = map (λ entry. (entry.0.items, entry.1)) s.keys.entries;
      dom = s.dom;
      tables = map (λ t. record { keys = t.keys; speaks = t.speaks }) s.tables.items;
    } };
}

impl Setting {
    ghost use Rattle.std.specs.Prelude.{◌≡◌, ℕ, List, [], ◌∷◌, ◌++◌, None, Some, OnOk, OnErr, option_copied, option_map, if◌then◌else◌};
    ghost use Rattle.std.specs.Str.{bytes_eq};
    ghost use Rattle.auth_tables.specs.Keys.{key_of};
    ghost use Rattle.wire_histories.specs.Noted.{noted_des, noted_secret, noted_tables};

    /// The setting of a record without steps, before the authentication server of this domain has tables.
    pub fn new(alloc: Global, dom: Text) -> Setting
        ensures { result ≡ record { keys = []; dom = dom; tables = [] } }
    {
        Setting {
            alloc,
            keys: BTreeMap::new(alloc),
            dom,
            tables: Vec::new(alloc),
        }
    }

    /// A conversation keeps a key, which takes the place of one that it kept before.
    pub fn note_key(
        &mut self,
        conv: &[u8],
        des: Key7,
        password: Option<Text>,
    ) -> Result<(), NoMemory>
        ensures noted { OnOk result ((other : List ℕ) → key_of other self.new.keys
            ≡ (if bytes_eq conv.now other then Some (record { des = des.0; password = password })
            else key_of other self.old.keys)) }
        ensures rest { OnOk result ((self.new.dom ≡ self.old.dom)
            × (self.new.tables ≡ self.old.tables)) }
        ensures err { OnErr result (self.new ≡ self.old) }
    {
        let conv = Vec::from_slice(self.alloc, conv)?;
        self.keys.insert(conv, NotedKey { des, password })?;
        Ok(())
    }

    /// A conversation keeps no key, whether it kept one before or not.
    pub fn forget_key(&mut self, conv: &[u8])
        ensures forgot { (other : List ℕ) → key_of other self.new.keys
            ≡ (if bytes_eq conv.now other then None else key_of other self.old.keys) }
        ensures rest { (self.new.dom ≡ self.old.dom) × (self.new.tables ≡ self.old.tables) }
    {
        self.keys.remove(conv);
    }

    /// The authentication server has other tables from now on.
    pub fn note_tables(&mut self, keys: KeyTable, speaks: SpeaksTable) -> Result<(), NoMemory>
        ensures noted { OnOk result (self.new ≡ record {
          keys = self.old.keys;
          dom = self.old.dom;
          tables = self.old.tables ++ record { keys = keys; speaks = speaks } ∷ [];
        }) }
        ensures err { OnErr result (self.new ≡ self.old) }
    {
        self.tables.push(NotedTables { keys, speaks })?;
        Ok(())
    }

    fn find(&self, conv: &[u8]) -> Option<&NotedKey>
        ensures { option_copied result ≡ key_of conv.now self.now.keys }
    {
        self.keys.get(conv)
    }

    /// The DES key of the key that a conversation keeps; None where it keeps none, or isn't there.
    pub fn key_of(&self, conv: &[u8]) -> Option<Key7>
        ensures { option_map (λ des. des.0) result ≡ noted_des self.now conv.now }
    {
        match self.find(conv) {
            Some(key) => Some(key.des()),
            None => None,
        }
    }

    /// The secret of the key that a conversation keeps, which of a client of the mail protocols is its password; None
    /// where the key has none, or the conversation keeps no key, or isn't there.
    pub fn password_of(&self, conv: &[u8]) -> Option<&Text>
        ensures { option_map (λ password. password.now) result ≡ noted_secret self.now conv.now }
    {
        match self.find(conv) {
            Some(key) => key.password(),
            None => None,
        }
    }

    /// The authentication server's tables behind so many readings again, from 0 on; None exactly where it had no more.
    pub fn tables(&self, number: u32) -> Option<(&KeyTable, &SpeaksTable)>
        ensures { option_map (λ t. record { keys = t.0.now; speaks = t.1.now }) result
            ≡ noted_tables self.now number }
    {
        match self.tables.get(number as usize) {
            Some(tables) => Some((&tables.keys, &tables.speaks)),
            None => None,
        }
    }
}
