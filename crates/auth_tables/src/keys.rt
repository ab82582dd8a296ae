// The table of users' keys.
ghost use Rattle.std.specs.Prelude.{◌≡◌, ◌+◌, ◌<◌, ◌^◌, ◌||◌, ◌++◌, ℕ, List, None, Some, true, codes, length, take, option_map, IfErr, IfOk, IfSome, OnOk, OnErr};
ghost use Rattle.attr_tuples.specs.Attributes.{is_given};
ghost use Rattle.attr_tuples.specs.Forms.{is_hex_key};
ghost use Rattle.attr_tuples.specs.Giving.{gives, is_any};
ghost use Rattle.hex.specs.Hex.{encode_lower};
ghost use Rattle.auth_tables.specs.Printing.{IsKeyLine, IsTable, key_line};
ghost use Rattle.auth_tables.specs.Keys.{bad_key_line, gives_only, is_user_key, key_given, key_in, key_of, key_said, table_keys};
ghost use Rattle.auth_tables.specs.declared.lines.TableFault.TheVariants.{Line};

use crate::lines::{Table, TableFault, read_table, read_tuple};
use attr_tuples::{Attr, Tuple, Value, gives_any, gives_user, is_named, put_value, value_of};
use key_lists::{choose_key, decode_key};
use sealing::{Key7, pass_to_key};
use std::alloc::Global;
use std::collections::BTreeMap;
use std::marker::Model;
use wire_base::{Bytes, NoMemory, Text};

/// What the server knows of a user. It has no Debug, which would print a secret.
#[derive(Drop)]
pub struct AsKey {
    des: Key7,
    password: Option<Text>,
}

impl Model for AsKey {
    ghost use Rattle.std.specs.Prelude.{option_map};
    ghost use Rattle.auth_tables.specs.Keys.{UserKey};

    ghost Value = { UserKey };

    ghost view = { λ k. record { des = k.des.0; password = k.password } };
}

impl AsKey {
    ghost use Rattle.std.specs.Prelude.{◌≡◌, ◌++◌, true, option_map, length, take, IfOk, OnOk, OnErr};
    ghost use Rattle.hex.specs.Hex.{IsBytes};
    ghost use Rattle.auth_tables.specs.Keys.{is_user_key, key_given};
    ghost use Rattle.auth_tables.specs.Printing.{is_of_password, key_of_password, is_new_password};
    ghost use Rattle.auth_tables.specs.Steps.{digits_text, password_text};

    // The key of a line that gives one.
    fn new(line: &Tuple) -> Result<AsKey, NoMemory>
        requires { is_user_key line.now ≡ true }
        ensures value { IfOk result (λ key. key ≡ (key_given line.now).1) }
        ensures sized { IfOk result (λ key. (length key.des ≡ 7) × IsBytes key.des) }
    {
        let digits = value_of(line, b"!hex".as_slice());
        let password = value_of(line, b"!password".as_slice());
        let des = choose_key(digits, password);
        let password = copy_text(password)?;
        Ok(AsKey::of(des.0, password))
    }

    // A DES key and a password.
    fn of(des: [u8; 7], password: Option<Text>) -> AsKey
        ensures value { result ≡ record { des = des; password = password } }
        ensures seven { length des ≡ 7 }
        ensures bytes { IsBytes des }
    {
        AsKey {
            des: Key7(des),
            password,
        }
    }

    // The key of a user whose password this is.
    fn of_password(alloc: Global, password: &[u8]) -> Result<AsKey, NoMemory>
        requires { is_new_password password.now ≡ true }
        ensures value { IfOk result (λ key. key ≡ key_of_password password.now) }
        ensures sized { IfOk result (λ key. (length key.des ≡ 7) × IsBytes key.des) }
    {
        let Some(text) = Text::from_slice(alloc, password)? else {
            unreachable!();
        };
        let des = pass_to_key(password);
        Ok(AsKey::of(des.0, Some(text)))
    }

    // Whether the password stands for the DES key.
    fn is_of_password(&self) -> bool
        ensures { result ≡ is_of_password self.now.des self.now.password }
    {
        match &self.password {
            Some(password) => self.des == pass_to_key(password.as_slice()),
            None => false,
        }
    }

    // Appends the digits of the key, where the password doesn't stand for it. What is appended before memory runs out stays,
    // here and below.
    #[tactic(auto, using(wire_base::proofs::FrontLemmas::kept_then))]
    fn append_digits(&self, out: &mut Bytes) -> Result<(), NoMemory>
        ensures ok { OnOk result (out.new ≡ out.old ++ digits_text self.now) }
        ensures err { OnErr result (take (length out.old) out.new ≡ out.old) }
    {
        if self.is_of_password() {
            return Ok(());
        }
        out.append(b" !hex=")?;
        put_value(&digits_of(&self.des), out)
    }

    // Appends the password, where there is one.
    #[tactic(auto, using(wire_base::proofs::FrontLemmas::kept_then, crate::proofs::PrintLemmas::password_put))]
    fn append_password(&self, out: &mut Bytes) -> Result<(), NoMemory>
        ensures ok { OnOk result (out.new ≡ out.old ++ password_text self.now.password) }
        ensures err { OnErr result (take (length out.old) out.new ≡ out.old) }
    {
        let Some(password) = self.password() else {
            return Ok(());
        };
        out.append(b" !password=")?;
        put_value(password.as_slice(), out)
    }

    /// The DES key. It was made when the table was read.
    pub fn des(&self) -> Key7
        ensures { result.0 ≡ self.now.des }
    {
        self.des
    }

    /// The password, where there is one.
    pub fn password(&self) -> Option<&Text>
        ensures { option_map (λ password. password.now) result ≡ self.now.password }
    {
        self.password.as_ref()
    }
}

// A copy of a text, where there is one.
fn copy_text(text: Option<&Text>) -> Result<Option<Text>, NoMemory>
    ensures { IfOk result (λ copy. copy ≡ option_map (λ text. text.now) text.entry) }
{
    match text {
        Some(text) => Ok(Some(text.copy()?)),
        None => Ok(None),
    }
}

// The digits of a key.
fn digits_of(key: &Key7) -> [u8; 14]
    ensures { result ≡ encode_lower key.now.0 }
{
    let mut digits = [0; 14];
    hex::encode_to_slice(key.0, &mut digits).unwrap();
    digits
}

// A user and what the server knows of him.
#[derive(Drop)]
struct UserLine {
    user: Text,
    key: AsKey,
}

/// The keys of users, in the order of their lines. It has no Debug, which would print secrets.
#[derive(Drop)]
pub struct KeyTable {
    alloc: Global,
    lines: Vec<UserLine>,
    // The place of each user's line.
    places: BTreeMap<Vec<u8>, usize>,
}

impl Model for KeyTable {
    ghost use Rattle.std.specs.Prelude.{List, map};
    ghost use Rattle.auth_tables.specs.Keys.{KeyLine};
    ghost use Rattle.auth_tables.specs.Steps.{FindPlaces};

    ghost Value = { List KeyLine };

    ghost view = { λ t. map (λ line. (line.user, line.key)) t.lines.items };

    ghost invariant = { λ t. FindPlaces (map (λ line. (line.user, line.key)) t.lines.items)
        (map (λ entry. (entry.0.items, entry.1)) t.places.entries) };
}

impl KeyTable {
    ghost use Rattle.std.specs.Prelude.{◌≡◌, [], ◌∷◌, ◌++◌, None, OnOk, OnErr, is_some, option_copied, option_map};
    ghost use Rattle.auth_tables.specs.Keys.{key_of, user_at};
    ghost use Rattle.auth_tables.specs.Steps.{place_of};

    // No keys.
    fn new(alloc: Global) -> KeyTable
        ensures { result ≡ [] }
    {
        KeyTable {
            alloc,
            lines: Vec::new(alloc),
            places: BTreeMap::new(alloc),
        }
    }

    /// The key of a user, if there is one. It takes no memory, and looks at few of the keys.
    pub fn find(&self, user: &[u8]) -> Option<&AsKey>
        ensures { option_copied result ≡ key_of user.now self.now }
    {
        let Some(place) = self.place_of(user) else {
            return None;
        };
        Some(&self.lines[place].key)
    }

    /// The user of the entry at a place, counted from 0 in the order of the file's lines; None exactly where no entry has
    /// that place. It takes no memory.
    pub fn user_at(&self, place: usize) -> Option<&Text>
        ensures { option_map (λ user. user.now) result ≡ user_at place self.now }
    {
        match self.lines.get(place) {
            Some(line) => Some(&line.user),
            None => None,
        }
    }

    // The place of a user's line, if there is one.
    fn place_of(&self, user: &[u8]) -> Option<usize>
        ensures { result ≡ place_of user.now self.now }
    {
        self.places.get(user).copied()
    }

    fn has_user(&self, user: &[u8]) -> bool
        ensures { result ≡ is_some (key_of user.now self.now) }
    {
        self.find(user).is_some()
    }

    // Puts the line of a user who has none last. Memory is taken first, so that an error leaves the table as it was.
    fn put(&mut self, line: UserLine) -> Result<(), NoMemory>
        requires { key_of line.user self.old ≡ None }
        ensures ok { OnOk result (self.new ≡ self.old ++ (line.user, line.key) ∷ []) }
        ensures err { OnErr result (self.new ≡ self.old) }
    {
        let user = Vec::from_slice(self.alloc, line.user.as_slice())?;
        self.lines.reserve(1)?;
        self.places.insert(user, self.lines.len())?;
        if self.lines.push(line).is_err() {
            unreachable!();
        }
        Ok(())
    }
}

// Appends the line of a user's key.
#[tactic(auto, using(wire_base::proofs::FrontLemmas::kept_then, crate::proofs::PrintLemmas::line_is))]
fn append_line(user: &[u8], key: &AsKey, out: &mut Bytes) -> Result<(), NoMemory>
    ensures ok { OnOk result (out.new ≡ out.old ++ key_line (user.now, key.now)) }
    ensures err { OnErr result (take (length out.old) out.new ≡ out.old) }
{
    out.append(b"user=")?;
    put_value(user, out)?;
    key.append_digits(out)?;
    key.append_password(out)?;
    out.push(b'\n')
}

impl KeyTable {
    ghost use Rattle.std.specs.Prelude.{◌≡◌, ◌++◌, length, take, true, is_some, IfOk, OnOk, OnErr};
    ghost use Rattle.std.specs.Map.{set_value};
    ghost use Rattle.std.specs.Str.{bytes_eq};
    ghost use Rattle.auth_tables.specs.Keys.{key_of};
    ghost use Rattle.auth_tables.specs.Printing.{IsTable, is_new_password, table_text, with_password};

    /// Gives a user a password, and the key that it stands for, in place of what the table had of him; whether he is there.
    /// The password is text of 8 to 27 bytes from the blank on.
    pub fn set_password(&mut self, user: &[u8], password: &[u8]) -> Result<bool, NoMemory>
        requires { is_new_password password.now ≡ true }
        ensures found { IfOk result (λ found. found ≡ is_some (key_of user.now self.old)) }
        ensures set { OnOk result (self.new ≡ with_password user.now password.now self.old) }
        ensures table { OnOk result (IsTable self.old → IsTable self.new) }
        ensures err { OnErr result (self.new ≡ self.old) }
    {
        let key = AsKey::of_password(self.alloc, password)?;
        Ok(self.replace(user, key))
    }

    // Puts a key in the place of a user's, whether he is there.
    fn replace(&mut self, user: &[u8], key: AsKey) -> bool
        ensures found { result ≡ is_some (key_of user.now self.old) }
        ensures set { self.new ≡ set_value (bytes_eq user.now) self.old key }
    {
        let Some(place) = self.place_of(user) else {
            return false;
        };
        self.lines[place].key = key;
        true
    }

    /// Appends the table as text, a line for each user, in their order: his name, his password where there is one, and the
    /// digits of his DES key where the password doesn't stand for it.
    pub fn print_keys(&self, out: &mut Bytes) -> Result<(), NoMemory>
        ensures ok { OnOk result (out.new ≡ out.old ++ table_text self.now) }
        ensures err { OnErr result (out.new ≡ out.old) }
    {
        let before = out.len();
        let done = self.append_lines(out);
        out.undo_on_err(before, done)
    }

    // Appends the lines. What is appended before memory runs out stays.
    #[tactic(auto, using(wire_base::proofs::FrontLemmas::kept_then))]
    fn append_lines(&self, out: &mut Bytes) -> Result<(), NoMemory>
        ensures ok { OnOk result (out.new ≡ out.old ++ table_text self.now) }
        ensures err { OnErr result (take (length out.old) out.new ≡ out.old) }
    {
        for line in &self.lines {
            append_line(line.user.as_slice(), &line.key, out)?;
        }
        Ok(())
    }
}

impl Table for KeyTable {
    ghost use Rattle.auth_tables.specs.Keys.{fits_keys};
    ghost use Rattle.auth_tables.specs.Steps.{Keeps};

    ghost fits = { fits_keys };

    ghost tells = { Keeps };

    fn take(&mut self, alloc: Global, line: &[u8]) -> Result<bool, NoMemory> {
        let Some(line) = read_key(alloc, line)? else {
            return Ok(false);
        };
        if self.has_user(line.user.as_slice()) {
            return Ok(false);
        }
        self.put(line)?;
        Ok(true)
    }
}

// The user and the key that a line gives, if it gives one.
#[tactic(auto, unfolding(crate::specs::Keys::key_in))]
fn read_key(alloc: Global, line: &[u8]) -> Result<Option<UserLine>, NoMemory>
    ensures said { IfOk result (λ found. option_map (λ line. (line.user, line.key)) found
        ≡ key_in line.now) }
    ensures good { IfOk result (λ found. IfSome found (λ line. IsKeyLine (line.user, line.key))) }
{
    let tuple = read_tuple(alloc, line)?;
    make_key(tuple)
}

// The user and the key of a tuple, if there is one and it is a user's key.
fn make_key(tuple: Option<Tuple>) -> Result<Option<UserLine>, NoMemory>
    ensures said { IfOk result (λ found. option_map (λ line. (line.user, line.key)) found
        ≡ key_said tuple) }
    ensures good { IfOk result (λ found. IfSome found (λ line. IsKeyLine (line.user, line.key))) }
{
    let Some(line) = tuple else {
        return Ok(None);
    };
    if !is_user_key(line.attrs()) {
        return Ok(None);
    }
    let user = copy_user(&line)?;
    let key = AsKey::new(&line)?;
    Ok(Some(UserLine { user, key }))
}

// The user of a line that gives a key.
fn copy_user(line: &Tuple) -> Result<Text, NoMemory>
    requires { is_user_key line.now ≡ true }
    ensures { IfOk result (λ user. user ≡ (key_given line.now).0) }
{
    let Some(user) = value_of(line, b"user".as_slice()) else {
        unreachable!();
    };
    user.copy()
}

// Whether a tuple is a user's key.
fn is_user_key(attrs: &[Attr]) -> bool
    ensures { result ≡ is_user_key attrs.now }
{
    gives_user(attrs) && gives_digits_only(attrs) && gives_secret(attrs)
}

fn gives_secret(attrs: &[Attr]) -> bool
    ensures { result ≡ (gives (codes "!password") is_any attrs.now
        || gives (codes "!hex") is_any attrs.now) }
{
    gives_any(attrs, b"!password".as_slice()) || gives_any(attrs, b"!hex".as_slice())
}

// Whether each `!hex` is 14 hexadecimal digits.
fn gives_digits_only(attrs: &[Attr]) -> bool
    ensures { result ≡ gives_only (codes "!hex") is_hex_key attrs.now }
{
    let name = b"!hex".as_slice();
    attrs
        .iter()
        .all(|attr| !is_named(attr, name) || is_digits(&attr.value))
}

fn is_digits(value: &Value) -> bool
    ensures { result ≡ is_given is_hex_key value.now }
{
    match value {
        Value::Is(text) => decode_key(text.as_slice()).is_some(),
        Value::Ask | Value::Bare => false,
    }
}

/// Reads a table of keys. Lines that are empty or begin with `#` count for nothing; each other one is a tuple with one
/// `user`, 1 to 27 bytes above the blank, and a `!password` or a `!hex` of 14 hexadecimal digits, which is the DES key
/// where it is there. The first bad line is told: one that isn't so, repeats a user, or is the 4097th that counts.
pub fn parse_keys(alloc: Global, file: &[u8]) -> Result<KeyTable, TableFault>
    requires { length file.now + 1 < 2 ^ 32 }
    ensures keys { IfOk result (λ table. (user : List ℕ)
        → key_of user table ≡ key_of user (table_keys file.now)) }
    ensures order { IfOk result (λ table. table ≡ table_keys file.now) }
    ensures table { IfOk result IsTable }
    ensures good { OnOk result (bad_key_line file.now ≡ None) }
    ensures bad { IfErr result (λ fault. (line : ℕ) → fault ≡ Line line
        → bad_key_line file.now ≡ Some line) }
{
    read_table(alloc, file, KeyTable::new(alloc))
}
