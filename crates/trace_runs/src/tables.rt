// Whether a reading spells keys and passwords of the authentication server's users, and of conversations.
ghost use Rattle.std.specs.Prelude.{◌≡◌, ◌↔◌, ◌<◌, Option, Some, length, true, map, IfOk, [], option_map, unwrap_or};
ghost use Rattle.auth_tables.specs.Keys.{key_of};
ghost use Rattle.clean_runs.specs.Clean.{ReadsSpoken, ReadsTables};
ghost use Rattle.clean_runs.specs.KeyNames.{before_first, is_this, same_key, same_password, with_number};
ghost use Rattle.clean_runs.specs.Runs.{role_by};
ghost use Rattle.symbolic_runs.specs.Answers.{atoms_of};
ghost use Rattle.trace_runs.specs.Tables.{held_by, reads_held, reads_key, reads_password, reads_user, reads_users, tables_of};
ghost use Rattle.wire_histories.specs.Legal.{Setting, Spoken};

use crate::words::reads;
use auth_tables::{AsKey, KeyTable};
use sealing::Key7;
use std::alloc::Global;
use symbolic_runs::{Reading, Term};
use wire_base::{Bytes, NoMemory, Text};
use wire_histories::{Protocol, Role};

/// Whether a reading spells the keys and the passwords of all users in the authentication server's tables, in the order in
/// which it had them, as those of their key names.
pub fn reads_tables(
    alloc: Global,
    reading: &Reading,
    tables: &[&KeyTable],
) -> Result<bool, NoMemory>
    ensures { IfOk result (λ so. (z : Setting)
        → map (λ t. t.keys) z.tables ≡ map (λ t. t.now) tables.now
        → (so ≡ true) ↔ ReadsTables (atoms_of reading.now) z) }
{
    for number in 0..tables.len() {
        if !reads_users(alloc, reading, tables, number)? {
            return Ok(false);
        }
    }
    Ok(true)
}

// The same of the users in the tables of a number.
fn reads_users(
    alloc: Global,
    reading: &Reading,
    tables: &[&KeyTable],
    number: usize,
) -> Result<bool, NoMemory>
    requires { number < length tables.now }
    ensures { IfOk result (λ so. so ≡ reads_users (atoms_of reading.now)
        (tables_of (map (λ t. t.now) tables.now)) number) }
{
    let table = tables[number];
    for place in 0..usize::MAX {
        let Some(user) = table.user_at(place) else {
            return Ok(true);
        };
        if !reads_user(alloc, reading, tables, number, user)? {
            return Ok(false);
        }
    }
    // No memory holds so many users.
    Err(NoMemory)
}

// The same of one user; so too where he has no key in these tables.
fn reads_user(
    alloc: Global,
    reading: &Reading,
    tables: &[&KeyTable],
    number: usize,
    user: &Text,
) -> Result<bool, NoMemory>
    requires { number < length tables.now }
    ensures { IfOk result (λ so. so ≡ reads_user (atoms_of reading.now)
        (tables_of (map (λ t. t.now) tables.now)) number user.now) }
{
    let Some(key) = tables[number].find(user.as_slice()) else {
        return Ok(true);
    };
    let first = count_before(&tables[..number], user.as_slice(), key);
    let name = key_name(alloc, user, first)?;
    reads_key(reading, name, key)
}

// How many tables stand before the first that hold a user with this key: all of them, where none do.
pub(crate) fn count_before(tables: &[&KeyTable], user: &[u8], key: &AsKey) -> usize
    ensures { result ≡ before_first (tables_of (map (λ t. t.now) tables.now)) user.now key.now }
{
    let mut before = 0;
    for table in tables {
        if holds(table, user, key) {
            return before;
        }
        before += 1;
    }
    before
}

fn holds(table: &KeyTable, user: &[u8], key: &AsKey) -> bool
    ensures { result ≡ is_this key.now (key_of user.now table.now) }
{
    match table.find(user) {
        Some(other) => same_key(other, key),
        None => false,
    }
}

fn same_key(one: &AsKey, other: &AsKey) -> bool
    ensures { result ≡ same_key one.now other.now }
{
    one.des().0 == other.des().0 && same_password(one.password(), other.password())
}

fn same_password(one: Option<&Text>, other: Option<&Text>) -> bool
    ensures { result ≡ same_password (option_map (λ t. t.now) one.entry)
        (option_map (λ t. t.now) other.entry) }
{
    match (one, other) {
        (Some(one), Some(other)) => one.as_slice() == other.as_slice(),
        (None, None) => true,
        (Some(_), None) | (None, Some(_)) => false,
    }
}

// The key name of a user who has his key since the tables of this number.
pub(crate) fn key_name(alloc: Global, user: &Text, first: usize) -> Result<Text, NoMemory>
    ensures { IfOk result (λ name. name ≡ with_number user.now first) }
{
    if first == 0 {
        return user.copy();
    }
    let mut buffer = itoa::Buffer::new();
    let mut name = Bytes::from_slice(alloc, user.as_slice())?;
    name.push(b' ')?;
    name.append(buffer.format(first as u64).as_bytes())?;
    let Some(name) = Text::from_slice(alloc, name.as_slice())? else {
        unreachable!();
    };
    Ok(name)
}

fn reads_key(reading: &Reading, name: Text, key: &AsKey) -> Result<bool, NoMemory>
    ensures { IfOk result (λ so. so ≡ reads_key (atoms_of reading.now) name (Some key.now)) }
{
    let long_key = Term::LKey(name.copy()?);
    if !reads(reading, &long_key, &key.des().0) {
        return Ok(false);
    }
    Ok(reads_password(reading, name, key.password()))
}

fn reads_password(reading: &Reading, name: Text, password: Option<&Text>) -> bool
    ensures { result ≡ reads_password (atoms_of reading.now) name
        (option_map (λ t. t.now) password.entry) }
{
    match password {
        Some(password) => reads(reading, &Term::Pw(name), password.as_slice()),
        None => true,
    }
}

/// Whether a reading spells the key that a conversation keeps, with its password where it has one, as that of its
/// holder: of a mail client the password, which is empty where there is none. So too where it keeps no key.
pub fn reads_held(
    reading: &Reading,
    protocol: Protocol,
    role: Role,
    holder: Text,
    key: Option<Key7>,
    password: Option<&Text>,
) -> bool
    ensures { (spoken : Option Spoken)
        → held_by spoken ≡ option_map (λ k. (k.0, option_map (λ t. t.now) password.entry)) key
        → (result ≡ true)
        ↔ ReadsSpoken (atoms_of reading.now) (role_by protocol role) holder spoken }
{
    match key {
        Some(key) => reads_found(reading, protocol, role, holder, &key, password),
        None => true,
    }
}

pub(crate) fn reads_found(
    reading: &Reading,
    protocol: Protocol,
    role: Role,
    holder: Text,
    key: &Key7,
    password: Option<&Text>,
) -> bool
    ensures { result ≡ reads_held (atoms_of reading.now) (role_by protocol role) holder
        (Some (key.now.0, option_map (λ t. t.now) password.entry)) }
{
    match (protocol, role) {
        (Protocol::Apop | Protocol::Cram, Role::Client | Role::Speakfor) => {
            reads(reading, &Term::Pw(holder), text_or_none(password))
        }
        (Protocol::Apop | Protocol::Cram, Role::Server)
        | (Protocol::P9sk1 | Protocol::P9any, Role::Client | Role::Server | Role::Speakfor) => {
            reads(reading, &Term::LKey(holder), &key.0)
        }
    }
}

// The bytes of a text, and none where there is no text.
fn text_or_none<'t>(text: Option<&'t Text>) -> &'t [u8]
    ensures { result.now ≡ unwrap_or (option_map (λ t. t.now) text.entry) [] }
{
    match text {
        Some(text) => text.as_slice(),
        None => &[],
    }
}
