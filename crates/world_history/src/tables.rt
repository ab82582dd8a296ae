// The tables of a script's server.
ghost use Rattle.std.specs.Prelude.{◌≡◌, ℕ, ◌+◌, ◌<◌, ◌^◌, List, [], None, length, IfOk};
ghost use Rattle.attr_tuples.specs.Cutting.{text_lines};
ghost use Rattle.auth_tables.specs.Keys.{bad_key_line, key_of};
ghost use Rattle.auth_tables.specs.Speaks.{bad_speak_line, names_of};
ghost use Rattle.world_scripts.specs.Scripts.{script_lines};
ghost use Rattle.world_history.specs.Servers.{AreToldBy, GivesKeys, GivesSpeaks, IsToldBy, is_next};

use crate::domains::{ToldDomain, find_domain};
use crate::told::gather;
use auth_server::AuthCore;
use auth_tables::{KeyTable, SpeaksTable, TableFault, parse_keys, parse_speaks};
use std::alloc::Global;
use wire_base::NoMemory;
use world_scripts::ScriptLines;

/// The most bytes of a table; more are want of memory.
const MOST_BYTES: usize = 0xffff_fffe;

/// The server of a script, and which line of each of its tables, counted from 1, is the first bad one. A table that has one
/// is empty.
#[derive(Drop)]
pub struct Tables {
    pub core: AuthCore,
    pub bad_key: Option<u32>,
    pub bad_speak: Option<u32>,
}

// Both tables, and the first bad line of each.
#[derive(Drop)]
pub(crate) struct ReadTables {
    pub(crate) keys: KeyTable,
    pub(crate) speaks: SpeaksTable,
    bad_key: Option<u32>,
    bad_speak: Option<u32>,
}

impl Tables {
    ghost use Rattle.std.specs.Prelude.{◌≡◌, OnErr, OnOk};
    ghost use Rattle.world_history.specs.Servers.{IsToldAgain, is_next};

    /// Other tables take their place, of which these lines tell. Where memory runs out all is as before.
    pub fn read_again(&mut self, alloc: Global, lines: &ScriptLines<'_>) -> Result<(), NoMemory>
        ensures told { OnOk result (IsToldAgain lines.now self.old self.new) }
        ensures same { OnErr result (self.new ≡ self.old) }
    {
        let read = read_lines(alloc, lines)?;
        self.core.reload(read.keys, read.speaks);
        self.bad_key = read.bad_key;
        self.bad_speak = read.bad_speak;
        Ok(())
    }

    /// Whether the key's line behind so many is the first bad one.
    pub fn refuses_key(&self, before: u32) -> bool
        ensures { result ≡ is_next self.now.bad_key before }
    {
        is_next(self.bad_key, before)
    }

    /// Whether the line of who speaks for whom behind so many is the first bad one.
    pub fn refuses_speak(&self, before: u32) -> bool
        ensures { result ≡ is_next self.now.bad_speak before }
    {
        is_next(self.bad_speak, before)
    }
}

fn is_next(bad: Option<u32>, before: u32) -> bool
    ensures { result ≡ is_next bad before }
{
    match bad {
        Some(bad) => u64::from(bad) == u64::from(before) + 1,
        None => false,
    }
}

// A table that has no line.
fn no_keys(alloc: Global) -> Result<KeyTable, NoMemory>
    ensures { IfOk result (λ table. (user : List ℕ) → key_of user table ≡ None) }
{
    match parse_keys(alloc, b"".as_slice()) {
        Ok(keys) => Ok(keys),
        Err(_) => Err(NoMemory),
    }
}

fn no_speaks(alloc: Global) -> Result<SpeaksTable, NoMemory>
    ensures { IfOk result (λ table. (host : List ℕ) → names_of host table ≡ []) }
{
    match parse_speaks(alloc, b"".as_slice()) {
        Ok(speaks) => Ok(speaks),
        Err(_) => Err(NoMemory),
    }
}

// The keys of a text's lines, and the number of the first bad one.
fn read_keys(alloc: Global, text: &[u8]) -> Result<(KeyTable, Option<u32>), NoMemory>
    ensures few { IfOk result (λ _. length text.now + 1 < 2 ^ 32) }
    ensures bad { IfOk result (λ read. read.1 ≡ bad_key_line text.now) }
    ensures keys { IfOk result (λ read. GivesKeys read.1 (text_lines text.now) read.0) }
{
    if text.len() > MOST_BYTES {
        return Err(NoMemory);
    }
    match parse_keys(alloc, text) {
        Ok(keys) => Ok((keys, None)),
        Err(TableFault::Line { line }) => Ok((no_keys(alloc)?, Some(line))),
        Err(TableFault::NoMemory) => Err(NoMemory),
    }
}

fn read_speaks(alloc: Global, text: &[u8]) -> Result<(SpeaksTable, Option<u32>), NoMemory>
    ensures few { IfOk result (λ _. length text.now + 1 < 2 ^ 32) }
    ensures bad { IfOk result (λ read. read.1 ≡ bad_speak_line text.now) }
    ensures speaks { IfOk result (λ read. GivesSpeaks read.1 (text_lines text.now) read.0) }
{
    if text.len() > MOST_BYTES {
        return Err(NoMemory);
    }
    match parse_speaks(alloc, text) {
        Ok(speaks) => Ok((speaks, None)),
        Err(TableFault::Line { line }) => Ok((no_speaks(alloc)?, Some(line))),
        Err(TableFault::NoMemory) => Err(NoMemory),
    }
}

/// The tables that lines tell of.
pub(crate) fn read_lines(alloc: Global, lines: &ScriptLines<'_>) -> Result<ReadTables, NoMemory>
    ensures { IfOk result (λ read. AreToldBy lines.now read.bad_key read.bad_speak
        read.keys read.speaks) }
{
    let gathering = gather(alloc, lines.rest())?;
    let (keys, bad_key) = read_keys(alloc, gathering.keys.as_slice())?;
    let (speaks, bad_speak) = read_speaks(alloc, gathering.speaks.as_slice())?;
    Ok(ReadTables {
        keys,
        speaks,
        bad_key,
        bad_speak,
    })
}

/// The server of a script: its domain as the lines before the first request to it tell it, and its first tables as those
/// before that and before the first reading again.
pub fn read_tables(alloc: Global, script: &[u8]) -> Result<Tables, NoMemory>
    ensures { IfOk result (λ tables. IsToldBy (script_lines script.now) tables) }
{
    let lines = ScriptLines::new(script);
    let ToldDomain { dom } = find_domain(alloc, lines.rest())?;
    let read = read_lines(alloc, &lines)?;
    Ok(Tables {
        core: AuthCore::new(dom, read.keys, read.speaks),
        bad_key: read.bad_key,
        bad_speak: read.bad_speak,
    })
}
