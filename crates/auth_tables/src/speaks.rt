// The table of who speaks for whom.
ghost use Rattle.std.specs.Prelude.{◌≡◌, ◌+◌, ◌<◌, ◌^◌, ◌∷◌, ℕ, List, None, Some, codes, length, option_map, IfErr, IfOk, OnOk};
ghost use Rattle.std.specs.List.{list_any};
ghost use Rattle.std.specs.Str.{bytes_eq};
ghost use Rattle.attr_tuples.specs.Attributes.{is_given};
ghost use Rattle.attr_tuples.specs.Giving.{gives};
ghost use Rattle.attr_tuples.specs.Matching.{texts_of};
ghost use Rattle.auth_tables.specs.Speaks.{bad_speak_line, names_in, names_of, speak_in, speak_said, table_speaks};
ghost use Rattle.auth_tables.specs.declared.lines.TableFault.TheVariants.{Line};

use crate::lines::{Table, TableFault, read_table, read_tuple};
use attr_tuples::{Attr, Tuple, Value, gives, is_named, value_of};
use std::alloc::Global;
use std::collections::BTreeMap;
use std::marker::Model;
use wire_base::NoMemory;

// The lines of one host.
#[derive(Drop)]
struct HostLines {
    lines: Vec<Tuple>,
}

impl Model for HostLines {
    ghost use Rattle.std.specs.Prelude.{ℕ, List, codes};
    ghost use Rattle.std.specs.List.{flat_map};
    ghost use Rattle.attr_tuples.specs.Matching.{texts_of};

    ghost Value = { List (List ℕ) };

    ghost view = { λ h. flat_map (texts_of (codes "uid")) h.lines.items };
}

impl HostLines {
    ghost use Rattle.std.specs.Prelude.{◌≡◌, ◌++◌, [], ◌&&◌, not, codes, OnOk};
    ghost use Rattle.attr_tuples.specs.Matching.{texts_of};
    ghost use Rattle.auth_tables.specs.Speaks.{denies, grants, has};

    // No lines.
    fn new(alloc: Global) -> HostLines
        ensures { result ≡ [] }
    {
        HostLines {
            lines: Vec::new(alloc),
        }
    }

    // Puts a line last.
    fn push(&mut self, line: Tuple) -> Result<(), NoMemory>
        ensures { OnOk result (self.new ≡ self.old ++ texts_of (codes "uid") line) }
    {
        self.lines.push(line)?;
        Ok(())
    }

    // Whether a name is given.
    fn has(&self, name: &[u8]) -> bool
        ensures { result ≡ has self.now name.now }
    {
        gives_name(&self.lines, name)
    }

    // Whether a user is denied.
    fn denies(&self, user: &[u8]) -> bool
        ensures { result ≡ denies self.now user.now }
    {
        gives_denial(&self.lines, user)
    }

    // Whether a user is granted, and not denied.
    fn grants(&self, user: &[u8]) -> bool
        ensures { result ≡ (grants self.now user.now && not (denies self.now user.now)) }
    {
        (self.has(user) || self.has(b"*".as_slice())) && !self.denies(user)
    }
}

// Whether a line gives a name.
fn gives_name(lines: &[Tuple], name: &[u8]) -> bool
    ensures { result ≡ list_any (gives (codes "uid") (λ given. bytes_eq given name.now)) lines.now }
{
    lines.iter().any(|line| has_name(line.attrs(), name))
}

// Whether attributes give a name.
fn has_name(attrs: &[Attr], name: &[u8]) -> bool
    ensures { result ≡ gives (codes "uid") (λ given. bytes_eq given name.now) attrs.now }
{
    gives(attrs, b"uid".as_slice(), name)
}

// Whether a line denies a user.
fn gives_denial(lines: &[Tuple], user: &[u8]) -> bool
    ensures { result
        ≡ list_any (gives (codes "uid") (λ given. bytes_eq given (33 ∷ user.now))) lines.now }
{
    lines.iter().any(|line| has_denial(line.attrs(), user))
}

// Whether attributes deny a user.
fn has_denial(attrs: &[Attr], user: &[u8]) -> bool
    ensures { result ≡ gives (codes "uid") (λ given. bytes_eq given (33 ∷ user.now)) attrs.now }
{
    let name = b"uid".as_slice();
    attrs.iter().any(|attr| is_named(attr, name) && is_denial(&attr.value, user))
}

// Whether a value denies a user: it is `!` and the user.
fn is_denial(value: &Value, user: &[u8]) -> bool
    ensures { result ≡ is_given (λ given. bytes_eq given (33 ∷ user.now)) value.now }
{
    match value {
        Value::Is(text) => is_denied(text.as_slice(), user),
        Value::Ask | Value::Bare => false,
    }
}

fn is_denied(name: &[u8], user: &[u8]) -> bool
    ensures { result ≡ bytes_eq name.now (33 ∷ user.now) }
{
    match name {
        [b'!', denied @ ..] => denied == user,
        _ => false,
    }
}

/// Who speaks for whom.
#[derive(Drop)]
pub struct SpeaksTable {
    hosts: BTreeMap<Vec<u8>, HostLines>,
}

impl Model for SpeaksTable {
    ghost use Rattle.std.specs.Prelude.{List, map};
    ghost use Rattle.auth_tables.specs.Speaks.{SpeakLine};

    ghost Value = { List SpeakLine };

    ghost view = { λ t. map (λ entry. (entry.0.items, entry.1)) t.hosts.entries };
}

impl SpeaksTable {
    ghost use Rattle.std.specs.Prelude.{◌≡◌, ℕ, List, [], ◌++◌, ◌&&◌, not, codes, OnOk, option_copied, if◌then◌else◌};
    ghost use Rattle.std.specs.Map.{lookup};
    ghost use Rattle.std.specs.Str.{bytes_eq};
    ghost use Rattle.attr_tuples.specs.Matching.{texts_of};
    ghost use Rattle.auth_tables.specs.Speaks.{denies, grants, may_speak, names_of};

    // No lines.
    fn new(alloc: Global) -> SpeaksTable
        ensures { result ≡ [] }
    {
        SpeaksTable {
            hosts: BTreeMap::new(alloc),
        }
    }

    /// Whether a host may speak for a user: it is the user, or its lines give `uid=user` or `uid=*` and none gives
    /// `uid=!user`. It takes no memory, and looks at the names of this host alone.
    #[tactic(auto, unfolding(crate::specs::Speaks::may_speak))]
    pub fn speaks_for(&self, host: &[u8], user: &[u8]) -> bool
        ensures { result ≡ may_speak (names_of host.now self.now) host.now user.now }
    {
        host == user || self.grants(host, user)
    }

    fn grants(&self, host: &[u8], user: &[u8]) -> bool
        ensures { result ≡ (grants (names_of host.now self.now) user.now
            && not (denies (names_of host.now self.now) user.now)) }
    {
        match self.find(host) {
            Some(lines) => lines.grants(user),
            None => false,
        }
    }

    fn find(&self, host: &[u8]) -> Option<&HostLines>
        ensures { option_copied result ≡ lookup (bytes_eq host.now) self.now }
    {
        self.hosts.get(host)
    }

    // Puts a line of a host behind the others.
    fn put(&mut self, alloc: Global, host: Vec<u8>, line: Tuple) -> Result<(), NoMemory>
        ensures { OnOk result ((other : List ℕ) → names_of other self.new
            ≡ (if bytes_eq host.items other
            then names_of other self.old ++ texts_of (codes "uid") line
            else names_of other self.old)) }
    {
        if let Some(lines) = self.hosts.get_mut(host.as_slice()) {
            return lines.push(line);
        }
        let mut lines = HostLines::new(alloc);
        lines.push(line)?;
        self.hosts.insert(host, lines)?;
        Ok(())
    }
}

impl Table for SpeaksTable {
    ghost use Rattle.auth_tables.specs.Speaks.{fits_speaks};
    ghost use Rattle.auth_tables.specs.Steps.{TellsSpeaks};

    ghost fits = { fits_speaks };

    ghost tells = { TellsSpeaks };

    fn take(&mut self, alloc: Global, line: &[u8]) -> Result<bool, NoMemory> {
        let Some((host, line)) = read_line(alloc, line)? else {
            return Ok(false);
        };
        self.put(alloc, host, line)?;
        Ok(true)
    }
}

// The host of a line and its tuple, if it names a host.
#[tactic(auto, unfolding(crate::specs::Speaks::speak_in))]
fn read_line(alloc: Global, line: &[u8]) -> Result<Option<(Vec<u8>, Tuple)>, NoMemory>
    ensures { IfOk result (λ found.
        option_map (λ line. (line.0.items, texts_of (codes "uid") line.1)) found
        ≡ speak_in line.now) }
{
    let tuple = read_tuple(alloc, line)?;
    with_host(alloc, tuple)
}

fn with_host(alloc: Global, tuple: Option<Tuple>) -> Result<Option<(Vec<u8>, Tuple)>, NoMemory>
    ensures { IfOk result (λ found.
        option_map (λ line. (line.0.items, texts_of (codes "uid") line.1)) found
        ≡ speak_said tuple) }
{
    let Some(line) = tuple else {
        return Ok(None);
    };
    let Some(host) = value_of(&line, b"hostid".as_slice()) else {
        return Ok(None);
    };
    let host = Vec::from_slice(alloc, host.as_slice())?;
    Ok(Some((host, line)))
}

/// Reads a table of who speaks for whom. Lines that are empty or begin with `#` count for nothing; each other one is a
/// tuple with a `hostid` and any number of `uid`. The first bad line is told: one that isn't so, or the 4097th that
/// counts.
pub fn parse_speaks(alloc: Global, file: &[u8]) -> Result<SpeaksTable, TableFault>
    requires { length file.now + 1 < 2 ^ 32 }
    ensures names { IfOk result (λ table. (host : List ℕ)
        → names_of host table ≡ names_in (table_speaks file.now) host) }
    ensures good { OnOk result (bad_speak_line file.now ≡ None) }
    ensures bad { IfErr result (λ fault. (line : ℕ) → fault ≡ Line line
        → bad_speak_line file.now ≡ Some line) }
{
    read_table(alloc, file, SpeaksTable::new(alloc))
}
