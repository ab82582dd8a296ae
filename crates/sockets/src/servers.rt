// The addresses of the authentication servers, as the word behind `--auth` names them.
ghost use Rattle.std.specs.Prelude.{[], ◌≡◌, ◌∷◌, ◌<◌, ◌≤◌, IfOk, IfSome, length, option_map};
ghost use Rattle.sockets.specs.Endings.{is_digit};
ghost use Rattle.sockets.specs.Servers.{behind_digits, fault_of, fault_told, host_fault, is_host_and_port, is_port, item_fault, items_behind, items_of, path_fault, port_behind, without_digits};

use std::alloc::Global;
use std::marker::Model;
use thiserror::Error;
use wire_base::{Bytes, List, NoMemory};

/// How many servers may be named.
pub const MOST_SERVERS: usize = 16;

/// How many bytes the path of a Unix socket may have: those that the system has room for, less the NUL behind it (unix(7)).
pub(crate) const MOST_PATH: usize = 107;

/// The last port.
const MOST_PORT: u32 = 65535;

/// Why a text names no servers.
#[derive(Clone, Copy, Debug, PartialEq, Eq, Drop, Error)]
pub enum AddressFault {
    /// Nothing stands in front of a comma, behind one, or at all.
    #[error("an address is empty")]
    Empty,
    /// There are more than 16.
    #[error("over 16 addresses")]
    TooMany,
    /// A path, which begins with `/`, has more bytes than a socket's address holds.
    #[error("a path has over 107 bytes")]
    LongPath,
    /// What is no path isn't a host, a colon and a port from 1 to 65535.
    #[error("no host, colon and port from 1 to 65535")]
    NoPort,
}

/// The servers' addresses, in the order in which they are named: at least one, and each as it should be.
#[derive(Drop)]
pub struct Servers {
    items: List<Bytes>,
}

impl Model for Servers {
    ghost use Rattle.std.specs.Prelude.{◌≡◌, ℕ, List, None};
    ghost use Rattle.sockets.specs.Servers.{first_fault};

    ghost Value = { List (List ℕ) };

    ghost view = { λ servers. servers.items };

    ghost invariant = { λ servers. first_fault 0 servers.items ≡ None };
}

impl Servers {
    /// The addresses in a text: what stands between commas, each the path of a Unix socket where it begins with `/`, else
    /// a host, `:` and a port.
    #[tactic(auto, unfolding(crate::specs::Servers::fault_of))]
    pub fn parse(alloc: Global, text: &[u8]) -> Result<Result<Servers, AddressFault>, NoMemory>
        ensures fault { IfOk result (λ parsed. fault_told parsed ≡ fault_of text.now) }
        ensures value { IfOk result (λ parsed.
            IfOk parsed (λ servers. servers ≡ items_of text.now)) }
    {
        match check_addresses(text) {
            Ok(()) => {
                let items = items_of(alloc, text)?;
                Ok(Ok(Servers { items }))
            }
            Err(fault) => Ok(Err(fault)),
        }
    }

    /// How many there are.
    #[tactic(auto, using(crate::proofs::ServerLemmas::few))]
    pub fn len(&self) -> usize
        ensures count { result ≡ length self.now }
        ensures most { result ≤ MOST_SERVERS }
    {
        self.items.len()
    }

    /// The addresses, in their order.
    pub fn addresses(&self) -> &[Bytes]
        ensures { result.now ≡ self.now }
    {
        self.items.as_slice()
    }

    pub fn copy(&self) -> Result<Servers, NoMemory>
        ensures { IfOk result (λ servers. servers ≡ self.now) }
    {
        let items = copy_of(&self.items)?;
        Ok(Servers { items })
    }
}

// A copy of a list of addresses.
fn copy_of(items: &List<Bytes>) -> Result<List<Bytes>, NoMemory>
    ensures { IfOk result (λ copy. copy ≡ items.now) }
{
    let mut copy = List::new(items.allocator());
    for item in items.as_slice() {
        copy.push(item.copy()?)?;
    }
    Ok(copy)
}

// The addresses of a text that has no fault.
fn items_of(alloc: Global, text: &[u8]) -> Result<List<Bytes>, NoMemory>
    ensures { IfOk result (λ items. items ≡ items_of text.now) }
{
    let mut items = List::new(alloc);
    let mut left = text;
    loop {
        let (item, rest) = cut(left);
        items.push(Bytes::from_slice(alloc, item)?)?;
        let Some(rest) = rest else {
            return Ok(items);
        };
        left = rest;
    }
}

/// Whether a text names servers, as `Servers::parse` reads it. It takes no memory.
#[tactic(auto, unfolding(crate::specs::Servers::fault_of), using(crate::proofs::ServerLemmas::fault_later, crate::proofs::ServerLemmas::fault_here, crate::proofs::ServerLemmas::too_many))]
pub fn check_addresses(text: &[u8]) -> Result<(), AddressFault>
    ensures { fault_told result ≡ fault_of text.now }
{
    let mut left = text;
    let mut taken = 0;
    while taken < MOST_SERVERS {
        let (item, rest) = cut(left);
        check_item(item)?;
        let Some(rest) = rest else {
            return Ok(());
        };
        left = rest;
        taken += 1;
    }
    Err(AddressFault::TooMany)
}

// What stands in front of the first comma, and what behind it, where there is one.
#[tactic(auto, using(crate::proofs::ServerLemmas::front_none, crate::proofs::ServerLemmas::front_more, crate::proofs::ServerLemmas::front_cut, crate::proofs::ServerLemmas::front_all))]
fn cut(text: &[u8]) -> (&[u8], Option<&[u8]>)
    ensures items { items_of text.now
        ≡ result.0.now ∷ items_behind (option_map (λ rest. rest.now) result.1) }
    ensures shorter { IfSome result.1 (λ rest. length rest.now < length text.now) }
{
    for at in 0..text.len() {
        if text[at] == b',' {
            return (&text[..at], Some(&text[at + 1..]));
        }
    }
    (text, None)
}

// What is wrong with one address.
fn check_item(item: &[u8]) -> Result<(), AddressFault>
    ensures { fault_told result ≡ item_fault item.now }
{
    match item {
        [] => Err(AddressFault::Empty),
        [b'/', ..] => check_path(item),
        [_, ..] => check_host(item),
    }
}

fn check_path(path: &[u8]) -> Result<(), AddressFault>
    ensures { fault_told result ≡ path_fault path.now }
{
    if path.len() <= MOST_PATH {
        Ok(())
    } else {
        Err(AddressFault::LongPath)
    }
}

fn check_host(item: &[u8]) -> Result<(), AddressFault>
    ensures { fault_told result ≡ host_fault item.now }
{
    if is_host_and_port(item) {
        Ok(())
    } else {
        Err(AddressFault::NoPort)
    }
}

fn is_host_and_port(item: &[u8]) -> bool
    ensures { result ≡ is_host_and_port item.now }
{
    let front = without_digits(item);
    match front {
        [_, .., b':'] => is_port(&item[front.len()..]),
        _ => false,
    }
}

fn is_digit(byte: u8) -> bool
    ensures { result ≡ is_digit byte }
{
    byte >= b'0' && byte <= b'9'
}

// What stands in front of the digits at the end.
fn without_digits(mut item: &[u8]) -> &[u8]
    ensures value { result.now ≡ without_digits item.now }
    ensures shorter { length result.now ≤ length item.now }
{
    while let [rest @ .., last] = item
        && is_digit(*last)
    {
        item = rest;
    }
    item
}

// Whether these are the digits of a port.
fn is_port(digits: &[u8]) -> bool
    ensures { result ≡ is_port digits.now }
{
    let mut port = 0;
    for digit in digits {
        match with_digit(port, *digit) {
            Some(longer) => port = longer,
            None => return false,
        }
    }
    port > 0
}

// A number up to the last port with one more digit behind it.
fn with_digit(port: u32, digit: u8) -> Option<u32>
    requires { port ≤ MOST_PORT }
    ensures { result ≡ port_behind port (digit ∷ []) }
{
    if !is_digit(digit) {
        return None;
    }
    let longer = 10 * port + u32::from(digit - b'0');
    if longer <= MOST_PORT {
        Some(longer)
    } else {
        None
    }
}
