// The words of the program's command line.
ghost use Rattle.std.specs.Prelude.{◌≡◌, ◌≤◌, ◌++◌, [], codes, IfErr, IfNone, IfOk, IfSome, OnOk, true, false};
ghost use Rattle.sockets.specs.Endings.{is_digit};
ghost use Rattle.attr_tuples.specs.Forms.{is_dom};
ghost use Rattle.auth_program.specs.Statuses.{is_printable};
ghost use Rattle.auth_program.specs.AuthdWords.{HasNumbers, IsAuthd, IsUnreadAuthd, address_of, are_numbers, authsrv_words, number_given, number_in, number_up_to, without};

use crate::status::Status;
use crate::words::{AuthsrvWords, is_value, read_authsrv_words};
use client_doors::Limits;
use std::alloc::Global;
use wire_base::{NoMemory, Text, TextList};

/// After how many seconds in which it sends nothing a client is hung up, where the words don't say it.
const IDLE: u32 = 60;

/// How many seconds that may be at most: a day.
const MOST_IDLE: u32 = 86_400;

/// How many clients are served at once, where the words don't say it.
const CLIENTS: u32 = 256;

/// How many of one address, where the words don't say it.
const PER_ADDRESS: u32 = 16;

/// How many either may be at most.
const MOST_CLIENTS: u32 = 4096;

/// The values of the program's options.
#[derive(Drop)]
pub struct AuthdWords {
    /// The address at which it listens.
    pub listen: Text,
    /// How many clients it serves, and how long it waits for one.
    pub numbers: AuthdNumbers,
    /// The options that it has in common with `authsrv`.
    pub given: AuthsrvWords,
}

/// How many clients are served, and how long one is waited for.
#[derive(Clone, Copy, Debug, PartialEq, Eq)]
pub struct AuthdNumbers {
    /// After how many seconds in which it sends nothing a client is hung up, from 1 to 86400.
    pub idle: u32,
    /// How many clients are served at once, in all and of one address, from 1 to 4096 each.
    pub limits: Limits,
}

/// What the words behind the program's name say: `--listen` with an address, and the options of `authsrv`, and if they stand
/// there `--idle`, `--clients` and `--per-address` with a number, in any order, each once. Usage comes where they aren't so;
/// memory runs out only where they give an address.
pub fn read_authd_words(alloc: Global, words: &[Text]) -> Result<AuthdWords, Status>
    ensures ok { IfOk result (IsAuthd words.now) }
    ensures dom { IfOk result (λ words. is_dom words.given.dom ≡ true) }
    ensures err { IfErr result (IsUnreadAuthd words.now) }
    ensures printable { IfErr result (λ status. is_printable status ≡ true) }
{
    let Some(address) = find_address(words) else {
        return Err(Status::Usage);
    };
    if !is_value(address.as_slice()) {
        return Err(Status::Usage);
    }
    let Some(numbers) = read_numbers(words) else {
        return Err(Status::Usage);
    };
    let listen = address.copy()?;
    let others = copy_others(alloc, words)?;
    match read_authsrv_words(alloc, others.as_slice()) {
        Ok(given) => Ok(AuthdWords {
            listen,
            numbers,
            given,
        }),
        Err(status) => Err(status),
    }
}

// The address that the words give.
fn find_address(words: &[Text]) -> Option<&Text>
    ensures value { IfSome result (λ text. text.now ≡ address_of words.now) }
    ensures none { IfNone result (address_of words.now ≡ []) }
{
    match words {
        [name, value, rest @ ..] => {
            if name.as_slice() == b"--listen".as_slice() {
                Some(value)
            } else {
                find_address(rest)
            }
        }
        [] | [_] => None,
    }
}

// The numbers that the words give.
fn read_numbers(words: &[Text]) -> Option<AuthdNumbers>
    ensures some { IfSome result (HasNumbers words.now) }
    ensures none { IfNone result (are_numbers words.now ≡ false) }
{
    let idle = number_given(b"--idle", MOST_IDLE, IDLE, words)?;
    let clients = number_given(b"--clients", MOST_CLIENTS, CLIENTS, words)?;
    let per_address = number_given(b"--per-address", MOST_CLIENTS, PER_ADDRESS, words)?;
    Some(AuthdNumbers {
        idle,
        limits: Limits {
            clients,
            per_address,
        },
    })
}

// The number that an option gives, from 1 to the most, or the usual one.
fn number_given(option: &[u8], most: u32, usual: u32, words: &[Text]) -> Option<u32>
    requires { most ≤ 100000 }
    ensures { result ≡ number_given option.now most usual words.now }
{
    match words {
        [name, value, rest @ ..] => {
            if name.as_slice() == option {
                number_in(most, value.as_slice())
            } else {
                number_given(option, most, usual, rest)
            }
        }
        [] | [_] => Some(usual),
    }
}

// The number that a word is, from 1 to the most: decimal, without zeros in front.
fn number_in(most: u32, word: &[u8]) -> Option<u32>
    requires { most ≤ 100000 }
    ensures { result ≡ number_in most word.now }
{
    match word {
        [] | [b'0', ..] => None,
        [_, ..] => number_up_to(most, word),
    }
}

// The number of some digits, where it is no more than the most.
fn number_up_to(most: u32, digits: &[u8]) -> Option<u32>
    requires { most ≤ 100000 }
    ensures { result ≡ number_up_to most 0 digits.now }
{
    let mut number = 0;
    for byte in digits {
        if !is_digit(*byte) {
            return None;
        }
        let longer = 10 * number + u32::from(*byte - b'0');
        if longer > most {
            return None;
        }
        number = longer;
    }
    Some(number)
}

fn is_digit(byte: u8) -> bool
    ensures { result ≡ is_digit byte }
{
    byte >= b'0' && byte <= b'9'
}

// The word `authsrv`, and the other words.
fn copy_others(alloc: Global, words: &[Text]) -> Result<TextList, NoMemory>
    ensures { IfOk result (λ list. list ≡ authsrv_words words.now) }
{
    let words = without(alloc, b"--listen", words)?;
    let words = without(alloc, b"--idle", words.as_slice())?;
    let words = without(alloc, b"--clients", words.as_slice())?;
    let words = without(alloc, b"--per-address", words.as_slice())?;
    let mut list = TextList::new(alloc);
    let Some(name) = Text::from_slice(alloc, b"authsrv")? else {
        unreachable!();
    };
    list.push(name)?;
    append_words(&mut list, words.as_slice())?;
    Ok(list)
}

// Copies of the words without the first of an option, and its value.
fn without(alloc: Global, option: &[u8], words: &[Text]) -> Result<TextList, NoMemory>
    ensures { IfOk result (λ list. list ≡ without option.now words.now) }
{
    let mut list = TextList::new(alloc);
    append_others(&mut list, option, words)?;
    Ok(list)
}

// Puts copies of the words without an option and its value behind those of a list.
fn append_others(list: &mut TextList, option: &[u8], words: &[Text]) -> Result<(), NoMemory>
    ensures { OnOk result (list.new ≡ list.old ++ without option.now words.now) }
{
    match words {
        [name, value, rest @ ..] => {
            if name.as_slice() == option {
                return append_words(list, rest);
            }
            list.push(name.copy()?)?;
            list.push(value.copy()?)?;
            append_others(list, option, rest)
        }
        [] | [_] => append_words(list, words),
    }
}

// Puts copies of words behind those of a list.
fn append_words(list: &mut TextList, words: &[Text]) -> Result<(), NoMemory>
    ensures { OnOk result (list.new ≡ list.old ++ words.now) }
{
    for word in words {
        list.push(word.copy()?)?;
    }
    Ok(())
}
