// What is measured: a cipher that is applied again and again, each time to its own last result.

ghost use Rattle.std.specs.Prelude.{◌≡◌, ◌↔◌, ◌≤◌, IfOk, codes, length};
ghost use Rattle.std.specs.String.{string_bytes};
ghost use Rattle.hex.specs.Hex.{encode_lower};
ghost use Rattle.des_block.specs.Schedule.{enciphered};
ghost use Rattle.sealing.specs.Answer.{cram_digits};
ghost use Rattle.sealing.specs.Sealing.{sealed};
ghost use Rattle.bench_work.specs.Work.{final_bytes, next_password, repeated, sealed_by_both};

use des_block::Schedule;
use sealing::{Key7, cram_answer, pass_to_key, seal};
use std::alloc::{AllocError, Allocator};

const DES_KEY: [u8; 8] = [0x13, 0x34, 0x57, 0x79, 0x9b, 0xbc, 0xdf, 0xf1];

const FIRST_BLOCK: [u8; 8] = [0x01, 0x23, 0x45, 0x67, 0x89, 0xab, 0xcd, 0xef];

const SEAL_KEY: [u8; 7] = [0x12, 0x69, 0x5b, 0xc9, 0xb7, 0xb7, 0xf8];

const OTHER_KEY: [u8; 7] = [0x0e, 0x32, 0x92, 0x32, 0xea, 0x6d, 0x0d];

const FIRST_PASSWORD: &[u8; 27] = b"correct horse battery stapl";

const FIRST_CHALLENGE: &[u8; 32] = b"<0123456789abcdef@dbc.mtview.ca>";

const SECRET: &[u8; 16] = b"tanstaaftanstaaf";

/// What a round does.
#[derive(Clone, Copy)]
pub enum Work {
    /// DES of a block.
    Encrypt,
    /// The tickets' seal of 1,024 bytes, with the key's schedule.
    Seal,
    /// The CRAM-MD5 answer to a challenge of 32 bytes.
    Cram,
    /// DES of a block, with the schedule of a key that is that block.
    Keyed,
    /// The key of a password of 27 bytes, which takes the place of its first seven.
    Password,
    /// The seals of a pair of tickets: 72 bytes under one key and then under another, with both
    /// schedules.
    Tickets,
}

impl Work {
    /// Every work.
    pub const ALL: [Work; 6] = [
        Work::Encrypt,
        Work::Seal,
        Work::Cram,
        Work::Keyed,
        Work::Password,
        Work::Tickets,
    ];

    /// The work of this name, as an argument of the program gives it.
    pub fn named(name: &str) -> Option<Work>
        ensures encrypt { (result ≡ Some Work.Encrypt) ↔ (name.now ≡ codes "encrypt") }
        ensures seal { (result ≡ Some Work.Seal) ↔ (name.now ≡ codes "seal") }
        ensures cram { (result ≡ Some Work.Cram) ↔ (name.now ≡ codes "cram") }
        ensures keyed { (result ≡ Some Work.Keyed) ↔ (name.now ≡ codes "keyed") }
        ensures password { (result ≡ Some Work.Password) ↔ (name.now ≡ codes "password") }
        ensures tickets { (result ≡ Some Work.Tickets) ↔ (name.now ≡ codes "tickets") }
    {
        match name {
            "encrypt" => Some(Work::Encrypt),
            "seal" => Some(Work::Seal),
            "cram" => Some(Work::Cram),
            "keyed" => Some(Work::Keyed),
            "password" => Some(Work::Password),
            "tickets" => Some(Work::Tickets),
            _ => None,
        }
    }
}

// The block after so many encryptions.
#[tactic(auto, using(crate::proofs::RepeatLemmas::repeated_none, crate::proofs::RepeatLemmas::repeated_more), unfolding(des_block::specs::Schedule::enciphered))]
fn encrypted(key: &[u8; 8], block: [u8; 8], rounds: u64) -> [u8; 8]
    ensures { result ≡ repeated (enciphered key.now) rounds block }
{
    let schedule = Schedule::new(key);
    let mut last = block;
    'rounds: for round in 0..rounds {
        let next = schedule.encrypt(last);
        last = next;
    }
    last
}

// Seals the text so many times.
#[tactic(auto, using(crate::proofs::RepeatLemmas::repeated_none, crate::proofs::RepeatLemmas::repeated_more))]
fn seal_repeatedly(key: &Key7, text: &mut [u8], rounds: u64)
    requires { 8 ≤ length text.old }
    ensures { text.new ≡ repeated (sealed key.now.0) rounds text.old }
{
    'rounds: for round in 0..rounds {
        seal(key, text);
    }
}

// The answer to the answer, and so on, so many times.
#[tactic(auto, using(crate::proofs::RepeatLemmas::repeated_none, crate::proofs::RepeatLemmas::repeated_more))]
fn answered(secret: &[u8], challenge: [u8; 32], rounds: u64) -> [u8; 32]
    ensures { result ≡ repeated (λ last. cram_digits last secret.now) rounds challenge }
{
    let mut last = challenge;
    'rounds: for round in 0..rounds {
        last = cram_answer(&last, secret);
    }
    last
}

// The block after so many encryptions of it under itself.
#[tactic(auto, using(crate::proofs::RepeatLemmas::repeated_none, crate::proofs::RepeatLemmas::repeated_more), unfolding(des_block::specs::Schedule::enciphered))]
fn keyed(block: [u8; 8], rounds: u64) -> [u8; 8]
    ensures { result ≡ repeated (λ last. enciphered last last) rounds block }
{
    let mut last = block;
    'rounds: for round in 0..rounds {
        let next = Schedule::new(&last).encrypt(last);
        last = next;
    }
    last
}

// The password with its key in the place of its first bytes.
#[tactic(auto, unfolding(crate::specs::Work::next_password))]
fn next_password(last: &[u8; 27]) -> [u8; 27]
    ensures { result ≡ next_password last.now }
{
    let key = pass_to_key(last);
    let mut next = *last;
    next[..7].copy_from_slice(&key.0);
    next
}

// The password after so many keys.
#[tactic(auto, using(crate::proofs::RepeatLemmas::repeated_none, crate::proofs::RepeatLemmas::repeated_more))]
fn passwords(first: [u8; 27], rounds: u64) -> [u8; 27]
    ensures { result ≡ repeated next_password rounds first }
{
    let mut last = first;
    'rounds: for round in 0..rounds {
        let next = next_password(&last);
        last = next;
    }
    last
}

// Seals the text under both keys so many times.
#[tactic(auto, using(crate::proofs::RepeatLemmas::repeated_none, crate::proofs::RepeatLemmas::repeated_more))]
fn tickets(one: &Key7, other: &Key7, text: &mut [u8], rounds: u64)
    requires { 8 ≤ length text.old }
    ensures { text.new ≡ repeated (sealed_by_both one.now.0 other.now.0) rounds text.old }
{
    'rounds: for round in 0..rounds {
        seal(one, text);
        seal(other, text);
    }
}

/// What `rounds` rounds of the work make of its first input, as hexadecimal digits in lower case.
///
/// Fails only where there is no memory for the digits.
#[tactic(auto, unfolding(crate::specs::Work::final_bytes))]
pub fn final_digits<A: Allocator>(
    alloc: A,
    work: Work,
    rounds: u64,
) -> Result<String<A>, AllocError>
    ensures { IfOk result (λ text. string_bytes text ≡ encode_lower (final_bytes work rounds)) }
{
    match work {
        Work::Encrypt => hex::encode(alloc, encrypted(&DES_KEY, FIRST_BLOCK, rounds)),
        Work::Seal => {
            let mut text = [0u8; 1024];
            seal_repeatedly(&Key7(SEAL_KEY), &mut text, rounds);
            hex::encode(alloc, text)
        }
        Work::Cram => hex::encode(alloc, answered(SECRET, *FIRST_CHALLENGE, rounds)),
        Work::Keyed => hex::encode(alloc, keyed(FIRST_BLOCK, rounds)),
        Work::Password => hex::encode(alloc, passwords(*FIRST_PASSWORD, rounds)),
        Work::Tickets => {
            let mut text = [0u8; 72];
            tickets(&Key7(SEAL_KEY), &Key7(OTHER_KEY), &mut text, rounds);
            hex::encode(alloc, text)
        }
    }
}
