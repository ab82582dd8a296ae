// Whether a reading spells the words of a record.
ghost use Rattle.std.specs.Prelude.{◌≡◌, ◌↔◌, ◌+◌, ◌<◌, ◌≤◌, ◌^◌, length, reverse, true};
ghost use Rattle.clean_runs.specs.Clean.{AtEachPlace, ReadsStep};
ghost use Rattle.clean_runs.specs.Runs.{role_by};
ghost use Rattle.hex.specs.Hex.{encode_lower};
ghost use Rattle.symbolic_runs.specs.Answers.{atoms_of};
ghost use Rattle.symbolic_runs.specs.Views.{tree};
ghost use Rattle.trace_runs.specs.Words.{reads, reads_numbered, reads_request, reads_word, requests_after, starts_after};

use symbolic_runs::{Reading, Term};
use wire_histories::{Protocol, Role, Step};

/// Whether a record has fewer than 2^31 steps, so that its starts, its requests and the keys made up for them have numbers.
pub fn is_short(steps: &[Step]) -> bool
    ensures { (result ≡ true) ↔ (length steps.now < 2 ^ 31) }
{
    steps.len() < 1 << 31
}

/// Whether a reading spells the word of each start by its nonce, but for those of mail clients, and the words of each request
/// by the digits of its challenge, its ticket key and two keys that are made up. The steps are in the order in which the
/// record was made.
pub fn reads_words(reading: &Reading, steps: &[Step]) -> bool
    requires { length steps.now < 2 ^ 31 }
    ensures { (result ≡ true)
        ↔ AtEachPlace (reverse steps.now) (ReadsStep (atoms_of reading.now)) }
{
    let mut before = Before {
        starts: 0,
        requests: 0,
    };
    for step in steps {
        if !before.reads_step(reading, step) {
            return false;
        }
        before = before.behind(step);
    }
    true
}

// How many conversations started before a step, and how many requests came.
#[derive(Clone, Copy)]
struct Before {
    starts: u32,
    requests: u32,
}

impl Before {
    fn reads_step(self, reading: &Reading, step: &Step) -> bool
        requires { self.requests < 2 ^ 31 }
        ensures { result
            ≡ reads_numbered (atoms_of reading.now) self.starts self.requests step.now }
    {
        match step {
            Step::Start {
                protocol,
                role,
                word,
                ..
            } => reads_word(reading, *protocol, *role, self.starts, word),
            Step::AsGot { words, .. } => reads_request(reading, self.requests, words),
            Step::Out { .. }
            | Step::In { .. }
            | Step::Ask { .. }
            | Step::Heard { .. }
            | Step::Unheard { .. }
            | Step::Accept { .. }
            | Step::Fail { .. }
            | Step::Reply { .. }
            | Step::Refused { .. }
            | Step::AsGave { .. }
            | Step::AsEnd { .. }
            | Step::Restart { .. }
            | Step::Reload => true,
        }
    }

    fn behind(self, step: &Step) -> Before
        requires starts { self.starts < 2 ^ 31 }
        requires requests { self.requests < 2 ^ 31 }
        ensures starts { result.starts ≡ starts_after self.starts step.now }
        ensures requests { result.requests ≡ requests_after self.requests step.now }
        ensures one_start { result.starts ≤ self.starts + 1 }
        ensures one_request { result.requests ≤ self.requests + 1 }
    {
        match step {
            Step::Start { .. } => Before {
                starts: self.starts + 1,
                ..self
            },
            Step::AsGot { .. } => Before {
                requests: self.requests + 1,
                ..self
            },
            Step::Out { .. }
            | Step::In { .. }
            | Step::Ask { .. }
            | Step::Heard { .. }
            | Step::Unheard { .. }
            | Step::Accept { .. }
            | Step::Fail { .. }
            | Step::Reply { .. }
            | Step::Refused { .. }
            | Step::AsGave { .. }
            | Step::AsEnd { .. }
            | Step::Restart { .. }
            | Step::Reload => self,
        }
    }
}

fn reads_word(
    reading: &Reading,
    protocol: Protocol,
    role: Role,
    number: u32,
    word: &[u8; 8],
) -> bool
    ensures { result
        ≡ reads_word (atoms_of reading.now) (role_by protocol role) number word.now }
{
    match (protocol, role) {
        (Protocol::Apop | Protocol::Cram, Role::Client | Role::Speakfor) => true,
        (Protocol::Apop | Protocol::Cram, Role::Server)
        | (Protocol::P9sk1 | Protocol::P9any, Role::Client | Role::Server | Role::Speakfor) => {
            reads(reading, &Term::Nonce(number), word)
        }
    }
}

fn reads_request(reading: &Reading, number: u32, words: &[[u8; 8]; 3]) -> bool
    requires { number < 2 ^ 31 }
    ensures { result ≡ reads_request (atoms_of reading.now) number words.now }
{
    let [first, second, third] = words;
    reads(reading, &Term::AsChal(number), &word_digits(first))
        && reads(reading, &Term::SKey(number), &first[..7])
        && reads(reading, &Term::Junk(2 * number), &second[..7])
        && reads(reading, &Term::Junk(2 * number + 1), &third[..7])
}

// A word as hexadecimal digits in lower case.
fn word_digits(word: &[u8; 8]) -> [u8; 16]
    ensures { result ≡ encode_lower word.now }
{
    let mut digits = [0; 16];
    hex::encode_to_slice(word, &mut digits).unwrap();
    digits
}

// Whether an atom has these bytes.
pub(crate) fn reads(reading: &Reading, atom: &Term, text: &[u8]) -> bool
    ensures { result ≡ reads (atoms_of reading.now) (tree atom.now) text.now }
{
    match reading.bytes_of(atom) {
        Some(bytes) => bytes == text,
        None => false,
    }
}
