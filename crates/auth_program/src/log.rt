//! The lines of the log of an authentication server.
ghost use Rattle.std.specs.Prelude.{◌≡◌, ◌++◌, ◌∷◌, ◌<◌, [], OnErr, OnOk, length, map, take, true};
ghost use Rattle.auth_program.specs.Log.{IsLine, asked_word, bad_line, end_line, fault_line, head_text, judged_line, line_under, names_text, notice_line, outcome_word, shown_byte, word_text};
ghost use Rattle.auth_program.specs.RenewalLines.{is_told, renewal_text};
ghost use Rattle.auth_program.specs.Statuses.{is_printable, status_text};

use crate::renewal::Renewal;
use crate::status::{Status, print_status};
use auth_server::{Notice, Outcome};
use sealing::{AUTH_APOP, AUTH_CRAM, AUTH_TREQ, TicketReq};
use std::alloc::Global;
use wire_base::{Bytes, Name, NoMemory};

/// How many bytes stand before what the line of a status says.
const FACTOTUM: usize = 10;

// A byte of a name as it is shown on a line, of which no name may end a word: one that isn't a visible sign of ASCII is `?`.
fn shown_byte(byte: u8) -> u8
    ensures { result ≡ shown_byte byte }
{
    if byte > b' ' && byte < 127 {
        byte
    } else {
        b'?'
    }
}

/// Appends a name as a line of a log shows it: what isn't a visible sign of ASCII is `?`. What is appended before memory
/// runs out stays, here and in the functions below.
pub fn append_shown(name: &[u8], out: &mut Bytes) -> Result<(), NoMemory>
    ensures ok { OnOk result (out.new ≡ out.old ++ map shown_byte name.now) }
    ensures err { OnErr result (take (length out.old) out.new ≡ out.old) }
{
    for byte in name {
        out.push(shown_byte(*byte))?;
    }
    Ok(())
}

// Appends a word: what it begins with, and a name.
#[tactic(auto, using(wire_base::proofs::FrontLemmas::kept_then))]
fn append_word(begin: &[u8], name: &[u8], out: &mut Bytes) -> Result<(), NoMemory>
    ensures ok { OnOk result (out.new ≡ out.old ++ word_text begin.now name.now) }
    ensures err { OnErr result (take (length out.old) out.new ≡ out.old) }
{
    out.push(b' ')?;
    out.append(begin)?;
    append_shown(name, out)
}

// What was asked.
fn asked_word(kind: u8) -> &'static [u8]
    ensures { result.now ≡ asked_word kind }
{
    match kind {
        AUTH_TREQ => b"ticket",
        AUTH_APOP => b"APOP",
        AUTH_CRAM => b"CRAM",
        _ => b"unknown",
    }
}

// What came of it.
fn outcome_word(outcome: Outcome) -> &'static [u8]
    ensures { result.now ≡ outcome_word outcome }
{
    match outcome {
        Outcome::Granted => b"granted",
        Outcome::Refused => b"refused",
        Outcome::Challenged => b"challenged",
        Outcome::Vouched => b"vouched",
        Outcome::Wrong => b"wrong",
    }
}

// Appends whom a line is of.
#[tactic(auto, using(wire_base::proofs::FrontLemmas::kept_then))]
fn append_head(address: &Name<48>, out: &mut Bytes) -> Result<(), NoMemory>
    ensures ok { OnOk result (out.new ≡ out.old ++ head_text address.now) }
    ensures short { OnOk result (length address.now < 48) }
    ensures err { OnErr result (take (length out.old) out.new ≡ out.old) }
{
    out.append(b"authd:")?;
    append_word(b"", address.text(), out)
}

// Appends for whom something is asked.
#[tactic(auto, using(wire_base::proofs::FrontLemmas::kept_then))]
fn append_names(asked: &TicketReq, out: &mut Bytes) -> Result<(), NoMemory>
    ensures ok { OnOk result (out.new ≡ out.old ++ names_text asked.now.hostid asked.now.uid) }
    ensures short { OnOk result ((length asked.now.hostid < 28) × (length asked.now.uid < 28)) }
    ensures err { OnErr result (take (length out.old) out.new ≡ out.old) }
{
    append_word(b"host=", asked.hostid.text(), out)?;
    append_word(b"user=", asked.uid.text(), out)
}

// Appends what came of a request whose fields are well.
#[tactic(auto, using(wire_base::proofs::FrontLemmas::kept_then))]
fn append_judged(asked: &TicketReq, outcome: Outcome, out: &mut Bytes) -> Result<(), NoMemory>
    ensures ok { OnOk result (out.new ≡ out.old ++ (names_text asked.now.hostid asked.now.uid
        ++ (word_text (outcome_word outcome) [] ++ 10 ∷ []))) }
    ensures short { OnOk result ((length asked.now.hostid < 28) × (length asked.now.uid < 28)) }
    ensures err { OnErr result (take (length out.old) out.new ≡ out.old) }
{
    append_names(asked, out)?;
    append_word(outcome_word(outcome), b"", out)?;
    out.push(b'\n')
}

// Appends whom a line is of, and what was asked.
#[tactic(auto, using(wire_base::proofs::FrontLemmas::kept_then))]
fn append_asked(address: &Name<48>, kind: u8, out: &mut Bytes) -> Result<(), NoMemory>
    ensures ok { OnOk result (out.new
        ≡ out.old ++ (head_text address.now ++ word_text (asked_word kind) [])) }
    ensures short { OnOk result (length address.now < 48) }
    ensures err { OnErr result (take (length out.old) out.new ≡ out.old) }
{
    append_head(address, out)?;
    append_word(asked_word(kind), b"", out)
}

#[tactic(auto, using(wire_base::proofs::FrontLemmas::kept_then))]
fn append_notice(address: &Name<48>, notice: &Notice, out: &mut Bytes) -> Result<(), NoMemory>
    ensures ok { OnOk result (out.new ≡ out.old ++ notice_line address.now notice.now) }
    ensures line { OnOk result (IsLine (notice_line address.now notice.now)) }
    ensures err { OnErr result (take (length out.old) out.new ≡ out.old) }
{
    match notice {
        Notice::Bad { kind } => {
            append_asked(address, *kind, out)?;
            out.append(b" bad request\n")
        }
        Notice::Judged { asked, outcome } => {
            append_asked(address, asked.kind, out)?;
            append_judged(asked, *outcome, out)
        }
    }
}

/// Appends the line of a request of a client for standard error.
pub fn print_notice(address: &Name<48>, notice: &Notice, out: &mut Bytes) -> Result<(), NoMemory>
    ensures ok { OnOk result (out.new ≡ out.old ++ notice_line address.now notice.now) }
    ensures line { OnOk result (IsLine (notice_line address.now notice.now)) }
    ensures err { OnErr result (out.new ≡ out.old) }
{
    let before = out.len();
    let done = append_notice(address, notice, out);
    out.undo_on_err(before, done)
}

// Appends what the line of a status says, behind a name.
#[tactic(auto, using(wire_base::proofs::FrontLemmas::kept_then))]
fn append_under(
    alloc: Global,
    name: &[u8],
    status: &Status,
    out: &mut Bytes,
) -> Result<(), NoMemory>
    requires { is_printable status.now ≡ true }
    ensures ok { OnOk result (out.new ≡ out.old ++ line_under name.now (status_text status.now)) }
    ensures err { OnErr result (take (length out.old) out.new ≡ out.old) }
{
    let mut line = Bytes::new(alloc);
    print_status(alloc, status, &mut line)?;
    if line.len() < FACTOTUM {
        return Ok(());
    }
    let (_, said) = line.as_slice().split_at(FACTOTUM);
    out.append(name)?;
    out.append(said)
}

/// Appends the line of a status of the server for standard error: nothing where it is fine.
pub fn print_fault(alloc: Global, status: &Status, out: &mut Bytes) -> Result<(), NoMemory>
    requires { is_printable status.now ≡ true }
    ensures ok { OnOk result (out.new ≡ out.old ++ fault_line status.now) }
    ensures err { OnErr result (out.new ≡ out.old) }
{
    let before = out.len();
    let done = append_under(alloc, b"authd: ", status, out);
    out.undo_on_err(before, done)
}

/// Appends the line of a client's end for standard error: nothing where it is fine.
pub fn print_client_end(
    alloc: Global,
    address: &Name<48>,
    status: &Status,
    out: &mut Bytes,
) -> Result<(), NoMemory>
    requires { is_printable status.now ≡ true }
    ensures ok { OnOk result (out.new ≡ out.old ++ end_line address.now status.now) }
    ensures err { OnErr result (out.new ≡ out.old) }
{
    let mut head = Bytes::new(alloc);
    append_head(address, &mut head)?;
    head.push(b' ')?;
    let before = out.len();
    let done = append_under(alloc, head.as_slice(), status, out);
    out.undo_on_err(before, done)
}

/// Appends the line of a look at the files of the tables for standard error: nothing where they haven't changed.
pub fn print_renewal(alloc: Global, renewal: &Renewal, out: &mut Bytes) -> Result<(), NoMemory>
    requires { is_told renewal.now ≡ true }
    ensures ok { OnOk result (out.new ≡ out.old ++ renewal_text renewal.now) }
    ensures err { OnErr result (out.new ≡ out.old) }
{
    match renewal {
        Renewal::Same => Ok(()),
        Renewal::Read => out.append(b"authd: the tables were read again\n"),
        Renewal::Refused(status) => {
            let before = out.len();
            let done = append_under(alloc, b"authd: the tables stay as they were: ", status, out);
            out.undo_on_err(before, done)
        }
    }
}
