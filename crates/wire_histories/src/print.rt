// The text of a step.
ghost use Rattle.std.specs.Prelude.{◌≡◌, ◌++◌, codes, length, take, OnOk, OnErr};
ghost use Rattle.std.specs.List.{flat_map};
ghost use Rattle.std.specs.Fmt.{decimal};
ghost use Rattle.hex.specs.Hex.{encode_lower};
ghost use Rattle.attr_tuples.specs.Words.{value_text};
ghost use Rattle.wire_histories.specs.Lines.{protocol_name, role_name, step_line, step_words, word};

use crate::line::{put_digits, put_number, put_value, put_word};
use crate::step::{Protocol, Role, Step};
use wire_base::{Bytes, NoMemory};

/// Appends the line of a step, with a newline. Without memory `out` is as before.
#[tactic(auto, using(wire_base::proofs::FrontLemmas::kept_then), unfolding(crate::specs::Lines::step_line))]
pub fn print_step(step: &Step, out: &mut Bytes) -> Result<(), NoMemory>
    ensures ok { OnOk result (out.new ≡ out.old ++ step_line step.now) }
    ensures err { OnErr result (out.new ≡ out.old) }
{
    let before = out.len();
    let done = put_line(step, out);
    if done.is_err() {
        out.truncate(before);
    }
    done
}

// What is appended before memory runs out stays, in this function and in those below.
#[tactic(auto, using(wire_base::proofs::FrontLemmas::kept_then), unfolding(crate::specs::Lines::step_line))]
fn put_line(step: &Step, out: &mut Bytes) -> Result<(), NoMemory>
    ensures ok { OnOk result (out.new ≡ out.old ++ step_line step.now) }
    ensures err { OnErr result (take (length out.old) out.new ≡ out.old) }
{
    put_words(step, out)?;
    out.push(b'\n')
}

fn put_words(step: &Step, out: &mut Bytes) -> Result<(), NoMemory>
    ensures ok { OnOk result (out.new ≡ out.old ++ step_words step.now) }
    ensures err { OnErr result (take (length out.old) out.new ≡ out.old) }
{
    match step {
        Step::Start {
            conv,
            protocol,
            role,
            word,
        } => put_start(conv.as_slice(), *protocol, *role, word, out),
        Step::Out {
            number,
            conv,
            bytes,
        } => put_message(b"out", *number, conv.as_slice(), bytes.as_slice(), out),
        Step::In { conv, bytes } => put_bytes(b"in", conv.as_slice(), bytes.as_slice(), out),
        Step::Ask {
            number,
            conv,
            bytes,
        } => put_message(b"ask", *number, conv.as_slice(), bytes.as_slice(), out),
        Step::Heard { conv, bytes } => put_bytes(b"heard", conv.as_slice(), bytes.as_slice(), out),
        Step::Unheard { conv } => put_named(b"unheard", conv.as_slice(), out),
        Step::Accept { conv, cuid, suid } => {
            put_accept(conv.as_slice(), cuid.as_slice(), suid.as_slice(), out)
        }
        Step::Fail { conv, cause } => put_text(b"fail", conv.as_slice(), cause.as_slice(), out),
        Step::Reply { conv, answer } => put_text(b"reply", conv.as_slice(), answer.as_slice(), out),
        Step::Refused { node, answer } => {
            put_text(b"refused", node.as_slice(), answer.as_slice(), out)
        }
        Step::AsGot {
            session,
            bytes,
            words,
        } => put_asked(session.as_slice(), bytes.as_slice(), words, out),
        Step::AsGave {
            number,
            session,
            bytes,
        } => put_message(
            b"asgave",
            *number,
            session.as_slice(),
            bytes.as_slice(),
            out,
        ),
        Step::AsEnd { session } => put_named(b"asend", session.as_slice(), out),
        Step::Restart { node } => put_named(b"restart", node.as_slice(), out),
        Step::Reload => out.append(b"reload"),
    }
}

#[tactic(auto, using(wire_base::proofs::FrontLemmas::kept_then))]
fn put_start(
    conv: &[u8],
    protocol: Protocol,
    role: Role,
    random: &[u8; 8],
    out: &mut Bytes,
) -> Result<(), NoMemory>
    ensures ok { OnOk result (out.new
        ≡ out.old ++ (codes "start"
        ++ (word conv.now ++ (word (protocol_name protocol)
        ++ (word (role_name role) ++ word (encode_lower random.now)))))) }
    ensures err { OnErr result (take (length out.old) out.new ≡ out.old) }
{
    put_named(b"start", conv, out)?;
    put_word(out, name_of_protocol(protocol))?;
    put_word(out, name_of_role(role))?;
    put_digits(out, random)
}

#[tactic(auto, using(wire_base::proofs::FrontLemmas::kept_then))]
fn put_message(
    title: &[u8],
    number: u32,
    name: &[u8],
    bytes: &[u8],
    out: &mut Bytes,
) -> Result<(), NoMemory>
    ensures ok { OnOk result (out.new
        ≡ out.old ++ (title.now
        ++ (word (decimal number) ++ (word name.now ++ word (encode_lower bytes.now))))) }
    ensures err { OnErr result (take (length out.old) out.new ≡ out.old) }
{
    out.append(title)?;
    put_number(out, number)?;
    put_word(out, name)?;
    put_digits(out, bytes)
}

#[tactic(auto, using(wire_base::proofs::FrontLemmas::kept_then))]
fn put_bytes(title: &[u8], name: &[u8], bytes: &[u8], out: &mut Bytes) -> Result<(), NoMemory>
    ensures ok { OnOk result (out.new
        ≡ out.old ++ (title.now ++ (word name.now ++ word (encode_lower bytes.now)))) }
    ensures err { OnErr result (take (length out.old) out.new ≡ out.old) }
{
    put_named(title, name, out)?;
    put_digits(out, bytes)
}

#[tactic(auto, using(wire_base::proofs::FrontLemmas::kept_then))]
fn put_text(title: &[u8], name: &[u8], text: &[u8], out: &mut Bytes) -> Result<(), NoMemory>
    ensures ok { OnOk result (out.new
        ≡ out.old ++ (title.now ++ (word name.now ++ word text.now))) }
    ensures err { OnErr result (take (length out.old) out.new ≡ out.old) }
{
    put_named(title, name, out)?;
    put_word(out, text)
}

#[tactic(auto, using(wire_base::proofs::FrontLemmas::kept_then))]
fn put_named(title: &[u8], name: &[u8], out: &mut Bytes) -> Result<(), NoMemory>
    ensures ok { OnOk result (out.new ≡ out.old ++ (title.now ++ word name.now)) }
    ensures err { OnErr result (take (length out.old) out.new ≡ out.old) }
{
    out.append(title)?;
    put_word(out, name)
}

#[tactic(auto, using(wire_base::proofs::FrontLemmas::kept_then))]
fn put_accept(conv: &[u8], cuid: &[u8], suid: &[u8], out: &mut Bytes) -> Result<(), NoMemory>
    ensures ok { OnOk result (out.new
        ≡ out.old ++ (codes "accept"
        ++ (word conv.now ++ (word (value_text cuid.now) ++ word (value_text suid.now))))) }
    ensures err { OnErr result (take (length out.old) out.new ≡ out.old) }
{
    put_named(b"accept", conv, out)?;
    put_value(out, cuid)?;
    put_value(out, suid)
}

#[tactic(auto, using(wire_base::proofs::FrontLemmas::kept_then))]
fn put_asked(
    session: &[u8],
    bytes: &[u8],
    words: &[[u8; 8]; 3],
    out: &mut Bytes,
) -> Result<(), NoMemory>
    ensures ok { OnOk result (out.new
        ≡ out.old ++ (codes "asgot"
        ++ (word session.now
        ++ (word (encode_lower bytes.now) ++ flat_map (λ w. word (encode_lower w)) words.now)))) }
    ensures err { OnErr result (take (length out.old) out.new ≡ out.old) }
{
    put_bytes(b"asgot", session, bytes, out)?;
    put_all_words(words, out)
}

#[tactic(auto, using(wire_base::proofs::FrontLemmas::kept_then))]
fn put_all_words(words: &[[u8; 8]], out: &mut Bytes) -> Result<(), NoMemory>
    ensures ok { OnOk result (out.new
        ≡ out.old ++ flat_map (λ w. word (encode_lower w)) words.now) }
    ensures err { OnErr result (take (length out.old) out.new ≡ out.old) }
{
    for random in words {
        put_digits(out, random)?;
    }
    Ok(())
}

fn name_of_protocol(protocol: Protocol) -> &'static [u8]
    ensures { result.now ≡ protocol_name protocol }
{
    match protocol {
        Protocol::P9sk1 => b"p9sk1",
        Protocol::P9any => b"p9any",
        Protocol::Apop => b"apop",
        Protocol::Cram => b"cram",
    }
}

fn name_of_role(role: Role) -> &'static [u8]
    ensures { result.now ≡ role_name role }
{
    match role {
        Role::Client => b"client",
        Role::Server => b"server",
        Role::Speakfor => b"speakfor",
    }
}
