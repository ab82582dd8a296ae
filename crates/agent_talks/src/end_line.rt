// The lines of the log by which a conversation's start and end are told.
ghost use Rattle.std.specs.Prelude.{◌≡◌, ◌++◌, ◌≤◌, length, ℕ, List, Some, IfOk, OnOk};
ghost use Rattle.std.specs.Option.{option_to_list};
ghost use Rattle.std.specs.Fmt.{decimal};
ghost use Rattle.attr_tuples.specs.declared.attr.Attr.{Attr};
ghost use Rattle.attr_tuples.specs.Matching.{value_of};
ghost use Rattle.talks.specs.Answers.{text_or_none};
ghost use Rattle.talks.specs.Lines.{accept_line, cause_text, done_front, done_line, end_line, error_front, error_line, role_text, start_line};
ghost use Rattle.agent_talks.specs.Ends.{EndsFor};

use crate::room::LineRoom;
use attr_tuples::{Tuple, put_value, value_of};
use roles::{Cause, Outcome};
use std::alloc::Global;
use wire_base::{Bytes, Name, NoMemory};

/// How many bytes may stand behind the front of a line: a user in quotes, his name and the newline.
const MOST_REST: usize = 64;

/// The fronts of the lines by which the end of a conversation is told, with room for their rest: so its end is told without
/// memory.
#[derive(Drop)]
pub struct EndLine {
    done: LineRoom,
    error: LineRoom,
}

impl EndLine {
    /// Those of the conversation of a number that is started by a template.
    pub fn new(alloc: Global, conv: u64, template: &Tuple) -> Result<EndLine, NoMemory>
        ensures { IfOk result (λ line. EndsFor conv template.now line) }
    {
        let done = build_done(alloc, conv, template)?;
        let error = build_error(alloc, conv)?;
        Ok(EndLine {
            done: LineRoom::new(done, MOST_REST)?,
            error: LineRoom::new(error, MOST_REST)?,
        })
    }

    /// The line of this outcome, where it is an end. It takes no memory.
    pub fn tell(self, outcome: &Outcome) -> Option<Bytes>
        requires done { self.done.left ≡ 64 }
        requires error { self.error.left ≡ 64 }
        ensures { (conv : ℕ) (template : List Attr) → EndsFor conv template self
            → option_to_list result ≡ end_line conv template (Some outcome.now) }
    {
        match outcome {
            Outcome::Running => None,
            Outcome::Accepted(info) => Some(tell_accepted(self.done, &info.suid)),
            Outcome::Finished => Some(tell_done(self.done)),
            Outcome::Broken(cause) => Some(tell_error(self.error, *cause)),
        }
    }
}

fn tell_accepted(mut line: LineRoom, user: &Name<28>) -> Bytes
    requires { line.left ≡ 64 }
    ensures { (conv : ℕ) (template : List Attr) → line.text ≡ done_front conv template
        → result ≡ accept_line conv template user.now }
{
    line.append(b" user=".as_slice());
    line.put_value(user.text());
    line.push(b'\n');
    line.finish()
}

fn tell_done(mut line: LineRoom) -> Bytes
    requires { line.left ≡ 64 }
    ensures { (conv : ℕ) (template : List Attr) → line.text ≡ done_front conv template
        → result ≡ done_line conv template }
{
    line.push(b'\n');
    line.finish()
}

fn tell_error(mut line: LineRoom, cause: Cause) -> Bytes
    requires { line.left ≡ 64 }
    ensures { (conv : ℕ) → line.text ≡ error_front conv → result ≡ error_line conv cause }
{
    line.append(cause_text(cause));
    line.push(b'\n');
    line.finish()
}

// Why a role broke, as the log tells it.
fn cause_text(cause: Cause) -> &'static [u8]
    ensures text { result.now ≡ cause_text cause }
    ensures short { length result.now ≤ 32 }
{
    match cause {
        Cause::WrongKind => b"wrong kind".as_slice(),
        Cause::WrongChallenge => b"wrong challenge".as_slice(),
        Cause::WrongUser => b"wrong user".as_slice(),
        Cause::NotOffered => b"not offered".as_slice(),
        Cause::ServerSaidNo => b"server said no".as_slice(),
        Cause::NoServer => b"no server".as_slice(),
        Cause::NoRoom => b"out of memory".as_slice(),
        Cause::BadKey => b"badkey".as_slice(),
    }
}

/// The line by which the start of the conversation of a number is told.
pub fn build_start(alloc: Global, conv: u64, template: &Tuple) -> Result<Bytes, NoMemory>
    ensures { IfOk result (λ line. line ≡ start_line conv template.now) }
{
    let mut line = Bytes::new(alloc);
    put_number(conv, &mut line)?;
    line.append(b" start".as_slice())?;
    put_role(template, &mut line)?;
    line.push(b'\n')?;
    Ok(line)
}

fn build_done(alloc: Global, conv: u64, template: &Tuple) -> Result<Bytes, NoMemory>
    ensures { IfOk result (λ line. line ≡ done_front conv template.now) }
{
    let mut line = Bytes::new(alloc);
    put_number(conv, &mut line)?;
    line.append(b" done".as_slice())?;
    put_role(template, &mut line)?;
    Ok(line)
}

fn build_error(alloc: Global, conv: u64) -> Result<Bytes, NoMemory>
    ensures { IfOk result (λ line. line ≡ error_front conv) }
{
    let mut line = Bytes::new(alloc);
    put_number(conv, &mut line)?;
    line.append(b" error ".as_slice())?;
    Ok(line)
}

fn put_number(number: u64, out: &mut Bytes) -> Result<(), NoMemory>
    ensures { OnOk result (out.new ≡ out.old ++ decimal number) }
{
    let mut buffer = itoa::Buffer::new();
    out.append(buffer.format(number).as_bytes())
}

// The protocol and the role that a start names.
fn put_role(template: &Tuple, out: &mut Bytes) -> Result<(), NoMemory>
    ensures { OnOk result (out.new ≡ out.old ++ role_text template.now) }
{
    out.append(b" proto=".as_slice())?;
    put_value(value_or_none(template, b"proto".as_slice()), out)?;
    out.append(b" role=".as_slice())?;
    put_value(value_or_none(template, b"role".as_slice()), out)
}

// The first value of a name, or no bytes.
fn value_or_none<'a>(template: &'a Tuple, name: &[u8]) -> &'a [u8]
    ensures { result.now ≡ text_or_none (value_of name.now template.now) }
{
    match value_of(template, name) {
        Some(value) => value.as_slice(),
        None => &[],
    }
}
