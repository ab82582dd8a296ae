// Answers printed.
ghost use Rattle.std.specs.Prelude.{◌≡◌, ◌++◌, length, take, OnOk, OnErr};
ghost use Rattle.std.specs.Fmt.{decimal};
ghost use Rattle.talks.specs.RpcAnswers.{answer_text, detail_of, title_of};
ghost use Rattle.roles.specs.Templates.{shown_text};

use crate::answer::RpcAnswer;
use attr_tuples::{Tuple, print_public, print_tuple};
use sealing::write_info;
use wire_base::{Bytes, NoMemory};

/// Appends the text of an answer. Where memory runs out, nothing is appended.
#[tactic(auto, unfolding(crate::specs::RpcAnswers::answer_text))]
pub fn print_answer(answer: &RpcAnswer, out: &mut Bytes) -> Result<(), NoMemory>
    ensures ok { OnOk result (out.new ≡ out.old ++ answer_text answer.now) }
    ensures err { OnErr result (out.new ≡ out.old) }
{
    let before = out.len();
    let done = append_answer(answer, out);
    if done.is_err() {
        out.truncate(before);
    }
    done
}

// What is appended before memory runs out stays, in this function and in those below.
#[tactic(auto, unfolding(crate::specs::RpcAnswers::answer_text), using(wire_base::proofs::FrontLemmas::kept_then))]
fn append_answer(answer: &RpcAnswer, out: &mut Bytes) -> Result<(), NoMemory>
    ensures ok { OnOk result (out.new ≡ out.old ++ answer_text answer.now) }
    ensures err { OnErr result (take (length out.old) out.new ≡ out.old) }
{
    out.append(title_of(answer))?;
    append_detail(answer, out)
}

#[tactic(auto, using(wire_base::proofs::FrontLemmas::kept_then))]
fn append_detail(answer: &RpcAnswer, out: &mut Bytes) -> Result<(), NoMemory>
    ensures ok { OnOk result (out.new ≡ out.old ++ detail_of answer.now) }
    ensures err { OnErr result (take (length out.old) out.new ≡ out.old) }
{
    match answer {
        RpcAnswer::Got(bytes) => out.append(bytes.as_slice()),
        RpcAnswer::BadKey(key) => print_public(key, out),
        RpcAnswer::TooSmall(size) => append_number(*size, out),
        RpcAnswer::NeedKey(template) => append_shown(template, out),
        RpcAnswer::Info(info) => write_info(info, out),
        RpcAnswer::Attributes(attributes) => print_public(attributes, out),
        RpcAnswer::Ok | RpcAnswer::DoneHaveai | RpcAnswer::Done => Ok(()),
        RpcAnswer::SecretInTemplate | RpcAnswer::UnknownProto | RpcAnswer::UnknownRole => Ok(()),
        RpcAnswer::BadUser | RpcAnswer::BadTemplate | RpcAnswer::WrongKind => Ok(()),
        RpcAnswer::WrongChallenge | RpcAnswer::WrongUser | RpcAnswer::NotOffered => Ok(()),
        RpcAnswer::ServerSaidNo | RpcAnswer::NoServer | RpcAnswer::TooLong => Ok(()),
        RpcAnswer::Denied | RpcAnswer::NoRoom | RpcAnswer::AwaitsRead => Ok(()),
        RpcAnswer::AwaitsWrite | RpcAnswer::Broken | RpcAnswer::NotStarted => Ok(()),
        RpcAnswer::AlreadyStarted | RpcAnswer::NoInfo => Ok(()),
    }
}

fn append_number(number: u32, out: &mut Bytes) -> Result<(), NoMemory>
    ensures ok { OnOk result (out.new ≡ out.old ++ decimal number) }
    ensures err { OnErr result (out.new ≡ out.old) }
{
    let mut buffer = itoa::Buffer::new();
    out.append(buffer.format(number).as_bytes())
}

// A template as it is shown to who is to bring a key.
#[tactic(auto, unfolding(roles::specs::Templates::shown_text), using(wire_base::proofs::FrontLemmas::kept_then))]
fn append_shown(template: &Tuple, out: &mut Bytes) -> Result<(), NoMemory>
    ensures ok { OnOk result (out.new ≡ out.old ++ shown_text template.now) }
    ensures err { OnErr result (take (length out.old) out.new ≡ out.old) }
{
    print_tuple(template, out)?;
    out.append(b" !password?".as_slice())
}

// How the text of an answer begins; of most answers it is the whole text.
pub(crate) fn title_of(answer: &RpcAnswer) -> &'static [u8]
    ensures { result.now ≡ title_of answer.now }
{
    match answer {
        RpcAnswer::Ok => b"ok".as_slice(),
        RpcAnswer::Got(_) | RpcAnswer::Info(_) | RpcAnswer::Attributes(_) => b"ok ".as_slice(),
        RpcAnswer::DoneHaveai => b"done haveai".as_slice(),
        RpcAnswer::Done => b"done".as_slice(),
        RpcAnswer::SecretInTemplate => b"error secret in template".as_slice(),
        RpcAnswer::UnknownProto => b"error unknown proto".as_slice(),
        RpcAnswer::UnknownRole => b"error unknown role".as_slice(),
        RpcAnswer::BadUser => b"error bad user".as_slice(),
        RpcAnswer::BadTemplate => b"error bad template".as_slice(),
        RpcAnswer::WrongKind => b"error wrong kind".as_slice(),
        RpcAnswer::WrongChallenge => b"error wrong challenge".as_slice(),
        RpcAnswer::WrongUser => b"error wrong user".as_slice(),
        RpcAnswer::NotOffered => b"error not offered".as_slice(),
        RpcAnswer::ServerSaidNo => b"error server said no".as_slice(),
        RpcAnswer::NoServer => b"error no server".as_slice(),
        RpcAnswer::BadKey(_) => b"badkey ".as_slice(),
        RpcAnswer::TooLong => b"error message too long".as_slice(),
        RpcAnswer::TooSmall(_) => b"toosmall ".as_slice(),
        RpcAnswer::NeedKey(_) => b"needkey ".as_slice(),
        RpcAnswer::Denied => b"error confirmation denied".as_slice(),
        RpcAnswer::NoRoom => b"error out of memory".as_slice(),
        RpcAnswer::AwaitsRead => b"phase awaits read".as_slice(),
        RpcAnswer::AwaitsWrite => b"phase awaits write".as_slice(),
        RpcAnswer::Broken => b"phase broken".as_slice(),
        RpcAnswer::NotStarted => b"protocol not started".as_slice(),
        RpcAnswer::AlreadyStarted => b"phase already started".as_slice(),
        RpcAnswer::NoInfo => b"error no authinfo available".as_slice(),
    }
}
