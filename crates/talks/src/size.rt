// The sizes of answers' texts, without their making: each function says what a text leaves of a budget of bytes.
ghost use Rattle.std.specs.Prelude.{◌≡◌, [], nat_le, length, map};
ghost use Rattle.std.specs.Fmt.{decimal};
ghost use Rattle.std.specs.Int.{w16};
ghost use Rattle.std.specs.List.{list_any};
ghost use Rattle.attr_tuples.specs.Words.{ends_unquoted, needs_quotes, quoted, quoted_byte, value_text};
ghost use Rattle.attr_tuples.specs.Printing.{attr_text, ending_text, printed_text, public_text};
ghost use Rattle.wire_base.specs.Readers.{counted};
ghost use Rattle.sealing.specs.Info.{info_text};
ghost use Rattle.roles.specs.Templates.{shown_text};
ghost use Rattle.talks.specs.RpcAnswers.{answer_text, detail_of};
ghost use Rattle.talks.specs.Sizes.{behind, left, others_text, seen};

use crate::answer::RpcAnswer;
use crate::print::title_of;
use attr_tuples::{Attr, Tuple, Value, is_secret_name};
use wire_base::AuthInfo;

/// Whether secrets are printed or hidden.
#[derive(Clone, Copy)]
enum Secrets {
    Printed,
    Hidden,
}

/// Whether the text of an answer has at most so many bytes. It takes no memory.
#[tactic(auto, using(crate::proofs::SizeLemmas::fits_budget))]
pub fn answer_fits(answer: &RpcAnswer, most: u32) -> bool
    ensures { result ≡ nat_le (length (answer_text answer.now)) most }
{
    spend_answer(Some(most as usize), answer).is_some()
}

#[tactic(auto, unfolding(crate::specs::RpcAnswers::answer_text), using(crate::proofs::SizeLemmas::behind_both))]
fn spend_answer(budget: Option<usize>, answer: &RpcAnswer) -> Option<usize>
    ensures { result ≡ behind budget (answer_text answer.now) }
{
    let budget = spend_text(budget, title_of(answer));
    spend_detail(budget, answer)
}

fn spend_detail(budget: Option<usize>, answer: &RpcAnswer) -> Option<usize>
    ensures { result ≡ behind budget (detail_of answer.now) }
{
    match answer {
        RpcAnswer::Got(bytes) => spend_text(budget, bytes.as_slice()),
        RpcAnswer::BadKey(key) => spend_public(budget, key),
        RpcAnswer::TooSmall(size) => spend_number(budget, *size),
        RpcAnswer::NeedKey(template) => spend_shown(budget, template),
        RpcAnswer::Info(info) => spend_info(budget, info),
        RpcAnswer::Attributes(attributes) => spend_public(budget, attributes),
        RpcAnswer::Ok | RpcAnswer::DoneHaveai | RpcAnswer::Done => spend_none(budget),
        RpcAnswer::SecretInTemplate | RpcAnswer::UnknownProto | RpcAnswer::UnknownRole => {
            spend_none(budget)
        }
        RpcAnswer::BadUser | RpcAnswer::BadTemplate | RpcAnswer::WrongKind => spend_none(budget),
        RpcAnswer::WrongChallenge | RpcAnswer::WrongUser | RpcAnswer::NotOffered => {
            spend_none(budget)
        }
        RpcAnswer::ServerSaidNo | RpcAnswer::NoServer | RpcAnswer::TooLong => spend_none(budget),
        RpcAnswer::Denied | RpcAnswer::NoRoom | RpcAnswer::AwaitsRead => spend_none(budget),
        RpcAnswer::AwaitsWrite | RpcAnswer::Broken | RpcAnswer::NotStarted => spend_none(budget),
        RpcAnswer::AlreadyStarted | RpcAnswer::NoInfo => spend_none(budget),
    }
}

// What is left of a budget when so much of it is spent.
fn spend(budget: Option<usize>, size: usize) -> Option<usize>
    ensures { result ≡ left budget size }
{
    match budget {
        Some(most) if size <= most => Some(most - size),
        Some(_) | None => None,
    }
}

#[tactic(auto, unfolding(crate::specs::Sizes::behind))]
fn spend_text(budget: Option<usize>, text: &[u8]) -> Option<usize>
    ensures { result ≡ behind budget text.now }
{
    spend(budget, text.len())
}

fn spend_none(budget: Option<usize>) -> Option<usize>
    ensures { result ≡ behind budget [] }
{
    spend_text(budget, b"".as_slice())
}

fn spend_number(budget: Option<usize>, number: u32) -> Option<usize>
    ensures { result ≡ behind budget (decimal number) }
{
    let mut buffer = itoa::Buffer::new();
    spend_text(budget, buffer.format(number).as_bytes())
}

// Two names and a secret of eight bytes, each with its length, and the length of no capability.
#[tactic(auto, unfolding(sealing::specs::Info::info_text), using(crate::proofs::SizeLemmas::behind_both))]
fn spend_info(budget: Option<usize>, info: &AuthInfo) -> Option<usize>
    ensures { result ≡ behind budget (info_text info.now) }
{
    let budget = spend_counted(budget, info.cuid.text());
    let budget = spend_counted(budget, info.suid.text());
    let budget = spend_counted(budget, b"".as_slice());
    spend_counted(budget, &info.secret)
}

// Bytes with their length in two bytes in front.
#[tactic(auto, unfolding(crate::specs::Sizes::behind), using(crate::proofs::SizeLemmas::behind_counted))]
fn spend_counted(budget: Option<usize>, bytes: &[u8]) -> Option<usize>
    ensures { result ≡ behind budget (counted w16 bytes.now) }
{
    let budget = spend(budget, 2);
    spend(budget, bytes.len())
}

// A template as it is shown to who is to bring a key.
#[tactic(auto, unfolding(roles::specs::Templates::shown_text), using(crate::proofs::SizeLemmas::behind_both, crate::proofs::SizeLemmas::seen_as_is))]
fn spend_shown(budget: Option<usize>, template: &Tuple) -> Option<usize>
    ensures { result ≡ behind budget (shown_text template.now) }
{
    let budget = spend_seen(budget, template.attrs(), Secrets::Printed);
    spend_text(budget, b" !password?".as_slice())
}

#[tactic(auto, unfolding(attr_tuples::specs::Printing::public_text))]
fn spend_public(budget: Option<usize>, tuple: &Tuple) -> Option<usize>
    ensures { result ≡ behind budget (public_text tuple.now) }
{
    spend_seen(budget, tuple.attrs(), Secrets::Hidden)
}

#[tactic(auto, using(crate::proofs::SizeLemmas::behind_both), unfolding(attr_tuples::specs::Printing::printed_text))]
fn spend_seen(budget: Option<usize>, attrs: &[Attr], secrets: Secrets) -> Option<usize>
    ensures { result ≡ behind budget (printed_text (map (seen secrets) attrs.now)) }
{
    let [first, others @ ..] = attrs else {
        return spend_none(budget);
    };
    let budget = spend_attr(budget, first, secrets);
    spend_others(budget, others, secrets)
}

// Each attribute behind a blank.
#[tactic(auto, using(crate::proofs::SizeLemmas::behind_both))]
fn spend_others(budget: Option<usize>, attrs: &[Attr], secrets: Secrets) -> Option<usize>
    ensures { result ≡ behind budget (others_text secrets attrs.now) }
{
    let mut left = budget;
    for attr in attrs {
        left = spend_text(left, b" ".as_slice());
        left = spend_attr(left, attr, secrets);
    }
    left
}

#[tactic(auto, using(crate::proofs::SizeLemmas::behind_both))]
fn spend_attr(budget: Option<usize>, attr: &Attr, secrets: Secrets) -> Option<usize>
    ensures { result ≡ behind budget (attr_text (seen secrets attr.now)) }
{
    let budget = spend_text(budget, attr.name.as_slice());
    match secrets {
        Secrets::Hidden if is_secret_name(attr.name.as_slice()) => {
            spend_text(budget, b"?".as_slice())
        }
        Secrets::Hidden | Secrets::Printed => spend_ending(budget, &attr.value),
    }
}

#[tactic(auto, using(crate::proofs::SizeLemmas::behind_both))]
fn spend_ending(budget: Option<usize>, value: &Value) -> Option<usize>
    ensures { result ≡ behind budget (ending_text value.now) }
{
    match value {
        Value::Is(text) => {
            let budget = spend_text(budget, b"=".as_slice());
            spend_value(budget, text.as_slice())
        }
        Value::Ask => spend_text(budget, b"?".as_slice()),
        Value::Bare => spend_none(budget),
    }
}

fn spend_value(budget: Option<usize>, text: &[u8]) -> Option<usize>
    ensures { result ≡ behind budget (value_text text.now) }
{
    if check_needs_quotes(text) {
        return spend_quoted(budget, text);
    }
    spend_text(budget, text)
}

fn check_needs_quotes(text: &[u8]) -> bool
    ensures { result ≡ needs_quotes text.now }
{
    text.is_empty() || holds_end(text)
}

fn holds_end(text: &[u8]) -> bool
    ensures { result ≡ list_any ends_unquoted text.now }
{
    text.iter()
        .any(|byte| *byte == b' ' || *byte == b'\t' || *byte == b'\'')
}

#[tactic(auto, using(crate::proofs::SizeLemmas::behind_both))]
fn spend_quoted(budget: Option<usize>, text: &[u8]) -> Option<usize>
    ensures { result ≡ behind budget (quoted text.now) }
{
    let mut left = spend_text(budget, b"'".as_slice());
    for byte in text {
        left = spend_quoted_byte(left, *byte);
    }
    spend_text(left, b"'".as_slice())
}

// A `'` is written twice.
#[tactic(auto, unfolding(crate::specs::Sizes::behind))]
fn spend_quoted_byte(budget: Option<usize>, byte: u8) -> Option<usize>
    ensures { result ≡ behind budget (quoted_byte byte) }
{
    if byte == b'\'' {
        return spend(budget, 2);
    }
    spend(budget, 1)
}
