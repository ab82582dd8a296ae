// Tuples as text.
ghost use Rattle.std.specs.Prelude.{◌≡◌, ◌++◌, length, take, map, OnOk, OnErr};
ghost use Rattle.attr_tuples.specs.Printing.{ending_text, attr_text, printed_text, public_text};
ghost use Rattle.attr_tuples.specs.Steps.{seen, others_text};

use crate::attr::{Attr, Value};
use crate::compare::is_secret_name;
use crate::tuple::Tuple;
use crate::value::put_value;
use wire_base::{Bytes, NoMemory};

/// Whether secrets are printed or hidden.
#[derive(Clone, Copy)]
enum Secrets {
    Printed,
    Hidden,
}

/// Appends the attributes in order, with one blank between. A value is quoted exactly where it is empty or holds
/// a blank, a tab or a `'`.
#[tactic(auto, using(crate::proofs::PrintLemmas::printed_as_is))]
pub fn print_tuple(tuple: &Tuple, out: &mut Bytes) -> Result<(), NoMemory>
    ensures ok { OnOk result (out.new ≡ out.old ++ printed_text tuple.now) }
    ensures err { OnErr result (out.new ≡ out.old) }
{
    print_seen(tuple, Secrets::Printed, out)
}

/// Appends the same, but each attribute whose name begins with `!` as its name and a `?`.
#[tactic(auto, unfolding(crate::specs::Printing::public_text))]
pub fn print_public(tuple: &Tuple, out: &mut Bytes) -> Result<(), NoMemory>
    ensures ok { OnOk result (out.new ≡ out.old ++ public_text tuple.now) }
    ensures err { OnErr result (out.new ≡ out.old) }
{
    print_seen(tuple, Secrets::Hidden, out)
}

fn print_seen(tuple: &Tuple, secrets: Secrets, out: &mut Bytes) -> Result<(), NoMemory>
    ensures ok { OnOk result (out.new ≡ out.old ++ printed_text (map (seen secrets) tuple.now)) }
    ensures err { OnErr result (out.new ≡ out.old) }
{
    let before = out.len();
    let done = append_attrs(tuple.attrs(), secrets, out);
    out.undo_on_err(before, done)
}

// What is appended before memory runs out stays, in this function and in those below.
#[tactic(auto, using(wire_base::proofs::FrontLemmas::kept_then), unfolding(crate::specs::Printing::printed_text))]
fn append_attrs(attrs: &[Attr], secrets: Secrets, out: &mut Bytes) -> Result<(), NoMemory>
    ensures ok { OnOk result (out.new ≡ out.old ++ printed_text (map (seen secrets) attrs.now)) }
    ensures err { OnErr result (take (length out.old) out.new ≡ out.old) }
{
    let [first, others @ ..] = attrs else {
        return Ok(());
    };
    append_attr(first, secrets, out)?;
    append_others(others, secrets, out)
}

// Each attribute behind a blank.
#[tactic(auto, using(wire_base::proofs::FrontLemmas::kept_then))]
fn append_others(attrs: &[Attr], secrets: Secrets, out: &mut Bytes) -> Result<(), NoMemory>
    ensures ok { OnOk result (out.new ≡ out.old ++ others_text secrets attrs.now) }
    ensures err { OnErr result (take (length out.old) out.new ≡ out.old) }
{
    for attr in attrs {
        out.push(b' ')?;
        append_attr(attr, secrets, out)?;
    }
    Ok(())
}

#[tactic(auto, using(wire_base::proofs::FrontLemmas::kept_then))]
fn append_attr(attr: &Attr, secrets: Secrets, out: &mut Bytes) -> Result<(), NoMemory>
    ensures ok { OnOk result (out.new ≡ out.old ++ attr_text (seen secrets attr.now)) }
    ensures err { OnErr result (take (length out.old) out.new ≡ out.old) }
{
    out.append(attr.name.as_slice())?;
    match secrets {
        Secrets::Hidden if is_secret_name(attr.name.as_slice()) => out.push(b'?'),
        Secrets::Hidden | Secrets::Printed => append_ending(&attr.value, out),
    }
}

#[tactic(auto, using(wire_base::proofs::FrontLemmas::kept_then))]
fn append_ending(value: &Value, out: &mut Bytes) -> Result<(), NoMemory>
    ensures ok { OnOk result (out.new ≡ out.old ++ ending_text value.now) }
    ensures err { OnErr result (take (length out.old) out.new ≡ out.old) }
{
    match value {
        Value::Is(text) => {
            out.push(b'=')?;
            put_value(text.as_slice(), out)
        }
        Value::Ask => out.push(b'?'),
        Value::Bare => Ok(()),
    }
}
