// Tuples of attributes: how they are read, printed, matched, merged and compared.
use crate::fields::{Came, bytes_at, text_of, verb_of};
use attr_tuples::{
    Attr, Tuple, Value, has_name, is_named, is_secret_name, matches, merge, parse_tuple,
    print_public, print_tuple, public_equal, value_of,
};
use row_files::{Report, Row};
use std::alloc::Global;
use wire_base::Bytes;

pub(crate) fn play(
    alloc: Global,
    file: &str,
    rows: &[Row],
    report: &mut Report,
) -> anyhow::Result<()> {
    for row in rows {
        let mut came = Came::new(alloc);
        answer(alloc, row, &mut came)?;
        report.compare(alloc, file, row, came.fields())?;
    }
    Ok(())
}

fn answer(alloc: Global, row: &Row, came: &mut Came) -> anyhow::Result<()> {
    match verb_of(row) {
        "read" => read(alloc, bytes_at(row, 1), came),
        "match" | "public" | "merge" => join(alloc, row, came),
        "has" | "first" | "value" => ask(alloc, row, came),
        "secret" => Ok(came.flag(is_secret_name(bytes_at(row, 1)))?),
        "hide" => hide(alloc, bytes_at(row, 1), bytes_at(row, 2), came),
        "print" => print(alloc, &row.given, came),
        "quote" => quote(alloc, bytes_at(row, 1), came),
        "takes-name" => takes(alloc, bytes_at(row, 1), Value::Ask, came),
        "takes-value" => takes(
            alloc,
            b"a",
            Value::Is(text_of(alloc, bytes_at(row, 1))?),
            came,
        ),
        "fill" => fill(alloc, row.number(1).unwrap_or(0), came),
        _ => Ok(came.word("no such verb")?),
    }
}

// How a tuple is printed.
fn printed(alloc: Global, tuple: &Tuple) -> anyhow::Result<Bytes> {
    let mut out = Bytes::new(alloc);
    print_tuple(tuple, &mut out)?;
    Ok(out)
}

// A text is read and printed, and what was printed is read and printed as it stands.
fn read(alloc: Global, text: &[u8], came: &mut Came) -> anyhow::Result<()> {
    match parse_tuple(alloc, text) {
        Ok(tuple) => {
            let out = printed(alloc, &tuple)?;
            came.word("tuple")?;
            came.bytes(out.as_slice())?;
            read_again(alloc, out.as_slice(), came)
        }
        Err(fault) => came.shown(&fault),
    }
}

fn read_again(alloc: Global, text: &[u8], came: &mut Came) -> anyhow::Result<()> {
    match parse_tuple(alloc, text) {
        Ok(tuple) => {
            let out = printed(alloc, &tuple)?;
            if out.as_slice() != text {
                came.bytes(out.as_slice())?;
            }
            Ok(())
        }
        Err(fault) => came.shown(&fault),
    }
}

// Two tuples are matched, compared in public both ways, or merged.
fn join(alloc: Global, row: &Row, came: &mut Came) -> anyhow::Result<()> {
    let left = tuple_at(alloc, row, 1)?;
    let right = tuple_at(alloc, row, 2)?;
    joined(alloc, verb_of(row), &left, &right, came)
}

fn joined(
    alloc: Global,
    verb: &str,
    left: &Tuple,
    right: &Tuple,
    came: &mut Came,
) -> anyhow::Result<()> {
    match verb {
        "match" => came.flag(matches(left, right))?,
        "public" => {
            came.flag(public_equal(left, right))?;
            came.flag(public_equal(right, left))?;
        }
        _ => match merge(left, right) {
            Ok(tuple) => came.bytes(printed(alloc, &tuple)?.as_slice())?,
            Err(fault) => came.shown(&fault)?,
        },
    }
    Ok(())
}

/// The tuple that a field spells.
pub(crate) fn tuple_at(alloc: Global, row: &Row, at: usize) -> anyhow::Result<Tuple> {
    match parse_tuple(alloc, bytes_at(row, at)) {
        Ok(tuple) => Ok(tuple),
        Err(_) => anyhow::bail!("line {}: field {} is no tuple", row.line, at),
    }
}

// A tuple is asked for a name: whether it has it, whether its first attribute is called so, and for the value.
fn ask(alloc: Global, row: &Row, came: &mut Came) -> anyhow::Result<()> {
    let tuple = tuple_at(alloc, row, 1)?;
    asked(verb_of(row), &tuple, bytes_at(row, 2), came)
}

fn asked(verb: &str, tuple: &Tuple, name: &[u8], came: &mut Came) -> anyhow::Result<()> {
    match verb {
        "has" => came.flag(has_name(tuple.attrs(), name))?,
        "first" => match tuple.attrs().first() {
            Some(attr) => came.flag(is_named(attr, name))?,
            None => came.word("no attribute")?,
        },
        _ => match value_of(tuple, name) {
            Some(text) => {
                came.word("is")?;
                came.bytes(text.as_slice())?;
            }
            None => came.word("none")?,
        },
    }
    Ok(())
}

// What the public text of a copy of a tuple adds to bytes.
fn hide(alloc: Global, front: &[u8], text: &[u8], came: &mut Came) -> anyhow::Result<()> {
    match parse_tuple(alloc, text) {
        Ok(tuple) => hide_copy(alloc, front, &tuple, came),
        Err(fault) => came.shown(&fault),
    }
}

fn hide_copy(alloc: Global, front: &[u8], tuple: &Tuple, came: &mut Came) -> anyhow::Result<()> {
    let copy = tuple.copy()?;
    public_behind(alloc, front, &copy, came)
}

fn public_behind(
    alloc: Global,
    front: &[u8],
    tuple: &Tuple,
    came: &mut Came,
) -> anyhow::Result<()> {
    let mut out = Bytes::from_slice(alloc, front)?;
    print_public(tuple, &mut out)?;
    Ok(came.bytes(out.as_slice())?)
}

// Puts an attribute into a tuple; whether it takes it.
fn push(alloc: Global, tuple: &mut Tuple, name: &[u8], value: Value) -> anyhow::Result<bool> {
    let name = text_of(alloc, name)?;
    Ok(tuple.push(Attr { name, value })?)
}

// A tuple of names, with a question where `?` stands behind, is printed, and printed in public.
fn print(alloc: Global, given: &[Bytes], came: &mut Came) -> anyhow::Result<()> {
    let mut tuple = Tuple::new(alloc);
    for word in given.iter().skip(1) {
        match word.as_slice().strip_suffix(b"?".as_slice()) {
            Some(name) => push(alloc, &mut tuple, name, Value::Ask)?,
            None => push(alloc, &mut tuple, word.as_slice(), Value::Bare)?,
        };
    }
    came.bytes(printed(alloc, &tuple)?.as_slice())?;
    public_behind(alloc, b"", &tuple, came)
}

// The public text of a value of the name `n`.
fn quote(alloc: Global, value: &[u8], came: &mut Came) -> anyhow::Result<()> {
    let value = Value::Is(text_of(alloc, value)?);
    let mut tuple = Tuple::new(alloc);
    came.flag(push(alloc, &mut tuple, b"n", value)?)?;
    public_behind(alloc, b"", &tuple, came)
}

// Whether an empty tuple takes an attribute, and how many it holds then.
fn takes(alloc: Global, name: &[u8], value: Value, came: &mut Came) -> anyhow::Result<()> {
    let mut tuple = Tuple::new(alloc);
    came.flag(push(alloc, &mut tuple, name, value)?)?;
    came.count(tuple.attrs().len())
}

// How many attributes a tuple takes in a row, whether it takes one behind those that it refused, and how many it holds.
fn fill(alloc: Global, count: u64, came: &mut Came) -> anyhow::Result<()> {
    let mut tuple = Tuple::new(alloc);
    let mut taken: u64 = 0;
    let mut refused: u64 = 0;
    for _ in 0..count {
        if !push(alloc, &mut tuple, b"a", Value::Bare)? {
            refused = refused.saturating_add(1);
        } else if refused == 0 {
            taken = taken.saturating_add(1);
        }
    }
    came.number(taken)?;
    came.number(refused)?;
    came.count(tuple.attrs().len())
}
