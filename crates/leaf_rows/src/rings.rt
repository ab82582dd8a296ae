// Rings of keys: which keys they take, what they show, find, offer and delete, and what writes of ctl do to them.
use crate::counted_ring::CountedRing;
use crate::fields::{Came, bytes_at, number_at, text_at, text_of, verb_of};
use anyhow::bail;
use attr_tuples::{Attr, Tuple, Value};
use key_lists::{Edit, EditList};
use key_ring::{Key, KeyRing, ListedRing};
use row_files::{Report, Row};
use std::alloc::Global;
use wire_base::Bytes;

pub(crate) fn play(
    alloc: Global,
    file: &str,
    rows: &[Row],
    report: &mut Report,
) -> anyhow::Result<()> {
    let mut ring = CountedRing::new(alloc);
    for row in rows {
        if verb_of(row) == "ring" {
            ring = CountedRing::new(alloc);
            continue;
        }
        let mut came = Came::new(alloc);
        step(alloc, &mut ring, row, &mut came)?;
        report.compare(alloc, file, row, came.fields())?;
    }
    Ok(())
}

fn step(alloc: Global, ring: &mut CountedRing, row: &Row, came: &mut Came) -> anyhow::Result<()> {
    match verb_of(row) {
        "key" => {
            came.shown(&ring.add(tuple_of(alloc, bytes_at(row, 1))?)?)?;
            came.count(ring.keys().len())
        }
        "keys" => add_many(alloc, ring, row, came),
        "write" => ring.write(alloc, bytes_at(row, 1), came),
        "write-many" => ring.write(alloc, many_lines(alloc, row)?.as_slice(), came),
        "delete" => delete(alloc, ring, bytes_at(row, 1), came),
        "edit" => edit(alloc, &row.given, came),
        "listed" => list(alloc, bytes_at(row, 1), came),
        _ => look(alloc, ring.keys(), row, came),
    }
}

fn look(alloc: Global, ring: &KeyRing, row: &Row, came: &mut Came) -> anyhow::Result<()> {
    match verb_of(row) {
        "shows" => show(alloc, ring, came),
        "find" | "behind" | "offers" | "offered" => {
            let template = tuple_of(alloc, bytes_at(row, 1))?;
            search(alloc, ring, &template, row, came)
        }
        "serials" => {
            let dom = match row.given.get(2) {
                Some(dom) => Some(dom.as_slice()),
                None => None,
            };
            number(ring.serials_of(bytes_at(row, 1), dom), came)
        }
        "facts" => facts(ring, &tuple_of(alloc, bytes_at(row, 1))?, came),
        "des" => des(ring, &tuple_of(alloc, b"user?")?, came),
        _ => Ok(came.word("no such verb")?),
    }
}

// The attribute of a word without quotes.
fn attr_of(alloc: Global, word: &[u8]) -> anyhow::Result<Attr> {
    if let Some(at) = word.iter().position(|byte| *byte == b'=') {
        let (name, rest) = word.split_at(at);
        let name = text_of(alloc, name)?;
        let value = Value::Is(text_of(alloc, rest.split_at(1).1)?);
        return Ok(Attr { name, value });
    }
    let (name, value) = match word.strip_suffix(b"?".as_slice()) {
        Some(name) => (name, Value::Ask),
        None => (word, Value::Bare),
    };
    let name = text_of(alloc, name)?;
    Ok(Attr { name, value })
}

// The tuple of words with one blank between.
fn tuple_of(alloc: Global, line: &[u8]) -> anyhow::Result<Tuple> {
    let mut tuple = Tuple::new(alloc);
    for word in line.split(|byte| *byte == b' ') {
        if !tuple.push(attr_of(alloc, word)?)? {
            bail!("no tuple");
        }
    }
    Ok(tuple)
}

// A key is added for each of a range of numbers, which stands between two texts.
fn add_many(
    alloc: Global,
    ring: &mut CountedRing,
    row: &Row,
    came: &mut Came,
) -> anyhow::Result<()> {
    for number in number_at(row, 1)?..number_at(row, 2)? {
        let line = format!(in alloc; "{}{number}{}", text_at(row, 3), text_at(row, 4))?;
        if ring.add(tuple_of(alloc, line.as_bytes())?)?.is_err() {
            bail!("no key: {}", line.as_str());
        }
    }
    came.count(ring.keys().len())
}

// A line for each number below a count, with three letters that tell the number between two texts.
fn many_lines(alloc: Global, row: &Row) -> anyhow::Result<Bytes> {
    let mut lines = Bytes::new(alloc);
    for number in 0..number_at(row, 1)? {
        lines.append(bytes_at(row, 2))?;
        lines.push(b'A' + (number / 1024 % 32) as u8)?;
        lines.push(b'A' + (number / 32 % 32) as u8)?;
        lines.push(b'A' + (number % 32) as u8)?;
        lines.append(bytes_at(row, 3))?;
    }
    Ok(lines)
}

// What the deletion of the keys of a template answers, and how many are gone.
fn delete(
    alloc: Global,
    ring: &mut CountedRing,
    template: &[u8],
    came: &mut Came,
) -> anyhow::Result<()> {
    let template = tuple_of(alloc, template)?;
    let before = ring.keys().len();
    came.shown(&ring.delete(&template))?;
    came.count(before.saturating_sub(ring.keys().len()))
}

// What ctl shows of a ring.
fn show(alloc: Global, ring: &KeyRing, came: &mut Came) -> anyhow::Result<()> {
    let mut out = Bytes::new(alloc);
    ring.list_text(&mut out)?;
    Ok(came.bytes(out.as_slice())?)
}

// The number of the first key of a template and a role, or of the next behind a number; or what is offered for them.
fn search(
    alloc: Global,
    ring: &KeyRing,
    template: &Tuple,
    row: &Row,
    came: &mut Came,
) -> anyhow::Result<()> {
    let role = bytes_at(row, 2);
    match verb_of(row) {
        "find" => came.shown(&serial_of(ring.find(template, role))),
        "behind" => {
            let behind = number_at(row, 3)?;
            came.shown(&serial_of(ring.next_after(template, role, behind)))
        }
        verb => offer(alloc, ring, template, role, verb == "offers", came),
    }
}

// How many numbers there are, and each of them.
fn number(serials: &[u64], came: &mut Came) -> anyhow::Result<()> {
    came.count(serials.len())?;
    for serial in serials {
        came.number(*serial)?;
    }
    Ok(())
}

fn serial_of(key: Option<&Key>) -> Option<u64> {
    key.map(|key| key.serial())
}

// How many domains are offered, and their text or its length.
fn offer(
    alloc: Global,
    ring: &KeyRing,
    template: &Tuple,
    role: &[u8],
    is_told: bool,
    came: &mut Came,
) -> anyhow::Result<()> {
    let mut out = Bytes::from_slice(alloc, b">")?;
    came.count(ring.offers(template, role, &mut out)?)?;
    if is_told {
        Ok(came.bytes(out.as_slice())?)
    } else {
        came.count(out.len().saturating_sub(1))
    }
}

// What a client's key of a template has: user, domain, password, number and how many attributes.
fn facts(ring: &KeyRing, template: &Tuple, came: &mut Came) -> anyhow::Result<()> {
    let Some(key) = ring.find(template, b"client") else {
        return Ok(came.word("no key")?);
    };
    came.bytes(key.user().as_slice())?;
    came.bytes(key.dom().map_or(b"-".as_slice(), |dom| dom.as_slice()))?;
    came.bytes(
        key.password()
            .map_or(b"-".as_slice(), |text| text.as_slice()),
    )?;
    came.number(key.serial())?;
    came.count(key.tuple().attrs().len())
}

// The DES key of a client's key of a template.
fn des(ring: &KeyRing, template: &Tuple, came: &mut Came) -> anyhow::Result<()> {
    match ring.find(template, b"client") {
        Some(key) => came.digits(&key.des().0),
        None => Ok(came.word("no key")?),
    }
}

// Edits of a new ring: how many keys they add, how many are carried out, what refuses one, and what the ring shows.
fn edit(alloc: Global, given: &[Bytes], came: &mut Came) -> anyhow::Result<()> {
    let mut edits = EditList::new(alloc);
    for line in given.iter().skip(1) {
        edits.push(edit_of(alloc, line.as_slice())?)?;
    }
    came.count(edits.additions())?;
    edit_all(alloc, edits, came)
}

fn edit_of(alloc: Global, line: &[u8]) -> anyhow::Result<Edit> {
    match line.strip_prefix(b"delete ".as_slice()) {
        Some(template) => Ok(Edit::Delete(tuple_of(alloc, template)?)),
        None => Ok(Edit::Add(tuple_of(alloc, line)?)),
    }
}

fn edit_all(alloc: Global, edits: EditList, came: &mut Came) -> anyhow::Result<()> {
    let mut ring = KeyRing::new(alloc);
    if edits.len() > 100 {
        bail!("too many edits");
    }
    let batch = ring.edit_all(edits)?;
    came.count(batch.count)?;
    came.shown(&batch.refused)?;
    show(alloc, &ring, came)
}

// A ring that keeps its list while it is read: what a write answers; the list that was read before; two that are read
// after; one of these that is shared when the ring has forgotten it; and how many keys the ring holds.
fn list(alloc: Global, content: &[u8], came: &mut Came) -> anyhow::Result<()> {
    let mut ring = ListedRing::new(alloc);
    let empty = ring.text(alloc)?;
    if content.len() > 1000 {
        bail!("a long write");
    }
    came.shown(&ring.write(alloc, content)?.fault)?;
    came.bytes(empty.as_slice())?;
    read_lists(alloc, &mut ring, came)?;
    came.count(ring.keys().len())
}

fn read_lists(alloc: Global, ring: &mut ListedRing, came: &mut Came) -> anyhow::Result<()> {
    let text = ring.text(alloc)?;
    came.bytes(text.as_slice())?;
    came.bytes(ring.text(alloc)?.as_slice())?;
    ring.forget();
    Ok(came.bytes(text.share()?.as_slice())?)
}
