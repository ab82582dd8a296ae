// Frames of 9P, as rows have them in words: a message's name, its tag and its fields in their order.
use crate::named::Names;
use crate::tree_files::{put_qid, put_record};
use crate::unlike::Unlike;
use std::alloc::Global;
use std::str::from_utf8;
use wire_base::{Bytes, put_str, put_u16, put_u32};

/// What stands in a message.
#[derive(Clone, Copy, PartialEq, Eq)]
enum Part {
    Byte,
    Short,
    Number,
    Long,
    /// A text behind its length.
    Text,
    /// All fields from here on, as one text behind its length of four bytes.
    Data,
    /// All fields from here on, each a text behind its length, behind their number.
    Names,
    /// The qid of a file.
    Qid,
    /// All fields from here on, each the qid of a file, behind their number.
    Qids,
    /// Four zeros, which no field says.
    Zeros,
    /// The record of a file, behind its length.
    Record,
}

/// A message: its name, its kind and its parts.
struct Layout {
    name: &'static str,
    kind: u8,
    parts: &'static [Part],
}

static LAYOUTS: [Layout; 24] = [
    Layout {
        name: "Tversion",
        kind: 100,
        parts: &[Part::Number, Part::Text],
    },
    Layout {
        name: "Rversion",
        kind: 101,
        parts: &[Part::Number, Part::Text],
    },
    Layout {
        name: "Tauth",
        kind: 102,
        parts: &[Part::Number, Part::Text, Part::Text],
    },
    Layout {
        name: "Rauth",
        kind: 103,
        parts: &[Part::Qid],
    },
    Layout {
        name: "Tattach",
        kind: 104,
        parts: &[Part::Number, Part::Number, Part::Text, Part::Text],
    },
    Layout {
        name: "Rattach",
        kind: 105,
        parts: &[Part::Qid],
    },
    Layout {
        name: "Rerror",
        kind: 107,
        parts: &[Part::Text],
    },
    Layout {
        name: "Tflush",
        kind: 108,
        parts: &[Part::Short],
    },
    Layout {
        name: "Rflush",
        kind: 109,
        parts: &[],
    },
    Layout {
        name: "Twalk",
        kind: 110,
        parts: &[Part::Number, Part::Number, Part::Names],
    },
    Layout {
        name: "Rwalk",
        kind: 111,
        parts: &[Part::Qids],
    },
    Layout {
        name: "Topen",
        kind: 112,
        parts: &[Part::Number, Part::Byte],
    },
    Layout {
        name: "Ropen",
        kind: 113,
        parts: &[Part::Qid, Part::Zeros],
    },
    Layout {
        name: "Tcreate",
        kind: 114,
        parts: &[Part::Number, Part::Text, Part::Number, Part::Byte],
    },
    Layout {
        name: "Tread",
        kind: 116,
        parts: &[Part::Number, Part::Long, Part::Number],
    },
    Layout {
        name: "Rread",
        kind: 117,
        parts: &[Part::Data],
    },
    Layout {
        name: "Twrite",
        kind: 118,
        parts: &[Part::Number, Part::Long, Part::Data],
    },
    Layout {
        name: "Rwrite",
        kind: 119,
        parts: &[Part::Number],
    },
    Layout {
        name: "Tclunk",
        kind: 120,
        parts: &[Part::Number],
    },
    Layout {
        name: "Rclunk",
        kind: 121,
        parts: &[],
    },
    Layout {
        name: "Tremove",
        kind: 122,
        parts: &[Part::Number],
    },
    Layout {
        name: "Tstat",
        kind: 124,
        parts: &[Part::Number],
    },
    Layout {
        name: "Rstat",
        kind: 125,
        parts: &[Part::Record],
    },
    Layout {
        name: "Twstat",
        kind: 126,
        parts: &[Part::Number, Part::Text],
    },
];

// The message of a name.
fn layout_of(name: &[u8]) -> Result<&'static Layout, Unlike> {
    for layout in &LAYOUTS {
        if layout.name.as_bytes() == name {
            return Ok(layout);
        }
    }
    Err(Unlike::Frame)
}

/// The number that a field spells: in decimal, or `notag` or `nofid`.
pub(crate) fn number_of(field: &[u8]) -> Result<u64, Unlike> {
    if field == b"notag".as_slice() {
        return Ok(u64::from(u16::MAX));
    }
    if field == b"nofid".as_slice() {
        return Ok(u64::from(u32::MAX));
    }
    match from_utf8(field) {
        Ok(digits) => digits.parse::<u64>().map_err(|_| Unlike::Field),
        Err(_) => Err(Unlike::Field),
    }
}

// The bytes of a field; there is one.
fn field_at(fields: &[Bytes], at: usize) -> Result<&[u8], Unlike> {
    match fields.get(at) {
        Some(field) => Ok(field.as_slice()),
        None => Err(Unlike::Field),
    }
}

// Appends a number in so many bytes, into which it fits.
fn put_number(field: &[u8], width: usize, out: &mut Bytes) -> Result<(), Unlike> {
    let bytes = number_of(field)?.to_le_bytes();
    for (place, byte) in bytes.iter().enumerate() {
        if place < width {
            out.push(*byte)?;
        } else if *byte != 0 {
            return Err(Unlike::Field);
        }
    }
    Ok(())
}

// Appends a text behind its length of two bytes.
fn put_text(text: &[u8], out: &mut Bytes) -> Result<(), Unlike> {
    if text.len() > 65535 {
        return Err(Unlike::Field);
    }
    Ok(put_str(text, out)?)
}

// Appends how many fields there are.
fn put_count(fields: &[Bytes], out: &mut Bytes) -> Result<(), Unlike> {
    let count = u16::try_from(fields.len()).map_err(|_| Unlike::Field)?;
    Ok(put_u16(count, out)?)
}

/// Appends bytes behind their length of four bytes.
pub(crate) fn put_data(data: &[u8], out: &mut Bytes) -> Result<(), Unlike> {
    let size = u32::try_from(data.len()).map_err(|_| Unlike::Field)?;
    put_u32(size, out)?;
    Ok(out.append(data)?)
}

// Appends texts, each behind its length, behind their number.
fn put_texts(fields: &[Bytes], out: &mut Bytes) -> Result<(), Unlike> {
    put_count(fields, out)?;
    for field in fields {
        put_text(field.as_slice(), out)?;
    }
    Ok(())
}

// Appends the qids of files, behind their number.
fn put_qids(fields: &[Bytes], out: &mut Bytes) -> Result<(), Unlike> {
    put_count(fields, out)?;
    for field in fields {
        put_qid(field.as_slice(), out)?;
    }
    Ok(())
}

// Appends a part whose fields begin here.
fn put_part(
    alloc: Global,
    names: &Names,
    part: Part,
    fields: &[Bytes],
    out: &mut Bytes,
) -> Result<(), Unlike> {
    match part {
        Part::Byte => put_number(field_at(fields, 0)?, 1, out),
        Part::Short => put_number(field_at(fields, 0)?, 2, out),
        Part::Number => put_number(field_at(fields, 0)?, 4, out),
        Part::Long => put_number(field_at(fields, 0)?, 8, out),
        Part::Text => put_text(field_at(fields, 0)?, out),
        Part::Data => put_data(names.text(alloc, fields)?.as_slice(), out),
        Part::Names => put_texts(fields, out),
        Part::Qid => put_qid(field_at(fields, 0)?, out),
        Part::Qids => put_qids(fields, out),
        Part::Zeros => Ok(put_u32(0, out)?),
        Part::Record => put_record(field_at(fields, 0)?, out),
    }
}

// Appends what stands in a message.
fn put_parts(
    alloc: Global,
    names: &Names,
    parts: &[Part],
    fields: &[Bytes],
    out: &mut Bytes,
) -> Result<(), Unlike> {
    for (place, part) in parts.iter().enumerate() {
        let rest = fields.get(place..).unwrap_or(&[]);
        put_part(alloc, names, *part, rest, out)?;
    }
    Ok(())
}

/// A frame: its size, its kind, its tag and its body.
pub(crate) fn frame(alloc: Global, kind: u8, tag: u16, body: &[u8]) -> Result<Bytes, Unlike> {
    let mut out = Bytes::new(alloc);
    let size = u32::try_from(body.len().saturating_add(7)).map_err(|_| Unlike::Frame)?;
    put_u32(size, &mut out)?;
    out.push(kind)?;
    put_u16(tag, &mut out)?;
    out.append(body)?;
    Ok(out)
}

// The tag that a field spells.
fn tag_of(fields: &[Bytes], at: usize) -> Result<u16, Unlike> {
    u16::try_from(number_of(field_at(fields, at)?)?).map_err(|_| Unlike::Field)
}

// A frame of any kind: `frame`, its kind, its tag and its bytes.
fn bare_frame(alloc: Global, names: &Names, fields: &[Bytes]) -> Result<Bytes, Unlike> {
    let kind = u8::try_from(number_of(field_at(fields, 1)?)?).map_err(|_| Unlike::Field)?;
    let tag = tag_of(fields, 2)?;
    let body = names.text(alloc, fields.get(3..).unwrap_or(&[]))?;
    frame(alloc, kind, tag, body.as_slice())
}

/// The frame of these words.
pub(crate) fn frame_of(alloc: Global, names: &Names, fields: &[Bytes]) -> Result<Bytes, Unlike> {
    let name = field_at(fields, 0)?;
    if name == b"frame".as_slice() {
        return bare_frame(alloc, names, fields);
    }
    let layout = layout_of(name)?;
    let tag = tag_of(fields, 1)?;
    let mut body = Bytes::new(alloc);
    let rest = fields.get(2..).unwrap_or(&[]);
    put_parts(alloc, names, layout.parts, rest, &mut body)?;
    frame(alloc, layout.kind, tag, body.as_slice())
}
