// How the bytes of a field are written.
use wire_base::{Bytes, NoMemory};

// Whether a byte stands in a field as it is, without quotes.
fn is_plain(byte: u8) -> bool {
    byte > b' ' && byte < 0x7f && byte != b'"' && byte != b'\\' && byte != b'#'
}

// Whether bytes stand as they are, without quotes.
fn is_bare(bytes: &[u8]) -> bool {
    for byte in bytes {
        if !is_plain(*byte) {
            return false;
        }
    }
    !bytes.is_empty() && bytes != b"=>".as_slice()
}

// The digit of a number below 16.
fn digit(number: u8) -> u8 {
    let number = number & 0x0f;
    if number < 10 {
        b'0' + number
    } else {
        b'a' + (number - 10)
    }
}

// Appends a byte as it stands within quotes.
fn put_quoted(byte: u8, out: &mut Bytes) -> Result<(), NoMemory> {
    match byte {
        b'\n' => out.append(b"\\n"),
        b'\r' => out.append(b"\\r"),
        b'\t' => out.append(b"\\t"),
        0 => out.append(b"\\0"),
        b'"' => out.append(b"\\\""),
        b'\\' => out.append(b"\\\\"),
        b' '..=0x7e => out.push(byte),
        _ => out.append(&[b'\\', b'x', digit(byte >> 4), digit(byte)]),
    }
}

/// Appends bytes as a field: as they are where that reads as one field, and else in quotes.
pub fn put_field(bytes: &[u8], out: &mut Bytes) -> Result<(), NoMemory> {
    if is_bare(bytes) {
        return out.append(bytes);
    }
    out.push(b'"')?;
    for byte in bytes {
        put_quoted(*byte, out)?;
    }
    out.push(b'"')
}
