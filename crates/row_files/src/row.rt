// A row of a file of cases.
use wire_base::Bytes;

/// A case, or a line of a case's block.
#[derive(Drop)]
pub struct Row {
    /// Its line in the file, counted from 1.
    pub line: u32,
    /// What is given: a word that says what is to be done, and what it is done with.
    pub given: Vec<Bytes>,
    /// What has to come, behind `=>`; nothing where no `=>` stands in the row.
    pub wanted: Vec<Bytes>,
}

impl Row {
    /// The bytes of a field that is given, by its place; none where there are fewer.
    pub fn field(&self, at: usize) -> Option<&[u8]> {
        match self.given.get(at) {
            Some(field) => Some(field.as_slice()),
            None => None,
        }
    }

    /// The word that says what is to be done.
    pub fn word(&self) -> &[u8] {
        match self.given.first() {
            Some(field) => field.as_slice(),
            None => b"",
        }
    }

    /// The number that a field spells in decimal, by its place; none where it spells none below 2^64.
    pub fn number(&self, at: usize) -> Option<u64> {
        let digits = self.field(at)?;
        if digits.is_empty() {
            return None;
        }
        let mut number: u64 = 0;
        for digit in digits {
            if !digit.is_ascii_digit() {
                return None;
            }
            number = number.checked_mul(10)?;
            number = number.checked_add(u64::from(digit.wrapping_sub(b'0')))?;
        }
        Some(number)
    }
}

/// The number of a hexadecimal digit.
pub fn hex_digit(digit: u8) -> Option<u8> {
    match digit {
        b'0'..=b'9' => Some(digit - b'0'),
        b'a'..=b'f' => Some(digit - b'a' + 10),
        b'A'..=b'F' => Some(digit - b'A' + 10),
        _ => None,
    }
}
