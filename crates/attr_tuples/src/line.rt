// The text of one line.
ghost use Rattle.std.specs.Prelude.{◌≡◌, not, position};
ghost use Rattle.std.specs.List.{position_or_len};
ghost use Rattle.std.specs.Str.Lossy.{utf8_valid_len};
ghost use Rattle.attr_tuples.specs.Lines.{is_line_byte, line_len};

/// Whether the byte may stand in a line: one from 0x20 on, or a tab.
pub fn check_line_byte(byte: u8) -> bool
    ensures { result ≡ is_line_byte byte }
{
    byte >= b' ' || byte == b'\t'
}

/// How many bytes stand before the first that no line has, which is one below 0x20 that is no tab, or the first
/// where the bytes are no more UTF-8. It takes no memory.
#[tactic(auto, unfolding(crate::specs::Lines::line_len))]
pub fn line_len(bytes: &[u8]) -> usize
    ensures value { result ≡ line_len bytes.now }
{
    utf8_len(bytes).min(line_bytes_len(bytes))
}

fn utf8_len(bytes: &[u8]) -> usize
    ensures { result ≡ utf8_valid_len bytes.now }
{
    match std::str::from_utf8(bytes) {
        Ok(_) => bytes.len(),
        Err(fault) => fault.valid_up_to(),
    }
}

#[tactic(auto, using(crate::proofs::PlaceLemmas::place_found, crate::proofs::PlaceLemmas::none_found))]
fn line_bytes_len(bytes: &[u8]) -> usize
    ensures { result ≡ position_or_len (λ b. not (is_line_byte b)) bytes.now }
{
    match find_foreign(bytes) {
        Some(at) => at,
        None => bytes.len(),
    }
}

fn find_foreign(bytes: &[u8]) -> Option<usize>
    ensures { result ≡ position (λ b. not (is_line_byte b)) bytes.now }
{
    bytes.iter().position(|byte| !check_line_byte(*byte))
}
