// A text cut into its lines.
ghost use Rattle.std.specs.Prelude.{◌≡◌, ◌==◌, ◌+◌, ◌<◌, ◌≤◌, ◌∷◌, IfSome, length, position};
ghost use Rattle.attr_tuples.specs.Cutting.{bytes_left, lines_left, text_lines};

/// The first line of a text, and what stands behind its newline if it has one. It takes no memory.
pub fn cut_line(text: &[u8]) -> (&[u8], Option<&[u8]>)
    ensures lines { text_lines text.now ≡ result.0.now ∷ lines_left result.1 }
    ensures shorter { length result.0.now + bytes_left result.1 ≤ length text.now }
    ensures ends { IfSome result.1 (λ rest. length rest.now < length text.now) }
{
    match find_newline(text) {
        Some(at) => {
            let (line, rest) = text.split_at(at);
            (line, Some(rest.split_at(1).1))
        }
        None => (text, None),
    }
}

fn find_newline(bytes: &[u8]) -> Option<usize>
    ensures { result ≡ position (λ b. b == 10) bytes.now }
{
    bytes.iter().position(|byte| *byte == b'\n')
}
