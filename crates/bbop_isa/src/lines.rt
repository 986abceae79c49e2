//! Texts as lines.

ghost use Rattle.std.specs.Prelude.{◌≡◌, ◌+◌, ◌≤◌, List, [], ◌∷◌, length, MatchOption};
ghost use Rattle.std.specs.List.{prefix_len};
ghost use Rattle.text_lex.specs.Bytes.{is_no_newline};
ghost use Rattle.bbop_isa.specs.Lines.{lines_of};

use memchr::memchr;

fn line_len(text: &[u8]) -> usize
    ensures value { result ≡ prefix_len is_no_newline text.now }
    ensures within { result ≤ length text.now }
{
    memchr(b'\n', text).unwrap_or(text.len())
}

/// The first line, and the text after its newline, if it has one.
pub fn split_line(text: &[u8]) -> (&[u8], Option<&[u8]>)
    ensures lines { MatchOption result.1 (lines_of text.now
        ≡ result.0.now ∷ []) (λ rest. lines_of text.now ≡ result.0.now ∷ lines_of rest.now) }
    ensures within { length result.0.now ≤ length text.now }
    ensures shorter { MatchOption result.1 (length result.0.now
        ≡ length text.now) (λ rest. length result.0.now + 1 + length rest.now ≡ length text.now) }
{
    let (line, rest) = text.split_at(line_len(text));
    match rest.split_first() {
        Some((_, after)) => (line, Some(after)),
        None => (line, None),
    }
}
