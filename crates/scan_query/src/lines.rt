//! Places in a text by their lines.

ghost use Rattle.std.specs.Prelude.{◌≡◌, ◌<◌, ◌≤◌, ◌^◌, ◌==◌, count_by, length};
ghost use Rattle.op_text.specs.Lines.{line_at, line_of};

fn newlines(bytes: &[u8]) -> usize
    ensures value { result ≡ count_by (λ b. b == 10) bytes.now }
    ensures within { result ≤ length bytes.now }
{
    bytes.iter().filter(|b| **b == b'\n').count()
}

fn line_at(text: &[u8], place: usize) -> u32
    requires { length text.now < 2 ^ 32 }
    ensures { result ≡ line_at text.now place }
{
    if text.is_empty() {
        return 1;
    }
    let last = text.len() - 1;
    let end = if place < last { place } else { last };
    let (before, _) = text.split_at(end);
    1 + newlines(before) as u32
}

/// The line of a place, or of the last byte where there is none.
pub(crate) fn line_of(text: &[u8], place: Option<usize>) -> u32
    requires { length text.now < 2 ^ 32 }
    ensures { result ≡ line_of text.now place }
{
    match place {
        Some(place) => line_at(text, place),
        None => line_at(text, text.len()),
    }
}
