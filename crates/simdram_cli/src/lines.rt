//! Lines that are made before they are put.

ghost use Rattle.std.specs.Prelude.{◌≡◌, ◌+◌, ◌≤◌, ◌++◌, decimal, length};

use arrayvec::ArrayVec;
use itoa::Buffer;

/// A line.
pub(crate) type Line = ArrayVec<u8, 128>;

/// Appends bytes that there is room for.
pub(crate) fn add(text: &mut Line, piece: &[u8])
    requires { length text.old.items + length piece.now ≤ 128 }
    ensures text { text.new.items ≡ text.old.items ++ piece.now }
    ensures length { length text.new.items ≡ length text.old.items + length piece.now }
{
    text.try_extend_from_slice(piece).unwrap()
}

/// Appends a word of at most 8 bytes and a number.
pub(crate) fn add_number(text: &mut Line, word: &[u8], number: u64)
    requires room { length text.old.items + 28 ≤ 128 }
    requires word { length word.now ≤ 8 }
    ensures text { text.new.items ≡ text.old.items ++ (word.now ++ decimal number) }
    ensures length { length text.new.items ≤ length text.old.items + 28 }
{
    let mut buffer = Buffer::new();
    add(text, word);
    add(text, buffer.format(number).as_bytes());
}
