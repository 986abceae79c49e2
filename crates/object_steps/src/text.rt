//! Text in a buffer of a fixed size.

ghost use Rattle.std.specs.Prelude.{◌≡◌, ◌+◌, ◌≤◌, ◌++◌, decimal, length};

use arrayvec::ArrayVec;
use bit_rows::Value;
use itoa::Buffer;

/// Appends bytes that there is room for.
pub(crate) fn add<const N: usize>(text: &mut ArrayVec<u8, N>, piece: &[u8])
    requires { length text.old.items + length piece.now ≤ N }
    ensures text { text.new.items ≡ text.old.items ++ piece.now }
    ensures length { length text.new.items ≡ length text.old.items + length piece.now }
{
    text.try_extend_from_slice(piece).unwrap()
}

/// Appends a number in decimal.
pub(crate) fn add_number<const N: usize>(text: &mut ArrayVec<u8, N>, number: Value)
    requires { length text.old.items + 40 ≤ N }
    ensures text { text.new.items ≡ text.old.items ++ decimal number }
    ensures length { length text.new.items ≤ length text.old.items + 40 }
{
    let mut buffer = Buffer::new();
    add(text, buffer.format(number).as_bytes());
}
