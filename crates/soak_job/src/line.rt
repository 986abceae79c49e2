//! The lines of a soak.

ghost use Rattle.std.specs.Prelude.{◌≡◌, ◌+◌, ◌≤◌, ◌++◌, decimal, length};
ghost use Rattle.soak_job.specs.Sums.{last_line, counted_line};

use crate::cases::Case;
use arrayvec::ArrayVec;
use itoa::Buffer;
use op_text::op_name;
use uprog_code::Counts;

/// A line.
pub type Line = ArrayVec<u8, 128>;

/// Appends bytes that there is room for.
fn add(text: &mut Line, piece: &[u8])
    requires { length text.old.items + length piece.now ≤ 128 }
    ensures text { text.new.items ≡ text.old.items ++ piece.now }
    ensures length { length text.new.items ≡ length text.old.items + length piece.now }
{
    text.try_extend_from_slice(piece).unwrap()
}

/// Appends a word of at most 8 bytes and a number.
fn add_number(text: &mut Line, word: &[u8], number: u64)
    requires room { length text.old.items + 28 ≤ 128 }
    requires word { length word.now ≤ 8 }
    ensures text { text.new.items ≡ text.old.items ++ (word.now ++ decimal number) }
    ensures length { length text.new.items ≤ length text.old.items + 28 }
{
    let mut buffer = Buffer::new();
    add(text, word);
    add(text, buffer.format(number).as_bytes());
}

/// The line of a case: its operation and width, its row commands, and its sum.
pub fn line_of(case: Case, counts: Counts, sum: u64) -> Line
    ensures { result.items ≡ counted_line case counts sum }
{
    let mut text = ArrayVec::new();
    add(&mut text, op_name(case.op));
    add_number(&mut text, b" ", u64::from(case.n));
    add_number(&mut text, b" aap=", counts.aap);
    add_number(&mut text, b" ap=", counts.ap);
    add_number(&mut text, b" sum=", sum);
    add(&mut text, b"\n");
    text
}

/// The line after those of so many cases.
pub fn last_line(cases: usize) -> Line
    ensures { result.items ≡ last_line cases }
{
    let mut text = ArrayVec::new();
    add_number(&mut text, b"soak ", cases as u64);
    add(&mut text, b" cases\n");
    text
}
