//! The loop program of each word operation.

ghost use Rattle.std.specs.Prelude.{◌≡◌};
ghost use Rattle.word_lower.specs.Programs.{program, program_of, row_steps};
ghost use Rattle.word_lower.specs.Programs.{is_elsewhere, is_linear};
ghost use Rattle.word_lower.specs.Lines.{lines_steps};

use crate::shapes::BodyForm::{
    Added, Agreed, Both, Chosen, Compared, Either, Inverted, Lessened, Moved, Off, On, Ordered,
    Reset, Set, SetBoth, Unlike,
};
use crate::shapes::ProgramLine::{Each, Once};
use crate::shapes::{BodyForm, Mark, Owner, ProgramLine};
use ProgramRow::{Elsewhere, One, Spread, Three, Two};
use loop_ir::Sub;
use op_text::{Kind, WordOp};

/// What the table has of an operation.
#[derive(Clone, Copy)]
pub enum ProgramRow {
    /// A body on every bit of a word, or another on the one of a bit.
    Spread(BodyForm, BodyForm),
    One(ProgramLine),
    Two(ProgramLine, ProgramLine),
    Three(ProgramLine, ProgramLine, ProgramLine),
    /// A flow of `word_flow`: its program is none of this table's.
    Elsewhere,
}

// the owners: the target, the arguments, and after them the bit of scratch
const TARGET: u8 = 0;

const FIRST: u8 = 1;

const SECOND: u8 = 2;

const THIRD: u8 = 3;

// the rows at the position: of the target, and of the first and the second argument
const Z: Mark = Mark {
    owner: Owner::Row(TARGET),
    sub: Sub::Inner,
};

const X: Mark = Mark {
    owner: Owner::Row(FIRST),
    sub: Sub::Inner,
};

const Y: Mark = Mark {
    owner: Owner::Row(SECOND),
    sub: Sub::Inner,
};
// the lowest row, which is the one of a bit
const Z_BIT: Mark = Mark {
    owner: Owner::Row(TARGET),
    sub: Sub::Zero,
};

const X_BIT: Mark = Mark {
    owner: Owner::Row(FIRST),
    sub: Sub::Zero,
};

const Y_BIT: Mark = Mark {
    owner: Owner::Row(SECOND),
    sub: Sub::Zero,
};

const S_BIT: Mark = Mark {
    owner: Owner::Row(THIRD),
    sub: Sub::Zero,
};

// states, by the cells in which they stand
const T0: Mark = Mark {
    owner: Owner::Cells(0),
    sub: Sub::Zero,
};

const T2: Mark = Mark {
    owner: Owner::Cells(2),
    sub: Sub::Zero,
};

const T3: Mark = Mark {
    owner: Owner::Cells(3),
    sub: Sub::Zero,
};

const T3_DCC1: Mark = Mark {
    owner: Owner::Cells(4),
    sub: Sub::Zero,
};

/// The loop programs of the word operations, in the order of the variants.
pub static PROGRAMS: [(WordOp, ProgramRow); 27] = [
    (WordOp::Not, Spread(Inverted(X, Z), Inverted(X_BIT, Z_BIT))),
    (
        WordOp::And,
        Spread(Both(X, Y, Z), Both(X_BIT, Y_BIT, Z_BIT)),
    ),
    (
        WordOp::Or,
        Spread(Either(X, Y, Z), Either(X_BIT, Y_BIT, Z_BIT)),
    ),
    (
        WordOp::Xor,
        Spread(Unlike(X, Y, Z), Unlike(X_BIT, Y_BIT, Z_BIT)),
    ),
    (WordOp::Copy, Spread(Moved(X, Z), Moved(X_BIT, Z_BIT))),
    (WordOp::Zero, One(Each(Off(Z)))),
    (WordOp::Ones, One(Each(On(Z)))),
    (WordOp::Shl1, Elsewhere),
    (WordOp::Shr1, Elsewhere),
    (
        WordOp::Add,
        Two(Once(Off(S_BIT)), Each(Added(X, Y, S_BIT, Z))),
    ),
    (
        WordOp::Sub,
        Two(Once(Reset(T3_DCC1)), Each(Lessened(X, Y, T3_DCC1, Z))),
    ),
    (WordOp::Mul, Elsewhere),
    (WordOp::Div, Elsewhere),
    (WordOp::Rem, Elsewhere),
    (WordOp::Abs, Elsewhere),
    (WordOp::Relu, Elsewhere),
    (
        WordOp::Min,
        Three(
            Once(Reset(T0)),
            Each(Compared(X, Y, T0, S_BIT)),
            Each(Chosen(Y, X, S_BIT, Z)),
        ),
    ),
    (
        WordOp::Max,
        Three(
            Once(Reset(T0)),
            Each(Compared(X, Y, T0, S_BIT)),
            Each(Chosen(X, Y, S_BIT, Z)),
        ),
    ),
    (
        WordOp::Eq,
        Three(
            Once(SetBoth(T2, T3)),
            Each(Ordered(X, Y, T2, T3)),
            Once(Agreed(T2, T3, Z_BIT)),
        ),
    ),
    (
        WordOp::Gt,
        Two(Once(Reset(T0)), Each(Compared(X, Y, T0, Z_BIT))),
    ),
    (
        WordOp::Ge,
        Two(Once(Set(T0)), Each(Compared(X, Y, T0, Z_BIT))),
    ),
    (
        WordOp::IfElse,
        Spread(Chosen(X, Y, S_BIT, Z), Chosen(X_BIT, Y_BIT, S_BIT, Z_BIT)),
    ),
    (WordOp::Bitcount, Elsewhere),
    (WordOp::AndRed, Elsewhere),
    (WordOp::OrRed, Elsewhere),
    (WordOp::XorRed, Elsewhere),
    (WordOp::Divmod, Elsewhere),
];

fn program_of(op: WordOp) -> ProgramRow
    ensures { result ≡ program_of op }
{
    PROGRAMS[op as usize].1
}

/// Whether the table has no program of the operation.
fn is_elsewhere(row: ProgramRow) -> bool
    ensures { result ≡ is_elsewhere row }
{
    matches!(row, Elsewhere)
}

/// Whether the table has a program of the operation: the others are flows.
pub fn is_linear(op: WordOp) -> bool
    ensures { result ≡ is_linear op }
{
    !is_elsewhere(program_of(op))
}

/// The lines of a row, of which there are none where the operation is a flow.
fn row_lines(row: ProgramRow, kind: Kind) -> [Option<ProgramLine>; 3]
    ensures { lines_steps result ≡ row_steps row kind }
{
    match row {
        Spread(word, bit) => match kind {
            Kind::Word => [Some(Each(word)), None, None],
            Kind::Bit => [Some(Once(bit)), None, None],
        },
        One(line) => [Some(line), None, None],
        Two(first, second) => [Some(first), Some(second), None],
        Three(first, second, third) => [Some(first), Some(second), Some(third)],
        Elsewhere => [None, None, None],
    }
}

/// The lines of an operation.
pub fn lines(op: WordOp, kind: Kind) -> [Option<ProgramLine>; 3]
    ensures { lines_steps result ≡ program op kind }
{
    row_lines(program_of(op), kind)
}
