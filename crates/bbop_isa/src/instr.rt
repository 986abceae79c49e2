//! What a script says, and why it is refused.

ghost use Rattle.std.specs.Prelude.{◌≡◌};
ghost use Rattle.bbop_isa.specs.declared.instr.LineError.TheVariants as line_no;

use arrayvec::ArrayVec;
use bit_rows::Value;
use faults::NoMemory;
use text_lex::Name;

/// In which order the banks take turns.
#[derive(Clone, Copy, PartialEq, Eq)]
pub enum Order {
    /// Bank by bank, upwards: `order in`.
    Forward,
    /// One command of each bank in turn: `order turns`.
    Turns,
    /// Drawn by a generator from this seed: `order seed K`.
    Seed(u64),
}

/// So many bits of each element, from bit `low` on.
#[derive(Clone, Copy, Debug, PartialEq, Eq)]
pub struct Part {
    pub low: u8,
    pub size: u8,
}

/// An operand: an object by its name, or a part of it.
#[derive(Default, Drop)]
pub struct Place {
    pub name: Name,
    pub part: Option<Part>,
}

/// One instruction. `count` is a number of elements and `n` their width in bits.
#[derive(Drop)]
pub enum Instr {
    /// `bbop_trsp_init NAME, COUNT, N`
    Init {
        name: Name,
        count: u32,
        n: u8,
    },
    /// `bbop_OP DST, SRC, .., COUNT, N` with one to five further operands.
    Bbop {
        op: Name,
        dst: Place,
        srcs: ArrayVec<Place, 5>,
        count: u32,
        n: u8,
    },
    /// `load PLACE, V, ..`
    Load {
        place: Place,
        values: Vec<Value>,
    },
    /// `fill PLACE, V`
    Fill {
        place: Place,
        value: Value,
    },
    /// `print PLACE`
    Print {
        place: Place,
    },
    /// `free NAME`
    Free {
        name: Name,
    },
    /// `order in`, `order turns` or `order seed K`
    Order(Order),
}

/// What is wrong with a line: of all that is, what stands first here.
#[derive(Clone, Copy, Debug, PartialEq, Eq)]
pub enum ScriptKind {
    /// A byte starts no token.
    Lex,
    /// The tokens are of no form.
    Syntax,
    /// A name has more than 16 bytes, or what follows `bbop_` is no name of 1 to 16 bytes.
    BadName,
    /// A number is out of its range.
    BadNumber,
}

/// The first line that breaks a rule. Lines count from 1.
#[derive(Clone, Copy, Debug, PartialEq, Eq)]
pub struct ScriptFault {
    pub line: u32,
    pub kind: ScriptKind,
}

/// Why a script was not read.
#[derive(Clone, Copy, Debug, PartialEq, Eq)]
pub enum ScriptNo {
    Fault(ScriptFault),
    NoMemory,
}

/// Why a line was not read.
#[derive(Clone, Copy, PartialEq, Eq)]
pub enum LineError {
    Bad(ScriptKind),
    NoMemory,
}

impl From<NoMemory> for LineError {
    ghost from_gives = { λ _ e. e ≡ line_no.NoMemory };

    fn from(_no: NoMemory) -> LineError {
        LineError::NoMemory
    }
}
