//! Instructions and programs.

ghost use Rattle.std.specs.Prelude.{◌≡◌};
ghost use Rattle.uprog_code.specs.Shape.{shape_of};

use arrayvec::ArrayVec;
use op_text::Kind;
use text_lex::Name;

/// Where a row lies: in the chip's own groups B and C, or in the rows that a binding gives.
#[derive(Clone, Copy, Debug, PartialEq, Eq)]
pub enum RowSpace {
    B,
    C,
    Result,
    Source,
    ScratchBit,
    ScratchWord,
    Spill,
}

/// A row of an instruction: its space, which row or value of that space, and what gives the
/// position in that value. An index of 0 to 7 names a register, and an index of 8 is position 0.
#[derive(Clone, Copy, Debug, PartialEq, Eq)]
pub struct RowRef {
    pub space: RowSpace,
    pub which: u8,
    pub index: u8,
}

/// An instruction. The machine has eight registers, zero at entry, with values of at most 1023.
#[derive(Clone, Copy, Debug, PartialEq, Eq)]
pub enum Uop {
    /// Ends.
    Done,
    /// Sets a register to a number.
    SetI(u8, u16),
    /// Sets a register to the width n.
    SetN(u8),
    /// Sets a register to n - 1.
    SetT(u8),
    /// Copies the second register to the first.
    Mov(u8, u8),
    /// Adds the second register to the first.
    Add(u8, u8),
    /// Adds a number to a register.
    AddI(u8, u16),
    /// Subtracts a number from a register.
    SubI(u8, u16),
    /// Goes to an instruction where a register is not 0.
    Bnez(u8, u16),
    /// The row command AAP.
    Aap(RowRef, RowRef),
    /// The row command AP.
    Ap(RowRef),
}

/// What an operation is called, takes and gives, and how many bits and words of scratch it needs.
#[derive(Drop)]
pub struct Head {
    pub name: Name,
    pub sources: ArrayVec<Kind, 4>,
    pub result: Kind,
    pub second: Option<Kind>,
    pub bits: u8,
    pub words: u8,
}

impl Head {
    /// The same head again.
    pub fn copied(&self) -> Head
        ensures name { result.name ≡ self.now.name }
        ensures shape { shape_of result ≡ shape_of self.now }
    {
        let mut sources = ArrayVec::new();
        for kind in self.sources.as_slice() {
            sources.push(*kind);
        }
        Head {
            name: self.name.copied(),
            sources,
            result: self.result,
            second: self.second,
            bits: self.bits,
            words: self.words,
        }
    }
}

/// An operation's microprogram.
pub struct EntryCode {
    pub head: Head,
    pub code: Vec<Uop>,
}

impl Drop for EntryCode {
    fn drop(self) {
        let EntryCode { head: _, code: _ } = self;
    }
}

/// The microprograms of a text, in the order of its operations.
#[derive(Drop)]
pub struct Program {
    pub entries: Vec<EntryCode>,
}
