//! The numbers of instructions and of row spaces in a file.

ghost use Rattle.std.specs.Prelude.{◌≡◌};
ghost use Rattle.uprog_bin.specs.Spelling.{space_number};

use uprog_code::RowSpace;

/// What an instruction does, in the order of their numbers.
#[derive(Clone, Copy, PartialEq, Eq)]
pub enum Opcode {
    Done,
    SetI,
    SetN,
    SetT,
    Mov,
    Add,
    AddI,
    SubI,
    Bnez,
    Aap,
    Ap,
}

/// Instructions by their numbers.
pub const OPCODES: [Opcode; 11] = [
    Opcode::Done,
    Opcode::SetI,
    Opcode::SetN,
    Opcode::SetT,
    Opcode::Mov,
    Opcode::Add,
    Opcode::AddI,
    Opcode::SubI,
    Opcode::Bnez,
    Opcode::Aap,
    Opcode::Ap,
];

/// Row spaces by their numbers.
pub const SPACES: [RowSpace; 7] = [
    RowSpace::B,
    RowSpace::C,
    RowSpace::Result,
    RowSpace::Source,
    RowSpace::ScratchBit,
    RowSpace::ScratchWord,
    RowSpace::Spill,
];

pub(crate) fn number_of(space: RowSpace) -> u8
    ensures { result ≡ space_number space }
{
    match space {
        RowSpace::B => 0,
        RowSpace::C => 1,
        RowSpace::Result => 2,
        RowSpace::Source => 3,
        RowSpace::ScratchBit => 4,
        RowSpace::ScratchWord => 5,
        RowSpace::Spill => 6,
    }
}
