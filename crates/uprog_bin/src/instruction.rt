//! One instruction of a file.

ghost use Rattle.std.specs.Prelude.{◌≡◌, ◌+◌, ◌<◌, ◌≤◌, ◌^◌, ◌==◌, ◌&&◌, length, slice_get};
ghost use Rattle.std.specs.Prelude.{slice_index_or, OnOk, nat_lt};
ghost use Rattle.uprog_code.specs.Shape.{shape_of, results};
ghost use Rattle.uprog_code.specs.Legal.{is_place, may_be_first, may_be_second, is_row, is_first};
ghost use Rattle.uprog_code.specs.Legal.{is_second};
ghost use Rattle.uprog_bin.specs.Reading.{raw_row, raw_of, is_zero, has_register, has_second};
ghost use Rattle.uprog_bin.specs.Reading.{operand as operand_of, ends_at_y};
ghost use Rattle.uprog_bin.specs.Reading.{is_formed as is_formed_as, has_target, row_of, has_rows};
ghost use Rattle.uprog_bin.specs.Reading.{ends_code, uop_as as uop_of_raw, uop_of, numbered};
ghost use Rattle.uprog_bin.specs.Reading.{uop_at};
ghost use Rattle.file_fields.specs.Fields.{Gives};

use crate::fault::{ProgFault, ProgKind};
use crate::opcode::{OPCODES, Opcode, SPACES};
use file_fields::{bytes_at, fault, rule};
use uprog_code::{Head, RowRef, RowSpace, Uop};

/// Three bytes of an instruction: a row, or registers and numbers.
#[derive(Clone, Copy, PartialEq, Eq)]
pub struct RawRow {
    pub space: u8,
    pub which: u8,
    pub index: u8,
}

/// The eight bytes of an instruction.
#[derive(Clone, Copy, PartialEq, Eq)]
pub struct Raw {
    pub number: u8,
    pub x: RawRow,
    pub y: RawRow,
    pub spare: u8,
}

impl RawRow {
    fn is_zero(self) -> bool
        ensures { result ≡ is_zero self }
    {
        self.space == 0 && self.which == 0 && self.index == 0
    }

    /// The number in the second and third byte.
    #[inline(always)]
    fn operand(self) -> u16
        ensures { result ≡ operand_of self }
    {
        u16::from_le_bytes([self.which, self.index])
    }

    #[inline(always)]
    fn row(self) -> RowRef
        ensures { result ≡ row_of self }
    {
        RowRef {
            space: space_of(self.space),
            which: self.which,
            index: self.index,
        }
    }
}

#[inline(always)]
fn space_of(number: u8) -> RowSpace
    ensures { result ≡ slice_index_or SPACES number RowSpace.Spill }
{
    match number {
        0 => RowSpace::B,
        1 => RowSpace::C,
        2 => RowSpace::Result,
        3 => RowSpace::Source,
        4 => RowSpace::ScratchBit,
        5 => RowSpace::ScratchWord,
        _ => RowSpace::Spill,
    }
}

impl Raw {
    /// The instruction's bytes.
    #[inline(always)]
    pub(crate) fn new(field: &[u8]) -> Raw
        requires { length field.now ≡ 8 }
        ensures { result ≡ raw_of field.now }
    {
        Raw {
            number: field[0],
            x: RawRow {
                space: field[1],
                which: field[2],
                index: field[3],
            },
            y: RawRow {
                space: field[4],
                which: field[5],
                index: field[6],
            },
            spare: field[7],
        }
    }

    fn ends_at_y(self) -> bool
        ensures { result ≡ ends_at_y self }
    {
        self.y.is_zero() && self.spare == 0
    }
}

/// Whether the bytes that the instruction names are in range, and the others 0.
fn is_formed(opcode: Opcode, raw: Raw) -> bool
    ensures { result ≡ is_formed_as opcode raw }
{
    let x = raw.x;
    match opcode {
        Opcode::Done => x.is_zero() && raw.ends_at_y(),
        Opcode::SetI | Opcode::AddI | Opcode::SubI => {
            x.space < 8 && x.operand() <= 1023 && raw.ends_at_y()
        }
        Opcode::SetN | Opcode::SetT => {
            x.space < 8 && x.which == 0 && x.index == 0 && raw.ends_at_y()
        }
        Opcode::Mov | Opcode::Add => {
            x.space < 8 && x.which < 8 && x.index == 0 && raw.ends_at_y()
        }
        Opcode::Bnez => x.space < 8 && raw.ends_at_y(),
        Opcode::Aap => raw.spare == 0,
        Opcode::Ap => raw.ends_at_y(),
    }
}

fn has_target(opcode: Opcode, size: u16, raw: Raw) -> bool
    ensures { result ≡ has_target opcode size raw }
{
    match opcode {
        Opcode::Bnez => raw.x.operand() < size,
        _ => true,
    }
}

/// Whether the entry has so many results and one more.
fn is_result(head: &Head, which: u8) -> bool
    ensures { result ≡ nat_lt which (length (results (shape_of head.now))) }
{
    match head.second {
        None => which < 1,
        Some(_) => which < 2,
    }
}

/// Whether the row is one of its space, with an index that may stand there.
fn is_row(head: &Head, row: RowRef) -> bool
    ensures { result ≡ is_row (shape_of head.now) row }
{
    let sources = head.sources.len();
    match row.space {
        RowSpace::B => row.which < 16 && row.index == 0,
        RowSpace::C => row.which < 2 && row.index == 0,
        RowSpace::Result => is_result(head, row.which) && row.index <= 8,
        RowSpace::Source => usize::from(row.which) < sources && row.index <= 8,
        RowSpace::ScratchBit => row.which < head.bits && row.index == 0,
        RowSpace::ScratchWord => row.which < head.words && row.index <= 8,
        RowSpace::Spill => row.which < 32 && row.index == 0,
    }
}

/// Any row but B8 to B11.
fn may_be_first(row: RowRef) -> bool
    ensures { result ≡ may_be_first row.space row.which }
{
    match row.space {
        RowSpace::B => row.which < 8 || row.which >= 12,
        _ => true,
    }
}

/// Any row but those of C and of a source.
fn may_be_second(row: RowRef) -> bool
    ensures { result ≡ may_be_second row.space }
{
    !matches!(row.space, RowSpace::C | RowSpace::Source)
}

fn is_first(head: &Head, row: RowRef) -> bool
    ensures { result ≡ is_first (shape_of head.now) row }
{
    is_row(head, row) && may_be_first(row)
}

fn is_second(head: &Head, row: RowRef) -> bool
    ensures { result ≡ is_second (shape_of head.now) row }
{
    is_row(head, row) && may_be_second(row)
}

fn has_rows(opcode: Opcode, head: &Head, raw: Raw) -> bool
    ensures { result ≡ has_rows opcode (shape_of head.now) raw }
{
    match opcode {
        Opcode::Aap => {
            (raw.x.space < 7 && is_first(head, raw.x.row()))
                && (raw.y.space < 7 && is_second(head, raw.y.row()))
        }
        Opcode::Ap => raw.x.space < 7 && is_first(head, raw.x.row()),
        _ => true,
    }
}

fn ends_code(opcode: Opcode, last: bool) -> bool
    ensures { result ≡ ends_code opcode last }
{
    match opcode {
        Opcode::Done => true,
        _ => !last,
    }
}

/// The instruction that the bytes are.
#[inline(always)]
pub(crate) fn uop_as(opcode: Opcode, raw: Raw) -> Uop
    ensures { result ≡ uop_of_raw opcode raw }
{
    let x = raw.x;
    match opcode {
        Opcode::Done => Uop::Done,
        Opcode::SetI => Uop::SetI(x.space, x.operand()),
        Opcode::SetN => Uop::SetN(x.space),
        Opcode::SetT => Uop::SetT(x.space),
        Opcode::Mov => Uop::Mov(x.space, x.which),
        Opcode::Add => Uop::Add(x.space, x.which),
        Opcode::AddI => Uop::AddI(x.space, x.operand()),
        Opcode::SubI => Uop::SubI(x.space, x.operand()),
        Opcode::Bnez => Uop::Bnez(x.space, x.operand()),
        Opcode::Aap => Uop::Aap(x.row(), raw.y.row()),
        Opcode::Ap => Uop::Ap(x.row()),
    }
}

/// The first rule that an instruction of code of this size breaks.
fn check(
    opcode: Opcode,
    head: &Head,
    size: u16,
    last: bool,
    at: usize,
    raw: Raw,
) -> Result<(), ProgFault>
    requires { at < 2 ^ 32 }
    ensures { Gives (λ x. uop_of_raw opcode raw) result
        (uop_of opcode (shape_of head.now) size last at raw) }
{
    rule(is_formed(opcode, raw), at, ProgKind::Instruction)?;
    rule(has_target(opcode, size, raw), at, ProgKind::Target)?;
    rule(has_rows(opcode, head, raw), at, ProgKind::Row)?;
    rule(ends_code(opcode, last), at, ProgKind::NoDone)
}

/// The instruction at a place, of code of this size.
#[tactic(auto, unfolding(crate::specs::Reading::uop_at))]
pub(crate) fn uop_of(
    head: &Head,
    size: u16,
    last: bool,
    bytes: &[u8],
    at: usize,
) -> Result<Uop, ProgFault>
    requires small { length bytes.now < 2 ^ 32 }
    requires place { at ≤ length bytes.now }
    ensures gives { Gives (λ uop. uop) result (uop_at (shape_of head.now) size last at bytes.now) }
    ensures within { OnOk result (at + 8 ≤ length bytes.now) }
{
    let field = bytes_at(bytes, at, 8, ProgKind::Short)?;
    let raw = Raw::new(field);
    let Some(opcode) = opcode_of(raw.number) else {
        return Err(fault(at, ProgKind::Instruction));
    };
    check(opcode, head, size, last, at, raw)?;
    Ok(uop_as(opcode, raw))
}

fn opcode_of(number: u8) -> Option<Opcode>
    ensures { result ≡ slice_get OPCODES number }
{
    OPCODES.get(usize::from(number)).copied()
}
