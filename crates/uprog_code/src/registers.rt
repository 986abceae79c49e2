//! A machine's registers, and what one instruction does to them.

ghost use Rattle.std.specs.Prelude.{◌≡◌, ℕ, ◌+◌, ◌-◌, ◌*◌, ◌<◌, ◌≤◌, List, length, slice_index};
ghost use Rattle.std.specs.Prelude.{slice_get, slice_set, MatchResult, Ok, Some, IsTrue, ◌↔◌};
ghost use Rattle.uprog_code.specs.Shape.{shape_of, results};
ghost use Rattle.uprog_code.specs.Machine.{Next, act, in_range, in_kind, row_at};
ghost use Rattle.uprog_code.specs.OneStep.{AreRegisters, HasOperands, next_place, row_of};
ghost use Rattle.uprog_code.specs.OneStep.{turn_trace};

use crate::code::{Head, RowRef, RowSpace, Uop};
use crate::walker::Why3;
use bit_rows::WIDTH_MAX;
use op_text::Kind;

/// A row with its position in the value that it belongs to.
#[derive(Clone, Copy, PartialEq, Eq)]
pub struct RowPosition {
    pub space: RowSpace,
    pub which: u8,
    pub index: u16,
}

/// A row command that is not bound yet.
#[derive(Clone, Copy, PartialEq, Eq)]
pub enum Issued {
    /// AAP.
    Aap(RowPosition, RowPosition),
    /// AP.
    Ap(RowPosition),
}

/// What an instruction leads to.
#[derive(Clone, Copy, PartialEq, Eq)]
pub enum Turn {
    /// The end.
    Over,
    /// The next instruction.
    On,
    /// The instruction at a place.
    To(u16),
    /// A row command, and then the next instruction.
    Issues(Issued),
}

impl Turn {
    /// Whether the code has ended.
    #[inline(always)]
    pub fn is_over(self) -> bool
        ensures { IsTrue result ↔ self ≡ Turn.Over }
    {
        match self {
            Turn::Over => true,
            _ => false,
        }
    }

    /// The place after an instruction at `pc`.
    #[inline(always)]
    pub fn place_after(self, pc: u16) -> u16
        requires { pc < 65535 }
        ensures { result ≡ next_place self pc }
    {
        match self {
            Turn::Over => pc,
            Turn::To(target) => target,
            _ => pc + 1,
        }
    }
}

/// Does one instruction at width n on the registers.
#[inline(always)]
pub fn step(uop: &Uop, head: &Head, n: u8, regs: &mut [u16]) -> Result<Turn, Why3>
    requires operands { (size : ℕ) × HasOperands size uop.now }
    requires width { n ≤ WIDTH_MAX }
    requires registers { AreRegisters regs.old }
    ensures registers { AreRegisters regs.new }
    ensures over { uop.now ≡ Uop.Done → result ≡ Ok Turn.Over }
    ensures target { (size t : ℕ) → HasOperands size uop.now → result ≡ Ok (Turn.To t) → t < size }
    ensures does { (next : Next) (pc : ℕ) → act (shape_of head.now) n uop.now next pc regs.old
        ≡ turn_trace result next pc regs.new }
{
    match uop {
        Uop::Done => Ok(Turn::Over),
        Uop::SetI(r, k) => {
            regs[*r as usize] = *k;
            Ok(Turn::On)
        }
        Uop::SetN(r) => {
            regs[*r as usize] = u16::from(n);
            Ok(Turn::On)
        }
        Uop::SetT(r) => {
            regs[*r as usize] = u16::from(n.saturating_sub(1));
            Ok(Turn::On)
        }
        Uop::Mov(r, s) => {
            regs[*r as usize] = regs[*s as usize];
            Ok(Turn::On)
        }
        Uop::Add(r, s) => {
            let k = regs[*s as usize];
            add(regs, *r, k)
        }
        Uop::AddI(r, k) => add(regs, *r, *k),
        Uop::SubI(r, k) => {
            if *k <= regs[*r as usize] {
                regs[*r as usize] -= *k;
                Ok(Turn::On)
            } else {
                Err(Why3::Register)
            }
        }
        Uop::Bnez(r, target) => {
            if regs[*r as usize] == 0 {
                Ok(Turn::On)
            } else {
                Ok(Turn::To(*target))
            }
        }
        Uop::Aap(x, y) => {
            let (x, y) = (placed(x, regs), placed(y, regs));
            if is_in_range(head, n, &x) && is_in_range(head, n, &y) {
                Ok(Turn::Issues(Issued::Aap(x, y)))
            } else {
                Err(Why3::Index)
            }
        }
        Uop::Ap(x) => {
            let x = placed(x, regs);
            if is_in_range(head, n, &x) {
                Ok(Turn::Issues(Issued::Ap(x)))
            } else {
                Err(Why3::Index)
            }
        }
    }
}

/// Adds to a register, up to 1023.
#[inline(always)]
fn add(regs: &mut [u16], r: u8, k: u16) -> Result<Turn, Why3>
    requires r_in { r < 8 }
    requires k_small { k ≤ 1023 }
    requires small { AreRegisters regs.old }
    ensures small { AreRegisters regs.new }
    ensures does { MatchResult result (λ t. (t ≡ Turn.On) × (slice_index regs.old r + k ≤ 1023)
        × (regs.new ≡ slice_set regs.old r (slice_index regs.old r + k))) (λ e. (e ≡ Why3.Register)
        × (1023 < slice_index regs.old r + k) × (regs.new ≡ regs.old)) }
{
    let sum = regs[r as usize] + k;
    if sum <= 1023 {
        regs[r as usize] = sum;
        Ok(Turn::On)
    } else {
        Err(Why3::Register)
    }
}

/// The row with the position that its register gives.
#[inline(always)]
fn placed(row: &RowRef, regs: &[u16]) -> RowPosition
    requires { AreRegisters regs.now }
    ensures { row_of result ≡ row_at regs.now row.now }
{
    let index = match row.space {
        RowSpace::Result | RowSpace::Source | RowSpace::ScratchWord => {
            register_value(regs, row.index)
        }
        _ => 0,
    };
    RowPosition {
        space: row.space,
        which: row.which,
        index,
    }
}

/// The value of a register; 0 past the last one.
#[inline(always)]
pub fn register_value(regs: &[u16], r: u8) -> u16
    requires { AreRegisters regs.now }
    ensures { result ≡ slice_index regs.now r }
{
    if r < 8 { regs[r as usize] } else { 0 }
}

/// Whether the position lies within what the row belongs to.
#[inline(always)]
fn is_in_range(head: &Head, n: u8, row: &RowPosition) -> bool
    requires { n ≤ WIDTH_MAX }
    ensures { result ≡ in_range (shape_of head.now) n (row_of row.now) }
{
    match row.space {
        RowSpace::B => true,
        RowSpace::C => true,
        RowSpace::ScratchBit => true,
        RowSpace::Spill => true,
        RowSpace::Result => is_in_result(head, row.which, n, row.index),
        RowSpace::Source => is_in_source(head.sources.as_slice(), row.which, n, row.index),
        RowSpace::ScratchWord => {
            u32::from(row.which) * u32::from(n) + u32::from(row.index)
                < u32::from(n) * u32::from(head.words)
        }
    }
}

#[inline(always)]
fn is_in_result(head: &Head, which: u8, n: u8, i: u16) -> bool
    ensures { result ≡ in_kind (slice_get (results (shape_of head.now)) which) n i }
{
    match (which, head.second) {
        (0, _) => is_in_kind(head.result, n, i),
        (1, Some(kind)) => is_in_kind(kind, n, i),
        _ => false,
    }
}

#[inline(always)]
fn is_in_source(sources: &[Kind], which: u8, n: u8, i: u16) -> bool
    ensures { result ≡ in_kind (slice_get sources.now which) n i }
{
    match sources.get(which as usize) {
        Some(kind) => is_in_kind(*kind, n, i),
        None => false,
    }
}

#[inline(always)]
fn is_in_kind(kind: Kind, n: u8, i: u16) -> bool
    ensures { result ≡ in_kind (Some kind) n i }
{
    match kind {
        Kind::Word => i < u16::from(n),
        Kind::Bit => i == 0,
    }
}
