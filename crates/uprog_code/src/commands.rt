//! The row commands of a microprogram, one after another.

ghost use Rattle.std.specs.Prelude.{◌≡◌, ◌<◌, ◌≤◌, [], MatchOption};
ghost use Rattle.uprog_code.specs.Shape.{shape_of};
ghost use Rattle.uprog_code.specs.Machine.{start};
ghost use Rattle.uprog_code.specs.Legal.{IsLegalCode};
ghost use Rattle.uprog_code.specs.Bound.{bound_of};
ghost use Rattle.uprog_code.specs.Fits.{Fits};
ghost use Rattle.uprog_code.specs.Commands.{commands_from, StandsIn, Finds};

use crate::WALK_MAX;
use crate::address::command_at;
use crate::binding::Binding;
use crate::code::Head;
use crate::fetch::Fetch;
use crate::registers::step;
use bit_rows::WIDTH_MAX;
use dram_model::Command;

/// A place in a microprogram: the next instruction, the registers, and how many instructions its
/// walk may still take.
#[derive(Clone, Copy, PartialEq, Eq)]
pub struct Walk {
    pub pc: u16,
    pub regs: [u16; 8],
    pub left: u32,
}

impl Walk {
    /// The start of a microprogram.
    pub fn start() -> Walk
        ensures { result ≡ record { pc = 0; regs = start; left = WALK_MAX } }
    {
        Walk {
            pc: 0,
            regs: [0; 8],
            left: WALK_MAX,
        }
    }
}

/// The first row command from a place on, in a bank of so many data rows; the place goes past it.
/// None where the microprogram ends before one.
#[inline(always)]
pub fn next_command<F: Fetch>(
    entry: &F,
    head: &Head,
    rows: u16,
    binding: &Binding,
    walk: &mut Walk,
) -> Option<Command>
    requires legal { IsLegalCode (F.shape entry.now) (F.code entry.now) }
    requires head { shape_of head.now ≡ F.shape entry.now }
    requires some { 0 < binding.now.n }
    requires narrow { binding.now.n ≤ WIDTH_MAX }
    requires fits { Fits rows (F.shape entry.now) binding.now.n (bound_of binding.now) }
    requires stands { StandsIn (F.shape entry.now) (F.code entry.now) binding.now.n walk.old }
    ensures { MatchOption result
        (commands_from rows (F.shape entry.now) (F.code entry.now) binding.now walk.old ≡ [])
        (Finds rows (F.shape entry.now) (F.code entry.now) binding.now walk.old walk.new) }
{
    let mut pc = walk.pc;
    let all = walk.left;
    for k in 0..all {
        let uop = entry.fetch(pc);
        // the trace ends, so a row command of it is in range
        if let Some(next) = command_at(&uop, &walk.regs, head, rows, binding) {
            walk.pc = pc + 1;
            walk.left = all - k - 1;
            return Some(next);
        }
        match step(&uop, head, binding.n, &mut walk.regs) {
            Ok(turn) => {
                if turn.is_over() {
                    return None;
                }
                pc = turn.place_after(pc);
            }
            // and no step of it is stuck
            Err(_) => return None,
        }
    }
    None
}
