//! Follows a microprogram and counts its commands.

ghost use Rattle.std.specs.Prelude.{IfOk, ◌≡◌, ◌+◌, ◌-◌, ◌%◌, ◌^◌, ◌<◌, ◌≤◌, ◌⊎◌};
ghost use Rattle.uprog_code.specs.Machine.{trace, Stuck};
ghost use Rattle.uprog_code.specs.declared.walker.Why3.TheVariants.{Budget};
ghost use Rattle.uprog_code.specs.Legal.{IsLegalCode};
ghost use Rattle.uprog_code.specs.Count.{walked, counts_after};

use crate::WALK_MAX;
use crate::fetch::Fetch;
use crate::registers::{Issued, Turn, step};
use bit_rows::WIDTH_MAX;

/// Why a walk is stuck.
#[derive(Clone, Copy, Debug, PartialEq, Eq)]
pub enum Why3 {
    /// A row's index lies past the value that it belongs to.
    Index,
    /// A register would leave 0 to 1023.
    Register,
    /// The instruction is past the greatest number of a walk.
    Budget,
}

/// Where a walk is stuck, and why.
#[derive(Clone, Copy, Debug, PartialEq, Eq)]
pub struct BadWalk {
    pub at: u16,
    pub why: Why3,
}

/// How many row commands of each kind a microprogram issues.
#[derive(Clone, Copy, Debug, PartialEq, Eq)]
pub struct Counts {
    pub aap: u64,
    pub ap: u64,
}

/// Where a walk stands after so many of its steps: the next instruction and the registers.
#[derive(Clone, Copy)]
struct State {
    step: u32,
    pc: u16,
    regs: [u16; 8],
}

impl State {
    /// The step at which a walk ends that stands here and was to end at `end`. Where it stood here
    /// before, at `mark`, it goes round until then, and whole rounds are left out.
    #[inline(always)]
    fn end_since(&self, mark: &State, end: u32) -> u32
        requires later { mark.now.step < self.now.step }
        requires end { self.now.step ≤ end }
        ensures { (result ≡ end) ⊎ ((mark.now.pc ≡ self.now.pc) × (mark.now.regs ≡ self.now.regs)
            × (result ≡ self.now.step
            + (end - self.now.step) % (self.now.step - mark.now.step))) }
    {
        if mark.pc == self.pc && mark.regs == self.regs {
            self.step + (end - self.step) % (self.step - mark.step)
        } else {
            end
        }
    }

    /// The state that is kept from here on: at the steps 1, 2, 4, 8 and so on this one.
    #[inline(always)]
    fn kept_after(self, mark: State) -> State
        ensures { (result ≡ mark) ⊎ (result ≡ self) }
    {
        if self.step.is_power_of_two() {
            self
        } else {
            mark
        }
    }
}

/// The numbers of commands that a microprogram issues at width n, or the first instruction where it
/// is stuck. The budget is looked at before the instruction, and its last instruction counts.
pub fn walk<F: Fetch>(code: &F, n: u8) -> Result<Counts, BadWalk>
    requires legal { IsLegalCode (F.shape code.now) (F.code code.now) }
    requires some { 0 < n }
    requires narrow { n ≤ WIDTH_MAX }
    ensures value { result ≡ walked (trace (F.shape code.now) (F.code code.now) n) }
    ensures few { IfOk result (λ counts. counts.aap + counts.ap ≤ WALK_MAX) }
{
    let head = code.head();
    let mut regs = [0u16; 8];
    let mut pc: u16 = 0;
    let mut counts = Counts { aap: 0, ap: 0 };
    let mut mark = State { step: 0, pc, regs };
    let mut end = WALK_MAX;
    for k in 0..WALK_MAX {
        if k == end {
            return out_of_budget(pc);
        }
        let uop = code.fetch(pc);
        match step(&uop, &head, n, &mut regs) {
            Ok(turn) => {
                if turn.is_over() {
                    return Ok(counts);
                }
                counts = counted(turn, counts);
                pc = turn.place_after(pc);
            }
            Err(why) => return Err(BadWalk { at: pc, why }),
        }
        let here = State {
            step: k + 1,
            pc,
            regs,
        };
        end = here.end_since(&mark, end);
        mark = here.kept_after(mark);
    }
    out_of_budget(pc)
}

/// Stuck before this instruction, with the budget spent.
fn out_of_budget(at: u16) -> Result<Counts, BadWalk>
    ensures { result ≡ walked (Stuck at Budget) }
{
    Err(BadWalk {
        at,
        why: Why3::Budget,
    })
}

/// One more of the command that was issued.
fn counted(turn: Turn, counts: Counts) -> Counts
    requires { counts.aap + counts.ap < 2 ^ 32 }
    ensures { result ≡ counts_after turn counts }
{
    match turn {
        Turn::Issues(Issued::Aap(..)) => Counts {
            aap: counts.aap + 1,
            ap: counts.ap,
        },
        Turn::Issues(Issued::Ap(_)) => Counts {
            aap: counts.aap,
            ap: counts.ap + 1,
        },
        _ => counts,
    }
}
