//! What an entry issues at one width, as a list.

ghost use Rattle.std.specs.Prelude.{◌≡◌, ◌+◌, ◌<◌, ◌≤◌, ◌++◌, IfOk, OnOk, Ok, Err};
ghost use Rattle.uprog_code.specs.declared.walker.BadWalk.{BadWalk};
ghost use Rattle.uprog_code.specs.declared.walker.Counts.{Counts};
ghost use Rattle.uprog_code.specs.Machine.{Ended, HasEnded, trace};
ghost use Rattle.uprog_code.specs.Legal.{IsLegalCode};
ghost use Rattle.uprog_code.specs.Count.{walked};
ghost use Rattle.uprog_code.specs.OneStep.{issues_by};
ghost use Rattle.width_entry.specs.Lines.{issues};

use bit_rows::WIDTH_MAX;
use faults::{NoMemory, keep};
use std::alloc::Global;
use uprog_code::{BadWalk, Counts, Fetch, Issued, Turn, WALK_MAX, step, walk};

/// The greatest number of commands of a straight line: code has no room for more.
pub const LINE_MAX: u64 = 65_535;

/// Why an entry has no straight line at a width.
#[derive(Clone, Copy, Debug, PartialEq, Eq)]
pub enum NoLine {
    /// Out of memory.
    NoMemory,
    /// Its walk is stuck.
    Stuck(BadWalk),
    /// It issues so many commands, more than code has room for.
    TooLong(Counts),
}

/// Appends the command of one step, where it has one.
fn put_turn(line: &mut Vec<Issued>, turn: Turn) -> Result<(), NoMemory>
    ensures { OnOk result (issues line.new.items ≡ issues line.old.items ++ issues_by turn) }
{
    match turn {
        Turn::Issues(issued) => keep(line, issued),
        _ => Ok(()),
    }
}

/// The commands of an entry whose walk ends.
fn issued_line<F: Fetch>(entry: &F, n: u8, alloc: Global) -> Result<Vec<Issued>, NoMemory>
    requires legal { IsLegalCode (F.shape entry.now) (F.code entry.now) }
    requires narrow { n ≤ WIDTH_MAX }
    requires ends { HasEnded (trace (F.shape entry.now) (F.code entry.now) n) }
    ensures { IfOk result (λ line. trace (F.shape entry.now) (F.code entry.now) n
        ≡ Ended (issues line.items)) }
{
    let head = entry.head();
    let mut line = Vec::new(alloc);
    let mut regs = [0u16; 8];
    let mut pc: u16 = 0;
    for k in 0..WALK_MAX {
        let uop = entry.fetch(pc);
        match step(&uop, &head, n, &mut regs) {
            Ok(turn) => {
                if turn.is_over() {
                    return Ok(line);
                }
                put_turn(&mut line, turn)?;
                pc = turn.place_after(pc);
            }
            // the trace ends, so no step of it is stuck
            Err(_) => return Ok(line),
        }
    }
    Ok(line)
}

/// The row commands that an entry issues at a width, in order, each row with its position.
pub fn straight_line<F: Fetch>(entry: &F, n: u8, alloc: Global) -> Result<Vec<Issued>, NoLine>
    requires legal { IsLegalCode (F.shape entry.now) (F.code entry.now) }
    requires some { 0 < n }
    requires narrow { n ≤ WIDTH_MAX }
    ensures line { IfOk result (λ line. trace (F.shape entry.now) (F.code entry.now) n
        ≡ Ended (issues line.items)) }
    ensures stuck { (stuck : BadWalk) → result ≡ Err (NoLine.Stuck stuck)
        → walked (trace (F.shape entry.now) (F.code entry.now) n) ≡ Err stuck }
    ensures long { (counts : Counts) → result ≡ Err (NoLine.TooLong counts)
        → (walked (trace (F.shape entry.now) (F.code entry.now) n) ≡ Ok counts)
        × (LINE_MAX < counts.aap + counts.ap) }
{
    match walk(entry, n) {
        Ok(counts) => {
            if counts.aap + counts.ap > LINE_MAX {
                return Err(NoLine::TooLong(counts));
            }
            match issued_line(entry, n, alloc) {
                Ok(line) => Ok(line),
                Err(NoMemory) => Err(NoLine::NoMemory),
            }
        }
        Err(stuck) => Err(NoLine::Stuck(stuck)),
    }
}
