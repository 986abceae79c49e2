//! Lines that may do what entries do by fewer commands. Nothing is promised of them: what is made
//! of them is checked.

ghost use Rattle.std.specs.Prelude.{◌≡◌, ◌<◌, ◌≤◌, List, IfOk, length};
ghost use Rattle.uprog_code.specs.Shape.{microprograms_of};
ghost use Rattle.uprog_code.specs.Legal.{IsLegalCode};
ghost use Rattle.uprog_code.specs.Programs.{IsProgram};
ghost use Rattle.uprog_code.specs.Texts.{ImplementsAll, TextOp};

use crate::bank::Bank;
use crate::offer::said;
use crate::program::place_of;
use bit_rows::WIDTH_MAX;
use faults::{NoMemory, keep};
use shorten::shorten;
use std::alloc::Global;
use uprog_bin::ProgView;
use uprog_code::{Fetch, Issued, Program};
use verify_core::Verdict;
use width_entry::{NoLine, straight_line};

/// How lines are looked for.
#[derive(Clone, Copy)]
pub struct Effort {
    /// Where the generator begins.
    pub seed: u64,
    /// How many changes are tried for each command.
    pub work: u64,
}

/// A line that may do what the entry does; an empty one where it has none.
fn shorter_line<F: Fetch>(
    entry: &F,
    n: u8,
    effort: Effort,
    alloc: Global,
) -> Result<Vec<Issued>, NoMemory>
    requires legal { IsLegalCode (F.shape entry.now) (F.code entry.now) }
    requires some { 0 < n }
    requires narrow { n ≤ WIDTH_MAX }
{
    let line = match straight_line(entry, n, alloc) {
        Ok(line) => line,
        Err(NoLine::NoMemory) => return Err(NoMemory),
        Err(_) => return Ok(Vec::new(alloc)),
    };
    let head = entry.head();
    let bank = Bank::new(&head, n);
    let commands = bank.commands(&line, alloc)?;
    let work = effort.work.saturating_mul(commands.len() as u64);
    let fewer = shorten(&commands, &bank.roles(&head), effort.seed, work, alloc)?;
    bank.line(&fewer, alloc)
}

/// A line for an entry that does the op of its name, and an empty one for any other.
fn searched_line<F: Fetch>(
    entry: &F,
    made: &Program,
    n: u8,
    effort: Effort,
    alloc: Global,
) -> Result<Vec<Issued>, NoMemory>
    requires legal { IsLegalCode (F.shape entry.now) (F.code entry.now) }
    requires some { 0 < n }
    requires narrow { n ≤ WIDTH_MAX }
    requires made_legal { IsProgram (microprograms_of made.now) }
    requires implements { (ops : List TextOp) × ImplementsAll (microprograms_of made.now) ops }
{
    let entries = made.entries.as_slice();
    let Some(k) = place_of(entries, &entry.head().name) else {
        return Ok(Vec::new(alloc));
    };
    match said(entry, &entries[k], n, alloc)? {
        Verdict::Right(_) => shorter_line(entry, n, effort, alloc),
        _ => Ok(Vec::new(alloc)),
    }
}

/// A line for each entry of a program, in order. Nothing is promised of what the lines do.
pub fn searched_lines(
    prog: &ProgView<'_>,
    made: &Program,
    n: u8,
    effort: Effort,
    alloc: Global,
) -> Result<Vec<Vec<Issued>>, NoMemory>
    requires some { 0 < n }
    requires narrow { n ≤ WIDTH_MAX }
    requires made_legal { IsProgram (microprograms_of made.now) }
    requires implements { (ops : List TextOp) × ImplementsAll (microprograms_of made.now) ops }
    ensures { IfOk result (λ lines. length lines.items ≡ length prog.now.programs) }
{
    let mut lines = Vec::new(alloc);
    for k in 0..prog.entries() {
        let line = searched_line(&prog.entry(k), made, n, effort, alloc)?;
        keep(&mut lines, line)?;
    }
    Ok(lines)
}
