//! What becomes of a program where a straight line is offered for each of its entries.

ghost use Rattle.std.specs.Prelude.{◌≡◌, ◌<◌, ◌≤◌, List, IfOk, IfSome, length, map, position};
ghost use Rattle.std.specs.Str.{bytes_eq};
ghost use Rattle.uprog_code.specs.Shape.{microprogram_of, microprograms_of, shape_of};
ghost use Rattle.uprog_code.specs.Legal.{IsLegalCode};
ghost use Rattle.uprog_code.specs.Programs.{IsProgram};
ghost use Rattle.uprog_code.specs.Texts.{ImplementsAll, TextOp};
ghost use Rattle.optimise_job.specs.Outcomes.{AreOutcomes, IsOutcome, lines_of};

use crate::copied::copied;
use crate::offer::{Offered, Outcome, with_line};
use bit_rows::WIDTH_MAX;
use faults::{NoMemory, keep};
use std::alloc::Global;
use uprog_bin::ProgView;
use uprog_code::{EntryCode, Fetch, Issued, Name, Program};

/// A program, and what became of each of its entries.
#[derive(Drop)]
pub struct Optimised {
    pub program: Program,
    pub outcomes: Vec<Outcome>,
}

/// The place of the entry of this name.
pub(crate) fn place_of(entries: &[EntryCode], name: &Name) -> Option<usize>
    ensures value { result
        ≡ position (λ (e : EntryCode). bytes_eq e.head.name name.now) entries.now }
    ensures within { IfSome result (λ k. k < length entries.now) }
{
    entries
        .iter()
        .position(|e| e.head.name.bytes() == name.bytes())
}

/// What becomes of an entry where a line is offered for it, by the compiler's program of the ops.
fn becoming<F: Fetch>(
    entry: &F,
    made: &Program,
    n: u8,
    line: &[Issued],
    room: usize,
    alloc: Global,
) -> Result<Offered, NoMemory>
    requires legal { IsLegalCode (F.shape entry.now) (F.code entry.now) }
    requires some { 0 < n }
    requires narrow { n ≤ WIDTH_MAX }
    requires made_legal { IsProgram (microprograms_of made.now) }
    requires implements { (ops : List TextOp) × ImplementsAll (microprograms_of made.now) ops }
    ensures outcome { IfOk result (λ x. (ops : List TextOp)
        → ImplementsAll (microprograms_of made.now) ops → IsOutcome n room ops (record {
          name = F.name entry.now;
          shape = F.shape entry.now;
          code = F.code entry.now;
        }) line.now (microprogram_of x.entry) x.outcome) }
    ensures legal { IfOk result (λ x. IsLegalCode (shape_of x.entry.head) x.entry.code.items) }
{
    let entries = made.entries.as_slice();
    match place_of(entries, &entry.head().name) {
        None => Ok(Offered {
            entry: copied(entry, alloc)?,
            outcome: Outcome::NoOp,
        }),
        Some(k) => with_line(entry, &entries[k], n, line, room, alloc),
    }
}

/// The program with a straight line at width n in each entry for which the offered one proves right
/// and shorter, by the program that the compiler made of the ops; all other entries as they were.
/// All entries together have at most so many instructions more.
///
/// Only a lack of memory is an `Err`.
pub fn with_lines(
    prog: &ProgView<'_>,
    made: &Program,
    n: u8,
    lines: &[Vec<Issued>],
    room: usize,
    alloc: Global,
) -> Result<Optimised, NoMemory>
    requires program { IsProgram prog.now.programs }
    requires lines { length lines.now ≡ length prog.now.programs }
    requires some { 0 < n }
    requires narrow { n ≤ WIDTH_MAX }
    requires made_legal { IsProgram (microprograms_of made.now) }
    requires implements { (ops : List TextOp) × ImplementsAll (microprograms_of made.now) ops }
    ensures program { IfOk result (λ x. IsProgram (microprograms_of x.program)) }
    ensures outcomes { IfOk result (λ x. (ops : List TextOp)
        → ImplementsAll (microprograms_of made.now) ops
        → AreOutcomes n room ops prog.now.programs (lines_of lines.now) (microprograms_of x.program)
        x.outcomes.items) }
{
    let mut entries = Vec::new(alloc);
    let mut outcomes = Vec::new(alloc);
    let mut left = room;
    for k in 0..prog.entries() {
        let line = &lines[usize::from(k)];
        let entry = prog.entry(k);
        let offered = becoming(&entry, made, n, line, left, alloc)?;
        let more = offered
            .entry
            .code
            .len()
            .saturating_sub(usize::from(entry.len()));
        left = left.saturating_sub(more);
        keep(&mut entries, offered.entry)?;
        keep(&mut outcomes, offered.outcome)?;
    }
    let program = Program { entries };
    Ok(Optimised { program, outcomes })
}
