//! What is found of the entry of an op's name.

ghost use Rattle.std.specs.Prelude.{◌≡◌, ◌<◌, ◌≤◌, List, IfOk};
ghost use Rattle.uprog_code.specs.Shape.{microprogram_of, microprograms_of, shape_of};
ghost use Rattle.uprog_code.specs.Machine.{HasEnded, trace};
ghost use Rattle.uprog_code.specs.Legal.{IsLegalCode};
ghost use Rattle.uprog_code.specs.Programs.{IsProgram};
ghost use Rattle.uprog_code.specs.Texts.{EntryDoes, ImplementsAll, TextOp};
ghost use Rattle.verify_job.specs.Findings.{AreAtWidths, AreFindings, IsFinding};
ghost use Rattle.prog_text.specs.Widths.{AreWidths};
ghost use Rattle.verify_job.specs.Widths.{AllEnd};

use bit_rows::WIDTH_MAX;
use faults::{NoMemory, keep};
use std::alloc::Global;
use uprog_bin::ProgView;
use uprog_code::{EntryCode, Fetch, Head, Program};
use verify_core::{Verdict, fresh_diagram, verify_entry};

/// What is found of the entry of an op's name.
#[derive(Drop)]
pub enum Finding {
    /// The program has no entry of this name.
    NoEntry,
    /// It has one, with this head, of which this is said.
    Entry(Head, Verdict),
}

/// What is found of the entry of an op's name at one of the widths.
#[derive(Drop)]
pub struct FoundAt {
    pub width: u8,
    pub finding: Finding,
}

/// What is found of the entry of an op's name at each of the widths, in order.
#[derive(Drop)]
pub struct OpFindings {
    pub at: Vec<FoundAt>,
}

/// What is found of the entry of an op's name, by the compiler's microprogram of the op. The
/// diagram is dropped with it.
fn finding_of(
    made: &EntryCode,
    prog: &ProgView<'_>,
    n: u8,
    alloc: Global,
) -> Result<Finding, NoMemory>
    requires some { 0 < n }
    requires narrow { n ≤ WIDTH_MAX }
    requires legal { IsLegalCode (shape_of made.now.head) made.now.code.items }
    requires ends { HasEnded (trace (shape_of made.now.head) made.now.code.items n) }
    ensures { IfOk result (λ f. (o : TextOp) → EntryDoes (microprogram_of made.now) o
        → IsFinding n prog.now.programs o f) }
{
    match prog.find(&made.head.name) {
        None => Ok(Finding::NoEntry),
        Some(at) => {
            let entry = prog.entry(at);
            let mut diagram = fresh_diagram(&entry, made, n, alloc)?;
            let verdict = verify_entry(&entry, made, n, &mut diagram, alloc)?;
            Ok(Finding::Entry(entry.head(), verdict))
        }
    }
}

/// What is found at each of the widths.
fn findings_of(
    made: &EntryCode,
    prog: &ProgView<'_>,
    widths: &[u8],
    alloc: Global,
) -> Result<OpFindings, NoMemory>
    requires widths { AreWidths widths.now }
    requires legal { IsLegalCode (shape_of made.now.head) made.now.code.items }
    requires ends { AllEnd (shape_of made.now.head) made.now.code.items }
    ensures { IfOk result (λ found. (o : TextOp) → EntryDoes (microprogram_of made.now) o
        → AreAtWidths widths.now prog.now.programs o found.at.items) }
{
    let mut at = Vec::new(alloc);
    for width in widths {
        let width = *width;
        let finding = finding_of(made, prog, width, alloc)?;
        keep(&mut at, FoundAt { width, finding })?;
    }
    Ok(OpFindings { at })
}

/// What is found of the program's entry of each op's name, in order, at each of the widths, by the
/// program that the compiler made of the ops. Each op has its own diagram at each width.
///
/// Only a lack of memory is an `Err`.
pub fn verify_all(
    made: &Program,
    prog: &ProgView<'_>,
    widths: &[u8],
    alloc: Global,
) -> Result<Vec<OpFindings>, NoMemory>
    requires widths { AreWidths widths.now }
    requires legal { IsProgram (microprograms_of made.now) }
    requires implements { (ops : List TextOp) × ImplementsAll (microprograms_of made.now) ops }
    ensures { IfOk result (λ found. (ops : List TextOp)
        → ImplementsAll (microprograms_of made.now) ops
        → AreFindings widths.now prog.now.programs ops found.items) }
{
    let mut found = Vec::new(alloc);
    for entry in made.entries.as_slice() {
        let findings = findings_of(entry, prog, widths, alloc)?;
        keep(&mut found, findings)?;
    }
    Ok(found)
}
