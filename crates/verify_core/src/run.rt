//! A microprogram runs on variables, or on values.

ghost use Rattle.std.specs.Prelude.{◌≡◌, ◌+◌, ◌<◌, ◌≤◌, IfOk, Err};
ghost use Rattle.binding_laws.specs.Canonical.{canonical_rows};
ghost use Rattle.uprog_code.specs.Machine.{HasEnded, trace, issues_of};
ghost use Rattle.uprog_code.specs.Legal.{IsLegalCode};
ghost use Rattle.bdd.specs.declared.Shortage.{Shortage};
ghost use Rattle.bdd.specs.Graphs.{AreNodes, HasReached, Keeps};
ghost use Rattle.verify_core.specs.SymbolicRuns.{IsRun};

use crate::canonical::{canonical_bank, canonical_binding, rows_of_results};
use crate::start::{Begin, start};
use bdd::{Diagram, Shortage};
use bit_rows::WIDTH_MAX;
use std::alloc::Global;
use symbolic_column::SymbolicColumn;
use symbolic_walk::symbolic_run;
use uprog_code::Fetch;

/// Runs a microprogram on a column that begins so, under its canonical binding.
pub(crate) fn run_from<F: Fetch>(
    begin: Begin<'_>,
    entry: &F,
    n: u8,
    diagram: &mut Diagram,
    alloc: Global,
) -> Result<SymbolicColumn, Shortage>
    requires nodes { AreNodes diagram.old.nodes }
    requires legal { IsLegalCode (F.shape entry.now) (F.code entry.now) }
    requires some { 0 < n }
    requires narrow { n ≤ WIDTH_MAX }
    requires ends { HasEnded (trace (F.shape entry.now) (F.code entry.now) n) }
    requires variables { 6 + canonical_rows (F.shape entry.now) n
        ≤ diagram.old.limits.variables }
    ensures runs { IfOk result (λ end. IsRun (F.shape entry.now) n
        (issues_of (trace (F.shape entry.now) (F.code entry.now) n)) begin.entry diagram.new.nodes
        end) }
    ensures nodes { AreNodes diagram.new.nodes }
    ensures keeps { Keeps diagram.old.nodes diagram.new.nodes }
    ensures limits { diagram.new.limits ≡ diagram.old.limits }
    ensures reached { (s : Shortage) → result ≡ Err s → HasReached s diagram.new }
{
    let head = entry.head();
    let binding = canonical_binding(&head, n);
    let rows = canonical_bank(&head, n);
    let sources = head.sources.as_slice().len() as u8;
    let results = rows_of_results(&head, n);
    let mut column = start(begin, rows, n, sources, results, diagram, alloc)?;
    symbolic_run(&mut column, diagram, entry, rows, &binding)?;
    Ok(column)
}
