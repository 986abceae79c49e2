//! Whether an entry gives what a compiled one gives.

ghost use Rattle.bdd.specs.Paths.{assigned};
ghost use Rattle.std.specs.Prelude.{◌≡◌, ◌≢◌, ◌+◌, ◌<◌, ◌≤◌, ◌^◌, ℕ, List, IfOk, IfNone, IfSome};
ghost use Rattle.std.specs.Prelude.{Err, false};
ghost use Rattle.std.specs.Prelude.{length};
ghost use Rattle.uprog_code.specs.Shape.{shape_of};
ghost use Rattle.uprog_code.specs.Machine.{HasEnded, trace, issues_of};
ghost use Rattle.uprog_code.specs.Legal.{IsLegalCode};
ghost use Rattle.uprog_code.specs.Implements.{Gives};
ghost use Rattle.bdd.specs.declared.Shortage.{Shortage};
ghost use Rattle.bdd.specs.Edges.{constant};
ghost use Rattle.bdd.specs.Graphs.{AreNodes, HasReached, IsNamed, Keeps};
ghost use Rattle.symbolic_column.specs.Symbols.{AreCells};
ghost use Rattle.binding_laws.specs.Canonical.{canonical_rows, result_rows};
ghost use Rattle.verify_core.specs.declared.start.Begin.TheVariants.{Values};
ghost use Rattle.verify_core.specs.SymbolicRuns.{IsCase, IsCaseOf};
ghost use Rattle.verify_core.specs.Verdicts.{Fails, SameKinds};

use crate::canonical::{canonical_bank, kinds_of_results, rows_of_results};
use crate::case::{Case, numbers, ones};
use crate::compare::results_difference;
use crate::run::run_from;
use crate::start::{Begin, start};
use bdd::{Diagram, Edge, Shortage, Uncounted};
use bit_rows::WIDTH_MAX;
use std::alloc::Global;
use symbolic_column::SymbolicColumn;
use uprog_code::{Fetch, Head};

/// The numbers that a column of these values has, and those of both ends under them.
pub(crate) fn case_at(
    own: &SymbolicColumn,
    made: &SymbolicColumn,
    head: &Head,
    n: u8,
    path: &[bool],
    diagram: &mut Diagram,
    alloc: Global,
) -> Result<Case, Shortage>
    requires nodes { AreNodes diagram.old.nodes }
    requires own { AreCells diagram.old.nodes own.now }
    requires made { AreCells diagram.old.nodes made.now }
    requires own_rows { result_rows (shape_of head.now) n ≤ length own.now.rows }
    requires made_rows { result_rows (shape_of head.now) n ≤ length made.now.rows }
    requires own_short { length own.now.rows < 2 ^ 16 }
    requires made_short { length made.now.rows < 2 ^ 16 }
    requires some { 0 < n }
    requires narrow { n ≤ WIDTH_MAX }
    requires variables { 6 + canonical_rows (shape_of head.now) n ≤ diagram.old.limits.variables }
    ensures case { IfOk result (λ case. IsCase (shape_of head.now) n (Values path.entry)
        diagram.new.nodes own.now made.now (assigned path.now) case) }
    ensures nodes { AreNodes diagram.new.nodes }
    ensures keeps { Keeps diagram.old.nodes diagram.new.nodes }
    ensures limits { diagram.new.limits ≡ diagram.old.limits }
    ensures reached { (s : Shortage) → result ≡ Err s → HasReached s diagram.new }
{
    let sources = head.sources.as_slice();
    let results = rows_of_results(head, n);
    let rows = canonical_bank(head, n);
    let count = sources.len() as u8;
    let begun = start(Begin::Values(path), rows, n, count, results, diagram, alloc)?;
    let Ok(ones) = ones(&begun, diagram, path, head, n, alloc) else {
        return Err(Shortage::NoMemory);
    };
    let kinds = kinds_of_results(head);
    Ok(Case {
        sources: numbers(&begun, diagram, path, sources, results, n),
        got: numbers(own, diagram, path, kinds.as_slice(), 0, n),
        wanted: numbers(made, diagram, path, kinds.as_slice(), 0, n),
        ones,
    })
}

/// The numbers of a case in which the edge is true, with few cells of the work rows at 1.
fn case_of(
    own: &SymbolicColumn,
    made: &SymbolicColumn,
    head: &Head,
    n: u8,
    e: Edge,
    diagram: &mut Diagram,
    alloc: Global,
) -> Result<Case, Shortage>
    requires nodes { AreNodes diagram.old.nodes }
    requires own { AreCells diagram.old.nodes own.now }
    requires made { AreCells diagram.old.nodes made.now }
    requires own_rows { result_rows (shape_of head.now) n ≤ length own.now.rows }
    requires made_rows { result_rows (shape_of head.now) n ≤ length made.now.rows }
    requires own_short { length own.now.rows < 2 ^ 16 }
    requires made_short { length made.now.rows < 2 ^ 16 }
    requires named { IsNamed diagram.old.nodes e }
    requires different { e ≢ constant false }
    requires some { 0 < n }
    requires narrow { n ≤ WIDTH_MAX }
    requires variables { 6 + canonical_rows (shape_of head.now) n ≤ diagram.old.limits.variables }
    ensures case { IfOk result (λ case. IsCaseOf (shape_of head.now) n diagram.old.nodes
        diagram.new.nodes own.now made.now e case) }
    ensures keeps { Keeps diagram.old.nodes diagram.new.nodes }
    ensures limits { diagram.new.limits ≡ diagram.old.limits }
    ensures reached { (s : Shortage) → result ≡ Err s → HasReached s diagram.new }
{
    let first = 6 + u32::from(rows_of_results(head, n));
    let sources = u32::from(n) * head.sources.as_slice().len() as u32;
    let uncounted = Uncounted {
        first,
        end: first + sources,
    };
    let path = match diagram.witness(e, uncounted, alloc) {
        Ok(Some(path)) => path,
        // the edge is not constantly false, so there is one where there is memory
        _ => return Err(Shortage::NoMemory),
    };
    let case = case_at(own, made, head, n, &path, diagram, alloc)?;
    Ok(case)
}

/// A case in which the two give different numbers, or none where they never do.
pub(crate) fn failing_case<F: Fetch, G: Fetch>(
    own: &F,
    made: &G,
    n: u8,
    diagram: &mut Diagram,
    alloc: Global,
) -> Result<Option<Case>, Shortage>
    requires nodes { AreNodes diagram.old.nodes }
    requires own_legal { IsLegalCode (F.shape own.now) (F.code own.now) }
    requires made_legal { IsLegalCode (G.shape made.now) (G.code made.now) }
    requires some { 0 < n }
    requires narrow { n ≤ WIDTH_MAX }
    requires own_ends { HasEnded (trace (F.shape own.now) (F.code own.now) n) }
    requires made_ends { HasEnded (trace (G.shape made.now) (G.code made.now) n) }
    requires kinds { SameKinds (F.shape own.now) (G.shape made.now) }
    requires own_variables { 6 + canonical_rows (F.shape own.now) n
        ≤ diagram.old.limits.variables }
    requires made_variables { 6 + canonical_rows (G.shape made.now) n
        ≤ diagram.old.limits.variables }
    ensures same { IfOk result (λ o. IfNone o ((meaning : List ℕ → List ℕ)
        → Gives (G.shape made.now) n (issues_of (trace (G.shape made.now) (G.code made.now) n))
        meaning → Gives (F.shape own.now) n
        (issues_of (trace (F.shape own.now) (F.code own.now) n)) meaning)) }
    ensures fails { IfOk result (λ o. IfSome o (λ case. (meaning : List ℕ → List ℕ)
        → Gives (G.shape made.now) n (issues_of (trace (G.shape made.now) (G.code made.now) n))
        meaning → Fails (F.shape own.now) n
        (issues_of (trace (F.shape own.now) (F.code own.now) n)) meaning case)) }
    ensures limits { diagram.new.limits ≡ diagram.old.limits }
    ensures reached { (s : Shortage) → result ≡ Err s → HasReached s diagram.new }
{
    let own_end = run_from(Begin::Variables, own, n, diagram, alloc)?;
    let made_end = run_from(Begin::Variables, made, n, diagram, alloc)?;
    let head = own.head();
    match results_difference(&own_end, &made_end, &head, n, diagram)? {
        None => Ok(None),
        Some(e) => {
            let case = case_of(&own_end, &made_end, &head, n, e, diagram, alloc)?;
            Ok(Some(case))
        }
    }
}
