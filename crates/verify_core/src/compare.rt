//! Where the results' rows of two runs differ.

ghost use Rattle.std.specs.Prelude.{◌≡◌, ℕ, Bool, ◌+◌, ◌*◌, ◌<◌, ◌≤◌, IfOk, IfNone, IfSome, Err};
ghost use Rattle.std.specs.Prelude.{length, true, false, ◌≢◌};
ghost use Rattle.dram_model.specs.declared.address.Cell.TheVariants.{D};
ghost use Rattle.uprog_code.specs.Machine.{in_kind};
ghost use Rattle.uprog_code.specs.Shape.{shape_of, width};
ghost use Rattle.bdd.specs.declared.Shortage.{Shortage};
ghost use Rattle.bdd.specs.Edges.{constant};
ghost use Rattle.bdd.specs.Graphs.{AreNodes, HasReached, Keeps};
ghost use Rattle.symbolic_column.specs.Symbols.{AreCells, column_of};
ghost use Rattle.binding_laws.specs.Canonical.{result_rows};
ghost use Rattle.verify_core.specs.SymbolicRuns.{IsDifference, ResultsAgree, ResultsDiffer};

use crate::canonical::rows_of_kind;
use bdd::{Diagram, Edge, Shortage, constant};
use bit_rows::WIDTH_MAX;
use dram_model::Cell;
use symbolic_column::SymbolicColumn;
use uprog_code::{Head, Kind};

/// Whether the edge is the constant false.
fn is_false(e: Edge) -> bool
    ensures same { result ≡ true → e ≡ constant false }
    ensures apart { result ≡ false → e ≢ constant false }
{
    e == constant(false)
}

/// The difference of the first rows that differ, of so many from a row on.
fn first_difference(
    own: &SymbolicColumn,
    made: &SymbolicColumn,
    first: u16,
    count: u8,
    diagram: &mut Diagram,
) -> Result<Option<Edge>, Shortage>
    requires nodes { AreNodes diagram.old.nodes }
    requires own { AreCells diagram.old.nodes own.now }
    requires made { AreCells diagram.old.nodes made.now }
    requires own_rows { first + count ≤ length own.now.rows }
    requires made_rows { first + count ≤ length made.now.rows }
    requires small { first ≤ 128 }
    ensures none { IfOk result (λ o. IfNone o ((bits : ℕ → Bool) (i : ℕ) → i < count
        → column_of diagram.old.nodes bits own.now (D (first + i))
        ≡ column_of diagram.old.nodes bits made.now (D (first + i)))) }
    ensures some { IfOk result (λ o. IfSome o (λ e. (i : ℕ) × (i < count)
        × IsDifference diagram.old.nodes diagram.new.nodes own.now made.now (first + i) e)) }
    ensures nodes { AreNodes diagram.new.nodes }
    ensures keeps { Keeps diagram.old.nodes diagram.new.nodes }
    ensures limits { diagram.new.limits ≡ diagram.old.limits }
    ensures reached { (s : Shortage) → result ≡ Err s → HasReached s diagram.new }
{
    for k in 0..count {
        let cell = Cell::D(first + u16::from(k));
        let e = diagram.xor(own.cell(cell), made.cell(cell))?;
        if !is_false(e) {
            return Ok(Some(e));
        }
    }
    Ok(None)
}

/// The difference of the first rows of the second result that differ, if there is one.
fn second_difference(
    own: &SymbolicColumn,
    made: &SymbolicColumn,
    second: Option<Kind>,
    n: u8,
    diagram: &mut Diagram,
) -> Result<Option<Edge>, Shortage>
    requires nodes { AreNodes diagram.old.nodes }
    requires own { AreCells diagram.old.nodes own.now }
    requires made { AreCells diagram.old.nodes made.now }
    requires own_rows { IfSome second (λ kind. n + width kind n ≤ length own.now.rows) }
    requires made_rows { IfSome second (λ kind. n + width kind n ≤ length made.now.rows) }
    requires narrow { n ≤ WIDTH_MAX }
    ensures none { IfOk result (λ o. IfNone o ((bits : ℕ → Bool) (i : ℕ)
        → in_kind second n i ≡ true → column_of diagram.old.nodes bits own.now (D (n + i))
        ≡ column_of diagram.old.nodes bits made.now (D (n + i)))) }
    ensures some { IfOk result (λ o. IfSome o (λ e. (i : ℕ) × (in_kind second n i ≡ true)
        × IsDifference diagram.old.nodes diagram.new.nodes own.now made.now (n + i) e)) }
    ensures nodes { AreNodes diagram.new.nodes }
    ensures keeps { Keeps diagram.old.nodes diagram.new.nodes }
    ensures limits { diagram.new.limits ≡ diagram.old.limits }
    ensures reached { (s : Shortage) → result ≡ Err s → HasReached s diagram.new }
{
    match second {
        None => Ok(None),
        Some(kind) => {
            let e = first_difference(own, made, u16::from(n), rows_of_kind(kind, n), diagram)?;
            Ok(e)
        }
    }
}

/// The difference of the first rows of results that differ.
pub(crate) fn results_difference(
    own: &SymbolicColumn,
    made: &SymbolicColumn,
    head: &Head,
    n: u8,
    diagram: &mut Diagram,
) -> Result<Option<Edge>, Shortage>
    requires nodes { AreNodes diagram.old.nodes }
    requires own { AreCells diagram.old.nodes own.now }
    requires made { AreCells diagram.old.nodes made.now }
    requires own_rows { result_rows (shape_of head.now) n ≤ length own.now.rows }
    requires made_rows { result_rows (shape_of head.now) n ≤ length made.now.rows }
    requires some { 0 < n }
    requires narrow { n ≤ WIDTH_MAX }
    ensures none { IfOk result (λ o. IfNone o (ResultsAgree (shape_of head.now) n diagram.old.nodes
        own.now made.now)) }
    ensures some { IfOk result (λ o. IfSome o (λ e. ResultsDiffer (shape_of head.now) n
        diagram.old.nodes diagram.new.nodes own.now made.now e)) }
    ensures nodes { AreNodes diagram.new.nodes }
    ensures keeps { Keeps diagram.old.nodes diagram.new.nodes }
    ensures limits { diagram.new.limits ≡ diagram.old.limits }
    ensures reached { (s : Shortage) → result ≡ Err s → HasReached s diagram.new }
{
    match first_difference(own, made, 0, rows_of_kind(head.result, n), diagram)? {
        Some(e) => Ok(Some(e)),
        None => {
            let found = second_difference(own, made, head.second, n, diagram)?;
            Ok(found)
        }
    }
}
