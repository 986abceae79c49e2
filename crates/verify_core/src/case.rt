//! The numbers of a case, and where its start is 1.

ghost use Rattle.std.specs.Prelude.{◌≡◌, ◌+◌, ◌*◌, ◌≤◌, ◌^◌, ◌<◌, ◌++◌, ◌∷◌, [], true, length};
ghost use Rattle.std.specs.Prelude.{filter, map, IfOk, OnOk};
ghost use Rattle.std.specs.List.{range_with_len};
ghost use Rattle.bit_rows.specs.Bits.{bit_number};
ghost use Rattle.dram_model.specs.declared.address.Cell.TheVariants.{T, Dcc, D};
ghost use Rattle.dram_model.specs.Column.{is_cell};
ghost use Rattle.dram_model.specs.Elements.{number};
ghost use Rattle.uprog_code.specs.Shape.{shape_of};
ghost use Rattle.uprog_code.specs.Implements.{numbers};
ghost use Rattle.bdd.specs.Paths.{assigned};
ghost use Rattle.symbolic_column.specs.Symbols.{AreCells, column_of};
ghost use Rattle.binding_laws.specs.Canonical.{bases, canonical_rows};
ghost use Rattle.verify_core.specs.Verdicts.{work_cells};

use crate::canonical::{canonical_bank, rows_of_kind, rows_of_results};
use arrayvec::ArrayVec;
use bdd::{Diagram, NoMemory};
use bit_rows::{Value, WIDTH_MAX};
use dram_model::Cell;
use faults::keep;
use std::alloc::Global;
use symbolic_column::SymbolicColumn;
use uprog_code::{Head, Kind};

/// The numbers of an op's values.
pub type Numbers = ArrayVec<Value, 4>;

/// What an entry gives for some numbers and some start, and what the op means.
#[derive(Drop)]
pub struct Case {
    pub sources: Numbers,
    pub got: Numbers,
    pub wanted: Numbers,
    /// The cells that are 1 at the start, but those of the sources: T and DCC cells, then the rows
    /// of results, scratch and spill group as the canonical binding numbers them.
    pub ones: Vec<Cell>,
}

/// A bit as a number.
fn bit_value(bit: bool) -> Value
    ensures value { result ≡ bit_number bit }
    ensures small { result ≤ 1 }
{
    if bit { 1 } else { 0 }
}

/// The number that rows hold under an assignment.
fn number(column: &SymbolicColumn, diagram: &Diagram, path: &[bool], base: u16, n: u8) -> Value
    requires cells { AreCells diagram.now.nodes column.now }
    requires rows { base + n ≤ length column.now.rows }
    requires short { length column.now.rows < 2 ^ 16 }
    requires narrow { n ≤ WIDTH_MAX }
    ensures { result ≡ number base n (column_of diagram.now.nodes (assigned path.now) column.now) }
{
    let mut total: Value = 0;
    for k in (0..n).rev() {
        let bit = diagram.evaluate(column.cell(Cell::D(base + u16::from(k))), path);
        total = 2 * total + bit_value(bit);
    }
    total
}

/// The numbers under an assignment of values that begin at a row, n rows for each.
pub(crate) fn numbers(
    column: &SymbolicColumn,
    diagram: &Diagram,
    path: &[bool],
    kinds: &[Kind],
    start: u16,
    n: u8,
) -> Numbers
    requires cells { AreCells diagram.now.nodes column.now }
    requires few { length kinds.now ≤ 4 }
    requires rows { start + n * length kinds.now ≤ length column.now.rows }
    requires short { length column.now.rows < 2 ^ 16 }
    requires some { 0 < n }
    requires narrow { n ≤ WIDTH_MAX }
    ensures { result.items ≡ numbers n kinds.now (bases n start kinds.now)
        (column_of diagram.now.nodes (assigned path.now) column.now) }
{
    let mut all = ArrayVec::new();
    let mut next = start;
    for kind in kinds {
        all.push(number(column, diagram, path, next, rows_of_kind(*kind, n)));
        next += u16::from(n);
    }
    all
}

/// Appends the cell, if it is 1 under an assignment.
fn push_one(
    ones: &mut Vec<Cell>,
    column: &SymbolicColumn,
    diagram: &Diagram,
    path: &[bool],
    cell: Cell,
) -> Result<(), NoMemory>
    requires cells { AreCells diagram.now.nodes column.now }
    requires cell { is_cell (length column.now.rows) cell ≡ true }
    ensures { OnOk result (ones.new.items ≡ ones.old.items
        ++ filter (column_of diagram.now.nodes (assigned path.now) column.now) (cell ∷ [])) }
{
    if diagram.evaluate(column.cell(cell), path) {
        keep(ones, cell)?;
    }
    Ok(())
}

/// Appends those of so many rows from a row on that are 1 under an assignment.
fn push_rows(
    ones: &mut Vec<Cell>,
    column: &SymbolicColumn,
    diagram: &Diagram,
    path: &[bool],
    first: u16,
    count: u16,
) -> Result<(), NoMemory>
    requires cells { AreCells diagram.now.nodes column.now }
    requires rows { first + count ≤ length column.now.rows }
    requires short { length column.now.rows < 2 ^ 16 }
    ensures { OnOk result (ones.new.items ≡ ones.old.items
        ++ filter (column_of diagram.now.nodes (assigned path.now) column.now)
        (map D (range_with_len first count))) }
{
    for k in 0..count {
        push_one(ones, column, diagram, path, Cell::D(first + k))?;
    }
    Ok(())
}

/// Appends those cells of the B group that are 1 under an assignment.
fn push_b_group(
    ones: &mut Vec<Cell>,
    column: &SymbolicColumn,
    diagram: &Diagram,
    path: &[bool],
) -> Result<(), NoMemory>
    requires cells { AreCells diagram.now.nodes column.now }
    ensures { OnOk result (ones.new.items ≡ ones.old.items
        ++ filter (column_of diagram.now.nodes (assigned path.now) column.now)
        (T 0 ∷ T 1 ∷ T 2 ∷ T 3 ∷ Dcc 0 ∷ Dcc 1 ∷ [])) }
{
    push_one(ones, column, diagram, path, Cell::T(0))?;
    push_one(ones, column, diagram, path, Cell::T(1))?;
    push_one(ones, column, diagram, path, Cell::T(2))?;
    push_one(ones, column, diagram, path, Cell::T(3))?;
    push_one(ones, column, diagram, path, Cell::Dcc(0))?;
    push_one(ones, column, diagram, path, Cell::Dcc(1))?;
    Ok(())
}

/// The cells that are 1 under an assignment, but those of the sources.
pub(crate) fn ones(
    column: &SymbolicColumn,
    diagram: &Diagram,
    path: &[bool],
    head: &Head,
    n: u8,
    alloc: Global,
) -> Result<Vec<Cell>, NoMemory>
    requires cells { AreCells diagram.now.nodes column.now }
    requires rows { length column.now.rows ≡ canonical_rows (shape_of head.now) n }
    requires short { length column.now.rows < 2 ^ 16 }
    requires narrow { n ≤ WIDTH_MAX }
    ensures { IfOk result (λ v. v.items ≡ filter
        (column_of diagram.now.nodes (assigned path.now) column.now)
        (work_cells (shape_of head.now) n)) }
{
    let results = rows_of_results(head, n);
    let values = results + u16::from(n) * head.sources.as_slice().len() as u16;
    let rest = canonical_bank(head, n) - values;
    let mut ones = Vec::new(alloc);
    push_b_group(&mut ones, column, diagram, path)?;
    push_rows(&mut ones, column, diagram, path, 0, results)?;
    push_rows(&mut ones, column, diagram, path, values, rest)?;
    Ok(ones)
}
