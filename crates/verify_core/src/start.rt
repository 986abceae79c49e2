//! A column whose cells are variables, or the values that an assignment gives these.

ghost use Rattle.std.specs.Prelude.{◌≡◌, ◌+◌, ◌-◌, ◌*◌, ◌/◌, ◌%◌, ◌<◌, ◌≤◌, ◌^◌, ℕ, Bool, true};
ghost use Rattle.std.specs.Prelude.{false, List};
ghost use Rattle.std.specs.Prelude.{length, IfOk, OnOk, Err};
ghost use Rattle.dram_model.specs.declared.address.Cell.{Cell};
ghost use Rattle.dram_model.specs.Column.{is_cell, is_written};
ghost use Rattle.bdd.specs.declared.Shortage.{Shortage};
ghost use Rattle.bdd.specs.Graphs.{AreNodes, HasReached, IsNamed, Keeps, value};
ghost use Rattle.bdd.specs.Paths.{assigned};
ghost use Rattle.symbolic_column.specs.Symbols.{edge_at, AreCells};
ghost use Rattle.verify_core.specs.Starts.{row_variable, IsMeant, IsStart};

use bdd::{Diagram, Edge, Shortage, constant};
use dram_model::Cell;
use std::alloc::Global;
use symbolic_column::SymbolicColumn;

/// What the cells of a column hold.
#[derive(Clone, Copy)]
pub(crate) enum Begin<'a> {
    /// Each its own variable.
    Variables,
    /// Each the value of its variable: that at the variable's place, and false past the end.
    Values(&'a [bool]),
}

/// The value of a variable.
fn value_of(values: &[bool], variable: u32) -> bool
    ensures { result ≡ assigned values.now variable }
{
    let place = variable as usize;
    if place < values.len() {
        values[place]
    } else {
        false
    }
}

/// The function that a cell of this variable holds.
fn held(begin: Begin<'_>, diagram: &mut Diagram, variable: u32) -> Result<Edge, Shortage>
    requires nodes { AreNodes diagram.old.nodes }
    requires variable { variable < diagram.old.limits.variables }
    ensures value { IfOk result (λ e. (bits : ℕ → Bool) → IsMeant begin.entry bits
        → value diagram.new.nodes bits e ≡ bits variable) }
    ensures named { IfOk result (λ e. IsNamed diagram.new.nodes e) }
    ensures nodes { AreNodes diagram.new.nodes }
    ensures keeps { Keeps diagram.old.nodes diagram.new.nodes }
    ensures limits { diagram.new.limits ≡ diagram.old.limits }
    ensures reached { (s : Shortage) → result ≡ Err s → HasReached s diagram.new }
{
    match begin {
        Begin::Variables => {
            let e = diagram.variable(variable)?;
            Ok(e)
        }
        Begin::Values(values) => Ok(constant(value_of(values, variable))),
    }
}

/// Gives a cell what is held at a variable.
fn put(
    column: &mut SymbolicColumn,
    diagram: &mut Diagram,
    begin: Begin<'_>,
    cell: Cell,
    variable: u32,
) -> Result<(), Shortage>
    requires nodes { AreNodes diagram.old.nodes }
    requires cells { AreCells diagram.old.nodes column.old }
    requires cell { is_cell (length column.old.rows) cell ≡ true }
    requires variable { variable < diagram.old.limits.variables }
    ensures here { OnOk result ((other : Cell) → is_written cell other ≡ true
        → (bits : ℕ → Bool) → IsMeant begin.entry bits
        → value diagram.new.nodes bits (edge_at column.new other) ≡ bits variable) }
    ensures others { OnOk result ((other : Cell) → is_written cell other ≡ false
        → (bits : ℕ → Bool) → value diagram.new.nodes bits (edge_at column.new other)
        ≡ value diagram.old.nodes bits (edge_at column.old other)) }
    ensures cells { AreCells diagram.new.nodes column.new }
    ensures nodes { AreNodes diagram.new.nodes }
    ensures keeps { Keeps diagram.old.nodes diagram.new.nodes }
    ensures limits { diagram.new.limits ≡ diagram.old.limits }
    ensures reached { (s : Shortage) → result ≡ Err s → HasReached s diagram.new }
    ensures rows { length column.new.rows ≡ length column.old.rows }
{
    let e = held(begin, diagram, variable)?;
    column.set(cell, e);
    Ok(())
}

/// The place of a data row in the order of variables.
fn row_variable(n: u32, sources: u32, results: u32, row: u32) -> u32
    requires n { n ≤ 128 }
    requires sources { sources ≤ 4 }
    requires results { results ≤ 256 }
    requires row { row < 2 ^ 16 }
    ensures value { result ≡ row_variable n sources results row }
    ensures small { result < 2 ^ 17 }
    ensures inside { (rows : ℕ) → row < rows → results + n * sources ≤ rows → result < rows }
{
    if row < results {
        row
    } else if row < results + n * sources && n > 0 {
        let k = row - results;
        results + (k % n * sources + k / n)
    } else {
        row
    }
}

/// A column of so many data rows whose cells hold this.
pub(crate) fn start(
    begin: Begin<'_>,
    rows: u16,
    n: u8,
    sources: u8,
    results: u16,
    diagram: &mut Diagram,
    alloc: Global,
) -> Result<SymbolicColumn, Shortage>
    requires nodes { AreNodes diagram.old.nodes }
    requires n { n ≤ 128 }
    requires sources { sources ≤ 4 }
    requires results { results ≤ 256 }
    requires inside { results + n * sources ≤ rows }
    requires variables { 6 + rows ≤ diagram.old.limits.variables }
    ensures start { IfOk result (λ c. IsStart diagram.new.nodes begin.entry n sources results c) }
    ensures cells { IfOk result (λ c. AreCells diagram.new.nodes c) }
    ensures rows { IfOk result (λ c. length c.rows ≡ rows) }
    ensures nodes { AreNodes diagram.new.nodes }
    ensures keeps { Keeps diagram.old.nodes diagram.new.nodes }
    ensures limits { diagram.new.limits ≡ diagram.old.limits }
    ensures reached { (s : Shortage) → result ≡ Err s → HasReached s diagram.new }
{
    let Ok(mut column) = SymbolicColumn::new(rows, alloc) else {
        return Err(Shortage::NoMemory);
    };
    for k in 0..4u8 {
        put(&mut column, diagram, begin, Cell::T(k), u32::from(k))?;
    }
    for j in 0..2u8 {
        put(&mut column, diagram, begin, Cell::Dcc(j), 4 + u32::from(j))?;
    }
    for row in 0..rows {
        let place = row_variable(
            u32::from(n),
            u32::from(sources),
            u32::from(results),
            u32::from(row),
        );
        put(&mut column, diagram, begin, Cell::D(row), 6 + place)?;
    }
    Ok(column)
}
