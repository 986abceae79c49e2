//! The names of the cells that are 1 at the start of a case.

ghost use Rattle.std.specs.Prelude.{◌≡◌, ◌+◌, ◌*◌, ◌<◌, ◌≤◌, ◌++◌, length, OnOk};
ghost use Rattle.uprog_code.specs.Shape.{results, shape_of};
ghost use Rattle.binding_laws.specs.Canonical.{result_rows, value_rows};
ghost use Rattle.verify_job.specs.Cells.{cell_text, cells_text, ones_text, position_text};
ghost use Rattle.verify_job.specs.Cells.{row_text, value_text, work_text};

use crate::pieces::{put, put_number};
use bit_rows::Value;
use dram_model::Cell;
use faults::NoMemory;
use uprog_code::Head;
use verify_core::rows_of_results;

/// Appends a letter, and a position in brackets.
fn put_position(out: &mut Vec<u8>, letter: &[u8], position: u32) -> Result<(), NoMemory>
    ensures { OnOk result (out.new.items
        ≡ out.old.items ++ (letter.now ++ position_text position)) }
{
    put(out, letter)?;
    put_number(out, b"[", Value::from(position))?;
    put(out, b"]")
}

/// Appends the value to which the k-th row of values belongs, n rows each, and the position in it.
fn put_value(out: &mut Vec<u8>, letter: &[u8], n: u8, k: u32) -> Result<(), NoMemory>
    requires { 0 < n }
    ensures { OnOk result (out.new.items ≡ out.old.items ++ value_text letter.now n k) }
{
    put_number(out, letter, Value::from(k / u32::from(n)))?;
    put_position(out, b"", k % u32::from(n))
}

/// Appends the name of the k-th row behind the values.
fn put_work(out: &mut Vec<u8>, bits: u8, words: u8, n: u8, k: u32) -> Result<(), NoMemory>
    ensures { OnOk result (out.new.items ≡ out.old.items ++ work_text bits words n k) }
{
    let bits = u32::from(bits);
    let need = bits + u32::from(n) * u32::from(words);
    if k < bits {
        put_number(out, b"t", Value::from(k))
    } else if k < need {
        put_value(out, b"w", n, k - bits)
    } else {
        put_number(out, b"p", Value::from(k - need))
    }
}

/// Appends the name of a data row.
fn put_row(out: &mut Vec<u8>, head: &Head, n: u8, row: u32) -> Result<(), NoMemory>
    ensures { OnOk result (out.new.items ≡ out.old.items ++ row_text (shape_of head.now) n row) }
{
    let results = u32::from(rows_of_results(head, n));
    let values = results + u32::from(n) * head.sources.as_slice().len() as u32;
    if row < u32::from(n) {
        put_position(out, b"y", row)
    } else if row < results {
        put_position(out, b"z", row - u32::from(n))
    } else if row < values {
        put_value(out, b"s", n, row - results)
    } else {
        put_work(out, head.bits, head.words, n, row - values)
    }
}

/// Appends the name of a cell after a blank.
fn put_cell(out: &mut Vec<u8>, head: &Head, n: u8, cell: Cell) -> Result<(), NoMemory>
    ensures { OnOk result (out.new.items ≡ out.old.items ++ cell_text (shape_of head.now) n cell) }
{
    put(out, b" ")?;
    match cell {
        Cell::T(k) => put_number(out, b"T", Value::from(k)),
        Cell::Dcc(k) => put_number(out, b"DCC", Value::from(k)),
        Cell::C(k) => put_number(out, b"C", Value::from(k)),
        Cell::D(row) => put_row(out, head, n, u32::from(row)),
    }
}

/// Appends the names of cells, each after a blank.
fn put_cells(out: &mut Vec<u8>, head: &Head, n: u8, cells: &[Cell]) -> Result<(), NoMemory>
    ensures { OnOk result (out.new.items
        ≡ out.old.items ++ cells_text (shape_of head.now) n cells.now) }
{
    for cell in cells {
        put_cell(out, head, n, *cell)?;
    }
    Ok(())
}

/// Appends the cells that are 1 at the start, where there are any.
pub(crate) fn put_ones(out: &mut Vec<u8>, head: &Head, n: u8, ones: &[Cell]) -> Result<(), NoMemory>
    ensures { OnOk result (out.new.items
        ≡ out.old.items ++ ones_text (shape_of head.now) n ones.now) }
{
    if ones.is_empty() {
        return Ok(());
    }
    put(out, b" from")?;
    put_cells(out, head, n, ones)
}
