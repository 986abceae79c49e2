//! Whether commands do a body that finds inputs in cells and leaves values in cells.

ghost use Rattle.std.specs.Prelude.{◌≡◌, ◌↔◌, IsTrue, Some, true};
ghost use Rattle.std.specs.List.{AllByRecursion, list_all};
ghost use Rattle.dram_model.specs.declared.address.Line.{Line as LineOf};
ghost use Rattle.row_alloc.specs.Body.{FitBody, DoesBody};
ghost use Rattle.row_alloc.specs.Symbolic.{sym_read};
ghost use Rattle.row_alloc.specs.Table.{symbols_of, is_kept};
ghost use Rattle.row_alloc.specs.Held.{is_held as is_held_in, is_read as is_read_of};
ghost use Rattle.row_alloc.specs.Held.{reads_rows as reads_rows_of, have_layouts};
ghost use Rattle.row_alloc.specs.Held.{DoesHeld, IsHeldChecked, IsChecked, IsLeft};

use crate::body::{BodyCmd, BodyRef, Held, OutRow};
use crate::check::{ends_right, follow};
use crate::layout::layout;
use crate::legal::all_legal;
use crate::table::CellLiterals;
use dram_model::Line;
use mig_graph::{Lit, Mig};

/// Whether the input stands in cells at entry.
pub fn is_held(enter: &[Held], k: u8) -> bool
    ensures { result ≡ is_held_in enter.now k }
{
    enter.iter().any(|h| h.lit.node == u32::from(k) + 1)
}

/// Whether the row is not that of an input that stands in cells.
fn is_read(x: BodyRef, enter: &[Held]) -> bool
    ensures { result ≡ is_read_of enter.now x }
{
    match x {
        BodyRef::In(k) => !is_held(enter, k),
        _ => true,
    }
}

/// Whether the command names no row of such an input.
fn reads_rows(cmd: BodyCmd, enter: &[Held]) -> bool
    ensures { result ≡ reads_rows_of enter.now cmd }
{
    match cmd {
        BodyCmd::Aap(x, y) => is_read(x, enter) && is_read(y, enter),
        BodyCmd::Ap(x) => is_read(x, enter),
    }
}

/// Whether no command names one.
fn all_read_rows(cmds: &[BodyCmd], enter: &[Held]) -> bool
    ensures { result ≡ list_all (reads_rows_of enter.now) cmds.now }
{
    cmds.iter().all(|cmd| reads_rows(*cmd, enter))
}

/// Whether each of the lines reads the literal.
fn all_read(lines: &[Line], lit: Lit, table: &CellLiterals) -> bool
    requires { list_all (λ line. is_kept line.cell) lines.now ≡ true }
    ensures { IsTrue result ↔ AllByRecursion (λ (line : LineOf). sym_read (symbols_of table.now)
        line ≡ Some lit) lines.now }
{
    match lines {
        [] => true,
        [line, rest @ ..] => table.read(*line) == Some(lit) && all_read(rest, lit, table),
    }
}

/// Whether each of the literals stands in its cells.
fn leaves_right(leave: &[Held], table: &CellLiterals) -> bool
    requires { have_layouts leave.now ≡ true }
    ensures { IsTrue result ↔ AllByRecursion (IsLeft (symbols_of table.now)) leave.now }
{
    match leave {
        [] => true,
        [h, rest @ ..] => all_read(layout(h.layout), h.lit, table) && leaves_right(rest, table),
    }
}

/// Whether the commands are legal and their symbolic run ends right, where inputs stand in cells at
/// entry, and values in cells at exit. Then they do the body.
///
/// Not every right body is found right: where three lines sense a value that no node of the graph
/// has, the run knows nothing of it.
pub fn check_held(
    m: &Mig,
    outs: &[OutRow],
    enter: &[Held],
    leave: &[Held],
    cmds: &[BodyCmd],
) -> bool
    requires fit { FitBody m.now outs.now }
    requires enter { have_layouts enter.now ≡ true }
    requires leave { have_layouts leave.now ≡ true }
    ensures exact { IsTrue result ↔ IsHeldChecked m.now outs.now enter.now leave.now cmds.now }
    ensures does { IsTrue result → DoesHeld m.now outs.now enter.now leave.now cmds.now }
{
    let inputs = m.inputs();
    if !all_legal(cmds, inputs, outs.len() as u8) {
        return false;
    }
    if !all_read_rows(cmds, enter) {
        return false;
    }
    let mut table = CellLiterals::holding(inputs, enter);
    follow(m, outs, &mut table, cmds);
    ends_right(outs, inputs, &table) && leaves_right(leave, &table)
}

/// As `check_held`, where all inputs and outputs stand in rows.
pub fn check_body(m: &Mig, outs: &[OutRow], cmds: &[BodyCmd]) -> bool
    requires fit { FitBody m.now outs.now }
    ensures exact { IsTrue result ↔ IsChecked m.now outs.now cmds.now }
    ensures does { IsTrue result → DoesBody m.now outs.now cmds.now }
{
    check_held(m, outs, &[], &[], cmds)
}
