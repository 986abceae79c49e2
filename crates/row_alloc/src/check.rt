//! A body followed with literals in place of bits.

ghost use Rattle.std.specs.Prelude.{◌≡◌, ◌<◌, ◌≤◌, ◌+◌, ◌↔◌, ℕ, length, true, IsTrue, map};
ghost use Rattle.std.specs.List.{list_all};
ghost use Rattle.dram_model.specs.declared.address.Cell.TheVariants.{D as CellD};
ghost use Rattle.dram_model.specs.Column.{lines_of, is_address};
ghost use Rattle.row_alloc.specs.Rows.{place, bound, out_at};
ghost use Rattle.row_alloc.specs.Legal.{is_ref, is_legal_cmd, are_legal};
ghost use Rattle.row_alloc.specs.Body.{FitBody};
ghost use Rattle.row_alloc.specs.Numbering.{own_rows, own_output};
ghost use Rattle.row_alloc.specs.Symbolic.{sym_sense, sym_settle, sym_step, sym_run};
ghost use Rattle.row_alloc.specs.Table.{symbols_of, is_kept};

use crate::body::{BodyCmd, BodyRef, OutRow};
use crate::sensing::sense;
use crate::table::CellLiterals;
use dram_model::{Addr, lines};
use mig_graph::{Lit, Mig};

/// The address of a reference where each row stands at its own number.
fn address(outs: &[OutRow], inputs: u8, x: BodyRef) -> Addr
    requires legal { is_ref inputs (length outs.now) x ≡ true }
    requires outs { length outs.now ≤ 8 }
    requires inputs { inputs ≤ 80 }
    requires same { (j k : ℕ) → j < length outs.now → (out_at outs.now j).same ≡ Some k
        → k < inputs }
    ensures place { result ≡ place (own_rows outs.now) x }
    ensures address { is_address result ≡ true }
    ensures kept { list_all (λ line. is_kept line.cell) (lines_of result) ≡ true }
{
    match x {
        BodyRef::B(k) => Addr::B(k),
        BodyRef::C(k) => Addr::C(k),
        BodyRef::In(k) => Addr::D(u16::from(k)),
        BodyRef::Out(j) => Addr::D(own_row(outs, j)),
        BodyRef::Spill(i) => Addr::D(88 + u16::from(i)),
    }
}

/// The row of an output where each row stands at its own number.
fn own_row(outs: &[OutRow], j: u8) -> u16
    requires { j < length outs.now }
    ensures { result ≡ own_output (out_at outs.now j).same j }
{
    match outs[j as usize].same {
        Some(k) => u16::from(k),
        None => 80 + u16::from(j),
    }
}

/// What an address senses; its cells take it.
fn activate(m: &Mig, table: &mut CellLiterals, x: Addr) -> Option<Lit>
    requires address { is_address x ≡ true }
    requires kept { list_all (λ line. is_kept line.cell) (lines_of x) ≡ true }
    ensures value { result ≡ sym_sense m.now x (symbols_of table.old) }
    ensures table { symbols_of table.new ≡ sym_settle x (sym_sense m.now x (symbols_of table.old))
        (symbols_of table.old) }
{
    let raised = lines(x);
    let sensed = sense(m, table, raised.as_slice());
    table.settle(raised.as_slice(), sensed);
    sensed
}

/// One command.
fn step(m: &Mig, outs: &[OutRow], table: &mut CellLiterals, cmd: BodyCmd)
    requires fit { FitBody m.now outs.now }
    requires legal { is_legal_cmd m.now.inputs (length outs.now) cmd ≡ true }
    ensures { symbols_of table.new ≡ sym_step m.now (bound (own_rows outs.now) cmd)
        (symbols_of table.old) }
{
    match cmd {
        BodyCmd::Ap(x) => {
            let _ = activate(m, table, address(outs, m.inputs(), x));
        }
        BodyCmd::Aap(x, y) => {
            let sensed = activate(m, table, address(outs, m.inputs(), x));
            let raised = lines(address(outs, m.inputs(), y));
            table.settle(raised.as_slice(), sensed);
        }
    }
}

/// All commands, in order.
pub fn follow(m: &Mig, outs: &[OutRow], table: &mut CellLiterals, cmds: &[BodyCmd])
    requires fit { FitBody m.now outs.now }
    requires legal { are_legal m.now.inputs (length outs.now) cmds.now ≡ true }
    ensures { symbols_of table.new ≡ sym_run m.now (map (bound (own_rows outs.now)) cmds.now)
        (symbols_of table.old) }
{
    for cmd in cmds {
        step(m, outs, table, *cmd);
    }
}

/// Whether each output's cell holds its literal.
pub fn ends_right(outs: &[OutRow], inputs: u8, table: &CellLiterals) -> bool
    requires outs { length outs.now ≤ 8 }
    requires inputs { inputs ≤ 80 }
    requires same { (j k : ℕ) → j < length outs.now → (out_at outs.now j).same ≡ Some k
        → k < inputs }
    ensures { IsTrue result ↔ ((j : ℕ) → j < length outs.now
        → symbols_of table.now (CellD ((own_rows outs.now).output j))
        ≡ Some (out_at outs.now j).lit) }
{
    for (j, out) in outs.iter().enumerate() {
        if table.d[own_row(outs, j as u8) as usize] != Some(out.lit) {
            return false;
        }
    }
    true
}
