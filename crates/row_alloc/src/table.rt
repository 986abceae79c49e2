//! What each cell holds when a body is followed with literals in place of bits.

ghost use Rattle.std.specs.Prelude.{◌≡◌, ◌≤◌, ◌+◌, ℕ, length, true, false, slice_index_or, nat_lt};
ghost use Rattle.std.specs.Prelude.{if◌then◌else◌, not, ◌&&◌};
ghost use Rattle.std.specs.List.{list_all};
ghost use Rattle.row_alloc.specs.Symbolic.{complemented_option, sym_read, sym_drive};
ghost use Rattle.row_alloc.specs.Symbolic.{sym_settle_lines};
ghost use Rattle.row_alloc.specs.Symbolic.{held as held_of};
ghost use Rattle.row_alloc.specs.Table.{symbols_of, is_kept};
ghost use Rattle.row_alloc.specs.Held.{have_layouts, is_held as is_held_in, taken, rows_start};

use crate::body::Held;
use crate::held::is_held;
use crate::layout::layout;
use dram_model::{Cell, Line};
use mig_graph::{Lit, complement};

/// What each cell holds: a literal or nothing. The data rows are a body's own: 80 for inputs, 8 for
/// outputs and 32 to spill.
#[derive(Drop)]
pub struct CellLiterals {
    pub t: [Option<Lit>; 4],
    pub dcc: [Option<Lit>; 2],
    pub d: [Option<Lit>; 120],
}

impl CellLiterals {
    /// Each input that is not held in its own row, and these literals in their layouts.
    pub fn holding(inputs: u8, enter: &[Held]) -> CellLiterals
        requires inputs { inputs ≤ 80 }
        requires layouts { have_layouts enter.now ≡ true }
        ensures { symbols_of result ≡ taken enter.now (rows_start inputs enter.now) }
    {
        let mut d = [None; 120];
        fill_rows(&mut d, inputs, enter);
        let mut table = CellLiterals {
            t: [None; 4],
            dcc: [None; 2],
            d,
        };
        table.take(enter);
        table
    }

    /// The cells of each layout take their literal.
    fn take(&mut self, cells: &[Held])
        requires { have_layouts cells.now ≡ true }
        ensures { symbols_of self.new ≡ taken cells.now (symbols_of self.old) }
    {
        for h in cells {
            self.settle(layout(h.layout), Some(h.lit));
        }
    }

    /// What a cell holds.
    fn held(&self, cell: Cell) -> Option<Lit>
        requires { is_kept cell ≡ true }
        ensures { result ≡ held_of (symbols_of self.now) cell }
    {
        match cell {
            Cell::T(k) => self.t[k as usize],
            Cell::Dcc(k) => self.dcc[k as usize],
            Cell::C(k) => Some(Lit {
                node: 0,
                inverted: k != 0,
            }),
            Cell::D(n) => self.d[n as usize],
        }
    }

    /// What a line reads.
    pub fn read(&self, line: Line) -> Option<Lit>
        requires { is_kept line.cell ≡ true }
        ensures { result ≡ sym_read (symbols_of self.now) line }
    {
        turn(line.inverted, self.held(line.cell))
    }

    /// The line's cell takes what is sensed.
    fn drive(&mut self, line: Line, sensed: Option<Lit>)
        requires { is_kept line.cell ≡ true }
        ensures { symbols_of self.new ≡ sym_drive line sensed (symbols_of self.old) }
    {
        let taken = turn(line.inverted, sensed);
        match line.cell {
            Cell::T(k) => self.t[k as usize] = taken,
            Cell::Dcc(k) => self.dcc[k as usize] = taken,
            Cell::C(_) => {}
            Cell::D(n) => self.d[n as usize] = taken,
        }
    }

    /// Each line's cell takes what is sensed.
    pub fn settle(&mut self, lines: &[Line], sensed: Option<Lit>)
        requires { list_all (λ line. is_kept line.cell) lines.now ≡ true }
        ensures { symbols_of self.new ≡ sym_settle_lines lines.now sensed (symbols_of self.old) }
    {
        for line in lines {
            self.drive(*line, sensed);
        }
    }
}

/// The literal, or its complement where inverted.
fn turn(inverted: bool, l: Option<Lit>) -> Option<Lit>
    ensures { result ≡ complemented_option inverted l }
{
    let l = l?;
    Some(if inverted { complement(l) } else { l })
}

/// The literal of each input that is not held, in its own place.
fn fill_rows(d: &mut [Option<Lit>], inputs: u8, enter: &[Held])
    requires long { inputs ≤ length d.old }
    requires empty { (n : ℕ) → slice_index_or d.old n None ≡ None }
    ensures { (n : ℕ) → slice_index_or d.new n None
        ≡ (if nat_lt n inputs && not (is_held_in enter.now n)
        then Some (record { node = n + 1; inverted = false }) else None) }
{
    for k in 0..inputs {
        if !is_held(enter, k) {
            d[k as usize] = Some(Lit {
                node: u32::from(k) + 1,
                inverted: false,
            });
        }
    }
}
