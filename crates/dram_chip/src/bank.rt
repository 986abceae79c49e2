//! One bank, and what a row command does to it.

ghost use Rattle.std.specs.Prelude.{◌≡◌, ℕ, ◌<◌, ◌≤◌, ◌+◌, ◌*◌, ◌^◌, length, true, false, IfOk};
ghost use Rattle.bit_rows.specs.Bits.{bit_in, bits_of_words};
ghost use Rattle.dram_model.specs.Column.{is_first, is_second, is_in_range, is_cell};
ghost use Rattle.dram_model.specs.Column.{read as read_of, sense as sense_of, settle as settle_of};
ghost use Rattle.dram_model.specs.Column.{step, blank, drive, plain};
ghost use Rattle.dram_model.specs.declared.address.Cell.{Cell};
ghost use Rattle.dram_model.specs.declared.address.Command.{Command};
ghost use Rattle.dram_chip.specs.Rows.{place as place_of, is_kept, column_at, IsReady};
ghost use Rattle.dram_chip.specs.Rows.{data_row_count};
ghost use Rattle.dram_chip.specs.Rows.{columns_of, IsWired};

use crate::b_group::{Wire, b_wires};
use crate::rows::{get_row, move_row, set_ones, set_row, settle_rows};
use dram_model::{Addr, Cell, Line};
use faults::NoMemory;
use std::alloc::Global;

/// The rows that are no data rows: DCC0 and DCC1, T0 to T3, C0 and C1.
const OTHER_ROWS: usize = 8;

/// A bank: the words of its rows, one row after another.
#[derive(Drop)]
pub struct Bank {
    rows: u16,
    words: u16,
    all: Vec<u64>,
}

/// Which row is a cell's.
#[inline(always)]
fn place(cell: Cell) -> usize
    requires { is_cell (2 ^ 16) cell ≡ true }
    ensures { result ≡ place_of cell }
{
    match cell {
        Cell::Dcc(k) => k as usize,
        Cell::T(k) => 2 + k as usize,
        Cell::C(k) => 6 + k as usize,
        Cell::D(k) => OTHER_ROWS + k as usize,
    }
}

/// The cell's d-wordline.
#[inline(always)]
fn wire_of(cell: Cell) -> Wire
    requires { is_cell (2 ^ 16) cell ≡ true }
    ensures line { result.line ≡ plain cell }
    ensures wired { IsWired result }
{
    Wire {
        line: Line {
            cell,
            inverted: false,
        },
        row: place(cell),
    }
}

impl Bank {
    /// A bank of zeros, with this many data rows, and words in each.
    pub fn new(rows: u16, words: u16, alloc: Global) -> Result<Bank, NoMemory>
        ensures ready { IfOk result IsReady }
        ensures rows { IfOk result (λ bank. data_row_count bank ≡ rows) }
        ensures columns { IfOk result (λ bank. columns_of bank ≡ 64 * words) }
        ensures zeros { IfOk result (λ bank. (c : ℕ) → c < 64 * words → column_at bank c ≡ blank) }
    {
        let n = words as usize;
        let mut all = vec![in alloc; 0u64; n * (OTHER_ROWS + rows as usize)]?;
        set_ones(&mut all, 7 * n, n);
        Ok(Bank { rows, words, all })
    }

    /// Where the row of a cell begins.
    #[inline(always)]
    fn start(&self, cell: Cell) -> usize
        requires ready { IsReady self.now }
        requires cell { is_cell (data_row_count self.now) cell ≡ true }
        ensures start { result ≡ self.now.words * place_of cell }
        ensures room { result + self.now.words ≤ length self.now.all.items }
    {
        self.words as usize * place(cell)
    }

    /// Where the row of a wordline's cell begins.
    #[inline(always)]
    fn wire_start(&self, wire: Wire) -> usize
        requires ready { IsReady self.now }
        requires cell { is_cell (data_row_count self.now) wire.line.cell ≡ true }
        requires wired { IsWired wire }
        ensures start { result ≡ self.now.words * place_of wire.line.cell }
        ensures room { result + self.now.words ≤ length self.now.all.items }
    {
        self.words as usize * wire.row
    }

    /// The line's cell takes what the other line reads.
    #[inline(always)]
    fn drive(&mut self, wire: Wire, src: Wire)
        requires ready { IsReady self.old }
        requires line { is_cell (data_row_count self.old) wire.line.cell ≡ true }
        requires kept { is_kept wire.line.cell ≡ true }
        requires src { is_cell (data_row_count self.old) src.line.cell ≡ true }
        requires wired { IsWired wire }
        requires src_wired { IsWired src }
        ensures ready { IsReady self.new }
        ensures rows { data_row_count self.new ≡ data_row_count self.old }
        ensures columns { columns_of self.new ≡ columns_of self.old }
        ensures driven { (c : ℕ) → c < columns_of self.old
            → column_at self.new c ≡ drive wire.line (read_of (column_at self.old c) src.line)
            (column_at self.old c) }
    {
        let from = self.wire_start(src);
        let to = self.wire_start(wire);
        move_row(
            &mut self.all,
            self.words as usize,
            from,
            to,
            wire.line.inverted != src.line.inverted,
        );
    }

    /// Activates `x`. Gives a line that reads what was sensed.
    #[inline(always)]
    fn activate(&mut self, x: Addr) -> Wire
        requires ready { IsReady self.old }
        requires range { is_in_range (data_row_count self.old) x ≡ true }
        requires first { is_first x ≡ true }
        ensures ready { IsReady self.new }
        ensures rows { data_row_count self.new ≡ data_row_count self.old }
        ensures columns { columns_of self.new ≡ columns_of self.old }
        ensures cell { is_cell (data_row_count self.old) result.line.cell ≡ true }
        ensures wired { IsWired result }
        ensures stepped { (c : ℕ) → c < columns_of self.old
            → column_at self.new c ≡ step (Command.Ap x) (column_at self.old c) }
        ensures sensed { (c : ℕ) → c < columns_of self.old
            → read_of (column_at self.new c) result.line
            ≡ sense_of x (column_at self.old c) }
    {
        let group = match x {
            Addr::D(k) => return wire_of(Cell::D(k)),
            Addr::C(k) => return wire_of(Cell::C(k)),
            Addr::B(k) => k,
        };
        let raised = b_wires(group);
        let wire = raised[0];
        if raised.len() == 3 {
            let p = self.wire_start(wire);
            let q = self.wire_start(raised[1]);
            let r = self.wire_start(raised[2]);
            settle_rows(&mut self.all, self.words as usize, p, q, r);
        }
        wire
    }

    /// Each line of `y` takes what the other line reads. A constant keeps its bits.
    #[inline(always)]
    fn settle(&mut self, y: Addr, src: Wire)
        requires ready { IsReady self.old }
        requires range { is_in_range (data_row_count self.old) y ≡ true }
        requires src { is_cell (data_row_count self.old) src.line.cell ≡ true }
        requires wired { IsWired src }
        ensures ready { IsReady self.new }
        ensures rows { data_row_count self.new ≡ data_row_count self.old }
        ensures columns { columns_of self.new ≡ columns_of self.old }
        ensures settled { (c : ℕ) → c < columns_of self.old
            → column_at self.new c ≡ settle_of y (read_of (column_at self.old c) src.line)
            (column_at self.old c) }
    {
        let group = match y {
            Addr::D(k) => {
                self.drive(wire_of(Cell::D(k)), src);
                return;
            }
            Addr::C(_) => return,
            Addr::B(k) => k,
        };
        let mut from = src;
        for wire in b_wires(group) {
            self.drive(*wire, from);
            from = *wire;
        }
    }

    /// AP(x) in every column.
    #[inline(always)]
    pub fn ap(&mut self, x: Addr)
        requires ready { IsReady self.old }
        requires range { is_in_range (data_row_count self.old) x ≡ true }
        requires first { is_first x ≡ true }
        ensures ready { IsReady self.new }
        ensures rows { data_row_count self.new ≡ data_row_count self.old }
        ensures columns { columns_of self.new ≡ columns_of self.old }
        ensures stepped { (c : ℕ) → c < columns_of self.old
            → column_at self.new c ≡ step (Command.Ap x) (column_at self.old c) }
    {
        let _wire = self.activate(x);
    }

    /// AAP(x, y) in every column.
    #[inline(always)]
    pub fn aap(&mut self, x: Addr, y: Addr)
        requires ready { IsReady self.old }
        requires range { is_in_range (data_row_count self.old) x ≡ true }
        requires first { is_first x ≡ true }
        requires second_range { is_in_range (data_row_count self.old) y ≡ true }
        ensures ready { IsReady self.new }
        ensures rows { data_row_count self.new ≡ data_row_count self.old }
        ensures columns { columns_of self.new ≡ columns_of self.old }
        ensures stepped { (c : ℕ) → c < columns_of self.old
            → column_at self.new c ≡ step (Command.Aap x y) (column_at self.old c) }
    {
        let wire = self.activate(x);
        self.settle(y, wire);
    }

    /// Sets a data row to these words.
    pub fn write(&mut self, row: u16, words: &[u64])
        requires ready { IsReady self.old }
        requires row { row < data_row_count self.old }
        requires fits { columns_of self.old ≡ 64 * length words.now }
        ensures ready { IsReady self.new }
        ensures rows { data_row_count self.new ≡ data_row_count self.old }
        ensures columns { columns_of self.new ≡ columns_of self.old }
        ensures written { (c : ℕ) → c < columns_of self.old
            → column_at self.new c ≡ drive (plain (Cell.D row)) (bit_in (bits_of_words words.now) c)
            (column_at self.old c) }
    {
        let to = self.start(Cell::D(row));
        set_row(&mut self.all, to, words);
    }

    /// Gives a data row as words.
    pub fn read(&self, row: u16, words: &mut [u64])
        requires ready { IsReady self.now }
        requires row { row < data_row_count self.now }
        requires fits { columns_of self.now ≡ 64 * length words.old }
        ensures length { length words.new ≡ length words.old }
        ensures read { (c : ℕ) → c < columns_of self.now → column_at self.now c (Cell.D row)
            ≡ bit_in (bits_of_words words.new) c }
    {
        let from = self.start(Cell::D(row));
        get_row(&self.all, from, words);
    }
}
