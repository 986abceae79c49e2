//! Cells that hold functions.

ghost use Rattle.std.specs.Prelude.{◌≡◌, ◌<◌, ◌≤◌, ℕ, Bool, true, false, List, length, IfOk, OnOk};
ghost use Rattle.std.specs.Prelude.{if◌then◌else◌, Err};
ghost use Rattle.dram_model.specs.declared.address.Cell.{Cell};
ghost use Rattle.dram_model.specs.declared.address.Command.TheVariants.{Ap};
ghost use Rattle.dram_model.specs.Column.{is_cell, is_written, is_in_range, is_legal};
ghost use Rattle.dram_model.specs.Column.{sense as sense_of, settle as settle_of, step as step_of};
ghost use Rattle.bdd.specs.declared.Node.{Node};
ghost use Rattle.bdd.specs.declared.Shortage.{Shortage};
ghost use Rattle.bdd.specs.Edges.{complement_if, constant};
ghost use Rattle.bdd.specs.Graphs.{value, IsNamed, Keeps, AreNodes, HasReached};
ghost use Rattle.symbolic_column.specs.Symbols.{edge_at, read_edge, column_of, AreCells};

use bdd::{Diagram, Edge, NoMemory, Shortage, complement_if, constant};
use dram_model::{Addr, Cell, Command, Line, lines};
use std::alloc::Global;
use std::marker::Model;

/// The edges of the cells of one column.
pub struct SymbolicColumn {
    t: [Edge; 4],
    dcc: [Edge; 2],
    rows: Vec<Edge>,
}

impl Drop for SymbolicColumn {
    fn drop(self) {
        let SymbolicColumn {
            t: _,
            dcc: _,
            rows: _,
        } = self;
    }
}

impl Model for SymbolicColumn {
    ghost use Rattle.symbolic_column.specs.Symbols.{Cells};
    ghost use Rattle.std.specs.Prelude.{◌≡◌, length};

    ghost Value = { Cells };

    ghost view = { λ s. record { t = s.t; dcc = s.dcc; rows = s.rows.items } };

    ghost invariant = { λ s. (length s.t ≡ 4) × (length s.dcc ≡ 2) };
}

impl SymbolicColumn {
    /// What a line reads.
    fn read(&self, line: Line) -> Edge
        requires { is_cell (length self.now.rows) line.cell ≡ true }
        ensures { result ≡ read_edge self.now line }
    {
        let e = match line.cell {
            Cell::T(k) => self.t[k as usize],
            Cell::Dcc(k) => self.dcc[k as usize],
            Cell::C(k) => constant(k != 0),
            Cell::D(k) => self.rows[k as usize],
        };
        complement_if(line.inverted, e)
    }

    /// The line's cell takes the function.
    fn drive(&mut self, line: Line, e: Edge)
        requires { is_cell (length self.old.rows) line.cell ≡ true }
        ensures cells { (cell : Cell) → edge_at self.new cell
            ≡ (if is_written line.cell cell then complement_if line.inverted e
            else edge_at self.old cell) }
        ensures rows { length self.new.rows ≡ length self.old.rows }
    {
        let taken = complement_if(line.inverted, e);
        match line.cell {
            Cell::T(k) => self.t[k as usize] = taken,
            Cell::Dcc(k) => self.dcc[k as usize] = taken,
            Cell::C(_) => {}
            Cell::D(k) => self.rows[k as usize] = taken,
        }
    }

    /// The cells that an address raises take the function.
    fn settle(&mut self, x: Addr, e: Edge)
        requires { is_in_range (length self.old.rows) x ≡ true }
        ensures column { (nodes : List Node) (bits : ℕ → Bool) → column_of nodes bits self.new
            ≡ settle_of x (value nodes bits e) (column_of nodes bits self.old) }
        ensures named { (nodes : List Node) → IsNamed nodes e → AreCells nodes self.old
            → AreCells nodes self.new }
        ensures rows { length self.new.rows ≡ length self.old.rows }
    {
        let raised = lines(x);
        for line in raised.as_slice() {
            self.drive(*line, e);
        }
    }

    /// The function that an address senses.
    fn sense(&self, diagram: &mut Diagram, x: Addr) -> Result<Edge, Shortage>
        requires nodes { AreNodes diagram.old.nodes }
        requires named { AreCells diagram.old.nodes self.now }
        requires range { is_in_range (length self.now.rows) x ≡ true }
        ensures value { IfOk result (λ e. (bits : ℕ → Bool) → value diagram.new.nodes bits e
            ≡ sense_of x (column_of diagram.old.nodes bits self.now)) }
        ensures named { IfOk result (λ e. IsNamed diagram.new.nodes e) }
        ensures nodes { AreNodes diagram.new.nodes }
        ensures keeps { Keeps diagram.old.nodes diagram.new.nodes }
        ensures limits { diagram.new.limits ≡ diagram.old.limits }
        ensures reached { (s : Shortage) → result ≡ Err s → HasReached s diagram.new }
    {
        let raised = lines(x);
        match raised.as_slice() {
            [a] => Ok(self.read(*a)),
            [a, b, c, ..] => {
                let e = diagram.maj(self.read(*a), self.read(*b), self.read(*c))?;
                Ok(e)
            }
            [_, _] => Ok(constant(false)),
            [] => Ok(constant(false)),
        }
    }

    /// Activates an address. Gives the function that was sensed.
    fn activate(&mut self, diagram: &mut Diagram, x: Addr) -> Result<Edge, Shortage>
        requires nodes { AreNodes diagram.old.nodes }
        requires named { AreCells diagram.old.nodes self.old }
        requires range { is_in_range (length self.old.rows) x ≡ true }
        ensures value { IfOk result (λ e. (bits : ℕ → Bool) → value diagram.new.nodes bits e
            ≡ sense_of x (column_of diagram.old.nodes bits self.old)) }
        ensures column { OnOk result ((bits : ℕ → Bool) → column_of diagram.new.nodes bits self.new
            ≡ step_of (Ap x) (column_of diagram.old.nodes bits self.old)) }
        ensures named { IfOk result (λ e. IsNamed diagram.new.nodes e) }
        ensures cells { AreCells diagram.new.nodes self.new }
        ensures nodes { AreNodes diagram.new.nodes }
        ensures keeps { Keeps diagram.old.nodes diagram.new.nodes }
        ensures limits { diagram.new.limits ≡ diagram.old.limits }
        ensures reached { (s : Shortage) → result ≡ Err s → HasReached s diagram.new }
        ensures rows { length self.new.rows ≡ length self.old.rows }
    {
        let e = self.sense(diagram, x)?;
        self.settle(x, e);
        Ok(e)
    }

    /// Does a row command.
    pub fn step(&mut self, diagram: &mut Diagram, command: Command) -> Result<(), Shortage>
        requires nodes { AreNodes diagram.old.nodes }
        requires named { AreCells diagram.old.nodes self.old }
        requires legal { is_legal (length self.old.rows) command ≡ true }
        ensures column { OnOk result ((bits : ℕ → Bool) → column_of diagram.new.nodes bits self.new
            ≡ step_of command (column_of diagram.old.nodes bits self.old)) }
        ensures cells { AreCells diagram.new.nodes self.new }
        ensures nodes { AreNodes diagram.new.nodes }
        ensures keeps { Keeps diagram.old.nodes diagram.new.nodes }
        ensures limits { diagram.new.limits ≡ diagram.old.limits }
        ensures reached { (s : Shortage) → result ≡ Err s → HasReached s diagram.new }
        ensures rows { length self.new.rows ≡ length self.old.rows }
    {
        match command {
            Command::Ap(x) => {
                self.activate(diagram, x)?;
                Ok(())
            }
            Command::Aap(x, y) => {
                let e = self.activate(diagram, x)?;
                self.settle(y, e);
                Ok(())
            }
        }
    }

    /// A column of so many data rows, whose cells are all false.
    pub fn new(rows: u16, alloc: Global) -> Result<SymbolicColumn, NoMemory>
        ensures cells { IfOk result (λ s. (cell : Cell) → edge_at s cell ≡ constant false) }
        ensures rows { IfOk result (λ s. length s.rows ≡ rows) }
    {
        let e = constant(false);
        Ok(SymbolicColumn {
            t: [e; 4],
            dcc: [e; 2],
            rows: vec![in alloc; e; usize::from(rows)]?,
        })
    }

    /// The function of a cell, of which that of a C cell says nothing.
    pub fn cell(&self, cell: Cell) -> Edge
        requires { is_cell (length self.now.rows) cell ≡ true }
        ensures { result ≡ edge_at self.now cell }
    {
        match cell {
            Cell::T(k) => self.t[k as usize],
            Cell::Dcc(k) => self.dcc[k as usize],
            Cell::C(_) => constant(false),
            Cell::D(k) => self.rows[k as usize],
        }
    }

    /// Gives a cell a function.
    pub fn set(&mut self, cell: Cell, e: Edge)
        requires { is_cell (length self.old.rows) cell ≡ true }
        ensures cells { (other : Cell) → edge_at self.new other
            ≡ (if is_written cell other then e else edge_at self.old other) }
        ensures rows { length self.new.rows ≡ length self.old.rows }
    {
        self.drive(
            Line {
                cell,
                inverted: false,
            },
            e,
        );
    }
}
