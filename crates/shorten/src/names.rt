//! Numbers for the addresses and for the cells of one search.

use crate::change::{Cmd, NONE};
use crate::roles::{Roles, Span};
use dram_model::{Addr, Cell, Command, Line, lines};

/// The number of C0. Before it stand B0 to B15, and after it C1 and the data rows.
pub const C0: u8 = 16;

/// The number of the first data row: the sources, then the results, then the scratch.
pub const FIRST_ROW: u8 = 18;

/// The most data rows that are written, and the most sources.
const MOST_OWN: u8 = 122;

const MOST_SOURCES: u8 = 128;

/// The number of the first data row's cell. Before it stand T0 to T3, DCC0 and DCC1.
const FIRST_CELL: u8 = 6;

/// The places of the values that stand for no command: of what is not known, of C0 and of the first
/// source.
pub const UNKNOWN_SLOT: u16 = 0;

pub const ZERO_SLOT: u16 = 1;

pub const SOURCE_SLOT: u16 = 2;

/// What an address raises: cells, or a row that is never written.
#[derive(Clone, Copy)]
pub struct Raised {
    /// How many cells: none of a row that is never written.
    pub count: u8,
    /// Twice each cell's number, and one more through its n-wordline. The last one is repeated.
    pub wires: [u8; 3],
    /// Where the value of a row that is never written stands: twice its place, and one more where
    /// it is complemented.
    pub fixed: u16,
}

/// The addresses by their numbers.
pub struct Names {
    raised: [Raised; 256],
    /// The cells that an address raises, a bit for each.
    cells: [u128; 256],
    addrs: [Addr; 256],
    /// The number of the first data row that is written, and the number after the last.
    first_own: u8,
    end: u8,
    results: u8,
}

impl Drop for Names {
    fn drop(self) {
        let Names {
            raised: _,
            cells: _,
            addrs: _,
            first_own: _,
            end: _,
            results: _,
        } = self;
    }
}

/// The number of a bitwise cell, through its wordline.
fn wire_of(line: Line) -> u8 {
    let cell = match line.cell {
        Cell::T(k) => k % 4,
        Cell::Dcc(k) => 4 + k % 2,
        _ => 0,
    };
    cell * 2 + u8::from(line.inverted)
}

/// What a bitwise address raises.
fn raised_of(lines: &[Line]) -> Raised {
    let mut raised = Raised {
        count: 0,
        wires: [0; 3],
        fixed: 0,
    };
    for k in 0..3usize {
        if let Some(line) = lines.get(k) {
            raised.count = k as u8 + 1;
            raised.wires[k] = wire_of(*line);
        } else if k > 0 {
            raised.wires[k] = raised.wires[k - 1];
        }
    }
    raised
}

/// The bits of the cells that are raised.
fn cells_of(raised: &Raised) -> u128 {
    let [a, b, c] = raised.wires;
    if raised.count == 0 {
        0
    } else {
        1 << (a / 2) | 1 << (b / 2) | 1 << (c / 2)
    }
}

impl Names {
    /// The bitwise addresses and the constants alone.
    fn new() -> Names {
        let none = Raised {
            count: 0,
            wires: [0; 3],
            fixed: 0,
        };
        let mut names = Names {
            raised: [none; 256],
            cells: [0; 256],
            addrs: [Addr::C(0); 256],
            first_own: FIRST_ROW,
            end: 0,
            results: 0,
        };
        for k in 0..16u8 {
            let raised = raised_of(lines(Addr::B(k)).as_slice());
            names.put(Addr::B(k), raised);
        }
        for k in 0..2u8 {
            names.put_fixed(Addr::C(k), ZERO_SLOT * 2 + u16::from(k));
        }
        names
    }

    /// Gives an address the next number.
    fn put(&mut self, addr: Addr, raised: Raised) {
        let name = usize::from(self.end);
        self.raised[name] = raised;
        self.cells[name] = cells_of(&raised);
        self.addrs[name] = addr;
        self.end = self.end.saturating_add(1);
    }

    /// Gives the next number to a row that is never written.
    fn put_fixed(&mut self, addr: Addr, fixed: u16) {
        self.put(
            addr,
            Raised {
                count: 0,
                wires: [0; 3],
                fixed,
            },
        );
    }

    /// Gives the next number to a row that is written. Returns whether there is one.
    fn put_own(&mut self, row: u16) -> bool {
        let own = self.end.saturating_sub(self.first_own);
        if own >= MOST_OWN || self.end >= NONE - 1 || self.row(row).is_some() {
            return false;
        }
        let wire = (FIRST_CELL + own) * 2;
        self.put(
            Addr::D(row),
            Raised {
                count: 1,
                wires: [wire; 3],
                fixed: 0,
            },
        );
        true
    }

    /// Gives the next number to a source. Returns whether there is one.
    fn put_source(&mut self, row: u16) -> bool {
        let source = self.end.saturating_sub(FIRST_ROW);
        if source >= MOST_SOURCES || self.row(row).is_some() {
            return false;
        }
        self.put_fixed(Addr::D(row), (SOURCE_SLOT + u16::from(source)) * 2);
        self.first_own = self.end;
        true
    }

    /// The number of a data row.
    fn row(&self, row: u16) -> Option<u8> {
        for name in FIRST_ROW..self.end {
            if self.addrs[usize::from(name)] == Addr::D(row) {
                return Some(name);
            }
        }
        None
    }

    /// Gives numbers to a span of sources. Returns whether each has one.
    fn put_sources(&mut self, span: Span) -> bool {
        for k in 0..span.count {
            if !self.put_source(span.first.saturating_add(k)) {
                return false;
            }
        }
        true
    }

    /// Gives numbers to a span of results. Returns whether each has one.
    fn put_results(&mut self, span: Span) -> bool {
        for k in 0..span.count {
            if !self.put_own(span.first.saturating_add(k)) {
                return false;
            }
            self.results = self.results.saturating_add(1);
        }
        true
    }

    /// Gives a number to a data row that has none. Returns whether it has one.
    fn meet(&mut self, addr: Addr) -> bool {
        match addr {
            Addr::D(row) => self.row(row).is_some() || self.put_own(row),
            _ => true,
        }
    }

    /// Gives numbers to the rows of commands that have none. Returns whether each has one.
    fn meet_all(&mut self, commands: &[Command]) -> bool {
        for command in commands {
            let has_room = match *command {
                Command::Ap(x) => self.meet(x),
                Command::Aap(x, y) => self.meet(x) && self.meet(y),
            };
            if !has_room {
                return false;
            }
        }
        true
    }

    /// Numbers for the sources, the results and the rows of scratch that are named, if these are
    /// few enough and no row is two of them.
    pub fn of(commands: &[Command], roles: &Roles) -> Option<Names> {
        let mut names = Names::new();
        for span in roles.sources.as_slice() {
            if !names.put_sources(*span) {
                return None;
            }
        }
        for span in roles.results.as_slice() {
            if !names.put_results(*span) {
                return None;
            }
        }
        if names.meet_all(commands) {
            Some(names)
        } else {
            None
        }
    }

    /// The number of an address.
    fn of_addr(&self, addr: Addr) -> u8 {
        match addr {
            Addr::B(k) => k % 16,
            Addr::C(k) => C0 + k % 2,
            Addr::D(row) => self.row(row).unwrap_or(C0),
        }
    }

    /// A command by numbers.
    pub fn cmd_of(&self, command: Command) -> Cmd {
        match command {
            Command::Ap(x) => Cmd {
                x: self.of_addr(x),
                y: NONE,
            },
            Command::Aap(x, y) => Cmd {
                x: self.of_addr(x),
                y: self.of_addr(y),
            },
        }
    }

    /// The command of these numbers.
    pub fn command_of(&self, cmd: Cmd) -> Command {
        let x = self.addrs[usize::from(cmd.x)];
        if cmd.y == NONE {
            Command::Ap(x)
        } else {
            Command::Aap(x, self.addrs[usize::from(cmd.y)])
        }
    }

    #[inline(always)]
    pub fn raised(&self, name: u8) -> &Raised {
        &self.raised[usize::from(name)]
    }

    /// The cells that a command reads.
    #[inline(always)]
    pub fn reads(&self, cmd: Cmd) -> u128 {
        self.cells[usize::from(cmd.x)]
    }

    /// The cells that a command writes.
    #[inline(always)]
    pub fn writes(&self, cmd: Cmd) -> u128 {
        let first = if self.raised(cmd.x).count == 3 {
            self.cells[usize::from(cmd.x)]
        } else {
            0
        };
        first | self.cells[usize::from(cmd.y)]
    }

    /// Whether each address may stand where it does.
    #[inline(always)]
    pub fn is_legal(&self, cmd: Cmd) -> bool {
        let is_first = if cmd.x < C0 {
            self.raised(cmd.x).count != 2
        } else {
            cmd.x < self.end
        };
        let is_second = cmd.y < C0 || cmd.y == NONE || self.is_own(cmd.y);
        is_first && is_second
    }

    /// Whether it is a data row that is written.
    #[inline(always)]
    pub fn is_own(&self, name: u8) -> bool {
        self.first_own <= name && name < self.end
    }

    /// How many sources there are.
    pub fn sources(&self) -> u8 {
        self.first_own.saturating_sub(FIRST_ROW)
    }

    /// How many rows there are, with C0 and C1.
    pub fn rows(&self) -> u8 {
        self.end.saturating_sub(C0)
    }

    /// How many cells there are.
    pub fn cell_count(&self) -> u8 {
        FIRST_CELL.saturating_add(self.end.saturating_sub(self.first_own))
    }

    /// The results' cells, a bit for each.
    pub fn result_cells(&self) -> u128 {
        let mut cells = 0;
        for k in 0..self.results {
            cells |= 1 << (FIRST_CELL.saturating_add(k) % 128);
        }
        cells
    }
}
