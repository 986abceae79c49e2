//! The rows of an entry in one bank: results, sources, scratch and spill rows, one behind the
//! other, n rows for each value.

use arrayvec::ArrayVec;
use dram_model::{Addr, Command};
use faults::{NoMemory, keep};
use shorten::{Roles, Span};
use std::alloc::Global;
use uprog_code::{Head, Issued, Kind, RowPosition, RowSpace};

/// The number of spill rows.
const SPILL: u16 = 32;

/// Where the rows of an entry begin. The results begin at row 0.
#[derive(Clone, Copy)]
pub(crate) struct Bank {
    /// How many rows each value has.
    n: u16,
    sources: u16,
    bits: u16,
    words: u16,
    spill: u16,
}

/// A row of a space without positions.
fn plain(space: RowSpace, which: u16) -> RowPosition {
    RowPosition {
        space,
        which: u8::try_from(which).unwrap_or(u8::MAX),
        index: 0,
    }
}

/// How many rows of a value are used.
fn used(kind: Kind, n: u16) -> u16 {
    match kind {
        Kind::Word => n,
        Kind::Bit => 1,
    }
}

impl Bank {
    /// The bank of an entry at a width.
    pub(crate) fn new(head: &Head, n: u8) -> Bank {
        let n = u16::from(n);
        let sources = if head.second.is_some() { 2 * n } else { n };
        let mut bits = sources;
        for _kind in head.sources.as_slice() {
            bits = bits.saturating_add(n);
        }
        let words = bits.saturating_add(u16::from(head.bits));
        let spill = words.saturating_add(n.saturating_mul(u16::from(head.words)));
        Bank {
            n,
            sources,
            bits,
            words,
            spill,
        }
    }

    /// The row at a position of a value, where values begin at this row.
    fn row(self, first: u16, place: RowPosition) -> Addr {
        let value = self.n.saturating_mul(u16::from(place.which));
        Addr::D(first.saturating_add(value).saturating_add(place.index))
    }

    /// The address of a row.
    fn address(self, place: RowPosition) -> Addr {
        let which = u16::from(place.which);
        match place.space {
            RowSpace::B => Addr::B(place.which),
            RowSpace::C => Addr::C(place.which),
            RowSpace::Result => self.row(0, place),
            RowSpace::Source => self.row(self.sources, place),
            RowSpace::ScratchBit => Addr::D(self.bits.saturating_add(which)),
            RowSpace::ScratchWord => self.row(self.words, place),
            RowSpace::Spill => Addr::D(self.spill.saturating_add(which)),
        }
    }

    /// The row of a value that a data row is, where values begin at this row.
    fn value_at(self, space: RowSpace, first: u16, row: u16) -> RowPosition {
        let past = row.saturating_sub(first);
        let n = if self.n == 0 { 1 } else { self.n };
        RowPosition {
            space,
            which: u8::try_from(past / n).unwrap_or(u8::MAX),
            index: past % n,
        }
    }

    /// The row of the entry that an address is.
    fn place(self, address: Addr) -> Option<RowPosition> {
        let row = match address {
            Addr::B(k) => return Some(plain(RowSpace::B, u16::from(k))),
            Addr::C(k) => return Some(plain(RowSpace::C, u16::from(k))),
            Addr::D(row) => row,
        };
        if row < self.sources {
            Some(self.value_at(RowSpace::Result, 0, row))
        } else if row < self.bits {
            Some(self.value_at(RowSpace::Source, self.sources, row))
        } else if row < self.words {
            Some(plain(RowSpace::ScratchBit, row.saturating_sub(self.bits)))
        } else if row < self.spill {
            Some(self.value_at(RowSpace::ScratchWord, self.words, row))
        } else if row.saturating_sub(self.spill) < SPILL {
            Some(plain(RowSpace::Spill, row.saturating_sub(self.spill)))
        } else {
            None
        }
    }

    /// A line's commands.
    pub(crate) fn commands(self, line: &[Issued], alloc: Global) -> Result<Vec<Command>, NoMemory> {
        let mut commands = Vec::new(alloc);
        for issued in line {
            let command = match issued {
                Issued::Aap(x, y) => Command::Aap(self.address(*x), self.address(*y)),
                Issued::Ap(x) => Command::Ap(self.address(*x)),
            };
            keep(&mut commands, command)?;
        }
        Ok(commands)
    }

    /// The command of a line that a command is.
    fn issued(self, command: Command) -> Option<Issued> {
        match command {
            Command::Aap(x, y) => {
                let first = self.place(x)?;
                let second = self.place(y)?;
                Some(Issued::Aap(first, second))
            }
            Command::Ap(x) => {
                let first = self.place(x)?;
                Some(Issued::Ap(first))
            }
        }
    }

    /// The line of commands, which ends before the first that is none of an entry.
    pub(crate) fn line(self, commands: &[Command], alloc: Global) -> Result<Vec<Issued>, NoMemory> {
        let mut line = Vec::new(alloc);
        for command in commands {
            match self.issued(*command) {
                Some(issued) => keep(&mut line, issued)?,
                None => return Ok(line),
            }
        }
        Ok(line)
    }

    /// What the rows are for.
    pub(crate) fn roles(self, head: &Head) -> Roles {
        let mut sources = ArrayVec::new();
        let mut first = self.sources;
        for kind in head.sources.as_slice() {
            let count = used(*kind, self.n);
            sources.push(Span { first, count });
            first = first.saturating_add(self.n);
        }
        Roles {
            sources,
            results: self.results(head),
            scratch: self.scratch(),
        }
    }

    /// The rows of the results.
    fn results(self, head: &Head) -> ArrayVec<Span, 2> {
        let mut results = ArrayVec::new();
        let count = used(head.result, self.n);
        results.push(Span { first: 0, count });
        if let Some(kind) = head.second {
            let count = used(kind, self.n);
            results.push(Span {
                first: self.n,
                count,
            });
        }
        results
    }

    /// The rows of scratch and the spill rows.
    fn scratch(self) -> ArrayVec<Span, 2> {
        let mut scratch = ArrayVec::new();
        scratch.push(Span {
            first: self.bits,
            count: self.spill.saturating_sub(self.bits),
        });
        scratch.push(Span {
            first: self.spill,
            count: SPILL,
        });
        scratch
    }
}
