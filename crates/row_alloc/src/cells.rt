//! The bitwise cells with literals in place of bits, and what an address does to them.

ghost use Rattle.std.specs.Prelude.{◌<◌};

use crate::set::{Nodes, Set};
use mig_graph::{Lit, NoMemory};
use std::alloc::Global;

/// A literal of a body's graph, or none: twice the number of its node, and one more where it is
/// inverted.
#[derive(Clone, Copy, PartialEq, Eq)]
pub struct Short(u8);

/// No literal. Its node is none of those that a search knows.
pub const NONE: Short = Short(255);

/// The node of no literal, as sets of nodes take it.
const NO_NODE: u8 = 63;

impl Short {
    /// The literal of a node, or none where its number is above those that a search knows.
    pub fn new(node: u32, inverted: bool) -> Short {
        if node < 63 {
            Short(node as u8 * 2 + inverted as u8)
        } else {
            NONE
        }
    }

    pub fn of(l: Lit) -> Short {
        Short::new(l.node, l.inverted)
    }

    /// The number of the literal's node.
    #[inline(always)]
    pub fn node(self) -> u8 {
        self.0 / 2
    }

    #[inline(always)]
    pub fn is_inverted(self) -> bool {
        self.0 % 2 == 1
    }

    #[inline(always)]
    pub fn is_some(self) -> bool {
        self.0 < 128
    }

    /// A number below 128, another one for each literal.
    #[inline(always)]
    pub fn place(self) -> usize
        ensures { result < 128 }
    {
        self.0 as usize % 128
    }

    /// The set of the literal's node alone, or no node.
    #[inline(always)]
    pub fn nodes(self) -> Nodes {
        if self.is_some() {
            Nodes(0).with(self.node())
        } else {
            Nodes(0)
        }
    }

    /// The literal of the other value.
    #[inline(always)]
    pub fn complement(self) -> Short {
        Short(self.0 ^ 1)
    }
}

/// What T0 to T3, DCC0 and DCC1 hold, as far as it is known: byte k is the literal of cell k.
#[derive(Clone, Copy, PartialEq, Eq)]
pub struct Cells(u64);

/// The lowest bit of each byte.
const LOW: u64 = 0x0101010101010101;

/// The highest bit of each byte.
const HIGH: u64 = 0x8080808080808080;

/// The highest bit of each byte that is not 0.
#[inline(always)]
fn not_zero(bytes: u64) -> u64 {
    ((bytes & !HIGH).wrapping_add(!HIGH) | bytes) & HIGH
}

/// Bit k is the highest bit of byte k.
#[inline(always)]
fn gathered(high: u64) -> u32 {
    (((high & HIGH) >> 7).wrapping_mul(0x0102040810204080) >> 56) as u32
}

/// Byte k is 255 where bit k is set, of six, else 0.
#[inline(always)]
fn spread(bits: u32) -> u64 {
    let low = u64::from(bits & 0x3F).wrapping_mul(0x0002040810204081) & LOW;
    low.wrapping_mul(0xFF)
}

impl Cells {
    /// Cells of which nothing is known.
    pub fn unknown() -> Cells {
        Cells(u64::MAX)
    }

    /// Cells that hold these literals.
    pub fn of([a, b, c, d, e, f]: [Short; 6]) -> Cells {
        Cells(u64::from_le_bytes([a.0, b.0, c.0, d.0, e.0, f.0, 255, 255]))
    }

    /// A number that hangs on what the cells hold and on another number.
    #[inline(always)]
    pub fn hash(self, other: u64) -> u64 {
        let x = self.mixed(other);
        (x ^ x >> 32).wrapping_mul(0xBF58476D1CE4E5B9)
    }

    /// One whose highest bits do.
    #[inline(always)]
    pub fn mixed(self, other: u64) -> u64 {
        self.0.wrapping_mul(0x9E3779B97F4A7C15) ^ other
    }

    /// What the cell of this number holds.
    #[inline(always)]
    pub fn get(self, k: u8) -> Short {
        if k < 8 {
            Short((self.0 >> (k * 8) & 0xFF) as u8)
        } else {
            NONE
        }
    }

    /// The cells of a set hold the literal.
    #[inline(always)]
    pub fn with(self, set: Set, l: Short) -> Cells {
        let mask = spread(set.0);
        Cells(self.0 & !mask | u64::from(l.0).wrapping_mul(LOW) & mask)
    }

    /// The cells of which the others know something hold the literal.
    #[inline(always)]
    pub fn over(self, others: &Cells, l: Short) -> Cells {
        let mask = ((!others.0 & HIGH) >> 7).wrapping_mul(0xFF);
        Cells(self.0 & !mask | u64::from(l.0).wrapping_mul(LOW) & mask)
    }

    /// The cells of which something is known.
    #[inline(always)]
    pub fn known(self) -> Set {
        Set(gathered(!self.0))
    }

    /// The node that the cell of this number holds, or `NO_NODE`.
    #[inline(always)]
    fn node(self, k: u8) -> Nodes {
        Nodes(0).with(self.get(k).node())
    }

    /// The nodes that stand in cells.
    #[inline(always)]
    pub fn nodes(self) -> Nodes {
        let low = self.node(0).or(self.node(1)).or(self.node(2));
        let high = self.node(3).or(self.node(4)).or(self.node(5));
        low.or(high).without(NO_NODE)
    }

    /// The cells that hold none of these nodes.
    #[inline(always)]
    pub fn free(self, wanted: Nodes) -> Set {
        let mut bits = 0u32;
        for k in 0..6u8 {
            let is_wanted = wanted.has(self.get(k).node());
            bits |= (!is_wanted as u32) << k;
        }
        Set(bits)
    }

    /// The cells with these nodes alone, and which of them stand there: equal states are one so.
    #[inline(always)]
    pub fn cleared(self, wanted: Nodes) -> (Cells, Nodes) {
        let mut kept = 0u64;
        for k in 0..6u8 {
            let is_wanted = wanted.has(self.get(k).node());
            kept |= (is_wanted as u64) << (k * 8);
        }
        let held = self.nodes().and(wanted);
        (Cells(self.0 | !kept.wrapping_mul(0xFF)), held)
    }
}

/// Cells by their d-wordlines, and from bit 8 on cells by their n-wordlines.
#[derive(Clone, Copy, PartialEq, Eq)]
pub struct Lines(u32);

/// The wordlines that B0 to B15 raise.
static RAISED: [u32; 16] = [
    0b1,
    0b10,
    0b100,
    0b1000,
    0b1_0000,
    0b1_0000 << 8,
    0b10_0000,
    0b10_0000 << 8,
    0b1 | 0b1_0000 << 8,
    0b10 | 0b10_0000 << 8,
    0b1100,
    0b1001,
    0b111,
    0b1110,
    0b1_0110,
    0b10_1001,
];

/// The cells that B0 to B15 raise, by whole bytes, and those of them that they raise by the
/// n-wordline, by the lowest bits of the bytes.
static TAKING: [[u64; 2]; 16] = [
    [0x0000000000FF, 0x000000000000],
    [0x00000000FF00, 0x000000000000],
    [0x000000FF0000, 0x000000000000],
    [0x0000FF000000, 0x000000000000],
    [0x00FF00000000, 0x000000000000],
    [0x00FF00000000, 0x000100000000],
    [0xFF0000000000, 0x000000000000],
    [0xFF0000000000, 0x010000000000],
    [0x00FF000000FF, 0x000100000000],
    [0xFF000000FF00, 0x010000000000],
    [0x0000FFFF0000, 0x000000000000],
    [0x0000FF0000FF, 0x000000000000],
    [0x000000FFFFFF, 0x000000000000],
    [0x0000FFFFFF00, 0x000000000000],
    [0x00FF00FFFF00, 0x000000000000],
    [0xFF00FF0000FF, 0x000000000000],
];

#[inline(always)]
fn lines_of(y: u8) -> Lines {
    match RAISED.get(y as usize) {
        Some(lines) => Lines(*lines),
        None => Lines(0),
    }
}

impl Lines {
    #[inline(always)]
    pub fn straight(self) -> Set {
        Set(self.0 & 0xFF)
    }

    #[inline(always)]
    pub fn complemented(self) -> Set {
        Set(self.0 >> 8)
    }
}

/// The cells that an address raises.
pub fn raised(y: u8) -> Set {
    let lines = lines_of(y);
    lines.straight().or(lines.complemented())
}

/// The cells that hold the literal, and those that hold its complement.
#[inline(always)]
pub fn holders(cells: &Cells, l: Short) -> Lines {
    let others = cells.0 ^ u64::from(l.0).wrapping_mul(LOW);
    Lines(gathered(!not_zero(others)) | gathered(!not_zero(others ^ LOW)) << 8)
}

/// The cells after an address takes a literal.
#[inline(always)]
pub fn driven(cells: &Cells, y: u8, l: Short) -> Cells {
    let [taking, complemented] = TAKING[y as usize % 16];
    let taken = u64::from(l.0).wrapping_mul(LOW) ^ complemented;
    Cells(cells.0 & !taking | taken & taking)
}

/// The cells that do not hold what is wanted of them.
#[inline(always)]
pub fn lacking(want: &Cells, cells: &Cells) -> Set {
    Set(gathered(not_zero(want.0 ^ cells.0) & !want.0))
}

/// Whether the cells hold all that is wanted of them.
#[inline(always)]
pub fn lack_none(want: &Cells, cells: &Cells) -> bool {
    not_zero(want.0 ^ cells.0) & !want.0 == 0
}

/// The address by which a cell alone is read, straight or complemented.
pub fn address_of(k: u8, inverted: bool) -> Option<u8> {
    match (k, inverted) {
        (0..=3, false) => Some(k),
        (4, false) => Some(4),
        (4, true) => Some(5),
        (5, false) => Some(6),
        (5, true) => Some(7),
        _ => None,
    }
}

/// The address by which a cell gives the literal.
#[inline(always)]
pub fn reader(cells: &Cells, l: Short) -> Option<u8> {
    let found = holders(cells, l);
    let (straight, complemented) = (found.straight(), found.complemented());
    if straight.is_empty() && complemented.is_empty() {
        return None;
    }
    if let Some(k) = straight.and(Set(0b1111)).first() {
        return Some(k);
    }
    for (k, is_inverted) in [(4, false), (4, true), (5, false), (5, true)] {
        let cells = if is_inverted { complemented } else { straight };
        if cells.has(k) {
            return address_of(k, is_inverted);
        }
    }
    None
}

/// A literal that is to be put into cells: what each address would change, and the lines of the
/// cells in use.
#[derive(Clone, Copy)]
struct Fill {
    changes: [u32; 16],
    used: u32,
}

impl Fill {
    /// Of a literal that stands there, while these cells are free to take it.
    fn new(there: Lines, free: Set) -> Fill {
        let mut changes = RAISED;
        for y in 0..16usize {
            changes[y] &= !there.0;
        }
        Fill {
            changes,
            used: !(free.0 & 0xFF | (free.0 & 0xFF) << 8),
        }
    }

    /// Whether one address changes the same cells in use as the other, and no fewer free ones.
    fn is_as_good(&self, x: u32, y: u32) -> bool {
        y & !x == 0 && x & !y & self.used == 0
    }

    /// Whether the address changes a cell, and no other does the same and fills more free cells.
    fn is_worth(&self, y: u8) -> bool {
        let mine = match self.changes.get(y as usize) {
            Some(mine) => *mine,
            None => 0,
        };
        if mine == 0 {
            return false;
        }
        for z in 0..16u8 {
            let other = self.changes[z as usize];
            if self.is_as_good(other, mine) && z != y && (other != mine || z < y) {
                return false;
            }
        }
        true
    }

    /// The addresses that are worth it.
    fn worth(&self) -> Set {
        let mut worth = Set(0);
        for y in 0..16u8 {
            if self.is_worth(y) {
                worth = worth.with(y);
            }
        }
        worth
    }
}

/// How many cases of a fill there are, by 14 bits: which wordlines give the literal, and which
/// cells are free.
const MOST_FILLS: usize = 16_384;

/// A case that was not asked for yet.
const UNASKED: u32 = u32::MAX;

/// For each case the addresses that are worth a fill, once it was asked for.
pub struct Fills {
    worth: Vec<u32>,
}

impl Drop for Fills {
    fn drop(self) {
        let Fills { worth: _ } = self;
    }
}

impl Fills {
    pub fn new(alloc: Global) -> Result<Fills, NoMemory> {
        Ok(Fills {
            worth: vec![in alloc; UNASKED; MOST_FILLS]?,
        })
    }

    /// The addresses that change a cell, where no other does the same and fills more free cells,
    /// for a literal that is put into cells while these are free.
    #[inline(always)]
    pub fn worth(&mut self, cells: &Cells, l: Short, free: Set) -> Set {
        let there = holders(cells, l);
        let lines = there.0 & 0x3F | (there.0 >> 12 & 3) << 6;
        let case = (lines | free.0 << 8) as usize % MOST_FILLS;
        let Some(known) = self.worth.get_mut(case) else {
            return Set(0);
        };
        if *known == UNASKED {
            *known = Fill::new(there, free).worth().0;
        }
        Set(*known)
    }
}

/// The addresses that raise the d-wordline of each cell.
static RAISING: [u32; 6] = [
    0b1001_1001_0000_0001,
    0b0111_0010_0000_0010,
    0b0111_0100_0000_0100,
    0b1010_1100_0000_1000,
    0b0100_0000_0001_0000,
    0b1000_0000_0100_0000,
];

/// The addresses that raise the cell's n-wordline, or else its d-wordline.
pub fn raising(k: u8, complemented: bool) -> Set {
    match (k, complemented) {
        (4, true) => Set(0b1_0010_0000),
        (5, true) => Set(0b10_1000_0000),
        (_, true) => Set(0),
        (_, false) => match RAISING.get(k as usize) {
            Some(addresses) => Set(*addresses),
            None => Set(0),
        },
    }
}
