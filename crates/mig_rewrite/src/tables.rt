//! Truth tables of a sketch's nodes.

use crate::sketch::{Sketch, has, mixed, with};

/// The values of a node on the 128 assignments of 7 inputs.
#[derive(Clone, Copy)]
pub struct Table(pub u128);

/// The most inputs of which a table has every assignment.
pub const MOST_INPUTS: u8 = 7;

/// The tables of a sketch's nodes.
pub type Tables = [Table; 64];

/// The values of the first inputs in a table.
const IN_TABLE: [u128; 7] = [
    0xAAAAAAAAAAAAAAAA_AAAAAAAAAAAAAAAA,
    0xCCCCCCCCCCCCCCCC_CCCCCCCCCCCCCCCC,
    0xF0F0F0F0F0F0F0F0_F0F0F0F0F0F0F0F0,
    0xFF00FF00FF00FF00_FF00FF00FF00FF00,
    0xFFFF0000FFFF0000_FFFF0000FFFF0000,
    0xFFFFFFFF00000000_FFFFFFFF00000000,
    0xFFFFFFFFFFFFFFFF_0000000000000000,
];

/// 0 on all assignments.
pub const NONE: Table = Table(0);

impl Table {
    fn of_input(input: u8) -> Table {
        match IN_TABLE.get(input as usize) {
            Some(table) => Table(*table),
            None => NONE,
        }
    }

    /// An input's values on 128 drawn assignments.
    fn drawn(input: u8) -> Table {
        let seed = (input as u64 + 1) << 8;
        Table(u128::from(mixed(seed)) << 64 | u128::from(mixed(seed + 1)))
    }

    /// An input's values on a page of 128 assignments: bit k of the page's number is input 7 + k.
    fn on_page(input: u8, page: u16) -> Table {
        if input < MOST_INPUTS {
            return Table::of_input(input);
        }
        let place = input - MOST_INPUTS;
        if place < 16 && page >> place & 1 == 1 {
            Table(u128::MAX)
        } else {
            NONE
        }
    }

    #[inline(always)]
    fn complement(&self) -> Table {
        Table(!self.0)
    }

    #[inline(always)]
    pub fn xor(&self, other: &Table) -> Table {
        Table(self.0 ^ other.0)
    }

    #[inline(always)]
    pub fn and(&self, other: &Table) -> Table {
        Table(self.0 & other.0)
    }

    #[inline(always)]
    pub fn or(&self, other: &Table) -> Table {
        Table(self.0 | other.0)
    }

    #[inline(always)]
    pub fn is_zero(&self) -> bool {
        self.0 == 0
    }

    /// Whether no assignment is in both.
    #[inline(always)]
    pub fn is_apart(&self, other: &Table) -> bool {
        self.0 & other.0 == 0
    }

    #[inline(always)]
    fn majority(a: &Table, b: &Table, c: &Table) -> Table {
        Table(a.0 & b.0 | c.0 & (a.0 | b.0))
    }
}

/// The table of a literal.
#[inline(always)]
pub fn table_of(tables: &Tables, literal: u8) -> Table {
    let table = tables[literal as usize / 2 % 64];
    if literal & 1 == 1 {
        table.complement()
    } else {
        table
    }
}

/// The table of a majority node, from those of its operands.
fn table_above(sketch: &Sketch, tables: &Tables, node: u8) -> Table {
    let [a, b, c] = sketch.operands(node);
    let (a, b, c) = (
        table_of(tables, a),
        table_of(tables, b),
        table_of(tables, c),
    );
    Table::majority(&a, &b, &c)
}

/// No tables yet.
pub fn no_tables() -> Tables {
    [NONE; 64]
}

/// Finds the tables of all nodes, from those of the inputs.
pub fn complete(tables: &mut Tables, sketch: &Sketch) {
    for node in sketch.first()..sketch.size() {
        if (node as usize) < 64 {
            tables[node as usize] = table_above(sketch, tables, node);
        }
    }
}

/// The tables of all nodes: on every assignment of at most 7 inputs, else on 128 drawn ones.
pub fn tables_of(sketch: &Sketch) -> Tables {
    let mut tables = no_tables();
    for input in 0..sketch.inputs {
        let node = input as usize + 1;
        if node < 64 {
            tables[node] = if sketch.inputs > MOST_INPUTS {
                Table::drawn(input)
            } else {
                Table::of_input(input)
            };
        }
    }
    complete(&mut tables, sketch);
    tables
}

/// The tables of all nodes on a page of 128 assignments.
fn tables_on_page(sketch: &Sketch, page: u16) -> Tables {
    let mut tables = no_tables();
    for input in 0..sketch.inputs {
        let node = input as usize + 1;
        if node < 64 {
            tables[node] = Table::on_page(input, page);
        }
    }
    complete(&mut tables, sketch);
    tables
}

/// Whether both have the same outputs on a page.
fn agree_on_page(first: &Sketch, second: &Sketch, page: u16) -> bool {
    let (of_first, of_second) = (tables_on_page(first, page), tables_on_page(second, page));
    for (k, literal) in first.outs.iter().enumerate() {
        if k < second.outs.len() {
            let other = table_of(&of_second, second.outs[k]);
            if !table_of(&of_first, *literal).xor(&other).is_zero() {
                return false;
            }
        }
    }
    true
}

/// How many pages of 128 assignments so many inputs have, of at most 12.
fn pages(inputs: u8) -> u16 {
    match inputs {
        0..=7 => 1,
        8 => 2,
        9 => 4,
        10 => 8,
        11 => 16,
        _ => 32,
    }
}

/// Whether both have the same outputs on every assignment of at most 12 inputs.
pub fn agree(first: &Sketch, second: &Sketch) -> bool {
    for page in 0..pages(first.inputs) {
        if !agree_on_page(first, second, page) {
            return false;
        }
    }
    true
}

/// The tables of a graph in which a node is turned: of the nodes above it, itself among them, its
/// own, and else those of the graph as it was.
pub struct Turned {
    tables: Tables,
    above: u64,
}

impl Drop for Turned {
    fn drop(self) {
        let Turned {
            tables: _,
            above: _,
        } = self;
    }
}

impl Turned {
    /// No node is turned yet.
    pub fn new() -> Turned {
        Turned {
            tables: no_tables(),
            above: 0,
        }
    }

    /// The table of a literal.
    #[inline(always)]
    fn of(&self, tables: &Tables, literal: u8) -> Table {
        if has(self.above, literal / 2) {
            table_of(&self.tables, literal)
        } else {
            table_of(tables, literal)
        }
    }

    /// Turns a node, where these are above it.
    fn turn(&mut self, sketch: &Sketch, tables: &Tables, node: u8, above: u64) {
        self.above = above;
        if (node as usize) < 64 {
            self.tables[node as usize] = tables[node as usize].complement();
        }
        let mut others = above & !with(0, node);
        for _ in 0..64u8 {
            if others == 0 {
                break;
            }
            let k = others.trailing_zeros() as u8;
            others &= others.wrapping_sub(1);
            let [a, b, c] = sketch.operands(k);
            let (a, b, c) = (self.of(tables, a), self.of(tables, b), self.of(tables, c));
            self.tables[k as usize % 64] = Table::majority(&a, &b, &c);
        }
    }

    /// On which assignments some output changes when the node is turned, where these are above it.
    pub fn care_of(&mut self, sketch: &Sketch, tables: &Tables, node: u8, above: u64) -> Table {
        self.turn(sketch, tables, node, above);
        let mut care = NONE;
        for (k, literal) in sketch.outs.iter().enumerate() {
            if k < sketch.outputs as usize && has(above, *literal / 2) {
                let change = table_of(tables, *literal).xor(&self.of(tables, *literal));
                care = care.or(&change);
            }
        }
        care
    }
}

/// A literal's values on the 8 assignments of three leaves.
fn byte_of(bytes: &[u8; 64], literal: u8) -> u8 {
    match bytes.get(literal as usize / 2) {
        Some(byte) if literal & 1 == 1 => !*byte,
        Some(byte) => *byte,
        None => 0,
    }
}

/// The node's function of at most three leaves.
pub fn function_of(sketch: &Sketch, node: u8, leaves: u64) -> u8 {
    let mut bytes = [0u8; 64];
    let mut seen = 0u8;
    for k in 1..node.saturating_add(1) {
        if (k as usize) < 64 {
            bytes[k as usize] = if has(leaves, k) {
                seen = seen.saturating_add(1);
                match seen {
                    1 => 0xAA,
                    2 => 0xCC,
                    _ => 0xF0,
                }
            } else if k < sketch.first() {
                0
            } else {
                let [a, b, c] = sketch.operands(k);
                let (a, b, c) = (byte_of(&bytes, a), byte_of(&bytes, b), byte_of(&bytes, c));
                a & b | c & (a | b)
            };
        }
    }
    byte_of(&bytes, node.saturating_mul(2))
}
