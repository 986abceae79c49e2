//! A body in the middle of its commands: what stands where, and what is still to be made.

use crate::body::BodyRef::{self, B, C, In, Out, Spill};
use crate::body::{Held, OutRow};
use crate::cells::{Cells, Lines, NONE, Short, holders, lack_none, reader};
use crate::layout::{LAYOUT_COUNT, layout};
use crate::set::{Nodes, Set};
use dram_model::{Cell, Line};
use mig_graph::Mig;

/// What the cells hold, the nodes in spill rows, the nodes that must still be made, and the outputs
/// that must still be written.
///
/// Each value that those read, and that is not among them, stands in a cell or a row.
#[derive(Clone, Copy, PartialEq, Eq)]
pub struct State {
    pub cells: Cells,
    pub spilled: Set,
    pub unmade: Set,
    pub unwritten: Set,
}

impl State {
    /// How many steps are left: nodes to be made, and outputs to be written.
    #[inline(always)]
    pub fn left(&self) -> u32 {
        self.unmade.len().saturating_add(self.unwritten.len())
    }

    /// Whether it holds all that the other one does, in the same cells and spill rows.
    #[inline(always)]
    pub fn covers(&self, other: &State) -> bool {
        other.spilled.minus(self.spilled).is_empty() && lack_none(&other.cells, &self.cells)
    }

    /// A number of 16 bits that hangs on all of the state.
    #[inline(always)]
    pub fn hash(&self) -> u16 {
        let sets = u64::from(self.spilled.0) << 32 | u64::from(self.unmade.0);
        let all = self.cells.hash(sets ^ u64::from(self.unwritten.0) << 24);
        (all >> 48 & 0xFFFF) as u16
    }
}

/// What rows hold in a state: the nodes that have a row of their own, those of which some row holds
/// the value or its complement, and the outputs that are written.
#[derive(Clone, Copy)]
pub struct Rows {
    own: Nodes,
    pub any: Nodes,
    written: Set,
}

impl Rows {
    /// With nodes that have a row of their own too.
    #[inline(always)]
    pub fn with_own(&self, nodes: Nodes) -> Rows {
        Rows {
            own: self.own.or(nodes),
            any: self.any.or(nodes),
            written: self.written,
        }
    }
}

/// The most nodes of a body that is searched for, the constant and its inputs among them.
const MOST_SIZE: u32 = 63;

/// A graph with its outputs, as sets: which nodes each node reads, and what reads it.
#[derive(Clone, Copy)]
pub struct Task {
    /// The number of the first majority node.
    pub first: u8,
    nodes: [[Short; 3]; 32],
    count: u8,
    outs: [Short; 8],
    written: Set,
    /// For each literal the majority nodes that read it.
    readers: [Set; 128],
    /// For each literal the outputs that are it.
    outs_of: [Set; 128],
    /// For each input the outputs that stand in its row, and the inputs that have such outputs.
    taken: [Set; 64],
    taking: Nodes,
    /// For each majority node the nodes that it reads, and the constant and inputs among these that
    /// it reads from their rows.
    reads: [Nodes; 32],
    loads: [Nodes; 32],
    /// The inputs that stand in their rows at entry.
    inputs: Nodes,
    /// The nodes that are left in cells at exit.
    left: Nodes,
    /// What the cells hold at entry, and what they are to hold at exit.
    enter: Cells,
    pub leave: Cells,
}

/// The cells after a wordline takes a literal.
fn taken_by(cells: &Cells, line: Line, l: Short) -> Cells {
    let l = if line.inverted { l.complement() } else { l };
    match line.cell {
        Cell::T(k) if k < 4 => cells.with(Set(0).with(k), l),
        Cell::Dcc(k) if k < 2 => cells.with(Set(0).with(4 + k), l),
        _ => *cells,
    }
}

/// The cells that hold these literals.
fn cells_of(held: &[Held]) -> Cells {
    let mut cells = Cells::unknown();
    for h in held {
        if h.layout < LAYOUT_COUNT {
            for line in layout(h.layout) {
                cells = taken_by(&cells, *line, Short::of(h.lit));
            }
        }
    }
    cells
}

/// A graph of so many inputs, without nodes and outputs.
fn empty_task(inputs: u8) -> Task {
    Task {
        first: inputs.saturating_add(1),
        nodes: [[NONE; 3]; 32],
        count: 0,
        outs: [NONE; 8],
        written: Set(0),
        readers: [Set(0); 128],
        outs_of: [Set(0); 128],
        taken: [Set(0); 64],
        taking: Nodes(0),
        reads: [Nodes(0); 32],
        loads: [Nodes(0); 32],
        inputs: Nodes::up_to(inputs),
        left: Nodes(0),
        enter: Cells::unknown(),
        leave: Cells::unknown(),
    }
}

impl Task {
    /// The graph's nodes and outputs, and what stands in cells at entry and exit, where there are
    /// few enough nodes.
    pub fn new(m: &Mig, outs: &[OutRow], enter: &[Held], leave: &[Held]) -> Option<Task> {
        if m.size() > MOST_SIZE {
            return None;
        }
        let mut task = empty_task(m.inputs());
        for h in enter {
            task.inputs = task.inputs.without(Short::of(h.lit).node());
        }
        for h in leave {
            task.left = task.left.or(Short::of(h.lit).nodes());
        }
        for k in u32::from(m.inputs()) + 1..m.size() {
            let [a, b, c] = m.node(k);
            task.add_node([Short::of(a), Short::of(b), Short::of(c)]);
        }
        for out in outs {
            task.add_out(out);
        }
        task.enter = cells_of(enter);
        task.leave = cells_of(leave);
        Some(task)
    }

    /// A majority node more.
    fn add_node(&mut self, operands: [Short; 3]) {
        let k = self.count;
        if k < 32 {
            let mut reads = Nodes(0);
            for l in operands {
                self.readers[l.place()] = self.readers[l.place()].with(k);
                reads = reads.or(l.nodes());
            }
            self.nodes[k as usize] = operands;
            self.reads[k as usize] = reads;
            self.loads[k as usize] = reads.and(self.inputs.with(0));
            self.count = k + 1;
        }
    }

    /// An output more.
    fn add_out(&mut self, out: &OutRow) {
        let j = self.written.len();
        if j < 8 {
            let l = Short::of(out.lit);
            self.outs[j as usize] = l;
            self.written = self.written.with(j as u8);
            self.outs_of[l.place()] = self.outs_of[l.place()].with(j as u8);
            if let Some(k) = out.same {
                let node = k.saturating_add(1);
                let place = node as usize % 64;
                self.taken[place] = self.taken[place].with(j as u8);
                self.taking = self.taking.with(node);
            }
        }
    }

    /// The three literals of a majority node.
    #[inline(always)]
    pub fn operands(&self, k: u8) -> [Short; 3] {
        self.nodes[k as usize % 32]
    }

    /// The nodes that a majority node reads.
    #[inline(always)]
    pub fn reads(&self, k: u8) -> Nodes {
        self.reads[k as usize % 32]
    }

    /// The constant and the inputs that a majority node reads from their rows.
    #[inline(always)]
    pub fn loads(&self, k: u8) -> Nodes {
        self.loads[k as usize % 32]
    }

    /// Whether values stand in cells at entry.
    #[inline(always)]
    pub fn holds_states(&self) -> bool {
        self.enter != Cells::unknown()
    }

    /// Whether values are left in cells at exit.
    #[inline(always)]
    pub fn leaves_states(&self) -> bool {
        !self.left.is_empty()
    }

    /// The literal of an output.
    #[inline(always)]
    pub fn output(&self, j: u8) -> Short {
        self.outs[j as usize % 8]
    }

    /// The outputs that are this literal.
    #[inline(always)]
    pub fn outs_of(&self, l: Short) -> Set {
        self.outs_of[l.place()]
    }

    /// The spill row of a majority node that is not complemented.
    #[inline(always)]
    pub fn spill_of(&self, l: Short) -> Option<u8> {
        let node = l.node();
        if !l.is_inverted() && node >= self.first {
            Some(node - self.first)
        } else {
            None
        }
    }

    /// The literal of a majority node, or its complement.
    #[inline(always)]
    pub fn lit_of(&self, k: u8, inverted: bool) -> Short {
        Short::new(u32::from(self.first) + u32::from(k), inverted)
    }

    /// The majority nodes that read a literal.
    #[inline(always)]
    pub fn readers(&self, l: Short) -> Set {
        self.readers[l.place()]
    }

    /// The nodes of these majority nodes.
    #[inline(always)]
    pub fn nodes_of(&self, numbers: Set) -> Nodes {
        numbers.nodes_from(self.first)
    }

    /// The nodes that these majority nodes read, or that are left in cells.
    pub fn read_by(&self, unmade: Set) -> Nodes {
        let mut nodes = self.left;
        let mut left = unmade;
        for _ in 0..32u8 {
            let Some(k) = left.first() else {
                break;
            };
            left = left.rest();
            nodes = nodes.or(self.reads(k));
        }
        nodes
    }

    /// The nodes of these outputs.
    #[inline(always)]
    pub fn named_by(&self, unwritten: Set) -> Nodes {
        let mut nodes = Nodes(0);
        let mut left = unwritten;
        for _ in 0..32u8 {
            let Some(j) = left.first() else {
                break;
            };
            left = left.rest();
            nodes = nodes.or(self.output(j).nodes());
        }
        nodes
    }

    /// The inputs whose rows outputs have taken.
    #[inline(always)]
    fn lost_inputs(&self, unwritten: Set) -> Nodes {
        let mut nodes = Nodes(0);
        let mut left = self.taking;
        for _ in 0..64u8 {
            let Some(node) = left.first() else {
                break;
            };
            left = left.rest();
            if !self.taken[node as usize % 64].minus(unwritten).is_empty() {
                nodes = nodes.with(node);
            }
        }
        nodes
    }

    /// What rows hold where these nodes are spilled and these outputs are still to be written.
    #[inline(always)]
    pub fn rows(&self, spilled: Set, unwritten: Set) -> Rows {
        let kept = self.inputs.minus(self.lost_inputs(unwritten));
        let own = kept.or(self.nodes_of(spilled));
        let written = self.written.minus(unwritten);
        Rows {
            own,
            any: own.with(0).or(self.named_by(written)),
            written,
        }
    }

    /// A row that holds the literal.
    #[inline(always)]
    pub fn row_of(&self, rows: &Rows, l: Short) -> Option<BodyRef> {
        let node = l.node();
        if node == 0 {
            return Some(C(u8::from(l.is_inverted())));
        }
        if !l.is_inverted() && rows.own.has(node) {
            return Some(if node < self.first {
                In(node - 1)
            } else {
                Spill(node - self.first)
            });
        }
        match self.outs_of(l).and(rows.written).first() {
            Some(j) => Some(Out(j)),
            None => None,
        }
    }

    /// A row or a cell that gives the literal.
    #[inline(always)]
    pub fn source(&self, rows: &Rows, cells: &Cells, l: Short) -> Option<BodyRef> {
        match self.row_of(rows, l) {
            Some(row) => Some(row),
            None => match reader(cells, l) {
                Some(y) => Some(B(y)),
                None => None,
            },
        }
    }

    /// The nodes that are wanted.
    pub fn wanted(&self, s: &State) -> Nodes {
        self.read_by(s.unmade).or(self.named_by(s.unwritten))
    }

    /// No command yet: the nodes from which an output can be reached are unmade.
    pub fn start(&self) -> State {
        let mut s = State {
            cells: self.enter,
            spilled: Set(0),
            unmade: Set(0),
            unwritten: self.written,
        };
        for back in 0..32u8 {
            let k = 31 - back;
            if k < self.count && self.wanted(&s).has(self.lit_of(k, false).node()) {
                s.unmade = s.unmade.with(k);
            }
        }
        s
    }

    /// Whether each wanted value that is made stands in a row.
    pub fn is_safe(&self, s: &State) -> bool {
        let rows = self.rows(s.spilled, s.unwritten);
        let unmade = self.nodes_of(s.unmade);
        self.wanted(s).minus(rows.any).minus(unmade).is_empty()
    }
}

/// For each set of cells a digit of four bits for each of B12 to B15: 1 where one of its cells is
/// in the set.
static MET: [u16; 64] = [
    0x0000, 0x1001, 0x0111, 0x1111, 0x0111, 0x1111, 0x0111, 0x1111, 0x1010, 0x1011, 0x1111, 0x1111,
    0x1111, 0x1111, 0x1111, 0x1111, 0x0100, 0x1101, 0x0111, 0x1111, 0x0111, 0x1111, 0x0111, 0x1111,
    0x1110, 0x1111, 0x1111, 0x1111, 0x1111, 0x1111, 0x1111, 0x1111, 0x1000, 0x1001, 0x1111, 0x1111,
    0x1111, 0x1111, 0x1111, 0x1111, 0x1010, 0x1011, 0x1111, 0x1111, 0x1111, 0x1111, 0x1111, 0x1111,
    0x1100, 0x1101, 0x1111, 0x1111, 0x1111, 0x1111, 0x1111, 0x1111, 0x1110, 0x1111, 0x1111, 0x1111,
    0x1111, 0x1111, 0x1111, 0x1111,
];

/// How many of a node's operands, and of their complements, stand in place in each of the triples:
/// four digits of four bits for the operands, and from bit 16 on four for the complements.
#[derive(Clone, Copy)]
pub struct InPlace(u32);

impl InPlace {
    /// None.
    pub fn none() -> InPlace {
        InPlace(0)
    }

    /// Of one operand: the triples that have one of the cells that hold it, and those that have one
    /// that holds its complement.
    #[inline(always)]
    pub fn of(found: Lines) -> InPlace {
        let straight = MET[found.straight().0 as usize % 64];
        let complemented = MET[found.complemented().0 as usize % 64];
        InPlace(u32::from(straight) | u32::from(complemented) << 16)
    }

    /// Of the operand's complement.
    #[inline(always)]
    pub fn complement(self) -> InPlace {
        InPlace(self.0 >> 16 | self.0 << 16)
    }

    /// With another operand. There are at most three.
    #[inline(always)]
    pub fn with(self, other: InPlace) -> InPlace {
        InPlace(self.0.wrapping_add(other.0))
    }

    /// The greatest digit.
    #[inline(always)]
    pub fn most(self) -> u32 {
        if self.0 & self.0 >> 1 & 0x11111111 != 0 {
            3
        } else if self.0 & 0x22222222 != 0 {
            2
        } else {
            (self.0 != 0) as u32
        }
    }
}

/// How many of three literals, and how many of their complements, stand in place in the best of the
/// triples.
#[inline(always)]
pub fn in_place(cells: &Cells, [a, b, c]: [Short; 3]) -> [u32; 2] {
    let a = InPlace::of(holders(cells, a));
    let b = InPlace::of(holders(cells, b));
    let c = InPlace::of(holders(cells, c));
    let all = a.with(b).with(c);
    [InPlace(all.0 & 0xFFFF).most(), InPlace(all.0 >> 16).most()]
}
