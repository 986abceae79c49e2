//! What is ahead of a state, as far as it depends on nothing but which nodes must still be made.

use crate::cells::Short;
use crate::estimate::Points;
use crate::outlook::Task;
use crate::set::{Nodes, Set};

/// A state without a node that must still be made.
const NOTHING: i32 = -6;

/// A node that must still be made, and its share of a tenth of their number squared.
const NODE: i32 = 20;

const NODES_SQUARED: i32 = 8;

/// A node whose operands are all made, and what none of them in place adds.
const READY: i32 = 7;

/// An operand that must still be made, with several readers or with one.
const UNMADE_SHARED: i32 = 7;

const UNMADE_SINGLE: i32 = 6;

/// An operand that is an input with one reader that must still be made, with two, or with more.
const INPUT_OF_ONE: i32 = 7;

const INPUT_OF_TWO: i32 = 6;

const INPUT_OF_MORE: i32 = 7;

/// An operand that is a constant.
const CONSTANT: i32 = 4;

/// An operand that is the complement of an input.
const INPUT_INVERTED: i32 = -8;

/// An operand that is made: its complement, or the node itself.
const MADE_INVERTED: i32 = 14;

const MADE: i32 = 10;

/// A node of inputs and constants alone.
const OF_INPUTS: i32 = 3;

/// An input or constant that must be read from its row.
const LOAD: i32 = 1;

/// An input that is read straight and inverted, or inverted alone.
const BOTH_WAYS: i32 = 8;

const INVERTED_ALONE: i32 = 12;

/// An output whose node must still be made: its complement, or the node itself.
const OUTPUT_UNMADE_INVERTED: i32 = 18;

const OUTPUT_UNMADE: i32 = 10;

/// What is ahead of the states of a body with the same nodes to be made.
#[derive(Clone, Copy)]
pub struct Ahead {
    /// The number of the body.
    pub body: u32,
    /// These nodes.
    pub unmade: Set,
    /// Those of them whose operands are all made.
    pub ready: Set,
    /// Their points.
    pub points: Points,
    /// The nodes that they read, or that are left in cells.
    pub read: Nodes,
    /// The inputs and constants that they read from their rows.
    pub loads: Nodes,
    /// How many nodes and loads these are.
    pub steps: u32,
    pub load_count: u32,
    /// The outputs of the other nodes.
    pub given: Set,
}

/// The inputs that are read straight, and those that are read inverted.
#[derive(Clone, Copy)]
struct Polarities {
    straight: Nodes,
    inverted: Nodes,
}

impl Polarities {
    fn with(self, task: &Task, l: Short) -> Polarities {
        let mut more = self;
        if l.node() > 0 && l.node() < task.first {
            if l.is_inverted() {
                more.inverted = more.inverted.or(l.nodes());
            } else {
                more.straight = more.straight.or(l.nodes());
            }
        }
        more
    }

    fn points(self) -> Points {
        let both = self.straight.and(self.inverted);
        let alone = self.inverted.minus(self.straight);
        Points(0)
            .with(BOTH_WAYS, both.len())
            .with(INVERTED_ALONE, alone.len())
    }
}

/// The weight of an operand that is an input.
fn of_input(readers: u32, is_inverted: bool) -> i32 {
    let reads = match readers {
        1 => INPUT_OF_ONE,
        2 => INPUT_OF_TWO,
        _ => INPUT_OF_MORE,
    };
    reads.wrapping_add(if is_inverted { INPUT_INVERTED } else { 0 })
}

/// The weight of an operand, where these nodes must still be made.
fn of_operand(task: &Task, unmade: Set, l: Short) -> i32 {
    let readers = task.readers(l).or(task.readers(l.complement()));
    let readers = readers.and(unmade).len();
    if task.nodes_of(unmade).has(l.node()) {
        if readers > 1 {
            UNMADE_SHARED
        } else {
            UNMADE_SINGLE
        }
    } else if l.node() == 0 {
        CONSTANT
    } else if l.node() < task.first {
        of_input(readers, l.is_inverted())
    } else if l.is_inverted() {
        MADE_INVERTED
    } else {
        MADE
    }
}

/// The weight of an output whose node must still be made.
fn of_unmade_output(l: Short) -> i32 {
    if l.is_inverted() {
        OUTPUT_UNMADE_INVERTED
    } else {
        OUTPUT_UNMADE
    }
}

impl Ahead {
    /// Nothing.
    pub fn none() -> Ahead {
        Ahead {
            body: u32::MAX,
            unmade: Set(0),
            ready: Set(0),
            points: Points(0),
            read: Nodes(0),
            loads: Nodes(0),
            steps: 0,
            load_count: 0,
            given: Set(0),
        }
    }

    /// With one of the nodes that must still be made.
    fn add(&mut self, task: &Task, k: u8) {
        let unmade = task.nodes_of(self.unmade);
        let [a, b, c] = task.operands(k);
        self.points = self
            .points
            .plus(of_operand(task, self.unmade, a))
            .plus(of_operand(task, self.unmade, b))
            .plus(of_operand(task, self.unmade, c));
        self.loads = self.loads.or(task.loads(k));
        if !task.reads(k).meets(unmade) {
            self.ready = self.ready.with(k);
        }
        if a.node() < task.first && b.node() < task.first && c.node() < task.first {
            self.points = self.points.plus(OF_INPUTS);
        }
    }

    /// With the outputs.
    fn add_outs(&mut self, task: &Task) {
        for j in 0..8u8 {
            let l = task.output(j);
            if task.nodes_of(self.unmade).has(l.node()) {
                self.points = self.points.plus(of_unmade_output(l));
            } else if l.is_some() {
                self.given = self.given.with(j);
            }
        }
    }

    /// Of a body, where these nodes must still be made.
    pub fn from(task: &Task, body: u32, unmade: Set) -> Ahead {
        let mut ahead = Ahead {
            body,
            unmade,
            read: task.read_by(unmade),
            ..Ahead::none()
        };
        ahead.add_outs(task);
        let mut polarities = Polarities {
            straight: Nodes(0),
            inverted: Nodes(0),
        };
        let mut left = unmade;
        for _ in 0..32u8 {
            let Some(k) = left.first() else {
                break;
            };
            left = left.rest();
            ahead.add(task, k);
            let [a, b, c] = task.operands(k);
            polarities = polarities.with(task, a).with(task, b).with(task, c);
        }
        let count = unmade.len();
        ahead.steps = count;
        ahead.load_count = ahead.loads.len();
        let squared = NODES_SQUARED.wrapping_mul((count.wrapping_mul(count) & 0x7FF) as i32) / 10;
        ahead.points = ahead
            .points
            .plus(NOTHING)
            .with(NODE, count)
            .plus(squared)
            .with(LOAD, ahead.load_count)
            .with(READY, ahead.ready.len())
            .plus(polarities.points().0);
        ahead
    }

    /// A number of commands that the steps from a state take at least, apart from loads: one for
    /// each node, and one for each output of a node that is made.
    #[inline(always)]
    pub fn least(&self, unwritten: Set) -> u32 {
        self.steps.saturating_add(self.given.and(unwritten).len())
    }

    /// How many inputs and constants must be loaded first, where the cells hold these nodes.
    #[inline(always)]
    pub fn loads_left(&self, held: Nodes) -> u32 {
        self.loads.minus(held).len()
    }
}
