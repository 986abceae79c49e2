//! An estimate of the commands that a sketch's body takes.
//!
//! Points are a sum of weights, one for each thing that a graph has. The weights are a regression
//! of the commands that a beam found, on 4,562 graphs of 120 drawn blocks: 20 points are about one
//! command. docs/SEARCH.md says how to make it again.

use crate::sketch::{Sketch, has, with, with_operands};

/// The points of a graph without nodes, so that no sum falls below 0.
const NONE: i32 = 1_000;

/// A node.
const NODE: i32 = 41;

/// An operand that is a node with other readers.
const SHARED: i32 = 6;

/// An operand that is a node with no other reader.
const SINGLE: i32 = 17;

/// An operand that is the complement of a node.
const INVERTED: i32 = 4;

/// An operand that is a constant.
const CONSTANT: i32 = -5;

/// An operand that is the complement of an input.
const INPUT_INVERTED: i32 = 2;

/// An operand that is an input with other readers.
const INPUT_SHARED: i32 = -3;

/// An output that is the complement of a node.
const OUTPUT_INVERTED: i32 = 1;

/// An output that is a node.
const OUTPUT_STRAIGHT: i32 = -1;

/// An output whose node has readers.
const OUTPUT_READ: i32 = -17;

/// Each reader of a node beyond the second.
const READER: i32 = -7;

/// An input that is read.
const INPUT: i32 = 15;

/// A node of no nodes, of one, of two and of three.
const OF_NODES: [i32; 4] = [6, 0, -2, -5];

/// How many nodes read each node.
type Readers = [u32; 64];

/// One reader more for the literal's node.
fn count_reader(readers: &mut Readers, literal: u8) {
    let node = (literal / 2) as usize;
    if node < 64 {
        readers[node] = readers[node].saturating_add(1);
    }
}

/// How many nodes read each node.
fn readers_of(sketch: &Sketch) -> Readers {
    let mut readers = [0u32; 64];
    for node in sketch.first()..sketch.size() {
        for literal in sketch.operands(node) {
            count_reader(&mut readers, literal);
        }
    }
    readers
}

/// How many nodes read the literal's node.
fn readers_at(readers: &Readers, literal: u8) -> u32 {
    match readers.get((literal / 2) as usize) {
        Some(count) => *count,
        None => 0,
    }
}

/// The weight where the thing is there.
fn only(is_there: bool, weight: i32) -> i32 {
    if is_there { weight } else { 0 }
}

/// The points of an operand.
fn of_operand(sketch: &Sketch, readers: &Readers, literal: u8) -> i32 {
    let is_inverted = literal % 2 == 1;
    let is_shared = readers_at(readers, literal) > 1;
    if literal < 2 {
        CONSTANT
    } else if literal / 2 < sketch.first() {
        only(is_inverted, INPUT_INVERTED).saturating_add(only(is_shared, INPUT_SHARED))
    } else {
        let reads = if is_shared { SHARED } else { SINGLE };
        reads.saturating_add(only(is_inverted, INVERTED))
    }
}

/// The points of a node for its readers and for how many of its operands are nodes.
fn of_place(sketch: &Sketch, readers: &Readers, node: u8) -> i32 {
    let mut nodes = 0usize;
    for literal in sketch.operands(node) {
        if literal / 2 >= sketch.first() {
            nodes = nodes.saturating_add(1);
        }
    }
    let beyond = readers_at(readers, node.saturating_mul(2)).saturating_sub(2);
    let of_nodes = match OF_NODES.get(nodes) {
        Some(weight) => *weight,
        None => 0,
    };
    of_nodes.saturating_add(READER.saturating_mul(u32::min(beyond, 64) as i32))
}

/// The points of a node.
fn of_node(sketch: &Sketch, readers: &Readers, node: u8) -> i32 {
    let mut points = NODE.saturating_add(of_place(sketch, readers, node));
    for literal in sketch.operands(node) {
        points = points.saturating_add(of_operand(sketch, readers, literal));
    }
    points
}

/// The points of an output.
fn of_output(sketch: &Sketch, readers: &Readers, literal: u8) -> i32 {
    if literal / 2 < sketch.first() {
        return 0;
    }
    let written = if literal % 2 == 1 {
        OUTPUT_INVERTED
    } else {
        OUTPUT_STRAIGHT
    };
    written.saturating_add(only(readers_at(readers, literal) > 0, OUTPUT_READ))
}

/// The points of the inputs that are read.
fn of_inputs(sketch: &Sketch) -> i32 {
    let mut read = 0u64;
    for node in sketch.first()..sketch.size() {
        read = with_operands(read, sketch.operands(node));
    }
    let mut points = 0i32;
    for input in 0..sketch.first() {
        points = points.saturating_add(only(has(read, input), INPUT));
    }
    points
}

/// The estimate: more points are more commands.
pub fn points_of(sketch: &Sketch) -> i32 {
    let readers = readers_of(sketch);
    let mut points = NONE.saturating_add(of_inputs(sketch));
    for node in sketch.first()..sketch.size() {
        points = points.saturating_add(of_node(sketch, &readers, node));
    }
    for (k, literal) in sketch.outs.iter().enumerate() {
        if k < sketch.outputs as usize {
            points = points.saturating_add(of_output(sketch, &readers, *literal));
        }
    }
    points
}
