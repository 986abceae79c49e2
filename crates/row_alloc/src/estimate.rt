//! How many commands a state may still take, in twentieths of a command.
//!
//! The estimate is a sum of weights, one for each thing that a state has. The weights are least
//! squares of the commands that a beam took from 17,000 states to the end of their bodies.
//! docs/SEARCH.md says how. Sums stay far below 2^31.

use crate::ahead::Ahead;
use crate::cells::{holders, lacking};
use crate::outlook::{InPlace, Rows, State, Task};
use crate::set::{Nodes, Set};

/// An output that is made, where something gives it, or only its complement is given.
const OUTPUT_GIVEN: i32 = 22;

const OUTPUT_COMPLEMENT_GIVEN: i32 = 38;

/// A cell that holds nothing that is wanted.
const FREE: i32 = 1;

/// An input or constant that must be loaded and stands in no cell.
const LOAD: i32 = 3;

/// A value in cells alone, in fewer of them than nodes read it.
const FEW_COPIES: i32 = 11;

/// A value in cells alone that nodes read of which none can be made yet.
const NONE_READY: i32 = 2;

/// Each value in cells alone, each beyond two besides, and each beyond three.
const ALONE: i32 = 2;

const BEYOND_TWO: i32 = 2;

const BEYOND_THREE: i32 = -7;

/// A literal that is to be left in a cell and does not stand there: of a node that must still be
/// made, or of one that is made.
const LEFT_UNMADE: i32 = 19;

const LEFT_MADE: i32 = 23;

/// A node that can be made, by how many of its operands stand in place, less one with none.
const READY: [i32; 4] = [0, -4, -13, -26];

/// A node that cannot be made yet, by the same.
const NOT_READY: [i32; 4] = [0, 1, -2, 0];

/// Each operand that is not in place of the node that can be made with the most in place, and where
/// all of one's are.
const AWAY: i32 = 1;

const ALL_IN_PLACE: i32 = -16;

/// A sum of points.
#[derive(Clone, Copy)]
pub struct Points(pub i32);

impl Points {
    #[inline(always)]
    pub fn plus(self, weight: i32) -> Points {
        Points(self.0.wrapping_add(weight))
    }

    /// With so many things of a weight.
    #[inline(always)]
    pub fn with(self, weight: i32, count: u32) -> Points {
        self.plus(weight.wrapping_mul((count & 0xFF) as i32))
    }
}

/// The weight of this number.
#[inline(always)]
fn nth(weights: [i32; 4], k: u32) -> i32 {
    weights[k as usize % 4]
}

/// The outputs of nodes that are made, where they must still be written.
#[inline(always)]
fn of_outputs(task: &Task, ahead: &Ahead, s: &State, rows: &Rows) -> Points {
    let mut points = Points(0);
    let mut left = s.unwritten.and(ahead.given);
    for _ in 0..8u8 {
        let Some(j) = left.first() else {
            break;
        };
        left = left.rest();
        let is_given = task.source(rows, &s.cells, task.output(j)).is_some();
        points = points.plus(if is_given {
            OUTPUT_GIVEN
        } else {
            OUTPUT_COMPLEMENT_GIVEN
        });
    }
    points
}

/// What stands in cells: its points, and how many values stand in cells alone.
#[derive(Clone, Copy)]
struct InCells {
    points: Points,
    alone: u32,
}

impl InCells {
    /// With a value that stands in these cells alone, and that these nodes read.
    #[inline(always)]
    fn with_alone(self, ahead: &Ahead, readers: Set, copies: Set) -> InCells {
        let mut more = self;
        if copies.len() < readers.len() {
            more.points = more.points.plus(FEW_COPIES);
        }
        if !readers.is_empty() && !readers.meets(ahead.ready) {
            more.points = more.points.plus(NONE_READY);
        }
        more.alone = more.alone.saturating_add(1);
        more
    }

    /// All points.
    #[inline(always)]
    fn total(self) -> Points {
        self.points
            .with(ALONE, self.alone)
            .with(BEYOND_TWO, self.alone.saturating_sub(2))
            .with(BEYOND_THREE, self.alone.saturating_sub(3))
    }
}

/// The nodes that must still be made and read what stands in cells, and for each node what stands
/// in place of its operands.
#[derive(Clone, Copy)]
struct Touched {
    nodes: Set,
    in_place: [InPlace; 32],
}

impl Touched {
    /// None.
    #[inline(always)]
    fn new() -> Touched {
        Touched {
            nodes: Set(0),
            in_place: [InPlace::none(); 32],
        }
    }

    /// Each of these nodes has one operand more, which stands so.
    #[inline(always)]
    fn add(&mut self, readers: Set, found: InPlace) {
        self.nodes = self.nodes.or(readers);
        let mut left = readers;
        for _ in 0..32u8 {
            let Some(k) = left.first() else {
                break;
            };
            left = left.rest();
            let place = k as usize % 32;
            self.in_place[place] = self.in_place[place].with(found);
        }
    }
}

/// What stands in the cells of a state.
#[inline(always)]
fn in_cells(task: &Task, ahead: &Ahead, s: &State, rows: &Rows, touched: &mut Touched) -> Points {
    let mut all = InCells {
        points: Points(0),
        alone: 0,
    };
    let mut seen = Set(0);
    for k in 0..6u8 {
        let l = s.cells.get(k);
        if !l.is_some() {
            all.points = all.points.plus(FREE);
        } else if !seen.has(k) {
            let held = holders(&s.cells, l);
            let copies = held.straight().or(held.complemented());
            let straight = task.readers(l).and(ahead.unmade);
            let inverted = task.readers(l.complement()).and(ahead.unmade);
            let found = InPlace::of(held);
            touched.add(straight, found);
            touched.add(inverted, found.complement());
            seen = seen.or(copies);
            if l.node() >= task.first && !rows.any.has(l.node()) {
                all = all.with_alone(ahead, straight.or(inverted), copies);
            }
        }
    }
    all.total()
}

/// The literals that lack a cell in which they are to be left.
#[inline(always)]
fn of_left(task: &Task, ahead: &Ahead, s: &State) -> Points {
    let mut points = Points(0);
    if !task.leaves_states() {
        return points;
    }
    let lacks = lacking(&task.leave, &s.cells);
    let unmade = task.nodes_of(ahead.unmade);
    let mut seen = Set(0);
    for k in 0..6u8 {
        if lacks.has(k) && !seen.has(k) {
            let l = task.leave.get(k);
            let cells = holders(&task.leave, l);
            seen = seen.or(cells.straight()).or(cells.complemented());
            let is_unmade = unmade.has(l.node());
            points = points.plus(if is_unmade { LEFT_UNMADE } else { LEFT_MADE });
        }
    }
    points
}

/// The nodes that read what stands in cells, by how many operands are in place.
#[inline(always)]
fn of_nodes(ahead: &Ahead, touched: &Touched) -> Points {
    let mut points = Points(0);
    let mut best = 0u32;
    let mut left = touched.nodes;
    for _ in 0..32u8 {
        let Some(k) = left.first() else {
            break;
        };
        left = left.rest();
        let count = touched.in_place[k as usize % 32].most();
        if ahead.ready.has(k) {
            points = points.plus(nth(READY, count));
            best = u32::max(best, count);
        } else {
            points = points.plus(nth(NOT_READY, count));
        }
    }
    if !ahead.ready.is_empty() {
        points = points.with(AWAY, 3u32.saturating_sub(best));
    }
    points.plus(if best == 3 { ALL_IN_PLACE } else { 0 })
}

/// The whole estimate of a state whose cells hold these nodes, where what is ahead is known.
#[inline(always)]
pub fn estimate(task: &Task, ahead: &Ahead, s: &State, rows: &Rows, held: Nodes) -> i32 {
    let mut touched = Touched::new();
    let Points(cells) = in_cells(task, ahead, s, rows, &mut touched);
    let Points(outputs) = of_outputs(task, ahead, s, rows);
    let Points(left) = of_left(task, ahead, s);
    let Points(nodes) = of_nodes(ahead, &touched);
    ahead
        .points
        .with(LOAD, ahead.loads_left(held))
        .plus(cells)
        .plus(outputs)
        .plus(left)
        .plus(nodes)
        .0
}

/// So many commands with an estimate, in twentieths of a command.
#[inline(always)]
pub fn rank_of(spent: u32, points: i32) -> u32 {
    let rank = i32::max(
        ((spent & 0xFFFF) as i32)
            .wrapping_mul(20)
            .wrapping_add(points),
        0,
    );
    rank as u32
}
