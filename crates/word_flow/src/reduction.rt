//! `and_red` and `or_red` as flows.
//!
//! Two elements stand in cells, and what both give is what all give that were taken: only that is
//! fixed, not what either is. Each further element joins one of the two by one gate, which reads
//! the complement of the other in place of a constant; so the two take turns. A constant comes in
//! once, at the end. Registers: 0 is how many elements are left, and 1 the position.

use crate::shapes::Line::{Do, Done, If, LoopTwo, Put};
use crate::shapes::{CodedBody, Four, Line, Nine, four, lowest, nine, node, row, state};
use loop_ir::Move::{AddI, SetI, SetT, SubI};
use loop_ir::Sub;
use mig_graph::Node;
use row_alloc::BodyCmd::Aap;
use row_alloc::BodyRef::{B, C, In, Out};
use word_lower::literals::{N2, N5, OFF, ON, P1, P2, P3, P4, P5};
use word_lower::{Mark, Owner};

// the owners: the target and the argument
const TARGET: u8 = 0;

const FIRST: u8 = 1;

// the two, in T3 and T1; and the complement of either, in the dual-contact cell that the other's
// gate reads
const LEFT: Mark = state!(3);

const RIGHT: Mark = state!(1);

const NOT_LEFT: Mark = state!(11);

const NOT_RIGHT: Mark = state!(12);

// a lone element
const COPIES: CodedBody = CodedBody {
    reads: four!(lowest!(FIRST)),
    nodes: four!(),
    outs: four!(P1),
    writes: four!(lowest!(TARGET)),
    cmds: nine!(Aap(In(0), Out(0))),
};

// the first two of more
const BEGINS: CodedBody = CodedBody {
    reads: four!(lowest!(FIRST), row!(FIRST, 1)),
    nodes: four!(),
    outs: four!(P1, P2, N2),
    writes: four!(LEFT, RIGHT, NOT_RIGHT),
    cmds: nine!(Aap(In(0), B(3)), Aap(In(1), B(9))),
};

// one that joins the left, and one that joins the right
const JOINS_LEFT: CodedBody = CodedBody {
    reads: four!(row!(FIRST, 1), LEFT, RIGHT, NOT_RIGHT),
    nodes: four!(node!(P1, P2, P4)),
    outs: four!(P5, P3, N5),
    writes: four!(LEFT, RIGHT, NOT_LEFT),
    cmds: nine!(Aap(In(0), B(0)), Aap(B(15), B(5))),
};

const JOINS_RIGHT: CodedBody = CodedBody {
    reads: four!(row!(FIRST, 1), LEFT, RIGHT, NOT_LEFT),
    nodes: four!(node!(P1, P3, P4)),
    outs: four!(P2, P5, N5),
    writes: four!(LEFT, RIGHT, NOT_RIGHT),
    cmds: nine!(Aap(In(0), B(2)), Aap(B(14), B(7))),
};

// what both give
macro_rules! ends {
    ($constant:expr, $row:expr) => {
        CodedBody {
            reads: four!(LEFT, RIGHT),
            nodes: four!(node!($constant, P1, P2)),
            outs: four!(P3),
            writes: four!(lowest!(TARGET)),
            cmds: nine!(Aap(C($row), B(2)), Aap(B(13), Out(0))),
        }
    };
}

const ENDS_AND: CodedBody = ends!(OFF, 0);

const ENDS_OR: CodedBody = ends!(ON, 1);

macro_rules! reduction {
    ($ends:expr) => {
        [
            Put(SetT(0)),
            If(0),
            Put(SetI(1, 1)),
            Do(BEGINS),
            Put(SubI(0, 1)),
            Put(SetI(1, 2)),
            LoopTwo(0),
            Do(JOINS_LEFT),
            Put(AddI(1, 1)),
            Done,
            Do(JOINS_RIGHT),
            Put(AddI(1, 1)),
            Done,
            Do($ends),
            Done,
            Do(COPIES),
            Done,
            Done,
        ]
    };
}

/// Of `and_red`.
pub const AND_RED: [Line; 18] = reduction!(ENDS_AND);

/// Of `or_red`.
pub const OR_RED: [Line; 18] = reduction!(ENDS_OR);
