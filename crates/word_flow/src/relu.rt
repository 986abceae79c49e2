//! `relu` as a flow.
//!
//! Each bit below the top one stays where that is not set; two positions take turns, between which
//! the complement of the top bit and the constant stand in cells. Registers: 0 is how many
//! positions are left, 1 the position, and 2 the top one.

use crate::shapes::Line::{Do, Done, If, LoopTwo, Put};
use crate::shapes::{CodedBody, Four, Line, Nine, four, nine, node, row, state};
use loop_ir::Move::{AddI, SetI, SetT};
use loop_ir::Sub;
use mig_graph::Node;
use row_alloc::BodyCmd::Aap;
use row_alloc::BodyRef::{B, C, In, Out};
use word_lower::literals::{N1, OFF, P1, P2, P3, P4};
use word_lower::{Mark, Owner};

// the owners: the target and the argument
const TARGET: u8 = 0;

const FIRST: u8 = 1;

// the complement of the top bit, in T1 and in DCC0; and the constant, in T3
const POSITIVE: Mark = state!(1);

const POSITIVE_TOO: Mark = state!(11);

const NOUGHT: Mark = state!(3);

const TURNS: CodedBody = CodedBody {
    reads: four!(row!(FIRST, 2)),
    nodes: four!(),
    outs: four!(N1, N1),
    writes: four!(POSITIVE, POSITIVE_TOO),
    cmds: nine!(Aap(In(0), B(5)), Aap(B(4), B(1))),
};

// a position, which leaves the constant, and the next one
const JOINS: CodedBody = CodedBody {
    reads: four!(row!(FIRST, 1), POSITIVE, POSITIVE_TOO),
    nodes: four!(node!(OFF, P1, P2)),
    outs: four!(P4, OFF, P3),
    writes: four!(row!(TARGET, 1), NOUGHT, POSITIVE_TOO),
    cmds: nine!(Aap(C(0), B(11)), Aap(In(0), B(2)), Aap(B(12), Out(0))),
};

const JOINS_TOO: CodedBody = CodedBody {
    reads: four!(row!(FIRST, 1), NOUGHT, POSITIVE_TOO),
    nodes: four!(node!(P1, P2, P3)),
    outs: four!(P4, P3, P3),
    writes: four!(row!(TARGET, 1), POSITIVE, POSITIVE_TOO),
    cmds: nine!(Aap(In(0), B(6)), Aap(B(4), B(12)), Aap(B(15), Out(0))),
};

// the top position
const CLEARS: CodedBody = CodedBody {
    reads: four!(),
    nodes: four!(),
    outs: four!(OFF),
    writes: four!(row!(TARGET, 2)),
    cmds: nine!(Aap(C(0), Out(0))),
};

/// Of `relu`.
pub const RELU: [Line; 16] = [
    Put(SetT(0)),
    Put(SetT(2)),
    Put(SetI(1, 0)),
    If(0),
    Do(TURNS),
    LoopTwo(0),
    Do(JOINS),
    Put(AddI(1, 1)),
    Done,
    Do(JOINS_TOO),
    Put(AddI(1, 1)),
    Done,
    Done,
    Done,
    Do(CLEARS),
    Done,
];
