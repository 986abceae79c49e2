//! `mul` as a flow.
//!
//! The first row of the product is the first argument where the lowest bit of the second is set:
//! two positions take turns, of which one leaves that bit and a constant in cells for the other.
//! Each other row is added where its bit is set, whose complement comes into the scratch.
//! Registers: 0 is how many positions or rows are left, 1 the position or the row, 2 how many
//! positions of a row are left, 3 that in the first argument, and 4 that in the target.

use crate::shapes::Line::{Do, Done, Loop, LoopTwo, Put};
use crate::shapes::{CodedBody, Four, Line, Nine, four, lowest, nine, node, row, state};
use loop_ir::Move::{AddI, Mov, SetI, SetN, SetT};
use loop_ir::Sub;
use mig_graph::Node;
use row_alloc::BodyCmd::{Aap, Ap};
use row_alloc::BodyRef::{B, C, In, Out};
use word_lower::literals::{N1, N3, N4, N5, OFF, ON, P1, P2, P3, P4, P5, P6, P7, P8};
use word_lower::{Mark, Owner};

// the owners: the target, the arguments, and the bit of scratch
const TARGET: u8 = 0;

const FIRST: u8 = 1;

const SECOND: u8 = 2;

const TURNED: u8 = 3;

// the carry, in T3 and DCC1
const CARRY: Mark = state!(4);

// a position of the first row, which leaves the constant in T0 and the bit in T3, and the next one
const JOINS: CodedBody = CodedBody {
    reads: four!(row!(FIRST, 1), lowest!(SECOND)),
    nodes: four!(node!(OFF, P1, P2)),
    outs: four!(P3, OFF, P2),
    writes: four!(row!(TARGET, 1), state!(0), state!(3)),
    cmds: nine!(
        Aap(C(0), B(12)),
        Aap(In(1), B(10)),
        Aap(In(0), B(4)),
        Aap(B(14), Out(0))
    ),
};

const JOINS_TOO: CodedBody = CodedBody {
    reads: four!(row!(FIRST, 1), state!(0), state!(3)),
    nodes: four!(node!(P1, P2, P3)),
    outs: four!(P4),
    writes: four!(row!(TARGET, 1)),
    cmds: nine!(Aap(In(0), B(6)), Aap(B(15), Out(0))),
};

// the complement of a row's bit
const TURNS: CodedBody = CodedBody {
    reads: four!(row!(SECOND, 1)),
    nodes: four!(),
    outs: four!(N1),
    writes: four!(lowest!(TURNED)),
    cmds: nine!(Aap(In(0), B(5)), Aap(B(4), Out(0))),
};

// the lowest position of a row, and each other: the complement of what is added of the first
// argument, then the carry, and the sum
const ADDS_FIRST: CodedBody = CodedBody {
    reads: four!(lowest!(FIRST), lowest!(TURNED), row!(TARGET, 1)),
    nodes: four!(
        node!(ON, N1, P2),
        node!(OFF, P3, P4),
        node!(ON, N3, P5),
        node!(N4, P5, P6)
    ),
    outs: four!(P7, P6),
    writes: four!(row!(TARGET, 1), CARRY),
    cmds: nine!(
        Aap(C(1), B(13)),
        Aap(In(0), B(5)),
        Aap(In(1), B(2)),
        Aap(B(14), B(8)),
        Aap(C(0), B(2)),
        Aap(In(2), B(9)),
        Ap(B(12)),
        Aap(B(15), B(1)),
        Aap(B(14), Out(0))
    ),
};

const ADDS: CodedBody = CodedBody {
    reads: four!(row!(FIRST, 3), lowest!(TURNED), row!(TARGET, 4), CARRY),
    nodes: four!(
        node!(ON, N1, P2),
        node!(P3, N4, P5),
        node!(N3, P4, P6),
        node!(N5, P6, P7)
    ),
    outs: four!(P8, P7),
    writes: four!(row!(TARGET, 4), CARRY),
    cmds: nine!(
        Aap(C(1), B(1)),
        Aap(In(0), B(5)),
        Aap(In(1), B(2)),
        Aap(B(14), B(8)),
        Aap(B(7), B(2)),
        Aap(In(2), B(9)),
        Ap(B(12)),
        Aap(B(15), B(1)),
        Aap(B(14), Out(0))
    ),
};

/// Of `mul`.
pub const MUL: [Line; 26] = [
    Put(SetN(0)),
    Put(SetI(1, 0)),
    LoopTwo(0),
    Do(JOINS),
    Put(AddI(1, 1)),
    Done,
    Do(JOINS_TOO),
    Put(AddI(1, 1)),
    Done,
    Put(SetT(0)),
    Put(SetI(1, 1)),
    // the other rows
    Loop(0),
    Do(TURNS),
    Do(ADDS_FIRST),
    Put(Mov(2, 0)),
    Put(SetI(3, 1)),
    Put(Mov(4, 1)),
    Put(AddI(4, 1)),
    Loop(2),
    Do(ADDS),
    Put(AddI(3, 1)),
    Put(AddI(4, 1)),
    Done,
    Put(AddI(1, 1)),
    Done,
    Done,
];
