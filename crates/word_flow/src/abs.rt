//! `abs` as a flow.
//!
//! The lowest bit stays; the bits above the lowest one that is set are turned where the sign is
//! set. Whether one below was set under the sign stands in cells. Registers: 0 is how many
//! positions are left, 1 the position, and 2 the top one.

use crate::shapes::Line::{Do, Done, If, Loop, Put};
use crate::shapes::{CodedBody, Four, Line, Nine, four, lowest, nine, node, row, state};
use loop_ir::Move::{AddI, SetI, SetT, SubI};
use loop_ir::Sub;
use mig_graph::Node;
use row_alloc::BodyCmd::{Aap, Ap};
use row_alloc::BodyRef::{B, C, In, Out};
use word_lower::literals::{N3, N5, N7, OFF, ON, P1, P2, P3, P4, P5, P6, P7};
use word_lower::{Mark, Owner};

// the owners: the target and the argument
const TARGET: u8 = 0;

const FIRST: u8 = 1;

// whether a bit was set under the sign, in T3 and DCC1; and its complement, in DCC1
const SEEN: Mark = state!(4);

const UNSEEN: Mark = state!(12);

const COPIES: CodedBody = CodedBody {
    reads: four!(lowest!(FIRST)),
    nodes: four!(),
    outs: four!(P1),
    writes: four!(lowest!(TARGET)),
    cmds: nine!(Aap(In(0), Out(0))),
};

// whether the lowest bit is set under the sign; its complement where no position comes between
const SEES: CodedBody = CodedBody {
    reads: four!(lowest!(FIRST), row!(FIRST, 2)),
    nodes: four!(node!(OFF, P1, P2)),
    outs: four!(P3),
    writes: four!(SEEN),
    cmds: nine!(
        Aap(C(0), B(6)),
        Aap(In(0), B(0)),
        Aap(In(1), B(3)),
        Ap(B(15))
    ),
};

const SEES_LAST: CodedBody = CodedBody {
    reads: four!(lowest!(FIRST), row!(FIRST, 2)),
    nodes: four!(node!(OFF, P1, P2)),
    outs: four!(N3),
    writes: four!(UNSEEN),
    cmds: nine!(
        Aap(C(0), B(6)),
        Aap(In(0), B(0)),
        Aap(In(1), B(3)),
        Aap(B(15), B(7))
    ),
};

// a bit that is turned where one below it was set under the sign, and whether one was, or, of the
// last position below the top, the complement
const NEGATES: CodedBody = CodedBody {
    reads: four!(row!(FIRST, 1), row!(FIRST, 2), SEEN),
    nodes: four!(
        node!(ON, P1, P3),
        node!(OFF, P1, P3),
        node!(OFF, P4, N5),
        node!(P2, P5, P6)
    ),
    outs: four!(P6, P7),
    writes: four!(row!(TARGET, 1), SEEN),
    cmds: nine!(
        Aap(In(0), B(12)),
        Aap(C(1), B(1)),
        Aap(B(13), B(4)),
        Aap(C(0), B(10)),
        Aap(B(15), B(5)),
        Aap(B(14), Out(0)),
        Aap(In(1), B(1)),
        Aap(B(12), B(15))
    ),
};

const NEGATES_LAST: CodedBody = CodedBody {
    reads: four!(row!(FIRST, 1), row!(FIRST, 2), SEEN),
    nodes: four!(
        node!(ON, P1, P3),
        node!(OFF, P1, P3),
        node!(OFF, P4, N5),
        node!(P2, P5, P6)
    ),
    outs: four!(P6, N7),
    writes: four!(row!(TARGET, 1), UNSEEN),
    cmds: nine!(
        Aap(In(0), B(12)),
        Aap(C(1), B(1)),
        Aap(B(13), B(4)),
        Aap(C(0), B(10)),
        Aap(B(15), B(5)),
        Aap(B(14), Out(0)),
        Aap(In(1), B(1)),
        Aap(B(12), B(7))
    ),
};

// the top bit stays where none below was set
const ENDS: CodedBody = CodedBody {
    reads: four!(row!(FIRST, 2), UNSEEN),
    nodes: four!(node!(OFF, P1, P2)),
    outs: four!(P3),
    writes: four!(row!(TARGET, 2)),
    cmds: nine!(Aap(C(0), B(3)), Aap(In(0), B(0)), Aap(B(15), Out(0))),
};

/// Of `abs`.
pub const ABS: [Line; 21] = [
    Do(COPIES),
    Put(SetT(2)),
    Put(SetT(0)),
    // more than one bit
    If(0),
    Put(SubI(0, 1)),
    Put(SetI(1, 1)),
    // positions between the lowest and the top one
    If(0),
    Do(SEES),
    Put(SubI(0, 1)),
    Loop(0),
    Do(NEGATES),
    Put(AddI(1, 1)),
    Done,
    Do(NEGATES_LAST),
    Done,
    Do(SEES_LAST),
    Done,
    Do(ENDS),
    Done,
    Done,
    Done,
];
