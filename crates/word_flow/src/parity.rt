//! `xor_red` as a flow.
//!
//! The elements go in pairs, and three stand first where they are odd in number. Registers: 1 is
//! how many elements there are, 2 how many pairs, then those left, 3 whether an element is left
//! over, and 4 and 5 are the positions of a pair's elements.

use crate::shapes::Line::{Do, Done, If, Loop, LoopTwo, Put};
use crate::shapes::{CodedBody, Four, Line, Nine, four, lowest, nine, node, row, state};
use loop_ir::Move::{AddI, SetI, SetN, SubI};
use loop_ir::Sub;
use mig_graph::Node;
use row_alloc::BodyCmd::{Aap, Ap};
use row_alloc::BodyRef::{B, C, In, Out};
use word_lower::literals::{N1, N2, N3, N4, N5, N6, N7, OFF, ON, P1, P2, P3, P4, P5, P6};
use word_lower::{Mark, Owner};

// the owners: the target and the argument
const TARGET: u8 = 0;

const FIRST: u8 = 1;

// the complement of the parity, in T3 and DCC0, and in T2
const ODD: Mark = state!(6);

const ODD_TOO: Mark = state!(2);

const COPIES: CodedBody = CodedBody {
    reads: four!(lowest!(FIRST)),
    nodes: four!(),
    outs: four!(P1),
    writes: four!(lowest!(TARGET)),
    cmds: nine!(Aap(In(0), Out(0))),
};

// two elements alone, and three
const LONE_TWO: CodedBody = CodedBody {
    reads: four!(lowest!(FIRST), row!(FIRST, 4)),
    nodes: four!(node!(ON, P1, P2), node!(OFF, N1, P3), node!(N2, P3, P4)),
    outs: four!(P5),
    writes: four!(lowest!(TARGET)),
    cmds: nine!(
        Aap(C(0), B(8)),
        Aap(In(0), B(9)),
        Aap(In(1), B(10)),
        Aap(B(14), B(3)),
        Aap(B(15), B(1)),
        Aap(In(1), B(5)),
        Aap(B(14), Out(0))
    ),
};

const LONE_THREE: CodedBody = CodedBody {
    reads: four!(lowest!(FIRST), row!(FIRST, 4), row!(FIRST, 5)),
    nodes: four!(node!(N1, P2, P3), node!(P1, N2, P4), node!(N3, P4, P5)),
    outs: four!(P6),
    writes: four!(lowest!(TARGET)),
    cmds: nine!(
        Aap(In(0), B(8)),
        Aap(In(1), B(9)),
        Aap(In(2), B(10)),
        Aap(B(14), B(3)),
        Aap(B(15), B(1)),
        Aap(In(2), B(5)),
        Aap(B(14), Out(0))
    ),
};

// the first two of more, and the first three, whose parity stays in cells
const OPENS_TWO: CodedBody = CodedBody {
    reads: four!(lowest!(FIRST), row!(FIRST, 4)),
    nodes: four!(node!(OFF, P1, P2), node!(ON, N2, P3), node!(N1, P3, P4)),
    outs: four!(P5, P5),
    writes: four!(ODD, ODD_TOO),
    cmds: nine!(
        Aap(C(0), B(2)),
        Aap(C(1), B(3)),
        Aap(In(0), B(8)),
        Aap(In(1), B(9)),
        Ap(B(12)),
        Aap(B(15), B(1)),
        Aap(B(14), B(3))
    ),
};

const OPENS_THREE: CodedBody = CodedBody {
    reads: four!(lowest!(FIRST), row!(FIRST, 4), row!(FIRST, 5)),
    nodes: four!(node!(P1, P2, P3), node!(P1, P2, N4), node!(P3, N4, P5)),
    outs: four!(N6, N6),
    writes: four!(ODD, ODD_TOO),
    cmds: nine!(
        Aap(In(0), B(14)),
        Aap(In(1), B(9)),
        Aap(B(5), B(11)),
        Aap(In(2), B(8)),
        Ap(B(12)),
        Aap(B(15), B(1)),
        Aap(B(14), B(3))
    ),
};

// two more, and the last two
const JOINS: CodedBody = CodedBody {
    reads: four!(row!(FIRST, 4), row!(FIRST, 5), ODD),
    nodes: four!(node!(P1, P2, N3), node!(N1, P3, P4), node!(N2, P4, P5)),
    outs: four!(P6, P6),
    writes: four!(ODD, ODD_TOO),
    cmds: nine!(
        Aap(In(0), B(9)),
        Aap(B(5), B(2)),
        Aap(In(1), B(8)),
        Ap(B(12)),
        Aap(B(15), B(1)),
        Aap(B(14), B(3))
    ),
};

const ENDS: CodedBody = CodedBody {
    reads: four!(row!(FIRST, 4), row!(FIRST, 5), ODD, ODD_TOO),
    nodes: four!(node!(P1, P2, P4), node!(P1, P3, N5), node!(P2, N5, P6)),
    outs: four!(N7),
    writes: four!(lowest!(TARGET)),
    cmds: nine!(
        Aap(In(0), B(9)),
        Aap(B(5), B(3)),
        Aap(In(1), B(8)),
        Ap(B(12)),
        Aap(B(15), B(1)),
        Aap(B(14), Out(0))
    ),
};

/// Of `xor_red`.
pub const XOR_RED: [Line; 41] = [
    Put(SetN(1)),
    // the pairs, and whether an element is left over
    Put(SetI(2, 0)),
    Put(SetI(3, 0)),
    LoopTwo(1),
    Put(SetI(3, 1)),
    Done,
    Put(SetI(3, 0)),
    Put(AddI(2, 1)),
    Done,
    Put(SetI(4, 1)),
    Put(SetI(5, 2)),
    If(2),
    Put(SubI(2, 1)),
    If(2),
    // more than three elements
    If(3),
    Do(OPENS_THREE),
    Put(AddI(4, 2)),
    Put(AddI(5, 2)),
    Done,
    Do(OPENS_TWO),
    Put(AddI(4, 1)),
    Put(AddI(5, 1)),
    Done,
    Put(SubI(2, 1)),
    Loop(2),
    Do(JOINS),
    Put(AddI(4, 2)),
    Put(AddI(5, 2)),
    Done,
    Do(ENDS),
    Done,
    // three or two
    If(3),
    Do(LONE_THREE),
    Done,
    Do(LONE_TWO),
    Done,
    Done,
    Done,
    // one
    Do(COPIES),
    Done,
    Done,
];
