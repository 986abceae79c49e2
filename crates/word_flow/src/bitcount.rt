//! `bitcount` as a flow.
//!
//! Level o has n / 2^o elements of weight 2^o: those of the lowest are the argument's rows, and
//! those above it stand from their own row of the target on. A level takes its elements in pairs
//! to a sum in cells; the carry of each is an element of the level above. Registers: 0 is the
//! level, 1 how many elements it has, 2 how many pairs, then those left, 3 whether an element is
//! left over, then the row of a pair's second element, 4 that of its first, 5 that of the carry,
//! and 6 how many levels are left.

use crate::shapes::Line::{Do, Done, If, Loop, LoopTwo, Put};
use crate::shapes::{CodedBody, Four, Line, Nine, four, lowest, nine, node, row, state};
use loop_ir::Move::{AddI, Mov, SetI, SetN, SetT};
use loop_ir::Sub;
use mig_graph::Node;
use row_alloc::BodyCmd::Aap;
use row_alloc::BodyRef::{B, C, In, Out};
use word_lower::literals::{N1, N2, OFF, ON, P1, P2, P3, P4, P5, P6, P7};
use word_lower::{Mark, Owner};

// the owners: the target and the argument
const TARGET: u8 = 0;

const FIRST: u8 = 1;

// the cells in which bits are added: T0 with the complement in DCC0; T3 with the complement in T2,
// which stand for the complement of a bit; T1; and DCC1, which has the complement of T1
const SUMMANDS: Four<Mark> = four!(state!(9), state!(10), state!(1), state!(12));

// the complement of a sum, in T3 and DCC0
const TOTAL: Mark = state!(6);

// a lone bit
const COPIES: CodedBody = CodedBody {
    reads: four!(lowest!(FIRST)),
    nodes: four!(),
    outs: four!(P1),
    writes: four!(lowest!(TARGET)),
    cmds: nine!(Aap(In(0), Out(0))),
};

// three elements of an owner come into the cells in which they are added, or two, or two and a sum
macro_rules! loads_three {
    ($owner:expr) => {
        CodedBody {
            reads: four!(row!($owner, 0), row!($owner, 4), row!($owner, 3)),
            nodes: four!(),
            outs: four!(P3, N1, P2, N2),
            writes: SUMMANDS,
            cmds: nine!(
                Aap(In(0), B(14)),
                Aap(In(1), B(9)),
                Aap(B(5), B(11)),
                Aap(In(2), B(8))
            ),
        }
    };
}

macro_rules! loads_two {
    ($owner:expr) => {
        CodedBody {
            reads: four!(row!($owner, 0), row!($owner, 4)),
            nodes: four!(),
            outs: four!(P1, ON, P2, N2),
            writes: SUMMANDS,
            cmds: nine!(
                Aap(C(0), B(2)),
                Aap(C(1), B(3)),
                Aap(In(0), B(8)),
                Aap(In(1), B(9))
            ),
        }
    };
}

macro_rules! loads_next {
    ($owner:expr) => {
        CodedBody {
            reads: four!(row!($owner, 4), row!($owner, 3), TOTAL),
            nodes: four!(),
            outs: four!(P2, P3, P1, N1),
            writes: SUMMANDS,
            cmds: nine!(Aap(In(0), B(9)), Aap(B(5), B(2)), Aap(In(1), B(8))),
        }
    };
}

// elements of the lowest level, and of those above it
const LOADS_THREE_BITS: CodedBody = loads_three!(FIRST);

const LOADS_TWO_BITS: CodedBody = loads_two!(FIRST);

const LOADS_NEXT_BITS: CodedBody = loads_next!(FIRST);

const LOADS_THREE: CodedBody = loads_three!(TARGET);

const LOADS_TWO: CodedBody = loads_two!(TARGET);

const LOADS_NEXT: CodedBody = loads_next!(TARGET);

// they are added: the carry goes into the target, and the sum stays in cells
const ADDS: CodedBody = CodedBody {
    reads: SUMMANDS,
    nodes: four!(node!(P1, N2, P3), node!(P2, P4, P5), node!(N1, P5, P6)),
    outs: four!(P5, P7),
    writes: four!(row!(TARGET, 5), TOTAL),
    cmds: nine!(Aap(B(12), Out(0)), Aap(B(15), B(1)), Aap(B(14), B(3))),
};

// a level's sum, and a level without elements
const SUMS: CodedBody = CodedBody {
    reads: four!(TOTAL),
    nodes: four!(),
    outs: four!(N1),
    writes: four!(row!(TARGET, 0)),
    cmds: nine!(Aap(B(5), Out(0))),
};

const CLEARS: CodedBody = CodedBody {
    reads: four!(),
    nodes: four!(),
    outs: four!(OFF),
    writes: four!(row!(TARGET, 0)),
    cmds: nine!(Aap(C(0), Out(0))),
};

/// Of `bitcount`.
pub const BITCOUNT: [Line; 88] = [
    Put(SetI(0, 0)),
    Put(SetN(1)),
    // the lowest level
    // the pairs, and whether an element is left over
    Put(SetI(2, 0)),
    Put(SetI(3, 0)),
    LoopTwo(1),
    Put(SetI(3, 1)),
    Done,
    Put(SetI(3, 0)),
    Put(AddI(2, 1)),
    Done,
    Put(Mov(1, 2)),
    If(2),
    Put(Mov(4, 0)),
    Put(AddI(4, 1)),
    Put(Mov(5, 4)),
    If(3),
    Put(Mov(3, 4)),
    Put(AddI(3, 1)),
    Do(LOADS_THREE_BITS),
    Put(AddI(3, 2)),
    Put(AddI(4, 2)),
    Done,
    Do(LOADS_TWO_BITS),
    Put(AddI(4, 1)),
    Put(Mov(3, 4)),
    Put(AddI(3, 1)),
    Done,
    Loop(2),
    Do(ADDS),
    Put(AddI(5, 1)),
    If(2),
    Do(LOADS_NEXT_BITS),
    Put(AddI(4, 2)),
    Put(AddI(3, 2)),
    Done,
    Done,
    Done,
    Do(SUMS),
    Done,
    // no pair: a lone bit
    Do(COPIES),
    Done,
    // the levels above it
    Put(SetT(6)),
    Loop(6),
    Put(AddI(0, 1)),
    // the pairs, and whether an element is left over
    Put(SetI(2, 0)),
    Put(SetI(3, 0)),
    LoopTwo(1),
    Put(SetI(3, 1)),
    Done,
    Put(SetI(3, 0)),
    Put(AddI(2, 1)),
    Done,
    Put(Mov(1, 2)),
    If(2),
    Put(Mov(4, 0)),
    Put(AddI(4, 1)),
    Put(Mov(5, 4)),
    If(3),
    Put(Mov(3, 4)),
    Put(AddI(3, 1)),
    Do(LOADS_THREE),
    Put(AddI(3, 2)),
    Put(AddI(4, 2)),
    Done,
    Do(LOADS_TWO),
    Put(AddI(4, 1)),
    Put(Mov(3, 4)),
    Put(AddI(3, 1)),
    Done,
    Loop(2),
    Do(ADDS),
    Put(AddI(5, 1)),
    If(2),
    Do(LOADS_NEXT),
    Put(AddI(4, 2)),
    Put(AddI(3, 2)),
    Done,
    Done,
    Done,
    Do(SUMS),
    Done,
    // no pair: an element that is the sum, or none
    If(3),
    Done,
    Do(CLEARS),
    Done,
    Done,
    Done,
    Done,
];
