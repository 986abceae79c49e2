//! `shl1` and `shr1` as flows.
//!
//! One row is cleared, and each other one takes its neighbour's bit, from above. Register 0 is the
//! number of rows that are left, and so the lower of two neighbours; register 1 is the upper one.

use crate::shapes::Line::{Do, Done, Loop, Put};
use crate::shapes::{CodedBody, Four, Line, Nine, four, lowest, nine, row};
use loop_ir::Move::{SetT, SubI};
use loop_ir::Sub;
use row_alloc::BodyCmd::Aap;
use row_alloc::BodyRef::{C, In, Out};
use word_lower::literals::{OFF, P1};
use word_lower::{Mark, Owner};

// the owners: the target and the argument
const TARGET: u8 = 0;

const FIRST: u8 = 1;

const CLEARS_LOWEST: CodedBody = CodedBody {
    reads: four!(),
    nodes: four!(),
    outs: four!(OFF),
    writes: four!(lowest!(TARGET)),
    cmds: nine!(Aap(C(0), Out(0))),
};

const CLEARS_TOP: CodedBody = CodedBody {
    reads: four!(),
    nodes: four!(),
    outs: four!(OFF),
    writes: four!(row!(TARGET, 1)),
    cmds: nine!(Aap(C(0), Out(0))),
};

const UP: CodedBody = CodedBody {
    reads: four!(row!(FIRST, 0)),
    nodes: four!(),
    outs: four!(P1),
    writes: four!(row!(TARGET, 1)),
    cmds: nine!(Aap(In(0), Out(0))),
};

const DOWN: CodedBody = CodedBody {
    reads: four!(row!(FIRST, 1)),
    nodes: four!(),
    outs: four!(P1),
    writes: four!(row!(TARGET, 0)),
    cmds: nine!(Aap(In(0), Out(0))),
};

/// Of `shl1`.
pub const SHL1: [Line; 8] = [
    Put(SetT(0)),
    Put(SetT(1)),
    Do(CLEARS_LOWEST),
    Loop(0),
    Do(UP),
    Put(SubI(1, 1)),
    Done,
    Done,
];

/// Of `shr1`.
pub const SHR1: [Line; 8] = [
    Put(SetT(0)),
    Put(SetT(1)),
    Do(CLEARS_TOP),
    Loop(0),
    Do(DOWN),
    Put(SubI(1, 1)),
    Done,
    Done,
];
