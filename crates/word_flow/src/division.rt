//! `div`, `rem` and `divmod` as flows.
//!
//! A long division, from the top position down: the window is what is left of the dividend from
//! the position on, and a step takes the divisor away where it fits. It fits where no bit of it
//! above the window is set and the window is not less. Registers: 0 is how many positions or steps
//! are left and thereby where the window begins, 1 how long the window is, 2 its positions left, 3
//! the position in the divisor, and 4 that in the window.

use crate::shapes::Line::{Do, Done, If, Loop, Put};
use crate::shapes::{CodedBody, Four, Line, Nine, four, lowest, nine, node, row, state};
use loop_ir::Move::{AddI, Mov, SetI, SetN, SetT, SubI};
use loop_ir::Sub;
use mig_graph::Node;
use row_alloc::BodyCmd::{Aap, Ap};
use row_alloc::BodyRef::{B, C, In, Out};
use word_lower::literals::{N1, N2, N3, N4, N5, OFF, ON, P1, P2, P3, P4, P5, P6, P7, P8};
use word_lower::{Mark, Owner};

// the owners: the quotient's bits, the arguments, whether a bit of the divisor from a position on
// is set, and the window
const QUOTIENT: u8 = 0;

const DIVIDEND: u8 = 1;

const DIVISOR: u8 = 2;

const HIGHER: u8 = 3;

const WINDOW: u8 = 4;

// whether a bit was set, or the divisor fits so far, in T0; the constant 0, in T2; and the borrow,
// in T3 and DCC1
const FOUND: Mark = state!(0);

const NOUGHT: Mark = state!(2);

const BORROW: Mark = state!(4);

// whether a bit of the divisor is set: at the top position, and from another one on
const GATHERS_TOP: CodedBody = CodedBody {
    reads: four!(row!(DIVISOR, 3)),
    nodes: four!(),
    outs: four!(P1, P1),
    writes: four!(row!(HIGHER, 3), FOUND),
    cmds: nine!(Aap(In(0), Out(0)), Aap(In(0), B(0))),
};

const GATHERS: CodedBody = CodedBody {
    reads: four!(row!(DIVISOR, 3), FOUND),
    nodes: four!(node!(ON, P1, P2)),
    outs: four!(P3, P3),
    writes: four!(row!(HIGHER, 3), FOUND),
    cmds: nine!(Aap(C(1), B(6)), Aap(In(0), B(3)), Aap(B(15), Out(0))),
};

// the lowest position of a comparison, and each other
macro_rules! compares_first {
    ($quotient:expr) => {
        CodedBody {
            reads: four!(row!(DIVIDEND, 0), lowest!(DIVISOR)),
            nodes: four!(node!(ON, P1, N2)),
            outs: four!(P3, P3),
            writes: four!($quotient, FOUND),
            cmds: nine!(
                Aap(C(1), B(0)),
                Aap(In(0), B(3)),
                Aap(In(1), B(7)),
                Aap(B(15), Out(0))
            ),
        }
    };
}

macro_rules! compares {
    ($quotient:expr) => {
        CodedBody {
            reads: four!(row!(WINDOW, 4), row!(DIVISOR, 3), FOUND),
            nodes: four!(node!(P1, N2, P3)),
            outs: four!(P4, P4),
            writes: four!($quotient, FOUND),
            cmds: nine!(Aap(In(0), B(3)), Aap(In(1), B(7)), Aap(B(15), Out(0))),
        }
    };
}

// the divisor fits if no higher bit of it is set
macro_rules! looks_above {
    ($quotient:expr) => {
        CodedBody {
            reads: four!(row!(HIGHER, 1), FOUND),
            nodes: four!(node!(OFF, N1, P2)),
            outs: four!(P3, P3, OFF),
            writes: four!($quotient, FOUND, NOUGHT),
            cmds: nine!(Aap(C(0), B(10)), Aap(In(0), B(7)), Aap(B(15), Out(0))),
        }
    };
}

// or there is none
const KEEPS: CodedBody = CodedBody {
    reads: four!(FOUND),
    nodes: four!(),
    outs: four!(P1, OFF),
    writes: four!(FOUND, NOUGHT),
    cmds: nine!(Aap(C(0), B(2))),
};

// the lowest position of a subtraction, whose bit of the window is the dividend's, and each other
const TAKES_FIRST: CodedBody = CodedBody {
    reads: four!(FOUND, NOUGHT, lowest!(DIVISOR), row!(DIVIDEND, 0)),
    nodes: four!(
        node!(P1, P2, P3),
        node!(ON, P4, P5),
        node!(OFF, N4, P6),
        node!(N5, P6, P7)
    ),
    outs: four!(P8, P7),
    writes: four!(row!(WINDOW, 0), BORROW),
    cmds: nine!(
        Aap(In(2), B(1)),
        Aap(B(12), B(8)),
        Aap(C(0), B(3)),
        Aap(C(1), B(2)),
        Aap(In(3), B(9)),
        Ap(B(12)),
        Aap(B(15), B(1)),
        Aap(B(14), Out(0))
    ),
};

macro_rules! takes {
    ($quotient:expr) => {
        CodedBody {
            reads: four!(row!(DIVISOR, 3), $quotient, row!(WINDOW, 4), BORROW),
            nodes: four!(
                node!(OFF, P1, P2),
                node!(P3, N4, P5),
                node!(N3, P4, P6),
                node!(N5, P6, P7)
            ),
            outs: four!(P8, P7),
            writes: four!(row!(WINDOW, 4), BORROW),
            cmds: nine!(
                Aap(C(0), B(4)),
                Aap(In(0), B(1)),
                Aap(In(1), B(2)),
                Aap(B(14), B(8)),
                Aap(B(7), B(2)),
                Aap(In(2), B(9)),
                Ap(B(12)),
                Aap(B(15), B(1)),
                Aap(B(14), Out(0))
            ),
        }
    };
}

// the bodies where each bit of the quotient has a row, and where one row has them in turn
const BIT: Mark = row!(QUOTIENT, 0);

const COMPARES_FIRST: CodedBody = compares_first!(BIT);

const COMPARES: CodedBody = compares!(BIT);

const LOOKS_ABOVE: CodedBody = looks_above!(BIT);

const TAKES: CodedBody = takes!(BIT);

const BIT_ALONE: Mark = lowest!(QUOTIENT);

const COMPARES_FIRST_ALONE: CodedBody = compares_first!(BIT_ALONE);

const COMPARES_ALONE: CodedBody = compares!(BIT_ALONE);

const LOOKS_ABOVE_ALONE: CodedBody = looks_above!(BIT_ALONE);

const TAKES_ALONE: CodedBody = takes!(BIT_ALONE);

// a division whose remainder is wanted
macro_rules! division {
    ($compares_first:expr, $compares:expr, $looks_above:expr, $takes:expr) => {
        [
            // whether a bit of the divisor from a position on is set
            Put(SetT(0)),
            Put(SetT(3)),
            If(0),
            Do(GATHERS_TOP),
            Put(SubI(0, 1)),
            Loop(0),
            Put(SubI(3, 1)),
            Do(GATHERS),
            Done,
            Done,
            Done,
            // the steps
            Put(SetN(0)),
            Put(SetI(1, 1)),
            Loop(0),
            Do($compares_first),
            Put(Mov(2, 1)),
            Put(SubI(2, 1)),
            Put(SetI(3, 1)),
            Put(Mov(4, 0)),
            Put(AddI(4, 1)),
            Loop(2),
            Do($compares),
            Put(AddI(3, 1)),
            Put(AddI(4, 1)),
            Done,
            If(0),
            Do($looks_above),
            Done,
            Do(KEEPS),
            Done,
            Do(TAKES_FIRST),
            Put(Mov(2, 1)),
            Put(SubI(2, 1)),
            Put(SetI(3, 1)),
            Put(Mov(4, 0)),
            Put(AddI(4, 1)),
            Loop(2),
            Do($takes),
            Put(AddI(3, 1)),
            Put(AddI(4, 1)),
            Done,
            Put(AddI(1, 1)),
            Done,
            Done,
        ]
    };
}

/// Of `rem`: one row has the bits of the quotient in turn.
pub const REM: [Line; 44] = division!(
    COMPARES_FIRST_ALONE,
    COMPARES_ALONE,
    LOOKS_ABOVE_ALONE,
    TAKES_ALONE
);

/// Of `divmod`.
pub const DIVMOD: [Line; 44] = division!(COMPARES_FIRST, COMPARES, LOOKS_ABOVE, TAKES);

/// Of `div`: its last step takes nothing away.
pub const DIV: [Line; 43] = [
    // whether a bit of the divisor from a position on is set
    Put(SetT(0)),
    Put(SetT(3)),
    If(0),
    Do(GATHERS_TOP),
    Put(SubI(0, 1)),
    Loop(0),
    Put(SubI(3, 1)),
    Do(GATHERS),
    Done,
    Done,
    Done,
    // the steps
    Put(SetN(0)),
    Put(SetI(1, 1)),
    Loop(0),
    Do(COMPARES_FIRST),
    Put(Mov(2, 1)),
    Put(SubI(2, 1)),
    Put(SetI(3, 1)),
    Put(Mov(4, 0)),
    Put(AddI(4, 1)),
    Loop(2),
    Do(COMPARES),
    Put(AddI(3, 1)),
    Put(AddI(4, 1)),
    Done,
    If(0),
    Do(LOOKS_ABOVE),
    Do(TAKES_FIRST),
    Put(Mov(2, 1)),
    Put(SubI(2, 1)),
    Put(SetI(3, 1)),
    Put(Mov(4, 0)),
    Put(AddI(4, 1)),
    Loop(2),
    Do(TAKES),
    Put(AddI(3, 1)),
    Put(AddI(4, 1)),
    Done,
    Done,
    Done,
    Put(AddI(1, 1)),
    Done,
    Done,
];
