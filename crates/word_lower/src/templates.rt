//! The nodes of the templates, over the constant, the inputs and lower nodes; and the command of a
//! constant in a row, and of a copy.

use crate::literals::{N1, N2, N3, N4, OFF, ON, P1, P2, P3, P4, P5};
use mig_graph::Node;
use row_alloc::BodyCmd::{self, Aap};
use row_alloc::BodyRef::{C, In, Out};

pub const BOTH: [Node; 1] = [Node {
    a: OFF,
    b: P1,
    c: P2,
}];

pub const EITHER: [Node; 1] = [Node {
    a: ON,
    b: P1,
    c: P2,
}];

pub const UNLIKE: [Node; 3] = [
    Node {
        a: OFF,
        b: N1,
        c: P2,
    },
    Node {
        a: OFF,
        b: P1,
        c: N2,
    },
    Node {
        a: ON,
        b: P3,
        c: P4,
    },
];

pub const CHOSEN: [Node; 3] = [
    Node {
        a: OFF,
        b: P1,
        c: P3,
    },
    Node {
        a: P2,
        b: N3,
        c: P4,
    },
    Node {
        a: ON,
        b: P4,
        c: P5,
    },
];

pub const ADDED: [Node; 3] = [
    Node {
        a: P1,
        b: P2,
        c: P3,
    },
    Node {
        a: P1,
        b: P2,
        c: N3,
    },
    Node {
        a: P3,
        b: N4,
        c: P5,
    },
];

pub const LESSENED: [Node; 3] = [
    Node {
        a: P1,
        b: P2,
        c: N3,
    },
    Node {
        a: N1,
        b: P3,
        c: P4,
    },
    Node {
        a: N2,
        b: P4,
        c: P5,
    },
];

pub const COMPARED: [Node; 1] = [Node {
    a: P1,
    b: N2,
    c: P3,
}];

pub const ORDERED: [Node; 2] = [
    Node {
        a: P1,
        b: N2,
        c: P3,
    },
    Node {
        a: N1,
        b: P2,
        c: P4,
    },
];

/// 0 into a row.
pub const ZERO: [BodyCmd; 1] = [Aap(C(0), Out(0))];

/// 1 into a row.
pub const ONE: [BodyCmd; 1] = [Aap(C(1), Out(0))];

/// A row into another.
pub const COPY: [BodyCmd; 1] = [Aap(In(0), Out(0))];
