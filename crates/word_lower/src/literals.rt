//! The literals of the nodes of small graphs: the constants, and the first nodes, plain and
//! inverted.

use mig_graph::Lit;

pub const OFF: Lit = Lit {
    node: 0,
    inverted: false,
};

pub const ON: Lit = Lit {
    node: 0,
    inverted: true,
};

pub const P1: Lit = Lit {
    node: 1,
    inverted: false,
};

pub const P2: Lit = Lit {
    node: 2,
    inverted: false,
};

pub const P3: Lit = Lit {
    node: 3,
    inverted: false,
};

pub const P4: Lit = Lit {
    node: 4,
    inverted: false,
};

pub const P5: Lit = Lit {
    node: 5,
    inverted: false,
};

pub const P6: Lit = Lit {
    node: 6,
    inverted: false,
};

pub const P7: Lit = Lit {
    node: 7,
    inverted: false,
};

pub const P8: Lit = Lit {
    node: 8,
    inverted: false,
};

pub const N1: Lit = Lit {
    node: 1,
    inverted: true,
};

pub const N2: Lit = Lit {
    node: 2,
    inverted: true,
};

pub const N3: Lit = Lit {
    node: 3,
    inverted: true,
};

pub const N4: Lit = Lit {
    node: 4,
    inverted: true,
};

pub const N5: Lit = Lit {
    node: 5,
    inverted: true,
};

pub const N6: Lit = Lit {
    node: 6,
    inverted: true,
};

pub const N7: Lit = Lit {
    node: 7,
    inverted: true,
};
