//! Sequences for bodies, each with as few commands as are known.
//!
//! A sequence does not say which graph it is for. It serves each body of which the symbolic run
//! says so: inputs, outputs and the literals that three lines sense must fit.

use crate::body::BodyCmd::{self, Aap, Ap};
use crate::body::BodyRef::{B, C, In, Out, Spill};

/// The complement of a row.
pub const NOT: [BodyCmd; 2] = [Aap(In(0), B(5)), Aap(B(4), Out(0))];

/// A state is put down, and the next bit is taken up.
pub const SHIFT: [BodyCmd; 2] = [Aap(In(1), Out(0)), Aap(In(0), Out(1))];

/// a and b: the majority of a, b and 0.
pub const AND: [BodyCmd; 4] = [
    Aap(In(0), B(0)),
    Aap(In(1), B(1)),
    Aap(C(0), B(2)),
    Aap(B(12), Out(0)),
];

/// a or b: the majority of a, b and 1.
pub const OR: [BodyCmd; 4] = [
    Aap(In(0), B(0)),
    Aap(In(1), B(1)),
    Aap(C(1), B(2)),
    Aap(B(12), Out(0)),
];

/// a and not b.
pub const AND_NOT: [BodyCmd; 4] = [
    Aap(C(0), B(8)),
    Aap(In(0), B(13)),
    Aap(In(1), B(7)),
    Aap(B(15), Out(0)),
];

/// The majority of a, not b and c.
pub const COMPARE: [BodyCmd; 4] = [
    Aap(In(0), B(8)),
    Aap(In(1), B(9)),
    Aap(In(2), B(10)),
    Aap(B(15), Out(0)),
];

/// not (a and b).
pub const NAND: [BodyCmd; 5] = [
    Aap(C(0), B(8)),
    Aap(In(0), B(6)),
    Aap(In(1), B(13)),
    Aap(B(15), B(1)),
    Aap(B(7), Out(0)),
];

/// not (a or b).
pub const NOR: [BodyCmd; 5] = [
    Aap(C(0), B(8)),
    Aap(In(0), B(5)),
    Aap(In(1), B(9)),
    Aap(B(4), B(10)),
    Aap(B(15), Out(0)),
];

/// a and (b or c).
pub const AND_OF_OR: [BodyCmd; 6] = [
    Aap(C(0), B(8)),
    Aap(In(0), B(6)),
    Aap(In(1), B(13)),
    Aap(In(2), B(1)),
    Aap(B(14), B(3)),
    Aap(B(15), Out(0)),
];

/// a xor b, from (not a and b) or (a and not b).
pub const XOR: [BodyCmd; 7] = [
    Aap(In(0), B(8)),
    Aap(In(1), B(9)),
    Aap(C(0), B(10)),
    Ap(B(14)),
    Ap(B(15)),
    Aap(C(1), B(2)),
    Aap(B(12), Out(0)),
];

/// not (a xor b), from a or b and a and b.
pub const XNOR: [BodyCmd; 7] = [
    Aap(C(0), B(8)),
    Aap(In(0), B(12)),
    Aap(In(1), B(10)),
    Aap(B(14), B(5)),
    Aap(C(1), B(9)),
    Aap(B(15), B(2)),
    Aap(B(14), Out(0)),
];

/// a where c is set, else b.
pub const CHOICE: [BodyCmd; 7] = [
    Aap(C(0), B(8)),
    Aap(In(0), B(13)),
    Aap(In(2), B(9)),
    Aap(B(12), B(3)),
    Aap(In(1), B(0)),
    Aap(B(15), B(1)),
    Aap(B(14), Out(0)),
];

/// c, and a agrees with b.
pub const AGREE: [BodyCmd; 7] = [
    Aap(C(0), B(8)),
    Aap(In(0), B(12)),
    Aap(In(1), B(10)),
    Aap(B(14), B(5)),
    Aap(In(2), B(9)),
    Aap(B(15), B(2)),
    Aap(B(14), Out(0)),
];

/// c, or a differs from b.
pub const DIFFER: [BodyCmd; 7] = [
    Aap(C(0), B(8)),
    Aap(In(0), B(12)),
    Aap(In(1), B(10)),
    Aap(B(14), B(7)),
    Aap(B(15), B(5)),
    Aap(In(2), B(1)),
    Aap(B(14), Out(0)),
];

/// a xor b xor c.
pub const XOR_OF_THREE: [BodyCmd; 7] = [
    Aap(In(0), B(8)),
    Aap(In(1), B(9)),
    Aap(In(2), B(10)),
    Aap(B(14), B(3)),
    Aap(B(15), B(1)),
    Aap(In(2), B(5)),
    Aap(B(14), Out(0)),
];

/// a less b, with a borrow.
pub const SUBTRACT: [BodyCmd; 7] = [
    Aap(In(0), B(8)),
    Aap(In(1), B(9)),
    Aap(In(2), B(10)),
    Aap(B(14), Out(1)),
    Aap(B(3), B(5)),
    Aap(B(15), B(1)),
    Aap(B(14), Out(0)),
];

/// a and a carry that is held complemented.
pub const COUNT: [BodyCmd; 7] = [
    Aap(C(1), B(8)),
    Aap(In(0), B(9)),
    Aap(In(1), B(10)),
    Aap(B(15), Out(1)),
    Aap(B(2), B(7)),
    Aap(B(14), B(0)),
    Aap(B(15), Out(0)),
];

/// a and b, with the carry in the row of b.
pub const HALF_ADD: [BodyCmd; 8] = [
    Aap(C(0), B(8)),
    Aap(In(0), B(12)),
    Aap(In(1), B(10)),
    Aap(B(14), B(7)),
    Aap(B(15), B(5)),
    Aap(C(0), B(1)),
    Aap(B(14), Out(0)),
    Aap(B(0), Out(1)),
];

/// a and b, with a carry c, where the majority of not a, b and c is a node of the graph.
pub const ADD_IN_EIGHT: [BodyCmd; 8] = [
    Aap(In(0), B(8)),
    Aap(In(1), B(12)),
    Aap(In(2), B(10)),
    Aap(B(14), B(7)),
    Aap(B(15), B(5)),
    Aap(In(0), B(1)),
    Aap(B(14), Out(0)),
    Aap(B(0), Out(1)),
];

/// a and the complement of b, with a carry.
pub const ADD_COMPLEMENT: [BodyCmd; 8] = [
    Aap(In(0), B(8)),
    Aap(In(1), B(9)),
    Aap(In(2), B(10)),
    Aap(B(14), B(5)),
    Aap(In(2), B(1)),
    Aap(B(15), Out(1)),
    Aap(B(7), B(2)),
    Aap(B(14), Out(0)),
];

/// a and b, with a carry.
pub const ADD: [BodyCmd; 9] = [
    Aap(In(0), B(10)),
    Aap(In(1), B(1)),
    Aap(In(2), B(8)),
    Ap(B(14)),
    Aap(In(1), B(6)),
    Aap(B(15), B(5)),
    Aap(In(2), B(2)),
    Aap(B(14), Out(0)),
    Aap(B(0), Out(1)),
];

/// a xor c, and c or (a and b).
pub const NEGATE: [BodyCmd; 9] = [
    Aap(C(0), B(8)),
    Aap(In(0), B(9)),
    Aap(In(2), B(10)),
    Aap(B(15), B(2)),
    Aap(B(14), B(0)),
    Aap(In(1), B(2)),
    Aap(In(2), B(9)),
    Aap(B(14), Out(1)),
    Aap(B(15), Out(0)),
];

/// a less (b and c), with a borrow.
pub const SUBTRACT_WHERE: [BodyCmd; 10] = [
    Aap(In(1), B(15)),
    Aap(In(2), B(14)),
    Aap(C(0), B(9)),
    Aap(B(13), B(5)),
    Aap(In(3), B(12)),
    Aap(In(0), B(9)),
    Aap(B(15), Out(1)),
    Aap(B(2), B(7)),
    Aap(B(14), B(0)),
    Aap(B(15), Out(0)),
];

/// a and (b and c), with a carry.
pub const ADD_WHERE: [BodyCmd; 11] = [
    Aap(C(0), B(8)),
    Aap(In(1), B(9)),
    Aap(In(2), B(10)),
    Aap(B(12), Spill(0)),
    Aap(In(3), B(10)),
    Aap(In(0), B(5)),
    Aap(B(14), B(7)),
    Aap(B(15), Out(1)),
    Aap(In(0), B(0)),
    Aap(B(7), B(2)),
    Aap(B(12), Out(0)),
];

/// All of them, the shorter ones first.
pub const KNOWN: [&[BodyCmd]; 24] = [
    &NOT,
    &SHIFT,
    &AND,
    &OR,
    &AND_NOT,
    &COMPARE,
    &NAND,
    &NOR,
    &AND_OF_OR,
    &XOR,
    &XNOR,
    &CHOICE,
    &AGREE,
    &DIFFER,
    &XOR_OF_THREE,
    &SUBTRACT,
    &COUNT,
    &HALF_ADD,
    &ADD_IN_EIGHT,
    &ADD_COMPLEMENT,
    &ADD,
    &NEGATE,
    &SUBTRACT_WHERE,
    &ADD_WHERE,
];
