//! The rows and commands of a body.

use mig_graph::Lit;

/// A row that a body's commands name: of the bitwise group or the constants, or by its number among
/// the body's inputs, outputs and spill rows.
#[derive(Clone, Copy, PartialEq, Eq)]
pub enum BodyRef {
    B(u8),
    C(u8),
    In(u8),
    Out(u8),
    Spill(u8),
}

/// A row command of a body.
#[derive(Clone, Copy, PartialEq, Eq)]
pub enum BodyCmd {
    Aap(BodyRef, BodyRef),
    Ap(BodyRef),
}

/// An output of a body: its literal, and the input in whose row it stands, if it stands in one.
#[derive(Clone, Copy, PartialEq, Eq)]
pub struct OutRow {
    pub lit: Lit,
    pub same: Option<u8>,
}

/// A literal that stands in the cells of a layout, by the layout's number.
#[derive(Clone, Copy)]
pub struct Held {
    pub lit: Lit,
    pub layout: u8,
}
