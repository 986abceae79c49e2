//! Where an operation's values lie.

use arrayvec::ArrayVec;

/// The width n, and the first data row of each result, of each source and of the scratch.
#[derive(Drop)]
pub struct Binding {
    pub n: u8,
    pub result: u16,
    pub second: Option<u16>,
    pub sources: ArrayVec<u16, 4>,
    pub scratch: u16,
}
