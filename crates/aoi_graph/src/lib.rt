//! Graphs of gates, made from the expressions of a block.
#![tactic(auto)]

mod block;
mod gates;

pub use block::build;
pub use faults::NoMemory;

/// A gate over lower nodes.
#[derive(Clone, Copy, PartialEq, Eq)]
pub enum AoiNode {
    Zero,
    Input(u8),
    Not(u32),
    And(u32, u32),
    Or(u32, u32),
    Maj(u32, u32, u32),
}

/// A graph of gates, and the nodes that are its outputs.
pub struct AoiGraph {
    pub nodes: Vec<AoiNode>,
    pub outs: Vec<u32>,
}

impl Drop for AoiGraph {
    fn drop(self) {
        let AoiGraph { nodes: _, outs: _ } = self;
    }
}
