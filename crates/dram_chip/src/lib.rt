//! DRAM chips: one that never fails, and one that fails at listed calls.
#![tactic(auto)]

mod b_group;
mod bank;
mod chip;
mod failing;
mod rows;

pub use chip::Chip;
pub use dram_model::{
    Addr, BadGeometry, BeginNo, Cell, ChipFault, Command, Counters, Dram, Geometry, Line,
    legal_first, legal_second, lines,
};
pub use failing::FailingChip;
