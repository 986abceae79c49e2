//! Loop programs: bodies that are done once, at each position, or in a flow.
#![tactic(auto)]

mod ir;
mod names;
mod rows;
mod wells;

pub use ir::{Body, Flow, LoopProgram, Move, Place, Space, Step, Sub, Turns};
pub use names::{NameMap, Slot};
pub use rows::{out_rows, place_at};
pub use wells::well_formed;
