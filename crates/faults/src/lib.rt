//! Want of memory, counts of faults, and calls some of which are to fail.
#![tactic(auto)]

mod count;
mod plan;
mod want;

pub use count::raised;
pub use plan::CallPlan;
pub use want::{NoMemory, keep};
