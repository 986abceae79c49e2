//! A guarded script on a chip: flips, votes and instructions, one after another.
#![tactic(auto)]

mod flipping;
mod scripts;

pub use scripts::{Outcome, guard_script};
