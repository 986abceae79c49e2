//! What is true of loop programs.
#![tactic(auto)]

mod laws;

pub use laws::{made_compile, marks_are_enough};
