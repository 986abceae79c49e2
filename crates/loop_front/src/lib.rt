//! The flow of a loop program.
#![tactic(auto)]

mod moves;
mod names;
mod places;
mod steps;

pub use steps::front;
