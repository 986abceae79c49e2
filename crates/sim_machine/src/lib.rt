//! The machine: a table of objects over a chip, and the instructions of a script done on it.
#![tactic(auto)]

mod bbop;
mod image;
mod machine;
mod opening;
mod refusal;
mod report;
mod steps;
mod walks;
mod waves;

pub use machine::{Machine, StartNo};
pub use machine_model::{Reply, Why};
pub use object_steps::StepFault;
pub use report::put_reply;
