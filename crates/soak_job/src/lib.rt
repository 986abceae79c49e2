//! A large valid job from a number: every word operation with one result at three widths, each
//! compiled alone and run on words of a generator.
#![tactic(auto)]

mod cases;
mod chip;
mod job;
mod line;
mod load;
mod ops;
mod programs;
mod sums;
mod words;

pub use cases::Case;
pub use job::{SoakError, soak};
