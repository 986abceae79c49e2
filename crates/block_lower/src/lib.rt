//! Serial blocks as loop programs.
#![tactic(auto)]

mod body;
mod choice;
mod copied;
mod flow;
mod held;
mod held_rounds;
mod home;
mod inputs;
mod lower;
mod places;
mod rounds;
mod searched;

pub use body::{BlockBody, block_body};
pub use lower::{block_loop, lower_block};
pub use mig_graph::NoMemory;
pub use searched::Searched;
