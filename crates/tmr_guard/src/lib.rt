//! Guarded objects on a machine: cells that flip, votes, and instructions on three copies.
#![tactic(auto)]

mod copies;
mod dropped;
mod flips;
mod guards;
mod texts;
mod triples;
mod votes;

pub use copies::first_long;
pub use flips::do_flip;
pub use guard_model::Flip;
pub use guards::Guard;
pub use texts::{FlipsNo, parse_flips};
pub use triples::first_stranger;
