//! The texts that say a program: its listing, and its costs.
#![tactic(auto)]

mod costs;
mod listing;
mod pieces;

pub use costs::{cost_text, stuck_word};
pub use listing::list_text;
