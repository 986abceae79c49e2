//! Ops, written as their canonical text.
#![tactic(auto)]

mod laws;
mod lists;
mod pieces;
mod print;
mod statements;
mod values;

pub use laws::{printing_is_undone, tokens_spell_ops};
pub use print::print_ops;
