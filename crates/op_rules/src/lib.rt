//! The rules of operations, on their trees.
#![tactic(auto)]

mod laws;
mod trees;

pub use laws::{
    kinds_are_held, names_stand_once, others_stay, rules_are_met, scratch_is_small,
    statements_meet, targets_are_apart,
};
pub use trees::ops_meet;
