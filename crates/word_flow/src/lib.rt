//! Loop programs of the word operations that are flows.
#![tactic(auto)]

mod abs;
mod bitcount;
mod bodies;
mod division;
mod flows;
mod lower;
mod mul;
mod parity;
mod reduction;
mod relu;
mod rows;
mod shapes;
mod shift;

pub use lower::lower_flow;
