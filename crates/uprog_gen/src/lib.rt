//! The compiler from operations to microprograms.
#![tactic(auto)]

mod emit;
mod entry;
mod flow;
mod graphs;
mod head;
mod layout;
mod lowering;
mod ops;

pub use entry::compile_entry;
pub use layout::lay_out;
pub use lowering::lower;
pub use ops::{Compiled, Lowered, compile_ops};
pub use uprog_code::EntryCode;
