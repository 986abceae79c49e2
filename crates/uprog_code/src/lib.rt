//! Microprograms: their instructions, what they issue, and the walk that counts it.
#![tactic(auto)]

mod address;
mod binding;
mod code;
mod commands;
mod fetch;
mod laws;
mod registers;
mod walker;

pub use binding::Binding;
pub use code::{EntryCode, Head, Program, RowRef, RowSpace, Uop};
pub use commands::{Walk, next_command};
pub use fetch::Fetch;
pub use laws::legal_code_is_safe;
pub use op_text::Kind;
pub use registers::{Issued, RowPosition, Turn, register_value, step};
pub use text_lex::Name;
pub use walker::{BadWalk, Counts, Why3, walk};

/// The greatest number of instructions of a walk, with its last.
pub const WALK_MAX: u32 = 67_108_864;
