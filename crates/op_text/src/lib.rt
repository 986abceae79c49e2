//! Operation texts: their trees, their rules and what they mean.
#![tactic(auto)]

mod fault;
mod gate;
mod laws;
mod names;
mod terminal;
mod tree;
mod wanted;
mod word_ops;

pub use fault::{OpsFault, OpsKind, OpsNo};
pub use gate::{Gate, gate_of};
pub use laws::{
    first_settles, grammar_is_followed, meaning_fits, ops_of_a_text_are_one, ops_of_a_text_meet,
    ops_spelled_once, places_do_not_matter, spelled_once, syntax_is_the_grammars, texts_of_ops,
};
pub use names::names_are_names;
pub use terminal::{Spelling, Terminal, spelling_of, terminal_of};
pub use tree::{Assign, Expr, Kind, Op, Ops, Param, State, Stmt};
pub use wanted::Wanted;
pub use word_ops::{
    Signature, WORD_OPS, WordOp, WordRow, bits_inside, filled, given_first, may_take, op_name,
    op_of, second_kind, wants_more, words_inside,
};
