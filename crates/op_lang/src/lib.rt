//! Operation texts, read and written.
#![tactic(auto)]

mod block_rules;
mod fault;
mod head_rules;
mod judge;
mod lists;
mod names;
mod parse;
mod parser;
mod pieces;
mod results;
mod scope;
mod scratch;
mod statements;
mod tokens;
mod value_rules;
mod values;
mod word_rules;

pub use op_text::{
    Assign, Expr, Kind, Op, Ops, OpsFault, OpsKind, OpsNo, Param, State, Stmt, WordOp,
};
pub use parse::parse_ops;
pub use scratch::{Scratch, need, scratch_of};
