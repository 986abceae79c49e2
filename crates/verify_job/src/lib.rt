//! What is found of the entries of a program, one for each op of a text: the findings, the report
//! of them, and the exit status.
#![tactic(auto)]

mod cells;
mod finding;
mod laws;
mod pieces;
mod text;
mod widths;

pub use finding::{Finding, FoundAt, OpFindings, verify_all};
pub use laws::{findings_are_alike, zero_is_never_nineteen, zero_says_right};
pub use text::{report, status};
