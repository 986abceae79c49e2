//! Scans: texts of queries, and the elements that meet a query counted in the chip.
#![tactic(auto)]

mod checks;
mod lines;
mod names;
mod nodes;
mod ones;
mod operand;
mod ops;
mod parse;
mod parser;
mod query;
mod reading;
mod run;
mod sink;
mod steps;

pub use ops::scan_ops;
pub use parse::parse_query;
pub use query::{Query, QueryNo, ScanReply};
pub use run::run_query;
