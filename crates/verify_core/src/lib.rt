//! Whether a microprogram does what another does, and a case in which it does not.
#![tactic(auto)]

mod canonical;
mod case;
mod check;
mod compare;
mod fresh;
mod last;
mod run;
mod start;
mod tries;
mod verdict;

pub use canonical::rows_of_results;
pub use case::{Case, Numbers};
pub use fresh::fresh_diagram;
pub use verdict::{Limit, Verdict, verify_entry};
