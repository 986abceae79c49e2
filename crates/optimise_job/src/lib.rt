//! A program's entries with straight lines at one width, where offered lines prove right and
//! shorter.
#![tactic(auto)]

mod bank;
mod copied;
mod laws;
mod offer;
mod program;
mod search;
mod text;

pub use laws::{optimised_are_as_good, optimised_are_right, optimised_implement};
pub use offer::{Offered, Outcome, with_line};
pub use program::{Optimised, with_lines};
pub use search::{Effort, searched_lines};
pub use text::report;
