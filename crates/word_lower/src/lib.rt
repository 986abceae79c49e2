//! Loop programs of word operations, as rows of a table; the operations that are flows have none.
#![tactic(auto)]

mod bodies;
mod graphs;
mod linear;
pub mod literals;
mod shapes;
mod slots;
mod table;
mod templates;

pub use graphs::templated;
pub use linear::{lower_linear, slot_of};
pub use shapes::{Mark, Owner};
pub use slots::{cells, place_in, scratch_bit};
pub use table::is_linear;
