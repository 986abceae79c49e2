//! The instructions on one object, done on a table and a chip: it is made, loaded, filled, printed
//! and given back.
#![tactic(auto)]

mod fault;
mod filling;
mod finding;
mod listing;
mod loading;
mod printing;
mod text;

pub use fault::StepFault;
pub use filling::{fill, segments};
pub use finding::{goes_past, rows_of};
pub use listing::{free, trsp_init};
pub use loading::load;
pub use printing::print;
