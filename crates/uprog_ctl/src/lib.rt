//! The controller: runs microprograms on the banks of a chip.
#![tactic(auto)]

mod controller;
mod cursor;
mod pickers;
mod waves;

pub use controller::{counters_rise_by_counts, run};
pub use pickers::{Forward, Order, Picker, Seeded, Turns};
pub use waves::{Job, run_wave};
