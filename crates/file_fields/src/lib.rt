//! Fields of files: numbers with the low byte first, names padded with zeros, and where a file
//! breaks a rule.
#![tactic(auto)]

mod faults;
mod names;
mod numbers;

pub use faults::{FileFault, fault, rule};
pub use names::{NAME_BYTES, NAME_MAX, name_field, padded_name};
pub use numbers::{bytes_at, is_between, u8_at, u16_at, u32_at};
