//! Bits, and rows of them.
#![tactic(auto)]

pub mod bits;
pub mod kernels;
pub mod row;

pub use bits::{bit_of, bit_of_word, majority};
pub use faults::NoMemory;
pub use kernels::{sense3, settle3, store, store_not, turn};
pub use row::Row;

/// The greatest width of an element, in bits.
pub const WIDTH_MAX: u8 = 128;

/// An element of an object: a number of at most `WIDTH_MAX` bits.
pub type Value = u128;
