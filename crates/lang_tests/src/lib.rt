//! What is written and read again, what is worked out by hand, and what texts and scripts are read
//! as.
#![tactic(auto)]

mod by_hand;
mod round;

pub use by_hand::{all_by_hand, ceilings_by_hand, values_by_hand};
pub use round::reread;

#[cfg(test)]
mod lexing;
#[cfg(test)]
mod scripts;
#[cfg(test)]
mod texts;
