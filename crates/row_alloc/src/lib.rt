//! Row commands for the majority graph of a body.
//!
//! A body is what one round of a loop does: it reads some input rows, and leaves values in some
//! output rows. An activation of three rows destroys its operands, so each is first copied into the
//! bitwise cells.
#![tactic(auto)]

mod ahead;
mod beam;
mod body;
mod bucket;
mod cells;
mod check;
mod commands;
mod estimate;
mod found;
mod greedy;
mod held;
mod held_beam;
mod idle;
pub mod known;
pub mod known_held;
mod laws;
mod layout;
mod legal;
mod memory;
mod moves;
mod order;
mod outlook;
mod pieces;
mod plain;
mod race;
mod sensing;
mod set;
mod table;

pub use beam::{BROAD, Breadth, LAST};
pub use body::{BodyCmd, BodyRef, Held, OutRow};
pub use found::{Search, find_body};
pub use greedy::greedy_body;
pub use held::{check_body, check_held};
pub use held_beam::held_commands_of;
pub use laws::{fixed_sequences, legal_bodies_are_legal_on_banks, rows_can_stand_apart};
pub use mig_graph::NoMemory;
pub use plain::plain_body;
pub use race::{Counted, Course, Race, Ranking};
