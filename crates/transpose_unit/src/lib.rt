//! Numbers turned into vertical rows, and back: element e stands in bank e / (64 * words), column
//! e mod (64 * words), and its bit k in row base + k.
#![tactic(auto)]

mod read;
mod stage;
mod transpose;
mod write;

pub use read::{read_block, read_column, read_segment};
pub use stage::stage_rows;
pub use transpose::transpose64;
pub use write::{write_object, writes_hold};
