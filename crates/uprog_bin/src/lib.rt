//! Program files.
#![tactic(auto)]

mod checks;
mod directory;
mod fault;
mod instruction;
mod laws;
mod opcode;
mod sizes;
mod spelling;
mod version_two;
mod view;

pub use fault::{ProgFault, ProgKind};
pub use laws::program_files_are_exact;
pub use spelling::encode;
pub use version_two::migrate;
pub use view::{Entry, ProgView};
