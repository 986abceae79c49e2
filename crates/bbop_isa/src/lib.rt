//! Scripts: texts of instructions for the machine, one a line.
#![tactic(auto)]

mod digits;
mod forms;
mod instr;
mod laws;
mod lines;
mod operands;
mod script;
mod terms;
mod words;

pub use forms::line_of;
pub use instr::{Instr, LineError, Order, Part, Place, ScriptFault, ScriptKind, ScriptNo};
pub use laws::{
    lines_are_forms, lines_are_right, lines_are_wrong, operands_are_spelled, scripts_go_by_lines,
};
pub use lines::split_line;
pub use script::parse_script;
