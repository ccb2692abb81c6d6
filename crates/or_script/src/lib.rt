//! The script of the debugger: its lines, their forms, and the fault of the first line that has one.
#![tactic(auto)]

mod command;
mod cutting;
mod fault;
mod operands;
mod script;

pub use command::{Command, LineFault, read_line};
pub use cutting::cut;
pub use fault::ScriptFault;
pub use operands::{core_number, cores_named, number};
pub use script::{Points, add_point, at_line, check, command_at, commands};
