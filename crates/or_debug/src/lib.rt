//! The debugger: it follows a schedule on a board as a script says, and writes what the script asks to see.
#![tactic(auto)]

mod answering;
mod board_text;
mod debugger;
mod points;
mod stops;
mod turns;

pub use answering::session;
pub use board_text::{append_lines, append_memory, append_registers};
pub use debugger::append_turn;
pub use or_script::{ScriptFault, check};
pub use stops::Stops;
pub use turns::{MadeTurn, append_made, make_turn};
