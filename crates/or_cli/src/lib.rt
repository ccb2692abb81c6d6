//! The commands of `or1k`, over whatever outside they are given.
#![tactic(auto)]

mod commands;
mod entry;

pub use commands::{top, top_alone, top_run};
pub use entry::program;
pub use or_about::{Help, Texts};
pub use or_board::{Gate, OpenGate};
pub use or_host::{Blame, Failed, FileHost, Host, LoadFail, MemHost, Operation, SureHost};
