//! The commands on sources: `asm`, `dis` and `gen`.
#![tactic(auto)]

mod assembly;
mod disassembly;
mod files;
mod generation;
mod listing;

pub use assembly::{asm, program_file};
pub use disassembly::dis;
pub use generation::generate;
