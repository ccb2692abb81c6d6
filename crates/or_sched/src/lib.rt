//! Recordings: the text that keeps the order of a run's turns.
#![tactic(auto)]

mod head;
pub mod laws;
mod places;
mod reader;
mod recording;
mod state;
mod step;
mod writer;

pub use reader::Reader;
pub use recording::{Head, Mark, RecFault};
pub use writer::write;
