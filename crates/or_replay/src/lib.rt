//! The board on one thread: its cores and its bus, the replay of a schedule, and the report of where it ended.
#![tactic(auto)]

mod board;
mod failing;
mod follow;
pub mod laws;
mod listing;
mod opening;
mod readers;
mod reporting;
mod stepping;
mod watching;

pub use board::{Board, Refused};
pub use failing::{has_failed, is_failure};
pub use follow::{TurnFault, Unwatched, Watcher};
pub use opening::OpenFault;
pub use reporting::{append_stop, core_text, report};
pub use stepping::{Breakpoint, Until};
pub use watching::Placed;
