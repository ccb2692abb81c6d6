//! What every command does in the outside: it loads files, writes files and standard output, and says how it ended.
#![tactic(auto)]

mod ending;
mod loading;
mod outcome;
mod pieces;
mod refusal;
mod saying;
mod writing;

pub use ending::{conclude, say_tries, say_usage};
pub use loading::{Input, LoadStop, Loaded, load_files};
pub use outcome::Outcome;
pub use pieces::{PieceStop, write_piece};
pub use refusal::{Digests, Refusal, ScheduleDetail};
pub use writing::{Output, write_files, write_outputs};
