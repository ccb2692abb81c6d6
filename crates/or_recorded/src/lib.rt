//! The commands on a recorded run.
#![tactic(auto)]

mod checked;
mod command;
mod counting;
mod debugging;
mod files;
mod going_back;
pub mod laws;
mod profiling;
mod racing;
mod refused;
mod replaying;
mod traced_run;
mod tracing;

pub use checked::{Checked, Recording, RunFault};
pub use command::{RecordedCommand, Texts, carry_out};
pub use debugging::Debug;
pub use files::{Files, Names};
pub use going_back::Back;
pub use profiling::{Prof, ProfWatch};
pub use racing::{Race, RaceWatch};
pub use refused::OwnFault;
pub use replaying::Replay;
pub use traced_run::trace;
