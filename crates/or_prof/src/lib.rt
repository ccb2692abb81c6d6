//! The profile of a run: how many steps each core made in each function that the symbols name, and at which pcs outside of them.
#![tactic(auto)]

mod finding;
pub mod laws;
mod profiling;
mod ranking;
mod spotting;
mod tallying;
mod texts;

pub use profiling::Profile;
