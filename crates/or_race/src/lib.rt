//! The race report: which words of RAM two cores come to with nothing that orders them. Each core has a vector clock, and for
//! each word are kept the clock that was released on it and each core's last access of each kind.
#![tactic(auto)]

mod adding;
pub mod laws;
mod line;
mod races;
mod report;
mod whole;
mod word;

pub use races::Races;
pub use whole::{Added, report_of};
