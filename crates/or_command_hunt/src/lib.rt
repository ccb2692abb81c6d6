//! The command `hunt`: it looks on one thread for a schedule on which a program fails, and writes its recording.
#![tactic(auto)]

mod hunting;
mod telling;
mod trying;

pub use hunting::hunt;
