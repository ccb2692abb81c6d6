//! The text of a trace: each turn with its steps, and each step with its instruction and the exception that it enters.
#![tactic(auto)]

mod names;
mod steps;
mod turn;

pub use turn::append_turn;
