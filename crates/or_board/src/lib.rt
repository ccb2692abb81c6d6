//! A run on threads: each core is worked until its stop, on a thread of its own where one can be made.
#![tactic(auto)]

mod gate;
#[cfg(test)]
mod tests;
mod workers;

pub use gate::{Gate, OpenGate};
pub use workers::{run, work};
