//! The tick timer and the interrupt controller of a core.
//! Nothing here takes memory, and nothing refuses.
#![tactic(auto)]

mod interrupts;
mod timer;

pub use interrupts::Pic;
pub use timer::Tick;
