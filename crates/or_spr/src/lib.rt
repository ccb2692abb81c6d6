//! The special registers that a core keeps itself, with exception entry and return.
//! Nothing here takes memory, and nothing refuses.
#![tactic(auto)]

mod entry;
mod registers;
mod routes;

pub use or_parts::{Cause, PcState, SprRoute};
pub use registers::Sprs;
pub use routes::route;
