//! A rare failure, looked for on one thread: the schedule that is drawn of a seed, and the first seed on which a core fails.
#![tactic(auto)]

mod draws;
mod made;
mod making;
mod searching;

pub use made::Made;
pub use making::draw;
pub use searching::{Found, search};
