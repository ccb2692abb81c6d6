//! A board that goes back on its turns, and the session of the backward debugger.
#![tactic(auto)]

mod answering;
mod backward;
mod checkpoints;
mod history;
mod lines;
mod moves;
mod script;
mod travel;

pub use answering::session;
pub use history::History;
pub use or_script::ScriptFault;
pub use script::check;

#[cfg(test)]
mod tests;
