//! A core: its steps and its turns.
//! No call here takes memory, and none refuses.
#![tactic(auto)]

mod data_access;
mod execute;
mod next;
mod private;
mod quiet;
mod results;
mod special;
mod state;
mod step;
mod traced_steps;
mod turn;

pub use or_model::Stop;
pub use private::Private;
pub use state::Core;
pub use traced_steps::TracedStep;
