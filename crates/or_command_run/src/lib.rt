//! The commands that work cores on threads: `run` and `bench`.
#![tactic(auto)]

mod benching;
mod budgets;
mod running;

pub use benching::bench;
pub use budgets::say_budgets;
pub use running::{RunEnd, run, run_status};
