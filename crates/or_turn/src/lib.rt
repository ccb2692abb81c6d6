//! The turn at the bus: threads take turns at one bus, and there is one schedule that has each caller's turns.
#![tactic(auto)]

mod crossing;
mod laws;
mod pace;
mod plays;
mod rule;
mod shared;
mod unit;
mod view;

pub use crossing::may_cross_threads;
pub use laws::{equal_entries_leave_the_core, turns_leave_other_cores};
pub use plays::TurnRule;
pub use rule::each_part_holds;
pub use shared::{Closed, Shared};
pub use unit::TurnUnit;
pub use view::{JoinedHalves, OpenedWith, Settings, Stage, Transfer, View};
