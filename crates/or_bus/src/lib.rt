//! The bus, the board's one place where cores meet: RAM behind the cores' data caches, the reservations and the devices.
//! Each call is the operation of the written board's world that bears its name.
#![tactic(auto)]

mod access;
mod bus;
mod fetches;
mod loads;
mod narrow;
mod readers;
mod region;
mod stores;

pub use access::{Access, AccessKind};
pub use bus::Bus;
pub use or_model::{Counts, Fetched};

/// Nothing on the board answers an access of this width at this address.
#[derive(Clone, Copy, Debug, PartialEq, Eq)]
pub struct BusError;
