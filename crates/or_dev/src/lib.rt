//! The devices of the board, as one part: the serial port that is its console, and the controller of interrupts between cores.
//! `devices.rt` is the only place where code names a single device.
#![tactic(auto)]

mod controller;
mod devices;
mod mapped;
mod serial;

pub use devices::Devices;
pub use mapped::register_at;
