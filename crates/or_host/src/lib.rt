//! The outside as a command sees it: files by name, standard output, and what is said of a fault.
#![tactic(auto)]

mod blame;
mod files;
mod host;
mod memory;
mod named;
mod same;
mod store;
mod sure;
mod whole;

pub use files::FileHost;
pub use host::{Blame, Failed, Host, LoadFail, Operation};
pub use memory::MemHost;
pub use named::NamedFiles;
pub use sure::SureHost;

#[cfg(test)]
mod real_tests;
