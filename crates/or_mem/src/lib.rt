//! RAM, and the lines of the cores' data caches.
#![tactic(auto)]

mod caches;
mod data_cache;
mod memory;

pub use caches::DCaches;
pub use data_cache::{DataCache, word_at, write_at};
pub use memory::Ram;
