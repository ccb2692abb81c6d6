//! The accesses so far, as vector clocks and last accesses.
ghost use Rattle.std.specs.Prelude.{◌≡◌, ◌≤◌};

use crate::word::{VectorClock, Word};
use std::collections::BTreeMap;

/// The accesses of a schedule so far: a vector clock for each core and, for each word, the clock that was released on it, each
/// core's last access of each kind, and the first race that was found on it.
#[derive(Drop)]
pub struct Races {
    pub(crate) locks: bool,
    pub(crate) cores: u32,
    pub(crate) last: u64,
    pub(crate) clocks: [VectorClock; 8],
    pub(crate) words: BTreeMap<u32, Word>,
    pub(crate) ghost few: { cores ≤ 8 },
}
