//! The written board: a core, the world round it, their steps and turns, and the replay of a schedule.
//! The definitions stand in `specs/`; the types here are those that definitions and code share.
#![tactic(auto)]

use or_parts::Cause;
use or_parts::memory_map::Device;

/// Why a core runs no longer.
#[derive(Clone, Copy, Debug, PartialEq, Eq)]
pub enum Stop {
    /// It retired `l.nop 1`, with this word in r3.
    Exit(u32),
    /// It made all the steps that it was given.
    Budget,
}

/// Where an access of a core goes.
#[derive(Clone, Copy, Debug, PartialEq, Eq)]
pub enum Route {
    /// It meets an exception before the bus is asked.
    Refused(Cause),
    /// It goes to a physical address, through a cache or not.
    At(u32, bool),
}

/// What answers an access at a physical address.
#[derive(Clone, Copy, Debug, PartialEq, Eq)]
pub enum Region {
    Ram,
    /// An offset in a device.
    Register(Device, u32),
    Nothing,
}

/// What a fetch brings: the word, and the 32 bytes of its line where the fetch was cached.
#[derive(Clone, Copy, Debug, PartialEq, Eq)]
pub struct Fetched {
    pub word: u32,
    pub line: Option<[u8; 32]>,
}

/// How often a core's cached loads found their line held, and how often not.
#[derive(Clone, Copy, Debug, PartialEq, Eq)]
pub struct Counts {
    pub hits: u64,
    pub misses: u64,
}
