//! What an option is where the command line leaves it out.

/// Steps that each core may make.
pub const DEFAULT_BUDGET: u32 = 1_000_000;
/// MiB of RAM.
pub const DEFAULT_RAM: u32 = 32;
/// The cores of a run.
pub const DEFAULT_CORES: u32 = 1;
/// The cores of a hunt, which looks for what cores do to one another.
pub const DEFAULT_HUNT_CORES: u32 = 2;
/// The most turns of a stay at the bus.
pub const DEFAULT_STAY: u32 = 256;
/// The first seed of a hunt.
pub const DEFAULT_SEED: u32 = 1;
/// How many seeds a hunt tries.
pub const DEFAULT_TRIES: u32 = 1000;
/// The first turn of a trace.
pub const DEFAULT_FROM: u32 = 1;
/// The last turn of a trace: it takes all.
pub const DEFAULT_TO: u32 = u32::MAX;
/// Turns between two checkpoints.
pub const DEFAULT_EVERY: u32 = 1_048_576;
