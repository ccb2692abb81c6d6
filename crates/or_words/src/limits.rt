//! The limits of a board, of its turns and of the files that commands read.

/// The most cores of a board.
pub const MOST_CORES: u32 = 8;
/// The most steps that a core may make.
pub const MOST_BUDGET: u32 = 67_108_864;
/// The most MiB of RAM.
pub const MOST_RAM: u32 = 256;
/// The bytes of a MiB.
pub const MIB: u32 = 1_048_576;
/// The bytes of the largest RAM.
pub const MOST_RAM_BYTES: u32 = MOST_RAM * MIB;

/// The most private steps of a turn.
pub const MOST_PRIVATE_STEPS: u32 = 256;
/// The most steps of a turn: a step on the bus comes only where fewer private steps were made.
pub const MOST_TURN_STEPS: usize = MOST_PRIVATE_STEPS as usize;
/// The most turns of a stay.
pub const MOST_STAY: u32 = 4096;
/// The most seeds that a hunt tries.
pub const MOST_TRIES: u32 = 1_000_000;
/// The highest seed that a hunt begins with: each seed that it tries then has 32 bits.
pub const MOST_FIRST_SEED: u32 = u32::MAX - MOST_TRIES;
/// The most turns between two checkpoints.
pub const MOST_EVERY: u32 = 536_870_912;
/// The most rounds of a workload.
pub const MOST_ROUNDS: u32 = 100_000;
/// The turns of a block: a recording has a mark behind each whole block.
pub const BLOCK: usize = 65_536;

/// The most bytes of a file's name.
pub const NAME_LIMIT: usize = 4095;
/// The most bytes of an image.
pub const IMAGE_LIMIT: usize = 67_108_864;
/// The most segments of an image, so the most pieces of a program.
pub const MOST_SEGMENTS: usize = 64;
/// The most words of a program.
pub const MOST_PROGRAM_WORDS: u32 = 16_000_000;
/// The most bytes of an input for the UART.
pub const INPUT_LIMIT: usize = 1_048_576;
/// The most bytes of a recording.
pub const RECORDING_LIMIT: usize = 671_088_640;
/// The most bytes of a debugger's script.
pub const SCRIPT_LIMIT: usize = 1_048_576;
/// The most breakpoints of a script, and the most watchpoints and store points.
pub const MOST_POINTS: u32 = 16;
/// The turns that a debugger keeps, so the most that `last` shows.
pub const LAST_TURNS: usize = 64;
/// The most words of RAM that a line of a script shows.
pub const MOST_SHOWN_WORDS: u32 = 256;
/// The most bytes of a source for the assembler.
pub const SOURCE_LIMIT: usize = 4_194_304;
/// The most characters of a label.
pub const LABEL_LIMIT: usize = 64;
