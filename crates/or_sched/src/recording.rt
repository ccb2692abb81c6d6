// What a recording tells of.
use or_words::Config;

/// The head of a recording: the settings of the run, and the SHA-256 digests of the image's and of the input's bytes.
#[derive(Clone, Copy, Debug, PartialEq, Eq)]
pub struct Head {
    pub config: Config,
    pub image: [u8; 32],
    pub input: [u8; 32],
}

/// What is kept after a block of 65536 turns.
#[derive(Clone, Copy, Debug, PartialEq, Eq)]
pub struct Mark {
    /// How many stores the cores had made, since the run's begin.
    pub writes: u64,
    /// How many bytes the console had.
    pub console: u64,
}

/// Why a text is no recording, or wasn't read on.
#[derive(Clone, Copy, Debug, PartialEq, Eq)]
pub enum RecFault {
    /// The first byte after which no recording goes on stands in this line, from 1 to 4.
    BadHead { line: u32 },
    /// It stands behind the fourth line, at this place of the text, counted from 0.
    BadRun { at: u64 },
    /// The text is the beginning of a recording, and no recording yet.
    Short,
    /// Memory ran out.
    NoMemory,
}
