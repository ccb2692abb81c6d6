// Places in the text of a recording behind its head.

use crate::recording::Mark;

/// The number of cores, the most turns of a recording, and the turns of a block.
#[derive(Clone, Copy)]
pub(crate) struct Limits {
    pub(crate) cores: u8,
    pub(crate) turns: u64,
    pub(crate) block: u64,
}

/// How many turns are left of a block, and, where a mark stands behind the whole block, how many turns may follow it.
#[derive(Clone, Copy)]
pub(crate) struct Block {
    pub(crate) left: u64,
    pub(crate) behind: Option<u64>,
}

/// What has come of a run: its letter, and digits that make the number, where 0 is none. There is room for `room` runs
/// behind it in its line. The block's turns are those before it.
#[derive(Clone, Copy)]
pub(crate) struct Begun {
    pub(crate) core: u8,
    pub(crate) number: u64,
    pub(crate) room: u8,
    pub(crate) block: Block,
}

/// A place in the text.
#[derive(Clone, Copy)]
pub(crate) enum Place {
    /// A letter must come.
    First(Block),
    /// In a run.
    Run(Begun),
    /// Behind a full line or a mark, where a letter of another core may come.
    Line(u8, Block),
    /// In the word of a mark's line, behind so many of its bytes. So many turns may follow the mark.
    Word(u8, u64),
    /// In a mark's first number, behind its digits.
    Writes(Option<u64>, u64),
    /// In a mark's second number.
    Console(u64, Option<u64>, u64),
    /// Nothing may follow.
    Done,
}

/// What a byte makes of a place.
#[derive(Clone, Copy)]
pub(crate) enum Step {
    /// No text goes on with this byte.
    Refused,
    /// The text is at this place.
    Goes(Place),
    /// A run of the core, of so many turns, has ended.
    EndsRun(u8, u64, Place),
    /// A mark has ended.
    EndsMark(Mark, Place),
}
