//! The parts of a core and of the board: what their registers, tables and lines mean.
//! The definitions stand in `specs/`; the types here are those that definitions and code share.
#![tactic(auto)]

pub mod memory_map;
pub mod registers;
pub mod status;

/// Why a core enters an exception (OpenRISC 1000 Architecture Manual, section 6.2).
/// The number is the effective address that EEAR0 gets.
#[derive(Clone, Copy, Debug, PartialEq, Eq)]
pub enum Cause {
    BusError(u32),
    DataPageFault(u32),
    InsnPageFault(u32),
    Tick,
    Alignment(u32),
    Illegal,
    External,
    DataMiss(u32),
    InsnMiss(u32),
    Range,
    Syscall,
    Trap,
}

/// Where a core stands.
#[derive(Clone, Copy, Debug, PartialEq, Eq)]
pub struct PcState {
    /// The address of the next instruction.
    pub pc: u32,
    /// Where that instruction stands in a delay slot, the destination of its jump.
    pub branch: Option<u32>,
}

/// Which part of a core keeps a special register. A number is a general register or a set of a table.
#[derive(Clone, Copy, Debug, PartialEq, Eq)]
pub enum SprRoute {
    Own,
    General(u32),
    DataMatch(u32),
    DataTranslate(u32),
    InsnMatch(u32),
    InsnTranslate(u32),
    DataDrop,
    InsnDrop,
    TickMode,
    TickCount,
    PicMask,
    PicStatus,
    Nothing,
}

/// What an access asks of a page.
#[derive(Clone, Copy, Debug, PartialEq, Eq)]
pub enum Right {
    Fetch,
    Load,
    Store,
}

/// A physical address, and whether its page inhibits caching.
#[derive(Clone, Copy, Debug, PartialEq, Eq)]
pub struct Phys {
    pub pa: u32,
    pub inhibited: bool,
}

/// Why a translation is refused: no valid match, or a right that the page does not give.
#[derive(Clone, Copy, Debug, PartialEq, Eq)]
pub enum TlbFault {
    Miss,
    PageFault,
}

/// A cache line: the physical address at which it begins, a multiple of 32, and its bytes.
#[derive(Clone, Copy, Debug, PartialEq, Eq)]
pub struct Line {
    pub address: u32,
    pub bytes: [u8; 32],
}
