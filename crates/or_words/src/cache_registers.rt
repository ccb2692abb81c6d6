//! The special registers by which a core drops a line of the data cache (OpenRISC 1000 Architecture Manual, chapter 4).
//! A write to one needs the bus, so an instruction is told apart by them.

/// Data cache block flush.
pub const DCBFR: u32 = 6146;
/// Data cache block invalidate.
pub const DCBIR: u32 = 6147;
