//! A line of the report.

/// A word that races, with the turns (counted from 1), the cores and the pcs of two accesses to it that nothing orders.
#[derive(Clone, Copy, Debug, PartialEq, Eq)]
pub struct Line {
    pub word: u32,
    pub first_turn: u64,
    pub first_core: u32,
    pub first_pc: u32,
    pub second_turn: u64,
    pub second_core: u32,
    pub second_pc: u32,
}
