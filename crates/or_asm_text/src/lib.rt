//! The ORBIS32 instructions as a source writes them (OpenRISC 1000 Architecture Manual 1.3, chapter 5): their
//! names, the slots of their operands, and their texts.
#![tactic(auto)]

pub mod names;
pub mod operands;
pub mod printing;
