//! Reads and writes ELF32 files for a board of big-endian cores with 32 bits.
#![tactic(auto)]

mod fault;
mod fields;
mod image;
mod label_writer;
mod labels;
pub mod laws;
mod names;
mod reader;
mod sections;
mod segment;
mod symbol_fault;
mod symbols;
mod writer;

pub use fault::ElfFault;
pub use image::Image;
pub use label_writer::{Label, write_labelled};
pub use labels::Labels;
pub use names::{physical_address, value_of_name};
pub use reader::read;
pub use segment::Segment;
pub use symbol_fault::SymFault;
pub use symbols::{Symbol, Symbols};
pub use writer::write;
