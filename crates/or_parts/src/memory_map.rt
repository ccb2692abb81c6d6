//! The memory map of the board, and its interrupt lines: a row for each device, which definitions and code read.

use or_words::Width;

/// A device of the board.
#[derive(Clone, Copy, Debug, PartialEq, Eq)]
pub enum Device {
    /// The serial port, which is the console.
    Uart,
    /// The controller of interrupts between cores.
    Ompic,
}

/// A row of the memory map: where a device lies, which accesses it answers, and its interrupt line.
#[derive(Clone, Copy, Debug, PartialEq, Eq)]
pub struct Mapping {
    pub device: Device,
    /// The physical address of its first byte.
    pub base: u32,
    /// How many bytes it has.
    pub bytes: u32,
    /// How many bytes more it has for each core.
    pub bytes_per_core: u32,
    /// The one width of access that it answers.
    pub width: Width,
    /// The number of its interrupt line, which is its bit of PICSR.
    pub line: u32,
}

/// The row of the UART.
pub const UART: Mapping = Mapping {
    device: Device::Uart,
    base: 0x9000_0000,
    bytes: 8,
    bytes_per_core: 0,
    width: Width::Byte,
    line: 2,
};

/// The row of the ompic.
pub const OMPIC: Mapping = Mapping {
    device: Device::Ompic,
    base: 0x9800_0000,
    bytes: 0,
    bytes_per_core: 8,
    width: Width::Word,
    line: 1,
};

/// The memory map above RAM, which begins at address 0.
pub const MEMORY_MAP: [Mapping; 2] = [UART, OMPIC];
