//! The devices of the board, as one part.

ghost use Rattle.std.specs.Prelude.{◌≡◌, ◌+◌, ◌^◌, ◌<◌, ◌≤◌, IfOk, length, if◌then◌else◌};
ghost use Rattle.or_parts.specs.Devices.{Devices, reset_devices, console_of, served_cores, device_value, device_after_read, device_written, interrupt_lines};
ghost use Rattle.or_dev.specs.Devices.{HasRegister};

use crate::controller::Ompic;
use crate::serial::Uart;
use or_parts::memory_map::{Device, OMPIC, UART};
use or_words::NoMemory;
use std::alloc::Global;
use std::marker::Model;

/// The UART, which is the console, and the controller of interrupts between cores.
#[derive(Drop)]
pub struct Devices {
    uart: Uart,
    ompic: Ompic,
}

impl Model for Devices {
    ghost use Rattle.or_dev.specs.Devices.{DevicesView};

    ghost Value = { DevicesView };

    ghost view = { λ a. record { state = record { uart = a.uart.state; ompic = a.ompic }; spare = a.uart.spare } };
}

impl Devices {
    /// The devices at reset, for so many cores, 1 to 8, with the input left whole, and room for so many bytes of
    /// console. It fails only where memory runs out.
    #[tactic(auto, unfolding(or_parts::specs::Devices::reset_devices))]
    pub fn open(alloc: Global, cores: u32, input: Vec<u8>, room: usize) -> Result<Devices, NoMemory>
        requires { cores ≤ 8 }
        ensures { IfOk result (λ devices. devices ≡ record { state = reset_devices cores input.items; spare = room }) }
    {
        let uart = Uart::open(alloc, input, room)?;
        Ok(Devices {
            uart,
            ompic: Ompic::new(cores),
        })
    }

    /// A copy with the same room. It fails only where memory runs out.
    pub fn copy(&self, alloc: Global) -> Result<Devices, NoMemory>
        ensures { IfOk result (λ devices. devices ≡ self.now) }
    {
        let uart = self.uart.copy(alloc)?;
        Ok(Devices {
            uart,
            ompic: self.ompic,
        })
    }

    /// Reads the register at an offset in a device.
    #[inline(never)]
    #[tactic(auto, unfolding(or_parts::specs::Devices::device_value, or_parts::specs::Devices::device_after_read))]
    pub fn load(&mut self, device: Device, offset: u32) -> u32
        requires { HasRegister (served_cores self.old.state) device offset }
        ensures value { result ≡ device_value self.old.state device offset }
        ensures after { self.new ≡ record self.old { state = device_after_read self.old.state device offset } }
        ensures cores { served_cores self.new.state ≡ served_cores self.old.state }
    {
        match device {
            Device::Uart => u32::from(self.uart.read(offset)),
            Device::Ompic => self.ompic.read(offset),
        }
    }

    /// Writes a word to the register at an offset in a device; the UART takes its low byte, and may use one byte of
    /// the console's room.
    #[inline(never)]
    #[tactic(auto, unfolding(or_parts::specs::Devices::device_written))]
    pub fn store(&mut self, device: Device, offset: u32, v: u32)
        requires register { HasRegister (served_cores self.old.state) device offset }
        requires room { 0 < self.old.spare }
        ensures after { self.new.state ≡ device_written self.old.state device offset v }
        ensures room { length (console_of self.new.state) + self.new.spare ≡ length (console_of self.old.state) + self.old.spare }
        ensures spare { self.old.spare ≤ self.new.spare + 1 }
        ensures cores { served_cores self.new.state ≡ served_cores self.old.state }
    {
        match device {
            Device::Uart => self.uart.write(offset, (v % 256) as u8),
            Device::Ompic => self.ompic.write(offset, v),
        }
    }

    /// The core's interrupt lines, each at the bit that its row of the memory map has.
    #[inline]
    #[tactic(auto, unfolding(or_parts::specs::Devices::interrupt_lines))]
    pub fn lines(&self, core: u32) -> u32
        requires { core < served_cores self.now.state }
        ensures { result ≡ interrupt_lines self.now.state core }
    {
        bit_of(UART.line, self.uart.line()) + bit_of(OMPIC.line, self.ompic.pending(core))
    }

    /// The bytes that were sent to the console.
    pub fn console(&self) -> &[u8]
        ensures { result.now ≡ console_of self.now.state }
    {
        self.uart.console()
    }

    /// The bytes that were sent to the console, alone.
    pub fn into_console(self) -> Vec<u8>
        ensures { result.items ≡ console_of self.state }
    {
        self.uart.into_console()
    }
}

// The bit of a line, where the line is high.
#[inline]
fn bit_of(line: u32, high: bool) -> u32
    requires { line < 32 }
    ensures value { result ≡ (if high then 2 ^ line else 0) }
{
    if high { 1 << line } else { 0 }
}
