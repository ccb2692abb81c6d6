//! The UART, after the 16550 data sheet. A byte that is sent joins the console at once.

ghost use Rattle.std.specs.Prelude.{◌≡◌, ◌+◌, ◌-◌, ◌^◌, ◌<◌, ◌≤◌, ◌++◌, ◌∷◌, [], IfOk, length, drop, vec_capacity, if◌then◌else◌};
ghost use Rattle.or_parts.specs.Uart.{reset_uart, has_input, next_input, after_input, has_divisor, is_loopback, identification, modem_status, uart_line, uart_value, uart_after_read, moved_bit, uart_sent, interrupts_enabled, uart_written};

use or_words::NoMemory;
use std::alloc::Global;
use std::marker::Model;

/// A UART with its input, its console, and room for what is still to be sent.
#[derive(Drop)]
pub struct Uart {
    input: Vec<u8>,
    // How many bytes of the input were read.
    taken: usize,
    console: Vec<u8>,
    // How many bytes more have room in the console.
    spare: usize,
    ier: u8,
    lcr: u8,
    mcr: u8,
    scr: u8,
    dll: u8,
    dlm: u8,
    fifo: bool,
    transmitter: bool,
}

impl Model for Uart {
    ghost use Rattle.std.specs.Prelude.{◌+◌, ◌≤◌, drop, vec_len, vec_capacity};
    ghost use Rattle.or_dev.specs.Serial.{UartView};

    ghost Value = { UartView };

    ghost view = { λ a. record {
      state = record {
        input = drop a.taken a.input.items;
        console = a.console.items;
        ier = a.ier;
        lcr = a.lcr;
        mcr = a.mcr;
        scr = a.scr;
        dll = a.dll;
        dlm = a.dlm;
        fifo = a.fifo;
        transmitter = a.transmitter;
      };
      spare = a.spare;
    } };

    ghost invariant = { λ a. (a.taken ≤ vec_len a.input) × (vec_len a.console + a.spare ≤ vec_capacity a.console) };
}

impl Uart {
    /// A UART at reset with its whole input, and room for so many bytes of console.
    /// It fails only where memory runs out.
    #[tactic(auto, unfolding(or_parts::specs::Uart::reset_uart))]
    pub fn open(alloc: Global, input: Vec<u8>, room: usize) -> Result<Uart, NoMemory>
        ensures { IfOk result (λ uart. uart ≡ record { state = reset_uart input.items; spare = room }) }
    {
        let console = Vec::with_capacity(alloc, room)?;
        Ok(Uart {
            input,
            taken: 0,
            console,
            spare: room,
            ier: 0,
            lcr: 0,
            mcr: 0,
            scr: 0,
            dll: 0,
            dlm: 0,
            fifo: false,
            transmitter: false,
        })
    }

    /// A copy with the same room. It fails only where memory runs out.
    pub fn copy(&self, alloc: Global) -> Result<Uart, NoMemory>
        ensures { IfOk result (λ uart. uart ≡ self.now) }
    {
        let input = Vec::from_slice(alloc, &self.input[self.taken..])?;
        let console = copy_with_room(alloc, &self.console, self.spare)?;
        Ok(Uart {
            input,
            taken: 0,
            console,
            spare: self.spare,
            ier: self.ier,
            lcr: self.lcr,
            mcr: self.mcr,
            scr: self.scr,
            dll: self.dll,
            dlm: self.dlm,
            fifo: self.fifo,
            transmitter: self.transmitter,
        })
    }

    /// Reads a register: RBR, IER, IIR, LCR, MCR, LSR, MSR and SCR are registers 0 to 7,
    /// and with LCR bit 7 set DLL and DLM are registers 0 and 1.
    pub fn read(&mut self, reg: u32) -> u8
        requires { reg < 8 }
        ensures value { result ≡ uart_value self.old.state reg }
        ensures after { self.new ≡ record self.old { state = uart_after_read self.old.state reg } }
        ensures spare { self.new.spare ≡ self.old.spare }
    {
        let value = self.value(reg);
        self.note_read(reg);
        value
    }

    /// Writes a register: THR, IER, FCR, LCR, MCR and SCR are registers 0, 1, 2, 3, 4 and 7,
    /// and with LCR bit 7 set DLL and DLM are registers 0 and 1. Writes of LSR and MSR are ignored.
    #[tactic(auto, unfolding(or_parts::specs::Uart::uart_written))]
    pub fn write(&mut self, reg: u32, v: u8)
        requires register { reg < 8 }
        requires room { 0 < self.old.spare }
        ensures after { self.new.state ≡ uart_written self.old.state reg v }
        ensures room { length self.new.state.console + self.new.spare ≡ length self.old.state.console + self.old.spare }
        ensures spare { self.old.spare ≤ self.new.spare + 1 }
    {
        match reg {
            0 => self.write_data(v),
            1 => self.write_enable(v),
            2 => self.fifo = v & 0x1 != 0,
            3 => self.lcr = v,
            4 => self.mcr = v % 32,
            7 => self.scr = v,
            _ => {}
        }
    }

    /// Whether the interrupt line is high.
    #[inline]
    #[tactic(auto, unfolding(or_parts::specs::Uart::uart_line))]
    pub fn line(&self) -> bool
        ensures { result ≡ uart_line self.now.state }
    {
        self.identification() != 0x01
    }

    /// The bytes that were sent.
    pub fn console(&self) -> &[u8]
        ensures { result.now ≡ self.now.state.console }
    {
        &self.console
    }

    /// The bytes that were sent, alone.
    pub fn into_console(self) -> Vec<u8>
        ensures { result.items ≡ self.state.console }
    {
        self.console
    }

    #[tactic(auto, unfolding(or_parts::specs::Uart::uart_value))]
    fn value(&self, reg: u32) -> u8
        requires { reg < 8 }
        ensures { result ≡ uart_value self.now.state reg }
    {
        match reg {
            0 => self.data(),
            1 => {
                if self.has_divisor() {
                    self.dlm
                } else {
                    self.ier
                }
            }
            2 => self.identification() + if self.fifo { 0xc0 } else { 0 },
            3 => self.lcr,
            4 => self.mcr,
            5 => { if self.has_input() { 0x61 } else { 0x60 } }
            6 => self.modem_status(),
            _ => self.scr,
        }
    }

    // The divisor's low byte, or the next byte of the input.
    fn data(&self) -> u8
        ensures { result ≡ (if has_divisor self.now.state then self.now.state.dll else next_input self.now.state.input) }
    {
        if self.has_divisor() {
            self.dll
        } else {
            next_byte(&self.input, self.taken)
        }
    }

    // Register 0 takes the byte of input, and register 2 ends the transmitter's interrupt that it shows.
    #[tactic(auto, unfolding(or_parts::specs::Uart::uart_after_read))]
    fn note_read(&mut self, reg: u32)
        ensures { self.new ≡ record self.old { state = uart_after_read self.old.state reg } }
    {
        if reg == 0 && !self.has_divisor() {
            self.taken = place_behind(&self.input, self.taken);
        } else if reg == 2 && self.identification() == 0x02 {
            self.transmitter = false;
        }
    }

    fn write_data(&mut self, v: u8)
        requires { 0 < self.old.spare }
        ensures after { self.new.state ≡ (if has_divisor self.old.state then record self.old.state { dll = v } else uart_sent self.old.state v) }
        ensures room { length self.new.state.console + self.new.spare ≡ length self.old.state.console + self.old.spare }
        ensures spare { self.old.spare ≤ self.new.spare + 1 }
    {
        if self.has_divisor() {
            self.dll = v;
            return;
        }
        if !self.is_loopback() {
            self.send(v);
        }
        self.transmitter = true;
    }

    // A byte joins the console, in the room that is there.
    fn send(&mut self, v: u8)
        requires { 0 < self.old.spare }
        ensures { self.new ≡ record self.old { state = record self.old.state { console = self.old.state.console ++ v ∷ [] }; spare = self.old.spare - 1 } }
    {
        let _ = self.console.push(v);
        self.spare -= 1;
    }

    fn write_enable(&mut self, v: u8)
        ensures { self.new ≡ record self.old { state = (if has_divisor self.old.state then record self.old.state { dlm = v } else interrupts_enabled self.old.state v) } }
    {
        if self.has_divisor() {
            self.dlm = v;
        } else {
            self.transmitter = self.transmitter || (v & 0x2 != 0 && self.ier & 0x2 == 0);
            self.ier = v % 16;
        }
    }

    #[inline]
    fn has_divisor(&self) -> bool
        ensures { result ≡ has_divisor self.now.state }
    {
        self.lcr & 0x80 != 0
    }

    #[inline]
    fn is_loopback(&self) -> bool
        ensures { result ≡ is_loopback self.now.state }
    {
        self.mcr & 0x10 != 0
    }

    #[inline]
    fn has_input(&self) -> bool
        ensures { result ≡ has_input self.now.state.input }
    {
        is_left(&self.input, self.taken)
    }

    fn modem_status(&self) -> u8
        ensures { result ≡ modem_status self.now.state }
    {
        if self.is_loopback() {
            driven_lines(self.mcr)
        } else {
            0xb0
        }
    }

    // What has an interrupt: 04 received data, else 02 the transmitter, else 01 nothing.
    #[inline]
    fn identification(&self) -> u8
        ensures value { result ≡ identification self.now.state }
        ensures small { result ≤ 4 }
    {
        if self.ier & 0x1 != 0 && self.has_input() {
            0x04
        } else if self.ier & 0x2 != 0 && self.transmitter {
            0x02
        } else {
            0x01
        }
    }
}

// RTS, DTR, OUT1 and OUT2 of MCR as the modem status shows them in loopback.
fn driven_lines(mcr: u8) -> u8
    ensures { result ≡ moved_bit mcr 0x2 0x10 + moved_bit mcr 0x1 0x20 + moved_bit mcr 0x4 0x40 + moved_bit mcr 0x8 0x80 }
{
    moved_bit(mcr, 0x2, 0x10)
        + moved_bit(mcr, 0x1, 0x20)
        + moved_bit(mcr, 0x4, 0x40)
        + moved_bit(mcr, 0x8, 0x80)
}

fn moved_bit(word: u8, mask: u8, to: u8) -> u8
    ensures { result ≡ moved_bit word mask to }
{
    if word & mask != 0 { to } else { 0 }
}

#[inline]
#[tactic(auto, using(crate::proofs::Inputs::inputs))]
fn is_left(input: &[u8], taken: usize) -> bool
    requires { taken ≤ length input.now }
    ensures { result ≡ has_input (drop taken input.now) }
{
    taken < input.len()
}

#[tactic(auto, using(crate::proofs::Inputs::inputs))]
fn next_byte(input: &[u8], taken: usize) -> u8
    requires { taken ≤ length input.now }
    ensures { result ≡ next_input (drop taken input.now) }
{
    if taken < input.len() { input[taken] } else { 0 }
}

// The place behind the next byte of the input.
#[tactic(auto, using(crate::proofs::Inputs::inputs))]
fn place_behind(input: &[u8], taken: usize) -> usize
    requires { taken ≤ length input.now }
    ensures inside { result ≤ length input.now }
    ensures rest { drop result input.now ≡ after_input (drop taken input.now) }
{
    if taken < input.len() {
        taken + 1
    } else {
        taken
    }
}

fn copy_with_room(alloc: Global, console: &[u8], spare: usize) -> Result<Vec<u8>, NoMemory>
    requires { length console.now + spare < 2 ^ 64 }
    ensures bytes { IfOk result (λ copy. copy.items ≡ console.now) }
    ensures room { IfOk result (λ copy. length console.now + spare ≤ vec_capacity copy) }
{
    let mut copy = Vec::with_capacity(alloc, console.len() + spare)?;
    copy.extend_from_slice(console)?;
    Ok(copy)
}
