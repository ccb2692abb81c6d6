//! RAM as bytes. It is read only through `&mut`, and each read is counted.

ghost use Rattle.std.specs.Prelude.{◌≡◌, ℕ, ◌+◌, ◌*◌, ◌%◌, ◌<◌, ◌≤◌, length, replicate, IfOk, slice_index};
ghost use Rattle.or_words.specs.declared.Width.TheVariants.{Word};
ghost use Rattle.or_words.specs.declared.limits.TheConstants.{MOST_RAM, MOST_RAM_BYTES};
ghost use Rattle.or_parts.specs.Memory.{value_at, stored, bytes_of};
ghost use Rattle.or_parts.specs.Lines.{line_of, line_bytes};
ghost use Rattle.or_mem.specs.Memory.{RamState, read_once, overwritten, zeroed};

use crate::data_cache::{word_at, write_at};
use or_words::limits::MIB;
use or_words::{NoMemory, Width};
use std::alloc::Global;
use std::marker::Model;

/// The bytes of the board's RAM, and how often they were read.
#[derive(Drop)]
pub struct Ram {
    bytes: Vec<u8>,
    reads: u64,
}

impl Model for Ram {
    ghost use Rattle.std.specs.Prelude.{◌≡◌, ◌%◌, ◌≤◌, length};
    ghost use Rattle.or_mem.specs.Memory.{RamState};
    ghost use Rattle.or_words.specs.declared.limits.TheConstants.{MIB, MOST_RAM_BYTES};

    ghost Value = { RamState };

    ghost view = { λ a. record { bytes = a.bytes.items; reads = a.reads } };

    ghost invariant = { (λ a. (length a.bytes.items % MIB ≡ 0) × (length a.bytes.items ≤ MOST_RAM_BYTES)) };
}

impl Ram {
    /// RAM of so many MiB, 1 to 256, all zero and never read. It fails only where memory runs out.
    pub fn open(alloc: Global, mib: u32) -> Result<Ram, NoMemory>
        requires { mib ≤ MOST_RAM }
        ensures { IfOk result (λ ram. ram ≡ record { bytes = replicate (mib * MIB) 0; reads = 0 }) }
    {
        let bytes = vec![in alloc; 0; mib as usize * MIB as usize]?;
        Ok(Ram { bytes, reads: 0 })
    }

    /// The size in bytes, whole MiB, at most 256 of them.
    pub fn size(&self) -> u32
        ensures value { result ≡ length self.now.bytes }
        ensures whole { result % MIB ≡ 0 }
        ensures limit { result ≤ MOST_RAM_BYTES }
        ensures bytes { (i : ℕ) → slice_index self.now.bytes i < 256 }
    {
        size_of(&self.bytes) as u32
    }

    /// How often RAM was read, cut at the last value of 64 bits.
    pub fn reads(&self) -> u64
        ensures { result ≡ self.now.reads }
    {
        self.reads
    }

    /// The big-endian word at an address.
    #[inline]
    pub fn read_word(&mut self, pa: u32) -> u32
        requires inside { pa < length self.old.bytes }
        requires aligned { pa % 4 ≡ 0 }
        ensures value { result ≡ value_at self.old.bytes pa Word }
        ensures counted { self.new ≡ read_once self.old }
    {
        self.reads = self.reads.saturating_add(1);
        word_at(&self.bytes, pa as usize)
    }

    /// The 32 bytes of the line that holds an address; they lie inside RAM.
    #[inline]
    pub fn read_line(&mut self, pa: u32) -> [u8; 32]
        requires { pa < length self.old.bytes }
        ensures value { result ≡ line_bytes self.old.bytes pa }
        ensures inside { line_of pa + 32 ≤ length self.old.bytes }
        ensures counted { self.new ≡ read_once self.old }
    {
        self.reads = self.reads.saturating_add(1);
        let at = (pa - pa % 32) as usize;
        let mut bytes = [0; 32];
        bytes.copy_from_slice(&self.bytes[at..at + 32]);
        bytes
    }

    /// Stores the low bits of a word at an address, big-endian. All other bytes stay.
    #[inline]
    pub fn write(&mut self, pa: u32, width: Width, v: u32)
        requires inside { pa < length self.old.bytes }
        requires aligned { pa % bytes_of width ≡ 0 }
        ensures { self.new ≡ record self.old { bytes = stored self.old.bytes pa width v } }
    {
        write_at(&mut self.bytes, pa as usize, width, v);
    }

    /// Puts bytes at an address and behind it.
    pub fn load(&mut self, place: u32, bytes: &[u8])
        requires { place + length bytes.now ≤ length self.old.bytes }
        ensures { self.new ≡ record self.old { bytes = overwritten self.old.bytes place bytes.now } }
    {
        copy_in(&mut self.bytes, place as usize, bytes);
    }

    /// Puts so many zeros at an address and behind it.
    pub fn clear(&mut self, place: u32, len: u32)
        requires { place + len ≤ length self.old.bytes }
        ensures { self.new ≡ record self.old { bytes = zeroed self.old.bytes place len } }
    {
        zero(&mut self.bytes, place as usize, len as usize);
    }

    /// The bytes alone.
    pub fn into_bytes(self) -> Vec<u8>
        ensures { result.items ≡ self.bytes }
    {
        self.bytes
    }

    /// A copy that equals this RAM as it stands after the call, which counts as one read.
    /// It fails only where memory runs out, and is then counted too.
    pub fn copy(&mut self, alloc: Global) -> Result<Ram, NoMemory>
        ensures copy { IfOk result (λ ram. ram ≡ self.new) }
        ensures counted { self.new ≡ read_once self.old }
    {
        self.reads = self.reads.saturating_add(1);
        let bytes = Vec::from_slice(alloc, &self.bytes)?;
        Ok(Ram {
            bytes,
            reads: self.reads,
        })
    }
}

// The number of bytes, each of which is below 256.
fn size_of(bytes: &[u8]) -> usize
    ensures value { result ≡ length bytes.now }
    ensures bytes { (i : ℕ) → slice_index bytes.now i < 256 }
{
    bytes.len()
}

fn copy_in(ram: &mut [u8], place: usize, bytes: &[u8])
    requires { place + length bytes.now ≤ length ram.old }
    ensures { ram.new ≡ overwritten ram.old place bytes.now }
{
    ram[place..place + bytes.len()].copy_from_slice(bytes);
}

fn zero(ram: &mut [u8], place: usize, len: usize)
    requires { place + len ≤ length ram.old }
    ensures { ram.new ≡ zeroed ram.old place len }
{
    ram[place..place + len].fill(0);
}
