//! The controller of interrupts between cores, after the OpenRISC multicore PIC.

ghost use Rattle.std.specs.Prelude.{◌≡◌, ℕ, ◌+◌, ◌*◌, ◌/◌, ◌%◌, ◌<◌, ◌≤◌, length, replicate, slice_set, take, drop};
ghost use Rattle.or_parts.specs.Ompic.{ompic_status, ompic_value, ompic_written, is_ompic_pending, acknowledged, generated};

use std::marker::Model;

/// A status word for each core. Core `c` has its control at offset `8 * c` and its status at `8 * c + 4`.
#[derive(Clone, Copy)]
pub struct Ompic {
    words: [u32; 8],
    cores: u32,
}

impl Model for Ompic {
    ghost use Rattle.std.specs.Prelude.{ℕ, List, take};

    ghost Value = { List ℕ };

    ghost use Rattle.or_dev.specs.Controller.{IsPadded};
    ghost use Rattle.or_dev.specs.Padding.{inside_of, inside_of_ok};

    ghost view = { λ a. take a.cores a.words };

    ghost invariant = { λ a. IsPadded a.words a.cores };

    ghost inverse = { inside_of };

    ghost inverse_ok = { inside_of_ok };
}

impl Ompic {
    /// A controller for so many cores, 1 to 8; no core has an interrupt.
    #[tactic(auto, using(crate::proofs::Statuses::statuses))]
    pub fn new(cores: u32) -> Ompic
        requires { cores ≤ 8 }
        ensures { result ≡ replicate cores 0 }
    {
        Ompic {
            words: [0; 8],
            cores,
        }
    }

    /// The word at an offset: a core's status, or 0 at a control.
    #[tactic(auto, unfolding(or_parts::specs::Ompic::ompic_value))]
    pub fn read(&self, offset: u32) -> u32
        requires aligned { offset % 4 ≡ 0 }
        requires inside { offset < 8 * length self.now }
        ensures { result ≡ ompic_value self.now offset }
    {
        if offset % 8 == 4 {
            self.status(offset / 8)
        } else {
            0
        }
    }

    /// Writes the word at an offset. A status ignores it. At a control bit 31 first ends the
    /// interrupt of the control's core, and then bit 30 gives one to the core in bits 29 to 16,
    /// where the board has it, with the control's core and bits 15 to 0 as its data.
    #[tactic(auto, unfolding(or_parts::specs::Ompic::ompic_written))]
    pub fn write(&mut self, offset: u32, v: u32)
        requires aligned { offset % 4 ≡ 0 }
        requires inside { offset < 8 * length self.old }
        ensures statuses { self.new ≡ ompic_written self.old offset v }
        ensures cores { length self.new ≡ length self.old }
    {
        if offset % 8 == 0 {
            let core = offset / 8;
            self.acknowledge(core, v);
            self.generate(core, v);
        }
    }

    /// Whether the core has an interrupt.
    #[inline]
    pub fn pending(&self, core: u32) -> bool
        requires { core < length self.now }
        ensures { result ≡ is_ompic_pending self.now core }
    {
        self.status(core) & 0x4000_0000 != 0
    }

    fn acknowledge(&mut self, core: u32, v: u32)
        requires { core < length self.old }
        ensures statuses { self.new ≡ acknowledged self.old core v }
        ensures cores { length self.new ≡ length self.old }
    {
        if v & 0x8000_0000 != 0 {
            self.set_status(core, 0);
        }
    }

    fn generate(&mut self, core: u32, v: u32)
        requires { core < length self.old }
        ensures statuses { self.new ≡ generated self.old core v }
        ensures cores { length self.new ≡ length self.old }
    {
        let destination = v / 0x10000 % 0x4000;
        let cores = self.cores();
        if v & 0x4000_0000 != 0 && destination < cores {
            self.set_status(destination, 0x4000_0000 + core * 0x10000 + v % 0x10000);
        }
    }

    fn cores(&self) -> u32
        ensures value { result ≡ length self.now }
        ensures few { result ≤ 8 }
    {
        self.cores
    }

    #[inline]
    fn status(&self, core: u32) -> u32
        requires { core < length self.now }
        ensures { result ≡ ompic_status self.now core }
    {
        word_below(&self.words, self.cores, core)
    }

    fn set_status(&mut self, core: u32, v: u32)
        requires { core < length self.old }
        ensures statuses { self.new ≡ slice_set self.old core v }
        ensures cores { length self.new ≡ length self.old }
    {
        set_word_below(&mut self.words, self.cores, core, v);
    }
}

#[inline]
#[tactic(auto, using(crate::proofs::Statuses::statuses))]
fn word_below(words: &[u32], cores: u32, core: u32) -> u32
    requires core { core < cores }
    requires cores { cores ≤ length words.now }
    ensures { result ≡ ompic_status (take cores words.now) core }
{
    words[core as usize]
}

#[tactic(auto, using(crate::proofs::Statuses::statuses))]
fn set_word_below(words: &mut [u32], cores: u32, core: u32, v: u32)
    requires core { core < cores }
    requires cores { cores ≤ length words.old }
    ensures front { take cores words.new ≡ slice_set (take cores words.old) core v }
    ensures rest { drop cores words.new ≡ drop cores words.old }
    ensures len { length words.new ≡ length words.old }
{
    words[core as usize] = v;
}
