//! The registers themselves.

ghost use Rattle.std.specs.Prelude.{◌≡◌, ◌<◌, ◌≤◌};
ghost use Rattle.or_parts.specs.Bits.{with_bits};
ghost use Rattle.or_parts.specs.Exceptions.{vector, fault_address, saved_pc, entry_status, kept_status};
ghost use Rattle.or_parts.specs.Special.{spr_route, reset_registers, own_read, own_written};

use crate::entry::{fault_address, next_pc, saved_pc, vector, with_bits};
use or_parts::registers::{
    COREID, CPUCFGR, DCCFGR, DMMUCFGR, EEAR0, EPCR0, ESR0, GPR32, GPR63, ICCFGR, IMMUCFGR, MACHI,
    MACLO, NPC, NUMCORES, PPC, SR, UPR, VR,
};
use or_parts::status::{CLEARED_BY_ENTRY, CY, DSX, F, FO, OV, SM, WRITABLE};
use or_parts::{Cause, PcState, SprRoute};
use std::marker::Model;

/// SR, what an exception entry saves, the accumulator, the shadow words, and the numbers that
/// COREID and NUMCORES read (OpenRISC 1000 Architecture Manual, section 4.3).
#[derive(Clone, Copy)]
pub struct Sprs {
    number: u32,
    cores: u32,
    sr: u32,
    epcr: u32,
    eear: u32,
    esr: u32,
    machi: u32,
    maclo: u32,
    shadow: [u32; 32],
}

impl Model for Sprs {
    ghost use Rattle.or_parts.specs.Special.{SpecialRegisters};

    ghost Value = { SpecialRegisters };

    ghost view = { λ a. record {
      number = a.number;
      cores = a.cores;
      sr = a.sr;
      epcr = a.epcr;
      eear = a.eear;
      esr = a.esr;
      machi = a.machi;
      maclo = a.maclo;
      shadow = a.shadow;
    } };

    ghost inverse = { λ value. record {
      number = value.number;
      cores = value.cores;
      sr = value.sr;
      epcr = value.epcr;
      eear = value.eear;
      esr = value.esr;
      machi = value.machi;
      maclo = value.maclo;
      shadow = value.shadow;
    } };
}

// What SR keeps of a value.
#[inline]
fn kept_status(v: u32) -> u32
    ensures { result ≡ kept_status v }
{
    v & WRITABLE | FO
}

impl Sprs {
    /// The registers of a core at reset: SR is 00008001, and all else is zero.
    /// `number` is the core's number, `cores` how many cores the board has.
    #[tactic(auto, unfolding(or_parts::specs::Special::reset_registers))]
    pub fn reset(number: u32, cores: u32) -> Sprs
        requires number { number < cores }
        requires cores { cores ≤ 8 }
        ensures { result ≡ reset_registers number cores }
    {
        Sprs {
            number,
            cores,
            sr: FO | SM,
            epcr: 0,
            eear: 0,
            esr: 0,
            machi: 0,
            maclo: 0,
            shadow: [0; 32],
        }
    }

    /// What register `n` reads at the place of an l.mfspr: NPC reads the address of the
    /// instruction that is executed next, PPC that of the l.mfspr.
    #[tactic(auto, unfolding(or_parts::specs::Special::own_read))]
    pub fn read(&self, n: u32, at: &PcState) -> u32
        requires { spr_route n ≡ SprRoute.Own }
        ensures { result ≡ own_read self.now at.now.pc at.now.branch n }
    {
        match n {
            VR => 0x1,
            UPR => 0x53F,
            CPUCFGR => 0x20,
            DMMUCFGR | IMMUCFGR => 0x18,
            DCCFGR => 0x24B8,
            ICCFGR => 0x4B8,
            NPC => next_pc(at),
            SR => self.sr,
            PPC => at.pc,
            EPCR0 => self.epcr,
            EEAR0 => self.eear,
            ESR0 => self.esr,
            COREID => self.number,
            NUMCORES => self.cores,
            MACLO => self.maclo,
            MACHI => self.machi,
            GPR32..=GPR63 => self.shadow[(n - GPR32) as usize],
            _ => 0,
        }
    }

    /// Writes `v` to register `n`. SR keeps the bits that exist; constants, COREID, NUMCORES, NPC
    /// and PPC drop the write.
    #[tactic(auto, unfolding(or_parts::specs::Special::own_written))]
    pub fn write(&mut self, n: u32, v: u32)
        requires { spr_route n ≡ SprRoute.Own }
        ensures { self.new ≡ own_written self.old n v }
    {
        match n {
            SR => self.sr = kept_status(v),
            EPCR0 => self.epcr = v,
            EEAR0 => self.eear = v,
            ESR0 => self.esr = v,
            MACLO => self.maclo = v,
            MACHI => self.machi = v,
            GPR32..=GPR63 => self.shadow[(n - GPR32) as usize] = v,
            _ => {}
        }
    }

    /// Enters an exception and answers the address of its handler (OpenRISC 1000 Architecture
    /// Manual, chapter 6). ESR0 becomes SR, EPCR0 where l.rfe leads back to, EEAR0 the cause's
    /// address where it has one, and SR that of a handler.
    pub fn enter(&mut self, cause: &Cause, at: &PcState) -> u32
        ensures value { result ≡ vector cause.now }
        ensures after { self.new ≡ record self.old {
          sr = entry_status self.old.sr at.now.branch;
          epcr = saved_pc cause.now at.now.pc at.now.branch;
          eear = fault_address cause.now self.old.eear;
          esr = self.old.sr;
        } }
    {
        self.esr = self.sr;
        self.epcr = saved_pc(cause, at);
        self.eear = fault_address(cause, self.eear);
        self.sr = with_bits(self.sr & !CLEARED_BY_ENTRY | SM, DSX, at.branch.is_some());
        vector(cause)
    }

    /// Returns from an exception, as l.rfe: SR becomes what ESR0 keeps of it. It answers EPCR0,
    /// where the core goes on.
    pub fn leave(&mut self) -> u32
        ensures value { result ≡ self.old.epcr }
        ensures after { self.new ≡ record self.old { sr = kept_status self.old.esr } }
    {
        self.sr = kept_status(self.esr);
        self.epcr
    }

    /// The supervision register.
    #[inline]
    pub fn sr(&self) -> u32
        ensures { result ≡ self.now.sr }
    {
        self.sr
    }

    /// Sets or clears F alone, bit 9 of SR.
    #[inline]
    pub fn set_flag(&mut self, f: bool)
        ensures { self.new ≡ record self.old { sr = with_bits self.old.sr F f } }
    {
        self.sr = with_bits(self.sr, F, f);
    }

    /// Sets or clears CY alone, bit 10 of SR.
    #[inline]
    pub fn set_carry(&mut self, cy: bool)
        ensures { self.new ≡ record self.old { sr = with_bits self.old.sr CY cy } }
    {
        self.sr = with_bits(self.sr, CY, cy);
    }

    /// Sets or clears OV alone, bit 11 of SR.
    #[inline]
    pub fn set_overflow(&mut self, ov: bool)
        ensures { self.new ≡ record self.old { sr = with_bits self.old.sr OV ov } }
    {
        self.sr = with_bits(self.sr, OV, ov);
    }

    /// The accumulator: MACHI and MACLO.
    #[inline]
    pub fn mac(&self) -> (u32, u32)
        ensures high { result.0 ≡ self.now.machi }
        ensures low { result.1 ≡ self.now.maclo }
    {
        (self.machi, self.maclo)
    }

    /// Sets MACHI and MACLO alone.
    #[inline]
    pub fn set_mac(&mut self, hi: u32, lo: u32)
        ensures { self.new ≡ record self.old { machi = hi; maclo = lo } }
    {
        self.machi = hi;
        self.maclo = lo;
    }
}
