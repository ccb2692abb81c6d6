//! The tick timer, which counts retired instructions.

ghost use Rattle.std.specs.Prelude.{◌≡◌};
ghost use Rattle.or_parts.specs.Timer.{ticked, mode_written, is_tick_pending};

use std::marker::Model;

/// IP of TTMR.
const PENDING: u32 = 0x1000_0000;
/// IE of TTMR.
const ENABLED: u32 = 0x2000_0000;
/// How often a period is in a word: its bits are the low 28.
const PERIODS: u32 = 0x1000_0000;
/// The unit of M, the high two bits of TTMR.
const MODE: u32 = 0x4000_0000;

/// TTMR and TTCR (OpenRISC 1000 Architecture Manual, chapter 14).
#[derive(Clone, Copy)]
pub struct Tick {
    mode: u32,
    count: u32,
}

impl Model for Tick {
    ghost use Rattle.or_parts.specs.Timer.{TickTimer};

    ghost Value = { TickTimer };

    ghost view = { λ a. record { mode = a.mode; count = a.count } };

    ghost inverse = { λ value. record { mode = value.mode; count = value.count } };
}

impl Tick {
    /// A timer at reset: both registers are zero, and it does not count.
    pub fn new() -> Tick
        ensures { result ≡ record { mode = 0; count = 0 } }
    {
        Tick { mode: 0, count: 0 }
    }

    /// Counts one retired instruction, by the mode M: 0 does not count, 1 starts again at the
    /// period, 2 stops there, 3 goes on. At the period IP is set if IE is.
    #[inline(always)]
    #[tactic(auto, unfolding(or_parts::specs::Timer::ticked))]
    pub fn retire(&mut self)
        ensures { self.new ≡ ticked self.old.mode self.old.count }
    {
        let mode = self.mode / MODE;
        if mode == 0 || (mode == 2 && self.count % PERIODS == self.mode % PERIODS) {
            return;
        }
        self.count = self.count.wrapping_add(1);
        if self.count % PERIODS == self.mode % PERIODS {
            if self.mode & ENABLED != 0 {
                self.mode |= PENDING;
            }
            if mode == 1 {
                self.count = 0;
            }
        }
    }

    /// TTMR: TP in bits 27..0, IP 28, IE 29, M 31..30.
    pub fn mode(&self) -> u32
        ensures { result ≡ self.now.mode }
    {
        self.mode
    }

    /// TTCR, in retired instructions.
    pub fn count(&self) -> u32
        ensures { result ≡ self.now.count }
    {
        self.count
    }

    /// Writes TTMR. IP is cleared by a zero, and not set by a one.
    pub fn set_mode(&mut self, v: u32)
        ensures { self.new ≡ record self.old { mode = mode_written self.old.mode v } }
    {
        self.mode = v & !PENDING | self.mode & v & PENDING;
    }

    /// Writes TTCR.
    pub fn set_count(&mut self, v: u32)
        ensures { self.new ≡ record self.old { count = v } }
    {
        self.count = v;
    }

    /// Whether a tick interrupt is pending: IP and IE are set.
    #[inline]
    pub fn pending(&self) -> bool
        ensures { result ≡ is_tick_pending self.now.mode }
    {
        self.mode & PENDING != 0 && self.mode & ENABLED != 0
    }
}
