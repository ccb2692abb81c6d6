//! The programmable interrupt controller.

ghost use Rattle.std.specs.Prelude.{◌≡◌};
ghost use Rattle.or_parts.specs.Interrupts.{status_sampled, status_written, is_pic_pending};

use std::marker::Model;

/// PICMR and PICSR (OpenRISC 1000 Architecture Manual, chapter 13). Bit n stands for line n. The
/// level form shows the lines as they were sampled; the latched form keeps a line until it is
/// cleared.
#[derive(Clone, Copy)]
pub struct Pic {
    mask: u32,
    status: u32,
    latched: bool,
}

impl Model for Pic {
    ghost use Rattle.or_parts.specs.Interrupts.{PicState};

    ghost Value = { PicState };

    ghost view = { λ a. record { mask = a.mask; status = a.status; latched = a.latched } };

    ghost inverse = { λ value. record { mask = value.mask; status = value.status; latched = value.latched } };
}

impl Pic {
    /// A controller at reset: both registers are zero. Its form never changes.
    pub fn new(latched: bool) -> Pic
        ensures { result ≡ record { mask = 0; status = 0; latched = latched } }
    {
        Pic {
            mask: 0,
            status: 0,
            latched,
        }
    }

    /// Samples the lines: the level form shows them, the latched form adds them.
    #[inline]
    pub fn sample(&mut self, lines: u32)
        ensures { self.new ≡ record self.old { status = status_sampled self.old.latched self.old.status lines } }
    {
        self.status = if self.latched {
            self.status | lines
        } else {
            lines
        };
    }

    /// PICMR.
    pub fn mask(&self) -> u32
        ensures { result ≡ self.now.mask }
    {
        self.mask
    }

    /// PICSR.
    pub fn status(&self) -> u32
        ensures { result ≡ self.now.status }
    {
        self.status
    }

    /// Writes PICMR, which keeps all 32 bits.
    pub fn set_mask(&mut self, v: u32)
        ensures { self.new ≡ record self.old { mask = v } }
    {
        self.mask = v;
    }

    /// Writes PICSR: in the latched form each one clears its line, in the level form nothing changes.
    pub fn set_status(&mut self, v: u32)
        ensures { self.new ≡ record self.old { status = status_written self.old.latched self.old.status v } }
    {
        if self.latched {
            self.status &= !v;
        }
    }

    /// Whether an interrupt is pending: a line is in the mask and in the status.
    #[inline]
    pub fn pending(&self) -> bool
        ensures { result ≡ is_pic_pending self.now.mask self.now.status }
    {
        self.mask & self.status != 0
    }
}
