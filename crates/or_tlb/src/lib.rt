//! A table of translations: one way of 64 sets, for pages of 8192 bytes.
//! Nothing here takes memory.
#![tactic(auto)]

ghost use Rattle.std.specs.Prelude.{◌≡◌, ◌<◌, ◌%◌, IfOk, true, false};
ghost use Rattle.or_parts.specs.Translation.{translation, right_bit, pair_at, no_pairs, match_written, translate_written, kept_translation};
ghost use Rattle.or_tlb.specs.Rights.{is_fetch};

pub use or_parts::{Phys, Right, TlbFault};
use std::marker::Model;

/// The bytes of a page.
const PAGE: u32 = 8192;
/// How many sets the table has.
const SETS: u32 = 64;
/// V of a match register.
const VALID: u32 = 0x1;
/// CI of a translate register.
const INHIBITED: u32 = 0x2;
/// VPN and V, which a match register keeps.
const MATCH_KEPT: u32 = 0xFFFF_E001;
/// PPN, SXE, UXE and CI, which a translate register for fetches keeps.
const FETCH_KEPT: u32 = 0xFFFF_E0C2;
/// PPN, the four rights and CI, which a translate register for loads and stores keeps.
const DATA_KEPT: u32 = 0xFFFF_E3C2;

/// The match and translate registers of each set, for fetches or for loads and stores
/// (OpenRISC 1000 Architecture Manual, chapter 8).
#[derive(Clone, Copy)]
pub struct Tlb {
    fetches: bool,
    pairs: [(u32, u32); 64],
}

impl Model for Tlb {
    ghost use Rattle.or_parts.specs.Translation.{TranslationTable};

    ghost Value = { TranslationTable };

    ghost view = { λ a. record { fetches = a.fetches; pairs = a.pairs } };

    ghost inverse = { λ value. record { fetches = value.fetches; pairs = value.pairs } };
}

// The bit of a translate register that gives a right.
#[inline]
fn right_bit(right: Right, supervisor: bool) -> u32
    ensures { result ≡ right_bit right supervisor }
{
    match right {
        Right::Fetch => if supervisor { 0x40 } else { 0x80 },
        Right::Load => if supervisor { 0x100 } else { 0x40 },
        Right::Store => if supervisor { 0x200 } else { 0x80 },
    }
}

impl Tlb {
    /// A table of zeros for loads and stores.
    pub fn for_loads() -> Tlb
        ensures { result ≡ record { fetches = false; pairs = no_pairs } }
    {
        Tlb {
            fetches: false,
            pairs: [(0, 0); 64],
        }
    }

    /// A table of zeros for fetches.
    pub fn for_fetches() -> Tlb
        ensures { result ≡ record { fetches = true; pairs = no_pairs } }
    {
        Tlb {
            fetches: true,
            pairs: [(0, 0); 64],
        }
    }

    /// The physical address of an effective one, and whether its page inhibits caching. A fetch asks
    /// a table for fetches, a load or a store the other. Miss comes exactly where the page's set has
    /// no valid match for it, PageFault exactly where it has one and the right is missing; supervisor
    /// mode uses the S rights alone, user mode the U rights alone (OpenRISC 1000 Architecture Manual,
    /// chapter 8).
    #[inline]
    #[tactic(auto, unfolding(or_parts::specs::Translation::translation))]
    pub fn translate(&self, ea: u32, right: Right, supervisor: bool) -> Result<Phys, TlbFault>
        requires { is_fetch right ≡ self.now.fetches }
        ensures value { result ≡ translation self.now.pairs ea right supervisor }
        ensures same_offset { IfOk result (λ phys. phys.pa % 8192 ≡ ea % 8192) }
    {
        let (matching, translation) = self.pairs[(ea / PAGE % SETS) as usize];
        if matching & VALID == 0 || matching / PAGE != ea / PAGE {
            return Err(TlbFault::Miss);
        }
        if translation & right_bit(right, supervisor) == 0 {
            return Err(TlbFault::PageFault);
        }
        Ok(Phys {
            pa: translation / PAGE * PAGE + ea % PAGE,
            inhibited: translation & INHIBITED != 0,
        })
    }

    /// Writes the match register of a set, which keeps VPN and V of `v`.
    pub fn set_match(&mut self, set: u32, v: u32)
        requires { set < 64 }
        ensures { self.new ≡ record self.old { pairs = match_written self.old.pairs set v } }
    {
        let (_, translation) = self.pairs[set as usize];
        self.pairs[set as usize] = (v & MATCH_KEPT, translation);
    }

    /// Writes the translate register of a set, which keeps PPN, CI and the table's rights of `v`.
    pub fn set_translate(&mut self, set: u32, v: u32)
        requires { set < 64 }
        ensures { self.new ≡ record self.old { pairs = translate_written self.old.fetches self.old.pairs set v } }
    {
        let kept = self.kept();
        let (matching, _) = self.pairs[set as usize];
        self.pairs[set as usize] = (matching, v & kept);
    }

    // The bits that a translate register keeps.
    fn kept(&self) -> u32
        ensures { result ≡ kept_translation self.now.fetches }
    {
        if self.fetches { FETCH_KEPT } else { DATA_KEPT }
    }

    /// The match register of a set.
    pub fn match_reg(&self, set: u32) -> u32
        requires { set < 64 }
        ensures { result ≡ (pair_at self.now.pairs set).0 }
    {
        let (matching, _) = self.pairs[set as usize];
        matching
    }

    /// The translate register of a set.
    pub fn translate_reg(&self, set: u32) -> u32
        requires { set < 64 }
        ensures { result ≡ (pair_at self.now.pairs set).1 }
    {
        let (_, translation) = self.pairs[set as usize];
        translation
    }
}
