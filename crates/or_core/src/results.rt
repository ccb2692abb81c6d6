//! Results of instructions: where they go, and which flags they set.

ghost use Rattle.std.specs.Prelude.{◌≡◌, ◌<◌, MatchResult, OnErr, Ok, Err, Some};
ghost use Rattle.or_isa.specs.Fits.{IsSigned};
ghost use Rattle.or_model.specs.Execute.{put, put_sum, put_difference, put_product, put_quotient, put_with_flags, put_with_overflow, put_with_carry, put_unsigned_quotient, put_unsigned_product, put_shifted, put_extended, put_lowest_one, put_highest_one, put_chosen, put_comparison, put_accumulator, accumulator_read, flag, carry, with_carry, with_overflow, destination, page_address, branched_where, called, after_nop};
ghost use Rattle.or_model.specs.Core.{next_instruction, register};
ghost use Rattle.or_model.specs.declared.Stop.TheVariants.{Exit};
ghost use Rattle.or_parts.specs.Bits.{with_bits};
ghost use Rattle.or_model.specs.Counts.{SameCounts};

use crate::state::{Core, has};
use or_model::Stop;
use or_parts::Cause;
use or_parts::status::{CY, F, OVE};
use or_words::{
    CompareCode, ExtendKind, MacKind, ShiftKind, add, compare, div, divu, extend, ff1, fl1, mac,
    mul, mulu, shift, sub,
};

impl Core {
    // The set flag.
    #[inline(always)]
    pub(crate) fn flag(&self) -> bool
        ensures { result ≡ flag self.now }
    {
        has(self.sprs.sr(), F)
    }

    // The carry flag.
    #[inline]
    pub(crate) fn carry(&self) -> bool
        ensures { result ≡ carry self.now }
    {
        has(self.sprs.sr(), CY)
    }

    // A value goes to register d.
    #[inline(always)]
    #[tactic(auto, unfolding(or_model::specs::Execute::put))]
    pub(crate) fn put(&mut self, d: u32, v: u32)
        requires { d < 32 }
        ensures state { self.new ≡ put self.old d v }
        ensures counts { SameCounts self.old self.new }
    {
        self.set_register(d, v);
        self.go_on();
    }

    // A result with CY and OV, unless an overflow is a range exception: then nothing is written.
    #[inline(always)]
    #[tactic(auto, unfolding(or_model::specs::Execute::put_with_flags))]
    fn put_with_flags(&mut self, d: u32, v: u32, cy: bool, ov: bool) -> Result<(), Cause>
        requires { d < 32 }
        ensures outcome { MatchResult result (λ _. put_with_flags self.old d v cy ov ≡ Ok self.new) (λ e. put_with_flags self.old d v cy ov ≡ Err e) }
        ensures err { OnErr result (self.new ≡ self.old) }
        ensures counts { SameCounts self.old self.new }
    {
        if ov && has(self.sprs.sr(), OVE) {
            return Err(Cause::Range);
        }
        self.set_carry(cy);
        self.set_overflow(ov);
        self.put(d, v);
        Ok(())
    }

    // A result with OV alone.
    #[inline(always)]
    #[tactic(auto, unfolding(or_model::specs::Execute::put_with_overflow))]
    fn put_with_overflow(&mut self, d: u32, v: u32, ov: bool) -> Result<(), Cause>
        requires { d < 32 }
        ensures outcome { MatchResult result (λ _. put_with_overflow self.old d v ov ≡ Ok self.new) (λ e. put_with_overflow self.old d v ov ≡ Err e) }
        ensures err { OnErr result (self.new ≡ self.old) }
        ensures counts { SameCounts self.old self.new }
    {
        if ov && has(self.sprs.sr(), OVE) {
            return Err(Cause::Range);
        }
        self.set_overflow(ov);
        self.put(d, v);
        Ok(())
    }

    // A result with CY alone.
    #[inline]
    #[tactic(auto, unfolding(or_model::specs::Execute::put_with_carry))]
    fn put_with_carry(&mut self, d: u32, v: u32, cy: bool)
        requires { d < 32 }
        ensures state { self.new ≡ put_with_carry self.old d v cy }
        ensures counts { SameCounts self.old self.new }
    {
        self.set_carry(cy);
        self.put(d, v);
    }

    #[inline(always)]
    fn set_carry(&mut self, cy: bool)
        ensures state { self.new ≡ with_carry self.old cy }
        ensures counts { SameCounts self.old self.new }
    {
        self.sprs.set_carry(cy);
    }

    #[inline(always)]
    fn set_overflow(&mut self, ov: bool)
        ensures state { self.new ≡ with_overflow self.old ov }
        ensures counts { SameCounts self.old self.new }
    {
        self.sprs.set_overflow(ov);
    }

    #[inline(always)]
    #[tactic(auto, unfolding(or_model::specs::Execute::put_sum))]
    pub(crate) fn put_sum(&mut self, d: u32, a: u32, b: u32, c: bool) -> Result<(), Cause>
        requires { d < 32 }
        ensures outcome { MatchResult result (λ _. put_sum self.old d a b c ≡ Ok self.new) (λ e. put_sum self.old d a b c ≡ Err e) }
        ensures err { OnErr result (self.new ≡ self.old) }
        ensures counts { SameCounts self.old self.new }
    {
        let (value, cy, ov) = add(a, b, c);
        self.put_with_flags(d, value, cy, ov)
    }

    #[inline(always)]
    #[tactic(auto, unfolding(or_model::specs::Execute::put_difference))]
    pub(crate) fn put_difference(&mut self, d: u32, a: u32, b: u32) -> Result<(), Cause>
        requires { d < 32 }
        ensures outcome { MatchResult result (λ _. put_difference self.old d a b ≡ Ok self.new) (λ e. put_difference self.old d a b ≡ Err e) }
        ensures err { OnErr result (self.new ≡ self.old) }
        ensures counts { SameCounts self.old self.new }
    {
        let (value, cy, ov) = sub(a, b);
        self.put_with_flags(d, value, cy, ov)
    }

    #[inline(always)]
    #[tactic(auto, unfolding(or_model::specs::Execute::put_product))]
    pub(crate) fn put_product(&mut self, d: u32, a: u32, b: u32) -> Result<(), Cause>
        requires { d < 32 }
        ensures outcome { MatchResult result (λ _. put_product self.old d a b ≡ Ok self.new) (λ e. put_product self.old d a b ≡ Err e) }
        ensures err { OnErr result (self.new ≡ self.old) }
        ensures counts { SameCounts self.old self.new }
    {
        let (value, ov) = mul(a, b);
        self.put_with_overflow(d, value, ov)
    }

    #[inline(never)]
    #[tactic(auto, unfolding(or_model::specs::Execute::put_quotient))]
    pub(crate) fn put_quotient(&mut self, d: u32, a: u32, b: u32) -> Result<(), Cause>
        requires { d < 32 }
        ensures outcome { MatchResult result (λ _. put_quotient self.old d a b ≡ Ok self.new) (λ e. put_quotient self.old d a b ≡ Err e) }
        ensures err { OnErr result (self.new ≡ self.old) }
        ensures counts { SameCounts self.old self.new }
    {
        let (value, ov) = div(a, b);
        self.put_with_overflow(d, value, ov)
    }

    // The unsigned quotient, with CY for a division by zero.
    #[inline(never)]
    #[tactic(auto, unfolding(or_model::specs::Execute::put_unsigned_quotient))]
    pub(crate) fn put_unsigned_quotient(&mut self, d: u32, a: u32, b: u32)
        requires { d < 32 }
        ensures state { self.new ≡ put_unsigned_quotient self.old d a b }
        ensures counts { SameCounts self.old self.new }
    {
        let (value, cy) = divu(a, b);
        self.put_with_carry(d, value, cy);
    }

    // The product modulo 2^32, with CY where the unsigned product does not fit.
    #[inline(never)]
    #[tactic(auto, unfolding(or_model::specs::Execute::put_unsigned_product))]
    pub(crate) fn put_unsigned_product(&mut self, d: u32, a: u32, b: u32)
        requires { d < 32 }
        ensures state { self.new ≡ put_unsigned_product self.old d a b }
        ensures counts { SameCounts self.old self.new }
    {
        let (value, cy) = mulu(a, b);
        self.put_with_carry(d, value, cy);
    }

    // A shifted or rotated word.
    #[inline(always)]
    #[tactic(auto, unfolding(or_model::specs::Execute::put_shifted))]
    pub(crate) fn put_shifted(&mut self, d: u32, kind: ShiftKind, a: u32, n: u32)
        requires { d < 32 }
        ensures state { self.new ≡ put_shifted self.old d kind a n }
        ensures counts { SameCounts self.old self.new }
    {
        self.put(d, shift(kind, a, n));
    }

    // A low half or byte, extended.
    #[inline]
    #[tactic(auto, unfolding(or_model::specs::Execute::put_extended))]
    pub(crate) fn put_extended(&mut self, d: u32, kind: ExtendKind, a: u32)
        requires { d < 32 }
        ensures state { self.new ≡ put_extended self.old d kind a }
        ensures counts { SameCounts self.old self.new }
    {
        self.put(d, extend(kind, a));
    }

    // The place of the lowest one bit.
    #[inline]
    #[tactic(auto, unfolding(or_model::specs::Execute::put_lowest_one))]
    pub(crate) fn put_lowest_one(&mut self, d: u32, a: u32)
        requires { d < 32 }
        ensures state { self.new ≡ put_lowest_one self.old d a }
        ensures counts { SameCounts self.old self.new }
    {
        self.put(d, ff1(a));
    }

    // The place of the highest one bit.
    #[inline]
    #[tactic(auto, unfolding(or_model::specs::Execute::put_highest_one))]
    pub(crate) fn put_highest_one(&mut self, d: u32, a: u32)
        requires { d < 32 }
        ensures state { self.new ≡ put_highest_one self.old d a }
        ensures counts { SameCounts self.old self.new }
    {
        self.put(d, fl1(a));
    }

    // One of two words, by the set flag.
    #[inline]
    #[tactic(auto, unfolding(or_model::specs::Execute::put_chosen))]
    pub(crate) fn put_chosen(&mut self, d: u32, a: u32, b: u32)
        requires { d < 32 }
        ensures state { self.new ≡ put_chosen self.old d a b }
        ensures counts { SameCounts self.old self.new }
    {
        self.put(d, if self.flag() { a } else { b });
    }

    #[inline(always)]
    pub(crate) fn set_flag(&mut self, f: bool)
        ensures state { self.new ≡ record self.old { sr = with_bits self.old.sr F f } }
        ensures counts { SameCounts self.old self.new }
    {
        self.sprs.set_flag(f);
    }

    // The set flag becomes the comparison of two words.
    #[inline(always)]
    #[tactic(auto, unfolding(or_model::specs::Execute::put_comparison, or_model::specs::Execute::put_flag))]
    pub(crate) fn put_comparison(&mut self, code: CompareCode, a: u32, b: u32)
        ensures state { self.new ≡ put_comparison self.old code a b }
        ensures counts { SameCounts self.old self.new }
    {
        self.set_flag(compare(code, a, b));
        self.go_on();
    }

    #[inline]
    fn set_accumulator(&mut self, hi: u32, lo: u32)
        ensures state { self.new ≡ record self.old { machi = hi; maclo = lo } }
        ensures counts { SameCounts self.old self.new }
    {
        self.sprs.set_mac(hi, lo);
    }

    // The accumulator after an operation on it.
    #[inline(never)]
    #[tactic(auto, unfolding(or_model::specs::Execute::put_accumulator))]
    pub(crate) fn accumulate(&mut self, kind: MacKind, a: u32, b: u32)
        ensures state { self.new ≡ put_accumulator self.old kind a b }
        ensures counts { SameCounts self.old self.new }
    {
        let (old_hi, old_lo) = self.sprs.mac();
        let (hi, lo) = mac(kind, old_hi, old_lo, a, b);
        self.set_accumulator(hi, lo);
        self.go_on();
    }

    // The accumulator's low half goes to register d, and both halves are cleared.
    #[inline(never)]
    #[tactic(auto, unfolding(or_model::specs::Execute::accumulator_read))]
    pub(crate) fn take_accumulator(&mut self, d: u32)
        requires { d < 32 }
        ensures state { self.new ≡ accumulator_read self.old d }
        ensures counts { SameCounts self.old self.new }
    {
        let (_, low) = self.sprs.mac();
        self.set_accumulator(0, 0);
        self.put(d, low);
    }

    // The destination of a jump by so many words.
    #[inline(always)]
    #[tactic(auto, unfolding(or_model::specs::Execute::destination))]
    pub(crate) fn destination(&self, n: i32) -> u32
        requires { IsSigned 25 n }
        ensures { result ≡ destination self.now n }
    {
        self.pc.wrapping_add((n * 4).cast_unsigned())
    }

    // A page's address, by pages from that of pc.
    #[inline(never)]
    #[tactic(auto, using(crate::proofs::Pages::page_bytes), unfolding(or_model::specs::Execute::page_address))]
    pub(crate) fn page_address(&self, n: i32) -> u32
        requires { IsSigned 20 n }
        ensures { result ≡ page_address self.now n }
    {
        let page = self.pc - self.pc % 8192;
        page.wrapping_add(n.cast_unsigned().wrapping_mul(8192))
    }

    // A branch sets its delay slot's destination whether it is taken or not.
    #[inline(always)]
    #[tactic(auto, unfolding(or_model::specs::Execute::branched_where))]
    pub(crate) fn branch_where(&mut self, taken: bool, n: i32)
        requires { IsSigned 25 n }
        ensures state { self.new ≡ branched_where self.old taken n }
        ensures counts { SameCounts self.old self.new }
    {
        let to = if taken {
            self.destination(n)
        } else {
            self.pc.wrapping_add(8)
        };
        self.branch_to(to);
    }

    // A call puts the address behind its delay slot into r9.
    #[tactic(auto, unfolding(or_model::specs::Execute::called))]
    pub(crate) fn call(&mut self, to: u32)
        ensures state { self.new ≡ called self.old to }
        ensures counts { SameCounts self.old self.new }
    {
        let behind = self.pc.wrapping_add(8);
        self.set_register(9, behind);
        self.branch_to(to);
    }

    // l.nop 1 stops the core with what r3 reads.
    #[inline(always)]
    #[tactic(auto, unfolding(or_model::specs::Execute::after_nop))]
    pub(crate) fn nop(&mut self, k: u32)
        ensures state { self.new ≡ next_instruction (after_nop self.old k) }
        ensures counts { SameCounts self.old self.new }
    {
        if k == 1 {
            self.exit();
        }
        self.go_on();
    }

    #[cold]
    fn exit(&mut self)
        ensures state { self.new ≡ record self.old { stop = Some (Exit (register self.old 3)) } }
        ensures counts { SameCounts self.old self.new }
    {
        self.stop = Some(Stop::Exit(self.register(3)));
    }
}
