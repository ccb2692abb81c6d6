//! Instructions that ask nothing of the bus (OpenRISC 1000 Architecture Manual, chapter 5, ORBIS32).

ghost use Rattle.std.specs.Prelude.{◌≡◌, ◌<◌, MatchResult, OnErr, IfSome, IsNone, Ok, Err, Some, false, is_some};
ghost use Rattle.or_isa.specs.Fits.{Fits, IsSigned};
ghost use Rattle.or_model.specs.Execute.{extension, on_registers, put_arithmetic, jumped, branched_on};
ghost use Rattle.or_model.specs.Step.{outcome};
ghost use Rattle.or_model.specs.Counts.{SameCounts};
ghost use Rattle.or_core.specs.Quiet.{is_plain};

use crate::state::Core;
use or_isa::{ArithmeticKind, ImmediateKind, Insn};
use or_parts::Cause;
use or_words::{ExtendKind, MacKind, Width};

impl Core {
    // Executes a plain instruction, or meets an exception and changes nothing. None changes nothing either: the
    // instruction is not plain.
    #[inline(always)]
    #[tactic(auto, unfolding(or_model::specs::Execute::executed, or_model::specs::Execute::after_nop, or_model::specs::Step::is_misplaced))]
    pub(crate) fn execute(&mut self, insn: Insn) -> Option<Result<(), Cause>>
        requires { Fits insn }
        ensures plain { is_some result ≡ is_plain insn }
        ensures outcome { IfSome result (λ made. MatchResult made (λ _. outcome self.old (Some insn) ≡ Ok self.new) (λ e. outcome self.old (Some insn) ≡ Err e)) }
        ensures err { IfSome result (λ made. OnErr made (self.new ≡ self.old)) }
        ensures none { IsNone result → self.new ≡ self.old }
        ensures counts { SameCounts self.old self.new }
    {
        match insn {
            Insn::Jump { link, n } => {
                if self.is_in_slot() {
                    return Some(Err(Cause::Illegal));
                }
                self.jump(link, self.destination(n));
                Some(Ok(()))
            }
            Insn::Branch { on, n } => {
                if self.is_in_slot() {
                    return Some(Err(Cause::Illegal));
                }
                self.branch_on(on, n);
                Some(Ok(()))
            }
            Insn::JumpRegister { link, b } => {
                if self.is_in_slot() {
                    return Some(Err(Cause::Illegal));
                }
                self.jump(link, self.register(b));
                Some(Ok(()))
            }
            Insn::PageAddress { d, n } => {
                self.put(d, self.page_address(n));
                Some(Ok(()))
            }
            Insn::Nop { k } => {
                if k == 1 {
                    return None;
                }
                self.go_on();
                Some(Ok(()))
            }
            Insn::MoveHigh { d, k } => {
                self.put(d, k * 65536);
                Some(Ok(()))
            }
            Insn::TakeAccumulator { d } => {
                self.take_accumulator(d);
                Some(Ok(()))
            }
            Insn::Sync { .. } => {
                self.go_on();
                Some(Ok(()))
            }
            Insn::ArithmeticImmediate { kind, d, a, i } => Some(self.arithmetic_immediate(
                kind,
                d,
                self.register(a),
                i.cast_unsigned(),
            )),
            Insn::AndImmediate { d, a, k } => {
                self.put(d, self.register(a) & k);
                Some(Ok(()))
            }
            Insn::OrImmediate { d, a, k } => {
                self.put(d, self.register(a) | k);
                Some(Ok(()))
            }
            Insn::MoveFromSpecial { d, a, k } => {
                if !self.is_supervisor() {
                    return Some(Err(Cause::Illegal));
                }
                self.put(d, self.special(self.register(a) | k));
                Some(Ok(()))
            }
            Insn::ShiftImmediate { kind, d, a, l } => {
                self.put_shifted(d, kind, self.register(a), l);
                Some(Ok(()))
            }
            Insn::Shift { kind, d, a, b } => {
                self.put_shifted(d, kind, self.register(a), self.register(b));
                Some(Ok(()))
            }
            Insn::CompareImmediate { code, a, i } => {
                self.put_comparison(code, self.register(a), i.cast_unsigned());
                Some(Ok(()))
            }
            Insn::Compare { code, a, b } => {
                self.put_comparison(code, self.register(a), self.register(b));
                Some(Ok(()))
            }
            Insn::AccumulateImmediate { a, i } => {
                self.accumulate(MacKind::Plus, self.register(a), i.cast_unsigned());
                Some(Ok(()))
            }
            Insn::Accumulate { kind, a, b } => {
                self.accumulate(kind, self.register(a), self.register(b));
                Some(Ok(()))
            }
            Insn::Arithmetic { kind, d, a, b } => Some(self.arithmetic(
                kind,
                d,
                self.register(a),
                self.register(b),
            )),
            Insn::Extend {
                width,
                signed,
                d,
                a,
            } => {
                self.put_extended(d, extension(width, signed), self.register(a));
                Some(Ok(()))
            }
            Insn::FindFirst { d, a } => {
                self.put_lowest_one(d, self.register(a));
                Some(Ok(()))
            }
            Insn::FindLast { d, a } => {
                self.put_highest_one(d, self.register(a));
                Some(Ok(()))
            }
            Insn::SystemCall { .. }
            | Insn::Trap { .. }
            | Insn::ReturnFromException
            | Insn::MoveToSpecial { .. }
            | Insn::Load { .. }
            | Insn::LoadLinked { .. }
            | Insn::Store { .. }
            | Insn::StoreConditional { .. } => None,
        }
    }

    // Executes an instruction that is not plain, or meets an exception and changes nothing. Those that ask the bus have
    // no place here.
    #[inline(never)]
    #[tactic(auto, unfolding(or_model::specs::Execute::executed))]
    pub(crate) fn execute_rare(&mut self, insn: Insn) -> Result<(), Cause>
        requires fits { Fits insn }
        requires rare { is_plain insn ≡ false }
        ensures outcome { MatchResult result (λ _. outcome self.old (Some insn) ≡ Ok self.new) (λ e. outcome self.old (Some insn) ≡ Err e) }
        ensures err { OnErr result (self.new ≡ self.old) }
        ensures counts { SameCounts self.old self.new }
    {
        if self.is_misplaced(&insn) {
            return Err(Cause::Illegal);
        }
        match insn {
            Insn::Nop { k } => {
                self.nop(k);
                Ok(())
            }
            Insn::SystemCall { .. } => Err(Cause::Syscall),
            Insn::Trap { .. } => Err(Cause::Trap),
            Insn::ReturnFromException => {
                self.leave();
                Ok(())
            }
            Insn::MoveToSpecial { a, b, k } => {
                self.set_special(self.register(a) | k, self.register(b));
                self.go_on();
                Ok(())
            }
            _ => Err(Cause::Illegal),
        }
    }

    // An operation on two words, with its flags.
    #[inline(always)]
    #[tactic(auto, unfolding(or_model::specs::Execute::put_arithmetic))]
    fn arithmetic(&mut self, kind: ArithmeticKind, d: u32, a: u32, b: u32) -> Result<(), Cause>
        requires { d < 32 }
        ensures outcome { MatchResult result (λ _. put_arithmetic self.old kind d a b ≡ Ok self.new) (λ e. put_arithmetic self.old kind d a b ≡ Err e) }
        ensures err { OnErr result (self.new ≡ self.old) }
        ensures counts { SameCounts self.old self.new }
    {
        match kind {
            ArithmeticKind::Add => self.put_sum(d, a, b, false),
            ArithmeticKind::AddWithCarry => self.put_sum(d, a, b, self.carry()),
            ArithmeticKind::Subtract => self.put_difference(d, a, b),
            ArithmeticKind::And => {
                self.put(d, a & b);
                Ok(())
            }
            ArithmeticKind::Or => {
                self.put(d, a | b);
                Ok(())
            }
            ArithmeticKind::Xor => {
                self.put(d, a ^ b);
                Ok(())
            }
            ArithmeticKind::Choose => {
                self.put_chosen(d, a, b);
                Ok(())
            }
            ArithmeticKind::Multiply => self.put_product(d, a, b),
            ArithmeticKind::Divide => self.put_quotient(d, a, b),
            ArithmeticKind::DivideUnsigned => {
                self.put_unsigned_quotient(d, a, b);
                Ok(())
            }
            ArithmeticKind::MultiplyUnsigned => {
                self.put_unsigned_product(d, a, b);
                Ok(())
            }
        }
    }

    // The operation on registers that does the same. Its arms stand here once more and call nothing
    // large, so that `execute` stays small enough to be inlined into the quiet steps.
    #[inline(always)]
    #[tactic(auto, unfolding(or_model::specs::Execute::put_arithmetic))]
    fn arithmetic_immediate(
        &mut self,
        kind: ImmediateKind,
        d: u32,
        a: u32,
        b: u32,
    ) -> Result<(), Cause>
        requires { d < 32 }
        ensures outcome { MatchResult result (λ _. put_arithmetic self.old (on_registers kind) d a b ≡ Ok self.new) (λ e. put_arithmetic self.old (on_registers kind) d a b ≡ Err e) }
        ensures err { OnErr result (self.new ≡ self.old) }
        ensures counts { SameCounts self.old self.new }
    {
        match kind {
            ImmediateKind::Add => self.put_sum(d, a, b, false),
            ImmediateKind::AddWithCarry => self.put_sum(d, a, b, self.carry()),
            ImmediateKind::Xor => {
                self.put(d, a ^ b);
                Ok(())
            }
            ImmediateKind::Multiply => self.put_product(d, a, b),
        }
    }

    // A jump, which is a call where it sets the link register.
    #[inline(always)]
    #[tactic(auto, unfolding(or_model::specs::Execute::jumped))]
    fn jump(&mut self, link: bool, to: u32)
        ensures state { self.new ≡ jumped self.old link to }
        ensures counts { SameCounts self.old self.new }
    {
        if link {
            self.call(to);
        } else {
            self.branch_to(to);
        }
    }

    // A branch, taken where the flag is as `on` says.
    #[inline(always)]
    #[tactic(auto, unfolding(or_model::specs::Execute::branched_on))]
    fn branch_on(&mut self, on: bool, n: i32)
        requires { IsSigned 25 n }
        ensures state { self.new ≡ branched_on self.old on n }
        ensures counts { SameCounts self.old self.new }
    {
        let flag = self.flag();
        self.branch_where(if on { flag } else { !flag }, n);
    }
}

// How the value of a load or of an extension fills a word.
#[inline(always)]
pub(crate) fn extension(width: Width, signed: bool) -> ExtendKind
    ensures { result ≡ extension width signed }
{
    match (width, signed) {
        (Width::Byte, true) => ExtendKind::ByteSigned,
        (Width::Byte, false) => ExtendKind::ByteZero,
        (Width::Half, true) => ExtendKind::HalfSigned,
        (Width::Half, false) => ExtendKind::HalfZero,
        (Width::Word, _) => ExtendKind::Whole,
    }
}
