//! One step of a core.

ghost use Rattle.std.specs.Prelude.{◌≡◌, ◌+◌, ◌<◌, ◌%◌, MatchResult, OnErr, Ok, Err, Some, None, true, false, option_and_then};
ghost use Rattle.std.specs.Option.{ForSome, option_or};
ghost use Rattle.or_isa.specs.Fits.{Fits};
ghost use Rattle.or_parts.specs.Bits.{plus, immediate};
ghost use Rattle.or_model.specs.Core.{exception_entry, register};
ghost use Rattle.or_model.specs.World.{World};
ghost use Rattle.or_model.specs.Routes.{fetch_route};
ghost use Rattle.or_model.specs.Step.{with_step_counted, is_misplaced, spr_number, outcome, outcome_on_bus, step_off_bus, step_on_bus, step_by_insn, step_by_word, step_unheld, step, wants_bus, is_private, private_step};
ghost use Rattle.or_bus.specs.Represents.{Represents};
ghost use Rattle.or_model.specs.Counts.{SameCounts, SameSettings};
ghost use Rattle.or_core.specs.Follows.{IsState, IsOutcome, IsAlignedBy, KeepsBus};
ghost use Rattle.or_core.specs.Access.{memory_operand, access_by, access_of_insn, access_of_word, word_fetched, step_access};
ghost use Rattle.or_core.specs.TracedSteps.{exception_of, exception_by_insn, exception_by_word, exception_unheld, step_exception};
ghost use Rattle.or_core.specs.Quiet.{IsAhead};

use crate::data_access::UNCACHED;
use crate::execute::extension;
use crate::next::Next;
use crate::state::{Core, has};
use or_bus::Bus;
use or_isa::{Insn, decode, needs_bus};
use or_model::Route;
use or_parts::status::{ICE, IME, SM};
use or_parts::{Cause, Right, TlbFault};
use or_words::{ExtendKind, Width};

impl Core {
    // Where the next instruction lies.
    #[inline]
    #[tactic(auto, unfolding(or_model::specs::Routes::fetch_route))]
    pub(crate) fn fetch_route(&self) -> Route
        ensures value { result ≡ fetch_route self.now }
        ensures aligned { IsAlignedBy 4 result }
    {
        let sr = self.sprs.sr();
        let pc = self.pc;
        if pc % 4 != 0 {
            return Route::Refused(Cause::Alignment(pc));
        }
        if !has(sr, IME) {
            return Route::At(pc, has(sr, ICE) && pc < UNCACHED);
        }
        match self.insn_tlb.translate(pc, Right::Fetch, has(sr, SM)) {
            Ok(phys) => Route::At(
                phys.pa,
                has(sr, ICE) && phys.pa < UNCACHED && !phys.inhibited,
            ),
            Err(TlbFault::Miss) => Route::Refused(Cause::InsnMiss(pc)),
            Err(TlbFault::PageFault) => Route::Refused(Cause::InsnPageFault(pc)),
        }
    }

    // Whether an instruction may not stand where it does, or not in this mode.
    #[inline(always)]
    #[tactic(auto, unfolding(or_model::specs::Step::is_misplaced))]
    pub(crate) fn is_misplaced(&self, insn: &Insn) -> bool
        ensures { result ≡ is_misplaced self.now insn.now }
    {
        match insn {
            Insn::Jump { .. } | Insn::Branch { .. } | Insn::JumpRegister { .. } => {
                self.is_in_slot()
            }
            Insn::ReturnFromException => self.is_in_slot() || !self.is_supervisor(),
            Insn::MoveFromSpecial { .. } | Insn::MoveToSpecial { .. } => !self.is_supervisor(),
            _ => false,
        }
    }

    // The register that an l.mtspr writes.
    #[inline(always)]
    pub(crate) fn spr_number(&self, insn: &Insn) -> u32
        requires { Fits insn.now }
        ensures { result ≡ spr_number self.now insn.now }
    {
        match insn {
            Insn::MoveToSpecial { a, k, .. } => self.register(*a) | *k,
            _ => 0,
        }
    }

    // An exception is entered, which is a step.
    pub(crate) fn enter_step(&mut self, cause: Cause)
        requires { self.old.steps < self.old.budget }
        ensures state { self.new ≡ with_step_counted (exception_entry self.old cause) }
        ensures settings { SameSettings self.old self.new }
        ensures steps { self.new.steps ≡ self.old.steps + 1 }
    {
        self.enter(cause);
        self.count_step();
    }

    // What an instruction comes to that asks nothing of the bus, or a word that is no instruction.
    #[inline(never)]
    fn attempt(&mut self, insn: Option<Insn>) -> Result<(), Cause>
        requires { ForSome insn Fits }
        ensures outcome { MatchResult result (λ _. outcome self.old insn ≡ Ok self.new) (λ e. outcome self.old insn ≡ Err e) }
        ensures err { OnErr result (self.new ≡ self.old) }
        ensures counts { SameCounts self.old self.new }
    {
        match insn {
            Some(insn) => match self.execute(insn) {
                Some(made) => made,
                None => self.execute_rare(insn),
            },
            None => Err(Cause::Illegal),
        }
    }

    // One step by an instruction that asks nothing of the bus, or by a word that is no instruction; the exception that it enters.
    #[inline(always)]
    #[tactic(auto, unfolding(or_model::specs::Step::step_off_bus))]
    pub(crate) fn step_off_bus(&mut self, insn: Option<Insn>) -> Option<Cause>
        requires fits { ForSome insn Fits }
        requires room { self.old.steps < self.old.budget }
        ensures state { self.new ≡ step_off_bus self.old insn }
        ensures exception { result ≡ exception_of (outcome self.old insn) }
        ensures settings { SameSettings self.old self.new }
        ensures steps { self.new.steps ≡ self.old.steps + 1 }
    {
        match self.attempt(insn) {
            Ok(()) => {
                self.retire();
                None
            }
            Err(cause) => {
                self.enter_step(cause);
                Some(cause)
            }
        }
    }

    // What an instruction that asks the bus comes to.
    #[inline(never)]
    #[tactic(auto, unfolding(or_model::specs::Step::executed_on_bus))]
    fn attempt_on_bus(&mut self, bus: &mut Bus, insn: Insn) -> Result<(), Cause>
        requires fits { Fits insn }
        requires known { self.old.number < bus.old.cores }
        requires spare { 0 < bus.old.spare }
        ensures outcome { (world : World) → Represents bus.old world → IsOutcome (outcome_on_bus self.old world insn) result self.new bus.new }
        ensures err { OnErr result ((self.new ≡ self.old) × (bus.new ≡ bus.old)) }
        ensures counts { SameCounts self.old self.new }
        ensures access { (world : World) → Represents bus.old world → bus.new.last ≡ option_or (option_and_then (access_by self.old world) (memory_operand insn)) bus.old.last }
        ensures bus { KeepsBus bus.old bus.new }
    {
        if self.is_misplaced(&insn) {
            return Err(Cause::Illegal);
        }
        match insn {
            Insn::Load {
                width,
                signed,
                d,
                a,
                i,
            } => self.load(bus, d, width, extension(width, signed), self.address(a, i)),
            Insn::LoadLinked { d, a, i } => self.load_linked(bus, d, self.address(a, i)),
            Insn::Store { width, a, b, i } => self.store(
                bus,
                self.register(b),
                width,
                self.address(a, i),
            ),
            Insn::StoreConditional { a, b, i } => self.store_conditional(
                bus,
                self.register(b),
                self.address(a, i),
            ),
            Insn::MoveToSpecial { b, .. } => {
                bus.drop_line(self.number(), self.register(b));
                self.go_on();
                Ok(())
            }
            _ => Err(Cause::Illegal),
        }
    }

    // The address of a load or a store.
    #[inline]
    fn address(&self, a: u32, i: i32) -> u32
        requires { a < 32 }
        ensures { result ≡ plus (register self.now a) (immediate i) }
    {
        self.register(a).wrapping_add(i.cast_unsigned())
    }

    // The same, with loads and stores of words in place: they are common.
    #[inline(always)]
    #[tactic(auto, using(crate::proofs::InPlace::words_in_place))]
    fn attempt_in_place(&mut self, bus: &mut Bus, insn: Insn) -> Result<(), Cause>
        requires fits { Fits insn }
        requires known { self.old.number < bus.old.cores }
        requires spare { 0 < bus.old.spare }
        ensures outcome { (world : World) → Represents bus.old world → IsOutcome (outcome_on_bus self.old world insn) result self.new bus.new }
        ensures err { OnErr result ((self.new ≡ self.old) × (bus.new ≡ bus.old)) }
        ensures counts { SameCounts self.old self.new }
        ensures access { (world : World) → Represents bus.old world → bus.new.last ≡ option_or (option_and_then (access_by self.old world) (memory_operand insn)) bus.old.last }
        ensures bus { KeepsBus bus.old bus.new }
    {
        match insn {
            Insn::Load {
                width: Width::Word,
                d,
                a,
                i,
                ..
            } => self.load(bus, d, Width::Word, ExtendKind::Whole, self.address(a, i)),
            Insn::Store {
                width: Width::Word,
                a,
                b,
                i,
            } => self.store(bus, self.register(b), Width::Word, self.address(a, i)),
            _ => {
                // A copy of its own, so that only this arm puts the instruction into memory.
                let other = insn;
                self.attempt_on_bus(bus, other)
            }
        }
    }

    // One step by an instruction that asks the bus.
    #[inline(always)]
    #[tactic(auto, unfolding(or_model::specs::Step::step_on_bus))]
    fn step_on_bus(&mut self, bus: &mut Bus, insn: Insn) -> Option<Cause>
        requires fits { Fits insn }
        requires room { self.old.steps < self.old.budget }
        requires known { self.old.number < bus.old.cores }
        requires spare { 0 < bus.old.spare }
        ensures state { (world : World) → Represents bus.old world → IsState (step_on_bus self.old world insn) self.new bus.new }
        ensures exception { (world : World) → Represents bus.old world → result ≡ exception_of (outcome_on_bus self.old world insn) }
        ensures settings { SameSettings self.old self.new }
        ensures steps { self.new.steps ≡ self.old.steps + 1 }
        ensures access { (world : World) → Represents bus.old world → bus.new.last ≡ option_or (option_and_then (access_by self.old world) (memory_operand insn)) bus.old.last }
        ensures bus { KeepsBus bus.old bus.new }
    {
        match self.attempt_in_place(bus, insn) {
            Ok(()) => {
                self.retire();
                None
            }
            Err(cause) => {
                self.enter_step(cause);
                Some(cause)
            }
        }
    }

    // One step by an instruction, or by a word that is none.
    #[inline(always)]
    fn step_by_insn(&mut self, bus: &mut Bus, insn: Option<Insn>) -> Option<Cause>
        requires fits { ForSome insn Fits }
        requires room { self.old.steps < self.old.budget }
        requires known { self.old.number < bus.old.cores }
        requires spare { 0 < bus.old.spare }
        ensures state { (world : World) → Represents bus.old world → IsState (step_by_insn self.old world insn) self.new bus.new }
        ensures exception { (world : World) → Represents bus.old world → result ≡ exception_by_insn self.old world insn }
        ensures alone { wants_bus self.old insn ≡ false → ((world : World) → step_by_insn self.old world insn ≡ record { core = self.new; world = world }) × (bus.new ≡ bus.old) }
        ensures settings { SameSettings self.old self.new }
        ensures steps { self.new.steps ≡ self.old.steps + 1 }
        ensures access { (world : World) → Represents bus.old world → bus.new.last ≡ option_or (access_of_insn self.old world insn) bus.old.last }
        ensures bus { KeepsBus bus.old bus.new }
    {
        match insn {
            Some(insn) => {
                if needs_bus(&insn, self.spr_number(&insn)) {
                    self.step_on_bus(bus, insn)
                } else {
                    self.step_off_bus(Some(insn))
                }
            }
            None => self.step_off_bus(None),
        }
    }

    // One step by a word that was fetched.
    #[tactic(auto, unfolding(or_model::specs::Step::step_by_word, crate::specs::Access::access_of_word, crate::specs::TracedSteps::exception_by_word))]
    fn step_by_word(&mut self, bus: &mut Bus, word: u32) -> Option<Cause>
        requires room { self.old.steps < self.old.budget }
        requires known { self.old.number < bus.old.cores }
        requires spare { 0 < bus.old.spare }
        ensures state { (world : World) → Represents bus.old world → IsState (step_by_word self.old world word) self.new bus.new }
        ensures exception { (world : World) → Represents bus.old world → result ≡ exception_by_word self.old world word }
        ensures settings { SameSettings self.old self.new }
        ensures steps { self.new.steps ≡ self.old.steps + 1 }
        ensures access { (world : World) → Represents bus.old world → bus.new.last ≡ option_or (access_of_word self.old world word) bus.old.last }
        ensures bus { KeepsBus bus.old bus.new }
    {
        self.step_by_insn(bus, decode(word))
    }

    // One step by a word that no held line has.
    #[tactic(auto, unfolding(or_model::specs::Step::step_unheld, crate::specs::TracedSteps::exception_unheld))]
    fn step_unheld(&mut self, bus: &mut Bus, pa: u32, cached: bool) -> Option<Cause>
        requires aligned { pa % 4 ≡ 0 }
        requires room { self.old.steps < self.old.budget }
        requires known { self.old.number < bus.old.cores }
        requires spare { 0 < bus.old.spare }
        ensures state { (world : World) → Represents bus.old world → IsState (step_unheld self.old world pa cached) self.new bus.new }
        ensures exception { (world : World) → Represents bus.old world → result ≡ exception_unheld self.old world pa cached }
        ensures settings { SameSettings self.old self.new }
        ensures steps { self.new.steps ≡ self.old.steps + 1 }
        ensures access { (world : World) → Represents bus.old world → bus.new.last ≡ option_or (option_and_then (access_of_word self.old world) (word_fetched world pa cached)) bus.old.last }
        ensures bus { KeepsBus bus.old bus.new }
    {
        match bus.fetch(pa, cached) {
            Ok(fetched) => {
                self.hold_line(pa, &fetched.line);
                self.step_by_word(bus, fetched.word)
            }
            Err(_) => {
                let cause = Cause::BusError(self.pc());
                self.enter_step(cause);
                Some(cause)
            }
        }
    }

    // Makes a step that is known to ask the bus.
    #[inline(always)]
    #[tactic(auto, using(crate::proofs::Nexts::step_ahead))]
    pub(crate) fn step_asking(&mut self, bus: &mut Bus, insn: Insn)
        requires ahead { IsAhead self.old insn }
        requires running { self.old.stop ≡ None }
        requires known { self.old.number < bus.old.cores }
        requires spare { 0 < bus.old.spare }
        ensures state { (world : World) → Represents bus.old world → IsState (step self.old world) self.new bus.new }
        ensures settings { SameSettings self.old self.new }
        ensures steps { self.new.steps ≡ self.old.steps + 1 }
        ensures access { (world : World) → Represents bus.old world → bus.new.last ≡ option_or (step_access self.old world) bus.old.last }
        ensures bus { KeepsBus bus.old bus.new }
    {
        let _ = &self.steps;
        let _ = self.step_on_bus(bus, insn);
    }

    /// Makes one step: a retired instruction, or the entry of the exception that it answers. The steps rise by one.
    #[tactic(auto, unfolding(or_model::specs::Step::private_step))]
    pub fn step(&mut self, bus: &mut Bus) -> Option<Cause>
        requires running { self.old.stop ≡ None }
        requires known { self.old.number < bus.old.cores }
        requires spare { 0 < bus.old.spare }
        ensures state { (world : World) → Represents bus.old world → IsState (step self.old world) self.new bus.new }
        ensures exception { (world : World) → Represents bus.old world → result ≡ step_exception self.old world }
        ensures alone { is_private self.old ≡ true → (self.new ≡ private_step self.old) × (bus.new ≡ bus.old) }
        ensures settings { SameSettings self.old self.new }
        ensures steps { self.new.steps ≡ self.old.steps + 1 }
        ensures access { (world : World) → Represents bus.old world → bus.new.last ≡ option_or (step_access self.old world) bus.old.last }
        ensures bus { KeepsBus bus.old bus.new }
    {
        let _ = &self.steps;
        match self.next() {
            Next::Enters(cause) => {
                self.enter_step(cause);
                Some(cause)
            }
            Next::Held(insn) => self.step_by_insn(bus, insn),
            Next::Fetched(pa, cached) => self.step_unheld(bus, pa, cached),
        }
    }
}
