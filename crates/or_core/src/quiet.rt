//! Steps of a quiet core, whose timer stands still and which no interrupt may meet: a test before
//! them all takes the place of tests before each.

ghost use Rattle.std.specs.Prelude.{◌≡◌, ◌≢◌, ◌+◌, ◌-◌, ◌/◌, ◌<◌, ◌≤◌, true, None, Some, IfSome, IsTrue, IsFalse};
ghost use Rattle.or_words.specs.declared.limits.TheConstants.{MOST_PRIVATE_STEPS};
ghost use Rattle.or_model.specs.Step.{retired, is_private, private_step};
ghost use Rattle.or_model.specs.Turn.{begun_within};
ghost use Rattle.or_model.specs.Counts.{SameSettings};
ghost use Rattle.or_core.specs.Next.{IsExecuted};
ghost use Rattle.or_core.specs.Quiet.{IsQuiet, SameControl, IsAhead};

use crate::data_access::UNCACHED;
use crate::state::{Core, has};
use or_isa::{Insn, needs_bus};
use or_parts::status::{ICE, IEE, IME, TEE};
use or_words::limits::MOST_PRIVATE_STEPS;

/// The unit of M, the mode of TTMR.
const MODE: u32 = 0x4000_0000;

/// The first steps of a turn, of a core that was quiet.
#[derive(Clone, Copy)]
pub(crate) struct Stretch {
    /// How many steps were made.
    pub(crate) made: u32,
    /// Whether the next one is known to ask the bus. An `Option` of what it executes would go through memory.
    pub(crate) asks: bool,
    /// What it then executes.
    pub(crate) insn: Insn,
}

impl Stretch {
    // Steps behind which nothing is known.
    #[inline(always)]
    fn of(made: u32) -> Stretch
        ensures made { result.made ≡ made }
        ensures asks { IsFalse result.asks }
    {
        Stretch {
            made,
            asks: false,
            insn: Insn::Nop { k: 0 },
        }
    }
}

/// What became of the next step of a quiet core.
#[derive(Clone, Copy)]
pub(crate) enum Tried {
    /// It was made.
    Made,
    /// It enters an exception.
    Raises,
    /// Its instruction is not plain.
    Rare,
}

impl Core {
    // Whether the core is quiet.
    fn is_quiet(&self) -> bool
        ensures { IsTrue result → IsQuiet self.now }
    {
        let sr = self.sprs.sr();
        has(sr, ICE)
            && !has(sr, IME)
            && self.tick.mode() / MODE == 0
            && !(has(sr, TEE) && self.tick.pending())
            && !(has(sr, IEE) && self.pic.pending())
    }

    // What the next step of a quiet core executes, where the line at pc is held.
    #[inline(always)]
    fn quiet_insn(&self) -> Option<Option<Insn>>
        requires { IsQuiet self.now }
        ensures { IfSome result (IsExecuted self.now) }
    {
        let pc = self.pc;
        if pc % 4 == 0 && pc < UNCACHED {
            self.icache.look(pc)
        } else {
            None
        }
    }

    // One step more, of a core that reaches no budget by it and whose timer stands still.
    #[inline(always)]
    #[tactic(auto, unfolding(or_model::specs::Step::retired, or_model::specs::Step::with_step_counted, or_parts::specs::Timer::ticked))]
    fn count_plain(&mut self)
        requires still { self.old.ttmr / 0x40000000 ≡ 0 }
        requires running { self.old.stop ≡ None }
        requires room { self.old.steps + 1 < self.old.budget }
        ensures state { self.new ≡ retired self.old }
        ensures control { SameControl self.old self.new }
        ensures settings { SameSettings self.old self.new }
        ensures steps { self.new.steps ≡ self.old.steps + 1 }
    {
        self.steps += 1;
    }

    // Makes the next step of a quiet core, where its instruction is plain and meets no exception. Else nothing changes.
    #[inline(always)]
    fn plain_step(&mut self, insn: Insn) -> Tried
        requires next { IsExecuted self.old (Some insn) }
        requires quiet { IsQuiet self.old }
        requires running { self.old.stop ≡ None }
        requires room { self.old.steps + 1 < self.old.budget }
        ensures made { result ≡ Tried.Made → (is_private self.old ≡ true) × (self.new ≡ private_step self.old) }
        ensures steps { result ≡ Tried.Made → self.new.steps ≡ self.old.steps + 1 }
        ensures stayed { result ≢ Tried.Made → self.new ≡ self.old }
        ensures quiet { IsQuiet self.new }
        ensures running { self.new.stop ≡ None }
        ensures settings { SameSettings self.old self.new }
    {
        match self.execute(insn) {
            Some(made) => match made {
                Ok(()) => {
                    self.count_plain();
                    Tried::Made
                }
                Err(_) => Tried::Raises,
            },
            None => Tried::Rare,
        }
    }

    // Whether an instruction that is executed next asks the bus.
    #[inline(always)]
    fn is_asking(&self, insn: &Insn) -> bool
        requires { IsExecuted self.now (Some insn.now) }
        ensures { IsTrue result → IsAhead self.now insn.now }
    {
        needs_bus(insn, self.spr_number(insn))
    }

    // The first steps of a turn, while the core is quiet and executes plain instructions of held lines.
    #[tactic(auto, using(crate::proofs::Begins::begin_steps))]
    pub(crate) fn quiet_steps(&mut self) -> Stretch
        requires { self.old.stop ≡ None }
        ensures left { begun_within MOST_PRIVATE_STEPS self.old ≡ begun_within (MOST_PRIVATE_STEPS - result.made) self.new }
        ensures few { result.made ≤ MOST_PRIVATE_STEPS }
        ensures ahead { IsTrue result.asks → IsAhead self.new result.insn × (result.made < MOST_PRIVATE_STEPS) }
        ensures running { self.new.stop ≡ None }
        ensures settings { SameSettings self.old self.new }
    {
        if !self.is_quiet() {
            return Stretch::of(0);
        }
        let room = (self.budget - 1 - self.steps).min(MOST_PRIVATE_STEPS);
        for made in 0..room {
            let Some(Some(insn)) = self.quiet_insn() else {
                return Stretch::of(made);
            };
            match self.plain_step(insn) {
                Tried::Made => {}
                Tried::Raises => return Stretch::of(made),
                Tried::Rare => {
                    return Stretch {
                        made,
                        asks: self.is_asking(&insn),
                        insn,
                    };
                }
            }
        }
        Stretch::of(room)
    }
}
