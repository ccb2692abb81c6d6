//! Turns of a core.

ghost use Rattle.std.specs.Prelude.{◌≡◌, ◌<◌, ◌≤◌, ◌+◌, if◌then◌else◌, None, IsTrue, IsFalse, [], ◌++◌, length};
ghost use Rattle.std.specs.Option.{option_or};
ghost use Rattle.or_words.specs.declared.limits.TheConstants.{MOST_TURN_STEPS};
ghost use Rattle.or_model.specs.World.{World};
ghost use Rattle.or_model.specs.Step.{step};
ghost use Rattle.or_model.specs.Turn.{turn_begun, turn_ended, turn};
ghost use Rattle.or_model.specs.Trace.{private_trace, bus_trace, turn_trace};
ghost use Rattle.or_bus.specs.Represents.{Represents};
ghost use Rattle.or_model.specs.Counts.{SameSettings};
ghost use Rattle.or_core.specs.Follows.{IsState, KeepsBus};
ghost use Rattle.or_core.specs.Access.{step_access, turn_access};
ghost use Rattle.or_core.specs.Quiet.{IsAhead};

use crate::private::Private;
use crate::state::Core;
use arrayvec::ArrayVec;
use or_bus::Bus;
use or_isa::Insn;
use or_words::limits::{MOST_PRIVATE_STEPS, MOST_TURN_STEPS};

/// What the private steps of a turn have come to.
#[derive(Clone, Copy)]
struct Begun {
    // Whether a step on the bus follows.
    follows: bool,
    // Whether that step is known to ask the bus.
    asks: bool,
    // What it then executes.
    insn: Insn,
}

impl Begun {
    // Nothing is known of a step on the bus, if one follows.
    #[inline(always)]
    fn of(follows: bool) -> Begun
        ensures follows { result.follows ≡ follows }
        ensures asks { IsFalse result.asks }
    {
        Begun {
            follows,
            asks: false,
            insn: Insn::Nop { k: 0 },
        }
    }
}

impl Core {
    // Makes the private steps of a turn, at most 256. All turns share it, so that the quiet steps stand in it and nowhere else.
    #[inline(never)]
    #[tactic(auto, using(crate::proofs::Begins::begin_steps), unfolding(or_model::specs::Turn::turn_begun))]
    fn begin(&mut self) -> Begun
        requires { self.old.stop ≡ None }
        ensures begun { turn_begun self.old ≡ record { core = self.new; follows = result.follows } }
        ensures ahead { IsTrue result.asks → IsAhead self.new result.insn }
        ensures known { IsTrue result.asks → IsTrue result.follows }
        ensures running { IsTrue result.follows → self.new.stop ≡ None }
        ensures settings { SameSettings self.old self.new }
    {
        let quiet = self.quiet_steps();
        if quiet.asks {
            return Begun {
                follows: true,
                asks: true,
                insn: quiet.insn,
            };
        }
        for made in quiet.made..MOST_PRIVATE_STEPS {
            match self.try_private() {
                Private::Stepped => {}
                Private::NeedsBus => return Begun::of(true),
                Private::Stopped => return Begun::of(false),
            }
        }
        Begun::of(false)
    }

    // Makes the step on the bus, if one follows.
    #[inline(always)]
    fn step_ahead(&mut self, bus: &mut Bus, begun: Begun)
        requires ahead { IsTrue begun.asks → IsAhead self.old begun.insn }
        requires follows { IsTrue begun.asks → IsTrue begun.follows }
        requires running { IsTrue begun.follows → self.old.stop ≡ None }
        requires known { self.old.number < bus.old.cores }
        requires spare { 0 < bus.old.spare }
        ensures state { (world : World) → Represents bus.old world → IsState (if begun.follows then step self.old world else record { core = self.old; world = world }) self.new bus.new }
        ensures settings { SameSettings self.old self.new }
        ensures steps { self.new.steps ≡ self.old.steps + (if begun.follows then 1 else 0) }
        ensures access { (world : World) → Represents bus.old world → bus.new.last ≡ option_or (if begun.follows then step_access self.old world else None) bus.old.last }
        ensures bus { KeepsBus bus.old bus.new }
    {
        if begun.asks {
            self.step_asking(bus, begun.insn);
        } else if begun.follows {
            let _ = self.step(bus);
        }
    }

    /// Makes the private steps of a turn, at most 256, and answers whether a step on the bus follows.
    pub fn begin_turn(&mut self) -> bool
        requires { self.old.stop ≡ None }
        ensures begun { turn_begun self.old ≡ record { core = self.new; follows = result } }
        ensures running { IsTrue result → self.new.stop ≡ None }
        ensures settings { SameSettings self.old self.new }
    {
        self.begin().follows
    }

    // Makes the rest of a turn.
    #[inline(always)]
    #[tactic(auto, unfolding(or_model::specs::Turn::turn_ended))]
    fn end(&mut self, bus: &mut Bus, begun: Begun)
        requires ahead { IsTrue begun.asks → IsAhead self.old begun.insn }
        requires follows { IsTrue begun.asks → IsTrue begun.follows }
        requires running { IsTrue begun.follows → self.old.stop ≡ None }
        requires known { self.old.number < bus.old.cores }
        requires spare { 0 < bus.old.spare }
        ensures state { (world : World) → Represents bus.old world → IsState (turn_ended self.old world begun.follows) self.new bus.new }
        ensures settings { SameSettings self.old self.new }
        ensures steps { self.new.steps ≡ self.old.steps + (if begun.follows then 1 else 0) }
        ensures access { (world : World) → Represents bus.old world → bus.new.last ≡ option_or (if begun.follows then step_access self.old world else None) bus.old.last }
        ensures bus { KeepsBus bus.old bus.new }
    {
        self.step_ahead(bus, begun);
        self.sample(bus.lines(self.number()));
    }

    /// Makes the rest of a turn, given what `begin_turn` answered: the step on the bus if one follows,
    /// and the sampling of the interrupt lines.
    pub fn end_turn(&mut self, bus: &mut Bus, follows: bool)
        requires running { IsTrue follows → self.old.stop ≡ None }
        requires known { self.old.number < bus.old.cores }
        requires spare { 0 < bus.old.spare }
        ensures state { (world : World) → Represents bus.old world → IsState (turn_ended self.old world follows) self.new bus.new }
        ensures settings { SameSettings self.old self.new }
        ensures steps { self.new.steps ≡ self.old.steps + (if follows then 1 else 0) }
        ensures access { (world : World) → Represents bus.old world → bus.new.last ≡ option_or (if follows then step_access self.old world else None) bus.old.last }
        ensures bus { KeepsBus bus.old bus.new }
    {
        self.end(bus, Begun::of(follows));
    }

    /// Makes one turn: private steps, at most 256, then a step on the bus where fewer were made and
    /// the core has not stopped, then the sampling of the interrupt lines.
    pub fn turn(&mut self, bus: &mut Bus)
        requires running { self.old.stop ≡ None }
        requires known { self.old.number < bus.old.cores }
        requires spare { 0 < bus.old.spare }
        ensures state { (world : World) → Represents bus.old world → IsState (turn self.old world) self.new bus.new }
        ensures settings { SameSettings self.old self.new }
        ensures progress { self.old.steps < self.new.steps }
        ensures access { (world : World) → Represents bus.old world → bus.new.last ≡ option_or (turn_access self.old world) bus.old.last }
        ensures bus { KeepsBus bus.old bus.new }
    {
        let _ = self.turn_placed(bus);
    }

    /// Makes one turn as `turn` does, and answers the pc behind its private steps: that of the step on the bus, if one
    /// follows them.
    #[tactic(auto, using(crate::proofs::Progress::turn_progress), unfolding(or_model::specs::Turn::turn, crate::specs::Access::turn_access))]
    pub fn turn_placed(&mut self, bus: &mut Bus) -> u32
        requires running { self.old.stop ≡ None }
        requires known { self.old.number < bus.old.cores }
        requires spare { 0 < bus.old.spare }
        ensures state { (world : World) → Represents bus.old world → IsState (turn self.old world) self.new bus.new }
        ensures settings { SameSettings self.old self.new }
        ensures progress { self.old.steps < self.new.steps }
        ensures access { (world : World) → Represents bus.old world → bus.new.last ≡ option_or (turn_access self.old world) bus.old.last }
        ensures bus { KeepsBus bus.old bus.new }
        ensures pc { result ≡ (turn_begun self.old).core.pc }
    {
        let _ = &self.steps;
        let begun = self.begin();
        let pc = self.pc();
        self.end(bus, begun);
        pc
    }

    /// Makes one turn as `turn` does, and lists in `trace`, which is empty before, the pc before each of
    /// its 1 to 256 steps, in their order.
    #[tactic(auto, using(crate::proofs::Progress::turn_progress), unfolding(or_model::specs::Turn::turn, crate::specs::Access::turn_access, or_model::specs::Trace::turn_trace))]
    pub fn turn_traced(&mut self, bus: &mut Bus, trace: &mut ArrayVec<u32, MOST_TURN_STEPS>)
        requires running { self.old.stop ≡ None }
        requires known { self.old.number < bus.old.cores }
        requires spare { 0 < bus.old.spare }
        requires empty { trace.old.items ≡ [] }
        ensures state { (world : World) → Represents bus.old world → IsState (turn self.old world) self.new bus.new }
        ensures settings { SameSettings self.old self.new }
        ensures progress { self.old.steps < self.new.steps }
        ensures access { (world : World) → Represents bus.old world → bus.new.last ≡ option_or (turn_access self.old world) bus.old.last }
        ensures bus { KeepsBus bus.old bus.new }
        ensures trace { trace.new.items ≡ turn_trace self.old }
        ensures items { self.new.steps ≡ self.old.steps + length trace.new.items }
        ensures few { length trace.new.items ≤ MOST_TURN_STEPS }
    {
        let _ = &self.steps;
        let follows = self.begin_traced(trace);
        self.trace_bus_step(follows, trace);
        self.end_turn(bus, follows);
    }

    // The private steps of a turn, with the pc before each.
    #[tactic(auto, using(crate::proofs::Begins::begin_steps, crate::proofs::Traces::trace_steps), unfolding(or_model::specs::Turn::turn_begun, or_model::specs::Trace::private_trace))]
    fn begin_traced(&mut self, trace: &mut ArrayVec<u32, MOST_TURN_STEPS>) -> bool
        requires running { self.old.stop ≡ None }
        requires empty { trace.old.items ≡ [] }
        ensures begun { turn_begun self.old ≡ record { core = self.new; follows = result } }
        ensures running { IsTrue result → self.new.stop ≡ None }
        ensures settings { SameSettings self.old self.new }
        ensures trace { trace.new.items ≡ private_trace self.old }
        ensures room { IsTrue result → length trace.new.items < MOST_TURN_STEPS }
        ensures few { length trace.new.items ≤ MOST_TURN_STEPS }
        ensures items { self.new.steps ≡ self.old.steps + length trace.new.items }
    {
        for noted in 0..MOST_PRIVATE_STEPS {
            let pc = self.pc();
            match self.try_private() {
                Private::Stepped => trace.push(pc),
                Private::NeedsBus => return true,
                Private::Stopped => return false,
            }
        }
        false
    }

    // The pc before the step on the bus, if one follows.
    fn trace_bus_step(&self, follows: bool, trace: &mut ArrayVec<u32, MOST_TURN_STEPS>)
        requires room { IsTrue follows → length trace.old.items < MOST_TURN_STEPS }
        requires few { length trace.old.items ≤ MOST_TURN_STEPS }
        ensures trace { trace.new.items ≡ trace.old.items ++ bus_trace (record { core = self.now; follows = follows }) }
        ensures few { length trace.new.items ≤ MOST_TURN_STEPS }
    {
        if follows {
            trace.push(self.pc());
        }
    }
}
