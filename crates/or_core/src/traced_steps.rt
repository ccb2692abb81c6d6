//! Turns that are traced step by step.

ghost use Rattle.std.specs.Prelude.{◌≡◌, ◌+◌, ◌<◌, ◌≤◌, ◌%◌, ◌++◌, IfSome, if◌then◌else◌, None, IsTrue, [], true, length};
ghost use Rattle.or_words.specs.declared.limits.TheConstants.{MOST_PRIVATE_STEPS, MOST_TURN_STEPS};
ghost use Rattle.std.specs.List.{All};
ghost use Rattle.std.specs.Option.{option_or};
ghost use Rattle.or_model.specs.World.{World};
ghost use Rattle.or_model.specs.Step.{step, is_private, private_step};
ghost use Rattle.or_model.specs.Turn.{turn_begun, turn};
ghost use Rattle.or_bus.specs.Represents.{Represents};
ghost use Rattle.or_model.specs.Counts.{SameSettings};
ghost use Rattle.or_core.specs.Follows.{IsState, KeepsBus};
ghost use Rattle.or_core.specs.Access.{word_at, word_fetched, step_access, turn_access};
ghost use Rattle.or_model.specs.Routes.{fetch_route, cached_instruction};
ghost use Rattle.or_core.specs.TracedSteps.{IsAligned, step_word, traced_step, steps_within, bus_step, turn_steps};

use crate::next::Next;
use crate::state::Core;
use arrayvec::ArrayVec;
use or_bus::Bus;
use or_isa::needs_bus;
use or_model::Route;
use or_parts::Cause;
use or_words::limits::{MOST_PRIVATE_STEPS, MOST_TURN_STEPS};

/// A step of a core.
#[derive(Clone, Copy, Debug, Default, PartialEq, Eq)]
pub struct TracedStep {
    /// The pc before it.
    pub pc: u32,
    /// The word that it executes; none where an interrupt is due or the fetch meets an exception.
    pub word: Option<u32>,
    /// The exception that it enters; none where its instruction retires.
    pub exception: Option<Cause>,
}

impl Core {
    // The word that stands at a physical address: of a held line, where the fetch is cached, or of RAM.
    #[tactic(auto, unfolding(or_model::specs::Routes::cached_instruction, or_model::specs::Bus::fetch))]
    fn word_at(&self, bus: &mut Bus, pa: u32, cached: bool) -> Option<u32>
        requires aligned { pa % 4 ≡ 0 }
        ensures word { (world : World) → Represents bus.old world → result ≡ option_or (cached_instruction self.now pa cached) (word_fetched world pa cached) }
        ensures after { bus.new ≡ record bus.old { reads = bus.new.reads } }
        ensures tracks { (world : World) → Represents bus.old world → Represents bus.new world }
    {
        if cached {
            if let Some(word) = self.icache.word(pa) {
                return Some(word);
            }
        }
        bus.peek(pa)
    }

    // The word that a fetch at the pc finds.
    #[tactic(auto, unfolding(or_model::specs::Routes::fetch_route))]
    fn fetched_word(&self, bus: &mut Bus) -> Option<u32>
        ensures word { (world : World) → Represents bus.old world → result ≡ word_at self.now world (fetch_route self.now) }
        ensures aligned { IfSome result (λ _. self.now.pc % 4 ≡ 0) }
        ensures after { bus.new ≡ record bus.old { reads = bus.new.reads } }
        ensures tracks { (world : World) → Represents bus.old world → Represents bus.new world }
    {
        if self.pc % 4 != 0 {
            return None;
        }
        match self.fetch_route() {
            Route::Refused(_) => None,
            Route::At(pa, cached) => self.word_at(bus, pa, cached),
        }
    }

    // The word that the next step executes.
    #[tactic(auto, unfolding(crate::specs::TracedSteps::step_word))]
    fn step_word(&self, bus: &mut Bus) -> Option<u32>
        ensures word { (world : World) → Represents bus.old world → result ≡ step_word self.now world }
        ensures aligned { IfSome result (λ _. self.now.pc % 4 ≡ 0) }
        ensures after { bus.new ≡ record bus.old { reads = bus.new.reads } }
        ensures tracks { (world : World) → Represents bus.old world → Represents bus.new world }
    {
        match self.due_interrupt() {
            Some(_) => None,
            None => self.fetched_word(bus),
        }
    }

    // Whether the next step needs no bus.
    fn is_private(&self) -> bool
        ensures { result ≡ is_private self.now }
    {
        match self.next() {
            Next::Enters(_) => true,
            Next::Held(None) => true,
            Next::Held(Some(insn)) => !needs_bus(&insn, self.spr_number(&insn)),
            Next::Fetched(..) => false,
        }
    }

    // Makes one step, and tells of it.
    fn traced_step(&mut self, bus: &mut Bus) -> TracedStep
        requires running { self.old.stop ≡ None }
        requires known { self.old.number < bus.old.cores }
        requires spare { 0 < bus.old.spare }
        ensures step { (world : World) → Represents bus.old world → result ≡ traced_step self.old world }
        ensures aligned { IsAligned result }
        ensures state { (world : World) → Represents bus.old world → IsState (step self.old world) self.new bus.new }
        ensures alone { is_private self.old ≡ true → (self.new ≡ private_step self.old) × (bus.new ≡ record bus.old { reads = bus.new.reads }) }
        ensures settings { SameSettings self.old self.new }
        ensures steps { self.new.steps ≡ self.old.steps + 1 }
        ensures access { (world : World) → Represents bus.old world → bus.new.last ≡ option_or (step_access self.old world) bus.old.last }
        ensures bus { KeepsBus bus.old bus.new }
    {
        let pc = self.pc();
        let word = self.step_word(bus);
        let exception = self.step(bus);
        TracedStep {
            pc,
            word,
            exception,
        }
    }

    // The private steps of a turn; whether a step on the bus follows.
    #[tactic(auto, using(crate::proofs::Begins::begin_steps, crate::proofs::TracedSteps::private_steps), unfolding(or_model::specs::Turn::turn_begun))]
    fn trace_private_steps(
        &mut self,
        bus: &mut Bus,
        steps: &mut ArrayVec<TracedStep, MOST_TURN_STEPS>,
    ) -> bool
        requires running { self.old.stop ≡ None }
        requires known { self.old.number < bus.old.cores }
        requires spare { 0 < bus.old.spare }
        requires empty { steps.old.items ≡ [] }
        ensures begun { turn_begun self.old ≡ record { core = self.new; follows = result } }
        ensures running { IsTrue result → self.new.stop ≡ None }
        ensures settings { SameSettings self.old self.new }
        ensures steps { (world : World) → Represents bus.old world → steps.new.items ≡ steps_within MOST_PRIVATE_STEPS self.old world }
        ensures aligned { All IsAligned steps.new.items }
        ensures room { IsTrue result → length steps.new.items < MOST_TURN_STEPS }
        ensures few { length steps.new.items ≤ MOST_TURN_STEPS }
        ensures items { self.new.steps ≡ self.old.steps + length steps.new.items }
        ensures after { bus.new ≡ record bus.old { reads = bus.new.reads } }
        ensures tracks { (world : World) → Represents bus.old world → Represents bus.new world }
    {
        for noted in 0..MOST_PRIVATE_STEPS {
            if self.stop().is_some() {
                return false;
            }
            if !self.is_private() {
                return true;
            }
            steps.push(self.traced_step(bus));
        }
        false
    }

    // The step on the bus, if one follows.
    fn trace_step_on_bus(
        &mut self,
        bus: &mut Bus,
        follows: bool,
        steps: &mut ArrayVec<TracedStep, MOST_TURN_STEPS>,
    )
        requires running { IsTrue follows → self.old.stop ≡ None }
        requires known { self.old.number < bus.old.cores }
        requires spare { 0 < bus.old.spare }
        requires room { IsTrue follows → length steps.old.items < MOST_TURN_STEPS }
        requires few { length steps.old.items ≤ MOST_TURN_STEPS }
        requires aligned { All IsAligned steps.old.items }
        ensures state { (world : World) → Represents bus.old world → IsState (if follows then step self.old world else record { core = self.old; world = world }) self.new bus.new }
        ensures settings { SameSettings self.old self.new }
        ensures made { self.new.steps ≡ self.old.steps + (if follows then 1 else 0) }
        ensures access { (world : World) → Represents bus.old world → bus.new.last ≡ option_or (if follows then step_access self.old world else None) bus.old.last }
        ensures bus { KeepsBus bus.old bus.new }
        ensures steps { (world : World) → Represents bus.old world → steps.new.items ≡ steps.old.items ++ bus_step (record { core = self.old; follows = follows }) world }
        ensures aligned { All IsAligned steps.new.items }
        ensures few { length steps.new.items ≤ MOST_TURN_STEPS }
        ensures items { length steps.new.items ≡ length steps.old.items + (if follows then 1 else 0) }
    {
        if follows {
            steps.push(self.traced_step(bus));
        }
    }

    /// Makes one turn as `turn` does, and lists its 1 to 256 steps, in their order, in `steps`, which is empty before.
    #[tactic(auto, using(crate::proofs::Progress::turn_progress), unfolding(or_model::specs::Turn::turn, or_model::specs::Turn::turn_ended, crate::specs::Access::turn_access, crate::specs::TracedSteps::turn_steps))]
    pub fn turn_by_steps(
        &mut self,
        bus: &mut Bus,
        steps: &mut ArrayVec<TracedStep, MOST_TURN_STEPS>,
    )
        requires running { self.old.stop ≡ None }
        requires known { self.old.number < bus.old.cores }
        requires spare { 0 < bus.old.spare }
        requires empty { steps.old.items ≡ [] }
        ensures state { (world : World) → Represents bus.old world → IsState (turn self.old world) self.new bus.new }
        ensures settings { SameSettings self.old self.new }
        ensures progress { self.old.steps < self.new.steps }
        ensures access { (world : World) → Represents bus.old world → bus.new.last ≡ option_or (turn_access self.old world) bus.old.last }
        ensures bus { KeepsBus bus.old bus.new }
        ensures steps { (world : World) → Represents bus.old world → steps.new.items ≡ turn_steps self.old world }
        ensures aligned { All IsAligned steps.new.items }
        ensures items { self.new.steps ≡ self.old.steps + length steps.new.items }
    {
        let _ = &self.steps;
        let follows = self.trace_private_steps(bus, steps);
        self.trace_step_on_bus(bus, follows, steps);
        self.sample(bus.lines(self.number()));
    }
}
