//! Private steps: those that need no bus.

ghost use Rattle.std.specs.Prelude.{◌≡◌, ◌≢◌, ◌<◌, ◌+◌, true, false, None};
ghost use Rattle.std.specs.Option.{ForSome};
ghost use Rattle.or_isa.specs.Fits.{Fits};
ghost use Rattle.or_model.specs.World.{World};
ghost use Rattle.or_model.specs.Step.{step_by_insn, step, wants_bus};
ghost use Rattle.or_model.specs.Counts.{SameSettings};

use crate::next::Next;
use crate::state::Core;
use or_isa::{Insn, needs_bus};

/// What became of a step that a core tried without the bus.
#[derive(Clone, Copy, Debug, PartialEq, Eq)]
pub enum Private {
    /// It was made.
    Stepped,
    /// It needs the bus.
    NeedsBus,
    /// The core has stopped.
    Stopped,
}

impl Core {
    ghost use Rattle.or_core.specs.PrivateStep.{IsPrivateStep};
    ghost use Rattle.or_core.specs.Access.{access_of_insn, step_access};

    /// Makes the next step where it needs no bus. NeedsBus and Stopped change nothing.
    #[inline(always)]
    #[tactic(auto, unfolding(or_model::specs::Step::private_step))]
    pub fn try_private(&mut self) -> Private
        ensures tried { IsPrivateStep result self.old self.new }
        ensures any_world { result ≡ Private.Stepped → (world : World) → step self.old world ≡ record { core = self.new; world = world } }
        ensures no_access { result ≡ Private.Stepped → (world : World) → step_access self.old world ≡ None }
        ensures steps { result ≡ Private.Stepped → self.new.steps ≡ self.old.steps + 1 }
        ensures settings { SameSettings self.old self.new }
    {
        if self.stop.is_some() {
            return Private::Stopped;
        }
        match self.next() {
            Next::Enters(cause) => {
                self.enter_step(cause);
                Private::Stepped
            }
            Next::Held(insn) => self.try_insn(insn),
            Next::Fetched(..) => Private::NeedsBus,
        }
    }

    // Makes a step by an instruction, or a word that is none, where that needs no bus.
    #[inline(always)]
    fn try_insn(&mut self, insn: Option<Insn>) -> Private
        requires fits { ForSome insn Fits }
        requires room { self.old.steps < self.old.budget }
        ensures stepped { result ≡ Private.Stepped → (wants_bus self.old insn ≡ false) × ((world : World) → step_by_insn self.old world insn ≡ record { core = self.new; world = world }) }
        ensures needs_bus { result ≡ Private.NeedsBus → (wants_bus self.old insn ≡ true) × (self.new ≡ self.old) }
        ensures running { result ≢ Private.Stopped }
        ensures no_access { result ≡ Private.Stepped → (world : World) → access_of_insn self.old world insn ≡ None }
        ensures steps { result ≡ Private.Stepped → self.new.steps ≡ self.old.steps + 1 }
        ensures settings { SameSettings self.old self.new }
    {
        if let Some(found) = &insn {
            if needs_bus(found, self.spr_number(found)) {
                return Private::NeedsBus;
            }
        }
        let _ = self.step_off_bus(insn);
        Private::Stepped
    }
}
