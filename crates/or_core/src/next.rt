//! What the next step of a core is.

ghost use Rattle.std.specs.Prelude.{◌≡◌, ◌%◌};
ghost use Rattle.or_model.specs.Routes.{cached_instruction};
ghost use Rattle.or_core.specs.Next.{IsNext, IsFoundBeside};

use crate::state::Core;
use or_isa::Insn;
use or_model::Route;
use or_parts::Cause;

/// The next step of a core that runs.
#[derive(Clone, Copy)]
pub(crate) enum Next {
    /// An exception is entered: an interrupt is due, or the fetch meets a fault.
    Enters(Cause),
    /// An instruction of a held line is executed; none is a word that is no instruction.
    Held(Option<Insn>),
    /// The word at a physical address comes from the bus; the flag says whether its line is to be held.
    Fetched(u32, bool),
}

impl Core {
    // The instruction of a held line, where the fetch is cached.
    #[inline(always)]
    #[tactic(auto, unfolding(or_model::specs::Routes::cached_instruction))]
    fn cached_insn(&self, pa: u32, cached: bool) -> Option<Option<Insn>>
        requires { pa % 4 ≡ 0 }
        ensures { IsFoundBeside (cached_instruction self.now pa cached) result }
    {
        if cached { self.icache.look(pa) } else { None }
    }

    // What the next step is.
    #[inline(always)]
    #[tactic(auto, unfolding(or_model::specs::Step::is_private, or_model::specs::Step::step, crate::specs::Access::step_access, crate::specs::TracedSteps::step_exception))]
    pub(crate) fn next(&self) -> Next
        ensures { IsNext self.now result }
    {
        match self.due_interrupt() {
            Some(cause) => Next::Enters(cause),
            None => match self.fetch_route() {
                Route::Refused(cause) => Next::Enters(cause),
                Route::At(pa, cached) => match self.cached_insn(pa, cached) {
                    Some(insn) => Next::Held(insn),
                    None => Next::Fetched(pa, cached),
                },
            },
        }
    }
}
