//! Turns that list their steps: the pc before each, the word that it executes and the exception that it enters.
ghost use Rattle.std.specs.Prelude.{◌≡◌, ◌<◌, [], OnErr, Some, None, slice_get};
ghost use Rattle.std.specs.List.{All};
ghost use Rattle.or_model.specs.Core.{Core as CoreModel};
ghost use Rattle.or_model.specs.World.{World};
ghost use Rattle.or_model.specs.Turn.{Board as BoardModel, board_turned};
ghost use Rattle.or_bus.specs.Represents.{Represents};
ghost use Rattle.or_core.specs.TracedSteps.{IsAligned, turn_steps};
ghost use Rattle.or_replay.specs.Board.{IsBoard, IsInOrder, IsTurned, RefusedBy, RunsAt, TurnsAt};
ghost use Rattle.or_replay.specs.Steps.{AreStepsOf, IsCoreListed};

use crate::board::{Board, Refused};
use arrayvec::ArrayVec;
use or_bus::Bus;
use or_core::{Core, TracedStep};

impl Board {
    /// Makes one turn of a core as `turn` does, with the same refusals, and lists its 1 to 256 steps, in their order, in
    /// `steps`, which is empty before. After a refusal it is empty.
    pub fn turn_by_steps(
        &mut self,
        core: u8,
        steps: &mut ArrayVec<TracedStep, 256>,
    ) -> Result<(), Refused>
        requires empty { steps.old.items ≡ [] }
        ensures turned { (board : BoardModel) → IsBoard self.old.cores self.old.bus board → IsTurned (board_turned board core) result self.new.cores self.new.bus }
        ensures steps { (board : BoardModel) → IsBoard self.old.cores self.old.bus board → AreStepsOf board core result steps.new.items }
        ensures aligned { All IsAligned steps.new.items }
        ensures err { OnErr result (self.new ≡ self.old) }
        ensures why { RefusedBy self.old.cores core result }
        ensures config { self.new.config ≡ self.old.config }
    {
        list_one(self.cores.as_mut_slice(), core, &mut self.bus, steps)
    }
}

// One turn of a core that runs, and its steps.
fn list_core(core: &mut Core, bus: &mut Bus, steps: &mut ArrayVec<TracedStep, 256>)
    requires running { core.old.stop ≡ None }
    requires known { core.old.number < bus.old.cores }
    requires spare { 0 < bus.old.spare }
    requires empty { steps.old.items ≡ [] }
    ensures listed { IsCoreListed core.old bus.old core.new bus.new steps.new.items }
{
    let _ = core.stop();
    core.turn_by_steps(bus, steps);
}

// One turn of the core at a place, which runs, and its steps.
#[tactic(auto, using(crate::proofs::Turning::turning))]
fn list_at(cores: &mut [Core], place: usize, bus: &mut Bus, steps: &mut ArrayVec<TracedStep, 256>)
    requires order { IsInOrder cores.old bus.old }
    requires runs { RunsAt cores.old place }
    requires empty { steps.old.items ≡ [] }
    ensures turned { TurnsAt cores.old bus.old place cores.new bus.new }
    ensures order { IsInOrder cores.new bus.new }
    ensures steps { (core : CoreModel) (world : World) → slice_get cores.old place ≡ Some core → Represents bus.old world → steps.new.items ≡ turn_steps core world }
    ensures aligned { All IsAligned steps.new.items }
{
    let _ = cores[place].stop();
    list_core(&mut cores[place], bus, steps);
}

// One turn of a core among these, and its steps.
#[tactic(auto, unfolding(or_model::specs::Turn::board_turned, crate::specs::Steps::board_steps))]
fn list_one(
    cores: &mut [Core],
    core: u8,
    bus: &mut Bus,
    steps: &mut ArrayVec<TracedStep, 256>,
) -> Result<(), Refused>
    requires order { IsInOrder cores.old bus.old }
    requires empty { steps.old.items ≡ [] }
    ensures turned { (board : BoardModel) → IsBoard cores.old bus.old board → IsTurned (board_turned board core) result cores.new bus.new }
    ensures steps { (board : BoardModel) → IsBoard cores.old bus.old board → AreStepsOf board core result steps.new.items }
    ensures aligned { All IsAligned steps.new.items }
    ensures order { IsInOrder cores.new bus.new }
    ensures err { OnErr result ((cores.new ≡ cores.old) × (bus.new ≡ bus.old)) }
    ensures why { RefusedBy cores.old core result }
{
    let place = core as usize;
    if place >= cores.len() {
        return Err(Refused::NoSuchCore);
    }
    if cores[place].stop().is_some() {
        return Err(Refused::CoreStopped);
    }
    list_at(cores, place, bus, steps);
    Ok(())
}
