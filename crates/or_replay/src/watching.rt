//! Turns that are watched: the access to RAM that they make, and the places of their steps.
ghost use Rattle.std.specs.Prelude.{◌≡◌, ◌<◌, ◌+◌, [], OnErr, OnOk, ℕ, List, Some, None, slice_get, length, option_map};
ghost use Rattle.or_model.specs.Turn.{Board as BoardModel, board_turned};
ghost use Rattle.or_replay.specs.Board.{IsBoard, IsInOrder, IsTurned, RefusedBy, RunsAt, Lessens, TurnsAt, steps_left};
ghost use Rattle.or_replay.specs.Watching.{IsObserved, IsPlaced, IsTraced, CountsSteps, IsCoreTraced, board_access, board_placed, placed_at};
ghost use Rattle.or_replay.specs.Board.{TellsAccess, IsCoreTurned};
ghost use Rattle.or_model.specs.Trace.{turn_trace};
ghost use Rattle.or_model.specs.Turn.{turn_begun};
ghost use Rattle.or_model.specs.Core.{Core as CoreModel};

use crate::board::{Board, Refused};
use arrayvec::ArrayVec;
use or_bus::{Access, Bus};
use or_core::Core;
use or_words::limits::MOST_TURN_STEPS;

/// An access to RAM, and the pc of the instruction that made it.
#[derive(Clone, Copy, Debug, PartialEq, Eq)]
pub struct Placed {
    pub pc: u32,
    pub access: Access,
}

impl Board {
    /// Makes one turn of a core as `turn` does, with the same refusals, and answers the access to RAM that it made: a load,
    /// a store, an l.lwa or an l.swa that stored. A turn makes at most one.
    pub fn observe(&mut self, core: u8) -> Result<Option<Access>, Refused>
        ensures turned { (board : BoardModel) → IsBoard self.old.cores self.old.bus board → IsTurned (board_turned board core) result self.new.cores self.new.bus }
        ensures access { (board : BoardModel) → IsBoard self.old.cores self.old.bus board → IsObserved board core result }
        ensures err { OnErr result (self.new ≡ self.old) }
        ensures why { RefusedBy self.old.cores core result }
        ensures config { self.new.config ≡ self.old.config }
    {
        match self.observe_placed(core) {
            Ok(placed) => Ok(access_of(placed)),
            Err(refused) => Err(refused),
        }
    }

    /// Makes one turn of a core as `observe` does, and answers its access with the pc of the instruction that made it, which
    /// is the last of the turn's trace.
    pub fn observe_placed(&mut self, core: u8) -> Result<Option<Placed>, Refused>
        ensures turned { (board : BoardModel) → IsBoard self.old.cores self.old.bus board → IsTurned (board_turned board core) result self.new.cores self.new.bus }
        ensures access { (board : BoardModel) → IsBoard self.old.cores self.old.bus board → IsPlaced board core result }
        ensures err { OnErr result (self.new ≡ self.old) }
        ensures why { RefusedBy self.old.cores core result }
        ensures config { self.new.config ≡ self.old.config }
    {
        place_one(self.cores.as_mut_slice(), core, &mut self.bus)
    }

    /// Makes one turn of a core as `turn` does, with the same refusals, and lists in `trace`, which is empty before, the pc
    /// before each of its 1 to 256 steps, in their order. After a refusal it is empty.
    pub fn turn_traced(
        &mut self,
        core: u8,
        trace: &mut ArrayVec<u32, MOST_TURN_STEPS>,
    ) -> Result<(), Refused>
        requires empty { trace.old.items ≡ [] }
        ensures turned { (board : BoardModel) → IsBoard self.old.cores self.old.bus board → IsTurned (board_turned board core) result self.new.cores self.new.bus }
        ensures trace { (board : BoardModel) → IsBoard self.old.cores self.old.bus board → IsTraced board core result trace.new.items }
        ensures steps { OnOk result (CountsSteps self.old.cores core self.new.cores trace.new.items) }
        ensures err { OnErr result (self.new ≡ self.old) }
        ensures why { RefusedBy self.old.cores core result }
        ensures config { self.new.config ≡ self.old.config }
    {
        trace_one(self.cores.as_mut_slice(), core, &mut self.bus, trace)
    }
}

// One turn of a core that runs, and the pc behind its private steps.
fn place_core(core: &mut Core, bus: &mut Bus) -> u32
    requires running { core.old.stop ≡ None }
    requires known { core.old.number < bus.old.cores }
    requires spare { 0 < bus.old.spare }
    ensures turned { IsCoreTurned core.old bus.old core.new bus.new }
    ensures pc { result ≡ (turn_begun core.old).core.pc }
{
    let _ = core.stop();
    core.turn_placed(bus)
}

// One turn of the core at a place, which runs, and the pc behind its private steps.
#[tactic(auto, using(crate::proofs::Turning::turning))]
fn place_at(cores: &mut [Core], place: usize, bus: &mut Bus) -> u32
    requires order { IsInOrder cores.old bus.old }
    requires runs { RunsAt cores.old place }
    ensures turned { TurnsAt cores.old bus.old place cores.new bus.new }
    ensures order { IsInOrder cores.new bus.new }
    ensures access { TellsAccess cores.old bus.old place bus.new }
    ensures pc { (core : CoreModel) → slice_get cores.old place ≡ Some core → result ≡ (turn_begun core).core.pc }
{
    let _ = cores[place].stop();
    place_core(&mut cores[place], bus)
}

// The access alone.
fn access_of(placed: Option<Placed>) -> Option<Access>
    ensures { result ≡ option_map (λ at. at.access) placed }
{
    match placed {
        Some(placed) => Some(placed.access),
        None => None,
    }
}

// An access with its pc, if there is one.
fn with_place(pc: u32, access: Option<Access>) -> Option<Placed>
    ensures { result ≡ option_map (placed_at pc) access }
{
    match access {
        Some(access) => Some(Placed { pc, access }),
        None => None,
    }
}

// One turn of a core among these, and its access with its pc.
#[tactic(auto, unfolding(or_model::specs::Turn::board_turned))]
fn place_one(cores: &mut [Core], core: u8, bus: &mut Bus) -> Result<Option<Placed>, Refused>
    requires order { IsInOrder cores.old bus.old }
    ensures turned { (board : BoardModel) → IsBoard cores.old bus.old board → IsTurned (board_turned board core) result cores.new bus.new }
    ensures access { (board : BoardModel) → IsBoard cores.old bus.old board → IsPlaced board core result }
    ensures order { IsInOrder cores.new bus.new }
    ensures err { OnErr result ((cores.new ≡ cores.old) × (bus.new ≡ bus.old)) }
    ensures why { RefusedBy cores.old core result }
{
    let place = core as usize;
    if place >= cores.len() {
        return Err(Refused::NoSuchCore);
    }
    if cores[place].stop().is_some() {
        return Err(Refused::CoreStopped);
    }
    bus.forget();
    let pc = place_at(cores, place, bus);
    Ok(with_place(pc, bus.last()))
}

// One turn of a core that runs, and its trace.
fn trace_core(core: &mut Core, bus: &mut Bus, trace: &mut ArrayVec<u32, MOST_TURN_STEPS>)
    requires running { core.old.stop ≡ None }
    requires known { core.old.number < bus.old.cores }
    requires spare { 0 < bus.old.spare }
    requires empty { trace.old.items ≡ [] }
    ensures traced { IsCoreTraced core.old bus.old core.new bus.new trace.new.items }
{
    let _ = core.stop();
    core.turn_traced(bus, trace);
}

// One turn of the core at a place, which runs, and its trace.
#[tactic(auto, using(crate::proofs::Turning::turning))]
fn trace_at(
    cores: &mut [Core],
    place: usize,
    bus: &mut Bus,
    trace: &mut ArrayVec<u32, MOST_TURN_STEPS>,
)
    requires order { IsInOrder cores.old bus.old }
    requires runs { RunsAt cores.old place }
    requires empty { trace.old.items ≡ [] }
    ensures turned { TurnsAt cores.old bus.old place cores.new bus.new }
    ensures order { IsInOrder cores.new bus.new }
    ensures places { (core : CoreModel) → slice_get cores.old place ≡ Some core → trace.new.items ≡ turn_trace core }
    ensures steps { CountsSteps cores.old place cores.new trace.new.items }
{
    let _ = cores[place].stop();
    trace_core(&mut cores[place], bus, trace);
}

// One turn of a core among these, and its trace.
#[tactic(auto, unfolding(or_model::specs::Turn::board_turned, crate::specs::Watching::board_trace))]
fn trace_one(
    cores: &mut [Core],
    core: u8,
    bus: &mut Bus,
    trace: &mut ArrayVec<u32, MOST_TURN_STEPS>,
) -> Result<(), Refused>
    requires order { IsInOrder cores.old bus.old }
    requires empty { trace.old.items ≡ [] }
    ensures turned { (board : BoardModel) → IsBoard cores.old bus.old board → IsTurned (board_turned board core) result cores.new bus.new }
    ensures trace { (board : BoardModel) → IsBoard cores.old bus.old board → IsTraced board core result trace.new.items }
    ensures steps { OnOk result (CountsSteps cores.old core cores.new trace.new.items) }
    ensures order { IsInOrder cores.new bus.new }
    ensures err { OnErr result ((cores.new ≡ cores.old) × (bus.new ≡ bus.old)) }
    ensures why { RefusedBy cores.old core result }
{
    let place = core as usize;
    if place >= cores.len() {
        return Err(Refused::NoSuchCore);
    }
    if cores[place].stop().is_some() {
        return Err(Refused::CoreStopped);
    }
    trace_at(cores, place, bus, trace);
    Ok(())
}
