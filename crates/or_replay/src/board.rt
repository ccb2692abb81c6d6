//! The board: its cores and its bus.
ghost use Rattle.std.specs.Prelude.{◌≡◌, ◌≤◌, ◌<◌, OnErr, ℕ, List, Some, None, slice_get, slice_set, length, IsTrue};
ghost use Rattle.or_words.specs.declared.Config.{Config as ConfigModel};
ghost use Rattle.or_model.specs.Core.{Core as CoreModel};
ghost use Rattle.or_model.specs.World.{World};
ghost use Rattle.or_model.specs.Turn.{Board as BoardModel, turn, board_turned};
ghost use Rattle.or_bus.specs.Represents.{Represents};
ghost use Rattle.or_replay.specs.Marks.{mark_of};
ghost use Rattle.or_replay.specs.Board.{IsBoard, IsInOrder, IsTurned, steps_left, all_stopped, RefusedBy, Lessens, RunsAt, AreOfBus, IsCoreTurned, TurnsAt, TellsAccess};
ghost use Rattle.or_parts.specs.Devices.{console_of};

use arrayvec::ArrayVec;
use or_bus::{Bus, Counts};
use or_core::Core;
use or_sched::Mark;
use or_words::Config;
use std::marker::Model;

/// Why a turn is refused.
#[derive(Clone, Copy, Debug, PartialEq, Eq)]
pub enum Refused {
    /// The number is not one of the board's cores.
    NoSuchCore,
    /// The core has stopped.
    CoreStopped,
}

/// A board on one thread: one to eight cores in order of number, and the bus between them.
#[derive(Drop)]
pub struct Board {
    pub(crate) config: Config,
    pub(crate) cores: ArrayVec<Core, 8>,
    pub(crate) bus: Bus,
}

impl Model for Board {
    ghost use Rattle.or_replay.specs.Board.{BoardState, IsInOrder};

    ghost Value = { BoardState };

    ghost view = { λ board. record { config = board.config; cores = board.cores.items; bus = board.bus } };

    ghost invariant = { λ board. IsInOrder board.cores.items board.bus };
}

impl Board {
    /// The settings that the board was opened with.
    pub fn config(&self) -> &Config
        ensures { result.now ≡ self.now.config }
    {
        &self.config
    }

    /// The cores, in order of number.
    pub fn cores(&self) -> &[Core]
        ensures value { result.now ≡ self.now.cores }
        ensures few { length result.now ≤ 8 }
    {
        self.cores.as_slice()
    }

    /// Whether every core has stopped.
    pub fn finished(&self) -> bool
        ensures { result ≡ all_stopped self.now.cores }
    {
        are_stopped(self.cores.as_slice())
    }

    /// The bytes that the console has shown.
    pub fn console(&self) -> &[u8]
        ensures { (board : BoardModel) → IsBoard self.now.cores self.now.bus board → result.now ≡ console_of board.world.devices }
    {
        self.bus.console()
    }

    /// Makes one turn of a core. NoSuchCore exactly where the board has no core of this number, CoreStopped exactly where
    /// that core has stopped; the board is then unchanged.
    pub fn turn(&mut self, core: u8) -> Result<(), Refused>
        ensures turned { (board : BoardModel) → IsBoard self.old.cores self.old.bus board → IsTurned (board_turned board core) result self.new.cores self.new.bus }
        ensures err { OnErr result (self.new ≡ self.old) }
        ensures why { RefusedBy self.old.cores core result }
        ensures config { self.new.config ≡ self.old.config }
        ensures left { Lessens result self.old.cores self.new.cores }
        ensures many { length self.new.cores ≡ length self.old.cores }
    {
        turn_one(self.cores.as_mut_slice(), core, &mut self.bus)
    }

    /// The cores in order of number, and the bus.
    pub fn into_parts(self) -> (ArrayVec<Core, 8>, Bus)
        ensures cores { result.0.items ≡ self.cores }
        ensures bus { result.1 ≡ self.bus }
        ensures order { AreOfBus result.0.items result.1 }
        ensures room { steps_left result.0.items ≤ result.1.spare }
    {
        (self.cores, self.bus)
    }

    /// The mark of this moment: how many writes to RAM were made, and how many bytes the console has shown.
    pub fn mark(&self) -> Mark
        ensures { (now : BoardModel) → IsBoard self.now.cores self.now.bus now → result ≡ mark_of now.world }
    {
        Mark {
            writes: self.bus.writes(),
            console: self.bus.console().len() as u64,
        }
    }
}

// Whether none of the cores runs.
fn are_stopped(cores: &[Core]) -> bool
    ensures { result ≡ all_stopped cores.now }
{
    let mut rest = cores;
    while let Some((core, others)) = rest.split_first() {
        if core.stop().is_none() {
            return false;
        }
        rest = others;
    }
    true
}

// One turn of a core among these.
#[tactic(auto, unfolding(or_model::specs::Turn::board_turned))]
fn turn_one(cores: &mut [Core], core: u8, bus: &mut Bus) -> Result<(), Refused>
    requires order { IsInOrder cores.old bus.old }
    ensures turned { (board : BoardModel) → IsBoard cores.old bus.old board → IsTurned (board_turned board core) result cores.new bus.new }
    ensures order { IsInOrder cores.new bus.new }
    ensures err { OnErr result ((cores.new ≡ cores.old) × (bus.new ≡ bus.old)) }
    ensures why { RefusedBy cores.old core result }
    ensures left { Lessens result cores.old cores.new }
{
    let place = core as usize;
    if place >= cores.len() {
        return Err(Refused::NoSuchCore);
    }
    if cores[place].stop().is_some() {
        return Err(Refused::CoreStopped);
    }
    turn_at(cores, place, bus);
    Ok(())
}

// One turn of a core that runs.
fn turn_core(core: &mut Core, bus: &mut Bus)
    requires running { core.old.stop ≡ None }
    requires known { core.old.number < bus.old.cores }
    requires spare { 0 < bus.old.spare }
    ensures turned { IsCoreTurned core.old bus.old core.new bus.new }
{
    let _ = core.stop();
    core.turn(bus);
}

// One turn of the core at a place, which runs.
#[tactic(auto, using(crate::proofs::Turning::turning))]
pub(crate) fn turn_at(cores: &mut [Core], place: usize, bus: &mut Bus)
    requires order { IsInOrder cores.old bus.old }
    requires runs { RunsAt cores.old place }
    ensures turned { TurnsAt cores.old bus.old place cores.new bus.new }
    ensures order { IsInOrder cores.new bus.new }
    ensures left { steps_left cores.new < steps_left cores.old }
    ensures access { TellsAccess cores.old bus.old place bus.new }
{
    let _ = cores[place].stop();
    turn_core(&mut cores[place], bus);
}
