//! Turns that pause inside, as at a breakpoint.
ghost use Rattle.std.specs.Prelude.{◌≡◌, ◌<◌, ◌+◌, ℕ, true, false, None};
ghost use Rattle.or_words.specs.declared.limits.TheConstants.{MOST_PRIVATE_STEPS};
ghost use Rattle.or_model.specs.Core.{Core as CoreModel};
ghost use Rattle.or_model.specs.Counts.{SameSettings};
ghost use Rattle.or_model.specs.Turn.{Board as BoardModel};
ghost use Rattle.or_replay.specs.Board.{IsInOrder};
ghost use Rattle.or_replay.specs.Stepping.{is_hit, hits_any, is_core_of, is_most, is_pause, step_pause, IsInside, IsPaused, Follows, steps_ahead, IsCoreUntil, KeepsOrder, HasBegun, IsTurnedUntil};

use crate::board::Board;
use or_bus::{Access, Bus};
use or_core::{Core, Private};
use or_words::limits::MOST_PRIVATE_STEPS;

/// It is hit where a step of the core, or of any core where none is given, leaves its pc here.
#[derive(Clone, Copy, Debug, PartialEq, Eq)]
pub struct Breakpoint {
    pub core: Option<u32>,
    pub pc: u32,
}

/// Where a turn was left.
#[derive(Clone, Copy, Debug, PartialEq, Eq)]
pub enum Until {
    /// Inside it, behind so many of its steps, 1 to 255.
    Inside { steps: u32 },
    /// At its end. It made this access to RAM, or none.
    Ended { access: Option<Access> },
}

/// What the private steps of a turn came to.
#[derive(Clone, Copy)]
enum Pause {
    // A pause, behind so many steps.
    Behind { steps: u32 },
    // Their end; the flag says whether a step on the bus follows.
    Begun { follows: bool },
}

impl Breakpoint {
    /// Whether a step of a core that leaves its pc there hits the breakpoint.
    pub fn is_hit(&self, core: u32, pc: u32) -> bool
        ensures { result ≡ is_hit core pc self.now }
    {
        pc == self.pc && is_core_of(self.core, core)
    }
}

// Whether a core's number is this one, where one is given.
fn is_core_of(point: Option<u32>, core: u32) -> bool
    ensures { result ≡ is_core_of point core }
{
    match point {
        None => true,
        Some(other) => core == other,
    }
}

// Whether a step of a core that leaves its pc here hits one of the breakpoints.
fn hits_any(points: &[Breakpoint], core: u32, pc: u32) -> bool
    ensures { result ≡ hits_any points.now core pc }
{
    points.iter().any(|point| point.is_hit(core, pc))
}

// Whether a turn pauses behind this step in any case.
fn is_most(most: Option<u32>, step: u32) -> bool
    ensures { result ≡ is_most most step }
{
    match most {
        None => false,
        Some(most) => step == most,
    }
}

// Whether a turn of which so many steps are made goes on, and pauses behind the last of them.
#[tactic(auto, using(crate::proofs::BegunTurns::passed))]
fn pauses(core: &Core, number: u32, steps: u32, points: &[Breakpoint], most: Option<u32>) -> bool
    ensures pauses { result ≡ true → (steps < MOST_PRIVATE_STEPS) × ((core.now.stop ≡ None) × (is_pause points.now most number steps core.now.pc ≡ true)) }
    ensures passes { result ≡ false → (first : CoreModel) → (made : ℕ) → steps ≡ made + 1 → IsInside first steps core.now
        → step_pause points.now most number first made ≡ step_pause points.now most number first steps }
{
    steps < MOST_PRIVATE_STEPS
        && core.stop().is_none()
        && (is_most(most, steps) || hits_any(points, number, core.place().pc))
}

// Makes the private steps that are left of a turn, up to the first that pauses it and is not the turn's last.
fn begin_until(
    core: &mut Core,
    number: u32,
    steps: u32,
    points: &[Breakpoint],
    most: Option<u32>,
) -> Pause
    requires running { core.old.stop ≡ None }
    requires few { steps < MOST_PRIVATE_STEPS }
    ensures paused { (first : CoreModel) → IsInside first steps core.old → IsPaused points.now most number first steps result core.new }
    ensures follows { Follows result → core.new.stop ≡ None }
    ensures settings { SameSettings core.old core.new }
    ensures progress { core.old.steps < core.new.steps + steps_ahead result }
{
    for made in steps..MOST_PRIVATE_STEPS {
        match core.try_private() {
            Private::Stepped => {
                if pauses(core, number, made + 1, points, most) {
                    return Pause::Behind { steps: made + 1 };
                }
            }
            Private::NeedsBus => return Pause::Begun { follows: true },
            Private::Stopped => return Pause::Begun { follows: false },
        }
    }
    Pause::Begun { follows: false }
}

// Makes the steps that are left of a turn, up to the first that pauses it and is not the turn's last.
#[tactic(auto, using(crate::proofs::BegunTurns::fewer_steps), unfolding(or_model::specs::Turn::turn, or_core::specs::Access::turn_access))]
fn until_core(
    core: &mut Core,
    number: u32,
    steps: u32,
    points: &[Breakpoint],
    most: Option<u32>,
    bus: &mut Bus,
) -> Until
    requires running { core.old.stop ≡ None }
    requires few { steps < MOST_PRIVATE_STEPS }
    requires known { core.old.number < bus.old.cores }
    requires spare { 0 < bus.old.spare }
    requires forgotten { bus.old.last ≡ None }
    ensures until { (first : CoreModel) → IsInside first steps core.old → IsCoreUntil points.now most number first steps result bus.old core.new bus.new }
    ensures order { KeepsOrder core.old bus.old core.new bus.new }
{
    let _ = core.stop();
    match begin_until(core, number, steps, points, most) {
        Pause::Behind { steps } => Until::Inside { steps },
        Pause::Begun { follows } => {
            core.end_turn(bus, follows);
            Until::Ended { access: bus.last() }
        }
    }
}

// The same for the core of this number among these.
#[tactic(auto, unfolding(crate::specs::Stepping::board_step_pause, or_model::specs::Turn::board_turned))]
fn until_at(
    cores: &mut [Core],
    core: u8,
    steps: u32,
    points: &[Breakpoint],
    most: Option<u32>,
    bus: &mut Bus,
) -> Until
    requires order { IsInOrder cores.old bus.old }
    ensures until { (before : BoardModel) → HasBegun before core steps cores.old bus.old → IsTurnedUntil points.now most before core steps result cores.new bus.new }
    ensures order { IsInOrder cores.new bus.new }
{
    let place = core as usize;
    if place >= cores.len() || steps >= MOST_PRIVATE_STEPS || cores[place].stop().is_some() {
        return Until::Ended { access: None };
    }
    bus.forget();
    until_core(&mut cores[place], core as u32, steps, points, most, bus)
}

impl Board {
    /// Makes the rest of a turn of a core, of which so many steps are made, or pauses inside it: behind the first further
    /// step that is not the turn's last and hits one of the breakpoints, or is the turn's step of the number `most`. Where the
    /// turn has ended, it answers the turn's access to RAM.
    pub fn turn_until(
        &mut self,
        core: u8,
        steps: u32,
        points: &[Breakpoint],
        most: Option<u32>,
    ) -> Until
        ensures until { (before : BoardModel) → HasBegun before core steps self.old.cores self.old.bus
            → IsTurnedUntil points.now most before core steps result self.new.cores self.new.bus }
        ensures config { self.new.config ≡ self.old.config }
    {
        until_at(
            self.cores.as_mut_slice(),
            core,
            steps,
            points,
            most,
            &mut self.bus,
        )
    }
}
