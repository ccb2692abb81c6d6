//! One worker for each core.
ghost use Rattle.std.specs.Prelude.{◌≡◌, ℕ, ◌<◌, ◌≤◌, length, None, IfOk, MatchResult, slice_index_or, vec_len};
ghost use Rattle.or_words.specs.Settings.{Fits, ram_bytes};
ghost use Rattle.or_words.specs.declared.limits.TheConstants.{IMAGE_LIMIT};
ghost use Rattle.or_elf.specs.Fault.{elf_fault};
ghost use Rattle.or_sched.specs.Schedule.{IsSchedule, AreMarks};
ghost use Rattle.or_replay.specs.Start.{start};
ghost use Rattle.or_replay.specs.Board.{AreOfBus};
ghost use Rattle.or_replay.specs.Opening.{FailsToOpen};
ghost use Rattle.or_turn.specs.Schedules.{first_board};
ghost use Rattle.or_turn.specs.SeatViews.{only_of};
ghost use Rattle.or_turn.specs.Units.{view, settings_in, id_of, AreOpened};
ghost use Rattle.or_board.specs.Works.{Starts, Worked, HasFrom, IsThreadedRun};

use crate::gate::Gate;
use or_replay::OpenFault;
use or_turn::{Closed, Shared, TurnUnit};
use or_words::Config;
use std::alloc::Global;
use std::sync::Wait;
use std::thread;
use std::thread::Threads;

/// So often tries who waits for the bus, before it sleeps, where each thread has a processor.
const LOOKS: u32 = 8000;

/// And so often where threads share a processor: trying for long takes the processor from the one that has the bus.
const FEW_LOOKS: u32 = 300;

// The most turns of a stay that passes this gate.
fn most_turns<G: Gate>(stay: u32, gate: &G) -> u32
    requires { 1 ≤ stay }
    ensures { (1 ≤ result) × (result ≤ stay) }
{
    if gate.single_turns() { 1 } else { stay }
}

// Works a unit's core until its stop.
pub(crate) fn work_unit<R: Wait, G: Gate>(
    rt: &R,
    shared: &Shared,
    unit: &mut TurnUnit,
    stay: u32,
    gate: &G,
)
    requires stay { 1 ≤ stay }
    requires fits { Fits (settings_in shared.now).config }
    requires starts { Starts (id_of shared.now) (settings_in shared.now) (only_of (view unit.old)) unit.old }
    ensures { Worked (id_of shared.now) (settings_in shared.now) (only_of (view unit.old)) unit.new }
{
    let number = unit.cores()[0].number();
    let most = most_turns(stay, gate);
    let mut stays = 0;
    while unit.cores()[0].stop().is_none() {
        gate.pass(number, stays);
        unit.begin();
        shared.turn(rt, unit, most);
        stays += 1;
    }
}

// Works each unit's core, on a thread of its own where one can be made, else on this one.
fn work_all<R: Threads + Wait + Sync, G: Gate + Sync>(
    rt: &R,
    shared: &Shared,
    units: &mut [TurnUnit],
    stay: u32,
    gate: &G,
)
    requires stay { 1 ≤ stay }
    requires fits { Fits (settings_in shared.now).config }
    requires starts { (n : ℕ) (d : _) → n < length units.old → Starts (id_of shared.now) (settings_in shared.now) n (slice_index_or units.old n d) }
    ensures { (n : ℕ) (d : _) → n < length units.old → Worked (id_of shared.now) (settings_in shared.now) n (slice_index_or units.new n d) }
{
    let threads = units.len().max(1);
    let one = |number: usize, unit: &mut TurnUnit|
        requires { (1 ≤ stay) × Fits (settings_in shared.now).config × Starts (id_of shared.now) (settings_in shared.now) number unit.now }
        ensures { Worked (id_of shared.entry.now) (settings_in shared.entry.now) number unit.exit.now }
    { work_unit(rt, shared, unit, stay, gate) };
    thread::for_each_mut(rt, units, threads, &one);
}

// Puts all units together.
fn join_all(shared: &Shared, mut units: Vec<TurnUnit>) -> TurnUnit
    requires some { (0 < vec_len units) × (vec_len units ≡ (settings_in shared.now).config.cores) }
    requires worked { (n : ℕ) (d : _) → n < vec_len units → Worked (id_of shared.now) (settings_in shared.now) n (slice_index_or units.items n d) }
    ensures { HasFrom (id_of shared.now) (settings_in shared.now) 0 result }
{
    let mut last = units.pop().unwrap();
    while let Some(unit) = units.pop() {
        shared.join(&mut last, unit);
    }
    last
}

// How often who waits for the bus tries to take it before it sleeps.
fn looks_for<R: Threads>(rt: &R, threads: usize) -> u32 {
    match thread::available_parallelism(rt) {
        Ok(processors) => {
            if processors.get() >= threads {
                LOOKS
            } else {
                FEW_LOOKS
            }
        }
        Err(_) => FEW_LOOKS,
    }
}

/// Works every core until it stops, each on a thread of its own where one can be made, joins all units and closes. A stay at
/// the bus has at most `stay` turns, at least 1; the gate is passed before each stay. The units are those that the opening of
/// `shared` answered. It waits; it takes no memory.
pub fn work<R: Threads + Wait + Sync, G: Gate + Sync>(
    rt: &R,
    mut shared: Shared,
    mut units: Vec<TurnUnit>,
    stay: u32,
    gate: &G,
) -> Closed
    requires stay { 1 ≤ stay }
    requires fits { Fits (settings_in shared).config }
    requires opened { AreOpened (settings_in shared) shared units }
    ensures run { IsThreadedRun (first_board (settings_in shared)) result }
    ensures schedule { IsSchedule (settings_in shared).config result.schedule.items }
    ensures marks { AreMarks result.schedule.items result.marks.items }
    ensures order { AreOfBus result.cores.items result.bus }
{
    shared.set_looks(looks_for(rt, units.len()));
    work_all(rt, &shared, units.as_mut_slice(), stay, gate);
    let last = join_all(&shared, units);
    shared.close(last)
}

/// Opens a board with these settings over an image, with the input for its console, and works every core until it stops.
/// The image has at most 64 MiB. A stay at the bus has at most `stay` turns, at least 1. It waits.
///
/// Errors: Elf exactly where the image has this fault, which is found before memory is taken; NoMemory.
pub fn run<R: Threads + Wait + Sync, G: Gate + Sync>(
    rt: &R,
    alloc: Global,
    config: &Config,
    image: &[u8],
    input: Vec<u8>,
    stay: u32,
    gate: &G,
) -> Result<Closed, OpenFault>
    requires stay { 1 ≤ stay }
    requires fits { Fits config.now }
    requires limit { length image.now ≤ IMAGE_LIMIT }
    ensures run { MatchResult result
        (λ closed. (elf_fault image.now (ram_bytes config.now) ≡ None) × IsThreadedRun (start config.now image.now input.items) closed)
        (λ fault. FailsToOpen image.now (ram_bytes config.now) fault) }
    ensures schedule { IfOk result (λ closed. IsSchedule config.now closed.schedule.items) }
    ensures marks { IfOk result (λ closed. AreMarks closed.schedule.items closed.marks.items) }
    ensures order { IfOk result (λ closed. AreOfBus closed.cores.items closed.bus) }
{
    match Shared::open(alloc, config, image, input) {
        Ok((shared, units)) => Ok(work(rt, shared, units, stay, gate)),
        Err(fault) => Err(fault),
    }
}
