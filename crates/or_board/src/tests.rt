ghost use Rattle.std.specs.Prelude.{◌≡◌, ◌≤◌, ◌+◌, ◌/◌, IfOk, length};
ghost use Rattle.or_words.specs.declared.limits.TheConstants.{IMAGE_LIMIT};
ghost use Rattle.or_words.specs.Settings.{Fits};
ghost use Rattle.or_replay.specs.Board.{AreOfBus};
ghost use Rattle.or_turn.specs.Units.{settings_in, id_of};
ghost use Rattle.or_board.specs.Works.{Starts, Worked};

use crate::workers::work_unit;
use crate::{Gate, OpenGate, run};
use or_core::Stop;
use or_replay::{Board, report};
use or_turn::{Closed, Shared, TurnUnit};
use or_words::Config;
use std::alloc::Global;
use std::sync::Wait;
use std::sync::atomic::{AtomicU64, Ordering};
use std::test::Fail;
use std::thread::{Threads, join};

// The headers of an ELF file with 60 bytes at 00000100.
const HEADERS: [u32; 21] = [
    0x7F45_4C46,
    0x0102_0100,
    0,
    0,
    0x0002_005C,
    1,
    0x100,
    0x34,
    0,
    0,
    0x0034_0020,
    0x0001_0000,
    0,
    1,
    0x54,
    0x100,
    0x100,
    0x3C,
    0x3C,
    7,
    4,
];

// l.ori r3,r0,0 and l.nop 1: a core stops at once.
const STOP: [u32; 15] = [
    0xA860_0000,
    0x1500_0001,
    0,
    0,
    0,
    0,
    0,
    0,
    0,
    0,
    0,
    0,
    0,
    0,
    0,
];

// Each core adds 1 to a word twenty times, by l.lwa and l.swa, then writes the sum to the console and stops.
const ADD: [u32; 15] = [
    0x1860_0000,
    0x9C60_0400,
    0x9CA0_0014,
    0x6C83_0000,
    0x9C84_0001,
    0xCC03_2000,
    0x0FFF_FFFD,
    0x1500_0000,
    0x9CA5_FFFF,
    0xBC25_0000,
    0x13FF_FFF9,
    0x1500_0000,
    0x18E0_9000,
    0xD807_2000,
    0x1500_0001,
];

// The file of a program.
fn file(alloc: Global, program: &[u32; 15]) -> Result<Vec<u8>, Fail> {
    let mut bytes = Vec::new(alloc);
    for word in &HEADERS {
        bytes.extend_from_slice(&word.to_be_bytes())?;
    }
    for word in program {
        bytes.extend_from_slice(&word.to_be_bytes())?;
    }
    Ok(bytes)
}

fn board_of(cores: u32) -> Config
    requires { (1 ≤ cores) × (cores ≤ 8) }
    ensures { Fits result × (result.cores ≡ cores) }
{
    Config {
        cores,
        budget: 100_000,
        ram: 1,
        latched: false,
    }
}

// The report and the console of a run, and those of a board that follows its schedule.
fn both_ends(
    alloc: Global,
    config: &Config,
    image: &[u8],
    closed: Closed,
) -> Result<[Vec<u8>; 4], Fail>
    requires fits { Fits config.now }
    requires limit { length image.now ≤ IMAGE_LIMIT }
    requires order { AreOfBus closed.cores.items closed.bus }
    requires marks { length closed.marks.items ≡ length closed.schedule.items / 65536 }
{
    let Closed {
        cores,
        bus,
        schedule,
        marks,
    } = closed;
    let turns = schedule.len() as u64;
    let mut text = Vec::new(alloc);
    let console = report(cores.as_slice(), bus, turns, &mut text)?;
    let Ok(mut board) = Board::open(alloc, config, image, Vec::new(alloc)) else {
        return Err("opening".into());
    };
    if board.follow(&schedule, &marks).is_err() {
        return Err("the schedule is refused".into());
    }
    let (cores, bus) = board.into_parts();
    let mut again = Vec::new(alloc);
    let shown = report(cores.as_slice(), bus, turns, &mut again)?;
    Ok([text, console, again, shown])
}

// Makes turns of a unit until its core has stopped.
fn until_stop<R: Wait>(rt: &R, shared: &Shared, mut unit: TurnUnit, number: u32) -> TurnUnit
    requires fits { Fits (settings_in shared.now).config }
    requires starts { Starts (id_of shared.now) (settings_in shared.now) number unit }
    ensures { Worked (id_of shared.now) (settings_in shared.now) number result }
{
    let _ = number;
    work_unit(rt, shared, &mut unit, 1, &OpenGate);
    unit
}

// Two callers make turns of their units, each on a thread of its own, then join and close.
fn two_callers<R: Threads + Wait + Sync>(
    rt: &R,
    alloc: Global,
    config: &Config,
    image: &[u8],
) -> Result<Closed, Fail>
    requires fits { Fits config.now }
    requires two { config.now.cores ≡ 2 }
    requires limit { length image.now ≤ IMAGE_LIMIT }
    ensures order { IfOk result (λ closed. AreOfBus closed.cores.items closed.bus) }
    ensures marks { IfOk result (λ closed. length closed.marks.items ≡ length closed.schedule.items / 65536) }
{
    let Ok((shared, mut units)) = Shared::open(alloc, config, image, Vec::new(alloc)) else {
        return Err("opening".into());
    };
    let second = units.pop().unwrap();
    let first = units.pop().unwrap();
    let (first, mut last) = join(
        rt,
        || -> TurnUnit
            requires { Fits (settings_in shared).config × Starts (id_of shared) (settings_in shared) 0 first }
            ensures { Worked (id_of shared) (settings_in shared) 0 result }
        { until_stop(rt, &shared, first, 0) },
        || -> TurnUnit
            requires { Fits (settings_in shared).config × Starts (id_of shared) (settings_in shared) 1 second }
            ensures { Worked (id_of shared) (settings_in shared) 1 result }
        { until_stop(rt, &shared, second, 1) },
    );
    shared.join(&mut last, first);
    Ok(shared.close(last))
}

#[test]
fn two_callers_make_turns(rt: HostRuntime) -> Result<(), Fail> {
    let image = file(rt.alloc(), &ADD)?;
    let config = board_of(2);
    assert!(rt; image.len() == 144, "the image");
    let closed = two_callers(&rt, rt.alloc(), &config, &image)?;
    let [text, console, again, shown] = both_ends(rt.alloc(), &config, &image, closed)?;
    assert_eq!(rt; text, again, "the reports of run and replay");
    assert_eq!(rt; console, shown, "the consoles of run and replay");
    assert!(rt;
        console.len() == 2 && console.contains(&40),
        "the sum on the console"
    );
    Ok(())
}

// Each core's first pass waits a long time for the other core's.
#[derive(Drop)]
struct Meeting {
    here: [AtomicU64; 2],
    missed: AtomicU64,
}

impl Gate for Meeting {
    fn pass(&self, core: u32, turn: u64) {
        if turn != 0 || core > 1 {
            return;
        }
        self.here[core as usize].store(1, Ordering::SeqCst);
        for _ in 0..100_000_000 {
            if self.here[1 - core as usize].load(Ordering::SeqCst) == 1 {
                return;
            }
        }
        self.missed.store(1, Ordering::SeqCst);
    }

    fn single_turns(&self) -> bool {
        true
    }
}

#[test]
fn two_cores_meet_on_two_threads(rt: HostRuntime) -> Result<(), Fail> {
    let gate = Meeting {
        here: [AtomicU64::new(0), AtomicU64::new(0)],
        missed: AtomicU64::new(0),
    };
    let image = file(rt.alloc(), &STOP)?;
    assert!(rt; image.len() == 144, "the image");
    let Ok(closed) = run(
        &rt,
        rt.alloc(),
        &board_of(2),
        &image,
        Vec::new(rt.alloc()),
        256,
        &gate,
    ) else {
        return Err("opening".into());
    };
    assert_eq!(rt;
        gate.missed.load(Ordering::SeqCst),
        0,
        "threads that did not meet"
    );
    for core in closed.cores.as_slice() {
        assert_eq!(rt; core.stop(), Some(Stop::Exit(0)), "how a core stopped");
    }
    Ok(())
}

// The cores add up, the console says so, and a board that follows the schedule ends as the run did.
fn check_sums<R: Threads + Wait + Sync>(
    rt: &R,
    alloc: Global,
    cores: u32,
    stay: u32,
) -> Result<(), Fail>
    requires cores { (1 ≤ cores) × (cores ≤ 8) }
    requires stay { 1 ≤ stay }
{
    let image = file(alloc, &ADD)?;
    let config = board_of(cores);
    if image.len() != 144 {
        return Err("the file".into());
    }
    let Ok(closed) = run(rt, alloc, &config, &image, Vec::new(alloc), stay, &OpenGate) else {
        return Err("opening".into());
    };
    let [text, console, again, shown] = both_ends(alloc, &config, &image, closed)?;
    if text != again || console != shown {
        return Err("the board that follows ends otherwise".into());
    }
    if console.len() != cores as usize || !console.contains(&(20 * cores as u8)) {
        return Err("the sum".into());
    }
    Ok(())
}

#[test]
fn a_board_follows_the_schedule(rt: HostRuntime) -> Result<(), Fail> {
    check_sums(&rt, rt.alloc(), 4, 1)
}

#[test]
fn a_board_follows_a_schedule_of_stays(rt: HostRuntime) -> Result<(), Fail> {
    check_sums(&rt, rt.alloc(), 4, 256)
}

// A wake that is lost leaves a run waiting for ever.
#[test]
fn no_wake_is_lost(rt: HostRuntime) -> Result<(), Fail> {
    let image = file(rt.alloc(), &ADD)?;
    assert!(rt; image.len() == 144, "the image");
    for _ in 0..20 {
        for stay in [1, 16, 256] {
            let input = Vec::new(rt.alloc());
            let Ok(closed) = run(
                &rt,
                rt.alloc(),
                &board_of(8),
                &image,
                input,
                stay,
                &OpenGate,
            ) else {
                return Err("opening".into());
            };
            assert!(rt;
                closed.bus.console().contains(&160),
                "the sum, stays of {stay} turns"
            );
        }
    }
    Ok(())
}

// It counts how often it is passed.
#[derive(Drop)]
struct Counter {
    passes: AtomicU64,
}

impl Gate for Counter {
    fn pass(&self, _core: u32, _stay: u64) {
        self.passes.fetch_add(1, Ordering::SeqCst);
    }

    fn single_turns(&self) -> bool {
        true
    }
}

#[test]
fn a_gate_of_single_turns_is_passed_before_each(rt: HostRuntime) -> Result<(), Fail> {
    let gate = Counter {
        passes: AtomicU64::new(0),
    };
    let image = file(rt.alloc(), &ADD)?;
    assert!(rt; image.len() == 144, "the image");
    let Ok(closed) = run(
        &rt,
        rt.alloc(),
        &board_of(4),
        &image,
        Vec::new(rt.alloc()),
        256,
        &gate,
    ) else {
        return Err("opening".into());
    };
    assert_eq!(rt;
        gate.passes.load(Ordering::SeqCst),
        closed.schedule.len() as u64,
        "stays of a single turn"
    );
    Ok(())
}
