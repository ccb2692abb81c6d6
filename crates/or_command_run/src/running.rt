//! The command `run`.
ghost use Rattle.std.specs.Prelude.{◌≡◌, ◌≤◌, None, IfOk, MatchResult, length};
ghost use Rattle.or_sched.specs.Schedule.{IsSchedule, AreMarks};
ghost use Rattle.or_model.specs.Turn.{Board as BoardModel};
ghost use Rattle.or_replay.specs.Board.{AreOfBus};
ghost use Rattle.or_board.specs.Works.{IsThreadedRun};
ghost use Rattle.or_words.specs.Settings.{Fits, ram_bytes};
ghost use Rattle.or_words.specs.declared.limits.TheConstants.{IMAGE_LIMIT};
ghost use Rattle.or_elf.specs.Fault.{elf_fault};
ghost use Rattle.or_command_line.specs.Names.{run_names, AreWritten};
ghost use Rattle.or_command_line.specs.Settings.{FitsStay};
ghost use Rattle.or_command.specs.Leaves.{Silent};
ghost use Rattle.or_command.specs.Ends.{end_of};
ghost use Rattle.or_command.specs.Outcomes.{CommandOutcome};
ghost use Rattle.or_command.specs.Loads.{bytes_of};
ghost use Rattle.or_command_image.specs.Loaded.{image_in as image_of};
ghost use Rattle.or_command_image.specs.Written.{written_files};
ghost use Rattle.or_command.specs.Finishing.{WriteEnds, IfNoMemory};
ghost use Rattle.or_command.specs.Answered.{FinishEnds};
ghost use Rattle.or_replay.specs.Opening.{FailsToOpen};
ghost use Rattle.or_command_run.specs.Run.{run_loads, run_check, IsRun, IsRunFrom, RunWrites, RunLacks, run_status};

use crate::budgets::budget_lines;
use or_board::Gate;
use or_command::{LoadStop, Loaded, Outcome};
use or_command_image::{
    head, image_in, input_for_board, input_in, load_image, recording_if, refused, report_if,
    write_recorded,
};
use or_command_line::Run;
use or_host::Host;
use or_replay::{OpenFault, has_failed};
use or_sched::Head;
use or_turn::Closed;
use or_words::NoMemory;
use std::alloc::Global;
use std::sync::Wait;
use std::thread::Threads;

/// How a run ended.
#[derive(Drop)]
pub struct RunEnd<'a> {
    pub outcome: Outcome<'a>,
    /// Whether a core failed: it stopped by its budget, or with an exit value that is not 0.
    pub failed: bool,
    /// The lines of the cores that used up their budget, which are said where all was done.
    pub lines: Vec<u8>,
}

// What a run writes, whether a core failed, and the lines of those that used up their budget.
#[derive(Drop)]
struct RunTexts {
    recording: Vec<u8>,
    report: Vec<u8>,
    console: Vec<u8>,
    failed: bool,
    lines: Vec<u8>,
}

/// The exit status of a run that ended with this one: 15 in place of 0 where a core failed and that is asked for.
pub fn run_status(asked: bool, failed: bool, status: u8) -> u8
    ensures { result ≡ run_status asked failed status }
{
    if asked && failed && status == 0 {
        15
    } else {
        status
    }
}

// The texts of a run that has come to its end.
#[tactic(auto, using(crate::proofs::Runs::runs))]
fn texts(
    alloc: Global,
    words: &Run<'_>,
    head: &Head,
    image: &[u8],
    closed: Closed,
) -> Result<RunTexts, NoMemory>
    requires fits { Fits head.now.config }
    requires limit { length image.now ≤ IMAGE_LIMIT }
    requires sound { elf_fault image.now (ram_bytes head.now.config) ≡ None }
    requires schedule { IsSchedule head.now.config closed.schedule.items }
    requires marks { AreMarks closed.schedule.items closed.marks.items }
    requires order { AreOfBus closed.cores.items closed.bus }
    ensures { IfOk result (λ texts. (start : BoardModel) → IsThreadedRun start closed
        → IsRunFrom (run_names words.now) start head.now image.now texts.recording.items texts.report.items texts.console.items texts.failed texts.lines.items) }
{
    let Closed {
        cores,
        bus,
        schedule,
        marks,
    } = closed;
    let recording = recording_if(alloc, words.schedule, head, &schedule, &marks)?;
    let failed = has_failed(cores.as_slice());
    let lines = budget_lines(alloc, image, head.config.budget, cores.as_slice())?;
    let turns = schedule.len() as u64;
    let told = report_if(alloc, words.report, cores.as_slice(), bus, turns)?;
    Ok(RunTexts {
        recording,
        report: told.report,
        console: told.console,
        failed,
        lines,
    })
}

// Runs the image with the input, and makes the texts.
#[tactic(auto, unfolding(or_command_image::specs::Opened::head_of))]
fn make<R: Threads + Wait + Sync, G: Gate + Sync>(
    rt: &R,
    alloc: Global,
    words: &Run<'_>,
    image: &[u8],
    input: &[u8],
    gate: &G,
) -> Result<RunTexts, OpenFault>
    requires fits { Fits words.now.options.config }
    requires stay { FitsStay words.now.options.stay }
    requires limit { length image.now ≤ IMAGE_LIMIT }
    ensures run { MatchResult result
        (λ texts. (elf_fault image.now (ram_bytes words.now.options.config) ≡ None) × IsRun (run_names words.now) words.now.options.config image.now input.now texts.recording.items texts.report.items texts.console.items texts.failed texts.lines.items)
        (λ fault. FailsToOpen image.now (ram_bytes words.now.options.config) fault) }
{
    let config = &words.options.config;
    let bytes = match input_for_board(alloc, config, image, input) {
        Ok(bytes) => bytes,
        Err(fault) => return Err(fault),
    };
    match or_board::run(rt, alloc, config, image, bytes, words.options.stay, gate) {
        Ok(closed) => match texts(alloc, words, &head(config, image, input), image, closed) {
            Ok(texts) => Ok(texts),
            Err(_) => Err(OpenFault::NoMemory),
        },
        Err(fault) => Err(fault),
    }
}

// How a run on files that were loaded ends.
fn finish<'a, R: Threads + Wait + Sync, H: Host, G: Gate + Sync>(
    rt: &R,
    alloc: Global,
    words: &Run<'a>,
    files: &[Vec<u8>],
    host: &mut H,
    gate: &G,
) -> RunEnd<'a>
    requires names { AreWritten (run_names words.now) }
    requires fits { Fits words.now.options.config }
    requires stay { FitsStay words.now.options.stay }
    requires limit { length (image_of (bytes_of files.now)) ≤ IMAGE_LIMIT }
    ensures outcome { FinishEnds (run_check (run_names words.now) words.now.options.config) (RunWrites (run_names words.now) words.now.options.config result.failed result.lines.items) (bytes_of files.now) (end_of result.outcome) (H.state host.old) (H.state host.new) }
    ensures passed { IfNoMemory (end_of result.outcome) (run_check (run_names words.now) words.now.options.config (bytes_of files.now) ≡ None) }
    ensures silent { Silent (H.state host.old) (H.state host.new) }
{
    match make(rt, alloc, words, image_in(files), input_in(files), gate) {
        Ok(texts) => {
            let outcome = write(words, &texts, host);
            RunEnd {
                outcome,
                failed: texts.failed,
                lines: texts.lines,
            }
        }
        Err(fault) => RunEnd {
            outcome: refused(words.image, fault),
            failed: false,
            lines: Vec::new(alloc),
        },
    }
}

// Writes the texts.
fn write<'a, H: Host>(words: &Run<'a>, texts: &RunTexts, host: &mut H) -> Outcome<'a>
    requires names { AreWritten (run_names words.now) }
    ensures outcome { WriteEnds (written_files words.now.schedule.now texts.now.recording.items words.now.report.now texts.now.report.items)
        texts.now.console.items (end_of result) (H.state host.old) (H.state host.new) }
    ensures silent { Silent (H.state host.old) (H.state host.new) }
{
    write_recorded(
        words.schedule,
        words.report,
        texts.recording.as_slice(),
        texts.report.as_slice(),
        texts.console.as_slice(),
        host,
    )
}

/// Runs an image: loads it and the input, works each core on a thread of its own until it has stopped, with at most as many
/// turns in one stay at the bus as the options say, and writes the recording, the report and the console.
pub fn run<'a, R: Threads + Wait + Sync, H: Host, G: Gate + Sync>(
    rt: &R,
    alloc: Global,
    words: &Run<'a>,
    host: &mut H,
    gate: &G,
) -> RunEnd<'a>
    requires names { AreWritten (run_names words.now) }
    requires fits { Fits words.now.options.config }
    requires stay { FitsStay words.now.options.stay }
    ensures outcome { CommandOutcome (run_loads (run_names words.now)) (run_check (run_names words.now) words.now.options.config) (RunWrites (run_names words.now) words.now.options.config result.failed result.lines.items) (RunLacks (run_names words.now) words.now.options.config)
        (end_of result.outcome) (H.state host.old) (H.state host.new) }
    ensures silent { Silent (H.state host.old) (H.state host.new) }
{
    let mut files = Loaded::new_in(alloc);
    match load_image(alloc, host, words.image, words.input, &mut files) {
        Ok(()) => finish(rt, alloc, words, files.as_slice(), host, gate),
        Err(LoadStop::Unread(name)) => RunEnd {
            outcome: Outcome::Unread(name),
            failed: false,
            lines: Vec::new(alloc),
        },
        Err(LoadStop::TooLong(name, limit)) => RunEnd {
            outcome: Outcome::TooLong(name, limit),
            failed: false,
            lines: Vec::new(alloc),
        },
        Err(LoadStop::NoMemory) => RunEnd {
            outcome: Outcome::NoMemory,
            failed: false,
            lines: Vec::new(alloc),
        },
    }
}
