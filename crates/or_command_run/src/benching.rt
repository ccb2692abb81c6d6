//! The command `bench`.
ghost use Rattle.std.specs.Prelude.{false, ◌≡◌, ◌≤◌, ◌++◌, [], ◌∷◌, None, List, Result, IfOk, MatchResult, OnOk, codes, decimal, length};
ghost use Rattle.or_sched.specs.Schedule.{IsSchedule, AreMarks};
ghost use Rattle.or_model.specs.Turn.{Board as BoardModel};
ghost use Rattle.or_replay.specs.Start.{start};
ghost use Rattle.or_board.specs.Works.{IsThreadedRun};
ghost use Rattle.or_words.specs.Settings.{Fits, ram_bytes};
ghost use Rattle.or_words.specs.declared.limits.TheConstants.{IMAGE_LIMIT};
ghost use Rattle.or_elf.specs.Fault.{elf_fault};
ghost use Rattle.or_command_line.specs.Words.{IsFileName};
ghost use Rattle.or_command_line.specs.Settings.{FitsStay};
ghost use Rattle.or_command_line.specs.Workloads.{FitsWorkload};
ghost use Rattle.or_command.specs.Leaves.{Silent};
ghost use Rattle.or_command.specs.Ends.{end_of};
ghost use Rattle.or_command.specs.Outcomes.{CommandOutcome, LeavesAll};
ghost use Rattle.or_command.specs.Finishing.{WriteEnds};
ghost use Rattle.or_command.specs.Answered.{FinishEnds, StopsInCheck};
ghost use Rattle.or_elf.specs.Text.{Piece};
ghost use Rattle.or_asm.specs.Source.{SourceFault, source_of, Refuses};
ghost use Rattle.or_command_source.specs.Assembly.{IsFileOf};
ghost use Rattle.or_replay.specs.Opening.{FailsToOpen};
ghost use Rattle.or_command_image.specs.Opened.{head_of};
ghost use Rattle.or_command_run.specs.Bench.{bench_loads, bench_check, bench_config, bench_source, bench_text, workload_check, IsBenchFrom, BenchWrites};

use or_asm::AsmFault;
use or_board::Gate;
use or_command::{Outcome, Output, Refusal, write_outputs};
use or_command_image::{head, refused};
use or_command_line::Workload;
use or_command_source::program_file;
use or_gen::program;
use or_host::Host;
use or_replay::OpenFault;
use or_sched::Head;
use or_text::{Sentence, append_decimal};
use or_turn::Closed;
use or_words::{Config, NoMemory};
use std::alloc::{AllocError, Global};
use std::sync::Wait;
use std::thread::Threads;

// What stands in place of a file's name where a check fails.
const NAME: &str = "workload";

/// Outlasts the rounds of every workload.
pub const BUDGET: u32 = 10_000_000;

// What a bench writes.
#[derive(Drop)]
struct BenchTexts {
    recording: Vec<u8>,
    told: Vec<u8>,
}

// The settings that a workload runs with.
#[tactic(auto, unfolding(crate::specs::Bench::bench_config))]
fn config(workload: &Workload) -> Config
    requires numbers { FitsWorkload workload.now }
    ensures value { result ≡ bench_config workload.now }
    ensures fits { Fits result }
{
    Config {
        cores: workload.cores,
        budget: BUDGET,
        ram: 1,
        latched: false,
    }
}

// Appends the text that tells of a bench.
#[tactic(auto, unfolding(crate::specs::Bench::bench_text))]
fn append_told(workload: &Workload, console: &[u8], out: &mut Vec<u8>) -> Result<(), AllocError>
    ensures { OnOk result (out.new.items ≡ out.old.items ++ bench_text workload.now console.now) }
{
    out.extend_from_slice(b"bench ")?;
    append_decimal(u64::from(workload.seed), out)?;
    out.extend_from_slice(b" ")?;
    append_decimal(u64::from(workload.cores), out)?;
    out.extend_from_slice(b" ")?;
    append_decimal(u64::from(workload.rounds), out)?;
    out.extend_from_slice(b"\nrun ")?;
    out.extend_from_slice(console)
}

// The texts of a run that has come to its end.
fn texts(
    alloc: Global,
    head: &Head,
    workload: &Workload,
    closed: &Closed,
) -> Result<BenchTexts, NoMemory>
    requires fits { Fits head.now.config }
    requires schedule { IsSchedule head.now.config closed.now.schedule.items }
    requires marks { AreMarks closed.now.schedule.items closed.now.marks.items }
    ensures { IfOk result (λ texts. (start : BoardModel) → IsThreadedRun start closed.now
        → IsBenchFrom start head.now workload.now texts.recording.items texts.told.items) }
{
    let mut recording = Vec::new(alloc);
    or_sched::write(head, &closed.schedule, &closed.marks, &mut recording)?;
    let mut told = Vec::new(alloc);
    match append_told(workload, closed.bus.console(), &mut told) {
        Ok(()) => Ok(BenchTexts { recording, told }),
        Err(_) => Err(NoMemory),
    }
}

// Runs the image of a workload, and makes the texts.
#[tactic(auto, unfolding(or_command_image::specs::Opened::head_of))]
fn make<R: Threads + Wait + Sync, G: Gate + Sync>(
    rt: &R,
    alloc: Global,
    workload: &Workload,
    stay: u32,
    image: &[u8],
    gate: &G,
) -> Result<BenchTexts, OpenFault>
    requires numbers { FitsWorkload workload.now }
    requires stay { FitsStay stay }
    requires limit { length image.now ≤ IMAGE_LIMIT }
    ensures run { MatchResult result
        (λ texts. (elf_fault image.now (ram_bytes (bench_config workload.now)) ≡ None) × IsBenchFrom (start (bench_config workload.now) image.now []) (head_of (bench_config workload.now) image.now []) workload.now texts.recording.items texts.told.items)
        (λ fault. FailsToOpen image.now (ram_bytes (bench_config workload.now)) fault) }
{
    let config = config(workload);
    match or_board::run(rt, alloc, &config, image, Vec::new(alloc), stay, gate) {
        Ok(closed) => match texts(alloc, &head(&config, image, b""), workload, &closed) {
            Ok(texts) => Ok(texts),
            Err(_) => Err(OpenFault::NoMemory),
        },
        Err(fault) => Err(fault),
    }
}

// Writes the texts.
fn write<'a, H: Host>(schedule: &'a str, texts: &BenchTexts, host: &mut H) -> Outcome<'a>
    requires name { IsFileName schedule.now }
    ensures outcome { WriteEnds (record { name = schedule.now; text = texts.now.recording.items } ∷ []) texts.now.told.items (end_of result) (H.state host.old) (H.state host.new) }
    ensures silent { Silent (H.state host.old) (H.state host.new) }
{
    let recording = Output {
        name: schedule,
        text: texts.recording.as_slice(),
    };
    write_outputs(host, &[recording], texts.told.as_slice())
}

// How a bench of this image of the workload ends.
fn finish<'a, R: Threads + Wait + Sync, H: Host, G: Gate + Sync>(
    rt: &R,
    alloc: Global,
    workload: &Workload,
    schedule: &'a str,
    stay: u32,
    image: &[u8],
    host: &mut H,
    gate: &G,
) -> Outcome<'a>
    requires numbers { FitsWorkload workload.now }
    requires name { IsFileName schedule.now }
    requires stay { FitsStay stay }
    requires image { IsFileOf false (bench_source workload.now) image.now }
    requires limit { length image.now ≤ IMAGE_LIMIT }
    ensures outcome { FinishEnds (bench_check workload.now) (BenchWrites workload.now schedule.now) [] (end_of result) (H.state host.old) (H.state host.new) }
    ensures silent { Silent (H.state host.old) (H.state host.new) }
{
    match make(rt, alloc, workload, stay, image, gate) {
        Ok(texts) => write(schedule, &texts, host),
        Err(fault) => refused(NAME, fault),
    }
}

// How a workload that has no program ends a bench.
fn refuse_workload(fault: AsmFault<'_>) -> Outcome<'static>
    ensures { (source : Result (List Piece) SourceFault) → Refuses fault.entry source → StopsInCheck (workload_check source) (end_of result) }
{
    match fault.line() {
        None => Outcome::NoMemory,
        Some(line) => Outcome::Refused(Refusal::Source {
            name: NAME,
            fault: fault.number(),
            line: u64::from(line),
            why: Sentence::plain(
                "the workload does not assemble, which is a fault of or1k: please report it",
            ),
        }),
    }
}

// The image of a workload: its source, assembled; or how a bench without one ends.
fn image(alloc: Global, workload: &Workload) -> Result<Vec<u8>, Outcome<'static>>
    requires numbers { FitsWorkload workload.now }
    ensures file { MatchResult result (λ image. IsFileOf false (bench_source workload.now) image.items) (λ outcome. StopsInCheck (workload_check (source_of (bench_source workload.now))) (end_of outcome)) }
    ensures limit { IfOk result (λ image. length image.items ≤ IMAGE_LIMIT) }
{
    let mut source = Vec::new(alloc);
    match program(workload.seed, workload.cores, workload.rounds, &mut source) {
        Ok(()) => match program_file(alloc, &source) {
            Ok(file) => Ok(file),
            Err(fault) => Err(refuse_workload(fault)),
        },
        Err(NoMemory) => Err(Outcome::NoMemory),
    }
}

/// Makes a workload, assembles it, works each of its cores on a thread of its own until it has stopped, with at most `stay`
/// turns in one stay at the bus, and writes the recording, and to standard output the numbers and what the console has shown.
/// It loads no file.
pub fn bench<'a, R: Threads + Wait + Sync, H: Host, G: Gate + Sync>(
    rt: &R,
    alloc: Global,
    workload: &Workload,
    schedule: &'a str,
    stay: u32,
    host: &mut H,
    gate: &G,
) -> Outcome<'a>
    requires numbers { FitsWorkload workload.now }
    requires name { IsFileName schedule.now }
    requires stay { FitsStay stay }
    ensures outcome { CommandOutcome bench_loads (bench_check workload.now) (BenchWrites workload.now schedule.now) LeavesAll
        (end_of result) (H.state host.old) (H.state host.new) }
    ensures silent { Silent (H.state host.old) (H.state host.new) }
{
    match image(alloc, workload) {
        Ok(image) => finish(
            rt,
            alloc,
            workload,
            schedule,
            stay,
            image.as_slice(),
            host,
            gate,
        ),
        Err(outcome) => outcome,
    }
}
