//! The top call.
ghost use Rattle.std.specs.Prelude.{◌≡◌, ◌≢◌, ◌↔◌, ◌⊎◌, ℕ, None, IfSome};
ghost use Rattle.or_command_line.specs.Words.{texts};
ghost use Rattle.or_command_line.specs.Command.{command_of};
ghost use Rattle.or_command_line.specs.Command.CommandModel.{replay, debug, back, race, prof, trace};
ghost use Rattle.or_words.specs.Settings.{Fits};
ghost use Rattle.or_command_line.specs.Names.{run_names, hunt_names, recorded_names, AreWritten, AreRecorded, IsReport};
ghost use Rattle.or_command.specs.Outcomes.{LeavesAll};
ghost use Rattle.or_command.specs.Carried.{IsCarriedOut};
ghost use Rattle.or_command.specs.Answered.{Answers, IsDecided};
ghost use Rattle.or_command_run.specs.Run.{RunAnswers, RunDecided};
ghost use Rattle.or_command_hunt.specs.Hunt.{HuntAnswers, HuntDecided};
ghost use Rattle.or_command_run.specs.Bench.{bench_loads, bench_check, BenchWrites};
ghost use Rattle.or_command_line.specs.Words.{IsFileName};
ghost use Rattle.or_command_line.specs.Workloads.{FitsWorkload};
ghost use Rattle.or_recorded.specs.Files.{names_of, AreNames};
ghost use Rattle.or_command_line.specs.Settings.{FitsStay, FitsHunt, FitsEvery};
ghost use Rattle.or_cli.specs.Names.{TopEnds, TopDecides};
ghost use Rattle.or_cli.specs.Top.{threaded_command, lone_command, IsUsage, on_a_run, CommandEnds, IsComplete};

use or_board::Gate;
use or_command::{conclude, say_usage};
use or_command_hunt::hunt;
use or_command_line::{
    Command, Hunt, RaceOptions, Recorded, Run, TraceOptions, Workload, explain, parse,
};
use or_command_run::{bench, run, run_status, say_budgets};
use or_command_source::{asm, dis, generate};
use or_host::Host;
use or_recorded::{Back, Debug, Names, Prof, Race, RecordedCommand, Replay, carry_out};
use or_same_file::{find_same, refuse_same};
use std::alloc::Global;
use std::sync::Wait;
use std::thread::Threads;

// Runs an image, and says how that ended.
fn run_command<R: Threads + Wait + Sync, H: Host, G: Gate + Sync>(
    rt: &R,
    alloc: Global,
    words: &Run<'_>,
    host: &mut H,
    gate: &G,
) -> u8
    requires names { AreWritten (run_names words.now) }
    requires fits { Fits words.now.options.config }
    requires stay { FitsStay words.now.options.stay }
    ensures ends { RunAnswers (run_names words.now) words.now.options result (H.state host.old) (H.state host.new) }
    ensures complete { RunDecided (run_names words.now) words.now.options result (H.state host.old) (H.state host.new) }
    ensures command { IsCarriedOut result }
{
    let ended = run(rt, alloc, words, host, gate);
    let status = conclude(host, ended.outcome);
    say_budgets(host, status, ended.lines.as_slice());
    run_status(words.options.status, ended.failed, status)
}

// Looks for a schedule on which a program fails, and says how that ended.
fn hunt_command<H: Host>(alloc: Global, words: &Hunt<'_>, host: &mut H) -> u8
    requires names { AreWritten (hunt_names words.now) }
    requires fits { Fits words.now.options.config }
    requires range { FitsHunt words.now.options }
    ensures ends { HuntAnswers (hunt_names words.now) words.now.options result (H.state host.old) (H.state host.new) }
    ensures complete { HuntDecided (hunt_names words.now) words.now.options result (H.state host.old) (H.state host.new) }
    ensures command { IsCarriedOut result }
{
    let outcome = hunt(alloc, words, host);
    conclude(host, outcome)
}

// Runs a workload, and says how that ended.
fn bench_command<R: Threads + Wait + Sync, H: Host, G: Gate + Sync>(
    rt: &R,
    alloc: Global,
    workload: &Workload,
    schedule: &str,
    stay: u32,
    host: &mut H,
    gate: &G,
) -> u8
    requires numbers { FitsWorkload workload.now }
    requires name { IsFileName schedule.now }
    requires stay { FitsStay stay }
    ensures ends { Answers bench_loads (bench_check workload.now) (BenchWrites workload.now schedule.now) LeavesAll
        result (H.state host.old) (H.state host.new) }
    ensures complete { IsDecided bench_loads (bench_check workload.now) (BenchWrites workload.now schedule.now) LeavesAll
        result (H.state host.old) (H.state host.new) }
    ensures command { IsCarriedOut result }
{
    let outcome = bench(rt, alloc, workload, schedule, stay, host, gate);
    conclude(host, outcome)
}

// Does a command on a recorded run, and says how that ended.
fn recorded_command<C: RecordedCommand, H: Host>(
    alloc: Global,
    names: &Names<'_>,
    command: &C,
    host: &mut H,
) -> u8
    requires names { AreNames (names_of names.now) }
    ensures ends { (on_a_run (C.fault command.now) (C.Makes command.now) (names_of names.now)).Ends result (H.state host.old) (H.state host.new) }
    ensures complete { (on_a_run (C.fault command.now) (C.Makes command.now) (names_of names.now)).Decided result (H.state host.old) (H.state host.new) }
    ensures command { IsCarriedOut result }
{
    let outcome = carry_out(alloc, names, command, host);
    conclude(host, outcome)
}

// Replays a recorded run, and says how that ended.
fn replay_command<'a, H: Host>(
    alloc: Global,
    names: &Recorded<'a>,
    report: &'a str,
    host: &mut H,
) -> u8
    requires names { AreRecorded (recorded_names names.now) }
    requires report { IsReport (recorded_names names.now) report.now }
    ensures ends { CommandEnds (replay (recorded_names names.now) report.now) result (H.state host.old) (H.state host.new) }
    ensures complete { IsComplete (replay (recorded_names names.now) report.now) result (H.state host.old) (H.state host.new) }
    ensures command { IsCarriedOut result }
{
    let names = Names {
        run: *names,
        script: None,
        report: Some(report),
    };
    recorded_command(alloc, &names, &Replay { report }, host)
}

// Debugs a recorded run, and says how that ended.
fn debug_command<'a, H: Host>(
    alloc: Global,
    names: &Recorded<'a>,
    script: &'a str,
    host: &mut H,
) -> u8
    requires names { AreRecorded (recorded_names names.now) }
    requires script { IsFileName script.now }
    ensures ends { CommandEnds (debug (recorded_names names.now) script.now) result (H.state host.old) (H.state host.new) }
    ensures complete { IsComplete (debug (recorded_names names.now) script.now) result (H.state host.old) (H.state host.new) }
    ensures command { IsCarriedOut result }
{
    let names = Names {
        run: *names,
        script: Some(script),
        report: None,
    };
    recorded_command(alloc, &names, &Debug, host)
}

// Goes over a recorded run, forward and back, and says how that ended.
fn back_command<'a, H: Host>(
    alloc: Global,
    names: &Recorded<'a>,
    script: &'a str,
    every: u32,
    host: &mut H,
) -> u8
    requires names { AreRecorded (recorded_names names.now) }
    requires script { IsFileName script.now }
    requires every { FitsEvery every }
    ensures ends { CommandEnds (back (recorded_names names.now) script.now every) result (H.state host.old) (H.state host.new) }
    ensures complete { IsComplete (back (recorded_names names.now) script.now every) result (H.state host.old) (H.state host.new) }
    ensures command { IsCarriedOut result }
{
    let names = Names {
        run: *names,
        script: Some(script),
        report: None,
    };
    recorded_command(alloc, &names, &Back::new(every), host)
}

// Reports the races of a recorded run, and says how that ended.
fn race_command<H: Host>(
    alloc: Global,
    names: &Recorded<'_>,
    options: RaceOptions,
    host: &mut H,
) -> u8
    requires names { AreRecorded (recorded_names names.now) }
    ensures ends { CommandEnds (race (recorded_names names.now) options) result (H.state host.old) (H.state host.new) }
    ensures complete { IsComplete (race (recorded_names names.now) options) result (H.state host.old) (H.state host.new) }
    ensures command { IsCarriedOut result }
{
    let names = Names {
        run: *names,
        script: None,
        report: None,
    };
    if options.locks {
        let race = Race::<true> {
            places: options.places,
        };
        recorded_command(alloc, &names, &race, host)
    } else {
        let race = Race::<false> {
            places: options.places,
        };
        recorded_command(alloc, &names, &race, host)
    }
}

// Profiles a recorded run, and says how that ended.
fn prof_command<H: Host>(alloc: Global, names: &Recorded<'_>, hot: bool, host: &mut H) -> u8
    requires names { AreRecorded (recorded_names names.now) }
    ensures ends { CommandEnds (prof (recorded_names names.now) hot) result (H.state host.old) (H.state host.new) }
    ensures complete { IsComplete (prof (recorded_names names.now) hot) result (H.state host.old) (H.state host.new) }
    ensures command { IsCarriedOut result }
{
    let names = Names {
        run: *names,
        script: None,
        report: None,
    };
    if hot {
        recorded_command(alloc, &names, &Prof::<true>, host)
    } else {
        recorded_command(alloc, &names, &Prof::<false>, host)
    }
}

// Writes the trace of a recorded run, and says how that ended.
fn trace_command<H: Host>(
    alloc: Global,
    names: &Recorded<'_>,
    options: &TraceOptions,
    host: &mut H,
) -> u8
    requires names { AreRecorded (recorded_names names.now) }
    ensures ends { CommandEnds (trace (recorded_names names.now) options.now) result (H.state host.old) (H.state host.new) }
    ensures complete { IsComplete (trace (recorded_names names.now) options.now) result (H.state host.old) (H.state host.new) }
    ensures command { IsCarriedOut result }
{
    let outcome = or_recorded::trace(alloc, names, options, host);
    conclude(host, outcome)
}

// Says that the command line is not valid, and why.
fn refuse_words<H: Host>(words: &[String], host: &mut H) -> u8
    ensures status { result ≡ 2 }
    ensures usage { IsUsage (texts words.now) (H.state host.old) (H.state host.new) }
{
    say_usage(host, &explain(words));
    2
}

/// Does the command of a command line if it runs cores on threads, `run` or `bench`, and answers the status as `top` does. For
/// this call every other command line is not valid. It waits. Whether an output is another of its files too, `top` asks before.
pub fn top_run<R: Threads + Wait + Sync, H: Host, G: Gate + Sync>(
    rt: &R,
    alloc: Global,
    words: &[String],
    host: &mut H,
    gate: &G,
) -> u8
    ensures usage { (result ≡ 2) ↔ (threaded_command (texts words.now) ≡ None) }
    ensures usage_line { threaded_command (texts words.now) ≡ None → IsUsage (texts words.now) (H.state host.old) (H.state host.new) }
    ensures command { IfSome (threaded_command (texts words.now)) (λ command. CommandEnds command result (H.state host.old) (H.state host.new)) }
    ensures complete { IfSome (threaded_command (texts words.now)) (λ command. IsComplete command result (H.state host.old) (H.state host.new)) }
    ensures carried { result ≢ 16 }
{
    match parse(words) {
        Some(Command::Run(words)) => run_command(rt, alloc, &words, host, gate),
        Some(
            Command::Bench {
                workload,
                schedule,
                stay,
            },
        ) => bench_command(rt, alloc, &workload, schedule, stay, host, gate),
        _ => refuse_words(words, host),
    }
}

/// Does the command of a command line if it needs one thread alone, and answers the status as `top` does. For this call every
/// other command line is not valid. It always returns. Whether an output is another of its files too, `top` asks before.
pub fn top_alone<H: Host>(alloc: Global, words: &[String], host: &mut H) -> u8
    ensures usage { (result ≡ 2) ↔ (lone_command (texts words.now) ≡ None) }
    ensures usage_line { lone_command (texts words.now) ≡ None → IsUsage (texts words.now) (H.state host.old) (H.state host.new) }
    ensures command { IfSome (lone_command (texts words.now)) (λ command. CommandEnds command result (H.state host.old) (H.state host.new)) }
    ensures complete { IfSome (lone_command (texts words.now)) (λ command. IsComplete command result (H.state host.old) (H.state host.new)) }
    ensures carried { result ≢ 16 }
{
    match parse(words) {
        Some(Command::Replay { files, report }) => replay_command(alloc, &files, report, host),
        Some(Command::Hunt(words)) => hunt_command(alloc, &words, host),
        Some(
            Command::Asm {
                source,
                image,
                symbols,
            },
        ) => asm(alloc, source, image, symbols, host),
        Some(Command::Dis { image }) => dis(alloc, image, host),
        Some(Command::Debug { files, script }) => debug_command(alloc, &files, script, host),
        Some(Command::Gen { workload, source }) => generate(alloc, &workload, source, host),
        Some(
            Command::Back {
                files,
                script,
                every,
            },
        ) => back_command(alloc, &files, script, every, host),
        Some(Command::Race { files, options }) => race_command(alloc, &files, options, host),
        Some(Command::Prof { files, hot }) => prof_command(alloc, &files, hot, host),
        Some(Command::Trace { files, options }) => trace_command(alloc, &files, &options, host),
        _ => refuse_words(words, host),
    }
}

// Does the command of a command line whose outputs are files of their own.
fn carry_out_words<R: Threads + Wait + Sync, H: Host, G: Gate + Sync>(
    rt: &R,
    alloc: Global,
    words: &[String],
    host: &mut H,
    gate: &G,
) -> u8
    ensures usage { (result ≡ 2) ↔ (command_of (texts words.now) ≡ None) }
    ensures usage_line { command_of (texts words.now) ≡ None → IsUsage (texts words.now) (H.state host.old) (H.state host.new) }
    ensures command { IfSome (command_of (texts words.now)) (λ command. CommandEnds command result (H.state host.old) (H.state host.new)) }
    ensures complete { IfSome (command_of (texts words.now)) (λ command. IsComplete command result (H.state host.old) (H.state host.new)) }
    ensures carried { result ≢ 16 }
{
    match parse(words) {
        Some(Command::Run(_) | Command::Bench { .. }) => top_run(rt, alloc, words, host, gate),
        _ => top_alone(alloc, words, host),
    }
}

/// Does the command of a command line, and answers the status: 0 if all was done, 2 if the command line is not valid, 3 if the
/// image has a fault, 4 if the recording is refused, 5 if a file was not read, 6 if an output was not written, 7 if memory ran
/// out, 8 if a file is too long, 9 if the source has a fault, 10 if the script has one, 12 if the symbols that `prof` or
/// `race --where` reads have one, 14 if no try of a hunt failed, 15 if all was done with `run --status` and a core failed, 16 if an
/// output and another of its names lead to one file. Of a status other than 0 and 15 it says the line, and then a sentence for people.
#[tactic(auto, using(crate::proofs::Same::same))]
pub fn top<R: Threads + Wait + Sync, H: Host, G: Gate + Sync>(
    rt: &R,
    alloc: Global,
    words: &[String],
    host: &mut H,
    gate: &G,
) -> u8
    ensures usage { (result ≡ 2) ↔ (command_of (texts words.now) ≡ None) }
    ensures usage_line { command_of (texts words.now) ≡ None → IsUsage (texts words.now) (H.state host.old) (H.state host.new) }
    ensures command { IfSome (command_of (texts words.now)) (λ command. TopEnds command result (H.state host.old) (H.state host.new)) }
    ensures complete { IfSome (command_of (texts words.now)) (λ command. TopDecides command result (H.state host.old) (H.state host.new)) }
{
    match parse(words) {
        Some(command) => match find_same(&command, host) {
            Some(pair) => refuse_same(host, &pair),
            None => carry_out_words(rt, alloc, words, host, gate),
        },
        None => refuse_words(words, host),
    }
}
