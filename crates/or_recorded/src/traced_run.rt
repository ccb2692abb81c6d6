//! The command `trace`: once all checks of a recorded run have passed, its turns are made again, and their text is written
//! while it is made.
ghost use Rattle.std.specs.Prelude.{◌≡◌, ◌≤◌, MatchResult, IfOk, length};
ghost use Rattle.or_words.specs.declared.limits.TheConstants.{IMAGE_LIMIT};
ghost use Rattle.or_words.specs.Settings.{Fits};
ghost use Rattle.or_command.specs.Leaves.{Silent};
ghost use Rattle.or_command.specs.Ends.{end_of};
ghost use Rattle.or_command.specs.Outcomes.{OutcomeBy};
ghost use Rattle.or_command.specs.Pieces.{WritesOut};
ghost use Rattle.or_command_line.specs.Names.{recorded_names, AreRecorded};
ghost use Rattle.or_recorded.specs.Checked.{IsFirstFault, IsChecked};
ghost use Rattle.or_recorded.specs.Command.{run_of, Verdict, Writes};
ghost use Rattle.or_recorded.specs.Files.{names_of, bytes_of_files, loads, run_alone};
ghost use Rattle.or_recorded.specs.Trace.{trace_text, trace_fault, MakesTrace, TraceLacks};
ghost use Rattle.or_recorded.specs.Tracing.{TraceEnds};

use crate::checked::{Recording, RunFault, follow, open_board, open_run};
use crate::files::{Files, Names, load, named};
use crate::refused::{Fault, refuse_fault};
use crate::tracing::trace_turns;
use or_command::{LoadStop, Loaded, Outcome, PieceStop};
use or_command_line::{Recorded, TraceOptions};
use or_elf::Labels;
use or_host::Host;
use or_replay::Unwatched;
use std::alloc::Global;

// Makes all checks of a recorded run, and answers its recording. Errors: the first check that fails; NoMemory.
fn check_run(alloc: Global, files: Files<'_>) -> Result<Recording, RunFault>
    requires limit { length files.image.now ≤ IMAGE_LIMIT }
    ensures run { MatchResult result
        (λ recording. IsChecked files.entry.image.now files.entry.input.now files.entry.recording.now recording.head recording.turns.items recording.marks.items)
        (λ fault. IsFirstFault files.entry.image.now files.entry.input.now files.entry.recording.now fault) }
    ensures fits { IfOk result (λ recording. Fits recording.head.config) }
{
    let run = match open_run(alloc, files.image, files.input, files.recording) {
        Ok(run) => run,
        Err(fault) => return Err(fault),
    };
    match follow(run, &mut Unwatched) {
        Ok(ended) => Ok(ended.into_recording()),
        Err(fault) => Err(RunFault::Turns(fault)),
    }
}

// Writes the text of a run whose checks have passed, on a board of its own.
fn write_text<H: Host>(
    alloc: Global,
    options: &TraceOptions,
    files: Files<'_>,
    recording: &Recording,
    host: &mut H,
) -> Result<(), PieceStop>
    requires limit { length files.image.now ≤ IMAGE_LIMIT }
    requires fits { Fits recording.now.head.config }
    requires checked { IsChecked files.image.now files.input.now files.recording.now recording.now.head recording.now.turns.items recording.now.marks.items }
    ensures writes { WritesOut result (trace_text options.now (run_of (bytes_of_files files.entry) recording.now)) (H.state host.old) (H.state host.new) }
    ensures silent { Silent (H.state host.old) (H.state host.new) }
{
    let Ok(mut board) = open_board(alloc, &recording.head.config, files.image, files.input) else {
        return Err(PieceStop::NoMemory);
    };
    let Ok(labels) = Labels::read(alloc, files.image) else {
        return Err(PieceStop::NoMemory);
    };
    trace_turns(
        alloc,
        options,
        &labels,
        &mut board,
        recording.turns.as_slice(),
        host,
    )
}

// How the command ends on files that were loaded.
fn finish<'a, H: Host>(
    alloc: Global,
    names: &Names<'a>,
    options: &TraceOptions,
    files: Files<'_>,
    host: &mut H,
) -> Outcome<'a>
    requires limit { length files.image.now ≤ IMAGE_LIMIT }
    ensures outcome { TraceEnds options.now (names_of names.now) (bytes_of_files files.entry) (end_of result) (H.state host.old) (H.state host.new) }
    ensures silent { Silent (H.state host.old) (H.state host.new) }
{
    match check_run(alloc, files) {
        Ok(recording) => match write_text(alloc, options, files, &recording, host) {
            Ok(()) => Outcome::Done,
            Err(PieceStop::Unwritten) => Outcome::Unwritten("-"),
            Err(PieceStop::NoMemory) => Outcome::NoMemory,
        },
        Err(fault) => refuse_fault(names, Fault::OfRun(fault)),
    }
}

/// Does the command `trace`: loads the files of a recorded run, makes its checks, and writes the text of its turns to standard
/// output while it makes it. Done, or why it ended early; of Unwritten `-` and of NoMemory a prefix of the text may be written.
pub fn trace<'a, H: Host>(
    alloc: Global,
    files: &Recorded<'a>,
    options: &TraceOptions,
    host: &mut H,
) -> Outcome<'a>
    requires names { AreRecorded (recorded_names files.now) }
    ensures outcome { OutcomeBy (loads (run_alone (recorded_names files.now)))
        (Verdict trace_fault (MakesTrace options.now) (run_alone (recorded_names files.now))) (Writes trace_fault (MakesTrace options.now) (run_alone (recorded_names files.now)))
        (TraceLacks options.now (run_alone (recorded_names files.now))) (end_of result) (H.state host.old) (H.state host.new) }
    ensures silent { Silent (H.state host.old) (H.state host.new) }
{
    let names = Names {
        run: *files,
        script: None,
        report: None,
    };
    let mut read = Loaded::new_in(alloc);
    match load(alloc, &names, host, &mut read) {
        Ok(()) => finish(alloc, &names, options, named(&names, read.as_slice()), host),
        Err(LoadStop::Unread(name)) => Outcome::Unread(name),
        Err(LoadStop::TooLong(name, limit)) => Outcome::TooLong(name, limit),
        Err(LoadStop::NoMemory) => Outcome::NoMemory,
    }
}
