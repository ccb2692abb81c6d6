//! Any command on a recorded run: it loads the files, checks them, follows the turns once, makes its texts, and writes them.
ghost use Rattle.std.specs.Prelude.{◌≡◌, ◌≤◌, [], ℕ, List, Option, None, IfOk, MatchResult, length};
ghost use Rattle.or_words.specs.declared.limits.TheConstants.{IMAGE_LIMIT, SCRIPT_LIMIT};
ghost use Rattle.or_host.specs.HostState.{HostState};
ghost use Rattle.or_words.specs.Settings.{Fits, ram_bytes};
ghost use Rattle.or_elf.specs.Fault.{elf_fault};
ghost use Rattle.or_bus.specs.State.{BusState};
ghost use Rattle.or_model.specs.Core.{Core as CoreModel};
ghost use Rattle.or_command.specs.Leaves.{Silent};
ghost use Rattle.or_command.specs.Ends.{end_of};
ghost use Rattle.or_command.specs.Finishing.{WriteEnds, EndsAfterLoad, IfNoMemory};
ghost use Rattle.or_command.specs.Outcomes.{OutcomeBy};
ghost use Rattle.or_command.specs.Loads.{bytes_of};
ghost use Rattle.or_replay.specs.Board.{IsBoard};
ghost use Rattle.or_replay.specs.Start.{start};
ghost use Rattle.or_recorded.specs.declared.refused.OwnFault.{OwnFault as OwnFaultModel};
ghost use Rattle.or_recorded.specs.Checked.{IsRunOpened, IsRunChecked};
ghost use Rattle.or_recorded.specs.Files.{names_of, bytes_of_files, AreNames, loads, files_in, outs_of};
ghost use Rattle.or_recorded.specs.Refused.{Fails};
ghost use Rattle.or_recorded.specs.Command.{Run, run_of, start_of, Verdict, Writes, FilesRunShort, CommandLacks, IsMade, IsFault};

use crate::checked::{Checked, RunFault, follow, open_run};
use crate::files::{Files, Names, load, named};
use crate::refused::{Fault, OwnFault, refuse_fault};
use or_command::{LoadStop, Loaded, Outcome, Output, write_outputs};
use or_host::Host;
use or_replay::Watcher;
use or_words::{Config, NoMemory};
use std::alloc::Global;

/// The texts that a command makes of a recorded run.
#[derive(Drop)]
pub struct Texts {
    /// The report, of a command that writes one.
    pub report: Vec<u8>,
    /// What goes to standard output.
    pub console: Vec<u8>,
}

/// A command on a recorded run: what it keeps of the turns while they are followed, and the texts that it makes of them.
pub trait RecordedCommand {
    /// What it keeps of the turns.
    type Watch: Watcher + Drop;

    /// The check of its own that a run fails, behind all checks of a recorded run, or none.
    ghost fault: { Self → Run → Option OwnFaultModel };

    /// The texts that it makes of a run: the report and the console.
    ghost Makes: { Self → Run → List ℕ → List ℕ → Type 0 };

    /// What it keeps before the first turn of a run with these settings.
    fn begin(
        &self,
        alloc: Global,
        files: Files<'_>,
        config: &Config,
    ) -> Result<Self::Watch, NoMemory>
        requires limit { length files.image.now ≤ IMAGE_LIMIT }
        requires fits { Fits config.now }
        requires sound { elf_fault files.image.now (ram_bytes config.now) ≡ None }
        ensures seen { IfOk result (λ watch. (turns : List ℕ) (cores : List CoreModel) (bus : BusState)
            → IsBoard cores bus (start config.now files.entry.image.now files.entry.input.now)
            → Self.Watch.Sees watch (start config.now files.entry.image.now files.entry.input.now) turns 0 cores bus) }
        ensures kept { IfOk result (λ watch. Self.Watch.Keeps watch files.entry.image.now) };

    /// The texts of a run whose checks have passed and whose turns it has seen. Errors: its own check that fails; NoMemory.
    fn make(
        &self,
        alloc: Global,
        files: Files<'_>,
        run: Checked,
        watch: Self::Watch,
    ) -> Result<Texts, OwnFault>
        requires limit { length files.image.now ≤ IMAGE_LIMIT }
        requires script { length files.script.now ≤ SCRIPT_LIMIT }
        requires fits { Fits run.recording.head.config }
        requires checked { IsRunChecked files.image.now files.input.now files.recording.now run }
        requires seen { Self.Watch.Sees watch (start_of (run_of (bytes_of_files files) run.recording))
            run.recording.turns.items (length run.recording.turns.items) run.board.cores run.board.bus }
        requires kept { Self.Watch.Keeps watch files.image.now }
        ensures { MatchResult result
            (λ texts. (fault self.now (run_of (bytes_of_files files.entry) run.recording) ≡ None)
            × Makes self.now (run_of (bytes_of_files files.entry) run.recording) texts.report.items texts.console.items)
            (λ own. Fails own (fault self.now (run_of (bytes_of_files files.entry) run.recording))) };
}

// The texts of a run, whose turns are followed now.
fn texts_of_run<C: RecordedCommand>(
    alloc: Global,
    command: &C,
    files: Files<'_>,
    run: Checked,
    mut watch: C::Watch,
) -> Result<Texts, Fault>
    requires limit { length files.image.now ≤ IMAGE_LIMIT }
    requires script { length files.script.now ≤ SCRIPT_LIMIT }
    requires fits { Fits run.recording.head.config }
    requires opened { IsRunOpened files.image.now files.input.now files.recording.now run }
    requires seen { C.Watch.Sees watch (start_of (run_of (bytes_of_files files) run.recording)) run.recording.turns.items 0 run.board.cores run.board.bus }
    requires kept { C.Watch.Keeps watch files.image.now }
    ensures { MatchResult result
        (λ texts. IsMade (C.fault command.now) (C.Makes command.now) (bytes_of_files files.entry) texts.report.items texts.console.items)
        (λ fault. IsFault (C.fault command.now) (C.Makes command.now) (bytes_of_files files.entry) fault) }
{
    match follow(run, &mut watch) {
        Ok(run) => match command.make(alloc, files, run, watch) {
            Ok(texts) => Ok(texts),
            Err(fault) => Err(Fault::Own(fault)),
        },
        Err(fault) => Err(Fault::OfRun(RunFault::Turns(fault))),
    }
}

// The texts that are made of these files.
fn make_texts<C: RecordedCommand>(
    alloc: Global,
    command: &C,
    files: Files<'_>,
) -> Result<Texts, Fault>
    requires limit { length files.image.now ≤ IMAGE_LIMIT }
    requires script { length files.script.now ≤ SCRIPT_LIMIT }
    ensures { MatchResult result
        (λ texts. IsMade (C.fault command.now) (C.Makes command.now) (bytes_of_files files.entry) texts.report.items texts.console.items)
        (λ fault. IsFault (C.fault command.now) (C.Makes command.now) (bytes_of_files files.entry) fault) }
{
    match open_run(alloc, files.image, files.input, files.recording) {
        Ok(run) => match command.begin(alloc, files, &run.recording.head.config) {
            Ok(watch) => texts_of_run(alloc, command, files, run, watch),
            Err(_) => Err(Fault::OfRun(RunFault::NoMemory)),
        },
        Err(fault) => Err(Fault::OfRun(fault)),
    }
}

// Writes the texts.
fn write<'a, H: Host>(names: &Names<'a>, texts: &Texts, host: &mut H) -> Outcome<'a>
    requires names { AreNames (names_of names.now) }
    ensures outcome { WriteEnds (outs_of (names_of names.now).report texts.now.report.items) texts.now.console.items (end_of result) (H.state host.old) (H.state host.new) }
    ensures silent { Silent (H.state host.old) (H.state host.new) }
{
    let Some(name) = names.report else {
        return write_outputs(host, &[], texts.console.as_slice());
    };
    if name == "-" {
        return write_outputs(host, &[], texts.console.as_slice());
    }
    let report = Output {
        name,
        text: texts.report.as_slice(),
    };
    write_outputs(host, &[report], texts.console.as_slice())
}

// How the command ends on files that were loaded.
fn finish<'a, C: RecordedCommand, H: Host>(
    alloc: Global,
    names: &Names<'a>,
    command: &C,
    read: &[Vec<u8>],
    host: &mut H,
) -> Outcome<'a>
    requires names { AreNames (names_of names.now) }
    requires limit { length (files_in (names_of names.now) (bytes_of read.now)).image ≤ IMAGE_LIMIT }
    requires script { length (files_in (names_of names.now) (bytes_of read.now)).script ≤ SCRIPT_LIMIT }
    ensures outcome { EndsAfterLoad (Verdict (C.fault command.now) (C.Makes command.now) (names_of names.now)) (Writes (C.fault command.now) (C.Makes command.now) (names_of names.now))
        (bytes_of read.now) (end_of result) (H.state host.old) (H.state host.new) }
    ensures passed { IfNoMemory (end_of result) (FilesRunShort (names_of names.now) (bytes_of read.now)) }
    ensures silent { Silent (H.state host.old) (H.state host.new) }
{
    match make_texts(alloc, command, named(names, read)) {
        Ok(texts) => write(names, &texts, host),
        Err(fault) => refuse_fault(names, fault),
    }
}

/// Does a command on a recorded run: loads its files, makes the checks of a recorded run and the command's own, in this order,
/// while the turns are followed, and writes the texts that the command makes.
pub fn carry_out<'a, C: RecordedCommand, H: Host>(
    alloc: Global,
    names: &Names<'a>,
    command: &C,
    host: &mut H,
) -> Outcome<'a>
    requires names { AreNames (names_of names.now) }
    ensures outcome { OutcomeBy (loads (names_of names.now)) (Verdict (C.fault command.now) (C.Makes command.now) (names_of names.now))
        (Writes (C.fault command.now) (C.Makes command.now) (names_of names.now)) (CommandLacks (names_of names.now)) (end_of result) (H.state host.old) (H.state host.new) }
    ensures silent { Silent (H.state host.old) (H.state host.new) }
{
    let mut read = Loaded::new_in(alloc);
    match load(alloc, names, host, &mut read) {
        Ok(()) => finish(alloc, names, command, read.as_slice(), host),
        Err(LoadStop::Unread(name)) => Outcome::Unread(name),
        Err(LoadStop::TooLong(name, limit)) => Outcome::TooLong(name, limit),
        Err(LoadStop::NoMemory) => Outcome::NoMemory,
    }
}
