//! The command `replay`: the report of a recorded run, and its console.
ghost use Rattle.std.specs.Prelude.{IfOk};
ghost use Rattle.or_recorded.specs.Checked.{IsRunChecked};
ghost use Rattle.or_recorded.specs.Command.{run_of};
ghost use Rattle.or_recorded.specs.Files.{bytes_of_files};
ghost use Rattle.or_recorded.specs.Replay.{IsReplayed};

use crate::checked::Checked;
use crate::command::{RecordedCommand, Texts};
use crate::files::Files;
use crate::refused::OwnFault;
use or_command_image::{Reported, report_if};
use or_replay::Unwatched;
use or_words::{Config, NoMemory};
use std::alloc::Global;

/// `replay`: follows a recorded run to its end, and writes its report and its console.
#[derive(Clone, Copy)]
pub struct Replay<'a> {
    /// The name of the report; `-` for none.
    pub report: &'a str,
}

impl RecordedCommand for Replay<'_> {
    type Watch = Unwatched;

    ghost use Rattle.or_recorded.specs.Replay.{replay_fault, IsReplayed};

    ghost fault = { λ _. replay_fault };

    ghost Makes = { λ replay. IsReplayed replay.report.now };

    fn begin(
        &self,
        alloc: Global,
        files: Files<'_>,
        config: &Config,
    ) -> Result<Unwatched, NoMemory> {
        let _ = alloc;
        let _ = files;
        let _ = config;
        Ok(Unwatched)
    }

    fn make(
        &self,
        alloc: Global,
        files: Files<'_>,
        run: Checked,
        watch: Unwatched,
    ) -> Result<Texts, OwnFault> {
        let _ = watch;
        match texts(alloc, self.report, files, run) {
            Ok(texts) => Ok(texts),
            Err(_) => Err(OwnFault::NoMemory),
        }
    }
}

// The texts of a recorded run.
#[tactic(auto, using(crate::proofs::Replayed::replayed))]
fn texts(alloc: Global, name: &str, files: Files<'_>, run: Checked) -> Result<Texts, NoMemory>
    requires { IsRunChecked files.image.now files.input.now files.recording.now run }
    ensures { IfOk result (λ texts. IsReplayed name.now (run_of (bytes_of_files files.entry) run.recording) texts.report.items texts.console.items) }
{
    let _ = files;
    let Checked { recording, board } = run;
    let (cores, bus) = board.into_parts();
    let turns = recording.turns.len() as u64;
    let Reported { report, console } = report_if(alloc, name, cores.as_slice(), bus, turns)?;
    Ok(Texts { report, console })
}
