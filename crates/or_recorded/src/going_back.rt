//! The command `back`: the session of a script that goes over a recorded run, forward and back.
ghost use Rattle.std.specs.Prelude.{◌≡◌, ◌≤◌, None, MatchResult, length};
ghost use Rattle.or_words.specs.declared.limits.TheConstants.{IMAGE_LIMIT, SCRIPT_LIMIT};
ghost use Rattle.or_words.specs.Settings.{Fits};
ghost use Rattle.or_command_line.specs.Settings.{FitsEvery};
ghost use Rattle.or_recorded.specs.Back.{back_fault, MakesBackSession};
ghost use Rattle.or_recorded.specs.Checked.{IsChecked};
ghost use Rattle.or_recorded.specs.Command.{run_of};
ghost use Rattle.or_recorded.specs.Files.{bytes_of_files};
ghost use Rattle.or_recorded.specs.Refused.{Fails};

use crate::checked::{Checked, Recording, open_board};
use crate::command::{RecordedCommand, Texts};
use crate::files::Files;
use crate::refused::{OwnFault, of_script};
use or_back::{History, session};
use or_replay::Unwatched;
use or_words::{Config, NoMemory};
use std::alloc::Global;

/// `back`: goes over a recorded run as a script says, and writes what the script shows. Copies of the board are kept behind
/// multiples of `every` turns, 1 to 2^29; no answer depends on them.
#[derive(Clone, Copy)]
pub struct Back {
    every: u32,
    ghost fits: { FitsEvery every },
}

impl Back {
    /// With copies of the board behind multiples of so many turns.
    pub fn new(every: u32) -> Back
        requires { FitsEvery every }
        ensures { result.every ≡ every }
    {
        Back { every }
    }
}

impl RecordedCommand for Back {
    type Watch = Unwatched;

    ghost use Rattle.or_recorded.specs.Back.{back_fault, MakesBackSession};

    ghost fault = { λ _. back_fault };

    ghost Makes = { λ _. MakesBackSession };

    fn begin(
        &self,
        alloc: Global,
        files: Files<'_>,
        config: &Config,
    ) -> Result<Unwatched, NoMemory> {
        let _ = alloc;
        let _ = files;
        let _ = config;
        Ok(Unwatched)
    }

    fn make(
        &self,
        alloc: Global,
        files: Files<'_>,
        run: Checked,
        watch: Unwatched,
    ) -> Result<Texts, OwnFault> {
        let _ = watch;
        session_of(alloc, files, run.into_recording(), self.every)
    }
}

// The session of the script, on a board of its own. The image has no fault, so only memory keeps the board from being opened.
fn session_of(
    alloc: Global,
    files: Files<'_>,
    recording: Recording,
    every: u32,
) -> Result<Texts, OwnFault>
    requires limit { length files.image.now ≤ IMAGE_LIMIT }
    requires script { length files.script.now ≤ SCRIPT_LIMIT }
    requires fits { Fits recording.head.config }
    requires every { FitsEvery every }
    requires checked { IsChecked files.image.now files.input.now files.recording.now recording.head recording.turns.items recording.marks.items }
    ensures { MatchResult result
        (λ texts. (back_fault (run_of (bytes_of_files files.entry) recording) ≡ None) × MakesBackSession (run_of (bytes_of_files files.entry) recording) texts.report.items texts.console.items)
        (λ own. Fails own (back_fault (run_of (bytes_of_files files.entry) recording))) }
{
    let Ok(board) = open_board(alloc, &recording.head.config, files.image, files.input) else {
        return Err(OwnFault::NoMemory);
    };
    let Ok(mut history) = History::open(alloc, board, recording.turns, u64::from(every)) else {
        return Err(OwnFault::NoMemory);
    };
    let mut console = Vec::new(alloc);
    match session(&mut history, files.script, &mut console) {
        Ok(()) => Ok(Texts {
            report: Vec::new(alloc),
            console,
        }),
        Err(fault) => Err(of_script(fault)),
    }
}
