//! The command `debug`: the session of a script on a recorded run.
ghost use Rattle.std.specs.Prelude.{◌≡◌, ◌≤◌, None, MatchResult, length};
ghost use Rattle.or_words.specs.declared.limits.TheConstants.{IMAGE_LIMIT, SCRIPT_LIMIT};
ghost use Rattle.or_words.specs.Settings.{Fits};
ghost use Rattle.or_recorded.specs.Checked.{IsChecked};
ghost use Rattle.or_recorded.specs.Command.{run_of};
ghost use Rattle.or_recorded.specs.Debug.{debug_fault, MakesSession};
ghost use Rattle.or_recorded.specs.Files.{bytes_of_files};
ghost use Rattle.or_recorded.specs.Refused.{Fails};

use crate::checked::{Checked, Recording, open_board};
use crate::command::{RecordedCommand, Texts};
use crate::files::Files;
use crate::refused::{OwnFault, of_script};
use or_debug::session;
use or_replay::Unwatched;
use or_words::{Config, NoMemory};
use std::alloc::Global;

/// `debug`: follows a recorded run as a script says, and writes what the script shows.
#[derive(Clone, Copy)]
pub struct Debug;

impl RecordedCommand for Debug {
    type Watch = Unwatched;

    ghost use Rattle.or_recorded.specs.Debug.{debug_fault, MakesSession};

    ghost fault = { λ _. debug_fault };

    ghost Makes = { λ _. MakesSession };

    fn begin(
        &self,
        alloc: Global,
        files: Files<'_>,
        config: &Config,
    ) -> Result<Unwatched, NoMemory> {
        let _ = alloc;
        let _ = files;
        let _ = config;
        Ok(Unwatched)
    }

    fn make(
        &self,
        alloc: Global,
        files: Files<'_>,
        run: Checked,
        watch: Unwatched,
    ) -> Result<Texts, OwnFault> {
        let _ = watch;
        session_of(alloc, files, &run.into_recording())
    }
}

// The session of the script, on a board of its own. The image has no fault, so only memory keeps the board from being opened.
fn session_of(alloc: Global, files: Files<'_>, recording: &Recording) -> Result<Texts, OwnFault>
    requires limit { length files.image.now ≤ IMAGE_LIMIT }
    requires script { length files.script.now ≤ SCRIPT_LIMIT }
    requires fits { Fits recording.now.head.config }
    requires checked { IsChecked files.image.now files.input.now files.recording.now recording.now.head recording.now.turns.items recording.now.marks.items }
    ensures { MatchResult result
        (λ texts. (debug_fault (run_of (bytes_of_files files.entry) recording.now) ≡ None) × MakesSession (run_of (bytes_of_files files.entry) recording.now) texts.report.items texts.console.items)
        (λ own. Fails own (debug_fault (run_of (bytes_of_files files.entry) recording.now))) }
{
    let Ok(mut board) = open_board(alloc, &recording.head.config, files.image, files.input) else {
        return Err(OwnFault::NoMemory);
    };
    let mut console = Vec::new(alloc);
    match session(
        alloc,
        &mut board,
        &recording.turns,
        files.script,
        &mut console,
    ) {
        Ok(()) => Ok(Texts {
            report: Vec::new(alloc),
            console,
        }),
        Err(fault) => Err(of_script(fault)),
    }
}
