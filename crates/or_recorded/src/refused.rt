//! How a command ends on a recorded run that a check refuses.
ghost use Rattle.std.specs.Prelude.{◌≡◌, ◌≤◌, None, MatchResult, length};
ghost use Rattle.or_words.specs.declared.limits.TheConstants.{IMAGE_LIMIT};
ghost use Rattle.or_elf.specs.Symbols.{symbols_of};
ghost use Rattle.or_command.specs.Ends.{end_of, refused};
ghost use Rattle.or_command.specs.Finishing.{end_of_check};
ghost use Rattle.or_command_line.specs.Names.{recorded_names};
ghost use Rattle.or_recorded.specs.Files.{names_of};
ghost use Rattle.or_recorded.specs.Refused.{turn_detail, schedule_told, text_check, fault_check, own_check, symbols_check, script_check, own_of_script, symbols_fault, Fails};
ghost use Rattle.or_recorded.specs.Command.{told_check};

use crate::checked::RunFault;
use crate::files::Names;
use or_command::{Outcome, Refusal, ScheduleDetail};
use or_command_line::Recorded;
use or_elf::{SymFault, Symbols};
use or_replay::TurnFault;
use or_sched::RecFault;
use or_script::ScriptFault;
use std::alloc::Global;

/// The check of its own that a command finds to fail, behind all checks of a recorded run.
#[derive(Clone, Copy)]
pub enum OwnFault {
    /// The image's symbols have this fault; never NoMemory.
    Symbols(SymFault),
    /// The script has this fault; never NoMemory.
    Script(ScriptFault),
    /// Memory ran out.
    NoMemory,
}

/// The first check that fails.
#[derive(Clone, Copy)]
pub enum Fault {
    /// One of a recorded run.
    OfRun(RunFault),
    /// One of the command's own.
    Own(OwnFault),
}

/// The image's symbols. Errors: their fault; NoMemory.
pub(crate) fn read_symbols(alloc: Global, image: &[u8]) -> Result<Symbols, OwnFault>
    requires long { 52 ≤ length image.now }
    requires short { length image.now ≤ IMAGE_LIMIT }
    ensures { MatchResult result
        (λ symbols. (symbols_fault image.now ≡ None) × (symbols ≡ symbols_of image.now))
        (λ own. Fails own (symbols_fault image.now)) }
{
    match Symbols::read(alloc, image) {
        Ok(symbols) => Ok(symbols),
        Err(SymFault::NoMemory) => Err(OwnFault::NoMemory),
        Err(fault) => Err(OwnFault::Symbols(fault)),
    }
}

/// A fault of a script, as a check of the command's own.
pub(crate) fn of_script(fault: ScriptFault) -> OwnFault
    ensures { result ≡ own_of_script fault }
{
    match fault {
        ScriptFault::NoMemory => OwnFault::NoMemory,
        fault => OwnFault::Script(fault),
    }
}

/// The end of a command whose first check that fails is this.
pub(crate) fn refuse_fault<'a>(names: &Names<'a>, fault: Fault) -> Outcome<'a>
    ensures { end_of result ≡ end_of_check (told_check (names_of names.now) fault) }
{
    match fault {
        Fault::OfRun(fault) => refuse(&names.run, fault),
        Fault::Own(fault) => refuse_own(names, fault),
    }
}

fn refuse_own<'a>(names: &Names<'a>, fault: OwnFault) -> Outcome<'a>
    ensures { end_of result ≡ end_of_check (own_check (names_of names.now) fault) }
{
    match fault {
        OwnFault::Symbols(fault) => refuse_symbols(names.run.image, fault),
        OwnFault::Script(fault) => match names.script {
            Some(script) => refuse_script(script, fault),
            None => Outcome::NoMemory,
        },
        OwnFault::NoMemory => Outcome::NoMemory,
    }
}

// The end of a command on an image whose symbols have this fault: NoMemory, or a refusal with status 12.
fn refuse_symbols(name: &str, fault: SymFault) -> Outcome<'_>
    ensures { end_of result ≡ end_of_check (symbols_check name.now fault) }
{
    if fault == SymFault::NoMemory {
        return Outcome::NoMemory;
    }
    Outcome::Refused(Refusal::Symbols {
        name,
        fault: fault.number(),
        place: u64::from(fault.place()),
        why: fault.sentence(),
    })
}

// The end of a command on a script that has this fault: NoMemory, or a refusal with status 10.
fn refuse_script(name: &str, fault: ScriptFault) -> Outcome<'_>
    ensures { end_of result ≡ end_of_check (script_check name.now fault) }
{
    match fault {
        ScriptFault::BadCommand { line } => Outcome::Refused(Refusal::Script {
            name,
            fault: 1,
            line: u64::from(line),
            why: fault.sentence(),
        }),
        ScriptFault::OutOfRange { line } => Outcome::Refused(Refusal::Script {
            name,
            fault: 2,
            line: u64::from(line),
            why: fault.sentence(),
        }),
        ScriptFault::NoMemory => Outcome::NoMemory,
    }
}

// The end of a command on a recorded run whose first check that fails is this: NoMemory, or a refusal with status 4 or, for
// a fault of the image, 3.
fn refuse<'a>(files: &Recorded<'a>, fault: RunFault) -> Outcome<'a>
    ensures { end_of result ≡ end_of_check (fault_check (recorded_names files.now) fault) }
{
    match fault {
        RunFault::Text(fault) => refuse_text(files.schedule, fault),
        RunFault::Image(digests) => refuse_schedule(files.schedule, ScheduleDetail::Image(digests)),
        RunFault::Input(digests) => refuse_schedule(files.schedule, ScheduleDetail::Input(digests)),
        RunFault::Elf(fault) => Outcome::Refused(Refusal::Image {
            name: files.image,
            fault: fault.number(),
            place: u64::from(fault.place()),
            why: fault.sentence(),
        }),
        RunFault::Turns(fault) => refuse_schedule(files.schedule, detail_of(fault)),
        RunFault::NoMemoryForText | RunFault::NoMemory => Outcome::NoMemory,
    }
}

fn refuse_text(name: &str, fault: RecFault) -> Outcome<'_>
    ensures { end_of result ≡ end_of_check (text_check name.now fault) }
{
    match fault {
        RecFault::BadHead { line } => refuse_schedule(name, ScheduleDetail::Head { line }),
        RecFault::BadRun { at } => refuse_schedule(name, ScheduleDetail::At { place: at }),
        RecFault::Short => refuse_schedule(name, ScheduleDetail::Short),
        RecFault::NoMemory => Outcome::NoMemory,
    }
}

fn refuse_schedule(name: &str, detail: ScheduleDetail) -> Outcome<'_>
    ensures { end_of result ≡ refused (schedule_told name.now detail) }
{
    Outcome::Refused(Refusal::Schedule { name, detail })
}

// A turn of a core that the board has not is no turn of a recording's text.
fn detail_of(fault: TurnFault) -> ScheduleDetail
    ensures { result ≡ turn_detail fault }
{
    match fault {
        TurnFault::NoCore { turn } | TurnFault::Stopped { turn } => {
            ScheduleDetail::TurnStopped { turn }
        }
        TurnFault::Running { core } => ScheduleDetail::CoreRunning { core },
        TurnFault::Writes { turn, kept, found } => ScheduleDetail::TurnWrites {
            turn,
            recorded: kept,
            found,
        },
        TurnFault::Console { turn, kept, found } => ScheduleDetail::TurnConsole {
            turn,
            recorded: kept,
            found,
        },
    }
}
