//! The recording and the report of a run, which are made and written where they have a name. `-` is none.
ghost use Rattle.std.specs.Prelude.{◌≡◌, false, IfOk};
ghost use Rattle.or_words.specs.Settings.{Fits};
ghost use Rattle.or_sched.specs.Schedule.{IsSchedule, AreMarks};
ghost use Rattle.or_sched.specs.RecText.{rec_text2};
ghost use Rattle.or_parts.specs.Devices.{console_of};
ghost use Rattle.or_model.specs.Turn.{Board as BoardModel};
ghost use Rattle.or_bus.specs.Represents.{Represents};
ghost use Rattle.or_replay.specs.Board.{AreOfBus};
ghost use Rattle.or_replay.specs.Report.{report_text};
ghost use Rattle.or_host.specs.Calls.{IsName};
ghost use Rattle.or_command_line.specs.Words.{is_no_file, AreDifferent};
ghost use Rattle.or_command.specs.Leaves.{Silent};
ghost use Rattle.or_command.specs.Ends.{end_of};
ghost use Rattle.or_command.specs.Finishing.{WriteEnds};
ghost use Rattle.or_command_image.specs.Written.{made_for, written_files};

use or_bus::Bus;
use or_command::{Outcome, Output, write_outputs};
use or_core::Core;
use or_host::Host;
use or_replay::report;
use or_sched::{Head, Mark};
use or_words::NoMemory;
use std::alloc::Global;

/// The report of a board, if one was made, and the console's bytes.
#[derive(Drop)]
pub struct Reported {
    pub report: Vec<u8>,
    pub console: Vec<u8>,
}

/// The recording of a schedule with its marks, if it has a name; else an empty text.
pub fn recording_if(
    alloc: Global,
    name: &str,
    head: &Head,
    turns: &[u8],
    marks: &[Mark],
) -> Result<Vec<u8>, NoMemory>
    requires settings { Fits head.now.config }
    requires turns { IsSchedule head.now.config turns.now }
    requires marks { AreMarks turns.now marks.now }
    ensures { IfOk result (λ text. text.items ≡ made_for name.now (rec_text2 head.now turns.now marks.now)) }
{
    let mut text = Vec::new(alloc);
    if name == "-" {
        return Ok(text);
    }
    or_sched::write(head, turns, marks, &mut text)?;
    Ok(text)
}

/// The report of a board whose cores and bus these are, after so many turns, if it has a name, else an empty text; and the
/// console. Where it has none, no digest of RAM is computed.
pub fn report_if(
    alloc: Global,
    name: &str,
    cores: &[Core],
    bus: Bus,
    turns: u64,
) -> Result<Reported, NoMemory>
    requires { AreOfBus cores.now bus }
    ensures report { IfOk result (λ told. (board : BoardModel) → cores.now ≡ board.cores → Represents bus board.world
        → told.report.items ≡ made_for name.now (report_text board turns)) }
    ensures console { IfOk result (λ told. (board : BoardModel) → cores.now ≡ board.cores → Represents bus board.world
        → told.console.items ≡ console_of board.world.devices) }
{
    let mut text = Vec::new(alloc);
    if name == "-" {
        let (_, console) = bus.into_parts();
        return Ok(Reported {
            report: text,
            console,
        });
    }
    let console = report(cores, bus, turns, &mut text)?;
    Ok(Reported {
        report: text,
        console,
    })
}

/// Writes a recording and what the report tells to the files of these names, where they are names, and then text to standard
/// output.
pub fn write_recorded<'a, H: Host>(
    schedule: &'a str,
    report: &'a str,
    recording: &[u8],
    told: &[u8],
    text: &[u8],
    host: &mut H,
) -> Outcome<'a>
    requires schedule { is_no_file schedule.now ≡ false → IsName schedule.now }
    requires report { is_no_file report.now ≡ false → IsName report.now }
    requires apart { AreDifferent report.now schedule.now }
    ensures outcome { WriteEnds (written_files schedule.now recording.now report.now told.now) text.now (end_of result) (H.state host.old) (H.state host.new) }
    ensures silent { Silent (H.state host.old) (H.state host.new) }
{
    let first = Output {
        name: schedule,
        text: recording,
    };
    let second = Output {
        name: report,
        text: told,
    };
    if schedule == "-" {
        if report == "-" {
            return write_outputs(host, &[], text);
        }
        return write_outputs(host, &[second], text);
    }
    if report == "-" {
        return write_outputs(host, &[first], text);
    }
    write_outputs(host, &[first, second], text)
}
