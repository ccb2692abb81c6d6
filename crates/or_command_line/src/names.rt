//! Which words are names of files.
ghost use Rattle.std.specs.Prelude.{◌≡◌, IsTrue};
ghost use Rattle.or_command_line.specs.Words.{is_name, is_optional, differ, AreDifferent};
ghost use Rattle.or_command_line.specs.Names.{recorded_names, written_names, are_recorded, is_report, is_written_schedule, are_run_names, AreRecorded, IsReport, IsWrittenSchedule, AreWritten};

use crate::Recorded;
use or_words::limits::NAME_LIMIT;

/// A name: not empty, not beginning with `-`, at most 4095 bytes.
pub(crate) fn is_name(name: &str) -> bool
    ensures { result ≡ is_name name.now }
{
    let bytes = name.as_bytes();
    match bytes {
        [] => false,
        [first, ..] => *first != b'-' && bytes.len() <= NAME_LIMIT,
    }
}

/// A name, or `-` alone for no file.
pub(crate) fn is_optional(name: &str) -> bool
    ensures { result ≡ is_optional name.now }
{
    name == "-" || is_name(name)
}

/// Two names differ as texts; `-` is no name, and equals none.
pub(crate) fn differ(one: &str, other: &str) -> bool
    ensures test { result ≡ differ one.now other.now }
    ensures names { IsTrue result → AreDifferent one.now other.now }
{
    one == "-" || one != other
}

/// The words of a recorded run are names.
pub(crate) fn are_recorded(files: &Recorded<'_>) -> bool
    ensures test { result ≡ are_recorded (recorded_names files.now) }
    ensures names { IsTrue result → AreRecorded (recorded_names files.now) }
{
    is_name(files.image) && (is_optional(files.input) && is_name(files.schedule))
}

/// The name of a report, if it has one, differs from the others.
pub(crate) fn is_report(files: &Recorded<'_>, report: &str) -> bool
    ensures test { result ≡ is_report (recorded_names files.now) report.now }
    ensures names { IsTrue result → IsReport (recorded_names files.now) report.now }
{
    is_optional(report)
        && ((differ(report, files.image) && differ(report, files.input))
            && differ(report, files.schedule))
}

// The name of a schedule that is written, if it has one, differs from those before it.
fn is_written_schedule(files: &Recorded<'_>) -> bool
    ensures test { result ≡ is_written_schedule (recorded_names files.now) }
    ensures names { IsTrue result → IsWrittenSchedule (recorded_names files.now) }
{
    is_optional(files.schedule)
        && (differ(files.schedule, files.image) && differ(files.schedule, files.input))
}

/// The words of a run are names, and those that it writes differ from each other one.
pub(crate) fn are_written(files: &Recorded<'_>, report: &str) -> bool
    ensures test { result ≡ are_run_names (written_names files.now report.now) }
    ensures names { IsTrue result → AreWritten (written_names files.now report.now) }
{
    (is_name(files.image) && is_optional(files.input))
        && (is_written_schedule(files) && is_report(files, report))
}
