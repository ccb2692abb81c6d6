// Writes files in order, and standard output behind them.
ghost use Rattle.std.specs.Prelude.{MatchResult};
ghost use Rattle.or_host.specs.Calls.{IsName};
ghost use Rattle.or_command.specs.Leaves.{Silent};
ghost use Rattle.or_command.specs.Writes.{files_of, AreFiles, FileWritten, FileStopped, FilesWritten, FilesStopped};
ghost use Rattle.or_command.specs.Ends.{end_of};
ghost use Rattle.or_command.specs.Finishing.{WriteEnds};

use crate::Outcome;
use or_host::{Failed, Host};

/// A file that a command writes: its name, and the text that it is to hold.
#[derive(Clone, Copy)]
pub struct Output<'n, 't> {
    pub name: &'n str,
    pub text: &'t [u8],
}

/// Writes files in order, and then the console to standard output where it is not empty, and answers how the command ends:
/// Done, or Unwritten with the name whose write failed, `-` for standard output. The files before it are whole.
pub fn write_outputs<'n, H: Host>(
    host: &mut H,
    files: &[Output<'n, '_>],
    console: &[u8],
) -> Outcome<'n>
    requires { AreFiles (files_of files.now) }
    ensures outcome { WriteEnds (files_of files.now) console.now (end_of result) (H.state host.old) (H.state host.new) }
    ensures silent { Silent (H.state host.old) (H.state host.new) }
{
    match write_files(host, files) {
        Ok(()) => {}
        Err(name) => return Outcome::Unwritten(name),
    }
    if console.is_empty() {
        return Outcome::Done;
    }
    match host.out(console) {
        Ok(()) => Outcome::Done,
        Err(_) => Outcome::Unwritten("-"),
    }
}

/// Writes files in order, each by a create and an append.
///
/// Errors: the name at which a write failed. The files before it are whole.
pub fn write_files<'n, H: Host>(host: &mut H, files: &[Output<'n, '_>]) -> Result<(), &'n str>
    requires { AreFiles (files_of files.now) }
    ensures files { MatchResult result
        (λ _. FilesWritten (files_of files.now) (H.state host.old) (H.state host.new))
        (λ name. FilesStopped (files_of files.now) name.now (H.state host.old) (H.state host.new)) }
    ensures silent { Silent (H.state host.old) (H.state host.new) }
{
    let Some((file, others)) = files.split_first() else {
        return Ok(());
    };
    if write_file(host, file.name, file.text).is_err() {
        return Err(file.name);
    }
    match write_files(host, others) {
        Ok(()) => Ok(()),
        Err(name) => Err(name),
    }
}

// Makes a name hold this text.
fn write_file<H: Host>(host: &mut H, name: &str, text: &[u8]) -> Result<(), Failed>
    requires { IsName name.now }
    ensures file { MatchResult result
        (λ _. FileWritten name.now text.now (H.state host.old) (H.state host.new))
        (λ _. FileStopped name.now text.now (H.state host.old) (H.state host.new)) }
    ensures silent { Silent (H.state host.old) (H.state host.new) }
{
    host.create(name)?;
    host.append(name, text)
}
