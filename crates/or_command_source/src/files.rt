//! The one file that a command loads, and the one that it writes.
ghost use Rattle.std.specs.Prelude.{◌≡◌, [], ◌∷◌};
ghost use Rattle.or_host.specs.Calls.{IsName};
ghost use Rattle.or_command.specs.Leaves.{Silent};
ghost use Rattle.or_command.specs.Loads.{bytes_of};
ghost use Rattle.or_command.specs.Ends.{end_of};
ghost use Rattle.or_command.specs.Finishing.{WriteEnds};
ghost use Rattle.or_command_source.specs.Assembly.{only_file};

use or_command::{Outcome, Output, write_outputs};
use or_host::Host;

/// The one file that was loaded.
pub(crate) fn only_file(files: &[Vec<u8>]) -> &[u8]
    ensures { result.now ≡ only_file (bytes_of files.now) }
{
    match files {
        [] => &[],
        [file, ..] => file.as_slice(),
    }
}

/// Writes a file, and nothing to standard output.
pub(crate) fn write_file<'a, H: Host>(name: &'a str, text: &[u8], host: &mut H) -> Outcome<'a>
    requires name { IsName name.now }
    ensures outcome { WriteEnds (record { name = name.now; text = text.now } ∷ []) [] (end_of result) (H.state host.old) (H.state host.new) }
    ensures silent { Silent (H.state host.old) (H.state host.new) }
{
    let output = Output { name, text };
    write_outputs(host, &[output], b"")
}
