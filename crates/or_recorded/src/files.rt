//! The files of a command on a recorded run.
ghost use Rattle.std.specs.Prelude.{◌≡◌, [], MatchResult};
ghost use Rattle.or_command.specs.Leaves.{Silent};
ghost use Rattle.or_command.specs.Loads.{bytes_of, LoadsAll, LoadsSome};
ghost use Rattle.or_recorded.specs.Files.{names_of, AreNames, loads, files_in};

use or_command::{Input, LoadStop, Loaded, load_files};
use or_command_image::file_at;
use or_command_line::Recorded;
use or_host::Host;
use or_words::limits::{IMAGE_LIMIT, INPUT_LIMIT, RECORDING_LIMIT, SCRIPT_LIMIT};
use std::alloc::Global;

/// The names of the files of a command on a recorded run.
#[derive(Clone, Copy)]
pub struct Names<'a> {
    pub run: Recorded<'a>,
    /// The script, where the command reads one.
    pub script: Option<&'a str>,
    /// The report, where the command writes one; `-` for none.
    pub report: Option<&'a str>,
}

/// The bytes of these files; those that are not there are empty.
#[derive(Clone, Copy)]
pub struct Files<'f> {
    pub image: &'f [u8],
    pub input: &'f [u8],
    pub recording: &'f [u8],
    pub script: &'f [u8],
}

/// Loads the image, the input where its name is not `-`, the recording, and the script where there is one, into an empty list.
pub(crate) fn load<'a, H: Host>(
    alloc: Global,
    names: &Names<'a>,
    host: &mut H,
    into: &mut Loaded,
) -> Result<(), LoadStop<'a>>
    requires names { AreNames (names_of names.now) }
    requires empty { into.old.items ≡ [] }
    ensures files { MatchResult result
        (λ _. LoadsAll (loads (names_of names.now)) (bytes_of into.old.items) (bytes_of into.new.items) (H.state host.old) (H.state host.new))
        (λ stop. LoadsSome (loads (names_of names.now)) stop (bytes_of into.old.items) (bytes_of into.new.items) (H.state host.old) (H.state host.new)) }
    ensures silent { Silent (H.state host.old) (H.state host.new) }
{
    let image = Input {
        name: names.run.image,
        limit: IMAGE_LIMIT,
    };
    let input = Input {
        name: names.run.input,
        limit: INPUT_LIMIT,
    };
    let recording = Input {
        name: names.run.schedule,
        limit: RECORDING_LIMIT,
    };
    let Some(script) = names.script else {
        if names.run.input == "-" {
            return load_files(alloc, host, &[image, recording], into);
        }
        return load_files(alloc, host, &[image, input, recording], into);
    };
    let script = Input {
        name: script,
        limit: SCRIPT_LIMIT,
    };
    if names.run.input == "-" {
        return load_files(alloc, host, &[image, recording, script], into);
    }
    load_files(alloc, host, &[image, input, recording, script], into)
}

/// The files among those that were loaded.
pub(crate) fn named<'f>(names: &Names<'_>, read: &'f [Vec<u8>]) -> Files<'f>
    ensures image { result.image.now ≡ (files_in (names_of names.now) (bytes_of read.now)).image }
    ensures input { result.input.now ≡ (files_in (names_of names.now) (bytes_of read.now)).input }
    ensures recording { result.recording.now ≡ (files_in (names_of names.now) (bytes_of read.now)).recording }
    ensures script { result.script.now ≡ (files_in (names_of names.now) (bytes_of read.now)).script }
{
    if names.run.input == "-" {
        return Files {
            image: file_at(read, 0),
            input: &[],
            recording: file_at(read, 1),
            script: file_at(read, 2),
        };
    }
    Files {
        image: file_at(read, 0),
        input: file_at(read, 1),
        recording: file_at(read, 2),
        script: file_at(read, 3),
    }
}
