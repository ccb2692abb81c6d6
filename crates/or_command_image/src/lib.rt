//! Loads an image and a console's input, and what the commands have in common that open a board over them.
#![tactic(auto)]

ghost use Rattle.std.specs.Prelude.{◌≡◌, ◌≢◌, [], false, codes, MatchResult};
ghost use Rattle.std.specs.Str.{bytes_eq};
ghost use Rattle.or_host.specs.Calls.{IsName};
ghost use Rattle.or_command.specs.Leaves.{Silent};
ghost use Rattle.or_command.specs.Loads.{bytes_of, LoadsAll, LoadsSome};
ghost use Rattle.or_command_image.specs.Loaded.{image_loads, image_in, input_in, file_at};

mod opened;
mod written;

pub use opened::{head, input_for_board, refused};
use or_command::{Input, LoadStop, Loaded, load_files};
use or_host::Host;
use or_words::limits::{IMAGE_LIMIT, INPUT_LIMIT};
use std::alloc::Global;
pub use written::{Reported, recording_if, report_if, write_recorded};

/// Loads the image, and then the input where its name is not `-`, into an empty list.
pub fn load_image<'a, H: Host>(
    alloc: Global,
    host: &mut H,
    image: &'a str,
    input: &'a str,
    into: &mut Loaded,
) -> Result<(), LoadStop<'a>>
    requires image { IsName image.now }
    requires input { bytes_eq input.now (codes "-") ≡ false → IsName input.now }
    requires empty { into.old.items ≡ [] }
    ensures files { MatchResult result
        (λ _. LoadsAll (image_loads image.now input.now) (bytes_of into.old.items) (bytes_of into.new.items) (H.state host.old) (H.state host.new))
        (λ stop. LoadsSome (image_loads image.now input.now) stop (bytes_of into.old.items) (bytes_of into.new.items) (H.state host.old) (H.state host.new)) }
    ensures silent { Silent (H.state host.old) (H.state host.new) }
{
    let image = Input {
        name: image,
        limit: IMAGE_LIMIT,
    };
    if input == "-" {
        return load_files(alloc, host, &[image], into);
    }
    let input = Input {
        name: input,
        limit: INPUT_LIMIT,
    };
    load_files(alloc, host, &[image, input], into)
}

/// The image among the files that were loaded.
pub fn image_in(files: &[Vec<u8>]) -> &[u8]
    ensures { result.now ≡ image_in (bytes_of files.now) }
{
    match files {
        [] => &[],
        [image, ..] => image.as_slice(),
    }
}

/// The input among the files that were loaded.
pub fn input_in(files: &[Vec<u8>]) -> &[u8]
    ensures { result.now ≡ input_in (bytes_of files.now) }
{
    match files {
        [] => &[],
        [_] => &[],
        [_, input, ..] => input.as_slice(),
    }
}

/// The file at a place, from 0, among those that were loaded; empty where there is none.
pub fn file_at(files: &[Vec<u8>], place: usize) -> &[u8]
    ensures { result.now ≡ file_at (bytes_of files.now) place }
{
    if place >= files.len() {
        return &[];
    }
    files[place].as_slice()
}
