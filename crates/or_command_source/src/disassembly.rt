//! The command `dis`.
ghost use Rattle.std.specs.Prelude.{◌≡◌, ◌≤◌, length};
ghost use Rattle.or_command_line.specs.Words.{IsFileName};
ghost use Rattle.or_command.specs.Leaves.{Silent};
ghost use Rattle.or_command.specs.Loads.{bytes_of};
ghost use Rattle.or_command.specs.Ends.{end_of};
ghost use Rattle.or_command.specs.Outcomes.{CommandOutcome};
ghost use Rattle.or_command.specs.Carried.{IsCarriedOut};
ghost use Rattle.or_command.specs.Answered.{Answers, IsDecided};
ghost use Rattle.or_command_source.specs.Assembly.{only_file as only_file_of};
ghost use Rattle.or_command_source.specs.Listing.{dis_loads, dis_check, DisWrites, DisLacks, listing};
ghost use Rattle.or_command_source.specs.Listed.{DisEnds};

use crate::files::only_file;
use crate::listing::list_segments;
use or_command::{Input, LoadStop, Loaded, Outcome, PieceStop, Refusal, conclude, load_files};
use or_host::Host;
use or_words::limits::{IMAGE_LIMIT, MOST_RAM_BYTES};
use std::alloc::Global;

// How the command ends on an image that was loaded.
#[tactic(auto, unfolding(crate::specs::Listing::listing))]
fn finish<'a, H: Host>(alloc: Global, name: &'a str, image: &[u8], host: &mut H) -> Outcome<'a>
    requires limit { length image.now ≤ IMAGE_LIMIT }
    ensures outcome { DisEnds name.now image.now (end_of result) (H.state host.old) (H.state host.new) }
    ensures silent { Silent (H.state host.old) (H.state host.new) }
{
    let segments = match or_elf::read(image, MOST_RAM_BYTES) {
        Ok(image) => image.segments,
        Err(fault) => {
            return Outcome::Refused(Refusal::Image {
                name,
                fault: fault.number(),
                place: u64::from(fault.place()),
                why: fault.sentence(),
            });
        }
    };
    match list_segments(alloc, image, segments.as_slice(), host) {
        Ok(()) => Outcome::Done,
        Err(PieceStop::Unwritten) => Outcome::Unwritten("-"),
        Err(PieceStop::NoMemory) => Outcome::NoMemory,
    }
}

// Loads an image, and writes its text.
fn disassembled<'a, H: Host>(alloc: Global, image: &'a str, host: &mut H) -> Outcome<'a>
    requires name { IsFileName image.now }
    ensures outcome { CommandOutcome (dis_loads image.now) (dis_check image.now) DisWrites (DisLacks image.now) (end_of result) (H.state host.old) (H.state host.new) }
    ensures silent { Silent (H.state host.old) (H.state host.new) }
{
    let mut files = Loaded::new_in(alloc);
    let input = Input {
        name: image,
        limit: IMAGE_LIMIT,
    };
    match load_files(alloc, host, &[input], &mut files) {
        Ok(()) => finish(alloc, image, only_file(files.as_slice()), host),
        Err(LoadStop::Unread(name)) => Outcome::Unread(name),
        Err(LoadStop::TooLong(name, limit)) => Outcome::TooLong(name, limit),
        Err(LoadStop::NoMemory) => Outcome::NoMemory,
    }
}

/// Writes the words of an image of at most 64 MiB as instructions to standard output, for each segment a line a word, and
/// says how that ended. The image may need up to 256 MiB of RAM.
///
/// Status: 0 all was done, 3 the image has a fault, 5 it was not read, 6 standard output was not written, 7 no memory, 8 the
/// image is too long. After 3, 5 and 8 nothing is written; after 6 and 7 a prefix of the lines may be.
pub fn dis<H: Host>(alloc: Global, image: &str, host: &mut H) -> u8
    requires name { IsFileName image.now }
    ensures ends { Answers (dis_loads image.now) (dis_check image.now) DisWrites (DisLacks image.now) result (H.state host.old) (H.state host.new) }
    ensures decided { IsDecided (dis_loads image.now) (dis_check image.now) DisWrites (DisLacks image.now) result (H.state host.old) (H.state host.new) }
    ensures command { IsCarriedOut result }
{
    let outcome = disassembled(alloc, image, host);
    conclude(host, outcome)
}
