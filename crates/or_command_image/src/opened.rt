//! What the commands do that open an image: the copy of the input, the head of a recording, and how a fault of the image ends the
//! command.
ghost use Rattle.std.specs.Prelude.{◌≡◌, ◌≤◌, ℕ, List, None, MatchResult, length};
ghost use Rattle.or_words.specs.Settings.{Fits, ram_bytes};
ghost use Rattle.or_words.specs.declared.limits.TheConstants.{IMAGE_LIMIT};
ghost use Rattle.or_elf.specs.Fault.{elf_fault};
ghost use Rattle.or_replay.specs.Opening.{FailsToOpen};
ghost use Rattle.or_command.specs.Ends.{end_of};
ghost use Rattle.or_command.specs.Answered.{Stops};
ghost use Rattle.or_command_image.specs.Loaded.{image_check};
ghost use Rattle.or_command_image.specs.Opened.{head_of};

use or_command::{Outcome, Refusal};
use or_replay::OpenFault;
use or_sched::Head;
use or_words::Config;
use or_words::limits::MIB;
use sha2::{Digest, Sha256};
use std::alloc::Global;

/// The head of a recording.
#[tactic(auto, unfolding(crate::specs::Opened::head_of))]
pub fn head(config: &Config, image: &[u8], input: &[u8]) -> Head
    ensures { result ≡ head_of config.now image.now input.now }
{
    Head {
        config: *config,
        image: Sha256::digest(image),
        input: Sha256::digest(input),
    }
}

/// A copy of the input, for a board with these settings over an image of at most 64 MiB. The image is checked before that.
///
/// Errors: Elf exactly where the image has this fault; NoMemory.
pub fn input_for_board(
    alloc: Global,
    config: &Config,
    image: &[u8],
    input: &[u8],
) -> Result<Vec<u8>, OpenFault>
    requires fits { Fits config.now }
    requires limit { length image.now ≤ IMAGE_LIMIT }
    ensures { MatchResult result
        (λ bytes. (elf_fault image.now (ram_bytes config.now) ≡ None) × (bytes.items ≡ input.now))
        (λ fault. FailsToOpen image.now (ram_bytes config.now) fault) }
{
    if let Err(fault) = or_elf::read(image, config.ram * MIB) {
        return Err(OpenFault::Elf(fault));
    }
    match Vec::from_slice(alloc, input) {
        Ok(bytes) => Ok(bytes),
        Err(_) => Err(OpenFault::NoMemory),
    }
}

/// How the command ends on an image of this name that can't be opened.
pub fn refused(name: &str, fault: OpenFault) -> Outcome<'_>
    ensures { (image : List ℕ) (ram : ℕ) → FailsToOpen image ram fault → Stops (image_check name.now (elf_fault image ram)) (end_of result) }
{
    match fault {
        OpenFault::NoMemory => Outcome::NoMemory,
        OpenFault::Elf(fault) => Outcome::Refused(Refusal::Image {
            name,
            fault: fault.number(),
            place: u64::from(fault.place()),
            why: fault.sentence(),
        }),
    }
}
