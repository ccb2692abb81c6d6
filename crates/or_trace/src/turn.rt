//! The text of a turn.
ghost use Rattle.std.specs.Prelude.{◌≡◌, ◌≤◌, ◌<◌, ◌+◌, ◌++◌, OnOk, OnErr, length, vec_capacity, vec_len};
ghost use Rattle.or_text.specs.Keeps.{Keeps};
ghost use Rattle.or_trace.specs.Text.{head_text, steps_text, turn_text};

use crate::steps::append_steps;
use or_core::TracedStep;
use or_elf::Labels;
use or_text::{append_decimal, core_letter};
use or_words::NoMemory;
use std::alloc::AllocError;

// Appends the line of a turn.
fn append_head(number: u32, core: u32, out: &mut Vec<u8>) -> Result<(), AllocError>
    ensures text { OnOk result (out.new.items ≡ out.old.items ++ head_text number core) }
    ensures full { OnErr result (vec_capacity out.old < vec_len out.old + length (head_text number core)) }
    ensures capacity { vec_capacity out.old ≤ vec_capacity out.new }
    ensures kept { Keeps out.old.items out.new.items }
{
    out.extend_from_slice(b"turn ")?;
    append_decimal(u64::from(number), out)?;
    out.extend_from_slice(&[b' ', core_letter(core), b'\n'])
}

/// Appends the text of a turn: its line, with its number, counted from 1, and its core's letter, and the lines of its steps,
/// with the names of the functions that begin at them. The only memory that it takes is the list's. Errors: NoMemory where the
/// list has no room for the whole text and gets none; a part of it may then stand behind what the list held.
#[tactic(auto, unfolding(crate::specs::Text::turn_text))]
pub fn append_turn(
    labels: &Labels,
    number: u32,
    core: u32,
    steps: &[TracedStep],
    out: &mut Vec<u8>,
) -> Result<(), NoMemory>
    ensures text { OnOk result (out.new.items ≡ out.old.items ++ turn_text labels.now number core steps.now) }
    ensures full { OnErr result (vec_capacity out.old < vec_len out.old + length (turn_text labels.now number core steps.now)) }
    ensures capacity { vec_capacity out.old ≤ vec_capacity out.new }
    ensures kept { Keeps out.old.items out.new.items }
{
    append_head(number, core, out)?;
    append_steps(labels, steps, out)?;
    Ok(())
}
