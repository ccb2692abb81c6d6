//! What a hunt tells of a seed that fails.
ghost use Rattle.std.specs.Prelude.{◌≡◌, ◌++◌, OnOk};
ghost use Rattle.std.specs.List.{flat_map};
ghost use Rattle.or_command_hunt.specs.Hunt.{failure_text, failed_text, hunt_text};

use or_core::Core;
use or_model::Stop;
use or_replay::is_failure;
use or_text::{append_decimal, append_word};
use std::alloc::AllocError;

// Appends how a core fails that stops so.
fn append_failure(stop: Option<Stop>, out: &mut Vec<u8>) -> Result<(), AllocError>
    ensures { OnOk result (out.new.items ≡ out.old.items ++ failure_text stop) }
{
    match stop {
        None => Ok(()),
        Some(Stop::Budget) => out.extend_from_slice(b"budget"),
        Some(Stop::Exit(word)) => {
            out.extend_from_slice(b"exit ")?;
            append_word(word, out)
        }
    }
}

// Appends the line of a core, where it fails.
fn append_failed(core: &Core, out: &mut Vec<u8>) -> Result<(), AllocError>
    ensures { OnOk result (out.new.items ≡ out.old.items ++ failed_text core.now) }
{
    let stop = core.stop();
    if !is_failure(stop) {
        return Ok(());
    }
    out.extend_from_slice(b"core ")?;
    append_decimal(u64::from(core.number()), out)?;
    out.extend_from_slice(b" ")?;
    append_failure(stop, out)?;
    out.extend_from_slice(b"\n")
}

// Appends the lines of the cores that fail.
fn append_all_failed(cores: &[Core], out: &mut Vec<u8>) -> Result<(), AllocError>
    ensures { OnOk result (out.new.items ≡ out.old.items ++ flat_map failed_text cores.now) }
{
    for core in cores {
        append_failed(core, out)?;
    }
    Ok(())
}

/// Appends the text of a hunt.
#[tactic(auto, unfolding(crate::specs::Hunt::hunt_text))]
pub(crate) fn append_told(
    seed: u32,
    count: u32,
    turns: u64,
    cores: &[Core],
    out: &mut Vec<u8>,
) -> Result<(), AllocError>
    ensures { OnOk result (out.new.items ≡ out.old.items ++ hunt_text seed count turns cores.now) }
{
    out.extend_from_slice(b"hunt seed ")?;
    append_decimal(u64::from(seed), out)?;
    out.extend_from_slice(b" try ")?;
    append_decimal(u64::from(count), out)?;
    out.extend_from_slice(b" turns ")?;
    append_decimal(turns, out)?;
    out.extend_from_slice(b"\n")?;
    append_all_failed(cores, out)
}
