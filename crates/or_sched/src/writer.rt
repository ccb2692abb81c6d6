// The text of a recording.
ghost use Rattle.std.specs.Prelude.{◌≡◌, ◌≤◌, ◌<◌, ◌*◌, ◌+◌, ◌++◌, [], ◌∷◌, All, List, ℕ, length, OnOk, OnErr, IfOk, vec_capacity, vec_len};
ghost use Rattle.or_words.specs.declared.limits.TheConstants.{MOST_CORES};
ghost use Rattle.or_words.specs.Settings.{Fits};
ghost use Rattle.or_sched.specs.RecText.{rec_text2};
ghost use Rattle.or_sched.specs.HeadText.{head_text2, config_line, form_text, digest_line};
ghost use Rattle.or_sched.specs.Blocks.{blocks_text, mark_line};
ghost use Rattle.or_sched.specs.Runs.{block_text, lines_text, run_text};
ghost use Rattle.or_sched.specs.Schedule.{IsSchedule, AreMarks};

use crate::recording::{Head, Mark};
use or_text::{append_decimal, append_digest};
use or_words::limits::BLOCK;
use or_words::{Config, NoMemory};
use std::alloc::AllocError;

/// Writes the recording of some turns, in version 2, to an empty list.
///
/// The turns are the numbers of their cores; there are 1 to `cores` × `budget` of them. After each whole block of 65536
/// turns stands a mark, whose numbers are at most that of the turns before it. NoMemory leaves the list empty, and comes
/// only where it lacks the capacity for the whole text.
pub fn write(head: &Head, turns: &[u8], marks: &[Mark], out: &mut Vec<u8>) -> Result<(), NoMemory>
    requires empty { out.old.items ≡ [] }
    requires settings { Fits head.now.config }
    requires turns { IsSchedule head.now.config turns.now }
    requires marks { AreMarks turns.now marks.now }
    ensures ok { OnOk result (out.new.items ≡ rec_text2 head.now turns.now marks.now) }
    ensures err { OnErr result (out.new.items ≡ []) }
    ensures full { OnErr result (vec_capacity out.old < length (rec_text2 head.now turns.now marks.now)) }
{
    match append_recording(head, turns, marks, out) {
        Ok(()) => Ok(()),
        Err(_) => {
            out.clear();
            Err(NoMemory)
        }
    }
}

#[tactic(auto, unfolding(crate::specs::RecText::rec_text2))]
fn append_recording(
    head: &Head,
    turns: &[u8],
    marks: &[Mark],
    out: &mut Vec<u8>,
) -> Result<(), AllocError>
    requires marks { BLOCK * length marks.now ≤ length turns.now }
    requires cores { All (λ turn. turn < MOST_CORES) turns.now }
    ensures text { OnOk result (out.new.items ≡ out.old.items ++ rec_text2 head.now turns.now marks.now) }
    ensures full { OnErr result (vec_capacity out.old < vec_len out.old + length (rec_text2 head.now turns.now marks.now)) }
    ensures capacity { vec_capacity out.old ≤ vec_capacity out.new }
{
    append_head(head, out)?;
    append_blocks(BLOCK, turns, marks, out)
}

fn append_head(head: &Head, out: &mut Vec<u8>) -> Result<(), AllocError>
    ensures text { OnOk result (out.new.items ≡ out.old.items ++ head_text2 head.now) }
    ensures full { OnErr result (vec_capacity out.old < vec_len out.old + length (head_text2 head.now)) }
    ensures capacity { vec_capacity out.old ≤ vec_capacity out.new }
{
    out.extend_from_slice(b"orsched 2\n")?;
    append_config(&head.config, out)?;
    append_digest_line(b"image ", &head.image, out)?;
    append_digest_line(b"input ", &head.input, out)
}

fn append_config(config: &Config, out: &mut Vec<u8>) -> Result<(), AllocError>
    ensures text { OnOk result (out.new.items ≡ out.old.items ++ config_line config.now) }
    ensures full { OnErr result (vec_capacity out.old < vec_len out.old + length (config_line config.now)) }
    ensures capacity { vec_capacity out.old ≤ vec_capacity out.new }
{
    out.extend_from_slice(b"cores ")?;
    append_decimal(u64::from(config.cores), out)?;
    out.extend_from_slice(b" budget ")?;
    append_decimal(u64::from(config.budget), out)?;
    out.extend_from_slice(b" ram ")?;
    append_decimal(u64::from(config.ram), out)?;
    append_form(config.latched, out)?;
    out.extend_from_slice(b"\n")
}

// Appends the form of the PIC, where it latches.
fn append_form(latched: bool, out: &mut Vec<u8>) -> Result<(), AllocError>
    ensures text { OnOk result (out.new.items ≡ out.old.items ++ form_text latched) }
    ensures full { OnErr result (vec_capacity out.old < vec_len out.old + length (form_text latched)) }
    ensures capacity { vec_capacity out.old ≤ vec_capacity out.new }
{
    if latched {
        return out.extend_from_slice(b" pic latched");
    }
    Ok(())
}

fn append_digest_line(name: &[u8], bytes: &[u8], out: &mut Vec<u8>) -> Result<(), AllocError>
    ensures text { OnOk result (out.new.items ≡ out.old.items ++ digest_line name.now bytes.now) }
    ensures full { OnErr result (vec_capacity out.old < vec_len out.old + length (digest_line name.now bytes.now)) }
    ensures capacity { vec_capacity out.old ≤ vec_capacity out.new }
{
    out.extend_from_slice(name)?;
    append_digest(bytes, out)?;
    out.extend_from_slice(b"\n")
}

// Appends blocks of this many turns with their marks, and the turns that are left.
fn append_blocks(
    block: usize,
    turns: &[u8],
    marks: &[Mark],
    out: &mut Vec<u8>,
) -> Result<(), AllocError>
    requires marks { block * length marks.now ≤ length turns.now }
    requires cores { All (λ turn. turn < MOST_CORES) turns.now }
    ensures text { OnOk result (out.new.items ≡ out.old.items ++ blocks_text block marks.now turns.now) }
    ensures full { OnErr result (vec_capacity out.old < vec_len out.old + length (blocks_text block marks.now turns.now)) }
    ensures capacity { vec_capacity out.old ≤ vec_capacity out.new }
{
    let mut rest = turns;
    let mut marks_left = marks;
    while let Some((mark, after)) = marks_left.split_first() {
        let (turns, later) = rest.split_at(block);
        append_block(turns, out)?;
        append_mark(mark, out)?;
        rest = later;
        marks_left = after;
    }
    append_block(rest, out)
}

fn append_mark(mark: &Mark, out: &mut Vec<u8>) -> Result<(), AllocError>
    ensures text { OnOk result (out.new.items ≡ out.old.items ++ mark_line mark.now) }
    ensures full { OnErr result (vec_capacity out.old < vec_len out.old + length (mark_line mark.now)) }
    ensures capacity { vec_capacity out.old ≤ vec_capacity out.new }
{
    out.extend_from_slice(b"mark ")?;
    append_decimal(mark.writes, out)?;
    out.extend_from_slice(b" ")?;
    append_decimal(mark.console, out)?;
    out.extend_from_slice(b"\n")
}

// Appends the run lines of a block.
fn append_block(turns: &[u8], out: &mut Vec<u8>) -> Result<(), AllocError>
    requires { All (λ turn. turn < MOST_CORES) turns.now }
    ensures text { OnOk result (out.new.items ≡ out.old.items ++ block_text turns.now) }
    ensures full { OnErr result (vec_capacity out.old < vec_len out.old + length (block_text turns.now)) }
    ensures capacity { vec_capacity out.old ≤ vec_capacity out.new }
{
    let [first, others @ ..] = turns else {
        return Ok(());
    };
    let mut core = *first;
    let mut count: u64 = 1;
    let mut left: u8 = 16;
    let mut rest = others;
    while let [turn, after @ ..] = rest {
        if *turn == core {
            count += 1;
        } else {
            left = append_run(core, count, left, out)?;
            core = *turn;
            count = 1;
        }
        rest = after;
    }
    append_run(core, count, left, out)?;
    out.push(b'\n')?;
    Ok(())
}

// Appends a run, behind a line feed where its line is full, and answers how many more have room.
fn append_run(core: u8, count: u64, left: u8, out: &mut Vec<u8>) -> Result<u8, AllocError>
    requires core { core < MOST_CORES }
    requires left { left ≤ 16 }
    // Behind it and what follows stands what stood behind the old bytes.
    ensures text { IfOk result (λ room. (others : List (ℕ × ℕ)) →
        out.new.items ++ lines_text room others ≡ out.old.items ++ lines_text left ((core, count) ∷ others)) }
    ensures room { IfOk result (λ room. room < 16) }
    ensures full { OnErr result ((others : List (ℕ × ℕ)) →
        vec_capacity out.old < vec_len out.old + length (lines_text left ((core, count) ∷ others))) }
    ensures capacity { vec_capacity out.old ≤ vec_capacity out.new }
{
    if left == 0 {
        out.push(b'\n')?;
        append_run_text(core, count, out)?;
        return Ok(15);
    }
    append_run_text(core, count, out)?;
    Ok(left - 1)
}

// Appends the letter, and the count where it isn't 1.
fn append_run_text(core: u8, count: u64, out: &mut Vec<u8>) -> Result<(), AllocError>
    requires { core < MOST_CORES }
    ensures text { OnOk result (out.new.items ≡ out.old.items ++ run_text (core, count)) }
    ensures full { OnErr result (vec_capacity out.old < vec_len out.old + length (run_text (core, count))) }
    ensures capacity { vec_capacity out.old ≤ vec_capacity out.new }
{
    out.push(b'a' + core)?;
    if count == 1 {
        return Ok(());
    }
    append_decimal(count, out)
}
