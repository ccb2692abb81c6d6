// The text of a core.
ghost use Rattle.std.specs.Prelude.{◌≡◌, ◌≤◌, ◌<◌, ◌+◌, ◌++◌, ℕ, List, OnOk, OnErr, length, take, vec_capacity, vec_len};
ghost use Rattle.std.specs.List.{flat_map};
ghost use Rattle.or_text.specs.Keeps.{Keeps};
ghost use Rattle.or_prof.specs.Tally.{AreBelow, count_in, spot_at};
ghost use Rattle.or_prof.specs.Text.{line_text, outside_text, spot_text, core_line, front_text, IsHotText, IsCoreText, Appends};

use crate::ranking::{Line, rank, rank_spots};
use crate::tallying::Tally;
use or_elf::Symbols;
use or_text::{append_decimal, append_word};
use std::alloc::AllocError;

// How many pcs of a core have a line, at most.
const SHOWN: usize = 8;

fn append_line(symbols: &Symbols, line: Line, out: &mut Vec<u8>) -> Result<(), AllocError>
    ensures text { OnOk result (out.new.items ≡ out.old.items ++ line_text symbols.now line) }
    ensures full { OnErr result (vec_capacity out.old < vec_len out.old + length (line_text symbols.now line)) }
    ensures capacity { vec_capacity out.old ≤ vec_capacity out.new }
    ensures kept { Keeps out.old.items out.new.items }
{
    append_decimal(u64::from(line.count), out)?;
    out.extend_from_slice(b" ")?;
    if symbols.name(line.key, out).is_err() {
        return Err(AllocError);
    }
    out.extend_from_slice(b"\n")
}

fn append_lines(symbols: &Symbols, lines: &[Line], out: &mut Vec<u8>) -> Result<(), AllocError>
    ensures text { OnOk result (out.new.items ≡ out.old.items ++ flat_map (line_text symbols.now) lines.now) }
    ensures full { OnErr result (vec_capacity out.old < vec_len out.old + length (flat_map (line_text symbols.now) lines.now)) }
    ensures capacity { vec_capacity out.old ≤ vec_capacity out.new }
    ensures kept { Keeps out.old.items out.new.items }
{
    for line in lines {
        append_line(symbols, *line, out)?;
    }
    Ok(())
}

fn append_outside(count: u32, out: &mut Vec<u8>) -> Result<(), AllocError>
    ensures text { OnOk result (out.new.items ≡ out.old.items ++ outside_text count) }
    ensures full { OnErr result (vec_capacity out.old < vec_len out.old + length (outside_text count)) }
    ensures capacity { vec_capacity out.old ≤ vec_capacity out.new }
    ensures kept { Keeps out.old.items out.new.items }
{
    if count == 0 {
        return Ok(());
    }
    append_decimal(u64::from(count), out)?;
    out.extend_from_slice(b" ?\n")
}

#[tactic(auto, unfolding(crate::specs::Text::core_line))]
fn append_head(core: usize, steps: u32, out: &mut Vec<u8>) -> Result<(), AllocError>
    ensures text { OnOk result (out.new.items ≡ out.old.items ++ core_line core steps) }
    ensures full { OnErr result (vec_capacity out.old < vec_len out.old + length (core_line core steps)) }
    ensures capacity { vec_capacity out.old ≤ vec_capacity out.new }
    ensures kept { Keeps out.old.items out.new.items }
{
    out.extend_from_slice(b"core ")?;
    append_decimal(core as u64, out)?;
    out.extend_from_slice(b" steps ")?;
    append_decimal(u64::from(steps), out)?;
    out.extend_from_slice(b"\n")
}

// Appends the text of a core whose lines these are, but for its pcs.
fn append_ranked(
    symbols: &Symbols,
    core: usize,
    tally: &Tally,
    lines: &[Line],
    out: &mut Vec<u8>,
) -> Result<(), AllocError>
    ensures text { OnOk result (out.new.items ≡ out.old.items ++ (front_text symbols.now core tally.now.steps (count_in tally.now) lines.now)) }
    ensures full { OnErr result (vec_capacity out.old < vec_len out.old + length (front_text symbols.now core tally.now.steps (count_in tally.now) lines.now)) }
    ensures capacity { vec_capacity out.old ≤ vec_capacity out.new }
    ensures kept { Keeps out.old.items out.new.items }
{
    append_head(core, tally.steps(), out)?;
    append_lines(symbols, lines, out)?;
    append_outside(tally.outside(), out)
}

fn append_spot(line: Line, out: &mut Vec<u8>) -> Result<(), AllocError>
    ensures text { OnOk result (out.new.items ≡ out.old.items ++ spot_text line) }
    ensures full { OnErr result (vec_capacity out.old < vec_len out.old + length (spot_text line)) }
    ensures capacity { vec_capacity out.old ≤ vec_capacity out.new }
    ensures kept { Keeps out.old.items out.new.items }
{
    append_decimal(u64::from(line.count), out)?;
    out.extend_from_slice(b" ? ")?;
    append_word(line.key, out)?;
    out.extend_from_slice(b"\n")
}

fn append_spots(lines: &[Line], out: &mut Vec<u8>) -> Result<(), AllocError>
    ensures text { OnOk result (out.new.items ≡ out.old.items ++ flat_map spot_text lines.now) }
    ensures full { OnErr result (vec_capacity out.old < vec_len out.old + length (flat_map spot_text lines.now)) }
    ensures capacity { vec_capacity out.old ≤ vec_capacity out.new }
    ensures kept { Keeps out.old.items out.new.items }
{
    for line in lines {
        append_spot(*line, out)?;
    }
    Ok(())
}

// Appends the lines of the pcs with the greatest counts. The list of lines has room for one of each pc.
fn append_hot(tally: &Tally, lines: &mut Vec<Line>, out: &mut Vec<u8>) -> Result<(), AllocError>
    requires room { length tally.now.spots ≤ vec_capacity lines.old }
    ensures text { OnOk result (Appends (IsHotText (spot_at tally.now.spots)) out.old.items out.new.items) }
    ensures full { OnErr result ((text : List ℕ) → IsHotText (spot_at tally.now.spots) text → vec_capacity out.old < vec_len out.old + length text) }
    ensures capacity { vec_capacity out.old ≤ vec_capacity out.new }
    ensures kept { Keeps out.old.items out.new.items }
    ensures room { vec_capacity lines.old ≤ vec_capacity lines.new }
{
    rank_spots(tally, lines)?;
    append_spots(hottest(lines), out)
}

// The first of ranked lines.
fn hottest(lines: &[Line]) -> &[Line]
    ensures { result.now ≡ take 8 lines.now }
{
    &lines[..lines.len().min(SHOWN)]
}

// Appends the text of a core. The list of lines has room for one of each function, or of each pc.
pub fn append_core(
    symbols: &Symbols,
    core: usize,
    tally: &Tally,
    lines: &mut Vec<Line>,
    out: &mut Vec<u8>,
) -> Result<(), AllocError>
    requires below { AreBelow (length tally.now.by_index) symbols.now.functions }
    requires room { length symbols.now.functions ≤ vec_capacity lines.old }
    requires spots { length tally.now.spots ≤ vec_capacity lines.old }
    ensures text { OnOk result (Appends (IsCoreText symbols.now core tally.now.steps (count_in tally.now) (spot_at tally.now.spots)) out.old.items out.new.items) }
    ensures full { OnErr result ((text : List ℕ) → IsCoreText symbols.now core tally.now.steps (count_in tally.now) (spot_at tally.now.spots) text → vec_capacity out.old < vec_len out.old + length text) }
    ensures capacity { vec_capacity out.old ≤ vec_capacity out.new }
    ensures kept { Keeps out.old.items out.new.items }
    ensures room { vec_capacity lines.old ≤ vec_capacity lines.new }
{
    rank(symbols.functions(), tally, lines)?;
    append_ranked(symbols, core, tally, lines, out)?;
    append_hot(tally, lines, out)
}
