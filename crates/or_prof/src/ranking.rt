// The lines of a core in their order.
ghost use Rattle.std.specs.Prelude.{◌≡◌, ◌≤◌, ◌<◌, OnOk, OnErr, length, vec_capacity};
ghost use Rattle.or_prof.specs.Tally.{AreBelow, count_in, spot_at};
ghost use Rattle.std.specs.List.Sorted.{IsPermutation, IsSorted};
ghost use Rattle.or_prof.specs.Text.{rank as rank_of, lines_of, AreRanked, AreSpots};

use crate::tallying::Tally;
use or_elf::Symbol as Function;
use std::alloc::AllocError;
use std::cmp::Reverse;

// How many items a function has, and its index; or how many items a pc has that no function has, and the pc.
#[derive(Clone, Copy)]
pub struct Line {
    pub count: u32,
    pub key: u32,
}

// Makes the lines of the functions that have a count, in the order of the symbol table.
fn fill(functions: &[Function], tally: &Tally, lines: &mut Vec<Line>) -> Result<(), AllocError>
    requires { AreBelow (length tally.now.by_index) functions.now }
    ensures lines { OnOk result (lines.new.items ≡ lines_of (count_in tally.now) functions.now) }
    ensures full { OnErr result (vec_capacity lines.old < length functions.now) }
    ensures capacity { vec_capacity lines.old ≤ vec_capacity lines.new }
{
    lines.clear();
    for function in functions {
        let count = tally.inside(function.index);
        if count > 0 {
            lines.push(Line {
                count,
                key: function.index,
            })?;
        }
    }
    Ok(())
}

// Makes these lines, ranked: the greatest count first, and of equal counts the least index.
pub fn rank(functions: &[Function], tally: &Tally, lines: &mut Vec<Line>) -> Result<(), AllocError>
    requires { AreBelow (length tally.now.by_index) functions.now }
    ensures ranked { OnOk result (AreRanked (lines_of (count_in tally.now) functions.now) lines.new.items) }
    ensures full { OnErr result (vec_capacity lines.old < length functions.now) }
    ensures capacity { vec_capacity lines.old ≤ vec_capacity lines.new }
{
    fill(functions, tally, lines)?;
    put_in_order(lines);
    Ok(())
}

// Makes the lines of the pcs that have a count, ranked: the greatest count first, and of equal counts the least pc.
pub fn rank_spots(tally: &Tally, lines: &mut Vec<Line>) -> Result<(), AllocError>
    ensures spots { OnOk result (AreSpots (spot_at tally.now.spots) lines.new.items) }
    ensures order { OnOk result (IsSorted rank_of lines.new.items) }
    ensures full { OnErr result (vec_capacity lines.old < length tally.now.spots) }
    ensures capacity { vec_capacity lines.old ≤ vec_capacity lines.new }
{
    tally.spots().list(lines)?;
    put_in_order(lines);
    Ok(())
}

fn put_in_order(lines: &mut Vec<Line>)
    ensures same { IsPermutation lines.old.items lines.new.items }
    ensures order { IsSorted rank_of lines.new.items }
    ensures capacity { vec_capacity lines.old ≤ vec_capacity lines.new }
{
    lines.sort_unstable_by_key(|line| (Reverse(line.count), line.key));
}
