//! Breakpoints, watchpoints and store points.
ghost use Rattle.std.specs.Prelude.{◌≡◌, ◌≤◌, ◌<◌, ◌+◌, ◌++◌, OnOk, OnErr, length, map, vec_capacity, vec_len};
ghost use Rattle.std.specs.List.{flat_map};
ghost use Rattle.or_model.specs.Turn.{Board as BoardModel};
ghost use Rattle.or_replay.specs.Board.{IsBoard};
ghost use Rattle.or_debug.specs.Hits.{break_line, words_text, change_line, changed_line, is_at, stored_line, store_words};
ghost use Rattle.or_debug.specs.Standing.{seen, seen_line, seen_store};

use crate::turns::MadeTurn;
use or_replay::{Board, Breakpoint};
use or_text::{append_decimal, append_word};
use std::alloc::AllocError;

/// A watchpoint is hit where a turn changed the word of RAM at the address from the word that was seen last, a store point
/// where a turn stored to it.
#[derive(Clone, Copy, Debug, PartialEq, Eq)]
pub struct Watchpoint {
    pub address: u32,
    pub word: Option<u32>,
}

fn append_break(point: Breakpoint, made: MadeTurn, text: &mut Vec<u8>) -> Result<(), AllocError>
    ensures text { OnOk result (text.new.items ≡ text.old.items ++ break_line made point) }
    ensures full { OnErr result (vec_capacity text.old < vec_len text.old + length (break_line made point)) }
    ensures capacity { vec_capacity text.old ≤ vec_capacity text.new }
{
    let core = u32::from(made.core);
    if !point.is_hit(core, made.pc) {
        return Ok(());
    }
    text.extend_from_slice(b"break turn ")?;
    append_decimal(made.turn, text)?;
    text.extend_from_slice(b" core ")?;
    append_decimal(u64::from(core), text)?;
    text.extend_from_slice(b"\n")
}

// The lines of the breakpoints that a turn hits.
pub(crate) fn append_breaks(
    points: &[Breakpoint],
    made: MadeTurn,
    text: &mut Vec<u8>,
) -> Result<(), AllocError>
    ensures text { OnOk result (text.new.items ≡ text.old.items ++ flat_map (break_line made) points.now) }
    ensures full { OnErr result (vec_capacity text.old < vec_len text.old + length (flat_map (break_line made) points.now)) }
    ensures capacity { vec_capacity text.old ≤ vec_capacity text.new }
{
    for point in points {
        append_break(*point, made, text)?;
    }
    Ok(())
}

// A word of RAM before and after a turn, at the end of a line.
fn append_words(address: u32, old: u32, new: u32, text: &mut Vec<u8>) -> Result<(), AllocError>
    ensures text { OnOk result (text.new.items ≡ text.old.items ++ words_text address old new) }
    ensures full { OnErr result (vec_capacity text.old < vec_len text.old + length (words_text address old new)) }
    ensures capacity { vec_capacity text.old ≤ vec_capacity text.new }
{
    text.extend_from_slice(b" ")?;
    append_word(address, text)?;
    text.extend_from_slice(b" ")?;
    append_word(old, text)?;
    text.extend_from_slice(b" ")?;
    append_word(new, text)?;
    text.extend_from_slice(b"\n")
}

fn append_changed(
    turn: u64,
    address: u32,
    old: u32,
    new: u32,
    text: &mut Vec<u8>,
) -> Result<(), AllocError>
    ensures text { OnOk result (text.new.items ≡ text.old.items ++ changed_line turn address old new) }
    ensures full { OnErr result (vec_capacity text.old < vec_len text.old + length (changed_line turn address old new)) }
    ensures capacity { vec_capacity text.old ≤ vec_capacity text.new }
{
    text.extend_from_slice(b"watch turn ")?;
    append_decimal(turn, text)?;
    append_words(address, old, new, text)
}

// The line of a turn that changed a word.
fn append_change(
    turn: u64,
    address: u32,
    old: Option<u32>,
    new: Option<u32>,
    text: &mut Vec<u8>,
) -> Result<(), AllocError>
    ensures text { OnOk result (text.new.items ≡ text.old.items ++ change_line turn address old new) }
    ensures full { OnErr result (vec_capacity text.old < vec_len text.old + length (change_line turn address old new)) }
    ensures capacity { vec_capacity text.old ≤ vec_capacity text.new }
{
    match old {
        None => Ok(()),
        Some(old) => match new {
            None => Ok(()),
            Some(new) => {
                if old == new {
                    Ok(())
                } else {
                    append_changed(turn, address, old, new, text)
                }
            }
        },
    }
}

// A watchpoint with the word that RAM has now.
pub(crate) fn look(point: Watchpoint, board: &mut Board) -> Watchpoint
    ensures point { (now : BoardModel) → IsBoard board.old.cores board.old.bus now → result ≡ seen now.world.ram point }
    ensures board { (now : BoardModel) → IsBoard board.old.cores board.old.bus now → IsBoard board.new.cores board.new.bus now }
    ensures config { board.new.config ≡ board.old.config }
{
    Watchpoint {
        address: point.address,
        word: board.word(point.address),
    }
}

// The lines of the watchpoints whose words a turn changed.
pub(crate) fn append_changes(
    points: &[Watchpoint],
    turn: u64,
    board: &mut Board,
    text: &mut Vec<u8>,
) -> Result<(), AllocError>
    ensures text { OnOk result ((now : BoardModel) → IsBoard board.old.cores board.old.bus now → text.new.items ≡ text.old.items ++ flat_map (seen_line turn now.world.ram) points.now) }
    ensures full { OnErr result ((now : BoardModel) → IsBoard board.old.cores board.old.bus now → vec_capacity text.old < vec_len text.old + length (flat_map (seen_line turn now.world.ram) points.now)) }
    ensures capacity { vec_capacity text.old ≤ vec_capacity text.new }
    ensures board { (now : BoardModel) → IsBoard board.old.cores board.old.bus now → IsBoard board.new.cores board.new.bus now }
    ensures config { board.new.config ≡ board.old.config }
{
    for point in points {
        let word = board.word(point.address);
        append_change(turn, point.address, point.word, word, text)?;
    }
    Ok(())
}

// Whether this is the address.
fn is_at(word: Option<u32>, address: u32) -> bool
    ensures { result ≡ is_at word address }
{
    match word {
        None => false,
        Some(word) => word == address,
    }
}

fn append_stored(
    made: MadeTurn,
    address: u32,
    old: u32,
    new: u32,
    text: &mut Vec<u8>,
) -> Result<(), AllocError>
    ensures text { OnOk result (text.new.items ≡ text.old.items ++ stored_line made address old new) }
    ensures full { OnErr result (vec_capacity text.old < vec_len text.old + length (stored_line made address old new)) }
    ensures capacity { vec_capacity text.old ≤ vec_capacity text.new }
{
    text.extend_from_slice(b"store turn ")?;
    append_decimal(made.turn, text)?;
    text.extend_from_slice(b" core ")?;
    append_decimal(u64::from(made.core), text)?;
    append_words(address, old, new, text)
}

// The line of a turn that stored to a word.
fn append_store(
    made: MadeTurn,
    address: u32,
    old: Option<u32>,
    new: Option<u32>,
    text: &mut Vec<u8>,
) -> Result<(), AllocError>
    ensures text { OnOk result (text.new.items ≡ text.old.items ++ store_words made address old new) }
    ensures full { OnErr result (vec_capacity text.old < vec_len text.old + length (store_words made address old new)) }
    ensures capacity { vec_capacity text.old ≤ vec_capacity text.new }
{
    match old {
        None => Ok(()),
        Some(old) => match new {
            None => Ok(()),
            Some(new) => {
                if is_at(made.stored, address) {
                    append_stored(made, address, old, new, text)
                } else {
                    Ok(())
                }
            }
        },
    }
}

// The lines of the store points to whose words a turn stored.
pub(crate) fn append_stores(
    points: &[Watchpoint],
    made: MadeTurn,
    board: &mut Board,
    text: &mut Vec<u8>,
) -> Result<(), AllocError>
    ensures text { OnOk result ((now : BoardModel) → IsBoard board.old.cores board.old.bus now → text.new.items ≡ text.old.items ++ flat_map (seen_store made now.world.ram) points.now) }
    ensures full { OnErr result ((now : BoardModel) → IsBoard board.old.cores board.old.bus now → vec_capacity text.old < vec_len text.old + length (flat_map (seen_store made now.world.ram) points.now)) }
    ensures capacity { vec_capacity text.old ≤ vec_capacity text.new }
    ensures board { (now : BoardModel) → IsBoard board.old.cores board.old.bus now → IsBoard board.new.cores board.new.bus now }
    ensures config { board.new.config ≡ board.old.config }
{
    for point in points {
        let word = board.word(point.address);
        append_store(made, point.address, point.word, word, text)?;
    }
    Ok(())
}

// Each of the points sees its word as it is now.
pub(crate) fn look_at_all(points: &mut [Watchpoint], board: &mut Board)
    ensures points { (now : BoardModel) → IsBoard board.old.cores board.old.bus now → points.new ≡ map (seen now.world.ram) points.old }
    ensures board { (now : BoardModel) → IsBoard board.old.cores board.old.bus now → IsBoard board.new.cores board.new.bus now }
    ensures config { board.new.config ≡ board.old.config }
{
    for point in points.iter_mut() {
        *point = look(*point, board);
    }
}
