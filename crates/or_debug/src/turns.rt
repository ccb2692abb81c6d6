//! The turns that are made.
ghost use Rattle.std.specs.Prelude.{◌≡◌, ◌+◌, ◌≤◌, ◌<◌, ◌++◌, OnOk, OnErr, drop, length, slice_get, vec_capacity, vec_len};
ghost use Rattle.or_model.specs.Turn.{Board as BoardModel};
ghost use Rattle.or_debug.specs.Turns.{last_of, pc_of, stored_by, word_stored, stored_in};
ghost use Rattle.or_debug.specs.Standing.{CanFollow, IsAfter, IsTurnMade};
ghost use Rattle.or_debug.specs.BoardText.{letter, made_line, made_text};

use circular_buffer::HeapCircularBuffer;
use or_bus::{Access, AccessKind};
use or_replay::{Board, Refused};
use or_text::{append_decimal, append_word};
use std::alloc::AllocError;

/// A turn that was made: its number, counted from 1, its core, the pc that it left, and the word of RAM that it stored to.
#[derive(Clone, Copy, Debug, PartialEq, Eq)]
pub struct MadeTurn {
    pub turn: u64,
    pub core: u8,
    pub pc: u32,
    pub stored: Option<u32>,
}

// The pc of a core, 0 where the board has no such core.
fn pc_of(board: &Board, core: u8) -> u32
    ensures { result ≡ pc_of (slice_get board.now.cores core) }
{
    match board.cores().get(usize::from(core)) {
        Some(core) => core.place().pc,
        None => 0,
    }
}

fn stored_by(kind: AccessKind, word: u32) -> Option<u32>
    ensures { result ≡ stored_by kind word }
{
    match kind {
        AccessKind::Store | AccessKind::Conditional => Some(word),
        AccessKind::Load | AccessKind::Linked => None,
    }
}

// The word that a turn stored to.
fn stored_in(observed: Result<Option<Access>, Refused>) -> Option<u32>
    ensures { result ≡ stored_in observed }
{
    match observed {
        Ok(Some(access)) => stored_by(access.kind, access.word),
        Ok(None) => None,
        Err(_) => None,
    }
}

/// Makes the turn at a place of a schedule, of which the board stands behind the turns before. The schedule can be followed, so
/// the turn is not refused.
pub fn make_turn(board: &mut Board, turns: &[u8], place: usize) -> MadeTurn
    requires { place < length turns.now }
    ensures made { (start : BoardModel) → CanFollow start turns.now → IsAfter start turns.now place board.old.cores board.old.bus
        → IsTurnMade start turns.now place result board.new.cores board.new.bus }
    ensures config { board.new.config ≡ board.old.config }
{
    let core = turns[place];
    let stored = stored_in(board.observe(core));
    MadeTurn {
        turn: place as u64 + 1,
        core,
        pc: pc_of(board, core),
        stored,
    }
}

// The letter of a core, `a` for core 0.
fn letter(core: u8) -> u8
    ensures { result ≡ letter core }
{
    b'a'.wrapping_add(core)
}

/// Appends the line of a turn that was made.
pub fn append_made(made: MadeTurn, text: &mut Vec<u8>) -> Result<(), AllocError>
    ensures text { OnOk result (text.new.items ≡ text.old.items ++ made_line made) }
    ensures full { OnErr result (vec_capacity text.old < vec_len text.old + length (made_line made)) }
    ensures capacity { vec_capacity text.old ≤ vec_capacity text.new }
{
    append_decimal(made.turn, text)?;
    text.extend_from_slice(&[b' ', letter(made.core), b' '])?;
    append_word(made.pc, text)?;
    text.extend_from_slice(b"\n")
}

// The turn at a place of the ring, before those behind it.
#[tactic(auto, using(crate::proofs::Texts::texts))]
fn append_at(
    last: &HeapCircularBuffer<MadeTurn>,
    index: usize,
    text: &mut Vec<u8>,
) -> Result<(), AllocError>
    ensures text { OnOk result (text.new.items ++ made_text (drop (index + 1) last.now.items) ≡ text.old.items ++ made_text (drop index last.now.items)) }
    ensures full { OnErr result (vec_capacity text.old < vec_len text.old + length (made_text (drop index last.now.items))) }
    ensures capacity { vec_capacity text.old ≤ vec_capacity text.new }
{
    match last.get(index) {
        Some(made) => append_made(*made, text),
        None => Ok(()),
    }
}

// The last so many of the turns, or all.
pub(crate) fn append_last(
    last: &HeapCircularBuffer<MadeTurn>,
    turns: u32,
    text: &mut Vec<u8>,
) -> Result<(), AllocError>
    ensures text { OnOk result (text.new.items ≡ text.old.items ++ made_text (last_of turns last.now.items)) }
    ensures full { OnErr result (vec_capacity text.old < vec_len text.old + length (made_text (last_of turns last.now.items))) }
    ensures capacity { vec_capacity text.old ≤ vec_capacity text.new }
{
    let from = last.len().saturating_sub(turns as usize);
    for index in from..last.len() {
        append_at(last, index, text)?;
    }
    Ok(())
}
