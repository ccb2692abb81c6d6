//! Turns that are made.
ghost use Rattle.std.specs.Prelude.{◌≡◌, ◌+◌, ℕ, ◌<◌, ◌≤◌, List, length};
ghost use Rattle.or_model.specs.Turn.{Board as BoardModel};
ghost use Rattle.or_debug.specs.Standing.{CanFollow, IsAfter, IsTurnMade};
ghost use Rattle.or_back.specs.Tells.{AllStand};
ghost use Rattle.or_back.specs.Copies.{AreMultiples};

use crate::checkpoints::{keep, latest};
use crate::history::Checkpoint;
use or_debug::{MadeTurn, make_turn};
use or_replay::Board;
use std::alloc::Global;

// Whether a copy of the board behind these turns is kept.
fn is_kept(kept: &[Checkpoint], turn: usize) -> bool {
    match latest(kept, turn) {
        Some(i) => kept[i].turn == turn,
        None => false,
    }
}

// Makes the turn at a place, and keeps a copy behind each so many turns.
pub(crate) fn step(
    alloc: Global,
    board: &mut Board,
    kept: &mut Vec<Checkpoint>,
    turns: &[u8],
    every: u64,
    at: usize,
) -> MadeTurn
    requires within { at < length turns.now }
    requires steps { 0 < every }
    ensures made { (start : BoardModel) → CanFollow start turns.now → IsAfter start turns.now at board.old.cores board.old.bus
        → IsTurnMade start turns.now at result board.new.cores board.new.bus }
    ensures kept { (start : BoardModel) → CanFollow start turns.now → IsAfter start turns.now at board.old.cores board.old.bus
        → AllStand start turns.now kept.old.items → AllStand start turns.now kept.new.items }
    ensures few { length kept.old.items ≤ 3 → length kept.new.items ≤ 3 }
    ensures multiples { AreMultiples every kept.old.items → AreMultiples every kept.new.items }
{
    let made = make_turn(board, turns, at);
    if (at as u64 + 1) % every == 0 && !is_kept(kept, at + 1) {
        keep(alloc, kept, board, at + 1);
    }
    made
}

// Makes the turns from one place to another, and keeps copies on the way.
pub(crate) fn forward(
    alloc: Global,
    board: &mut Board,
    kept: &mut Vec<Checkpoint>,
    turns: &[u8],
    every: u64,
    at: usize,
    to: usize,
)
    requires order { at ≤ to }
    requires within { to ≤ length turns.now }
    requires steps { 0 < every }
    ensures here { (start : BoardModel) → CanFollow start turns.now → IsAfter start turns.now at board.old.cores board.old.bus → IsAfter start turns.now to board.new.cores board.new.bus }
    ensures kept { (start : BoardModel) → CanFollow start turns.now → IsAfter start turns.now at board.old.cores board.old.bus
        → AllStand start turns.now kept.old.items → AllStand start turns.now kept.new.items }
    ensures few { length kept.old.items ≤ 3 → length kept.new.items ≤ 3 }
    ensures multiples { AreMultiples every kept.old.items → AreMultiples every kept.new.items }
{
    for i in at..to {
        step(alloc, board, kept, turns, every, i);
    }
}
