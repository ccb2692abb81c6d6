//! Copies of boards on the way.
ghost use Rattle.std.specs.Prelude.{◌≡◌, ◌<◌, ◌≤◌, ◌⊎◌, ◌%◌, ℕ, List, IfOk, MatchOption, Some, length, slice_get, remove};
ghost use Rattle.or_model.specs.Turn.{Board as BoardModel};
ghost use Rattle.or_replay.specs.Board.{IsBoard};
ghost use Rattle.or_debug.specs.Standing.{IsAfter};
ghost use Rattle.or_back.specs.Tells.{AllStand};
ghost use Rattle.or_back.specs.Copies.{AreMultiples, NoneBetween, IsLatest};
ghost use Rattle.or_back.specs.declared.history.Checkpoint.{Checkpoint as Kept};

use crate::history::Checkpoint;
use or_replay::Board;
use or_words::NoMemory;
use std::alloc::Global;

/// How many copies are kept beside that of the first board.
const MOST_KEPT: usize = 3;

// The place of the latest copy that stands behind no more turns than these.
pub(crate) fn latest(kept: &[Checkpoint], turn: usize) -> Option<usize>
    ensures { MatchOption result (NoneBetween kept.now 0 turn) (IsLatest kept.now turn) }
{
    let mut found = None;
    let mut best = 0;
    for i in 0..kept.len() {
        let at = kept[i].turn;
        if at <= turn && best < at {
            found = Some(i);
            best = at;
        }
    }
    found
}

// Gives up the oldest copy where there are three.
fn make_room(kept: &mut Vec<Checkpoint>)
    ensures same { (kept.new.items ≡ kept.old.items) ⊎ (kept.new.items ≡ remove kept.old.items 0) }
    ensures room { length kept.old.items ≤ 3 → length kept.new.items < 3 }
{
    if kept.len() >= MOST_KEPT {
        let _ = kept.remove(0);
    }
}

// Keeps a copy of the board behind these turns, in place of the oldest where three are kept. Without memory it keeps none.
pub(crate) fn keep(alloc: Global, kept: &mut Vec<Checkpoint>, board: &mut Board, turn: usize)
    ensures same { (now : BoardModel) → IsBoard board.old.cores board.old.bus now → IsBoard board.new.cores board.new.bus now }
    ensures stand { (start : BoardModel) (turns : List ℕ) → IsAfter start turns turn board.old.cores board.old.bus → AllStand start turns kept.old.items → AllStand start turns kept.new.items }
    ensures few { length kept.old.items ≤ 3 → length kept.new.items ≤ 3 }
    ensures multiples { (every : ℕ) → turn % every ≡ 0 → 0 < turn → AreMultiples every kept.old.items → AreMultiples every kept.new.items }
{
    make_room(kept);
    let Ok(copy) = board.copy(alloc) else {
        return;
    };
    let _ = kept.push(Checkpoint { turn, board: copy });
}

// A copy of a board that is kept, with the number of its turns.
pub(crate) fn copy_of(
    alloc: Global,
    kept: &mut Vec<Checkpoint>,
    i: usize,
) -> Result<(usize, Board), NoMemory>
    requires { i < length kept.old.items }
    ensures stand { (start : BoardModel) (turns : List ℕ) → AllStand start turns kept.old.items → AllStand start turns kept.new.items }
    ensures copied { IfOk result (λ r. (start : BoardModel) (turns : List ℕ) → AllStand start turns kept.old.items → IsAfter start turns r.0 r.1.cores r.1.bus) }
    ensures many { length kept.new.items ≡ length kept.old.items }
    ensures multiples { (every : ℕ) → AreMultiples every kept.old.items → AreMultiples every kept.new.items }
    ensures turn { IfOk result (λ r. (one : Kept) → slice_get kept.old.items i ≡ Some one → r.0 ≡ one.turn) }
{
    let one = &mut kept[i];
    let board = one.board.copy(alloc)?;
    Ok((one.turn, board))
}
