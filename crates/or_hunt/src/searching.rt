//! Looking for the first seed on which a core fails.
ghost use Rattle.std.specs.Prelude.{◌≡◌, ◌≤◌, ◌<◌, ◌+◌, ◌^◌, ℕ, IfOk, MatchOption, true, false};
ghost use Rattle.or_model.specs.Turn.{Board as BoardModel};
ghost use Rattle.or_replay.specs.Board.{IsBoard};
ghost use Rattle.or_replay.specs.Failing.{some_core_fails};
ghost use Rattle.or_hunt.specs.Failing.{seed_fails, NoneFails, IsLeastFailing};
ghost use Rattle.or_hunt.specs.Making.{IsDrawn};

use crate::made::Made;
use crate::making::draw;
use or_replay::{Board, has_failed};
use or_words::NoMemory;
use std::alloc::Global;

/// A seed on which a core fails, and the board at the end of its schedule.
#[derive(Drop)]
pub struct Found {
    pub seed: u32,
    pub board: Board,
}

// Makes the schedule of a seed on a copy of a board, which is answered where a core fails.
fn attempt(
    alloc: Global,
    first: &mut Board,
    seed: u32,
    made: &mut Made,
) -> Result<Option<Board>, NoMemory>
    ensures tried { IfOk result (λ found. (start : BoardModel) → IsBoard first.old.cores first.old.bus start
        → MatchOption found (seed_fails start seed ≡ false) (λ last. (seed_fails start seed ≡ true) × IsDrawn start seed made.new last.cores last.bus)) }
    ensures same { (start : BoardModel) → IsBoard first.old.cores first.old.bus start → IsBoard first.new.cores first.new.bus start }
{
    let mut board = first.copy(alloc)?;
    made.clear();
    draw(&mut board, seed, made)?;
    if has_failed(board.cores()) {
        Ok(Some(board))
    } else {
        Ok(None)
    }
}

/// Makes the schedules of so many seeds from one on, each from this board, up to the first on which a core fails, whose
/// schedule is then in `made`. None where no core fails on any. Errors: NoMemory.
pub fn search(
    alloc: Global,
    first: &mut Board,
    from: u32,
    many: u32,
    made: &mut Made,
) -> Result<Option<Found>, NoMemory>
    requires { from + many < 2 ^ 32 }
    ensures searched { IfOk result (λ found. (start : BoardModel) → IsBoard first.old.cores first.old.bus start
        → MatchOption found (NoneFails start from many) (λ found. IsLeastFailing start from many found.seed × IsDrawn start found.seed made.new found.board.cores found.board.bus)) }
    ensures same { (start : BoardModel) → IsBoard first.old.cores first.old.bus start → IsBoard first.new.cores first.new.bus start }
{
    for place in 0..many {
        if let Some(board) = attempt(alloc, first, from + place, made)? {
            return Ok(Some(Found {
                seed: from + place,
                board,
            }));
        }
    }
    Ok(None)
}
