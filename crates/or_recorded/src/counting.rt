// A turn of a recorded run, counted.
ghost use Rattle.std.specs.Prelude.{◌≡◌, ◌++◌, [], ◌∷◌, List, OnOk, OnErr, IfOk, IsTrue, length};
ghost use Rattle.or_model.specs.Turn.{Board as BoardModel, board_turned};
ghost use Rattle.or_prof.specs.Profile.{Addition, IsProfile};
ghost use Rattle.or_recorded.specs.Profiling.{IsLevel};
ghost use Rattle.or_recorded.specs.Traces.{addition_of};
ghost use Rattle.or_replay.specs.Board.{IsBoard, IsTurned, RefusedBy};

use arrayvec::ArrayVec;
use or_prof::Profile;
use or_replay::{Board, Refused};

/// Makes a turn of a core as `Board::turn` does, with the same refusals, and adds its trace; false if there was no memory for it.
pub(crate) fn count_turn(
    board: &mut Board,
    core: u8,
    profile: &mut Profile,
) -> Result<bool, Refused>
    requires { IsLevel profile.old board.old.cores board.old.bus }
    ensures turned { (now : BoardModel) → IsBoard board.old.cores board.old.bus now → IsTurned (board_turned now core) result board.new.cores board.new.bus }
    ensures err { OnErr result (board.new ≡ board.old) }
    ensures why { RefusedBy board.old.cores core result }
    ensures config { board.new.config ≡ board.old.config }
    ensures level { IfOk result (λ added. IsTrue added → IsLevel profile.new board.new.cores board.new.bus) }
    ensures symbols { profile.new.symbols ≡ profile.old.symbols }
    ensures hot { profile.new.hot ≡ profile.old.hot }
    ensures cores { length profile.new.cores ≡ length profile.old.cores }
    ensures added { IfOk result (λ added. IsTrue added → (additions : List Addition) (now : BoardModel) → IsBoard board.old.cores board.old.bus now → IsProfile profile.old additions
        → IsProfile profile.new (additions ++ addition_of now core ∷ [])) }
{
    let mut trace = ArrayVec::new();
    match board.turn_traced(core, &mut trace) {
        Ok(()) => match profile.add(u32::from(core), trace.as_slice()) {
            Ok(()) => Ok(true),
            Err(_) => Ok(false),
        },
        Err(refused) => Err(refused),
    }
}
