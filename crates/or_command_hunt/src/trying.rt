//! The tries of a hunt, of which it says how many were made.
ghost use Rattle.std.specs.Prelude.{◌≡◌, ◌≤◌, ◌^◌, IfOk, MatchOption, min};
ghost use Rattle.or_model.specs.Turn.{Board as BoardModel};
ghost use Rattle.or_replay.specs.Board.{IsBoard};
ghost use Rattle.or_hunt.specs.Failing.{NoneFails, IsLeastFailing};
ghost use Rattle.or_hunt.specs.Making.{IsDrawn};
ghost use Rattle.or_command_line.specs.Settings.{FitsHunt};
ghost use Rattle.or_command_hunt.specs.Tries.{IsHeard};

use or_command::say_tries;
use or_command_line::HuntOptions;
use or_host::Host;
use or_hunt::{Found, Made, search};
use or_replay::Board;
use or_words::NoMemory;
use std::alloc::Global;

// So many tries were made when a line is said that follows so many.
fn next_told(lines: u32, tries: u32) -> u32
    requires { lines ≤ 20 }
    ensures { result ≡ min (2 ^ lines) tries }
{
    let power = 1u32 << lines;
    if power < tries { power } else { tries }
}

/// Tries the seeds of a hunt in order, each from this board, up to the first on which a core fails, whose schedule is then in
/// `made`. It says how many were tried without a failure after 1, 2, 4, 8 and so on, and after the last one; a fault of that
/// changes nothing. None where no core fails on any. Errors: NoMemory.
#[tactic(auto, using(crate::proofs::Ranges::ranges))]
pub(crate) fn try_seeds<H: Host>(
    alloc: Global,
    first: &mut Board,
    options: &HuntOptions,
    made: &mut Made,
    host: &mut H,
) -> Result<Option<Found>, NoMemory>
    requires range { FitsHunt options.now }
    ensures searched { IfOk result (λ found. (start : BoardModel) → IsBoard first.old.cores first.old.bus start
        → MatchOption found (NoneFails start options.now.seed options.now.tries)
        (λ found. IsLeastFailing start options.now.seed options.now.tries found.seed × IsDrawn start found.seed made.new found.board.cores found.board.bus)) }
    ensures heard { IsHeard options.now.tries (H.state host.old) (H.state host.new) }
{
    let mut tried = 0u32;
    for lines in 0..21u32 {
        let next = next_told(lines, options.tries);
        match search(alloc, first, options.seed + tried, next - tried, made) {
            Ok(Some(found)) => return Ok(Some(found)),
            Ok(None) => {}
            Err(NoMemory) => return Err(NoMemory),
        }
        say_tries(host, next);
        if next == options.tries {
            return Ok(None);
        }
        tried = next;
    }
    Ok(None)
}
