//! Following a schedule, with the marks that were kept of it.
ghost use Rattle.std.specs.Prelude.{◌≡◌, ◌≤◌, ◌<◌, ◌/◌, ◌+◌, ◌⊎◌, [], ℕ, List, Some, None, MatchOption, MatchResult, IfSome, OnOk, OnErr, length, slice_index, true};
ghost use Rattle.or_bus.specs.State.{BusState};
ghost use Rattle.or_model.specs.Core.{Core as CoreModel};
ghost use Rattle.or_model.specs.Turn.{Board as BoardModel, board_turned};
ghost use Rattle.or_sched.specs.declared.recording.Mark.{Mark as MarkModel};
ghost use Rattle.or_replay.specs.Board.{IsBoard, IsTurned, RefusedBy, RunsAt, all_stopped};
ghost use Rattle.or_replay.specs.Following.{IsFollowed, IsFollowable, IsLed, IsAdvanced, IsCompared, IsFirstRunning, AreStopped, AreStoppedUpTo, TellsOf, Differs};

use crate::board::{Board, Refused};
use or_core::Core;
use or_sched::Mark;
use or_words::limits::BLOCK;

/// Why a schedule is not followed to its end. `kept` is the number in the mark that was kept, and `found` that of the board.
#[derive(Clone, Copy, Debug, PartialEq, Eq)]
pub enum TurnFault {
    /// The turn at this place, counted from 0, names no core of the board.
    NoCore { turn: u64 },
    /// The turn at this place, counted from 0, names a core that has stopped.
    Stopped { turn: u64 },
    /// All turns were made, and this is the least core that has not stopped.
    Running { core: u32 },
    /// After so many turns the number of writes differs from that of the mark.
    Writes { turn: u64, kept: u64, found: u64 },
    /// After so many turns the number of console bytes differs from that of the mark.
    Console { turn: u64, kept: u64, found: u64 },
}

/// Makes the turns of a schedule that is followed, and keeps what it sees of them.
pub trait Watcher {
    /// It has seen so many turns of a schedule, which lead from a board to these cores and this bus.
    ghost Sees: { Self → BoardModel → List ℕ → ℕ → List CoreModel → BusState → Type 0 };

    /// It has this of an image from before the first turn, and keeps it; nothing if not said.
    ghost Keeps: { Self → List ℕ → Type 0 } = { λ _ image. Unit {0} };

    /// Makes the turn at a place of a schedule, from 0, as `Board::turn` does, with the same refusals. It has seen those before.
    fn watch(&mut self, board: &mut Board, turns: &[u8], place: usize) -> Result<(), Refused>
        requires inside { place < length turns.now }
        requires seen { (start : BoardModel) × Sees self.old start turns.now place board.old.cores board.old.bus }
        ensures turned { (now : BoardModel) → IsBoard board.old.cores board.old.bus now
            → IsTurned (board_turned now (slice_index turns.now place)) result board.new.cores board.new.bus }
        ensures err { OnErr result (board.new ≡ board.old) }
        ensures why { RefusedBy board.old.cores (slice_index turns.now place) result }
        ensures config { board.new.config ≡ board.old.config }
        ensures seen { OnOk result ((start : BoardModel) → Sees self.old start turns.now place board.old.cores board.old.bus
            → Sees self.new start turns.now (place + 1) board.new.cores board.new.bus) }
        ensures kept { (image : List ℕ) → Keeps self.old image → Keeps self.new image };
}

/// Keeps nothing of the turns.
#[derive(Drop)]
pub struct Unwatched;

impl Watcher for Unwatched {
    ghost use Rattle.std.specs.Prelude.{ℕ};

    ghost Sees = { λ _ start turns n cores bus. Unit {0} };

    fn watch(&mut self, board: &mut Board, turns: &[u8], place: usize) -> Result<(), Refused> {
        board.turn(turns[place])
    }
}

impl Board {
    /// Follows a schedule, and compares each mark after its block's last turn, its writes before its console. Where no marks
    /// are given, none is compared. Afterwards every core has stopped.
    ///
    /// Errors: the first that refuses it, a turn, a mark, or, behind all of them, a core that has not stopped. The board is
    /// left after the turns before a turn that is refused, and after the turns of the mark's block.
    pub fn follow(&mut self, turns: &[u8], marks: &[Mark]) -> Result<(), TurnFault>
        requires marks { (marks.now ≡ []) ⊎ (length marks.now ≡ length turns.now / BLOCK) }
        ensures followed { (start : BoardModel) → IsBoard self.old.cores self.old.bus start
            → IsFollowed BLOCK start turns.now marks.now result self.new.cores self.new.bus }
        ensures exact { (start : BoardModel) → IsBoard self.old.cores self.old.bus start
            → MatchResult result (λ _. IsFollowable start turns.now marks.now) (λ _. IsFollowable start turns.now marks.now → ⊥) }
        ensures config { self.new.config ≡ self.old.config }
    {
        self.follow_watched(turns, marks, &mut Unwatched)
    }

    /// Follows a schedule as `follow` does, with the same errors; each of its turns is made by `watcher`.
    pub fn follow_watched<W: Watcher>(
        &mut self,
        turns: &[u8],
        marks: &[Mark],
        watcher: &mut W,
    ) -> Result<(), TurnFault>
        requires marks { (marks.now ≡ []) ⊎ (length marks.now ≡ length turns.now / BLOCK) }
        requires seen { (start : BoardModel) × W.Sees watcher.old start turns.now 0 self.old.cores self.old.bus }
        ensures followed { (start : BoardModel) → IsBoard self.old.cores self.old.bus start
            → IsFollowed BLOCK start turns.now marks.now result self.new.cores self.new.bus }
        ensures exact { (start : BoardModel) → IsBoard self.old.cores self.old.bus start
            → MatchResult result (λ _. IsFollowable start turns.now marks.now) (λ _. IsFollowable start turns.now marks.now → ⊥) }
        ensures config { self.new.config ≡ self.old.config }
        ensures seen { OnOk result ((start : BoardModel) → W.Sees watcher.old start turns.now 0 self.old.cores self.old.bus
            → W.Sees watcher.new start turns.now (length turns.now) self.new.cores self.new.bus) }
        ensures kept { (image : List ℕ) → W.Keeps watcher.old image → W.Keeps watcher.new image }
    {
        follow_blocks(self, turns, marks, BLOCK, watcher)
    }
}

// Follows a schedule of blocks of so many turns.
fn follow_blocks<W: Watcher>(
    board: &mut Board,
    turns: &[u8],
    marks: &[Mark],
    block: usize,
    watcher: &mut W,
) -> Result<(), TurnFault>
    requires block { 0 < block }
    requires seen { (start : BoardModel) × W.Sees watcher.old start turns.now 0 board.old.cores board.old.bus }
    ensures followed { (start : BoardModel) → IsBoard board.old.cores board.old.bus start
        → IsFollowed block start turns.now marks.now result board.new.cores board.new.bus }
    ensures config { board.new.config ≡ board.old.config }
    ensures seen { OnOk result ((start : BoardModel) → W.Sees watcher.old start turns.now 0 board.old.cores board.old.bus
        → W.Sees watcher.new start turns.now (length turns.now) board.new.cores board.new.bus) }
    ensures kept { (image : List ℕ) → W.Keeps watcher.old image → W.Keeps watcher.new image }
{
    for place in 0..turns.len() {
        match advance(board, turns, place, marks, block, watcher) {
            Ok(()) => {}
            Err(fault) => return Err(fault),
        }
    }
    match first_running(board.cores()) {
        None => Ok(()),
        Some(core) => Err(TurnFault::Running {
            core: u32::from(core),
        }),
    }
}

// Makes the turn at a place, and compares the mark of the block that it ends.
#[tactic(auto, using(crate::proofs::Followed::followed))]
fn advance<W: Watcher>(
    board: &mut Board,
    turns: &[u8],
    place: usize,
    marks: &[Mark],
    block: usize,
    watcher: &mut W,
) -> Result<(), TurnFault>
    requires block { 0 < block }
    requires inside { place < length turns.now }
    requires seen { (start : BoardModel) × W.Sees watcher.old start turns.now place board.old.cores board.old.bus }
    ensures advanced { (start : BoardModel) → IsLed block start turns.now marks.now place board.old.cores board.old.bus
        → IsAdvanced block start turns.now marks.now place result board.new.cores board.new.bus }
    ensures config { board.new.config ≡ board.old.config }
    ensures seen { OnOk result ((start : BoardModel) → W.Sees watcher.old start turns.now place board.old.cores board.old.bus
        → W.Sees watcher.new start turns.now (place + 1) board.new.cores board.new.bus) }
    ensures kept { (image : List ℕ) → W.Keeps watcher.old image → W.Keeps watcher.new image }
{
    match watcher.watch(board, turns, place) {
        Ok(()) => compare(marks, place + 1, block, board.mark()),
        Err(Refused::NoSuchCore) => Err(TurnFault::NoCore { turn: place as u64 }),
        Err(Refused::CoreStopped) => Err(TurnFault::Stopped { turn: place as u64 }),
    }
}

// Compares the mark of the block that so many turns end, where one was kept.
#[tactic(auto, using(crate::proofs::Followed::followed))]
fn compare(marks: &[Mark], made: usize, block: usize, here: Mark) -> Result<(), TurnFault>
    requires block { 0 < block }
    requires some { 0 < made }
    ensures { IsCompared block marks.now made result here }
{
    if made % block != 0 {
        return Ok(());
    }
    let ended = made / block - 1;
    if ended >= marks.len() {
        return Ok(());
    }
    compare_mark(made as u64, marks[ended], here)
}

// Compares a mark after so many turns.
fn compare_mark(made: u64, mark: Mark, here: Mark) -> Result<(), TurnFault>
    ensures { MatchResult result (λ _. mark ≡ here) (λ fault. TellsOf made fault × Differs mark here fault) }
{
    if mark.writes != here.writes {
        return Err(TurnFault::Writes {
            turn: made,
            kept: mark.writes,
            found: here.writes,
        });
    }
    if mark.console != here.console {
        return Err(TurnFault::Console {
            turn: made,
            kept: mark.console,
            found: here.console,
        });
    }
    Ok(())
}

// A core that runs, before which none does.
fn find_running(cores: &[Core]) -> Option<u8>
    requires { length cores.now ≤ 8 }
    ensures found { MatchOption result (AreStopped cores.now) (λ c. RunsAt cores.now c) }
    ensures first { IfSome result (λ c. AreStoppedUpTo c cores.now) }
{
    let mut c = 0u8;
    while usize::from(c) < cores.len() {
        if cores[usize::from(c)].stop().is_none() {
            return Some(c);
        }
        c += 1;
    }
    None
}

// The first core that runs.
fn first_running(cores: &[Core]) -> Option<u8>
    requires { length cores.now ≤ 8 }
    ensures { MatchOption result (all_stopped cores.now ≡ true) (λ c. IsFirstRunning cores.now c) }
{
    find_running(cores)
}
