//! Making the schedule that is drawn of a seed.
ghost use Rattle.std.specs.Prelude.{◌≡◌, ◌≤◌, ◌<◌, ◌+◌, ◌++◌, [], ◌∷◌, true, false, OnOk, IfOk, length};
ghost use Rattle.std.specs.List.{All};
ghost use Rattle.or_model.specs.Turn.{Board as BoardModel};
ghost use Rattle.or_replay.specs.Board.{IsBoard, RunsAt, steps_left, all_stopped};
ghost use Rattle.or_replay.specs.Marks.{with_mark};
ghost use Rattle.or_hunt.specs.Draws.{chosen};
ghost use Rattle.or_hunt.specs.Drawn.{running_from, stretch, stretches, drawn_stretch};
ghost use Rattle.or_hunt.specs.Making.{IsMade, IsAdvanced, IsStretched, IsWhole, IsDrawn};

use crate::draws::{begin, chosen_index, most_turns, next_state};
use crate::made::Made;
use arrayvec::ArrayVec;
use or_core::Core;
use or_replay::Board;
use or_words::NoMemory;
use or_words::limits::BLOCK;
use std::alloc::AllocError;

// The numbers of the cores that have not stopped, in order.
fn running(cores: &[Core]) -> ArrayVec<u8, 8>
    requires few { length cores.now ≤ 8 }
    ensures { result.items ≡ running_from 0 cores.now }
{
    let mut numbers = ArrayVec::new();
    let mut c = 0u8;
    let mut rest = cores;
    while let Some((core, others)) = rest.split_first() {
        if core.stop().is_none() {
            numbers.push(c);
        }
        c += 1;
        rest = others;
    }
    numbers
}

// The core that a draw chooses among those that run.
#[tactic(auto, using(crate::proofs::Running::running))]
fn choose(cores: &[Core], x: u64) -> u8
    requires few { length cores.now ≤ 8 }
    requires some { all_stopped cores.now ≡ false }
    ensures value { result ≡ chosen (running_from 0 cores.now) x }
    ensures runs { RunsAt cores.now result }
{
    let numbers = running(cores);
    let numbers = numbers.as_slice();
    numbers[chosen_index(x, numbers.len())]
}

// Makes a turn of a core, and adds it to the schedule with the mark of a block that it ends. It answers whether the core has
// made it, which it has not where it has stopped.
fn advance(board: &mut Board, core: u8, made: &mut Made) -> Result<bool, NoMemory>
    ensures advanced { IfOk result (λ moved. (start now : BoardModel) → IsMade start made.old board.old.cores board.old.bus now
        → IsAdvanced start made.old made.new board.new.cores board.new.bus core now moved) }
    ensures moved { IfOk result (λ moved. moved ≡ true → steps_left board.new.cores < steps_left board.old.cores) }
    ensures many { length board.new.cores ≡ length board.old.cores }
    ensures stopped { IfOk result (λ moved. moved ≡ false → (board.new.cores ≡ board.old.cores) × (RunsAt board.old.cores core → ⊥)) }
{
    match board.turn(core) {
        Ok(()) => {
            add(core, board, made)?;
            Ok(true)
        }
        Err(_) => Ok(false),
    }
}

// Adds a turn that was made to the schedule, with the mark of a block that it ends.
fn add(core: u8, board: &Board, made: &mut Made) -> Result<(), AllocError>
    ensures turns { OnOk result (made.new.turns.items ≡ made.old.turns.items ++ core ∷ []) }
    ensures marks { OnOk result ((now : BoardModel) → IsBoard board.now.cores board.now.bus now → made.new.marks.items ≡ with_mark (length made.old.turns.items + 1) now.world made.old.marks.items) }
{
    made.turns.push(core)?;
    if made.turns.len() % BLOCK == 0 {
        made.marks.push(board.mark())?;
    }
    Ok(())
}

// Makes so many turns of a core, or as many as it makes until it stops.
fn stretch(board: &mut Board, core: u8, most: u32, made: &mut Made) -> Result<(), NoMemory>
    requires some { 0 < most }
    requires runs { RunsAt board.old.cores core }
    ensures stretched { OnOk result ((start now : BoardModel) → IsMade start made.old board.old.cores board.old.bus now
        → IsStretched start made.old made.new board.new.cores board.new.bus now (stretch most core now)) }
    ensures left { OnOk result (steps_left board.new.cores < steps_left board.old.cores) }
    ensures many { length board.new.cores ≡ length board.old.cores }
{
    let mut left = most;
    while left > 0 {
        if !advance(board, core, made)? {
            return Ok(());
        }
        left -= 1;
    }
    Ok(())
}

// Makes the stretch that a draw decides.
fn draw_stretch(
    board: &mut Board,
    greatest: &[u32],
    x: u64,
    made: &mut Made,
) -> Result<(), NoMemory>
    requires some { all_stopped board.old.cores ≡ false }
    requires many { length greatest.now ≡ length board.old.cores }
    requires small { All (λ exponent. exponent < 11) greatest.now }
    ensures stretched { OnOk result ((start now : BoardModel) → IsMade start made.old board.old.cores board.old.bus now
        → IsStretched start made.old made.new board.new.cores board.new.bus now (drawn_stretch greatest.now x now)) }
    ensures left { OnOk result (steps_left board.new.cores < steps_left board.old.cores) }
    ensures many { length board.new.cores ≡ length board.old.cores }
{
    let core = choose(board.cores(), x);
    let most = most_turns(greatest[core as usize], x);
    stretch(board, core, most, made)
}

// Makes stretches until all cores have stopped.
fn draw_stretches(
    board: &mut Board,
    greatest: &[u32],
    first: u64,
    made: &mut Made,
) -> Result<(), NoMemory>
    requires empty { (made.old.turns.items ≡ []) × (made.old.marks.items ≡ []) }
    requires many { length greatest.now ≡ length board.old.cores }
    requires small { All (λ exponent. exponent < 11) greatest.now }
    ensures { OnOk result ((start : BoardModel) → IsBoard board.old.cores board.old.bus start
        → IsWhole start (stretches (steps_left start.cores) greatest.now first start) made.new board.new.cores board.new.bus) }
{
    let mut x = first;
    while !board.finished() {
        x = next_state(x);
        draw_stretch(board, greatest, x, made)?;
    }
    Ok(())
}

/// Makes the schedule that is drawn of a seed on a board, with its marks; afterwards every core has stopped. Errors: NoMemory.
#[tactic(auto, unfolding(crate::specs::Drawn::drawn))]
pub fn draw(board: &mut Board, seed: u32, made: &mut Made) -> Result<(), NoMemory>
    requires empty { (made.old.turns.items ≡ []) × (made.old.marks.items ≡ []) }
    ensures { OnOk result ((start : BoardModel) → IsBoard board.old.cores board.old.bus start → IsDrawn start seed made.new board.new.cores board.new.bus) }
{
    let (greatest, first) = begin(seed, board.cores().len() as u32);
    draw_stretches(board, greatest.as_slice(), first, made)
}
