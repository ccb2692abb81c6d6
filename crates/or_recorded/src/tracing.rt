//! The text of a trace: the turns of a recorded run are made one by one, and the text is written while it is made.
ghost use Rattle.std.specs.Prelude.{◌≡◌, ◌≤◌, ◌<◌, ◌+◌, ◌^◌, ◌++◌, ◌∷◌, [], ℕ, List, Some, OnOk, MatchResult, length};
ghost use Rattle.or_model.specs.Turn.{Board as BoardModel, board_turned};
ghost use Rattle.or_replay.specs.Board.{IsBoard};
ghost use Rattle.or_debug.specs.Standing.{CanFollow};
ghost use Rattle.or_host.specs.HostState.{HostState};
ghost use Rattle.or_command.specs.Leaves.{Silent};
ghost use Rattle.or_command.specs.Pieces.{WritesOut, StopsWriting, SoFar};
ghost use Rattle.or_recorded.specs.Trace.{is_of_core, is_wanted, wanted_text, traced};
ghost use Rattle.or_recorded.specs.Tracing.{IsTraced};

use arrayvec::ArrayVec;
use or_command::{PieceStop, write_piece};
use or_command_line::TraceOptions;
use or_core::TracedStep;
use or_elf::Labels;
use or_host::Host;
use or_replay::Board;
use or_trace::append_turn;
use or_words::NoMemory;
use std::alloc::Global;

/// From how many bytes on the text that was made is written.
pub const FULL: usize = 65536;

// Whether a core is the one that was chosen, if one was.
fn is_of_core(chosen: Option<u32>, core: u8) -> bool
    ensures { result ≡ is_of_core chosen core }
{
    match chosen {
        Some(chosen) => u32::from(core) == chosen,
        None => true,
    }
}

// Whether a turn is in the range, and of the core that was chosen, if one was.
fn is_wanted(options: &TraceOptions, number: u32, core: u8) -> bool
    ensures { result ≡ is_wanted options.now number core }
{
    options.from <= number && number <= options.to && is_of_core(options.core, core)
}

// Makes a turn, and appends its text where it is wanted. Its steps are listed in a list that serves every turn, since a new one
// is cleared whole.
#[tactic(auto, unfolding(crate::specs::Trace::wanted_text))]
fn append_wanted(
    options: &TraceOptions,
    labels: &Labels,
    board: &mut Board,
    core: u8,
    number: u32,
    steps: &mut ArrayVec<TracedStep, 256>,
    made: &mut Vec<u8>,
) -> Result<(), NoMemory>
    ensures { (now next : BoardModel) → IsBoard board.old.cores board.old.bus now → board_turned now core ≡ Some next
        → IsBoard board.new.cores board.new.bus next × OnOk result (made.new.items ≡ made.old.items ++ wanted_text options.now labels.now now number core) }
{
    if !is_wanted(options, number, core) {
        let _ = board.turn(core);
        return Ok(());
    }
    steps.clear();
    let _ = board.turn_by_steps(core, steps);
    append_turn(labels, number, u32::from(core), steps.as_slice(), made)
}

// Writes the text that was made, once there is enough of it.
fn write_full<H: Host>(made: &mut Vec<u8>, host: &mut H) -> Result<(), PieceStop>
    ensures writes { (rest whole : List ℕ) (before : HostState) → SoFar (made.old.items ++ rest) whole before (H.state host.old)
        → MatchResult result (λ _. SoFar (made.new.items ++ rest) whole before (H.state host.new)) (λ stop. StopsWriting stop whole before (H.state host.new)) }
    ensures bounded { OnOk result (length made.new.items < FULL) }
    ensures silent { Silent (H.state host.old) (H.state host.new) }
{
    if made.len() < FULL {
        return Ok(());
    }
    match write_piece(host, made.as_slice()) {
        Ok(()) => {
            made.clear();
            Ok(())
        }
        Err(stop) => Err(stop),
    }
}

// Writes the rest of the text.
fn write_last<H: Host>(made: &[u8], host: &mut H) -> Result<(), PieceStop>
    ensures writes { (whole : List ℕ) (before : HostState) → SoFar (made.now ++ []) whole before (H.state host.old) → WritesOut result whole before (H.state host.new) }
    ensures silent { Silent (H.state host.old) (H.state host.new) }
{
    if made.is_empty() {
        return Ok(());
    }
    write_piece(host, made)
}

// Makes a turn, and its text where it is wanted.
fn trace_turn<H: Host>(
    options: &TraceOptions,
    labels: &Labels,
    board: &mut Board,
    core: u8,
    number: u32,
    steps: &mut ArrayVec<TracedStep, 256>,
    made: &mut Vec<u8>,
    host: &mut H,
) -> Result<(), PieceStop>
    ensures traced { (later whole : List ℕ) (before : HostState) → IsTraced options.now labels.now whole made.old.items number (core ∷ later) board.old.cores board.old.bus before (H.state host.old)
        → MatchResult result
        (λ _. IsTraced options.now labels.now whole made.new.items (number + 1) later board.new.cores board.new.bus before (H.state host.new))
        (λ stop. StopsWriting stop whole before (H.state host.new)) }
    ensures bounded { OnOk result (length made.new.items < FULL) }
    ensures silent { Silent (H.state host.old) (H.state host.new) }
{
    match append_wanted(options, labels, board, core, number, steps, made) {
        Ok(()) => write_full(made, host),
        Err(_) => Err(PieceStop::NoMemory),
    }
}

/// Makes the turns of a schedule from a board, and writes the text of those that are wanted, in pieces of at most some 64 KiB
/// and a turn, each before the next turn is made.
///
/// Errors: Unwritten, NoMemory; a prefix of the text is then written.
pub(crate) fn trace_turns<H: Host>(
    alloc: Global,
    options: &TraceOptions,
    labels: &Labels,
    board: &mut Board,
    turns: &[u8],
    host: &mut H,
) -> Result<(), PieceStop>
    requires few { length turns.now + 1 < 2 ^ 32 }
    ensures writes { (first : BoardModel) → IsBoard board.old.cores board.old.bus first → CanFollow first turns.now
        → WritesOut result (traced options.now labels.now first 1 turns.now) (H.state host.old) (H.state host.new) }
    ensures silent { Silent (H.state host.old) (H.state host.new) }
{
    let mut made = Vec::new(alloc);
    let mut steps = ArrayVec::new();
    let mut number = 1;
    let mut rest = turns;
    while let Some((core, others)) = rest.split_first() {
        match trace_turn(
            options, labels, board, *core, number, &mut steps, &mut made, host,
        ) {
            Ok(()) => {}
            Err(stop) => return Err(stop),
        }
        number += 1;
        rest = others;
    }
    write_last(made.as_slice(), host)
}
