//! A session of the debugger.
ghost use Rattle.std.specs.Prelude.{◌≡◌, ◌≢◌, ◌≤◌, None, length, OnOk, OnErr};
ghost use Rattle.std.specs.List.{All};
ghost use Rattle.or_words.specs.declared.limits.TheConstants.{SCRIPT_LIMIT};
ghost use Rattle.or_script.specs.Last.{HasFewTurns};
ghost use Rattle.or_script.specs.Script.{script_of, fault_of};
ghost use Rattle.or_model.specs.Turn.{Board as BoardModel};
ghost use Rattle.or_replay.specs.Board.{IsBoard};
ghost use Rattle.or_debug.specs.Standing.{CanFollow, Reaches, Stands, state_of};
ghost use Rattle.or_debug.specs.Answers.{AnswersScript, IsWritten, IsPart, IsAdded, AreAnswered, SomeAnswered, IsRun, IsRunInPart};

use crate::debugger::Debugger;
use or_replay::Board;
use or_script::{Command, ScriptFault, check, commands};
use std::alloc::{AllocError, Global};

// Appends what a command writes, or nothing.
fn append_answer(
    alloc: Global,
    debugger: &mut Debugger,
    board: &mut Board,
    turns: &[u8],
    command: Command,
    out: &mut Vec<u8>,
) -> Result<(), AllocError>
    requires { HasFewTurns command }
    ensures reaches { (start : BoardModel) → CanFollow start turns.now → Reaches start turns.now debugger.old.turn debugger.old.last board.old.cores board.old.bus
        → Reaches start turns.now debugger.new.turn debugger.new.last board.new.cores board.new.bus }
    ensures answered { OnOk result ((start : BoardModel) → CanFollow start turns.now → Stands start turns.now debugger.old board.old.cores board.old.bus
        → IsAdded start turns.now debugger.old command out.old.items out.new.items debugger.new board.new.cores board.new.bus) }
    ensures err { OnErr result (out.new.items ≡ out.old.items) }
    ensures config { board.new.config ≡ board.old.config }
{
    let mut text = Vec::new(alloc);
    debugger.answer(board, turns, command, &mut text)?;
    out.extend_from_slice(&text)
}

// Appends what commands write, up to the first for which memory ran out.
fn append_answers(
    alloc: Global,
    debugger: &mut Debugger,
    board: &mut Board,
    turns: &[u8],
    commands: &[Command],
    out: &mut Vec<u8>,
) -> Result<(), AllocError>
    requires { All HasFewTurns commands.now }
    ensures ok { OnOk result ((start : BoardModel) → CanFollow start turns.now → Stands start turns.now debugger.old board.old.cores board.old.bus
        → AreAnswered start turns.now (state_of debugger.old) commands.now out.old.items out.new.items debugger.new board.new.cores board.new.bus) }
    ensures err { OnErr result ((start : BoardModel) → CanFollow start turns.now → Stands start turns.now debugger.old board.old.cores board.old.bus
        → SomeAnswered start turns.now (state_of debugger.old) commands.now out.old.items out.new.items debugger.new board.new.cores board.new.bus) }
    ensures config { board.new.config ≡ board.old.config }
{
    for command in commands {
        append_answer(alloc, debugger, board, turns, *command, out)?;
    }
    Ok(())
}

// Answers a script without fault.
fn run(
    alloc: Global,
    board: &mut Board,
    turns: &[u8],
    commands: &[Command],
    out: &mut Vec<u8>,
) -> Result<(), AllocError>
    requires { All HasFewTurns commands.now }
    ensures ok { OnOk result ((start : BoardModel) → IsBoard board.old.cores board.old.bus start → CanFollow start turns.now
        → IsRun start turns.now commands.now out.old.items out.new.items board.new.cores board.new.bus) }
    ensures err { OnErr result ((start : BoardModel) → IsBoard board.old.cores board.old.bus start → CanFollow start turns.now
        → IsRunInPart start turns.now commands.now out.old.items out.new.items board.new.cores board.new.bus) }
    ensures config { board.new.config ≡ board.old.config }
{
    let mut debugger = Debugger::new(alloc)?;
    append_answers(alloc, &mut debugger, board, turns, commands, out)
}

/// A session on a board before its first turn: follows the schedule `turns`, which can be followed from this board, as the
/// script of at most 1 MiB says, and appends what the script shows.
///
/// Errors: the fault that `check` answers, with the board and `out` unchanged; else NoMemory, which leaves in `out` a prefix
/// of the text and the board after some of the turns.
#[tactic(auto, unfolding(crate::specs::Session::session_text, crate::specs::Session::turns_followed))]
pub fn session(
    alloc: Global,
    board: &mut Board,
    turns: &[u8],
    script: &[u8],
    out: &mut Vec<u8>,
) -> Result<(), ScriptFault>
    requires limit { length script.now ≤ SCRIPT_LIMIT }
    ensures fault { AnswersScript result (script_of board.old.config script.now) }
    ensures refused { fault_of (script_of board.old.config script.now) ≢ None → (board.new ≡ board.old) × (out.new.items ≡ out.old.items) }
    ensures written { OnOk result ((start : BoardModel) → IsBoard board.old.cores board.old.bus start → CanFollow start turns.now
        → IsWritten board.old.config start turns.now script.now out.old.items out.new.items board.new.cores board.new.bus) }
    ensures part { OnErr result ((start : BoardModel) → IsBoard board.old.cores board.old.bus start → CanFollow start turns.now
        → IsPart board.old.config start turns.now script.now out.old.items out.new.items board.new.cores board.new.bus) }
    ensures config { board.new.config ≡ board.old.config }
{
    check(board.config(), script)?;
    let commands = commands(alloc, board.config(), script)?;
    match run(alloc, board, turns, &commands, out) {
        Ok(()) => Ok(()),
        Err(_) => Err(ScriptFault::NoMemory),
    }
}
