//! A session of the backward debugger.
ghost use Rattle.std.specs.Prelude.{◌≡◌, ◌≢◌, ◌≤◌, ◌++◌, ℕ, List, [], None, length, OnOk, OnErr};
ghost use Rattle.or_words.specs.declared.limits.TheConstants.{SCRIPT_LIMIT};
ghost use Rattle.or_model.specs.Turn.{Board as BoardModel};
ghost use Rattle.or_debug.specs.Session.{first_state};
ghost use Rattle.or_back.specs.Script.{back_script_of, back_fault_of};
ghost use Rattle.or_back.specs.Session.{back_session_from, back_session_text};
ghost use Rattle.or_back.specs.Tells.{Tells};
ghost use Rattle.or_back.specs.declared.lines.BackCommand.TheVariants.{Plain, Back};
ghost use Rattle.or_script.specs.declared.command.Command.TheVariants.{Turn};
ghost use Rattle.or_back.specs.Backward.{StandsBack, IsBackAnswered, IsAppended, IsFront, AnswersBackScript, state_at};

use crate::backward::{append_last, go, go_back, travel};
use crate::history::History;
use crate::lines::BackCommand;
use crate::script::{check, commands};
use or_debug::{Stops, append_lines, append_memory, append_registers};
use or_script::{Command, ScriptFault};
use std::alloc::{AllocError, Global};

// Goes so many turns forward, or as many as are left.
fn go_forward(
    history: &mut History,
    stops: &mut Stops,
    count: u32,
    text: &mut Vec<u8>,
) -> Result<(), AllocError>
    requires { text.old.items ≡ [] }
    ensures tells { (start : BoardModel) (turns : List ℕ) → Tells history.old start turns → Tells history.new start turns }
    ensures answered { OnOk result ((start : BoardModel) (turns : List ℕ) → StandsBack history.old stops.old start turns
        → IsBackAnswered start turns history.old stops.old (Plain (Turn count)) text.new.items history.new stops.new) }
{
    let turn = (history.at as u64).saturating_add(u64::from(count));
    travel(history, stops, turn, text)
}

// Goes so many turns back, or to turn 0 where fewer were followed.
fn go_backward(
    history: &mut History,
    stops: &mut Stops,
    count: u32,
    text: &mut Vec<u8>,
) -> Result<(), AllocError>
    requires { text.old.items ≡ [] }
    ensures tells { (start : BoardModel) (turns : List ℕ) → Tells history.old start turns → Tells history.new start turns }
    ensures answered { OnOk result ((start : BoardModel) (turns : List ℕ) → StandsBack history.old stops.old start turns
        → IsBackAnswered start turns history.old stops.old (Back count) text.new.items history.new stops.new) }
{
    let turn = (history.at as u64).saturating_sub(u64::from(count));
    travel(history, stops, turn, text)
}

// Does what a line of the debugger says, and makes its text.
fn answer_plain(
    history: &mut History,
    stops: &mut Stops,
    command: Command,
    text: &mut Vec<u8>,
) -> Result<(), AllocError>
    requires { text.old.items ≡ [] }
    ensures tells { (start : BoardModel) (turns : List ℕ) → Tells history.old start turns → Tells history.new start turns }
    ensures answered { OnOk result ((start : BoardModel) (turns : List ℕ) → StandsBack history.old stops.old start turns
        → IsBackAnswered start turns history.old stops.old (Plain command) text.new.items history.new stops.new) }
{
    match command {
        Command::Nothing => Ok(()),
        Command::Go => go(history, stops, text),
        Command::Turn { turns: count } => go_forward(history, stops, count, text),
        Command::Break { core, pc } => stops.set_break(core, pc),
        Command::Watch { address } => stops.set_watch(&mut history.board, address),
        Command::Stores { address } => stops.set_store(&mut history.board, address),
        Command::Registers { core } => append_registers(&history.board, core, text),
        Command::Memory { address, words } => {
            append_memory(&mut history.board, address, words, text)
        }
        Command::Lines { core } => append_lines(&history.board, core, text),
        Command::Last { turns: count } => append_last(history, count, text),
    }
}

// Does what a command says, and makes its text.
fn answer(
    history: &mut History,
    stops: &mut Stops,
    command: BackCommand,
    text: &mut Vec<u8>,
) -> Result<(), AllocError>
    requires { text.old.items ≡ [] }
    ensures tells { (start : BoardModel) (turns : List ℕ) → Tells history.old start turns → Tells history.new start turns }
    ensures answered { OnOk result ((start : BoardModel) (turns : List ℕ) → StandsBack history.old stops.old start turns
        → IsBackAnswered start turns history.old stops.old command text.new.items history.new stops.new) }
{
    match command {
        BackCommand::Plain { command } => answer_plain(history, stops, command, text),
        BackCommand::Back { turns: count } => go_backward(history, stops, count, text),
        BackCommand::To { turn } => travel(history, stops, u64::from(turn), text),
        BackCommand::GoBack => go_back(history, stops, text),
    }
}

// Appends what a command writes, or nothing.
fn append_answer(
    alloc: Global,
    history: &mut History,
    stops: &mut Stops,
    command: BackCommand,
    out: &mut Vec<u8>,
) -> Result<(), AllocError>
    ensures tells { (start : BoardModel) (turns : List ℕ) → Tells history.old start turns → Tells history.new start turns }
    ensures answered { OnOk result ((start : BoardModel) (turns : List ℕ) → StandsBack history.old stops.old start turns
        → IsAppended start turns history.old stops.old command out.old.items out.new.items history.new stops.new) }
    ensures err { OnErr result (out.new.items ≡ out.old.items) }
{
    let mut text = Vec::new(alloc);
    answer(history, stops, command, &mut text)?;
    out.extend_from_slice(&text)
}

// Appends what commands write, up to the first for which memory ran out.
fn append_answers(
    alloc: Global,
    history: &mut History,
    stops: &mut Stops,
    commands: &[BackCommand],
    out: &mut Vec<u8>,
) -> Result<(), AllocError>
    ensures tells { (start : BoardModel) (turns : List ℕ) → Tells history.old start turns → Tells history.new start turns }
    ensures ok { OnOk result ((start : BoardModel) (turns : List ℕ) → StandsBack history.old stops.old start turns
        → out.new.items ≡ out.old.items ++ back_session_from start turns (state_at history.old.at stops.old) commands.now) }
    ensures err { OnErr result ((start : BoardModel) (turns : List ℕ) → StandsBack history.old stops.old start turns
        → IsFront (back_session_from start turns (state_at history.old.at stops.old) commands.now) out.old.items out.new.items) }
{
    for command in commands {
        append_answer(alloc, history, stops, *command, out)?;
    }
    Ok(())
}

// Answers a script without fault.
fn run(history: &mut History, commands: &[BackCommand], out: &mut Vec<u8>) -> Result<(), AllocError>
    requires { history.old.at ≡ 0 }
    ensures tells { (start : BoardModel) (turns : List ℕ) → Tells history.old start turns → Tells history.new start turns }
    ensures ok { OnOk result ((start : BoardModel) (turns : List ℕ) → Tells history.old start turns
        → out.new.items ≡ out.old.items ++ back_session_from start turns first_state commands.now) }
    ensures err { OnErr result ((start : BoardModel) (turns : List ℕ) → Tells history.old start turns
        → IsFront (back_session_from start turns first_state commands.now) out.old.items out.new.items) }
{
    let alloc = history.alloc;
    let mut stops = Stops::new(alloc);
    append_answers(alloc, history, &mut stops, commands, out)
}

/// A session on a history before its first turn: goes over its turns as the script of at most 1 MiB says, and appends what
/// the script shows.
///
/// Errors: the fault that `check` answers, with the history and `out` unchanged; else NoMemory, which leaves in `out` a
/// prefix of the text.
#[tactic(auto, unfolding(crate::specs::Session::back_session_text))]
pub fn session(history: &mut History, script: &[u8], out: &mut Vec<u8>) -> Result<(), ScriptFault>
    requires start { history.old.at ≡ 0 }
    requires limit { length script.now ≤ SCRIPT_LIMIT }
    ensures fault { AnswersBackScript result (back_script_of history.old.board.config script.now) }
    ensures refused { back_fault_of (back_script_of history.old.board.config script.now) ≢ None → (history.new ≡ history.old) × (out.new.items ≡ out.old.items) }
    ensures written { OnOk result ((start : BoardModel) (turns : List ℕ) → Tells history.old start turns
        → out.new.items ≡ out.old.items ++ back_session_text history.old.board.config start turns script.now) }
    ensures part { OnErr result ((start : BoardModel) (turns : List ℕ) → Tells history.old start turns
        → IsFront (back_session_text history.old.board.config start turns script.now) out.old.items out.new.items) }
    ensures tells { (start : BoardModel) (turns : List ℕ) → Tells history.old start turns → Tells history.new start turns }
{
    check(history.board.config(), script)?;
    let commands = commands(history.alloc, history.board.config(), script)?;
    match run(history, &commands, out) {
        Ok(()) => Ok(()),
        Err(_) => Err(ScriptFault::NoMemory),
    }
}
