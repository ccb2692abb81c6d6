//! The lines of the backward debugger's script.
ghost use Rattle.std.specs.Prelude.{◌≡◌, IfOk, ◌∷◌};
ghost use Rattle.or_script.specs.Command.{words_of};
ghost use Rattle.or_script.specs.Script.{AreFew};
ghost use Rattle.or_back.specs.Lines.{back_line, to_line, move_alone, move_named, move_of, plain, back_command_at, back_points_after};

use or_script::{Command, LineFault, Points, add_point, command_at, cut, number};
use or_words::Config;

/// What a line of a script tells the backward debugger to do.
#[derive(Clone, Copy, Debug, PartialEq, Eq)]
pub enum BackCommand {
    /// A line of the debugger.
    Plain { command: Command },
    /// `back N`: go back so many turns, 1 to 4294967295, or to turn 0 where fewer were followed.
    Back { turns: u32 },
    /// `to N`: go to turn N, 0 to 4294967295, or to the last turn where there are fewer.
    To { turn: u32 },
    /// `rgo`: go back behind the last turn before the one made last that hits a point, or to turn 0 where none does.
    GoBack,
}

const TOO_LARGE: u64 = 1 << 32;

fn back_line(number: Option<u64>) -> Result<BackCommand, LineFault>
    ensures { result ≡ back_line number }
{
    match number {
        None => Err(LineFault::BadCommand),
        Some(turns) => {
            if 1 <= turns && turns < TOO_LARGE {
                Ok(BackCommand::Back {
                    turns: turns as u32,
                })
            } else {
                Err(LineFault::OutOfRange)
            }
        }
    }
}

fn to_line(number: Option<u64>) -> Result<BackCommand, LineFault>
    ensures { result ≡ to_line number }
{
    match number {
        None => Err(LineFault::BadCommand),
        Some(turn) => {
            if turn < TOO_LARGE {
                Ok(BackCommand::To { turn: turn as u32 })
            } else {
                Err(LineFault::OutOfRange)
            }
        }
    }
}

fn move_alone(name: &[u8]) -> Option<Result<BackCommand, LineFault>>
    ensures { result ≡ move_alone name.now }
{
    if name == b"rgo".as_slice() {
        Some(Ok(BackCommand::GoBack))
    } else {
        None
    }
}

fn move_named(name: &[u8], word: &[u8]) -> Option<Result<BackCommand, LineFault>>
    ensures { result ≡ move_named name.now word.now }
{
    if name == b"back".as_slice() {
        Some(back_line(number(word)))
    } else if name == b"to".as_slice() {
        Some(to_line(number(word)))
    } else {
        None
    }
}

// What a name and what stands behind it say.
#[tactic(auto, using(crate::proofs::OtherTurns::three_words))]
fn move_behind(name: &[u8], text: &[u8]) -> Option<Result<BackCommand, LineFault>>
    ensures { result ≡ move_of (name.now ∷ words_of text.now) }
{
    let (word, more) = cut(b' ', text);
    match more {
        None => move_named(name, word),
        Some(_) => None,
    }
}

// What a line says that goes to another turn.
fn read_move(line: &[u8]) -> Option<Result<BackCommand, LineFault>>
    ensures { result ≡ move_of (words_of line.now) }
{
    let (name, more) = cut(b' ', line);
    match more {
        None => move_alone(name),
        Some(text) => move_behind(name, text),
    }
}

fn plain(line: Result<Command, LineFault>) -> Result<BackCommand, LineFault>
    ensures { result ≡ plain line }
{
    match line {
        Ok(command) => Ok(BackCommand::Plain { command }),
        Err(fault) => Err(fault),
    }
}

// The command of a line behind others that give so many points: BadCommand where the line has none of the forms, else
// OutOfRange where a number is out of its range or the line gives a 17th breakpoint, watchpoint or store point.
#[tactic(auto, unfolding(crate::specs::Lines::back_command_at))]
pub(crate) fn back_command_at(
    config: &Config,
    points: Points,
    line: &[u8],
) -> Result<BackCommand, LineFault>
    ensures is { result ≡ back_command_at config.now points line.now }
    ensures few { AreFew points → IfOk result (λ command. AreFew (back_points_after points command)) }
{
    match read_move(line) {
        Some(moved) => moved,
        None => plain(command_at(config, points, line)),
    }
}

// The points with those of one more command.
pub(crate) fn add_points(points: Points, command: BackCommand) -> Points
    requires { AreFew points }
    ensures { result ≡ back_points_after points command }
{
    match command {
        BackCommand::Plain { command } => add_point(points, command),
        _ => points,
    }
}
