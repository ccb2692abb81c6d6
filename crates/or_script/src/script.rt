//! A script: its commands, or the fault of its first faulty line.
ghost use Rattle.std.specs.Prelude.{◌≡◌, ◌≤◌, ◌⊎◌, length, Ok, Some, IfOk, MatchResult};
ghost use Rattle.or_words.specs.declared.limits.TheConstants.{SCRIPT_LIMIT};
ghost use Rattle.or_script.specs.declared.fault.ScriptFault.TheVariants.{NoMemory};
ghost use Rattle.std.specs.List.{All};
ghost use Rattle.or_script.specs.Last.{HasFewTurns};
ghost use Rattle.or_script.specs.Script.{points_after, AreFew, with_room, command_at, script_of, fault_at, fault_of, IsChecked};

use crate::command::{Command, LineFault, read_line};
use crate::cutting::cut;
use crate::fault::ScriptFault;
use or_words::Config;
use or_words::limits::MOST_POINTS;
use std::alloc::Global;

/// How many breakpoints, watchpoints and store points the lines so far give.
#[derive(Clone, Copy, Debug, PartialEq, Eq)]
pub struct Points {
    pub breaks: u32,
    pub watches: u32,
    pub stores: u32,
}

/// The points with those of one more command.
pub fn add_point(points: Points, command: Command) -> Points
    requires { AreFew points }
    ensures { result ≡ points_after points command }
{
    match command {
        Command::Break { .. } => Points {
            breaks: points.breaks + 1,
            ..points
        },
        Command::Watch { .. } => Points {
            watches: points.watches + 1,
            ..points
        },
        Command::Stores { .. } => Points {
            stores: points.stores + 1,
            ..points
        },
        _ => points,
    }
}

// The command, unless it gives a point too many.
fn with_room(points: Points, command: Command) -> Result<Command, LineFault>
    ensures is { result ≡ with_room points command }
    ensures few { AreFew points → IfOk result (λ command. AreFew (points_after points command)) }
{
    match command {
        Command::Break { .. } => {
            if points.breaks < MOST_POINTS {
                Ok(command)
            } else {
                Err(LineFault::OutOfRange)
            }
        }
        Command::Watch { .. } => {
            if points.watches < MOST_POINTS {
                Ok(command)
            } else {
                Err(LineFault::OutOfRange)
            }
        }
        Command::Stores { .. } => {
            if points.stores < MOST_POINTS {
                Ok(command)
            } else {
                Err(LineFault::OutOfRange)
            }
        }
        _ => Ok(command),
    }
}

/// The command of a line behind others that give so many points.
///
/// Errors: BadCommand where the line has none of the forms, else OutOfRange where a number is out of its range or the line
/// gives a 17th breakpoint, watchpoint or store point.
#[tactic(auto, unfolding(crate::specs::Script::command_at))]
pub fn command_at(config: &Config, points: Points, line: &[u8]) -> Result<Command, LineFault>
    ensures is { result ≡ command_at config.now points line.now }
    ensures few { AreFew points → IfOk result (λ command. AreFew (points_after points command)) }
{
    match read_line(config, line) {
        Ok(command) => with_room(points, command),
        Err(fault) => Err(fault),
    }
}

/// The fault of a line, with its number.
pub fn at_line(fault: LineFault, line: u32) -> ScriptFault
    ensures { result ≡ fault_at fault line }
{
    match fault {
        LineFault::BadCommand => ScriptFault::BadCommand { line },
        LineFault::OutOfRange => ScriptFault::OutOfRange { line },
    }
}

/// Checks a script of at most 1 MiB against the settings of a board. It takes no memory.
///
/// Errors: the fault of the first line that has one, BadCommand where the line has none of the forms, else OutOfRange.
#[tactic(auto, using(crate::proofs::Lines::lines), unfolding(crate::specs::Script::script_of))]
pub fn check(config: &Config, script: &[u8]) -> Result<(), ScriptFault>
    requires limit { length script.now ≤ SCRIPT_LIMIT }
    ensures { IsChecked result (script_of config.now script.now) }
{
    let mut rest = Some(script);
    let mut points = Points {
        breaks: 0,
        watches: 0,
        stores: 0,
    };
    let mut number = 1;
    while let Some(text) = rest {
        let (line, more) = cut(b'\n', text);
        match command_at(config, points, line) {
            Ok(command) => points = add_point(points, command),
            Err(fault) => return Err(at_line(fault, number)),
        }
        number += 1;
        rest = more;
    }
    Ok(())
}

/// The commands of a script of at most 1 MiB.
///
/// Errors: the fault that `check` answers; NoMemory.
#[tactic(auto, using(crate::proofs::Lines::lines), unfolding(crate::specs::Script::script_of))]
pub fn commands(alloc: Global, config: &Config, script: &[u8]) -> Result<Vec<Command>, ScriptFault>
    requires limit { length script.now ≤ SCRIPT_LIMIT }
    ensures script { MatchResult result (λ commands. script_of config.now script.now ≡ Ok commands.items)
        (λ fault. (fault ≡ NoMemory) ⊎ (fault_of (script_of config.now script.now) ≡ Some fault)) }
    ensures few { IfOk result (λ commands. All HasFewTurns commands.items) }
{
    let mut commands = Vec::new(alloc);
    let mut rest = Some(script);
    let mut points = Points {
        breaks: 0,
        watches: 0,
        stores: 0,
    };
    let mut at = 1;
    while let Some(text) = rest {
        let (line, more) = cut(b'\n', text);
        match command_at(config, points, line) {
            Ok(command) => {
                points = add_point(points, command);
                if commands.push(command).is_err() {
                    return Err(ScriptFault::NoMemory);
                }
            }
            Err(fault) => return Err(at_line(fault, at)),
        }
        at += 1;
        rest = more;
    }
    Ok(commands)
}
