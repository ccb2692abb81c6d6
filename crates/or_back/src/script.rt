//! A script of the backward debugger: its commands, or the fault of its first faulty line.
ghost use Rattle.std.specs.Prelude.{◌≡◌, ◌≤◌, ◌⊎◌, length, Ok, Some, IfOk, MatchResult};
ghost use Rattle.or_script.specs.declared.fault.ScriptFault.TheVariants.{NoMemory};
ghost use Rattle.or_words.specs.declared.limits.TheConstants.{SCRIPT_LIMIT};
ghost use Rattle.or_back.specs.Script.{back_script_of, back_fault_of, IsBackChecked};

use crate::lines::{BackCommand, add_points, back_command_at};
use or_script::{Points, ScriptFault, at_line, cut};
use or_words::Config;
use std::alloc::Global;

/// Checks a script of at most 1 MiB against the settings of a board. It takes no memory.
///
/// Errors: the fault of the first line that has one, BadCommand where the line has none of the forms, else OutOfRange.
#[tactic(auto, using(crate::proofs::Scripts::lines), unfolding(crate::specs::Script::back_script_of))]
pub fn check(config: &Config, script: &[u8]) -> Result<(), ScriptFault>
    requires limit { length script.now ≤ SCRIPT_LIMIT }
    ensures { IsBackChecked result (back_script_of config.now script.now) }
{
    let mut rest = Some(script);
    let mut points = Points {
        breaks: 0,
        watches: 0,
        stores: 0,
    };
    let mut number = 1;
    while let Some(text) = rest {
        let (line, more) = cut(b'\n', text);
        match back_command_at(config, points, line) {
            Ok(command) => points = add_points(points, command),
            Err(fault) => return Err(at_line(fault, number)),
        }
        number += 1;
        rest = more;
    }
    Ok(())
}

// The commands of a script of at most 1 MiB: the fault that `check` answers, or NoMemory, where there are none.
#[tactic(auto, using(crate::proofs::Scripts::lines), unfolding(crate::specs::Script::back_script_of))]
pub(crate) fn commands(
    alloc: Global,
    config: &Config,
    script: &[u8],
) -> Result<Vec<BackCommand>, ScriptFault>
    requires limit { length script.now ≤ SCRIPT_LIMIT }
    ensures { MatchResult result (λ commands. back_script_of config.now script.now ≡ Ok commands.items)
        (λ fault. (fault ≡ NoMemory) ⊎ (back_fault_of (back_script_of config.now script.now) ≡ Some fault)) }
{
    let mut commands = Vec::new(alloc);
    let mut rest = Some(script);
    let mut points = Points {
        breaks: 0,
        watches: 0,
        stores: 0,
    };
    let mut at = 1;
    while let Some(text) = rest {
        let (line, more) = cut(b'\n', text);
        match back_command_at(config, points, line) {
            Ok(command) => {
                points = add_points(points, command);
                if commands.push(command).is_err() {
                    return Err(ScriptFault::NoMemory);
                }
            }
            Err(fault) => return Err(at_line(fault, at)),
        }
        at += 1;
        rest = more;
    }
    Ok(commands)
}
