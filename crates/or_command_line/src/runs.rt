//! The commands that make a recorded run, or follow one.
ghost use Rattle.std.specs.Prelude.{◌≡◌, None, Some, MatchOption, IfSome, IsTrue};
ghost use Rattle.or_words.specs.Settings.{Fits};
ghost use Rattle.or_command_line.specs.Words.{texts};
ghost use Rattle.or_command_line.specs.Names.{run_names, recorded_names, are_run_names, AreRecorded, AreWritten};
ghost use Rattle.or_command_line.specs.Command.{run_of, hunt_of, replay_of, debug_of, back_of, race_of, trace_of, prof_of, shown_command, AreNamesOf};

use crate::names::{are_recorded, are_written, is_name, is_report};
use crate::options::{every, flag_alone, hunt_options, race_options, run_options, trace_options};
use crate::{Command, Hunt, Recorded, Run};

/// `IMAGE INPUT SCHED REPORT` and options.
#[tactic(auto, unfolding(crate::specs::Command::run_of))]
pub(crate) fn parse_run(words: &[String]) -> Option<Command<'_>>
    ensures command { MatchOption result (run_of (texts words.now) ≡ None) (λ command. run_of (texts words.now) ≡ Some (shown_command command)) }
    ensures names { IfSome result (λ command. AreNamesOf (shown_command command)) }
{
    let [image, input, schedule, report, options @ ..] = words else {
        return None;
    };
    let files = Recorded {
        image: image.as_str(),
        input: input.as_str(),
        schedule: schedule.as_str(),
    };
    let report = report.as_str();
    if !are_written(&files, report) {
        return None;
    }
    match run_options(options) {
        Some(options) => Some(Command::Run(Run {
            image: files.image,
            input: files.input,
            schedule: files.schedule,
            report,
            options,
        })),
        None => None,
    }
}

/// `IMAGE INPUT SCHED REPORT` and the options of a hunt.
#[tactic(auto, unfolding(crate::specs::Command::hunt_of))]
pub(crate) fn parse_hunt(words: &[String]) -> Option<Command<'_>>
    ensures command { MatchOption result (hunt_of (texts words.now) ≡ None) (λ command. hunt_of (texts words.now) ≡ Some (shown_command command)) }
    ensures names { IfSome result (λ command. AreNamesOf (shown_command command)) }
{
    let [image, input, schedule, report, options @ ..] = words else {
        return None;
    };
    let files = Recorded {
        image: image.as_str(),
        input: input.as_str(),
        schedule: schedule.as_str(),
    };
    let report = report.as_str();
    if !are_written(&files, report) {
        return None;
    }
    match hunt_options(options) {
        Some(options) => Some(Command::Hunt(Hunt {
            image: files.image,
            input: files.input,
            schedule: files.schedule,
            report,
            options,
        })),
        None => None,
    }
}

/// `IMAGE INPUT SCHED REPORT`.
#[tactic(auto, unfolding(crate::specs::Command::replay_of))]
pub(crate) fn parse_replay(words: &[String]) -> Option<Command<'_>>
    ensures command { MatchOption result (replay_of (texts words.now) ≡ None) (λ command. replay_of (texts words.now) ≡ Some (shown_command command)) }
    ensures names { IfSome result (λ command. AreNamesOf (shown_command command)) }
{
    let [image, input, schedule, report] = words else {
        return None;
    };
    let files = Recorded {
        image: image.as_str(),
        input: input.as_str(),
        schedule: schedule.as_str(),
    };
    let report = report.as_str();
    if are_recorded(&files) && is_report(&files, report) {
        Some(Command::Replay { files, report })
    } else {
        None
    }
}

/// `IMAGE INPUT SCHED SCRIPT`.
#[tactic(auto, unfolding(crate::specs::Command::debug_of))]
pub(crate) fn parse_debug(words: &[String]) -> Option<Command<'_>>
    ensures command { MatchOption result (debug_of (texts words.now) ≡ None) (λ command. debug_of (texts words.now) ≡ Some (shown_command command)) }
    ensures names { IfSome result (λ command. AreNamesOf (shown_command command)) }
{
    let [image, input, schedule, script] = words else {
        return None;
    };
    let files = Recorded {
        image: image.as_str(),
        input: input.as_str(),
        schedule: schedule.as_str(),
    };
    let script = script.as_str();
    if are_recorded(&files) && is_name(script) {
        Some(Command::Debug { files, script })
    } else {
        None
    }
}

/// `IMAGE INPUT SCHED SCRIPT` and an option.
#[tactic(auto, unfolding(crate::specs::Command::back_of))]
pub(crate) fn parse_back(words: &[String]) -> Option<Command<'_>>
    ensures command { MatchOption result (back_of (texts words.now) ≡ None) (λ command. back_of (texts words.now) ≡ Some (shown_command command)) }
    ensures names { IfSome result (λ command. AreNamesOf (shown_command command)) }
{
    let [image, input, schedule, script, options @ ..] = words else {
        return None;
    };
    let files = Recorded {
        image: image.as_str(),
        input: input.as_str(),
        schedule: schedule.as_str(),
    };
    let script = script.as_str();
    if !(are_recorded(&files) && is_name(script)) {
        return None;
    }
    match every(options) {
        Some(every) => Some(Command::Back {
            files,
            script,
            every,
        }),
        None => None,
    }
}

/// `IMAGE INPUT SCHED` and the options of a race report.
#[tactic(auto, unfolding(crate::specs::Command::race_of))]
pub(crate) fn parse_race(words: &[String]) -> Option<Command<'_>>
    ensures command { MatchOption result (race_of (texts words.now) ≡ None) (λ command. race_of (texts words.now) ≡ Some (shown_command command)) }
    ensures names { IfSome result (λ command. AreNamesOf (shown_command command)) }
{
    let [image, input, schedule, options @ ..] = words else {
        return None;
    };
    let files = Recorded {
        image: image.as_str(),
        input: input.as_str(),
        schedule: schedule.as_str(),
    };
    if !are_recorded(&files) {
        return None;
    }
    match race_options(options) {
        Some(options) => Some(Command::Race { files, options }),
        None => None,
    }
}

/// `IMAGE INPUT SCHED` and the options of a trace.
#[tactic(auto, unfolding(crate::specs::Command::trace_of))]
pub(crate) fn parse_trace(words: &[String]) -> Option<Command<'_>>
    ensures command { MatchOption result (trace_of (texts words.now) ≡ None) (λ command. trace_of (texts words.now) ≡ Some (shown_command command)) }
    ensures names { IfSome result (λ command. AreNamesOf (shown_command command)) }
{
    let [image, input, schedule, options @ ..] = words else {
        return None;
    };
    let files = Recorded {
        image: image.as_str(),
        input: input.as_str(),
        schedule: schedule.as_str(),
    };
    if !are_recorded(&files) {
        return None;
    }
    match trace_options(options) {
        Some(options) => Some(Command::Trace { files, options }),
        None => None,
    }
}

/// `IMAGE INPUT SCHED` and the option of a profile.
#[tactic(auto, unfolding(crate::specs::Command::prof_of))]
pub(crate) fn parse_prof(words: &[String]) -> Option<Command<'_>>
    ensures command { MatchOption result (prof_of (texts words.now) ≡ None) (λ command. prof_of (texts words.now) ≡ Some (shown_command command)) }
    ensures names { IfSome result (λ command. AreNamesOf (shown_command command)) }
{
    let [image, input, schedule, options @ ..] = words else {
        return None;
    };
    let files = Recorded {
        image: image.as_str(),
        input: input.as_str(),
        schedule: schedule.as_str(),
    };
    if !are_recorded(&files) {
        return None;
    }
    match flag_alone("--hot", options) {
        Some(hot) => Some(Command::Prof { files, hot }),
        None => None,
    }
}
