//! The grammar of the command line.
#![tactic(auto)]

ghost use Rattle.std.specs.Prelude.{◌≡◌, None, Some, MatchOption, IfSome};
ghost use Rattle.or_command_line.specs.Words.{texts};
ghost use Rattle.or_command_line.specs.Command.{command_of, program_command, shown_command, AreNamesOf};

mod defaults;
mod names;
mod options;
mod programs;
mod reading;
mod runs;
mod usage;

use or_words::Config;
pub use usage::explain;

/// The options of a run.
#[derive(Clone, Copy)]
pub struct RunOptions {
    /// The settings of the board.
    pub config: Config,
    /// The most turns that a core makes while its worker holds the bus: 1 to 4096.
    pub stay: u32,
    /// Whether the exit status tells that a core failed.
    pub status: bool,
}

/// `IMAGE INPUT SCHED` and, of a run, `REPORT` and its options.
#[derive(Clone, Copy)]
pub struct Run<'a> {
    pub image: &'a str,
    /// The file of the console's input; `-` for none.
    pub input: &'a str,
    /// The file of the recording; `-` for none.
    pub schedule: &'a str,
    /// The file of the report; `-` for none.
    pub report: &'a str,
    pub options: RunOptions,
}

/// The options of a hunt.
#[derive(Clone, Copy)]
pub struct HuntOptions {
    /// The settings of the board.
    pub config: Config,
    /// The first seed: 0 to 4293967295.
    pub seed: u32,
    /// How many seeds are tried: 1 to 1000000.
    pub tries: u32,
}

/// `IMAGE INPUT SCHED REPORT` and the options of a hunt.
#[derive(Clone, Copy)]
pub struct Hunt<'a> {
    pub image: &'a str,
    /// The file of the console's input; `-` for none.
    pub input: &'a str,
    /// The file of the recording; `-` for none.
    pub schedule: &'a str,
    /// The file of the report; `-` for none.
    pub report: &'a str,
    pub options: HuntOptions,
}

/// The options of a race report.
#[derive(Clone, Copy)]
pub struct RaceOptions {
    /// Whether plain stores to the words that l.lwa and l.swa access release them.
    pub locks: bool,
    /// Whether each line tells where its accesses were made, by the image's symbols.
    pub places: bool,
}

/// The options of a trace.
#[derive(Clone, Copy)]
pub struct TraceOptions {
    /// The one core whose turns are traced, 0 to 7; none for all.
    pub core: Option<u32>,
    /// The first turn that is traced, counted from 1: 1 to 4294967295.
    pub from: u32,
    /// The last turn that is traced: 1 to 4294967295.
    pub to: u32,
}

/// `IMAGE INPUT SCHED`: the files of a recorded run.
#[derive(Clone, Copy)]
pub struct Recorded<'a> {
    pub image: &'a str,
    /// The file of the console's input; `-` for none.
    pub input: &'a str,
    pub schedule: &'a str,
}

/// `SEED CORES ROUNDS`: 1 to 8 cores, each of 1 to 100000 rounds.
#[derive(Clone, Copy)]
pub struct Workload {
    pub seed: u32,
    pub cores: u32,
    pub rounds: u32,
}

/// A command with its words.
#[derive(Clone, Copy)]
pub enum Command<'a> {
    Run(Run<'a>),
    Hunt(Hunt<'a>),
    /// With `-` for no report.
    Replay {
        files: Recorded<'a>,
        report: &'a str,
    },
    /// With whether the image gets a symbol for each label.
    Asm {
        source: &'a str,
        image: &'a str,
        symbols: bool,
    },
    Dis {
        image: &'a str,
    },
    Debug {
        files: Recorded<'a>,
        script: &'a str,
    },
    Gen {
        workload: Workload,
        source: &'a str,
    },
    /// With the most turns of a stay at the bus, 1 to 4096.
    Bench {
        workload: Workload,
        schedule: &'a str,
        stay: u32,
    },
    /// With the number of turns between two checkpoints, 1 to 2^29.
    Back {
        files: Recorded<'a>,
        script: &'a str,
        every: u32,
    },
    Race {
        files: Recorded<'a>,
        options: RaceOptions,
    },
    /// With or without the pcs outside of functions that have the most steps.
    Prof {
        files: Recorded<'a>,
        hot: bool,
    },
    Trace {
        files: Recorded<'a>,
        options: TraceOptions,
    },
}

/// The command of these words; `None` where they are none. The names of a command are names of files, the written ones
/// differ from each other one, and its numbers are in their ranges.
#[tactic(auto, unfolding(crate::specs::Command::command_of))]
pub fn parse(words: &[String]) -> Option<Command<'_>>
    ensures command { MatchOption result (command_of (texts words.now) ≡ None) (λ command. command_of (texts words.now) ≡ Some (shown_command command)) }
    ensures names { IfSome result (λ command. AreNamesOf (shown_command command)) }
{
    let Some((verb, rest)) = words.split_first() else {
        return None;
    };
    match verb.as_str() {
        "replay" => runs::parse_replay(rest),
        "debug" => runs::parse_debug(rest),
        "back" => runs::parse_back(rest),
        "race" => runs::parse_race(rest),
        "prof" => runs::parse_prof(rest),
        "trace" => runs::parse_trace(rest),
        verb => parse_program(verb, rest),
    }
}

// The commands that run, write or read programs.
fn parse_program<'a>(verb: &str, words: &'a [String]) -> Option<Command<'a>>
    ensures command { MatchOption result (program_command verb.now (texts words.now) ≡ None) (λ command. program_command verb.now (texts words.now) ≡ Some (shown_command command)) }
    ensures names { IfSome result (λ command. AreNamesOf (shown_command command)) }
{
    match verb {
        "run" => runs::parse_run(words),
        "hunt" => runs::parse_hunt(words),
        "bench" => programs::parse_bench(words),
        "gen" => programs::parse_gen(words),
        "asm" => programs::parse_asm(words),
        "dis" => programs::parse_dis(words),
        _ => None,
    }
}
