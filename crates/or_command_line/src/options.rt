//! The options behind the names.
ghost use Rattle.std.specs.Prelude.{◌≡◌, ◌<◌, None, Some, MatchOption, IfSome, IsTrue};
ghost use Rattle.or_words.specs.Settings.{Fits};
ghost use Rattle.or_words.specs.declared.limits.TheConstants.{MOST_CORES};
ghost use Rattle.or_command_line.specs.Words.{texts};
ghost use Rattle.or_command_line.specs.Settings.{option_of, flag_of, latch_of, config_of, config_fits, stay_of, stay_fits, FitsStay, run_options_of, hunt_options_of, hunt_fits, FitsHunt, stay_alone_of, every_of, every_fits, FitsEvery, flag_alone_of, race_options_of, given_of, core_fits, trace_fits, FitsTrace, trace_options_of};

use crate::defaults::{
    DEFAULT_BUDGET, DEFAULT_CORES, DEFAULT_EVERY, DEFAULT_FROM, DEFAULT_HUNT_CORES, DEFAULT_RAM,
    DEFAULT_SEED, DEFAULT_STAY, DEFAULT_TO, DEFAULT_TRIES,
};
use crate::{HuntOptions, RaceOptions, RunOptions, TraceOptions};
use or_text::numerals::read_decimal;
use or_words::Config;
use or_words::limits::{
    MOST_BUDGET, MOST_CORES, MOST_EVERY, MOST_FIRST_SEED, MOST_RAM, MOST_STAY, MOST_TRIES,
};

// An option with a number, which may be left out; the words behind it.
fn option<'a>(name: &str, default: u32, words: &'a [String]) -> Option<(u32, &'a [String])>
    ensures { MatchOption result (option_of name.now default (texts words.now) ≡ None)
        (λ found. option_of name.now default (texts words.now) ≡ Some (found.0, texts found.1.now)) }
{
    let Some((word, rest)) = words.split_first() else {
        return Some((default, words));
    };
    if word.as_str() != name {
        return Some((default, words));
    }
    let Some((value, rest)) = rest.split_first() else {
        return None;
    };
    match read_decimal(value.as_bytes()) {
        Some(number) => Some((number, rest)),
        None => None,
    }
}

// Whether this option without a number stands here; the words behind it.
fn flag<'a>(name: &str, words: &'a [String]) -> (bool, &'a [String])
    ensures { flag_of name.now (texts words.now) ≡ (result.0, texts result.1.now) }
{
    let Some((word, rest)) = words.split_first() else {
        return (false, words);
    };
    if word.as_str() == name {
        (true, rest)
    } else {
        (false, words)
    }
}

// Whether the PIC latches; the words behind.
fn latch(words: &[String]) -> Option<(bool, &[String])>
    ensures { MatchOption result (latch_of (texts words.now) ≡ None) (λ found. latch_of (texts words.now) ≡ Some (found.0, texts found.1.now)) }
{
    let Some((word, rest)) = words.split_first() else {
        return Some((false, words));
    };
    if word.as_str() != "--pic" {
        return Some((false, words));
    }
    let Some((value, rest)) = rest.split_first() else {
        return None;
    };
    if value.as_str() == "latched" {
        Some((true, rest))
    } else {
        None
    }
}

// The settings are in their ranges.
fn fits(config: &Config) -> bool
    ensures test { result ≡ config_fits config.now }
    ensures fits { IsTrue result → Fits config.now }
{
    (1 <= config.cores && config.cores <= MOST_CORES)
        && ((1 <= config.budget && config.budget <= MOST_BUDGET)
            && (1 <= config.ram && config.ram <= MOST_RAM))
}

// The settings that the options give, with so many cores where none says it; the words behind them.
#[tactic(auto, unfolding(crate::specs::Settings::config_of))]
fn settings(cores: u32, words: &[String]) -> Option<(Config, &[String])>
    ensures value { MatchOption result (config_of cores (texts words.now) ≡ None) (λ found. config_of cores (texts words.now) ≡ Some (found.0, texts found.1.now)) }
    ensures fits { IfSome result (λ found. Fits found.0) }
{
    let Some((cores, rest)) = option("--cores", cores, words) else {
        return None;
    };
    let Some((budget, rest)) = option("--budget", DEFAULT_BUDGET, rest) else {
        return None;
    };
    let Some((ram, rest)) = option("--ram", DEFAULT_RAM, rest) else {
        return None;
    };
    let Some((latched, rest)) = latch(rest) else {
        return None;
    };
    let config = Config {
        cores,
        budget,
        ram,
        latched,
    };
    if fits(&config) {
        Some((config, rest))
    } else {
        None
    }
}

// Turns of a stay, at least one.
fn is_stay(stay: u32) -> bool
    ensures test { result ≡ stay_fits stay }
    ensures fits { IsTrue result → FitsStay stay }
{
    1 <= stay && stay <= MOST_STAY
}

// The most turns of a stay that the option gives; the words behind it.
#[tactic(auto, unfolding(crate::specs::Settings::stay_of))]
fn stay(words: &[String]) -> Option<(u32, &[String])>
    ensures value { MatchOption result (stay_of (texts words.now) ≡ None) (λ found. stay_of (texts words.now) ≡ Some (found.0, texts found.1.now)) }
    ensures fits { IfSome result (λ found. FitsStay found.0) }
{
    let Some((stay, rest)) = option("--stay", DEFAULT_STAY, words) else {
        return None;
    };
    if is_stay(stay) {
        Some((stay, rest))
    } else {
        None
    }
}

/// The options of a run.
#[tactic(auto, unfolding(crate::specs::Settings::run_options_of))]
pub(crate) fn run_options(words: &[String]) -> Option<RunOptions>
    ensures value { result ≡ run_options_of (texts words.now) }
    ensures fits { IfSome result (λ options. Fits options.config) }
    ensures stay { IfSome result (λ options. FitsStay options.stay) }
{
    let Some((config, rest)) = settings(DEFAULT_CORES, words) else {
        return None;
    };
    let Some((stay, rest)) = stay(rest) else {
        return None;
    };
    let (status, rest) = flag("--status", rest);
    if rest.is_empty() {
        Some(RunOptions {
            config,
            stay,
            status,
        })
    } else {
        None
    }
}

// The seeds of a hunt are in their range.
fn hunt_fits(options: &HuntOptions) -> bool
    ensures test { result ≡ hunt_fits options.now.seed options.now.tries }
    ensures fits { IsTrue result → FitsHunt options.now }
{
    options.seed <= MOST_FIRST_SEED && (1 <= options.tries && options.tries <= MOST_TRIES)
}

/// The options of a hunt.
#[tactic(auto, unfolding(crate::specs::Settings::hunt_options_of))]
pub(crate) fn hunt_options(words: &[String]) -> Option<HuntOptions>
    ensures value { result ≡ hunt_options_of (texts words.now) }
    ensures fits { IfSome result (λ options. Fits options.config) }
    ensures range { IfSome result FitsHunt }
{
    let Some((config, rest)) = settings(DEFAULT_HUNT_CORES, words) else {
        return None;
    };
    let Some((seed, rest)) = option("--seed", DEFAULT_SEED, rest) else {
        return None;
    };
    let Some((tries, rest)) = option("--tries", DEFAULT_TRIES, rest) else {
        return None;
    };
    let options = HuntOptions {
        config,
        seed,
        tries,
    };
    if rest.is_empty() && hunt_fits(&options) {
        Some(options)
    } else {
        None
    }
}

/// The most turns of a stay, where no other option may stand.
#[tactic(auto, unfolding(crate::specs::Settings::stay_alone_of))]
pub(crate) fn stay_alone(words: &[String]) -> Option<u32>
    ensures value { result ≡ stay_alone_of (texts words.now) }
    ensures fits { IfSome result FitsStay }
{
    let Some((stay, rest)) = stay(words) else {
        return None;
    };
    if rest.is_empty() { Some(stay) } else { None }
}

/// Whether an option without a number is given, where no other option may stand.
#[tactic(auto, unfolding(crate::specs::Settings::flag_alone_of))]
pub(crate) fn flag_alone(name: &str, words: &[String]) -> Option<bool>
    ensures value { result ≡ flag_alone_of name.now (texts words.now) }
{
    let (given, rest) = flag(name, words);
    if rest.is_empty() { Some(given) } else { None }
}

/// The options of a race report.
#[tactic(auto, unfolding(crate::specs::Settings::race_options_of))]
pub(crate) fn race_options(words: &[String]) -> Option<RaceOptions>
    ensures value { result ≡ race_options_of (texts words.now) }
{
    let (locks, rest) = flag("--locks", words);
    let (places, rest) = flag("--where", rest);
    if rest.is_empty() {
        Some(RaceOptions { locks, places })
    } else {
        None
    }
}

// An option with a number, if it stands here; the words behind it.
fn given<'a>(name: &str, words: &'a [String]) -> Option<(Option<u32>, &'a [String])>
    ensures { MatchOption result (given_of name.now (texts words.now) ≡ None)
        (λ found. given_of name.now (texts words.now) ≡ Some (found.0, texts found.1.now)) }
{
    let Some((word, rest)) = words.split_first() else {
        return Some((None, words));
    };
    if word.as_str() != name {
        return Some((None, words));
    }
    let Some((value, rest)) = rest.split_first() else {
        return None;
    };
    match read_decimal(value.as_bytes()) {
        Some(number) => Some((Some(number), rest)),
        None => None,
    }
}

// A core that a board may have, if one is given.
fn is_core(core: Option<u32>) -> bool
    ensures test { result ≡ core_fits core }
    ensures fits { IsTrue result → IfSome core (λ number. number < MOST_CORES) }
{
    match core {
        Some(number) => number < MOST_CORES,
        None => true,
    }
}

// The core and the turns of a trace are in their ranges.
fn trace_fits(options: &TraceOptions) -> bool
    ensures test { result ≡ trace_fits options.now }
    ensures fits { IsTrue result → FitsTrace options.now }
{
    is_core(options.core) && (1 <= options.from && 1 <= options.to)
}

/// The options of a trace.
#[tactic(auto, unfolding(crate::specs::Settings::trace_options_of))]
pub(crate) fn trace_options(words: &[String]) -> Option<TraceOptions>
    ensures value { result ≡ trace_options_of (texts words.now) }
    ensures fits { IfSome result FitsTrace }
{
    let Some((core, rest)) = given("--core", words) else {
        return None;
    };
    let Some((from, rest)) = option("--from", DEFAULT_FROM, rest) else {
        return None;
    };
    let Some((to, rest)) = option("--to", DEFAULT_TO, rest) else {
        return None;
    };
    let options = TraceOptions { core, from, to };
    if rest.is_empty() && trace_fits(&options) {
        Some(options)
    } else {
        None
    }
}

// Turns between two checkpoints, at least one.
fn every_fits(every: u32) -> bool
    ensures test { result ≡ every_fits every }
    ensures fits { IsTrue result → FitsEvery every }
{
    1 <= every && every <= MOST_EVERY
}

/// The number of turns between two checkpoints that the option gives.
#[tactic(auto, unfolding(crate::specs::Settings::every_of))]
pub(crate) fn every(words: &[String]) -> Option<u32>
    ensures value { result ≡ every_of (texts words.now) }
    ensures fits { IfSome result FitsEvery }
{
    let Some((every, rest)) = option("--every", DEFAULT_EVERY, words) else {
        return None;
    };
    if rest.is_empty() && every_fits(every) {
        Some(every)
    } else {
        None
    }
}
