//! The commands on sources and workloads.
ghost use Rattle.std.specs.Prelude.{◌≡◌, None, Some, MatchOption, IfSome, IsTrue};
ghost use Rattle.or_command_line.specs.Words.{texts, IsFileName};
ghost use Rattle.or_command_line.specs.Workloads.{workload_of, workload_fits, FitsWorkload};
ghost use Rattle.or_command_line.specs.Command.{asm_of, dis_of, gen_of, bench_of, shown_command, AreNamesOf};

use crate::names::is_name;
use crate::options::{flag_alone, stay_alone};
use crate::{Command, Workload};
use or_text::numerals::read_decimal;
use or_words::limits::{MOST_CORES, MOST_ROUNDS};

/// `SRC IMAGE` and an option.
#[tactic(auto, unfolding(crate::specs::Command::asm_of))]
pub(crate) fn parse_asm(words: &[String]) -> Option<Command<'_>>
    ensures command { MatchOption result (asm_of (texts words.now) ≡ None) (λ command. asm_of (texts words.now) ≡ Some (shown_command command)) }
    ensures names { IfSome result (λ command. AreNamesOf (shown_command command)) }
{
    let [source, image, options @ ..] = words else {
        return None;
    };
    let Some(symbols) = flag_alone("--symbols", options) else {
        return None;
    };
    let source = source.as_str();
    let image = image.as_str();
    if (is_name(source) && is_name(image)) && image != source {
        Some(Command::Asm {
            source,
            image,
            symbols,
        })
    } else {
        None
    }
}

/// `IMAGE`.
#[tactic(auto, unfolding(crate::specs::Command::dis_of))]
pub(crate) fn parse_dis(words: &[String]) -> Option<Command<'_>>
    ensures command { MatchOption result (dis_of (texts words.now) ≡ None) (λ command. dis_of (texts words.now) ≡ Some (shown_command command)) }
    ensures names { IfSome result (λ command. AreNamesOf (shown_command command)) }
{
    let [image] = words else {
        return None;
    };
    let image = image.as_str();
    if is_name(image) {
        Some(Command::Dis { image })
    } else {
        None
    }
}

// Some cores, each of some rounds.
fn fits(workload: &Workload) -> bool
    ensures test { result ≡ workload_fits workload.now }
    ensures fits { IsTrue result → FitsWorkload workload.now }
{
    (1 <= workload.cores && workload.cores <= MOST_CORES)
        && (1 <= workload.rounds && workload.rounds <= MOST_ROUNDS)
}

// The workload of three numbers.
#[tactic(auto, unfolding(crate::specs::Workloads::workload_of))]
fn workload(seed: &str, cores: &str, rounds: &str) -> Option<Workload>
    ensures value { result ≡ workload_of seed.now cores.now rounds.now }
    ensures fits { IfSome result FitsWorkload }
{
    let Some(seed) = read_decimal(seed.as_bytes()) else {
        return None;
    };
    let Some(cores) = read_decimal(cores.as_bytes()) else {
        return None;
    };
    let Some(rounds) = read_decimal(rounds.as_bytes()) else {
        return None;
    };
    let workload = Workload {
        seed,
        cores,
        rounds,
    };
    if fits(&workload) {
        Some(workload)
    } else {
        None
    }
}

/// `SEED CORES ROUNDS SRC`.
#[tactic(auto, unfolding(crate::specs::Command::gen_of))]
pub(crate) fn parse_gen(words: &[String]) -> Option<Command<'_>>
    ensures command { MatchOption result (gen_of (texts words.now) ≡ None) (λ command. gen_of (texts words.now) ≡ Some (shown_command command)) }
    ensures names { IfSome result (λ command. AreNamesOf (shown_command command)) }
{
    let [seed, cores, rounds, source] = words else {
        return None;
    };
    let Some(workload) = workload(seed.as_str(), cores.as_str(), rounds.as_str()) else {
        return None;
    };
    let source = source.as_str();
    if is_name(source) {
        Some(Command::Gen { workload, source })
    } else {
        None
    }
}

/// `SEED CORES ROUNDS SCHED` and an option.
#[tactic(auto, unfolding(crate::specs::Command::bench_of))]
pub(crate) fn parse_bench(words: &[String]) -> Option<Command<'_>>
    ensures command { MatchOption result (bench_of (texts words.now) ≡ None) (λ command. bench_of (texts words.now) ≡ Some (shown_command command)) }
    ensures names { IfSome result (λ command. AreNamesOf (shown_command command)) }
{
    let [seed, cores, rounds, schedule, options @ ..] = words else {
        return None;
    };
    let Some(workload) = workload(seed.as_str(), cores.as_str(), rounds.as_str()) else {
        return None;
    };
    let Some(stay) = stay_alone(options) else {
        return None;
    };
    let schedule = schedule.as_str();
    if is_name(schedule) {
        Some(Command::Bench {
            workload,
            schedule,
            stay,
        })
    } else {
        None
    }
}
