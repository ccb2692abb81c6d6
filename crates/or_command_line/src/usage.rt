//! Why words are no command.
ghost use Rattle.std.specs.Prelude.{◌≡◌, ◌≤◌, length, codes};
ghost use Rattle.or_text.specs.Sentences.{sentence_text};
ghost use Rattle.or_command_line.specs.declared.reading.Value.TheVariants.{Number};
ghost use Rattle.or_command_line.specs.Words.{texts};
ghost use Rattle.or_command_line.specs.Reading.{shown, SoFar};
ghost use Rattle.or_command_line.specs.Usage.{start, image_apart, with_image, image_words, recorded_words, report_apart, with_report, schedule_apart, with_schedule, board_words, run_usage, hunt_usage, replay_usage, session_words, debug_usage, back_usage, race_usage, trace_usage, prof_usage, asm_usage, dis_usage, workload_words, gen_usage, bench_usage, program_usage, usage_sentence};

use crate::reading::{
    Reading, SoFar, Value, then_apart, then_end, then_file, then_flag, then_number, then_option,
    then_optional,
};
use or_text::{Part, Sentence};
use or_words::limits::{
    MOST_BUDGET, MOST_CORES, MOST_EVERY, MOST_FIRST_SEED, MOST_RAM, MOST_ROUNDS, MOST_STAY,
    MOST_TRIES,
};

// From 1 to a limit.
fn from_one_to(limit: u32) -> Value
    ensures { result ≡ Number 1 limit }
{
    Value::Number {
        low: 1,
        high: u64::from(limit),
    }
}

// From 0 to a limit.
fn from_zero_to(limit: u32) -> Value
    ensures { result ≡ Number 0 limit }
{
    Value::Number {
        low: 0,
        high: u64::from(limit),
    }
}

// The words from the first on.
fn start(words: &[String]) -> SoFar<'_>
    ensures { shown result ≡ start (texts words.now) }
{
    Ok(Reading {
        last: "",
        rest: words,
    })
}

// `IMAGE INPUT`.
fn image_words<'a>(verb: &'a str, words: &'a [String]) -> SoFar<'a>
    ensures { shown result ≡ image_words verb.now (texts words.now) }
{
    then_optional(verb, "INPUT", then_file(verb, "IMAGE", start(words)))
}

// `IMAGE INPUT SCHED`.
fn recorded_words<'a>(verb: &'a str, words: &'a [String]) -> SoFar<'a>
    ensures { shown result ≡ recorded_words verb.now (texts words.now) }
{
    then_file(verb, "SCHED", image_words(verb, words))
}

// A report's name differs from these; `-` differs from all.
#[tactic(auto, unfolding(crate::specs::Usage::report_apart))]
fn report_apart<'a>(
    verb: &'a str,
    image: &'a str,
    input: &'a str,
    schedule: &'a str,
    report: &'a str,
    so_far: SoFar<'a>,
) -> SoFar<'a>
    ensures { shown result ≡ report_apart verb.now image.now input.now schedule.now report.now (shown so_far.entry) }
{
    let so_far = then_apart(verb, report, image, "IMAGE and REPORT", so_far);
    let so_far = then_apart(verb, report, input, "INPUT and REPORT", so_far);
    then_apart(verb, report, schedule, "SCHED and REPORT", so_far)
}

// A report's name differs from the others.
fn with_report<'a>(verb: &'a str, words: &'a [String], so_far: SoFar<'a>) -> SoFar<'a>
    ensures { shown result ≡ with_report verb.now (texts words.now) (shown so_far.entry) }
{
    match words {
        [image, input, schedule, report, ..] => report_apart(
            verb,
            image.as_str(),
            input.as_str(),
            schedule.as_str(),
            report.as_str(),
            so_far,
        ),
        _ => so_far,
    }
}

// A schedule's name differs from these.
#[tactic(auto, unfolding(crate::specs::Usage::schedule_apart))]
fn schedule_apart<'a>(
    verb: &'a str,
    image: &'a str,
    input: &'a str,
    schedule: &'a str,
    so_far: SoFar<'a>,
) -> SoFar<'a>
    ensures { shown result ≡ schedule_apart verb.now image.now input.now schedule.now (shown so_far.entry) }
{
    let so_far = then_apart(verb, schedule, image, "IMAGE and SCHED", so_far);
    then_apart(verb, schedule, input, "INPUT and SCHED", so_far)
}

// A run and a hunt also write the schedule.
fn with_schedule<'a>(verb: &'a str, words: &'a [String], so_far: SoFar<'a>) -> SoFar<'a>
    ensures { shown result ≡ with_schedule verb.now (texts words.now) (shown so_far.entry) }
{
    match words {
        [image, input, schedule, ..] => schedule_apart(
            verb,
            image.as_str(),
            input.as_str(),
            schedule.as_str(),
            so_far,
        ),
        _ => so_far,
    }
}

// `IMAGE INPUT SCHED REPORT` and the options that set up a board.
fn board_words<'a>(verb: &'a str, words: &'a [String]) -> SoFar<'a>
    ensures { shown result ≡ board_words verb.now (texts words.now) }
{
    let so_far = then_optional(verb, "SCHED", image_words(verb, words));
    let so_far = then_optional(verb, "REPORT", so_far);
    let so_far = with_schedule(verb, words, with_report(verb, words, so_far));
    let so_far = then_option(verb, "--cores", from_one_to(MOST_CORES), so_far);
    let so_far = then_option(verb, "--budget", from_one_to(MOST_BUDGET), so_far);
    let so_far = then_option(verb, "--ram", from_one_to(MOST_RAM), so_far);
    then_option(verb, "--pic", Value::Latched, so_far)
}

fn run_usage(words: &[String]) -> Sentence<'_>
    ensures { sentence_text result ≡ run_usage (texts words.now) }
{
    let so_far = then_option(
        "run",
        "--stay",
        from_one_to(MOST_STAY),
        board_words("run", words),
    );
    then_end("run", words, then_flag("--status", so_far))
}

fn hunt_usage(words: &[String]) -> Sentence<'_>
    ensures { sentence_text result ≡ hunt_usage (texts words.now) }
{
    let seed = from_zero_to(MOST_FIRST_SEED);
    let so_far = then_option("hunt", "--seed", seed, board_words("hunt", words));
    let so_far = then_option("hunt", "--tries", from_one_to(MOST_TRIES), so_far);
    then_end("hunt", words, so_far)
}

fn replay_usage(words: &[String]) -> Sentence<'_>
    ensures { sentence_text result ≡ replay_usage (texts words.now) }
{
    let so_far = then_optional("replay", "REPORT", recorded_words("replay", words));
    then_end("replay", words, with_report("replay", words, so_far))
}

// `IMAGE INPUT SCHED SCRIPT`.
fn session_words<'a>(verb: &'a str, words: &'a [String]) -> SoFar<'a>
    ensures { shown result ≡ session_words verb.now (texts words.now) }
{
    then_file(verb, "SCRIPT", recorded_words(verb, words))
}

fn back_usage(words: &[String]) -> Sentence<'_>
    ensures { sentence_text result ≡ back_usage (texts words.now) }
{
    let so_far = session_words("back", words);
    let so_far = then_option("back", "--every", from_one_to(MOST_EVERY), so_far);
    then_end("back", words, so_far)
}

fn race_usage(words: &[String]) -> Sentence<'_>
    ensures { sentence_text result ≡ race_usage (texts words.now) }
{
    let so_far = then_flag("--locks", recorded_words("race", words));
    then_end("race", words, then_flag("--where", so_far))
}

fn trace_usage(words: &[String]) -> Sentence<'_>
    ensures { sentence_text result ≡ trace_usage (texts words.now) }
{
    let core = from_zero_to(MOST_CORES - 1);
    let so_far = then_option("trace", "--core", core, recorded_words("trace", words));
    let so_far = then_option("trace", "--from", from_one_to(u32::MAX), so_far);
    let so_far = then_option("trace", "--to", from_one_to(u32::MAX), so_far);
    then_end("trace", words, so_far)
}

fn prof_usage(words: &[String]) -> Sentence<'_>
    ensures { sentence_text result ≡ prof_usage (texts words.now) }
{
    then_end(
        "prof",
        words,
        then_flag("--hot", recorded_words("prof", words)),
    )
}

// An image's name differs from the source's.
#[tactic(auto, unfolding(crate::specs::Usage::image_apart))]
fn image_apart<'a>(source: &'a str, image: &'a str, so_far: SoFar<'a>) -> SoFar<'a>
    ensures { shown result ≡ image_apart source.now image.now (shown so_far.entry) }
{
    then_apart("asm", image, source, "SRC and IMAGE", so_far)
}

// The image differs from the source.
fn with_image<'a>(words: &'a [String], so_far: SoFar<'a>) -> SoFar<'a>
    ensures { shown result ≡ with_image (texts words.now) (shown so_far.entry) }
{
    match words {
        [source, image, ..] => image_apart(source.as_str(), image.as_str(), so_far),
        _ => so_far,
    }
}

fn asm_usage(words: &[String]) -> Sentence<'_>
    ensures { sentence_text result ≡ asm_usage (texts words.now) }
{
    let so_far = then_file("asm", "IMAGE", then_file("asm", "SRC", start(words)));
    let so_far = then_flag("--symbols", with_image(words, so_far));
    then_end("asm", words, so_far)
}

fn dis_usage(words: &[String]) -> Sentence<'_>
    ensures { sentence_text result ≡ dis_usage (texts words.now) }
{
    then_end("dis", words, then_file("dis", "IMAGE", start(words)))
}

// `SEED CORES ROUNDS`.
fn workload_words<'a>(verb: &'a str, words: &'a [String]) -> SoFar<'a>
    ensures { shown result ≡ workload_words verb.now (texts words.now) }
{
    let so_far = then_number(verb, "SEED", from_zero_to(u32::MAX), start(words));
    let so_far = then_number(verb, "CORES", from_one_to(MOST_CORES), so_far);
    then_number(verb, "ROUNDS", from_one_to(MOST_ROUNDS), so_far)
}

fn gen_usage(words: &[String]) -> Sentence<'_>
    ensures { sentence_text result ≡ gen_usage (texts words.now) }
{
    let so_far = then_file("gen", "SRC", workload_words("gen", words));
    then_end("gen", words, so_far)
}

fn bench_usage(words: &[String]) -> Sentence<'_>
    ensures { sentence_text result ≡ bench_usage (texts words.now) }
{
    let so_far = then_file("bench", "SCHED", workload_words("bench", words));
    let so_far = then_option("bench", "--stay", from_one_to(MOST_STAY), so_far);
    then_end("bench", words, so_far)
}

// Of the commands that run, write or read programs, and of the names of none.
fn program_usage<'a>(verb: &'a str, words: &'a [String]) -> Sentence<'a>
    ensures { sentence_text result ≡ program_usage verb.now (texts words.now) }
{
    match verb {
        "run" => run_usage(words),
        "hunt" => hunt_usage(words),
        "bench" => bench_usage(words),
        "gen" => gen_usage(words),
        "asm" => asm_usage(words),
        "dis" => dis_usage(words),
        _ => Sentence::one("there is no command ", Part::Text(verb), ""),
    }
}

/// Why these words are no command: which of them is wrong, and what it has to be. It reads them as `parse` does, and tells of the
/// first that is wrong.
#[tactic(auto, unfolding(crate::specs::Usage::usage_sentence))]
pub fn explain(words: &[String]) -> Sentence<'_>
    ensures { sentence_text result ≡ usage_sentence (texts words.now) }
{
    let Some((verb, rest)) = words.split_first() else {
        return Sentence::plain("the command is missing: or1k --help has them all");
    };
    match verb.as_str() {
        "replay" => replay_usage(rest),
        "debug" => then_end("debug", rest, session_words("debug", rest)),
        "back" => back_usage(rest),
        "race" => race_usage(rest),
        "prof" => prof_usage(rest),
        "trace" => trace_usage(rest),
        verb => program_usage(verb, rest),
    }
}
