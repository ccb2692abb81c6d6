//! Words that are read one after another until one is wrong, and what is said of it.
ghost use Rattle.std.specs.Prelude.{◌≡◌, ◌<◌, ◌++◌, codes, decimal, Option};
ghost use Rattle.std.specs.Str.{bytes_eq};
ghost use Rattle.std.specs.List.{list_any};
ghost use Rattle.or_text.specs.Sentences.{sentence_text};
ghost use Rattle.or_command_line.specs.Words.{texts};
ghost use Rattle.or_command_line.specs.Reading.{shown, fits, begins_with_dash, has_equals, stands_twice, is_board_option, is_option, missing, no_name, no_value, wrong_value, same_name, no_fault, value_of, leftover, then_file, then_optional, then_number, then_option, then_flag, then_apart, then_end};

use crate::names::{differ, is_name, is_optional};
use or_text::numerals::read_decimal;
use or_text::{Part, Sentence};

/// The option that was read last, empty for none, and the words behind what was read.
#[derive(Clone, Copy)]
pub(crate) struct Reading<'a> {
    pub last: &'a str,
    pub rest: &'a [String],
}

/// What the words were read to, or what is said of the first that is wrong.
pub(crate) type SoFar<'a> = Result<Reading<'a>, Sentence<'a>>;

/// What a value may be.
#[derive(Clone, Copy)]
pub enum Value {
    /// A number in decimal, from one to another.
    Number { low: u64, high: u64 },
    /// The word `latched`.
    Latched,
}

// Whether a word is such a value.
fn fits(value: Value, word: &str) -> bool
    ensures { result ≡ fits value word.now }
{
    match value {
        Value::Number { low, high } => match read_decimal(word.as_bytes()) {
            Some(number) => low <= u64::from(number) && u64::from(number) <= high,
            None => false,
        },
        Value::Latched => word == "latched",
    }
}

fn begins_with_dash(word: &str) -> bool
    ensures { result ≡ begins_with_dash word.now }
{
    match word.as_bytes() {
        [] => false,
        [first, ..] => *first == b'-',
    }
}

fn has_equals(word: &str) -> bool
    ensures { result ≡ has_equals word.now }
{
    word.as_bytes().iter().any(|byte| *byte == b'=')
}

fn stands(word: &str, words: &[String]) -> bool
    ensures { result ≡ list_any (λ other. bytes_eq other word.now) (texts words.now) }
{
    let Some((first, others)) = words.split_first() else {
        return false;
    };
    first.as_str() == word || stands(word, others)
}

fn stands_twice(word: &str, words: &[String]) -> bool
    ensures { result ≡ stands_twice word.now (texts words.now) }
{
    let Some((first, others)) = words.split_first() else {
        return false;
    };
    if first.as_str() == word {
        stands(word, others)
    } else {
        stands_twice(word, others)
    }
}

// Whether an option sets up a board.
fn is_board_option(word: &str) -> bool
    ensures { result ≡ is_board_option word.now }
{
    word == "--cores" || word == "--budget" || word == "--ram" || word == "--pic"
}

// Whether a command has this option.
fn is_option(verb: &str, word: &str) -> bool
    ensures { result ≡ is_option verb.now word.now }
{
    match verb {
        "run" => is_board_option(word) || word == "--stay" || word == "--status",
        "hunt" => is_board_option(word) || word == "--seed" || word == "--tries",
        "asm" => word == "--symbols",
        "back" => word == "--every",
        "bench" => word == "--stay",
        "race" => word == "--locks" || word == "--where",
        "prof" => word == "--hot",
        "trace" => word == "--core" || word == "--from" || word == "--to",
        _ => false,
    }
}

fn missing<'a>(verb: &'a str, name: &'a str) -> Sentence<'a>
    ensures { sentence_text result ≡ missing verb.now name.now }
{
    Sentence::two("", Part::Text(verb), ": ", Part::Text(name), " is missing")
}

// Of a word that is no name of a file.
fn no_name<'a>(verb: &'a str, name: &'a str, word: &'a str) -> Sentence<'a>
    ensures { sentence_text result ≡ no_name verb.now name.now word.now }
{
    if word.is_empty() {
        return Sentence::two(
            "",
            Part::Text(verb),
            ": ",
            Part::Text(name),
            " is an empty word",
        );
    }
    if begins_with_dash(word) {
        return Sentence::three(
            "",
            Part::Text(verb),
            ": ",
            Part::Text(name),
            " is ",
            Part::Text(word),
            ": a name does not begin with -, and options come last",
        );
    }
    Sentence::two(
        "",
        Part::Text(verb),
        ": ",
        Part::Text(name),
        " has over 4095 bytes",
    )
}

// Of an option without its value.
fn no_value<'a>(verb: &'a str, name: &'a str, value: Value) -> Sentence<'a>
    ensures { sentence_text result ≡ no_value verb.now name.now value }
{
    match value {
        Value::Number { low, high } => Sentence::three(
            "",
            Part::Text(verb),
            ": ",
            Part::Text(name),
            ": a number from ",
            Part::Range { low, high },
            " must follow",
        ),
        Value::Latched => Sentence::two(
            "",
            Part::Text(verb),
            ": ",
            Part::Text(name),
            ": latched must follow",
        ),
    }
}

// Of a value that does not fit.
fn wrong_value<'a>(verb: &'a str, name: &'a str, word: &'a str, value: Value) -> Sentence<'a>
    ensures { sentence_text result ≡ wrong_value verb.now name.now word.now value }
{
    match value {
        Value::Number { low, high } => Sentence::four(
            Part::Text(verb),
            ": ",
            Part::Text(name),
            " ",
            Part::Text(word),
            ": a number from ",
            Part::Range { low, high },
        ),
        Value::Latched => Sentence::three(
            "",
            Part::Text(verb),
            ": ",
            Part::Text(name),
            " ",
            Part::Text(word),
            ": latched must follow",
        ),
    }
}

// Of a name that is given twice.
fn same_name<'a>(verb: &'a str, name: &'a str, both: &'a str) -> Sentence<'a>
    ensures { sentence_text result ≡ same_name verb.now name.now both.now }
{
    Sentence::three(
        "",
        Part::Text(verb),
        ": ",
        Part::Text(name),
        " names both ",
        Part::Text(both),
        "",
    )
}

// Of words that are a command.
fn no_fault<'a>(verb: &'a str) -> Sentence<'a>
    ensures { sentence_text result ≡ no_fault verb.now }
{
    Sentence::one("", Part::Text(verb), ": this call has no such command")
}

// Of a word that is left.
fn leftover<'a>(verb: &'a str, words: &'a [String], last: &'a str, word: &'a str) -> Sentence<'a>
    ensures { sentence_text result ≡ leftover verb.now (texts words.now) last.now word.now }
{
    if is_option(verb, word) {
        if stands_twice(word, words) {
            return Sentence::two(
                "",
                Part::Text(verb),
                ": ",
                Part::Text(word),
                " stands twice",
            );
        }
        return Sentence::three(
            "",
            Part::Text(verb),
            ": ",
            Part::Text(word),
            " must stand before ",
            Part::Text(last),
            "",
        );
    }
    if !begins_with_dash(word) {
        return Sentence::two(
            "",
            Part::Text(verb),
            ": ",
            Part::Text(word),
            " is a word too many",
        );
    }
    if has_equals(word) {
        return Sentence::two(
            "",
            Part::Text(verb),
            ": ",
            Part::Text(word),
            ": the value is the next word",
        );
    }
    Sentence::two(
        "",
        Part::Text(verb),
        ": there is no option ",
        Part::Text(word),
        "",
    )
}

/// Reads the name of a file.
pub(crate) fn then_file<'a>(verb: &'a str, name: &'a str, so_far: SoFar<'a>) -> SoFar<'a>
    ensures { shown result ≡ then_file verb.now name.now (shown so_far.entry) }
{
    let Reading { last, rest } = match so_far {
        Ok(reading) => reading,
        Err(why) => return Err(why),
    };
    let Some((word, rest)) = rest.split_first() else {
        return Err(missing(verb, name));
    };
    let word = word.as_str();
    if is_name(word) {
        Ok(Reading { last, rest })
    } else {
        Err(no_name(verb, name, word))
    }
}

/// Reads the name of a file, or `-` for none.
pub(crate) fn then_optional<'a>(verb: &'a str, name: &'a str, so_far: SoFar<'a>) -> SoFar<'a>
    ensures { shown result ≡ then_optional verb.now name.now (shown so_far.entry) }
{
    let Reading { last, rest } = match so_far {
        Ok(reading) => reading,
        Err(why) => return Err(why),
    };
    let Some((word, rest)) = rest.split_first() else {
        return Err(missing(verb, name));
    };
    let word = word.as_str();
    if is_optional(word) {
        Ok(Reading { last, rest })
    } else {
        Err(no_name(verb, name, word))
    }
}

/// Reads a value that has a place of its own.
pub(crate) fn then_number<'a>(
    verb: &'a str,
    name: &'a str,
    value: Value,
    so_far: SoFar<'a>,
) -> SoFar<'a>
    ensures { shown result ≡ then_number verb.now name.now value (shown so_far.entry) }
{
    let Reading { last, rest } = match so_far {
        Ok(reading) => reading,
        Err(why) => return Err(why),
    };
    let Some((word, rest)) = rest.split_first() else {
        return Err(missing(verb, name));
    };
    let word = word.as_str();
    if fits(value, word) {
        Ok(Reading { last, rest })
    } else {
        Err(wrong_value(verb, name, word, value))
    }
}

// Reads the value of an option.
fn value_of<'a>(verb: &'a str, name: &'a str, value: Value, rest: &'a [String]) -> SoFar<'a>
    ensures { shown result ≡ value_of verb.now name.now value (texts rest.now) }
{
    let Some((word, rest)) = rest.split_first() else {
        return Err(no_value(verb, name, value));
    };
    let word = word.as_str();
    if fits(value, word) {
        Ok(Reading { last: name, rest })
    } else {
        Err(wrong_value(verb, name, word, value))
    }
}

/// Reads an option with a value, where it stands here.
pub(crate) fn then_option<'a>(
    verb: &'a str,
    name: &'a str,
    value: Value,
    so_far: SoFar<'a>,
) -> SoFar<'a>
    ensures { shown result ≡ then_option verb.now name.now value (shown so_far.entry) }
{
    let reading = match so_far {
        Ok(reading) => reading,
        Err(why) => return Err(why),
    };
    let Some((word, rest)) = reading.rest.split_first() else {
        return Ok(reading);
    };
    if word.as_str() == name {
        value_of(verb, name, value, rest)
    } else {
        Ok(reading)
    }
}

/// Reads an option without a value, where it stands here.
pub(crate) fn then_flag<'a>(name: &'a str, so_far: SoFar<'a>) -> SoFar<'a>
    ensures { shown result ≡ then_flag name.now (shown so_far.entry) }
{
    let reading = match so_far {
        Ok(reading) => reading,
        Err(why) => return Err(why),
    };
    let Some((word, rest)) = reading.rest.split_first() else {
        return Ok(reading);
    };
    if word.as_str() == name {
        Ok(Reading { last: name, rest })
    } else {
        Ok(reading)
    }
}

/// Two names that must differ, and what they are the names of.
pub(crate) fn then_apart<'a>(
    verb: &'a str,
    one: &'a str,
    other: &'a str,
    both: &'a str,
    so_far: SoFar<'a>,
) -> SoFar<'a>
    ensures { shown result ≡ then_apart verb.now one.now other.now both.now (shown so_far.entry) }
{
    let reading = match so_far {
        Ok(reading) => reading,
        Err(why) => return Err(why),
    };
    if differ(one, other) {
        Ok(reading)
    } else {
        Err(same_name(verb, one, both))
    }
}

/// What is said of words of which none may be left.
pub(crate) fn then_end<'a>(verb: &'a str, words: &'a [String], so_far: SoFar<'a>) -> Sentence<'a>
    ensures { sentence_text result ≡ then_end verb.now (texts words.now) (shown so_far.entry) }
{
    let Reading { last, rest } = match so_far {
        Ok(reading) => reading,
        Err(why) => return why,
    };
    match rest.split_first() {
        Some((word, _)) => leftover(verb, words, last, word.as_str()),
        None => no_fault(verb),
    }
}
