// Says how a command ended, and gives its status.
ghost use Rattle.std.specs.Prelude.{◌≡◌, ◌++◌, ℕ, List, codes, decimal};
ghost use Rattle.or_text.specs.Sentences.{sentence_text};
ghost use Rattle.or_host.specs.HostState.{HostState};
ghost use Rattle.or_command.specs.Said.{Said, SaidLine, OnlySays};
ghost use Rattle.or_command.specs.Lines.{usage_lines, schedule_line, no_failure_line, same_file_line, tries_line};
ghost use Rattle.or_command.specs.Ends.{end_of, status_of, line_of, second_line_of, lines_of, failed_check};
ghost use Rattle.or_command.specs.Sentences.{write_sentence};

use crate::saying::{then_detail, then_number, then_say, then_sentence};
use crate::{Outcome, Refusal, ScheduleDetail};
use or_host::{Failed, Host};
use or_text::{Part, Sentence};

/// Says the line of a command's end and its sentence, and answers its status. Where a call of `say` fails, the rest of the two
/// lines is not said; the status stays.
pub fn conclude<H: Host>(host: &mut H, outcome: Outcome<'_>) -> u8
    ensures status { result ≡ status_of (end_of outcome.entry) }
    ensures line { SaidLine (lines_of (end_of outcome.entry)) (H.state host.old) (H.state host.new) }
    ensures only { OnlySays (H.state host.old) (H.state host.new) }
{
    let _ = say_outcome(host, outcome);
    outcome_status(outcome)
}

/// Says that the words are no command, and why. Where a call of `say` fails, the rest is not said.
pub fn say_usage<H: Host>(host: &mut H, why: &Sentence<'_>)
    ensures line { SaidLine (usage_lines (sentence_text why.now)) (H.state host.old) (H.state host.new) }
    ensures only { OnlySays (H.state host.old) (H.state host.new) }
{
    let so_far = then_say(host, Ok(()), b"or1k: usage\n");
    let _ = then_sentence(host, so_far, why);
}

/// Says how many tries of a hunt were made without a failure. A fault of `say` changes nothing.
pub fn say_tries<H: Host>(host: &mut H, tries: u32)
    ensures line { SaidLine (tries_line tries) (H.state host.old) (H.state host.new) }
    ensures only { OnlySays (H.state host.old) (H.state host.new) }
{
    let so_far = then_say(host, Ok(()), b"or1k: ");
    let so_far = then_number(host, so_far, tries as u64);
    let _ = then_say(host, so_far, b" tries, no failure\n");
}

// The status of an outcome.
fn outcome_status(outcome: Outcome<'_>) -> u8
    ensures { result ≡ status_of (end_of outcome.entry) }
{
    match outcome {
        Outcome::Done => 0,
        Outcome::Unread(_) => 5,
        Outcome::TooLong(_, _) => 8,
        Outcome::Refused(refusal) => refusal_status(refusal),
        Outcome::Unwritten(_) => 6,
        Outcome::NoMemory => 7,
    }
}

// The status of a refusal.
fn refusal_status(refusal: Refusal<'_>) -> u8
    ensures { result ≡ (failed_check refusal.entry).status }
{
    match refusal {
        Refusal::Image { .. } => 3,
        Refusal::Source { .. } => 9,
        Refusal::Schedule { .. } => 4,
        Refusal::Script { .. } => 10,
        Refusal::Symbols { .. } => 12,
        Refusal::NoFailure { .. } => 14,
        Refusal::SameFile { .. } => 16,
    }
}

// Says the lines of an outcome.
fn say_outcome<H: Host>(host: &mut H, outcome: Outcome<'_>) -> Result<(), Failed>
    ensures { Said result (lines_of (end_of outcome.entry)) (H.state host.old) (H.state host.new) }
{
    let so_far = say_line(host, outcome);
    then_second(host, so_far, outcome)
}

// Says the second line of an outcome.
fn then_second<H: Host>(
    host: &mut H,
    so_far: Result<(), Failed>,
    outcome: Outcome<'_>,
) -> Result<(), Failed>
    ensures { (start : HostState) (line : List ℕ) → Said so_far line start (H.state host.old)
        → Said result (line ++ second_line_of (end_of outcome.entry)) start (H.state host.new) }
{
    match outcome {
        Outcome::Done => so_far,
        Outcome::Unread(_) => then_sentence(
            host,
            so_far,
            &Sentence::plain("the file is not there, or the system failed to read it"),
        ),
        Outcome::TooLong(_, limit) => then_sentence(
            host,
            so_far,
            &Sentence::one(
                "the file has more than ",
                Part::Number(limit as u64),
                " bytes",
            ),
        ),
        Outcome::Refused(refusal) => then_sentence(host, so_far, &refusal.sentence()),
        Outcome::Unwritten(name) => then_sentence(host, so_far, &unwritten(name)),
        Outcome::NoMemory => then_sentence(
            host,
            so_far,
            &Sentence::plain("the system gave no more memory"),
        ),
    }
}

// What an output that was not written says to people.
fn unwritten(name: &str) -> Sentence<'static>
    ensures { sentence_text result ≡ write_sentence name.now }
{
    if name == "-" {
        return Sentence::plain(
            "the system took no more of standard output: is it closed, or the disk full?",
        );
    }
    Sentence::plain(
        "the system failed to create or write the file: is its directory there, and is the disk full?",
    )
}

// Says the line of an outcome.
fn say_line<H: Host>(host: &mut H, outcome: Outcome<'_>) -> Result<(), Failed>
    ensures { Said result (line_of (end_of outcome.entry)) (H.state host.old) (H.state host.new) }
{
    match outcome {
        Outcome::Done => Ok(()),
        Outcome::Unread(name) => say_name(host, b"or1k: read ", name),
        Outcome::TooLong(name, limit) => say_long(host, name, limit as u64),
        Outcome::Refused(refusal) => say_refusal(host, refusal),
        Outcome::Unwritten(name) => say_name(host, b"or1k: write ", name),
        Outcome::NoMemory => then_say(host, Ok(()), b"or1k: no memory\n"),
    }
}

// Says the line of a refusal.
fn say_refusal<H: Host>(host: &mut H, refusal: Refusal<'_>) -> Result<(), Failed>
    ensures { Said result ((failed_check refusal.entry).line) (H.state host.old) (H.state host.new) }
{
    match refusal {
        Refusal::Image {
            name,
            fault,
            place,
            ..
        } => { say_fault(host, b"or1k: image ", name, fault, b" ", place) }
        Refusal::Source {
            name,
            fault,
            line,
            ..
        } => { say_fault(host, b"or1k: source ", name, fault, b" line ", line) }
        Refusal::Schedule { name, detail } => say_schedule(host, name, detail),
        Refusal::Script {
            name,
            fault,
            line,
            ..
        } => { say_fault(host, b"or1k: script ", name, fault, b" line ", line) }
        Refusal::Symbols {
            name,
            fault,
            place,
            ..
        } => { say_fault(host, b"or1k: symbols ", name, fault, b" ", place) }
        Refusal::NoFailure { tries } => say_no_failure(host, tries),
        Refusal::SameFile { one, other } => say_same_file(host, one, other),
    }
}

// Says a line of a word and a name.
fn say_name<H: Host>(host: &mut H, word: &[u8], name: &str) -> Result<(), Failed>
    ensures { Said result (word.now ++ name.now ++ codes "\n") (H.state host.old) (H.state host.new) }
{
    let so_far = then_say(host, Ok(()), word);
    let so_far = then_say(host, so_far, name.as_bytes());
    then_say(host, so_far, b"\n")
}

// Says that a file is too long.
fn say_long<H: Host>(host: &mut H, name: &str, limit: u64) -> Result<(), Failed>
    ensures { Said result (codes "or1k: too long " ++ name.now ++ codes " " ++ decimal limit ++ codes "\n") (H.state host.old) (H.state host.new) }
{
    let so_far = then_say(host, Ok(()), b"or1k: too long ");
    let so_far = then_say(host, so_far, name.as_bytes());
    let so_far = then_say(host, so_far, b" ");
    let so_far = then_number(host, so_far, limit);
    then_say(host, so_far, b"\n")
}

// Says a line of a word, a name, a fault's number, and where it is.
fn say_fault<H: Host>(
    host: &mut H,
    word: &[u8],
    name: &str,
    fault: u32,
    before: &[u8],
    place: u64,
) -> Result<(), Failed>
    ensures { Said result (word.now ++ name.now ++ codes " fault " ++ decimal fault ++ before.now ++ decimal place ++ codes "\n") (H.state host.old) (H.state host.new) }
{
    let so_far = then_say(host, Ok(()), word);
    let so_far = then_say(host, so_far, name.as_bytes());
    let so_far = then_say(host, so_far, b" fault ");
    let so_far = then_number(host, so_far, fault as u64);
    let so_far = then_say(host, so_far, before);
    let so_far = then_number(host, so_far, place);
    then_say(host, so_far, b"\n")
}

// Says that no try of a hunt failed.
fn say_no_failure<H: Host>(host: &mut H, tries: u32) -> Result<(), Failed>
    ensures { Said result (no_failure_line tries) (H.state host.old) (H.state host.new) }
{
    let so_far = then_say(host, Ok(()), b"or1k: no failure in ");
    let so_far = then_number(host, so_far, tries as u64);
    then_say(host, so_far, b" tries\n")
}

// Says that two names lead to one file.
fn say_same_file<H: Host>(host: &mut H, one: &str, other: &str) -> Result<(), Failed>
    ensures { Said result (same_file_line one.now other.now) (H.state host.old) (H.state host.new) }
{
    let so_far = then_say(host, Ok(()), b"or1k: same file ");
    let so_far = then_say(host, so_far, one.as_bytes());
    let so_far = then_say(host, so_far, b" ");
    let so_far = then_say(host, so_far, other.as_bytes());
    then_say(host, so_far, b"\n")
}

// Says why a recording is refused.
fn say_schedule<H: Host>(host: &mut H, name: &str, detail: ScheduleDetail) -> Result<(), Failed>
    ensures { Said result (schedule_line name.now detail) (H.state host.old) (H.state host.new) }
{
    let so_far = then_say(host, Ok(()), b"or1k: schedule ");
    let so_far = then_say(host, so_far, name.as_bytes());
    let so_far = then_say(host, so_far, b" ");
    let so_far = then_detail(host, so_far, detail);
    then_say(host, so_far, b"\n")
}
