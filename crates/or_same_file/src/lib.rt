//! No output overwrites an input or another output: which names of a command lead to one file.
#![tactic(auto)]

ghost use Rattle.std.specs.Prelude.{◌≡◌, ◌∷◌, [], MatchOption, map};
ghost use Rattle.or_host.specs.Pairs.{IsTold};
ghost use Rattle.or_command_line.specs.Command.{CommandModel, shown_command};
ghost use Rattle.or_same_file.specs.Pairs.{pair_of, pairs_of, pairs_behind, reads, writes, told, AreApart, IsFirst, EndsSame};

use or_command::{Outcome, Refusal, conclude};
use or_command_line::{Command, Recorded};
use or_host::Host;

/// Two names of a command, in the order of its words.
#[derive(Clone, Copy)]
pub struct Pair<'a> {
    pub one: &'a str,
    pub other: &'a str,
}

/// The first two names of a command that lead to one file, of which it writes one at least: its first written name of which there
/// are two such, with the first of them. `None` if no two do. `-` is no name.
pub fn find_same<'a, H: Host>(command: &Command<'a>, host: &H) -> Option<Pair<'a>>
    ensures { MatchOption result (AreApart (H.state host.now) (pairs_of (shown_command command.now)))
        (λ pair. IsFirst (H.state host.now) (pair_of pair) (pairs_of (shown_command command.now))) }
{
    match *command {
        Command::Run(run) => of_run(host, run.image, run.input, run.schedule, run.report),
        Command::Hunt(hunt) => of_run(host, hunt.image, hunt.input, hunt.schedule, hunt.report),
        Command::Replay { files, report } => of_replay(host, &files, report),
        Command::Asm { source, image, .. } => first_same(host, &[both(source, image)]),
        _ => None,
    }
}

/// Ends a command two of whose names lead to one file: says so, and answers the status.
pub fn refuse_same<H: Host>(host: &mut H, pair: &Pair<'_>) -> u8
    ensures status { result ≡ 16 }
    ensures ends { (command : CommandModel) → IsFirst (H.state host.old) (pair_of pair.now) (pairs_of command) → EndsSame command result (H.state host.old) (H.state host.new) }
{
    conclude(
        host,
        Outcome::Refused(Refusal::SameFile {
            one: pair.one,
            other: pair.other,
        }),
    )
}

fn both<'a>(one: &'a str, other: &'a str) -> Pair<'a>
    ensures one { result.one.now ≡ one.now }
    ensures other { result.other.now ≡ other.now }
{
    Pair { one, other }
}

// A run writes its schedule and its report.
fn of_run<'a, H: Host>(
    host: &H,
    image: &'a str,
    input: &'a str,
    schedule: &'a str,
    report: &'a str,
) -> Option<Pair<'a>>
    ensures { MatchOption result (AreApart (H.state host.now) (pairs_behind [] (reads image.now ∷ reads input.now ∷ writes schedule.now ∷ writes report.now ∷ [])))
        (λ pair. IsFirst (H.state host.now) (pair_of pair) (pairs_behind [] (reads image.now ∷ reads input.now ∷ writes schedule.now ∷ writes report.now ∷ []))) }
{
    first_same(
        host,
        &[
            both(image, schedule),
            both(input, schedule),
            both(schedule, report),
            both(image, report),
            both(input, report),
        ],
    )
}

// A replay writes its report.
fn of_replay<'a, H: Host>(host: &H, files: &Recorded<'a>, report: &'a str) -> Option<Pair<'a>>
    ensures { MatchOption result (AreApart (H.state host.now) (pairs_behind [] (reads files.now.image.now ∷ reads files.now.input.now ∷ reads files.now.schedule.now ∷ writes report.now ∷ [])))
        (λ pair. IsFirst (H.state host.now) (pair_of pair) (pairs_behind [] (reads files.now.image.now ∷ reads files.now.input.now ∷ reads files.now.schedule.now ∷ writes report.now ∷ []))) }
{
    first_same(
        host,
        &[
            both(files.image, report),
            both(files.input, report),
            both(files.schedule, report),
        ],
    )
}

// The first of these pairs whose names lead to one file.
fn first_same<'a, H: Host>(host: &H, pairs: &[Pair<'a>]) -> Option<Pair<'a>>
    ensures { MatchOption result (AreApart (H.state host.now) (map pair_of pairs.now))
        (λ pair. IsFirst (H.state host.now) (pair_of pair) (map pair_of pairs.now)) }
{
    let (first, others) = pairs.split_first()?;
    if is_same(host, first) {
        return Some(*first);
    }
    first_same(host, others)
}

fn is_same<H: Host>(host: &H, pair: &Pair<'_>) -> bool
    ensures { IsTold result (told (H.state host.now) (pair_of pair.now)) }
{
    pair.one != "-" && pair.other != "-" && host.same(pair.one, pair.other)
}
