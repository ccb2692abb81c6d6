// Why a command refuses what it loaded.
ghost use Rattle.std.specs.Prelude.{◌≡◌, ◌++◌, codes, decimal};
ghost use Rattle.or_text.specs.Sentences.{sentence_text};
ghost use Rattle.or_command.specs.Sentences.{head_sentence};

use or_text::{Part, Sentence};

/// Two digests that differ: the one in the recording, and the one that was found.
#[derive(Clone, Copy)]
pub struct Digests {
    pub recorded: [u8; 32],
    pub found: [u8; 32],
}

/// Why a recording is refused. Where two values stand, `recorded` is the one in the recording, and `found` the one that was found.
#[derive(Clone, Copy)]
pub enum ScheduleDetail {
    /// A line of the head, from 1, is not of the form.
    Head {
        line: u32,
    },
    /// The byte at this place, from 0, can't stand there.
    At {
        place: u64,
    },
    /// The recording ends too early.
    Short,
    /// The digest of the image differs.
    Image(Digests),
    /// The digest of the input differs.
    Input(Digests),
    /// A turn, from 0, names a core that has stopped.
    TurnStopped {
        turn: u64,
    },
    /// A core has not stopped at the end.
    CoreRunning {
        core: u32,
    },
    /// After so many turns the number of writes differs.
    TurnWrites {
        turn: u64,
        recorded: u64,
        found: u64,
    },
    /// After so many turns the number of console bytes differs.
    TurnConsole {
        turn: u64,
        recorded: u64,
        found: u64,
    },
}

impl ScheduleDetail {
    ghost use Rattle.std.specs.Prelude.{◌≡◌};
    ghost use Rattle.or_text.specs.Sentences.{sentence_text};
    ghost use Rattle.or_command.specs.Sentences.{detail_sentence};

    /// What the refusal says to people.
    pub fn sentence(&self) -> Sentence<'static>
        ensures { sentence_text result ≡ detail_sentence self.now }
    {
        match self {
            ScheduleDetail::Head { line } => Sentence::plain(head_words(*line)),
            ScheduleDetail::At { place } => Sentence::one(
                "unexpected byte at offset ",
                Part::Number(*place),
                "",
            ),
            ScheduleDetail::Short => Sentence::plain(
                "the recording ends too early: is it cut off?",
            ),
            ScheduleDetail::Image(_) => Sentence::plain("recorded from another image"),
            ScheduleDetail::Input(_) => Sentence::plain("recorded from another input"),
            ScheduleDetail::TurnStopped { turn } => Sentence::one(
                "the core of turn ",
                Part::Number(*turn),
                ", counted from 0, has stopped before it",
            ),
            ScheduleDetail::CoreRunning { core } => Sentence::one(
                "core ",
                Part::Number(u64::from(*core)),
                " has not stopped after the last turn: are turns missing?",
            ),
            ScheduleDetail::TurnWrites {
                turn,
                recorded,
                found,
            } => counted(*turn, *recorded, " writes to RAM, the replay ", *found),
            ScheduleDetail::TurnConsole {
                turn,
                recorded,
                found,
            } => counted(*turn, *recorded, " console bytes, the replay ", *found),
        }
    }
}

// What a line of the head that is not of its form does not give.
fn head_words(line: u32) -> &'static str
    ensures { result.now ≡ head_sentence line }
{
    match line {
        1 => "line 1 is not orsched 1 or orsched 2: is the file a recording?",
        2 => "line 2 does not give the numbers of cores, budget and RAM in their form and ranges",
        3 => "line 3 does not give the SHA-256 of the image",
        _ => "line 4 does not give the SHA-256 of the input",
    }
}

// Two counts that differ after so many turns.
fn counted(turn: u64, recorded: u64, what: &'static str, found: u64) -> Sentence<'static>
    ensures { sentence_text result ≡ codes "after " ++ decimal turn ++ codes " turns the recording counts " ++ decimal recorded ++ what.now ++ decimal found }
{
    Sentence::three(
        "after ",
        Part::Number(turn),
        " turns the recording counts ",
        Part::Number(recorded),
        what,
        Part::Number(found),
        "",
    )
}

/// The check that failed, with the name of the file that it failed on and, where its fault has a sentence, that.
#[derive(Clone, Copy)]
pub enum Refusal<'a> {
    /// The image has this fault, at this place, field or index: status 3.
    Image {
        name: &'a str,
        fault: u32,
        place: u64,
        why: Sentence<'a>,
    },
    /// The source has this fault in this line, from 1: status 9.
    Source {
        name: &'a str,
        fault: u32,
        line: u64,
        why: Sentence<'a>,
    },
    /// The recording is refused: status 4.
    Schedule {
        name: &'a str,
        detail: ScheduleDetail,
    },
    /// The script has this fault in this line, from 1: status 10.
    Script {
        name: &'a str,
        fault: u32,
        line: u64,
        why: Sentence<'a>,
    },
    /// The symbols have this fault, at this field or index: status 12.
    Symbols {
        name: &'a str,
        fault: u32,
        place: u64,
        why: Sentence<'a>,
    },
    /// No core failed in so many tries: status 14.
    NoFailure {
        tries: u32,
    },
    /// Two names of the command lead to one file, and it writes to one of them: status 16.
    SameFile {
        one: &'a str,
        other: &'a str,
    },
}

impl<'a> Refusal<'a> {
    ghost use Rattle.or_command.specs.Ends.{failed_check};

    /// What the refusal says to people.
    pub fn sentence(&self) -> Sentence<'a>
        ensures { sentence_text result ≡ (failed_check self.now).sentence }
    {
        match self {
            Refusal::Image { why, .. } => *why,
            Refusal::Source { why, .. } => *why,
            Refusal::Script { why, .. } => *why,
            Refusal::Symbols { why, .. } => *why,
            Refusal::Schedule { detail, .. } => detail.sentence(),
            Refusal::NoFailure { .. } => {
                Sentence::plain("try other seeds with --seed, or more of them with --tries")
            }
            Refusal::SameFile { .. } => Sentence::plain(
                "the two names lead to one file: give each output a file of its own",
            ),
        }
    }
}
