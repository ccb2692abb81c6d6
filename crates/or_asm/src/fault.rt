// Why a source has no program.
ghost use Rattle.std.specs.Prelude.{◌≡◌, ◌++◌, Some, codes, decimal};
ghost use Rattle.or_asm_read.specs.declared.fault.Fault.TheVariants as fault;
ghost use Rattle.or_text.specs.Sentences.{sentence_text};
ghost use Rattle.or_asm.specs.Source.{source_fault, refusal_of, number_of_answer, line_of_answer};
ghost use Rattle.or_asm.specs.Sentences.{answer_sentence, is_dot, bad_line_words, range_words, name_words, shown};

use crate::shown::shown;
use or_asm_read::cuts::is_allowed;
use or_asm_read::fault::Fault;
use or_text::{Part, Sentence};
use std::alloc::AllocError;
use thiserror::Error;

/// Why a source has no program. Lines count from 1; the word is the one of the line that the fault is about.
#[derive(Clone, Copy, Debug, PartialEq, Eq, Error)]
pub enum AsmFault<'a> {
    /// The line fits no form: an operand is missing (an empty word) or fits none, or the word's first byte is not allowed.
    #[error("line {line}: bad line")]
    BadLine { line: u32, word: &'a [u8] },
    /// The name of the statement is no directive and no instruction.
    #[error("line {line}: unknown name")]
    UnknownName { line: u32, word: &'a [u8] },
    /// A number or target is outside its range, or a word has no room (an empty word).
    #[error("line {line}: out of range")]
    OutOfRange { line: u32, word: &'a [u8] },
    /// No line gives the label.
    #[error("line {line}: unknown label")]
    UnknownLabel { line: u32, word: &'a [u8] },
    /// An earlier line gives the label.
    #[error("line {line}: repeated label")]
    RepeatedLabel { line: u32, word: &'a [u8] },
    /// An earlier line has filled the place of the word that a statement of this name puts.
    #[error("line {line}: overlap")]
    Overlap { line: u32, word: &'a [u8] },
    /// Memory ran out.
    #[error("no memory")]
    NoMemory,
}

impl<'a> AsmFault<'a> {
    /// The number of the fault, 1 to 7 in the order of the variants.
    pub fn number(self) -> u32
        ensures { result ≡ number_of_answer self.entry }
    {
        match self {
            AsmFault::BadLine { .. } => 1,
            AsmFault::UnknownName { .. } => 2,
            AsmFault::OutOfRange { .. } => 3,
            AsmFault::UnknownLabel { .. } => 4,
            AsmFault::RepeatedLabel { .. } => 5,
            AsmFault::Overlap { .. } => 6,
            AsmFault::NoMemory => 7,
        }
    }

    /// The line of the fault, counted from 1, or none for want of memory.
    pub fn line(self) -> Option<u32>
        ensures { result ≡ line_of_answer self.entry }
    {
        match self {
            AsmFault::BadLine { line, .. }
            | AsmFault::UnknownName { line, .. }
            | AsmFault::OutOfRange { line, .. }
            | AsmFault::UnknownLabel { line, .. }
            | AsmFault::RepeatedLabel { line, .. }
            | AsmFault::Overlap { line, .. } => Some(line),
            AsmFault::NoMemory => None,
        }
    }

    /// What the fault says to people: the line, and what is wrong with the word.
    pub fn sentence(self) -> Sentence<'a>
        ensures { sentence_text result ≡ answer_sentence self.entry }
    {
        match self {
            AsmFault::BadLine { line, word } => bad_line(line, word),
            AsmFault::UnknownName { line, word } => unknown_name(line, word),
            AsmFault::OutOfRange { line, word } => out_of_range(line, word),
            AsmFault::UnknownLabel { line, word } => at_word(line, "no label ", word, ""),
            AsmFault::RepeatedLabel { line, word } => {
                at_word(line, "an earlier line has the label ", word, "")
            }
            AsmFault::Overlap { line, word } => {
                at_word(line, "an earlier line has filled the place of ", word, "")
            }
            AsmFault::NoMemory => no_memory(),
        }
    }
}

// A line, and a word of it between others.
fn at_word<'a>(line: u32, before: &'a str, word: &'a [u8], behind: &'a str) -> Sentence<'a>
    ensures { sentence_text result ≡ codes "line " ++ decimal line ++ codes ": " ++ (before.now ++ shown word.now ++ behind.now) }
{
    Sentence::three(
        "line ",
        Part::Number(u64::from(line)),
        ": ",
        Part::Text(before),
        "",
        Part::Text(shown(word)),
        behind,
    )
}

// A line, and what is wrong with it.
fn at_line_alone(line: u32, words: &str) -> Sentence<'_>
    ensures { sentence_text result ≡ codes "line " ++ decimal line ++ codes ": " ++ words.now }
{
    Sentence::two(
        "line ",
        Part::Number(u64::from(line)),
        ": ",
        Part::Text(words),
        "",
    )
}

// A line, and a number between words.
fn at_number<'a>(line: u32, before: &'a str, number: u64, behind: &'a str) -> Sentence<'a>
    ensures { sentence_text result ≡ codes "line " ++ decimal line ++ codes ": " ++ (before.now ++ decimal number ++ behind.now) }
{
    Sentence::three(
        "line ",
        Part::Number(u64::from(line)),
        ": ",
        Part::Text(before),
        "",
        Part::Number(number),
        behind,
    )
}

fn is_dot(byte: u8) -> bool
    ensures { result ≡ is_dot byte }
{
    byte == b'.'
}

fn unknown_name(line: u32, word: &[u8]) -> Sentence<'_>
    ensures { sentence_text result ≡ codes "line " ++ decimal line ++ codes ": " ++ name_words word.now }
{
    match word {
        [] => at_word(line, "no instruction ", word, ""),
        [first, ..] => {
            if is_dot(*first) {
                at_word(line, "no directive ", word, "")
            } else {
                at_word(line, "no instruction ", word, "")
            }
        }
    }
}

fn no_memory() -> Sentence<'static>
    ensures { sentence_text result ≡ codes "the system gave no more memory" }
{
    Sentence::plain("the system gave no more memory")
}

fn bad_line(line: u32, word: &[u8]) -> Sentence<'_>
    ensures { sentence_text result ≡ codes "line " ++ decimal line ++ codes ": " ++ bad_line_words word.now }
{
    match word {
        [] => at_line_alone(line, "an operand is missing"),
        [first, ..] => {
            if is_allowed(*first) {
                at_word(line, "bad operand ", word, "")
            } else {
                at_number(line, "byte ", u64::from(*first), " is not allowed")
            }
        }
    }
}

fn out_of_range(line: u32, word: &[u8]) -> Sentence<'_>
    ensures { sentence_text result ≡ codes "line " ++ decimal line ++ codes ": " ++ range_words word.now }
{
    if word.is_empty() {
        return at_line_alone(
            line,
            "no room for the word: a program ends at 10000000 and has 64 pieces at most",
        );
    }
    at_word(line, "", word, " is out of range")
}

impl<'a> From<AllocError> for AsmFault<'a> {
    ghost use Rattle.or_asm.specs.declared.fault.AsmFault.TheVariants.{NoMemory};

    ghost from_gives = { λ _ e. e ≡ NoMemory };

    fn from(_error: AllocError) -> Self {
        AsmFault::NoMemory
    }
}

// The fault of a line, with its number and the word that it is about.
pub(crate) fn at_line(fault: Fault, line: u32, word: &[u8]) -> AsmFault<'_>
    ensures { refusal_of result ≡ Some (source_fault fault line word.now) }
{
    match fault {
        Fault::BadLine => AsmFault::BadLine { line, word },
        Fault::UnknownName => AsmFault::UnknownName { line, word },
        Fault::OutOfRange => AsmFault::OutOfRange { line, word },
        Fault::UnknownLabel => AsmFault::UnknownLabel { line, word },
        Fault::RepeatedLabel => AsmFault::RepeatedLabel { line, word },
        Fault::Overlap => AsmFault::Overlap { line, word },
    }
}
