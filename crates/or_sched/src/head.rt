// The first four lines of a recording.
ghost use Rattle.std.specs.Prelude.{◌≡◌, ◌≤◌, ◌<◌, ◌+◌, ◌*◌, ◌^◌, slice_index, length, IfSome, MatchOption, ℕ, false};
ghost use Rattle.std.specs.Fmt.{digit_glyph};
ghost use Rattle.or_sched.specs.HeadPlaces.{literal_bytes, behind_literal, field_most, HeadStepIs, HeadSound, HeadStepSound, KnownSound, StepLines, line_of, AreDigests, with_byte, behind_line, behind_digest};
ghost use Rattle.or_sched.specs.declared.head.HeadPlace.{HeadPlace};

use crate::recording::Head;
use crate::step::more_digits;
use or_words::Config;
use or_words::limits::{MOST_BUDGET, MOST_CORES, MOST_RAM};

/// What the head said so far.
#[derive(Clone, Copy)]
pub(crate) struct Known {
    pub(crate) version: u8,
    pub(crate) cores: u32,
    pub(crate) budget: u32,
    pub(crate) ram: u32,
    pub(crate) latched: bool,
    pub(crate) image: [u8; 32],
    pub(crate) input: [u8; 32],
}

/// A text before a field, or the form of the PIC.
#[derive(Clone, Copy)]
pub(crate) enum Literal {
    Orsched,
    Cores,
    Budget,
    Ram,
    Latched,
    Image,
    Input,
}

/// A number of the second line.
#[derive(Clone, Copy)]
pub(crate) enum Field {
    Cores,
    Budget,
    Ram,
}

/// The first line, or the second where it names the form of the PIC.
#[derive(Clone, Copy)]
pub(crate) enum TopLine {
    First,
    Second,
}

/// The line of the image's digest, or of the input's.
#[derive(Clone, Copy)]
pub(crate) enum DigestLine {
    Image,
    Input,
}

/// A place in the head.
#[derive(Clone, Copy)]
pub(crate) enum HeadPlace {
    /// Behind so many bytes of a literal.
    Text(Literal, u8),
    Version,
    /// Before the line's line feed.
    LineEnd(TopLine),
    /// In a number, behind its digits.
    Number(Field, Option<u64>),
    /// In a digest, behind the digits of so many bytes, and perhaps a high digit.
    Digits(DigestLine, u8, Option<u8>),
    Behind,
}

/// What a byte makes of it.
#[derive(Clone, Copy)]
pub(crate) enum HeadStep {
    Refused,
    Goes(HeadPlace, Known),
}

impl Known {
    /// What is known before the first byte.
    pub(crate) fn nothing() -> Known
        ensures { AreDigests result }
    {
        Known {
            version: 0,
            cores: 0,
            budget: 0,
            ram: 0,
            latched: false,
            image: [0; 32],
            input: [0; 32],
        }
    }

    /// The head of the recording.
    pub(crate) fn head(&self) -> Head
        ensures { result ≡ record { config = record { cores = self.now.cores; budget = self.now.budget; ram = self.now.ram; latched = self.now.latched }; image = self.now.image; input = self.now.input } }
    {
        Head {
            config: Config {
                cores: self.cores,
                budget: self.budget,
                ram: self.ram,
                latched: self.latched,
            },
            image: self.image,
            input: self.input,
        }
    }
}

/// The line of a place, counted from 1.
pub(crate) fn line(place: HeadPlace) -> u32
    ensures { result ≡ line_of place }
{
    match place {
        HeadPlace::Text(Literal::Orsched, _)
        | HeadPlace::Version
        | HeadPlace::LineEnd(TopLine::First) => 1,
        HeadPlace::Text(Literal::Image, _) | HeadPlace::Digits(DigestLine::Image, _, _) => 3,
        HeadPlace::Text(Literal::Input, _) | HeadPlace::Digits(DigestLine::Input, _, _) => 4,
        HeadPlace::Behind => 5,
        _ => 2,
    }
}

/// What the byte makes of the place.
pub(crate) fn head_step(known: Known, place: HeadPlace, byte: u8) -> HeadStep
    requires sound { HeadSound place }
    requires known { KnownSound known place }
    requires more { place ≡ HeadPlace.Behind → ⊥ }
    ensures step { AreDigests known → HeadStepIs known place byte result }
    ensures sound { HeadStepSound result }
    ensures lines { StepLines place byte result }
{
    match place {
        HeadPlace::Text(literal, seen) => text(known, literal, seen, byte),
        HeadPlace::Version => version(known, byte),
        HeadPlace::LineEnd(line) => line_end(known, line, byte),
        HeadPlace::Number(field, number) => number_step(known, field, number, byte),
        HeadPlace::Digits(line, count, high) => digits(known, line, count, high, byte),
        HeadPlace::Behind => HeadStep::Refused,
    }
}

fn literal_text(literal: Literal) -> &'static [u8]
    ensures { result.now ≡ literal_bytes literal }
{
    match literal {
        Literal::Orsched => b"orsched ",
        Literal::Cores => b"cores ",
        Literal::Budget => b"budget ",
        Literal::Ram => b"ram ",
        Literal::Latched => b"pic latched",
        Literal::Image => b"image ",
        Literal::Input => b"input ",
    }
}

fn text(known: Known, literal: Literal, seen: u8, byte: u8) -> HeadStep
    requires sound { HeadSound (HeadPlace.Text literal seen) }
    requires known { KnownSound known (HeadPlace.Text literal seen) }
    ensures step { AreDigests known → HeadStepIs known (HeadPlace.Text literal seen) byte result }
    ensures sound { HeadStepSound result }
    ensures lines { StepLines (HeadPlace.Text literal seen) byte result }
{
    let bytes = literal_text(literal);
    if byte != bytes[usize::from(seen)] {
        return HeadStep::Refused;
    }
    if usize::from(seen) + 1 < bytes.len() {
        return HeadStep::Goes(HeadPlace::Text(literal, seen + 1), known);
    }
    HeadStep::Goes(behind(literal), known)
}

// Where a literal leads.
fn behind(literal: Literal) -> HeadPlace
    ensures { result ≡ behind_literal literal }
{
    match literal {
        Literal::Orsched => HeadPlace::Version,
        Literal::Cores => HeadPlace::Number(Field::Cores, None),
        Literal::Budget => HeadPlace::Number(Field::Budget, None),
        Literal::Ram => HeadPlace::Number(Field::Ram, None),
        Literal::Latched => HeadPlace::LineEnd(TopLine::Second),
        Literal::Image => HeadPlace::Digits(DigestLine::Image, 0, None),
        Literal::Input => HeadPlace::Digits(DigestLine::Input, 0, None),
    }
}

fn version(known: Known, byte: u8) -> HeadStep
    ensures step { AreDigests known → HeadStepIs known HeadPlace.Version byte result }
    ensures sound { HeadStepSound result }
    ensures lines { StepLines HeadPlace.Version byte result }
{
    if byte == b'1' {
        return HeadStep::Goes(
            HeadPlace::LineEnd(TopLine::First),
            Known {
                version: 1,
                ..known
            },
        );
    }
    if byte == b'2' {
        return HeadStep::Goes(
            HeadPlace::LineEnd(TopLine::First),
            Known {
                version: 2,
                ..known
            },
        );
    }
    HeadStep::Refused
}

fn line_end(known: Known, line: TopLine, byte: u8) -> HeadStep
    requires { KnownSound known (HeadPlace.LineEnd line) }
    ensures step { AreDigests known → HeadStepIs known (HeadPlace.LineEnd line) byte result }
    ensures sound { HeadStepSound result }
    ensures lines { StepLines (HeadPlace.LineEnd line) byte result }
{
    if byte != b'\n' {
        return HeadStep::Refused;
    }
    HeadStep::Goes(behind_line(line), known)
}

fn behind_line(line: TopLine) -> HeadPlace
    ensures { result ≡ behind_line line }
{
    match line {
        TopLine::First => HeadPlace::Text(Literal::Cores, 0),
        TopLine::Second => HeadPlace::Text(Literal::Image, 0),
    }
}

fn most(field: Field) -> u64
    ensures { result ≡ field_most field }
{
    match field {
        Field::Cores => u64::from(MOST_CORES),
        Field::Budget => u64::from(MOST_BUDGET),
        Field::Ram => u64::from(MOST_RAM),
    }
}

fn number_step(known: Known, field: Field, number: Option<u64>, byte: u8) -> HeadStep
    requires sound { HeadSound (HeadPlace.Number field number) }
    requires known { KnownSound known (HeadPlace.Number field number) }
    ensures step { AreDigests known → HeadStepIs known (HeadPlace.Number field number) byte result }
    ensures sound { HeadStepSound result }
    ensures lines { StepLines (HeadPlace.Number field number) byte result }
{
    if byte >= b'0' {
        if byte <= b'9' {
            return match more_digits(number, byte, most(field)) {
                None => HeadStep::Refused,
                Some(next) => {
                    if next == 0 {
                        HeadStep::Refused
                    } else {
                        HeadStep::Goes(HeadPlace::Number(field, Some(next)), known)
                    }
                }
            };
        }
    }
    match number {
        None => HeadStep::Refused,
        Some(n) => end_number(known, field, n, byte),
    }
}

// The byte isn't a digit, and the number fits.
fn end_number(known: Known, field: Field, n: u64, byte: u8) -> HeadStep
    requires low { 1 ≤ n }
    requires high { n ≤ field_most field }
    requires known { KnownSound known (HeadPlace.Number field (Some n)) }
    requires byte { 48 ≤ byte → byte ≤ 57 → ⊥ }
    ensures step { AreDigests known → HeadStepIs known (HeadPlace.Number field (Some n)) byte result }
    ensures sound { HeadStepSound result }
    ensures lines { StepLines (HeadPlace.Number field (Some n)) byte result }
{
    let number = n as u32;
    match field {
        Field::Cores => {
            if byte != b' ' {
                return HeadStep::Refused;
            }
            HeadStep::Goes(
                HeadPlace::Text(Literal::Budget, 0),
                Known {
                    cores: number,
                    ..known
                },
            )
        }
        Field::Budget => {
            if byte != b' ' {
                return HeadStep::Refused;
            }
            HeadStep::Goes(
                HeadPlace::Text(Literal::Ram, 0),
                Known {
                    budget: number,
                    ..known
                },
            )
        }
        Field::Ram => {
            if byte == b'\n' {
                return HeadStep::Goes(
                    HeadPlace::Text(Literal::Image, 0),
                    Known {
                        ram: number,
                        latched: false,
                        ..known
                    },
                );
            }
            if byte != b' ' {
                return HeadStep::Refused;
            }
            if known.version != 2 {
                return HeadStep::Refused;
            }
            HeadStep::Goes(
                HeadPlace::Text(Literal::Latched, 0),
                Known {
                    ram: number,
                    latched: true,
                    ..known
                },
            )
        }
    }
}

fn digits(known: Known, line: DigestLine, count: u8, high: Option<u8>, byte: u8) -> HeadStep
    requires sound { HeadSound (HeadPlace.Digits line count high) }
    requires known { KnownSound known (HeadPlace.Digits line count high) }
    ensures step { AreDigests known → HeadStepIs known (HeadPlace.Digits line count high) byte result }
    ensures sound { HeadStepSound result }
    ensures lines { StepLines (HeadPlace.Digits line count high) byte result }
{
    if count == 32 {
        if byte != b'\n' {
            return HeadStep::Refused;
        }
        return HeadStep::Goes(behind_digest(line), known);
    }
    match hex_value(byte) {
        None => HeadStep::Refused,
        Some(value) => match high {
            None => HeadStep::Goes(HeadPlace::Digits(line, count, Some(value)), known),
            Some(upper) => HeadStep::Goes(
                HeadPlace::Digits(line, count + 1, None),
                with_byte(known, line, count, 16 * upper + value),
            ),
        },
    }
}

fn behind_digest(line: DigestLine) -> HeadPlace
    ensures { result ≡ behind_digest line }
{
    match line {
        DigestLine::Image => HeadPlace::Text(Literal::Input, 0),
        DigestLine::Input => HeadPlace::Behind,
    }
}

// The value of a lower-case hexadecimal digit.
fn hex_value(byte: u8) -> Option<u8>
    ensures { MatchOption result ((value : ℕ) → value < 16 → digit_glyph false value ≡ byte → ⊥) (λ value. (value < 16) × (digit_glyph false value ≡ byte)) }
{
    match byte {
        b'0'..=b'9' => Some(byte - b'0'),
        b'a'..=b'f' => Some(byte - b'a' + 10),
        _ => None,
    }
}

// With the byte at this place of the digest.
fn with_byte(known: Known, line: DigestLine, place: u8, byte: u8) -> Known
    requires { place < 32 }
    ensures { result ≡ with_byte known line place byte }
{
    match line {
        DigestLine::Image => {
            let mut image = known.image;
            image[usize::from(place)] = byte;
            Known { image, ..known }
        }
        DigestLine::Input => {
            let mut input = known.input;
            input[usize::from(place)] = byte;
            Known { input, ..known }
        }
    }
}
