//! The report.
ghost use Rattle.std.specs.Prelude.{◌≡◌, Bool, ℕ, ◌≤◌, ◌<◌, ◌+◌, ◌++◌, List, length, OnOk, OnErr, IfOk, vec_capacity, vec_len};
ghost use Rattle.std.specs.BTreeMap.{values};
ghost use Rattle.or_race.specs.Event.{Event};
ghost use Rattle.or_race.specs.Lines.{reported_line, found_lines};
ghost use Rattle.or_race.specs.Records.{Records};
ghost use Rattle.or_elf.specs.Symbols.{SymbolTable};
ghost use Rattle.or_text.specs.Keeps.{Keeps};
ghost use Rattle.or_race.specs.Text.{access_text, pc_text, places_text, line_text, lines_text, head_text, race_report_text, RaceText};

use crate::line::Line;
use crate::races::Races;
use crate::word::Word;
use or_elf::Symbols;
use or_text::{append_decimal, append_word, core_letter};
use or_words::NoMemory;
use std::alloc::AllocError;
use std::collections::BTreeMap;

// Appends the turn and the core of an access.
fn append_access(turn: u64, core: u32, out: &mut Vec<u8>) -> Result<(), AllocError>
    ensures text { OnOk result (out.new.items ≡ out.old.items ++ access_text turn core) }
    ensures full { OnErr result (vec_capacity out.old < vec_len out.old + length (access_text turn core)) }
    ensures capacity { vec_capacity out.old ≤ vec_capacity out.new }
    ensures kept { Keeps out.old.items out.new.items }
{
    out.extend_from_slice(b" ")?;
    append_decimal(turn, out)?;
    out.extend_from_slice(&[b' ', core_letter(core)])
}

// Appends a pc, and the function that it lies in.
fn append_pc(symbols: &Symbols, pc: u32, out: &mut Vec<u8>) -> Result<(), AllocError>
    ensures text { OnOk result (out.new.items ≡ out.old.items ++ pc_text symbols.now pc) }
    ensures full { OnErr result (vec_capacity out.old < vec_len out.old + length (pc_text symbols.now pc)) }
    ensures capacity { vec_capacity out.old ≤ vec_capacity out.new }
    ensures kept { Keeps out.old.items out.new.items }
{
    append_word(pc, out)?;
    symbols.append_place(pc, out)
}

// Appends where the accesses of a line were made, if symbols are given.
#[tactic(auto, unfolding(crate::specs::Text::places_text))]
fn append_places(
    symbols: &Option<Symbols>,
    line: &Line,
    out: &mut Vec<u8>,
) -> Result<(), AllocError>
    ensures text { OnOk result (out.new.items ≡ out.old.items ++ places_text symbols.now line.now) }
    ensures full { OnErr result (vec_capacity out.old < vec_len out.old + length (places_text symbols.now line.now)) }
    ensures capacity { vec_capacity out.old ≤ vec_capacity out.new }
    ensures kept { Keeps out.old.items out.new.items }
{
    let Some(symbols) = symbols else {
        return Ok(());
    };
    symbols.append_object(line.word, out)?;
    out.extend_from_slice(b" at ")?;
    append_pc(symbols, line.first_pc, out)?;
    out.extend_from_slice(b" ")?;
    append_pc(symbols, line.second_pc, out)
}

// Appends a line.
#[tactic(auto, unfolding(crate::specs::Text::line_text))]
fn append_line(symbols: &Option<Symbols>, line: &Line, out: &mut Vec<u8>) -> Result<(), AllocError>
    ensures text { OnOk result (out.new.items ≡ out.old.items ++ line_text symbols.now line.now) }
    ensures full { OnErr result (vec_capacity out.old < vec_len out.old + length (line_text symbols.now line.now)) }
    ensures capacity { vec_capacity out.old ≤ vec_capacity out.new }
    ensures kept { Keeps out.old.items out.new.items }
{
    out.extend_from_slice(b"race ")?;
    append_word(line.word, out)?;
    append_access(line.first_turn, line.first_core, out)?;
    append_access(line.second_turn, line.second_core, out)?;
    append_places(symbols, line, out)?;
    out.extend_from_slice(b"\n")
}

// The line of a word, if its races are reported: with locks, none of a synchronization word.
fn line_of(locks: bool, word: &Word) -> Option<Line>
    ensures { result ≡ reported_line locks word.now }
{
    if locks && word.synchronizes {
        None
    } else {
        word.found
    }
}

// Appends the lines of the words that race, and answers how many they are.
fn append_lines(
    locks: bool,
    symbols: &Option<Symbols>,
    words: &BTreeMap<u32, Word>,
    out: &mut Vec<u8>,
) -> Result<u64, AllocError>
    ensures count { IfOk result (λ count. count ≡ length (found_lines locks (values words.now))) }
    ensures text { OnOk result (out.new.items ≡ out.old.items ++ lines_text symbols.now (found_lines locks (values words.now))) }
    ensures full { OnErr result (vec_capacity out.old < vec_len out.old + length (lines_text symbols.now (found_lines locks (values words.now)))) }
    ensures capacity { vec_capacity out.old ≤ vec_capacity out.new }
    ensures kept { Keeps out.old.items out.new.items }
{
    let _most = words.len();
    let mut count: u64 = 0;
    for word in words.values() {
        if let Some(line) = line_of(locks, word) {
            append_line(symbols, &line, out)?;
            count += 1;
        }
    }
    Ok(count)
}

// Appends the first line.
fn append_head(locks: bool, out: &mut Vec<u8>) -> Result<(), AllocError>
    ensures text { OnOk result (out.new.items ≡ out.old.items ++ head_text locks) }
    ensures full { OnErr result (vec_capacity out.old < vec_len out.old + length (head_text locks)) }
    ensures capacity { vec_capacity out.old ≤ vec_capacity out.new }
    ensures kept { Keeps out.old.items out.new.items }
{
    if locks {
        out.extend_from_slice(b"orrace 1 locks\n")
    } else {
        out.extend_from_slice(b"orrace 1\n")
    }
}

// Appends the report.
fn append_report(
    locks: bool,
    symbols: &Option<Symbols>,
    words: &BTreeMap<u32, Word>,
    out: &mut Vec<u8>,
) -> Result<(), AllocError>
    ensures text { OnOk result (out.new.items ≡ out.old.items ++ race_report_text locks symbols.now (found_lines locks (values words.now))) }
    ensures full { OnErr result (vec_capacity out.old < vec_len out.old + length (race_report_text locks symbols.now (found_lines locks (values words.now)))) }
    ensures capacity { vec_capacity out.old ≤ vec_capacity out.new }
    ensures kept { Keeps out.old.items out.new.items }
{
    append_head(locks, out)?;
    let count = append_lines(locks, symbols, words, out)?;
    out.extend_from_slice(b"races ")?;
    append_decimal(count, out)?;
    out.extend_from_slice(b"\n")
}

impl Races {
    /// Appends the report on the accesses. Where symbols are given, each line tells where its two accesses were made. Errors:
    /// NoMemory, only where `out` lacks capacity for the report, and then its bytes are as before.
    pub fn write(&self, symbols: &Option<Symbols>, out: &mut Vec<u8>) -> Result<(), NoMemory>
        ensures ok { OnOk result ((locks : Bool) (events : List Event) → Records locks self.now events → (text : List ℕ) × RaceText locks symbols.now events text × (out.new.items ≡ out.old.items ++ text)) }
        ensures err { OnErr result (out.new.items ≡ out.old.items) }
        ensures full { OnErr result ((locks : Bool) (events : List Event) → Records locks self.now events → (text : List ℕ) × RaceText locks symbols.now events text × (vec_capacity out.old < vec_len out.old + length text)) }
    {
        let _words = self.words.len();
        let before = out.len();
        match append_report(self.locks, symbols, &self.words, out) {
            Ok(()) => Ok(()),
            Err(_) => {
                out.truncate(before);
                Err(NoMemory)
            }
        }
    }
}
