// The two passes: the labels and their places, and then the words.
ghost use Rattle.std.specs.Prelude.{◌≡◌, ℕ, ◌+◌, ◌-◌, ◌*◌, ◌<◌, ◌≤◌, ◌^◌, ◌⊎◌, ◌++◌, [], ◌∷◌, Bool, ◌||◌, ◌&&◌, not, nat_le, length, map, take, is_some, Option, Some, None, Result, Ok, OnOk, IfOk, IfErr};
ghost use Rattle.std.specs.List.{list_any};
ghost use Rattle.or_words.specs.declared.limits.TheConstants.{SOURCE_LIMIT};
ghost use Rattle.or_asm_read.specs.declared.fault.Fault.TheVariants as fault;
ghost use Rattle.or_asm_read.specs.Labels.{Labels};
ghost use Rattle.or_asm_read.specs.Cuts.{is_clean, label_of, statement_of};
ghost use Rattle.or_asm_read.specs.Labels.{place_of};
ghost use Rattle.or_asm_read.specs.Statements.{statement_at, HasLowPlace};
ghost use Rattle.or_asm.specs.Lines.{lines_of, labels_from, with_label, puts_word, place_after};
ghost use Rattle.or_asm.specs.Source.{fault_where, lesser_of, fault_in, repeats, lacks_room, overlaps, line_fault, label_count, with_word, carried_out, state_after, source_from, source_of, initial_state, Refuses, state_of};

use crate::fault::{AsmFault, at_line};
use crate::lines::{cut_line, place_after, puts_word};
use crate::pieces::{begin_piece, extend_last, is_covered};
use or_asm_read::at_fault::word_at_fault;
use or_asm_read::cuts::{is_clean, label, statement};
use or_asm_read::fault::{Fault, lesser};
use or_asm_read::labels::LabelTable;
use or_asm_read::statements::{Statement, statement_at};
use or_isa::Piece;
use or_words::limits::{MOST_RAM_BYTES, MOST_SEGMENTS};
use std::alloc::{AllocError, Global};

// Where the lines so far lead.
#[derive(Drop)]
struct Progress {
    place: u32,
    labels_before: usize,
    begins_piece: bool,
    pieces: Vec<Piece>,
}

// The labels with that of a line, if it has one.
fn note_label<'a>(
    labels: LabelTable<'a>,
    line: &'a [u8],
    place: u32,
) -> Result<LabelTable<'a>, AllocError>
    ensures { IfOk result (λ longer. (others : Labels) →
        longer ++ others ≡ labels.entry ++ with_label (label_of line.now) place others) }
{
    match label(line) {
        None => Ok(labels),
        Some(name) => labels.with(name, place),
    }
}

/// The labels of a text, with their places.
pub(crate) fn labels(alloc: Global, text: &[u8]) -> Result<LabelTable<'_>, AllocError>
    requires { length text.now ≤ SOURCE_LIMIT }
    ensures { IfOk result (λ labels. labels ≡ labels_from 0x100 (lines_of text.now)) }
{
    let mut labels = LabelTable::new(alloc);
    let mut place = 0x100;
    let mut rest = text;
    while !rest.is_empty() {
        let (line, others) = cut_line(rest);
        labels = note_label(labels, line, place)?;
        place = place_after(place, line);
        rest = others;
    }
    Ok(labels)
}

// The fault, where it holds.
fn fault_where(holds: bool, fault: Fault) -> Option<Fault>
    ensures { result ≡ fault_where holds fault }
{
    if holds { Some(fault) } else { None }
}

// The lesser of two faults, if there are any.
fn lesser_of(first: Option<Fault>, second: Option<Fault>) -> Option<Fault>
    ensures { result ≡ lesser_of first second }
{
    match (first, second) {
        (None, second) => second,
        (Some(first), None) => Some(first),
        (Some(first), Some(second)) => Some(lesser(first, second)),
    }
}

// The fault of a statement.
fn fault_in(outcome: Result<Statement, Fault>) -> Option<Fault>
    ensures { result ≡ fault_in outcome }
{
    match outcome {
        Ok(_) => None,
        Err(fault) => Some(fault),
    }
}

// Whether one of the first labels, of which there are so many, has the name of a line's label.
fn repeats(labels: &LabelTable, count: usize, line: &[u8]) -> bool
    ensures { result ≡ repeats (take count labels.now) (label_of line.now) }
{
    match label(line) {
        None => false,
        Some(name) => labels.is_among_first(count, name),
    }
}

// Whether the word of a statement has no room.
fn lacks_room(progress: &Progress, statement: &[u8]) -> bool
    ensures { result ≡ lacks_room (state_of progress.now) statement.now }
{
    puts_word(statement)
        && (progress.place >= MOST_RAM_BYTES
            || (progress.begins_piece && progress.pieces.len() >= MOST_SEGMENTS))
}

// Whether the word of a statement stands where an earlier one does.
fn overlaps(progress: &Progress, statement: &[u8]) -> bool
    ensures { result ≡ overlaps (state_of progress.now) statement.now }
{
    puts_word(statement) && is_covered(&progress.pieces, progress.place)
}

// The least of the faults of a line.
#[tactic(auto, unfolding(crate::specs::Source::line_fault))]
fn line_fault(labels: &LabelTable, progress: &Progress, line: &[u8]) -> Option<Fault>
    ensures { result ≡ line_fault labels.now (state_of progress.now) line.now }
{
    let statement = statement(line);
    let outcome = statement_at(labels, progress.place, statement);
    let overlap = fault_where(overlaps(progress, statement), Fault::Overlap);
    let repeated = fault_where(
        repeats(labels, progress.labels_before, line),
        Fault::RepeatedLabel,
    );
    let room = fault_where(lacks_room(progress, statement), Fault::OutOfRange);
    let bad = fault_where(!is_clean(line), Fault::BadLine);
    lesser_of(
        bad,
        lesser_of(
            fault_in(outcome),
            lesser_of(room, lesser_of(repeated, overlap)),
        ),
    )
}

// How many labels a line has.
fn label_count(line: &[u8]) -> usize
    ensures is { result ≡ label_count (label_of line.now) }
    ensures few { result ≤ 1 }
{
    if label(line).is_some() { 1 } else { 0 }
}

// Puts a word at a place.
fn with_word(
    alloc: Global,
    pieces: &mut Vec<Piece>,
    begins_piece: bool,
    place: u32,
    word: u32,
) -> Result<(), AllocError>
    ensures { OnOk result (pieces.new.items ≡ with_word begins_piece place word pieces.old.items) }
{
    if begins_piece {
        begin_piece(alloc, pieces, place, word)
    } else {
        extend_last(pieces, word)
    }
}

// What a statement does.
fn carry_out(
    alloc: Global,
    progress: Progress,
    labels_before: usize,
    outcome: Result<Statement, Fault>,
) -> Result<Progress, AllocError>
    requires room { progress.place < 2 ^ 32 - 4 }
    requires low { HasLowPlace outcome }
    requires few { labels_before ≤ progress.labels_before + 1 }
    ensures near { IfOk result (λ next. (next.place ≤ progress.place + 4) ⊎ (next.place < 2 ^ 28)) }
    ensures count { IfOk result (λ next. next.labels_before ≤ progress.labels_before + 1) }
    ensures is { IfOk result (λ next. state_of next ≡ carried_out (state_of progress) labels_before outcome) }
{
    let Progress {
        place,
        labels_before: before,
        begins_piece,
        mut pieces,
    } = progress;
    match outcome {
        Ok(Statement::Nothing) => Ok(Progress {
            place,
            labels_before,
            begins_piece,
            pieces,
        }),
        Ok(Statement::Place(next)) => Ok(Progress {
            place: next,
            labels_before,
            begins_piece: true,
            pieces,
        }),
        Ok(Statement::Word(word)) => {
            with_word(alloc, &mut pieces, begins_piece, place, word)?;
            Ok(Progress {
                place: place + 4,
                labels_before,
                begins_piece: false,
                pieces,
            })
        }
        Err(_) => Ok(Progress {
            place,
            labels_before: before,
            begins_piece,
            pieces,
        }),
    }
}

// The state after a line without fault.
#[tactic(auto, unfolding(crate::specs::Source::state_after))]
fn next_progress(
    alloc: Global,
    labels: &LabelTable,
    progress: Progress,
    line: &[u8],
) -> Result<Progress, AllocError>
    requires room { progress.place < 2 ^ 32 - 4 }
    requires few { progress.labels_before < 2 ^ 32 }
    ensures near { IfOk result (λ next. (next.place ≤ progress.place + 4) ⊎ (next.place < 2 ^ 28)) }
    ensures count { IfOk result (λ next. next.labels_before ≤ progress.labels_before + 1) }
    ensures is { IfOk result (λ next. state_of next ≡ state_after labels.now (state_of progress) line.now) }
{
    let outcome = statement_at(labels, progress.place, statement(line));
    let labels_before = progress.labels_before + label_count(line);
    carry_out(alloc, progress, labels_before, outcome)
}

// The pieces of a text's lines, whose labels are known, or its first fault.
fn words_of<'a>(
    alloc: Global,
    labels: &LabelTable,
    text: &'a [u8],
) -> Result<Vec<Piece>, AsmFault<'a>>
    requires { length text.now ≤ SOURCE_LIMIT }
    ensures program { IfOk result (λ pieces. source_from labels.now 1 initial_state (lines_of text.now) ≡ Ok pieces.items) }
    ensures refusal { IfErr result (λ answer. Refuses answer (source_from labels.now 1 initial_state (lines_of text.now))) }
{
    let mut progress = Progress {
        place: 0x100,
        labels_before: 0,
        begins_piece: true,
        pieces: Vec::new(alloc),
    };
    let mut number = 1;
    let mut rest = text;
    while !rest.is_empty() {
        let (line, others) = cut_line(rest);
        if let Some(fault) = line_fault(labels, &progress, line) {
            let word = word_at_fault(labels, progress.place, line, fault);
            return Err(at_line(fault, number, word));
        }
        progress = next_progress(alloc, labels, progress, line)?;
        number += 1;
        rest = others;
    }
    Ok(progress.pieces)
}

/// The pieces of a source, or its first fault.
#[tactic(auto, unfolding(crate::specs::Source::source_of))]
pub(crate) fn assembled(alloc: Global, text: &[u8]) -> Result<Vec<Piece>, AsmFault<'_>>
    requires { length text.now ≤ SOURCE_LIMIT }
    ensures program { IfOk result (λ pieces. source_of text.now ≡ Ok pieces.items) }
    ensures refusal { IfErr result (λ answer. Refuses answer (source_of text.now)) }
{
    let labels = labels(alloc, text)?;
    words_of(alloc, &labels, text)
}
