// The labels of a source, for the symbol table of its program.
ghost use Rattle.std.specs.Prelude.{◌≡◌, ◌≤◌, ◌<◌, ◌+◌, ◌*◌, ◌^◌, length, map, IfOk, IfSome, IsPermutation, IsSorted};
ghost use Rattle.std.specs.Ordering.{nat_cmp};
ghost use Rattle.or_words.specs.declared.limits.TheConstants.{SOURCE_LIMIT, MOST_PROGRAM_WORDS};
ghost use Rattle.or_elf.specs.LabelText.{names_size};
ghost use Rattle.or_asm.specs.First.{all_labels};
ghost use Rattle.or_asm.specs.Program.{word_count};
ghost use Rattle.or_asm.specs.Symbols.{end_of_piece, end_at, next_among, size_within, size_at, places_of, entry_of, symbols_of};

use crate::passes::labels;
use crate::pieces::piece_covers;
use or_elf::Label;
use or_isa::{Piece, Program};
use std::alloc::{AllocError, Global};

// The places of labels, in rising order.
fn sorted_places(alloc: Global, labels: &[(&[u8], u32)]) -> Result<Vec<u64>, AllocError>
    ensures same { IfOk result (λ places. IsPermutation (map (λ label. label.1) labels.now) places.items) }
    ensures sorted { IfOk result (λ places. IsSorted nat_cmp places.items) }
{
    let mut places = Vec::new(alloc);
    for label in labels {
        places.push(label.1 as u64)?;
    }
    places.sort()?;
    Ok(places)
}

// The least place that is greater than this one, or the end where that is less.
#[tactic(auto, using(crate::proofs::NextPlace::next_found))]
fn next_place(places: &[u64], place: u32, end: u64) -> u64
    requires sorted { IsSorted nat_cmp places.now }
    ensures { result ≡ next_among places.now place end }
{
    let behind = place as u64 + 1;
    match places.binary_search(&behind) {
        Ok(_) => behind.min(end),
        Err(index) if index < places.len() => places[index].min(end),
        Err(_) => end,
    }
}

fn end_of_piece(piece: &Piece) -> u64
    requires words { length piece.now.1 ≤ MOST_PROGRAM_WORDS }
    ensures { result ≡ end_of_piece piece.now }
{
    piece.place as u64 + 4 * piece.words.len() as u64
}

// Where the piece ends that has a word at a place.
#[tactic(auto, using(crate::proofs::NextPlace::piece_words))]
fn end_at(pieces: &[Piece], place: u32) -> Option<u64>
    requires words { word_count pieces.now ≤ MOST_PROGRAM_WORDS }
    ensures end { result ≡ end_at pieces.now place }
    ensures near { IfSome result (λ end. (place < end) × (end ≤ place + 64000000)) }
{
    for piece in pieces {
        if piece_covers(piece, place) {
            return Some(end_of_piece(piece));
        }
    }
    None
}

// How many bytes a label at a place names; the places of all labels rise.
#[tactic(auto, using(crate::proofs::NextPlace::next_within))]
fn size_at(places: &[u64], pieces: &[Piece], place: u32) -> u32
    requires sorted { IsSorted nat_cmp places.now }
    requires words { word_count pieces.now ≤ MOST_PROGRAM_WORDS }
    ensures { result ≡ size_at places.now pieces.now place }
{
    match end_at(pieces, place) {
        Some(end) => (next_place(places, place, end) - place as u64) as u32,
        None => 0,
    }
}

// A label as the symbol table has it; the places of all labels rise.
fn entry<'a>(places: &[u64], pieces: &[Piece], name: &'a [u8], place: u32) -> Label<'a>
    requires sorted { IsSorted nat_cmp places.now }
    requires words { word_count pieces.now ≤ MOST_PROGRAM_WORDS }
    ensures { result ≡ entry_of places.now pieces.now (name.now, place) }
{
    Label {
        name,
        place,
        size: size_at(places, pieces, place),
    }
}

// The labels as the symbol table has them.
#[tactic(auto, using(crate::proofs::SortedEntries::sorted_entries))]
fn entries<'a>(
    alloc: Global,
    labels: &[(&'a [u8], u32)],
    pieces: &[Piece],
) -> Result<Vec<Label<'a>>, AllocError>
    requires words { word_count pieces.now ≤ MOST_PROGRAM_WORDS }
    ensures { IfOk result (λ entries. entries.items ≡ symbols_of (map (λ label. (label.0.now, label.1)) labels.now) pieces.now) }
{
    let places = sorted_places(alloc, labels)?;
    let mut entries = Vec::new(alloc);
    for label in labels {
        entries.push(entry(places.as_slice(), pieces, label.0, label.1))?;
    }
    Ok(entries)
}

/// The labels of a source of at most 4 MiB and what they name in its program, in the order of the source, for the
/// program's symbol table: a label names the bytes up to the next greater label in the piece that has a word at its place,
/// or to the end of that piece, and none where no piece has.
#[tactic(auto, using(crate::proofs::LabelNames::few_bytes))]
pub fn program_symbols<'a>(
    alloc: Global,
    text: &'a [u8],
    program: &Program,
) -> Result<Vec<Label<'a>>, AllocError>
    requires limit { length text.now ≤ SOURCE_LIMIT }
    requires words { word_count program.now ≤ MOST_PROGRAM_WORDS }
    ensures labels { IfOk result (λ labels. labels.items ≡ symbols_of (all_labels text.now) program.now) }
    ensures names { IfOk result (λ labels. names_size labels.items ≤ SOURCE_LIMIT) }
{
    let labels = labels(alloc, text)?;
    entries(alloc, labels.entries(), &program.pieces)
}
