//! Writes the text of an image a line at a time.
ghost use Rattle.std.specs.Prelude.{◌≡◌, ◌≤◌, ◌<◌, ◌+◌, ◌%◌, ◌^◌, ◌++◌, ℕ, [], codes, length, take, drop, OnOk, IfOk, IfSome, MatchOption};
ghost use Rattle.std.specs.List.{All, flat_map};
ghost use Rattle.or_words.specs.declared.limits.TheConstants.{MOST_RAM_BYTES};
ghost use Rattle.or_text.specs.Hexadecimal.{word_text};
ghost use Rattle.or_isa.specs.Decode.{decode_of};
ghost use Rattle.or_elf.specs.Fault.{IsInside};
ghost use Rattle.or_command.specs.Leaves.{Silent};
ghost use Rattle.or_command_source.specs.Listing.{insn_text, word_line, word_lines, bytes_before, segment_lines};
ghost use Rattle.or_command.specs.Pieces.{WritesOut};

use byteorder::{BigEndian, ByteOrder};
use or_asm::print;
use or_command::{PieceStop, write_piece};
use or_elf::Segment;
use or_host::Host;
use or_isa::decode;
use or_text::append_word;
use or_words::NoMemory;
use std::alloc::{AllocError, Global};

// Appends the text of a word.
fn append_insn(place: u32, word: u32, out: &mut Vec<u8>) -> Result<(), NoMemory>
    requires { place % 4 ≡ 0 }
    ensures { OnOk result (out.new.items ≡ out.old.items ++ insn_text place word (decode_of word)) }
{
    match decode(word) {
        Some(insn) => print(&insn, place, out),
        None => {
            out.extend_from_slice(b".word 0x")?;
            append_word(word, out)?;
            Ok(())
        }
    }
}

// Appends an address and a word, each with a blank behind it.
fn append_words(place: u32, word: u32, out: &mut Vec<u8>) -> Result<(), AllocError>
    ensures { OnOk result (out.new.items ≡ out.old.items ++ word_text place ++ codes " " ++ word_text word ++ codes " ") }
{
    append_word(place, out)?;
    out.push(b' ')?;
    append_word(word, out)?;
    out.push(b' ')?;
    Ok(())
}

// The line of a word.
#[tactic(auto, unfolding(crate::specs::Listing::word_line))]
fn line_of(alloc: Global, place: u32, word: u32) -> Result<Vec<u8>, NoMemory>
    requires { place % 4 ≡ 0 }
    ensures { IfOk result (λ line. line.items ≡ word_line place word) }
{
    let mut line = Vec::new(alloc);
    append_words(place, word, &mut line)?;
    append_insn(place, word, &mut line)?;
    line.push(b'\n')?;
    Ok(line)
}

// Writes the line of a word.
fn list_word<H: Host>(alloc: Global, place: u32, word: u32, host: &mut H) -> Result<(), PieceStop>
    requires { place % 4 ≡ 0 }
    ensures lists { WritesOut result (word_line place word) (H.state host.old) (H.state host.new) }
    ensures silent { Silent (H.state host.old) (H.state host.new) }
{
    let Ok(line) = line_of(alloc, place, word) else {
        return Err(PieceStop::NoMemory);
    };
    write_piece(host, &line)
}

// The first word, and the bytes behind it; none of fewer than four bytes.
#[tactic(auto, using(crate::proofs::Words::words))]
fn next_word(bytes: &[u8]) -> Option<(u32, &[u8])>
    ensures lines { (place : ℕ) → MatchOption result (word_lines place bytes.now ≡ [])
        (λ next. word_lines place bytes.now ≡ word_line place next.0 ++ word_lines (place + 4) next.1.now) }
    ensures shorter { IfSome result (λ next. length next.1.now + 4 ≡ length bytes.now) }
{
    if bytes.len() < 4 {
        return None;
    }
    let (word, others) = bytes.split_at(4);
    Some((BigEndian::read_u32(word), others))
}

// Writes the lines of the words that stand in these bytes, the first at this address.
fn list_words<H: Host>(
    alloc: Global,
    first: u32,
    bytes: &[u8],
    host: &mut H,
) -> Result<(), PieceStop>
    requires aligned { first % 4 ≡ 0 }
    requires small { first + length bytes.now < 2 ^ 32 }
    ensures lists { WritesOut result (word_lines first bytes.now) (H.state host.old) (H.state host.new) }
    ensures silent { Silent (H.state host.old) (H.state host.new) }
{
    let mut place = first;
    let mut rest = bytes;
    while let Some((word, others)) = next_word(rest) {
        match list_word(alloc, place, word, host) {
            Ok(()) => {}
            Err(stop) => return Err(stop),
        }
        place += 4;
        rest = others;
    }
    Ok(())
}

// The bytes of a segment in the file.
fn file_bytes<'a>(bytes: &'a [u8], segment: &Segment) -> &'a [u8]
    requires { 0 < segment.now.filesz → segment.now.offset + segment.now.filesz ≤ length bytes.now }
    ensures { result.now ≡ take segment.now.filesz (drop segment.now.offset bytes.now) }
{
    if segment.filesz == 0 {
        return &[];
    }
    let (_, behind) = bytes.split_at(segment.offset as usize);
    behind.split_at(segment.filesz as usize).0
}

// The bytes behind so many.
fn behind(bytes: &[u8], count: usize) -> &[u8]
    ensures { result.now ≡ drop count bytes.now }
{
    if count >= bytes.len() {
        return &[];
    }
    bytes.split_at(count).1
}

// Writes the lines of a segment.
#[tactic(auto, unfolding(crate::specs::Listing::segment_lines))]
fn list_segment<H: Host>(
    alloc: Global,
    bytes: &[u8],
    segment: &Segment,
    host: &mut H,
) -> Result<(), PieceStop>
    requires inside { IsInside (length bytes.now) MOST_RAM_BYTES segment.now }
    ensures lists { WritesOut result (segment_lines bytes.now segment.now) (H.state host.old) (H.state host.new) }
    ensures silent { Silent (H.state host.old) (H.state host.new) }
{
    let skipped = (4 - segment.paddr % 4) % 4;
    let words = behind(file_bytes(bytes, segment), skipped as usize);
    list_words(alloc, segment.paddr + skipped, words, host)
}

/// Writes the lines of segments of an image in order, each line by a call of its own.
///
/// Errors: `Unwritten` where a write failed, `NoMemory` where memory ran out; what is written is then a prefix of the lines.
pub(crate) fn list_segments<H: Host>(
    alloc: Global,
    bytes: &[u8],
    segments: &[Segment],
    host: &mut H,
) -> Result<(), PieceStop>
    requires { All (IsInside (length bytes.now) MOST_RAM_BYTES) segments.now }
    ensures lists { WritesOut result (flat_map (segment_lines bytes.now) segments.now) (H.state host.old) (H.state host.new) }
    ensures silent { Silent (H.state host.old) (H.state host.new) }
{
    let mut rest = segments;
    while let Some((segment, others)) = rest.split_first() {
        match list_segment(alloc, bytes, segment, host) {
            Ok(()) => {}
            Err(stop) => return Err(stop),
        }
        rest = others;
    }
    Ok(())
}
