// Writes the file of a program.
ghost use Rattle.std.specs.Prelude.{◌≡◌, ◌≤◌, ◌<◌, ◌+◌, ◌*◌, ◌^◌, [], ◌++◌, length, OnOk, OnErr, vec_capacity, vec_len};
ghost use Rattle.byteorder.specs.Endian.{big_bytes};
ghost use Rattle.or_words.specs.declared.limits.TheConstants.{MOST_SEGMENTS, MOST_PROGRAM_WORDS};
ghost use Rattle.or_elf.specs.Text.{word_count, words_text, halves_text, ident, no_sections, elf_header, headers_start, program_header, program_headers, pieces_text, program_text, elf_text};

use byteorder::{BigEndian, ByteOrder};
use or_isa::{Piece, Program};
use or_words::NoMemory;
use std::alloc::AllocError;

/// The section headers of a file, as its ELF header has them.
#[derive(Clone, Copy)]
pub(crate) struct SectionHeaders {
    /// `e_shoff`: where they start.
    pub(crate) start: u32,
    /// `e_shentsize`: how many bytes each has.
    pub(crate) entry_size: u16,
    /// `e_shnum`: how many there are.
    pub(crate) count: u16,
    /// `e_shstrndx`: the one of the sections' names.
    pub(crate) names: u16,
}

const NO_SECTIONS: SectionHeaders = SectionHeaders {
    start: 0,
    entry_size: 0,
    count: 0,
    names: 0,
};

/// Writes the ELF file of a program (ELF gABI, "ELF Header" and "Program Header"): an executable for OpenRISC that is
/// entered at 00000100, with a segment for each piece, at the piece's place. `out` is empty before, and again after
/// `NoMemory`, which comes only where it lacks the capacity for the whole file.
pub fn write(program: &Program, out: &mut Vec<u8>) -> Result<(), NoMemory>
    requires empty { out.old.items ≡ [] }
    requires pieces { length program.now ≤ MOST_SEGMENTS }
    requires words { word_count program.now ≤ MOST_PROGRAM_WORDS }
    ensures text { OnOk result (out.new.items ≡ elf_text program.now) }
    ensures no_memory { OnErr result (out.new.items ≡ []) }
    ensures full { OnErr result (vec_capacity out.old < length (elf_text program.now)) }
{
    match append_program(&program.pieces, NO_SECTIONS, out) {
        Ok(()) => Ok(()),
        Err(_) => {
            out.clear();
            Err(NoMemory)
        }
    }
}

/// Appends the headers and the words of a program, in a file with these section headers.
#[tactic(auto, unfolding(crate::specs::Text::program_text))]
pub(crate) fn append_program(
    pieces: &[Piece],
    sections: SectionHeaders,
    out: &mut Vec<u8>,
) -> Result<(), AllocError>
    requires empty { out.old.items ≡ [] }
    requires pieces { length pieces.now ≤ MOST_SEGMENTS }
    requires words { word_count pieces.now ≤ MOST_PROGRAM_WORDS }
    ensures text { OnOk result (out.new.items ≡ program_text sections pieces.now) }
    ensures full { OnErr result (vec_capacity out.old < length (program_text sections pieces.now)) }
    ensures capacity { vec_capacity out.old ≤ vec_capacity out.new }
{
    append_elf_header(pieces.len() as u16, sections, out)?;
    append_program_headers(pieces, 52 + 32 * pieces.len() as u32, out)?;
    append_pieces(pieces, out)
}

#[tactic(auto, unfolding(crate::specs::Text::elf_header))]
fn append_elf_header(
    count: u16,
    sections: SectionHeaders,
    out: &mut Vec<u8>,
) -> Result<(), AllocError>
    ensures text { OnOk result (out.new.items ≡ out.old.items ++ elf_header count sections) }
    ensures full { OnErr result (vec_capacity out.old < vec_len out.old + length (elf_header count sections)) }
    ensures capacity { vec_capacity out.old ≤ vec_capacity out.new }
{
    append_ident(out)?;
    append_halves(&[2, 92], out)?;
    append_words(&[1, 0x100, headers_start(count), sections.start, 0], out)?;
    append_halves(
        &[
            52,
            32,
            count,
            sections.entry_size,
            sections.count,
            sections.names,
        ],
        out,
    )
}

#[tactic(auto, unfolding(crate::specs::Text::ident))]
fn append_ident(out: &mut Vec<u8>) -> Result<(), AllocError>
    ensures text { OnOk result (out.new.items ≡ out.old.items ++ ident) }
    ensures full { OnErr result (vec_capacity out.old < vec_len out.old + length ident) }
    ensures capacity { vec_capacity out.old ≤ vec_capacity out.new }
{
    out.extend_from_slice(&[0x7f, 0x45, 0x4c, 0x46, 1, 2, 1, 0, 0, 0, 0, 0, 0, 0, 0, 0])
}

fn headers_start(count: u16) -> u32
    ensures { result ≡ headers_start count }
{
    if count == 0 { 0 } else { 52 }
}

// A header for each piece; the words of the first stand at the offset.
#[tactic(auto, unfolding(crate::specs::Text::program_headers))]
fn append_program_headers(pieces: &[Piece], start: u32, out: &mut Vec<u8>) -> Result<(), AllocError>
    requires { start + 4 * word_count pieces.now < 2 ^ 32 }
    ensures text { OnOk result (out.new.items ≡ out.old.items ++ program_headers start pieces.now) }
    ensures full { OnErr result (vec_capacity out.old < vec_len out.old + length (program_headers start pieces.now)) }
    ensures capacity { vec_capacity out.old ≤ vec_capacity out.new }
{
    let mut rest = pieces;
    let mut offset = start;
    while let Some((piece, others)) = rest.split_first() {
        let size = size_of_piece(piece);
        append_program_header(offset, piece.place, size, out)?;
        offset += size;
        rest = others;
    }
    Ok(())
}

fn size_of_piece(piece: &Piece) -> u32
    requires { 4 * length piece.now.1 < 2 ^ 32 }
    ensures { result ≡ 4 * length piece.now.1 }
{
    4 * piece.words.len() as u32
}

#[tactic(auto, unfolding(crate::specs::Text::program_header))]
fn append_program_header(
    offset: u32,
    place: u32,
    size: u32,
    out: &mut Vec<u8>,
) -> Result<(), AllocError>
    ensures text { OnOk result (out.new.items ≡ out.old.items ++ program_header offset place size) }
    ensures full { OnErr result (vec_capacity out.old < vec_len out.old + length (program_header offset place size)) }
    ensures capacity { vec_capacity out.old ≤ vec_capacity out.new }
{
    append_words(&[1, offset, place, place, size, size, 7, 4], out)
}

#[tactic(auto, unfolding(crate::specs::Text::pieces_text))]
fn append_pieces(pieces: &[Piece], out: &mut Vec<u8>) -> Result<(), AllocError>
    ensures text { OnOk result (out.new.items ≡ out.old.items ++ pieces_text pieces.now) }
    ensures full { OnErr result (vec_capacity out.old < vec_len out.old + length (pieces_text pieces.now)) }
    ensures capacity { vec_capacity out.old ≤ vec_capacity out.new }
{
    let mut rest = pieces;
    while let Some((piece, others)) = rest.split_first() {
        append_words(&piece.words, out)?;
        rest = others;
    }
    Ok(())
}

#[tactic(auto, unfolding(crate::specs::Text::words_text))]
pub(crate) fn append_words(words: &[u32], out: &mut Vec<u8>) -> Result<(), AllocError>
    ensures text { OnOk result (out.new.items ≡ out.old.items ++ words_text words.now) }
    ensures full { OnErr result (vec_capacity out.old < vec_len out.old + length (words_text words.now)) }
    ensures capacity { vec_capacity out.old ≤ vec_capacity out.new }
{
    let mut rest = words;
    while let Some((word, others)) = rest.split_first() {
        append_word(*word, out)?;
        rest = others;
    }
    Ok(())
}

#[tactic(auto, unfolding(crate::specs::Text::halves_text))]
pub(crate) fn append_halves(halves: &[u16], out: &mut Vec<u8>) -> Result<(), AllocError>
    ensures text { OnOk result (out.new.items ≡ out.old.items ++ halves_text halves.now) }
    ensures full { OnErr result (vec_capacity out.old < vec_len out.old + length (halves_text halves.now)) }
    ensures capacity { vec_capacity out.old ≤ vec_capacity out.new }
{
    let mut rest = halves;
    while let Some((half, others)) = rest.split_first() {
        append_half(*half, out)?;
        rest = others;
    }
    Ok(())
}

fn append_half(half: u16, out: &mut Vec<u8>) -> Result<(), AllocError>
    ensures text { OnOk result (out.new.items ≡ out.old.items ++ big_bytes 2 half) }
    ensures full { OnErr result (vec_capacity out.old < vec_len out.old + length (big_bytes 2 half)) }
    ensures capacity { vec_capacity out.old ≤ vec_capacity out.new }
{
    let mut bytes = [0; 2];
    BigEndian::write_u16(&mut bytes, half);
    out.extend_from_slice(&bytes)
}

fn append_word(word: u32, out: &mut Vec<u8>) -> Result<(), AllocError>
    ensures text { OnOk result (out.new.items ≡ out.old.items ++ big_bytes 4 word) }
    ensures full { OnErr result (vec_capacity out.old < vec_len out.old + length (big_bytes 4 word)) }
    ensures capacity { vec_capacity out.old ≤ vec_capacity out.new }
{
    let mut bytes = [0; 4];
    BigEndian::write_u32(&mut bytes, word);
    out.extend_from_slice(&bytes)
}
