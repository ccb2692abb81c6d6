// Writes the file of a program with its labels.
ghost use Rattle.std.specs.Prelude.{◌≡◌, ◌≤◌, ◌<◌, ◌+◌, ◌*◌, ◌^◌, [], ◌∷◌, ◌++◌, length, map, replicate, OnOk, OnErr, vec_capacity, vec_len};
ghost use Rattle.or_words.specs.declared.limits.TheConstants.{SOURCE_LIMIT, MOST_SEGMENTS, MOST_PROGRAM_WORDS};
ghost use Rattle.or_elf.specs.Text.{word_count};
ghost use Rattle.or_elf.specs.LabelText.{names_size, padding_size, name_text, names_text, strings_text, symbol_text, symbols_text, symbol_table_text, three_sections, section_headers, sections_text, sections_start, strings_start, strings_size, symbol_table_start, symbol_table_size, labelled_text};

use crate::writer::{SectionHeaders, append_halves, append_program, append_words};
use or_isa::{Piece, Program};
use or_words::NoMemory;
use std::alloc::AllocError;
use std::marker::Model;

/// A label of a program, as its symbol table has it.
#[derive(Drop)]
pub struct Label<'a> {
    /// Its name.
    pub name: &'a [u8],
    /// `st_value`: the address that it stands for.
    pub place: u32,
    /// `st_size`: how many bytes it names.
    pub size: u32,
}

impl<'a> Model for Label<'a> {
    ghost use Rattle.or_elf.specs.LabelText.{LabelEntry};

    ghost Value = { LabelEntry };

    ghost view = { λ label. record { name = label.name.now; place = label.place; size = label.size } };
}

/// Writes the ELF file of a program with a symbol for each label (ELF gABI, "Section Header", "String Table" and "Symbol
/// Table"). `out` is empty before, and again after `NoMemory`, which comes only where it lacks the capacity for the whole
/// file.
pub fn write_labelled(
    program: &Program,
    labels: &[Label<'_>],
    out: &mut Vec<u8>,
) -> Result<(), NoMemory>
    requires empty { out.old.items ≡ [] }
    requires pieces { length program.now ≤ MOST_SEGMENTS }
    requires words { word_count program.now ≤ MOST_PROGRAM_WORDS }
    requires names { names_size labels.now ≤ SOURCE_LIMIT }
    ensures text { OnOk result (out.new.items ≡ labelled_text program.now labels.now) }
    ensures no_memory { OnErr result (out.new.items ≡ []) }
    ensures full { OnErr result (vec_capacity out.old < length (labelled_text program.now labels.now)) }
{
    match append_file(&program.pieces, labels, out) {
        Ok(()) => Ok(()),
        Err(_) => {
            out.clear();
            Err(NoMemory)
        }
    }
}

#[tactic(auto, unfolding(crate::specs::LabelText::labelled_text, crate::specs::LabelText::sections_text), using(crate::proofs::LabelSizes::few_labels))]
fn append_file(pieces: &[Piece], labels: &[Label<'_>], out: &mut Vec<u8>) -> Result<(), AllocError>
    requires empty { out.old.items ≡ [] }
    requires pieces { length pieces.now ≤ MOST_SEGMENTS }
    requires words { word_count pieces.now ≤ MOST_PROGRAM_WORDS }
    requires names { names_size labels.now ≤ SOURCE_LIMIT }
    ensures text { OnOk result (out.new.items ≡ labelled_text pieces.now labels.now) }
    ensures full { OnErr result (vec_capacity out.old < length (labelled_text pieces.now labels.now)) }
{
    let table = program_size(pieces);
    let table_size = symbol_table_size(labels);
    let strings = table + table_size;
    let strings_size = strings_size(labels);
    let padding = (4 - strings_size % 4) % 4;
    append_program(
        pieces,
        three_sections(strings + strings_size + padding),
        out,
    )?;
    append_symbol_table(labels, out)?;
    append_strings(labels, out)?;
    out.resize(out.len() + padding as usize, 0)?;
    append_section_headers(table, table_size, strings, strings_size, out)
}

fn three_sections(start: u32) -> SectionHeaders
    ensures { result ≡ three_sections start }
{
    SectionHeaders {
        start,
        entry_size: 40,
        count: 3,
        names: 2,
    }
}

// How long the headers of a program and its words are.
fn program_size(pieces: &[Piece]) -> u32
    requires pieces { length pieces.now ≤ MOST_SEGMENTS }
    requires words { word_count pieces.now ≤ MOST_PROGRAM_WORDS }
    ensures { result ≡ symbol_table_start pieces.now }
{
    let mut rest = pieces;
    let mut size = 52;
    while let Some((piece, others)) = rest.split_first() {
        size += 32 + 4 * piece.words.len() as u32;
        rest = others;
    }
    size
}

#[tactic(auto, using(crate::proofs::LabelSizes::few_labels))]
fn symbol_table_size(labels: &[Label<'_>]) -> u32
    requires names { names_size labels.now ≤ SOURCE_LIMIT }
    ensures { result ≡ symbol_table_size labels.now }
{
    16 * (labels.len() as u32 + 1)
}

#[tactic(auto, using(crate::proofs::LabelSizes::names_from))]
fn strings_size(labels: &[Label<'_>]) -> u32
    requires names { names_size labels.now ≤ SOURCE_LIMIT }
    ensures { result ≡ strings_size labels.now }
{
    let mut size = 17;
    for label in labels {
        size += label.name.len() as u32 + 1;
    }
    size
}

#[tactic(auto, unfolding(crate::specs::LabelText::symbol_table_text))]
fn append_symbol_table(labels: &[Label<'_>], out: &mut Vec<u8>) -> Result<(), AllocError>
    requires names { names_size labels.now ≤ SOURCE_LIMIT }
    ensures text { OnOk result (out.new.items ≡ out.old.items ++ symbol_table_text labels.now) }
    ensures full { OnErr result (vec_capacity out.old < vec_len out.old + length (symbol_table_text labels.now)) }
    ensures capacity { vec_capacity out.old ≤ vec_capacity out.new }
{
    append_words(&[0; 4], out)?;
    append_symbols(labels, out)
}

// The names of the labels stand among the strings behind those of the sections.
#[tactic(auto, using(crate::proofs::LabelSizes::names_from))]
fn append_symbols(labels: &[Label<'_>], out: &mut Vec<u8>) -> Result<(), AllocError>
    requires names { names_size labels.now ≤ SOURCE_LIMIT }
    ensures text { OnOk result (out.new.items ≡ out.old.items ++ symbols_text 17 labels.now) }
    ensures full { OnErr result (vec_capacity out.old < vec_len out.old + length (symbols_text 17 labels.now)) }
    ensures capacity { vec_capacity out.old ≤ vec_capacity out.new }
{
    let mut name = 17;
    for label in labels {
        append_symbol(name, label, out)?;
        name += label.name.len() as u32 + 1;
    }
    Ok(())
}

#[tactic(auto, unfolding(crate::specs::LabelText::symbol_text))]
fn append_symbol(name: u32, label: &Label<'_>, out: &mut Vec<u8>) -> Result<(), AllocError>
    ensures text { OnOk result (out.new.items ≡ out.old.items ++ symbol_text name label.now) }
    ensures full { OnErr result (vec_capacity out.old < vec_len out.old + length (symbol_text name label.now)) }
    ensures capacity { vec_capacity out.old ≤ vec_capacity out.new }
{
    append_words(&[name, label.place, label.size], out)?;
    out.extend_from_slice(&[0x12, 0])?;
    append_halves(&[0xfff1], out)
}

#[tactic(auto, unfolding(crate::specs::LabelText::strings_text))]
fn append_strings(labels: &[Label<'_>], out: &mut Vec<u8>) -> Result<(), AllocError>
    ensures text { OnOk result (out.new.items ≡ out.old.items ++ strings_text labels.now) }
    ensures full { OnErr result (vec_capacity out.old < vec_len out.old + length (strings_text labels.now)) }
    ensures capacity { vec_capacity out.old ≤ vec_capacity out.new }
{
    out.extend_from_slice(b"\0.symtab\0.strtab\0")?;
    append_names(labels, out)
}

fn append_names(labels: &[Label<'_>], out: &mut Vec<u8>) -> Result<(), AllocError>
    ensures text { OnOk result (out.new.items ≡ out.old.items ++ names_text labels.now) }
    ensures full { OnErr result (vec_capacity out.old < vec_len out.old + length (names_text labels.now)) }
    ensures capacity { vec_capacity out.old ≤ vec_capacity out.new }
{
    for label in labels {
        append_name(label, out)?;
    }
    Ok(())
}

fn append_name(label: &Label<'_>, out: &mut Vec<u8>) -> Result<(), AllocError>
    ensures text { OnOk result (out.new.items ≡ out.old.items ++ name_text label.now) }
    ensures full { OnErr result (vec_capacity out.old < vec_len out.old + length (name_text label.now)) }
    ensures capacity { vec_capacity out.old ≤ vec_capacity out.new }
{
    out.extend_from_slice(label.name)?;
    out.push(0)?;
    Ok(())
}

#[tactic(auto, unfolding(crate::specs::LabelText::section_headers))]
fn append_section_headers(
    table: u32,
    table_size: u32,
    strings: u32,
    strings_size: u32,
    out: &mut Vec<u8>,
) -> Result<(), AllocError>
    ensures text { OnOk result (out.new.items ≡ out.old.items ++ section_headers table table_size strings strings_size) }
    ensures full { OnErr result (vec_capacity out.old < vec_len out.old + length (section_headers table table_size strings strings_size)) }
    ensures capacity { vec_capacity out.old ≤ vec_capacity out.new }
{
    append_words(&[0; 10], out)?;
    append_words(&[1, 2, 0, 0, table, table_size, 2, 1, 4, 16], out)?;
    append_words(&[9, 3, 0, 0, strings, strings_size, 0, 0, 1, 0], out)
}
