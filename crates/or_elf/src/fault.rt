// Why a file is refused.
ghost use Rattle.std.specs.Prelude.{◌≡◌};
ghost use Rattle.or_elf.specs.Sentences.{ident_words, field_name, field_wanted, ram_remedy};

use or_text::{Part, Sentence};
use or_words::limits::MOST_RAM_BYTES;
use thiserror::Error;

/// The first fault of a file: the test that fails, with its place.
#[derive(Clone, Copy, Debug, PartialEq, Eq, Drop, Error)]
pub enum ElfFault {
    /// The file ends before its header or its program headers do; `at` is its length.
    #[error("the file ends at byte {at}")]
    Short { at: u32 },
    /// The byte at this offset of `e_ident` is not that of a big-endian file of 32 bits.
    #[error("the byte at {at} identifies another kind of file")]
    BadIdent { at: u32 },
    /// The header's field at this offset has a value that is not taken.
    #[error("the header field at {field} is wrong")]
    BadHeader { field: u32, value: u32 },
    /// No program header is of type 1, to be loaded.
    #[error("no segment is to be loaded")]
    NoSegments,
    /// The bytes of the segment are not all in the file: they end at `end`, and it has `size`; `index` is the segment's place
    /// among the program headers, from 0.
    #[error("segment {index} is not within the file")]
    SegmentOutOfFile { index: u32, end: u64, size: u32 },
    /// The memory of the segment is not all in RAM: it ends at `end`, and RAM at `ram`.
    #[error("segment {index} is not within RAM")]
    SegmentOutOfRam { index: u32, end: u64, ram: u32 },
    /// The segment has more bytes in the file than in memory.
    #[error("segment {index} has more bytes in the file than in memory")]
    FileSizeOverMemSize { index: u32, filesz: u32, memsz: u32 },
}

impl ElfFault {
    ghost use Rattle.or_text.specs.Sentences.{sentence_text};
    ghost use Rattle.or_elf.specs.Fault.{number_of, place_of};
    ghost use Rattle.or_elf.specs.Sentences.{elf_sentence};

    /// The number of the test that failed, 1 to 7 in the order of the variants.
    pub fn number(&self) -> u32
        ensures { result ≡ number_of self.now }
    {
        match self {
            ElfFault::Short { .. } => 1,
            ElfFault::BadIdent { .. } => 2,
            ElfFault::BadHeader { .. } => 3,
            ElfFault::NoSegments => 4,
            ElfFault::SegmentOutOfFile { .. } => 5,
            ElfFault::SegmentOutOfRam { .. } => 6,
            ElfFault::FileSizeOverMemSize { .. } => 7,
        }
    }

    /// The fault's offset in the file or index among the program headers; 0 where no segment is to be loaded.
    pub fn place(&self) -> u32
        ensures { result ≡ place_of self.now }
    {
        match self {
            ElfFault::Short { at } | ElfFault::BadIdent { at } => *at,
            ElfFault::BadHeader { field, .. } => *field,
            ElfFault::NoSegments => 0,
            ElfFault::SegmentOutOfFile { index, .. }
            | ElfFault::SegmentOutOfRam { index, .. }
            | ElfFault::FileSizeOverMemSize { index, .. } => *index,
        }
    }

    /// What the fault says to people.
    pub fn sentence(&self) -> Sentence<'static>
        ensures { sentence_text result ≡ elf_sentence self.now }
    {
        match self {
            ElfFault::Short { at } => Sentence::one(
                "the file ends at byte ",
                Part::Number(u64::from(*at)),
                ", within its headers",
            ),
            ElfFault::BadIdent { at } => Sentence::plain(ident_words(*at)),
            ElfFault::BadHeader { field, value } => Sentence::two(
                "",
                Part::Text(field_name(*field)),
                " is ",
                Part::Number(u64::from(*value)),
                field_wanted(*field),
            ),
            ElfFault::NoSegments => Sentence::plain(
                "no program header is of type 1: nothing is to be loaded",
            ),
            ElfFault::SegmentOutOfFile { index, end, size } => Sentence::three(
                "segment ",
                Part::Number(u64::from(*index)),
                " ends at byte ",
                Part::Number(*end),
                ", the file at byte ",
                Part::Number(u64::from(*size)),
                ": is it cut off?",
            ),
            ElfFault::SegmentOutOfRam { index, end, ram } => Sentence::three(
                "segment ",
                Part::Number(u64::from(*index)),
                " ends at ",
                Part::Address(*end),
                ", RAM ends at ",
                Part::Address(u64::from(*ram)),
                ram_remedy(*end),
            ),
            ElfFault::FileSizeOverMemSize {
                index,
                filesz,
                memsz,
            } => Sentence::three(
                "segment ",
                Part::Number(u64::from(*index)),
                " has ",
                Part::Number(u64::from(*filesz)),
                " bytes in the file and ",
                Part::Number(u64::from(*memsz)),
                " in memory",
            ),
        }
    }
}

// What a byte of e_ident that differs tells.
fn ident_words(at: u32) -> &'static str
    ensures { result.now ≡ ident_words at }
{
    match at {
        4 => "the ELF file is not one of 32 bits",
        5 => "the ELF file is not big-endian",
        6 => "the version of the ELF file is not 1",
        _ => "the file is no ELF file",
    }
}

// The name of the header's field at an offset.
fn field_name(field: u32) -> &'static str
    ensures { result.now ≡ field_name field }
{
    match field {
        16 => "e_type",
        18 => "e_machine",
        20 => "e_version",
        40 => "e_ehsize",
        42 => "e_phentsize",
        _ => "e_phnum",
    }
}

// What the field at an offset has to be.
fn field_wanted(field: u32) -> &'static str
    ensures { result.now ≡ field_wanted field }
{
    match field {
        16 => ", not 2: link an executable",
        18 => ", not 92: the file is for another machine than OpenRISC",
        20 => ", not 1",
        40 => ", not 52",
        42 => ", not 32",
        _ => ", over 64",
    }
}

// What helps a segment that ends outside of RAM.
fn ram_remedy(end: u64) -> &'static str
    ensures { result.now ≡ ram_remedy end }
{
    if end <= u64::from(MOST_RAM_BYTES) {
        ": use --ram"
    } else {
        ": link it below 10000000"
    }
}
