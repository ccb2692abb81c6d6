// Why a file's symbols cannot be read.
use or_text::{Part, Sentence};
use thiserror::Error;

/// The first fault of a file's symbols, or that memory ran out.
#[derive(Clone, Copy, Debug, PartialEq, Eq, Drop, Error)]
pub enum SymFault {
    /// The ELF header's field at this offset gives section headers of another size, or past the file's end.
    #[error("the header field at {field} gives no section headers")]
    BadSections { field: u32 },
    /// The symbol table in the section with this index is not whole, or its names' section is not.
    #[error("section {index} is no symbol table")]
    BadTable { index: u32 },
    /// The name of the function with this index in the symbol table is not whole.
    #[error("symbol {index} has no name")]
    BadName { index: u32 },
    /// Memory ran out.
    #[error("memory ran out")]
    NoMemory,
}

impl SymFault {
    ghost use Rattle.std.specs.Prelude.{◌≡◌};
    ghost use Rattle.or_text.specs.Sentences.{sentence_text};
    ghost use Rattle.or_elf.specs.Symbols.{symbol_number_of, symbol_place_of};
    ghost use Rattle.or_elf.specs.Sentences.{symbol_sentence};

    /// The fault's number, 1 to 4 in the order of the variants.
    pub fn number(&self) -> u32
        ensures { result ≡ symbol_number_of self.now }
    {
        match self {
            SymFault::BadSections { .. } => 1,
            SymFault::BadTable { .. } => 2,
            SymFault::BadName { .. } => 3,
            SymFault::NoMemory => 4,
        }
    }

    /// The fault's field or index; 0 where memory ran out.
    pub fn place(&self) -> u32
        ensures { result ≡ symbol_place_of self.now }
    {
        match self {
            SymFault::BadSections { field } => *field,
            SymFault::BadTable { index } | SymFault::BadName { index } => *index,
            SymFault::NoMemory => 0,
        }
    }

    /// What the fault says to people.
    pub fn sentence(&self) -> Sentence<'static>
        ensures { sentence_text result ≡ symbol_sentence self.now }
    {
        match self {
            SymFault::BadSections { field: 46 } => Sentence::plain("e_shentsize is not 40"),
            SymFault::BadSections { .. } => Sentence::plain(
                "the section headers do not lie within the file",
            ),
            SymFault::BadTable { index } => Sentence::one(
                "the symbol table in section ",
                Part::Number(u64::from(*index)),
                ", or the section of its names, is not whole",
            ),
            SymFault::BadName { index } => Sentence::one(
                "the name of symbol ",
                Part::Number(u64::from(*index)),
                " has no end",
            ),
            SymFault::NoMemory => Sentence::plain("the system gave no more memory"),
        }
    }
}
