// The section headers of a file, and its symbol table.
ghost use Rattle.std.specs.Prelude.{◌≡◌, ◌≤◌, ◌<◌, ◌+◌, ◌*◌, ◌/◌, ◌==◌, Some, None, length, MatchResult, IfSome, take, drop, ◌^◌};
ghost use Rattle.or_words.specs.declared.limits.TheConstants.{IMAGE_LIMIT};
ghost use Rattle.or_elf.specs.Header.{half_at, word_at};
ghost use Rattle.or_elf.specs.Symbols.{sections_start, section_count, section_start, section_at, has_sections, symbol_table, linked, names_of, sections_fault, symbol_table_fault, ends_within, HasSections, HasTable};

use crate::SymFault;
use crate::fields::{half, word};

/// A section header: the section's type, its bytes in the file, and the section that it refers to.
#[derive(Clone, Copy)]
pub struct Section {
    pub kind: u32,
    pub offset: u32,
    pub size: u32,
    pub link: u32,
}

pub fn has_sections(bytes: &[u8]) -> bool
    requires { 52 ≤ length bytes.now }
    ensures { result ≡ has_sections bytes.now }
{
    word(bytes, 32) != 0 && half(bytes, 48) != 0
}

pub fn check_sections(bytes: &[u8]) -> Result<(), SymFault>
    requires long { 52 ≤ length bytes.now }
    requires short { length bytes.now ≤ IMAGE_LIMIT }
    ensures { MatchResult result
        (λ _. (sections_fault bytes.now ≡ None) × HasSections bytes.now)
        (λ fault. sections_fault bytes.now ≡ Some fault) }
{
    if half(bytes, 46) != 40 {
        return Err(SymFault::BadSections { field: 46 });
    }
    if word(bytes, 32) as usize + 40 * usize::from(half(bytes, 48)) > bytes.len() {
        return Err(SymFault::BadSections { field: 32 });
    }
    Ok(())
}

pub fn section_at(bytes: &[u8], index: u32) -> Section
    requires sections { HasSections bytes.now }
    requires index { index < section_count bytes.now }
    ensures { result ≡ section_at bytes.now index }
{
    let start = word(bytes, 32) as usize + 40 * index as usize;
    Section {
        kind: word(bytes, start + 4),
        offset: word(bytes, start + 16),
        size: word(bytes, start + 20),
        link: word(bytes, start + 24),
    }
}

/// The index of the first symbol table among the sections.
pub fn symbol_table(bytes: &[u8]) -> Option<u32>
    requires { HasSections bytes.now }
    ensures first { result ≡ symbol_table bytes.now }
    ensures inside { IfSome result (λ index. index < section_count bytes.now) }
{
    let count = u32::from(half(bytes, 48));
    for index in 0..count {
        if section_at(bytes, index).kind == 2 {
            return Some(index);
        }
    }
    None
}

fn ends_within(size: usize, section: &Section) -> bool
    ensures { result ≡ ends_within size section.now }
{
    section.offset as usize + section.size as usize <= size
}

/// The symbol table in this section has whole symbols, and lies in the file with the section of their names.
pub fn check_table(bytes: &[u8], table: u32) -> Result<(), SymFault>
    requires sections { HasSections bytes.now }
    requires index { table < section_count bytes.now }
    ensures { MatchResult result (λ _. (symbol_table_fault bytes.now table ≡ None) × HasTable bytes.now table) (λ fault. symbol_table_fault bytes.now table ≡ Some fault) }
{
    let symbols = section_at(bytes, table);
    if !symbols.size.is_multiple_of(16)
        || !ends_within(bytes.len(), &symbols)
        || symbols.link >= u32::from(half(bytes, 48))
    {
        return Err(SymFault::BadTable { index: table });
    }
    if !ends_within(bytes.len(), &section_at(bytes, symbols.link)) {
        return Err(SymFault::BadTable { index: table });
    }
    Ok(())
}

/// The bytes of the names of a symbol table's symbols.
#[tactic(auto, unfolding(crate::specs::Symbols::names_of))]
pub fn names(bytes: &[u8], table: u32) -> &[u8]
    requires sections { HasSections bytes.now }
    requires table { HasTable bytes.now table }
    ensures { result.now ≡ names_of bytes.now table }
{
    let section = section_at(bytes, section_at(bytes, table).link);
    part(bytes, section.offset as usize, section.size as usize)
}

fn part(bytes: &[u8], start: usize, size: usize) -> &[u8]
    requires fits { start + size < 2 ^ 64 }
    requires inside { start + size ≤ length bytes.now }
    ensures { result.now ≡ take size (drop start bytes.now) }
{
    &bytes[start..start + size]
}
