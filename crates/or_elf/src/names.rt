// What a name stands for: the value of a symbol, and where that lies in RAM.
ghost use Rattle.std.specs.Prelude.{◌≡◌, ◌≤◌, ◌<◌, ◌+◌, ◌*◌, ◌^◌, ◌==◌, Some, None, length, true, IfSome, position};
ghost use Rattle.or_words.specs.declared.limits.TheConstants.{IMAGE_LIMIT};
ghost use Rattle.or_elf.specs.Header.{table_start, header_count, header_start};
ghost use Rattle.or_elf.specs.Symbols.{section_count, symbol_table, symbol_start, HasSections, HasTable};
ghost use Rattle.or_elf.specs.Names.{is_place, is_called, is_named, named_among, value_in_table, value_in_symbols, value_of_name, has_address, segment_around, physical_address};

use crate::fields::{half, word};
use crate::sections::{check_sections, check_table, has_sections, names, section_at, symbol_table};
use crate::symbols::tail;

/// The value of the first symbol of this name, of those of type `STT_OBJECT` or `STT_FUNC`, and of those of type
/// `STT_NOTYPE` in a section, of any size (ELF gABI, "Symbol Table"). A symbol whose name is not whole is skipped. `None`
/// where there is none, and where the section headers or the symbol table have a fault.
#[tactic(auto, unfolding(crate::specs::Names::value_of_name))]
pub fn value_of_name(bytes: &[u8], name: &[u8]) -> Option<u32>
    requires long { 52 ≤ length bytes.now }
    requires short { length bytes.now ≤ IMAGE_LIMIT }
    ensures { result ≡ value_of_name bytes.now name.now }
{
    if !has_sections(bytes) {
        return None;
    }
    match check_sections(bytes) {
        Ok(()) => value_in_sections(bytes, name),
        Err(_) => None,
    }
}

fn value_in_sections(bytes: &[u8], name: &[u8]) -> Option<u32>
    requires { HasSections bytes.now }
    ensures { result ≡ value_in_symbols name.now bytes.now (symbol_table bytes.now) }
{
    match symbol_table(bytes) {
        Some(table) => value_in_symbols(bytes, table, name),
        None => None,
    }
}

fn value_in_symbols(bytes: &[u8], table: u32, name: &[u8]) -> Option<u32>
    requires sections { HasSections bytes.now }
    requires index { table < section_count bytes.now }
    ensures { result ≡ value_in_symbols name.now bytes.now (Some table) }
{
    match check_table(bytes, table) {
        Ok(()) => value_in_table(bytes, table, name),
        Err(_) => None,
    }
}

fn value_in_table(bytes: &[u8], table: u32, name: &[u8]) -> Option<u32>
    requires sections { HasSections bytes.now }
    requires table { HasTable bytes.now table }
    ensures { result ≡ value_in_table name.now bytes.now table }
{
    let names = names(bytes, table);
    let section = section_at(bytes, table);
    let first = section.offset as usize;
    match named_symbol(name, names, bytes, first, section.size / 16) {
        Some(index) => Some(word(bytes, first + 16 * index as usize + 4)),
        None => None,
    }
}

// The index of the first symbol of this name in a table of so many that starts here.
fn named_symbol(name: &[u8], names: &[u8], bytes: &[u8], first: usize, count: u32) -> Option<u32>
    requires short { length bytes.now ≤ IMAGE_LIMIT }
    requires inside { first + 16 * count ≤ length bytes.now }
    ensures first { result ≡ named_among name.now names.now bytes.now first 0 count }
    ensures within { IfSome result (λ index. index < count) }
{
    for index in 0..count {
        if is_named(name, names, bytes, first + 16 * index as usize) {
            return Some(index);
        }
    }
    None
}

fn is_named(name: &[u8], names: &[u8], bytes: &[u8], start: usize) -> bool
    requires short { length bytes.now ≤ IMAGE_LIMIT }
    requires inside { start + 16 ≤ length bytes.now }
    ensures { result ≡ is_named name.now names.now bytes.now start }
{
    is_place(bytes, start) && is_called(name, tail(names, word(bytes, start) as usize))
}

fn is_place(bytes: &[u8], start: usize) -> bool
    requires short { length bytes.now ≤ IMAGE_LIMIT }
    requires inside { start + 16 ≤ length bytes.now }
    ensures { result ≡ is_place bytes.now start }
{
    let kind = bytes[start + 12] % 16;
    kind == 1 || kind == 2 || kind == 0 && half(bytes, start + 14) != 0
}

// The bytes up to the first zero byte are this name.
fn is_called(name: &[u8], bytes: &[u8]) -> bool
    ensures { result ≡ is_called name.now bytes.now 0 }
{
    match first_zero(bytes) {
        Some(end) => bytes.split_at(end).0 == name,
        None => false,
    }
}

fn first_zero(bytes: &[u8]) -> Option<usize>
    ensures place { result ≡ position (λ byte. byte == 0) bytes.now }
    ensures within { IfSome result (λ place. place < length bytes.now) }
{
    bytes.iter().position(|byte| *byte == 0)
}

/// Where a virtual address lies in RAM, in bytes: `address - p_vaddr + p_paddr` of the first segment that has it by
/// `p_vaddr` and `p_memsz`, or the same address where none has it (ELF gABI, "Program Header").
pub fn physical_address(bytes: &[u8], address: u32) -> u64
    requires long { 52 ≤ length bytes.now }
    requires short { length bytes.now ≤ IMAGE_LIMIT }
    requires table { 0 < header_count bytes.now → table_start bytes.now + 32 * header_count bytes.now ≤ length bytes.now }
    ensures is { result ≡ physical_address bytes.now address }
    ensures within { result < 2 ^ 33 }
{
    match segment_around(bytes, address) {
        Some(index) => {
            let start = word(bytes, 28) as usize + 32 * index as usize;
            u64::from(address) - u64::from(word(bytes, start + 8))
                + u64::from(word(bytes, start + 12))
        }
        None => u64::from(address),
    }
}

// The index of the first header of a segment that has this virtual address.
fn segment_around(bytes: &[u8], address: u32) -> Option<u32>
    requires long { 52 ≤ length bytes.now }
    requires short { length bytes.now ≤ IMAGE_LIMIT }
    requires table { 0 < header_count bytes.now → table_start bytes.now + 32 * header_count bytes.now ≤ length bytes.now }
    ensures first { result ≡ segment_around bytes.now address 0 (header_count bytes.now) }
    ensures within { IfSome result (λ index. index < header_count bytes.now) }
    ensures has { IfSome result (λ index. has_address bytes.now address index ≡ true) }
{
    let start = word(bytes, 28) as usize;
    let count = u32::from(half(bytes, 44));
    for index in 0..count {
        if has_address(bytes, index, start + 32 * index as usize, address) {
            return Some(index);
        }
    }
    None
}

// The header with this index, which starts here, is of a segment that has this virtual address.
fn has_address(bytes: &[u8], index: u32, at: usize, address: u32) -> bool
    requires short { length bytes.now ≤ IMAGE_LIMIT }
    requires inside { at + 32 ≤ length bytes.now }
    requires start { at ≡ header_start bytes.now index }
    ensures { result ≡ has_address bytes.now address index }
{
    let first = u64::from(word(bytes, at + 8));
    let size = u64::from(word(bytes, at + 20));
    word(bytes, at) == 1 && first <= u64::from(address) && u64::from(address) < first + size
}
