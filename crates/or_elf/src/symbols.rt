// The functions and objects that a file's symbol table names.
ghost use Rattle.std.specs.Prelude.{◌≡◌, ◌⊎◌, ◌≤◌, ◌<◌, ◌+◌, ◌*◌, ◌==◌, ◌++◌, Some, None, length, take, drop, MatchResult, IfOk, OnOk, OnErr, vec_capacity, vec_len, if◌then◌else◌, ◌^◌};
ghost use Rattle.or_elf.specs.Header.{word_at};
ghost use Rattle.std.specs.List.{find, list_any};
ghost use Rattle.or_text.specs.Keeps.{Keeps};
ghost use Rattle.or_words.specs.declared.limits.TheConstants.{IMAGE_LIMIT};
ghost use Rattle.or_elf.specs.Symbols.{section_count, symbol_fault, symbols_of, contents_fault, symbol_table, symbols_in, no_symbols, HasSections, HasTable, is_of_type, symbol_start, symbol_at, symbols_among, symbols_of_type, with_names, names_fault, has_end, covers, later_start, innermost, function_around, function_of, object_of, shown, name_text, symbol_name, offset_text, place_text, object_text};

use crate::SymFault;
use crate::fields::word;
use crate::sections::{check_sections, check_table, has_sections, names, section_at, symbol_table};
use or_text::append_decimal;
use or_words::NoMemory;
use std::alloc::{AllocError, Global};
use std::marker::Model;

// The types of symbols that name data and functions: `STT_OBJECT` and `STT_FUNC`.
const OBJECT: u8 = 1;

const FUNCTION: u8 = 2;

/// A symbol of a symbol table.
#[derive(Clone, Copy, Debug, PartialEq, Eq)]
pub struct Symbol {
    /// Its place in the symbol table, from 0.
    pub index: u32,
    /// `st_name`: where its name starts among the names.
    pub name: u32,
    /// `st_value`: the address of its first byte.
    pub value: u32,
    /// `st_size`: how many bytes it has.
    pub size: u32,
}

/// The functions and objects that a file names.
#[derive(Drop)]
pub struct Symbols {
    functions: Vec<Symbol>,
    objects: Vec<Symbol>,
    names: Vec<u8>,
}

impl Model for Symbols {
    ghost use Rattle.or_elf.specs.Symbols.{SymbolTable};

    ghost Value = { SymbolTable };

    ghost view = { λ symbols. record { functions = symbols.functions.items; objects = symbols.objects.items; names = symbols.names.items } };
}

impl Symbols {
    /// The symbols of type `STT_FUNC` with a size, and those of type `STT_OBJECT` with a size and a whole name, of the first
    /// section of type `SHT_SYMTAB` (ELF gABI, "Symbol Table"). There are none where the file has no section headers or no
    /// such section.
    #[tactic(auto, unfolding(crate::specs::Symbols::symbol_fault, crate::specs::Symbols::symbols_of))]
    pub fn read(alloc: Global, bytes: &[u8]) -> Result<Symbols, SymFault>
        requires long { 52 ≤ length bytes.now }
        requires short { length bytes.now ≤ IMAGE_LIMIT }
        ensures { MatchResult result
            (λ symbols. (symbol_fault bytes.now ≡ None) × (symbols ≡ symbols_of bytes.now))
            (λ fault. (fault ≡ SymFault.NoMemory) ⊎ (symbol_fault bytes.now ≡ Some fault)) }
    {
        if !has_sections(bytes) {
            return Ok(empty(alloc));
        }
        check_sections(bytes)?;
        read_sections(alloc, bytes)
    }

    /// The functions, in the order of the symbol table.
    pub fn functions(&self) -> &[Symbol]
        ensures { result.now ≡ self.now.functions }
    {
        self.functions.as_slice()
    }

    /// The index in the symbol table of the function that has its bytes around this address: of several the one that
    /// starts last, and of these the first.
    pub fn find(&self, pc: u32) -> Option<u32>
        ensures { result ≡ function_of self.now pc }
    {
        match self.function_around(pc) {
            Some(function) => Some(function.index),
            None => None,
        }
    }

    // The function that has its bytes around this address.
    fn function_around(&self, pc: u32) -> Option<Symbol>
        ensures { result ≡ function_around self.now pc }
    {
        innermost(&self.functions, pc, 1)
    }

    // The object that a byte of the word at this address lies in.
    fn object_of(&self, word: u32) -> Option<Symbol>
        ensures { result ≡ object_of self.now word }
    {
        innermost(&self.objects, word, 4)
    }

    /// Appends `<NAME+N>` for an address in a function, of several the one that starts last, and of these the first; nothing
    /// elsewhere. Bytes of the name are shown as by `name`.
    pub fn append_place(&self, pc: u32, out: &mut Vec<u8>) -> Result<(), AllocError>
        ensures text { OnOk result (out.new.items ≡ out.old.items ++ place_text self.now pc) }
        ensures full { OnErr result (vec_capacity out.old < vec_len out.old + length (place_text self.now pc)) }
        ensures capacity { vec_capacity out.old ≤ vec_capacity out.new }
        ensures kept { Keeps out.old.items out.new.items }
    {
        let Some(function) = self.function_around(pc) else {
            return Ok(());
        };
        out.extend_from_slice(b"<")?;
        append_offset(&self.names, &function, pc, out)?;
        out.extend_from_slice(b">")
    }

    /// Appends ` in NAME+N` for the address of a word that an object has a byte of, with N 0 where the object starts inside the
    /// word; nothing elsewhere. Of several objects and of a name's bytes as by `append_place`.
    pub fn append_object(&self, word: u32, out: &mut Vec<u8>) -> Result<(), AllocError>
        ensures text { OnOk result (out.new.items ≡ out.old.items ++ object_text self.now word) }
        ensures full { OnErr result (vec_capacity out.old < vec_len out.old + length (object_text self.now word)) }
        ensures capacity { vec_capacity out.old ≤ vec_capacity out.new }
        ensures kept { Keeps out.old.items out.new.items }
    {
        let Some(object) = self.object_of(word) else {
            return Ok(());
        };
        out.extend_from_slice(b" in ")?;
        append_offset(&self.names, &object, word, out)
    }

    // Appends the name of a symbol.
    pub(crate) fn append_name_of(
        &self,
        symbol: &Symbol,
        out: &mut Vec<u8>,
    ) -> Result<(), AllocError>
        ensures text { OnOk result (out.new.items ≡ out.old.items ++ name_text (drop symbol.now.name self.now.names)) }
        ensures full { OnErr result (vec_capacity out.old < vec_len out.old + length (name_text (drop symbol.now.name self.now.names))) }
        ensures capacity { vec_capacity out.old ≤ vec_capacity out.new }
        ensures kept { Keeps out.old.items out.new.items }
    {
        append_shown(tail(&self.names, symbol.name as usize), out)
    }

    /// Appends the name of the function with this index, with `?` for each byte that is no visible character of ASCII.
    pub fn name(&self, index: u32, out: &mut Vec<u8>) -> Result<(), NoMemory>
        ensures name { OnOk result (out.new.items ≡ out.old.items ++ symbol_name self.now index) }
        ensures full { OnErr result (vec_capacity out.old < vec_len out.old + length (symbol_name self.now index)) }
        ensures capacity { vec_capacity out.old ≤ vec_capacity out.new }
        ensures no_memory { OnErr result (out.new.items ≡ out.old.items) }
    {
        match with_index(&self.functions, index) {
            Some(function) => append_name(tail(&self.names, function.name as usize), out),
            None => Ok(()),
        }
    }
}

// No symbols.
pub(crate) fn empty(alloc: Global) -> Symbols
    ensures { result ≡ no_symbols }
{
    Symbols {
        functions: Vec::new(alloc),
        objects: Vec::new(alloc),
        names: Vec::new(alloc),
    }
}

fn read_sections(alloc: Global, bytes: &[u8]) -> Result<Symbols, SymFault>
    requires { HasSections bytes.now }
    ensures { MatchResult result
        (λ symbols. (contents_fault bytes.now (symbol_table bytes.now) ≡ None) × (symbols ≡ symbols_in bytes.now (symbol_table bytes.now)))
        (λ fault. (fault ≡ SymFault.NoMemory) ⊎ (contents_fault bytes.now (symbol_table bytes.now) ≡ Some fault)) }
{
    match symbol_table(bytes) {
        Some(table) => read_table(alloc, bytes, table),
        None => Ok(empty(alloc)),
    }
}

fn read_table(alloc: Global, bytes: &[u8], table: u32) -> Result<Symbols, SymFault>
    requires sections { HasSections bytes.now }
    requires index { table < section_count bytes.now }
    ensures { MatchResult result
        (λ symbols. (contents_fault bytes.now (Some table) ≡ None) × (symbols ≡ symbols_in bytes.now (Some table)))
        (λ fault. (fault ≡ SymFault.NoMemory) ⊎ (contents_fault bytes.now (Some table) ≡ Some fault)) }
{
    check_table(bytes, table)?;
    let names = names(bytes, table);
    let Ok(functions) = symbols_of_type(alloc, FUNCTION, bytes, table) else {
        return Err(SymFault::NoMemory);
    };
    let Ok(objects) = symbols_of_type(alloc, OBJECT, bytes, table) else {
        return Err(SymFault::NoMemory);
    };
    with_names(alloc, names, functions, &objects)
}

fn with_names(
    alloc: Global,
    names: &[u8],
    functions: Vec<Symbol>,
    objects: &[Symbol],
) -> Result<Symbols, SymFault>
    ensures { MatchResult result
        (λ symbols. (names_fault names.now functions.items ≡ None) × (symbols.functions ≡ functions.items) × (symbols.objects ≡ with_names names.now objects.now) × (symbols.names ≡ names.now))
        (λ fault. (fault ≡ SymFault.NoMemory) ⊎ (names_fault names.now functions.items ≡ Some fault)) }
{
    check_names(names, &functions)?;
    let Ok(objects) = named(alloc, names, objects) else {
        return Err(SymFault::NoMemory);
    };
    match names.to_vec(alloc) {
        Ok(names) => Ok(Symbols {
            functions,
            objects,
            names,
        }),
        Err(_) => Err(SymFault::NoMemory),
    }
}

// The symbols whose names are whole.
#[tactic(auto, unfolding(crate::specs::Symbols::with_names))]
fn named(alloc: Global, names: &[u8], symbols: &[Symbol]) -> Result<Vec<Symbol>, AllocError>
    ensures { IfOk result (λ list. list.items ≡ with_names names.now symbols.now) }
{
    let mut named = Vec::new(alloc);
    for symbol in symbols {
        if has_end(names, symbol.name) {
            named.push(*symbol)?;
        }
    }
    Ok(named)
}

// The symbols of a type in a symbol table, in its order.
fn symbols_of_type(
    alloc: Global,
    kind: u8,
    bytes: &[u8],
    table: u32,
) -> Result<Vec<Symbol>, AllocError>
    requires sections { HasSections bytes.now }
    requires table { HasTable bytes.now table }
    ensures { IfOk result (λ list. list.items ≡ symbols_of_type kind bytes.now table) }
{
    let section = section_at(bytes, table);
    symbols_from(
        alloc,
        kind,
        bytes,
        section.offset as usize,
        section.size / 16,
    )
}

// The symbols of a type in a table that starts here.
fn symbols_from(
    alloc: Global,
    kind: u8,
    bytes: &[u8],
    first: usize,
    count: u32,
) -> Result<Vec<Symbol>, AllocError>
    requires short { length bytes.now ≤ IMAGE_LIMIT }
    requires inside { first + 16 * count ≤ length bytes.now }
    ensures { IfOk result (λ list. list.items ≡ symbols_among kind bytes.now first 0 count) }
{
    let mut symbols = Vec::new(alloc);
    for index in 0..count {
        let start = first + 16 * index as usize;
        if is_of_type(kind, bytes, start) {
            symbols.push(symbol_in(bytes, first, index))?;
        }
    }
    Ok(symbols)
}

fn is_of_type(kind: u8, bytes: &[u8], start: usize) -> bool
    requires short { length bytes.now ≤ IMAGE_LIMIT }
    requires inside { start + 16 ≤ length bytes.now }
    ensures { result ≡ is_of_type kind bytes.now start }
{
    bytes[start + 12] % 16 == kind && word(bytes, start + 8) != 0
}

fn symbol_in(bytes: &[u8], first: usize, index: u32) -> Symbol
    requires short { length bytes.now ≤ IMAGE_LIMIT }
    requires inside { symbol_start first index + 16 ≤ length bytes.now }
    ensures { result ≡ symbol_at bytes.now first index }
{
    let start = first + 16 * index as usize;
    Symbol {
        index,
        name: word(bytes, start),
        value: word(bytes, start + 4),
        size: word(bytes, start + 8),
    }
}

fn check_names(names: &[u8], functions: &[Symbol]) -> Result<(), SymFault>
    ensures { MatchResult result (λ _. names_fault names.now functions.now ≡ None) (λ fault. names_fault names.now functions.now ≡ Some fault) }
{
    let mut rest = functions;
    while let Some((function, others)) = rest.split_first() {
        if !has_end(names, function.name) {
            return Err(SymFault::BadName {
                index: function.index,
            });
        }
        rest = others;
    }
    Ok(())
}

fn has_end(names: &[u8], start: u32) -> bool
    ensures { result ≡ has_end names.now start }
{
    has_zero(tail(names, start as usize))
}

fn has_zero(bytes: &[u8]) -> bool
    ensures { result ≡ list_any (λ byte. byte == 0) bytes.now }
{
    let mut rest = bytes;
    while let Some((byte, others)) = rest.split_first() {
        if *byte == 0 {
            return true;
        }
        rest = others;
    }
    false
}

pub(crate) fn tail(bytes: &[u8], start: usize) -> &[u8]
    ensures { result.now ≡ drop start bytes.now }
{
    if start > bytes.len() {
        return &[];
    }
    bytes.split_at(start).1
}

// A symbol has one of so many bytes from this address on.
fn covers(symbol: &Symbol, address: u32, count: u32) -> bool
    ensures { result ≡ covers address count symbol.now }
{
    let address = u64::from(address);
    let value = u64::from(symbol.value);
    value < address + u64::from(count) && address < value + u64::from(symbol.size)
}

fn candidate(symbol: &Symbol, address: u32, count: u32) -> Option<Symbol>
    ensures { result ≡ (if covers address count symbol.now then Some symbol.now else None) }
{
    if covers(symbol, address, count) {
        Some(*symbol)
    } else {
        None
    }
}

fn later_start(first: Option<Symbol>, second: Option<Symbol>) -> Option<Symbol>
    ensures { result ≡ later_start first second }
{
    match (first, second) {
        (None, _) => second,
        (Some(_), None) => first,
        (Some(one), Some(other)) => {
            if one.value < other.value {
                second
            } else {
                first
            }
        }
    }
}

#[tactic(auto, using(crate::proofs::Starts::later_start_rules), unfolding(crate::specs::Symbols::innermost))]
fn innermost(symbols: &[Symbol], address: u32, count: u32) -> Option<Symbol>
    ensures { result ≡ innermost symbols.now address count }
{
    let mut best = None;
    let mut rest = symbols;
    while let Some((symbol, others)) = rest.split_first() {
        best = later_start(best, candidate(symbol, address, count));
        rest = others;
    }
    best
}

fn with_index(functions: &[Symbol], index: u32) -> Option<Symbol>
    ensures { result ≡ find (λ function. function.index == index) functions.now }
{
    let mut rest = functions;
    while let Some((function, others)) = rest.split_first() {
        if function.index == index {
            return Some(*function);
        }
        rest = others;
    }
    None
}

// Appends an address as `NAME+N`, by a symbol's name and its distance from the symbol's start.
fn append_offset(
    names: &[u8],
    symbol: &Symbol,
    address: u32,
    out: &mut Vec<u8>,
) -> Result<(), AllocError>
    ensures text { OnOk result (out.new.items ≡ out.old.items ++ offset_text names.now symbol.now address) }
    ensures full { OnErr result (vec_capacity out.old < vec_len out.old + length (offset_text names.now symbol.now address)) }
    ensures capacity { vec_capacity out.old ≤ vec_capacity out.new }
    ensures kept { Keeps out.old.items out.new.items }
{
    append_shown(tail(names, symbol.name as usize), out)?;
    out.extend_from_slice(b"+")?;
    append_decimal(u64::from(address.saturating_sub(symbol.value)), out)
}

fn append_name(text: &[u8], out: &mut Vec<u8>) -> Result<(), NoMemory>
    ensures name { OnOk result (out.new.items ≡ out.old.items ++ name_text text.now) }
    ensures full { OnErr result (vec_capacity out.old < vec_len out.old + length (name_text text.now)) }
    ensures capacity { vec_capacity out.old ≤ vec_capacity out.new }
    ensures no_memory { OnErr result (out.new.items ≡ out.old.items) }
{
    let before = out.len();
    match append_shown(text, out) {
        Ok(()) => Ok(()),
        Err(_) => {
            out.truncate(before);
            Err(NoMemory)
        }
    }
}

#[tactic(auto, unfolding(crate::specs::Symbols::name_text))]
fn append_shown(text: &[u8], out: &mut Vec<u8>) -> Result<(), AllocError>
    ensures name { OnOk result (out.new.items ≡ out.old.items ++ name_text text.now) }
    ensures full { OnErr result (vec_capacity out.old < vec_len out.old + length (name_text text.now)) }
    ensures capacity { vec_capacity out.old ≤ vec_capacity out.new }
    ensures kept { Keeps out.old.items out.new.items }
{
    let mut rest = text;
    while let Some((byte, others)) = rest.split_first() {
        if *byte == 0 {
            return Ok(());
        }
        out.push(shown(*byte))?;
        rest = others;
    }
    Ok(())
}

fn shown(byte: u8) -> u8
    ensures { result ≡ shown byte }
{
    if (0x21..=0x7e).contains(&byte) {
        byte
    } else {
        b'?'
    }
}
