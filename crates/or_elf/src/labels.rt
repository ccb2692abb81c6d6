//! The labels of a listing: where the functions of an image begin. A listing asks at each of its lines, so the functions
//! are kept by their addresses.
ghost use Rattle.std.specs.Prelude.{◌≡◌, ◌≤◌, ◌<◌, ◌+◌, ◌++◌, ℕ, Some, None, length, IfOk, OnOk, OnErr, vec_capacity, vec_len, if◌then◌else◌};
ghost use Rattle.std.specs.BTreeMap.{get};
ghost use Rattle.std.specs.Ordering.{nat_cmp};
ghost use Rattle.std.specs.Option.{option_copied};
ghost use Rattle.or_words.specs.declared.limits.TheConstants.{IMAGE_LIMIT};
ghost use Rattle.or_text.specs.Keeps.{Keeps};
ghost use Rattle.or_elf.specs.Fault.{or_else};
ghost use Rattle.or_elf.specs.Symbols.{covers, innermost};
ghost use Rattle.or_elf.specs.Labels.{if_begins, function_at, label_text, sound_symbols};

use crate::symbol_fault::SymFault;
use crate::symbols::{Symbol, Symbols, empty};
use or_words::NoMemory;
use std::alloc::{AllocError, Global};
use std::collections::BTreeMap;
use std::marker::Model;

/// The symbols of an image, ready to tell at each address whether a function begins there. Contracts see the symbols.
#[derive(Drop)]
pub struct Labels {
    symbols: Symbols,
    starts: BTreeMap<u32, Symbol>,
}

impl Model for Labels {
    ghost use Rattle.or_elf.specs.Symbols.{SymbolTable};
    ghost use Rattle.or_elf.specs.Labels.{AreStarts};

    ghost Value = { SymbolTable };

    ghost view = { λ labels. labels.symbols };

    ghost invariant = { λ labels. AreStarts labels.symbols labels.starts };
}

impl Labels {
    /// The symbols of an image, as `Symbols::read` reads them; none where they have a fault.
    pub fn read(alloc: Global, image: &[u8]) -> Result<Labels, NoMemory>
        requires long { 52 ≤ length image.now }
        requires short { length image.now ≤ IMAGE_LIMIT }
        ensures { IfOk result (λ labels. labels ≡ sound_symbols image.now) }
    {
        match Symbols::read(alloc, image) {
            Ok(symbols) => with_starts(alloc, symbols),
            Err(SymFault::NoMemory) => Err(NoMemory),
            Err(_) => with_starts(alloc, empty(alloc)),
        }
    }

    /// Appends the line `NAME:` where the function of this address begins at it, and nothing elsewhere. The function of an
    /// address and the bytes of a name are as in `Symbols::append_place`.
    pub fn append(&self, pc: u32, out: &mut Vec<u8>) -> Result<(), AllocError>
        ensures text { OnOk result (out.new.items ≡ out.old.items ++ label_text self.now pc) }
        ensures full { OnErr result (vec_capacity out.old < vec_len out.old + length (label_text self.now pc)) }
        ensures capacity { vec_capacity out.old ≤ vec_capacity out.new }
        ensures kept { Keeps out.old.items out.new.items }
    {
        let Some(function) = self.function_at(pc) else {
            return Ok(());
        };
        self.symbols.append_name_of(&function, out)?;
        out.extend_from_slice(b":\n")
    }

    // The function of this address, if it begins there.
    fn function_at(&self, pc: u32) -> Option<Symbol>
        ensures { result ≡ function_at self.now pc }
    {
        self.starts.get(&pc).copied()
    }
}

fn with_starts(alloc: Global, symbols: Symbols) -> Result<Labels, NoMemory>
    ensures { IfOk result (λ labels. labels ≡ symbols) }
{
    let starts = starts_of(alloc, symbols.functions())?;
    Ok(Labels { symbols, starts })
}

// The function that begins at each address; of several the first.
fn starts_of(alloc: Global, functions: &[Symbol]) -> Result<BTreeMap<u32, Symbol>, NoMemory>
    ensures { IfOk result (λ starts. (pc : ℕ) → get nat_cmp starts pc ≡ if_begins pc (innermost functions.now pc 1)) }
{
    let mut starts = BTreeMap::new(alloc);
    let mut rest = functions;
    while let Some((function, others)) = rest.split_first() {
        add_start(&mut starts, function)?;
        rest = others;
    }
    Ok(starts)
}

// Adds a function, unless one is there that begins at its address.
fn add_start(starts: &mut BTreeMap<u32, Symbol>, function: &Symbol) -> Result<(), NoMemory>
    ensures { OnOk result ((pc : ℕ) → get nat_cmp starts.new pc ≡ or_else (get nat_cmp starts.old pc) (if_begins pc (if covers pc 1 function.now then Some function.now else None))) }
{
    if function.size == 0 || starts.contains_key(&function.value) {
        return Ok(());
    }
    starts.insert(function.value, *function)?;
    Ok(())
}
