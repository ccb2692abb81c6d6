// The functions of pcs. A run comes back to the same pcs, and goes on at those behind them, so the answers that were found last
// are kept at hand, and with each answer that is looked for those of the pcs behind it that have it too.
ghost use Rattle.std.specs.Prelude.{◌≡◌, ◌<◌, ◌≤◌, ◌^◌, ℕ, IfOk};
ghost use Rattle.or_elf.specs.Symbols.{covers, function_of, innermost};
ghost use Rattle.or_prof.specs.Cache.{IsCache};

use or_elf::{Symbol as Function, Symbols};
use std::alloc::{AllocError, Global};
use std::marker::Model;

// A power of two, so that a place is found without a division.
const PLACES: usize = 262_144;

// How many answers are kept at once, at most.
const KEPT: u32 = 4096;

// A pc, and the index of its function.
#[derive(Clone, Copy)]
pub struct Found {
    pub pc: u32,
    pub function: Option<u32>,
}

// The symbols, with the pcs that were looked up last; contracts see the symbols.
#[derive(Drop)]
pub struct Finder {
    symbols: Symbols,
    found: Vec<Found>,
}

impl Model for Finder {
    ghost use Rattle.or_elf.specs.Symbols.{SymbolTable};
    ghost use Rattle.or_prof.specs.Cache.{IsCache};

    ghost Value = { SymbolTable };

    ghost view = { λ finder. finder.symbols };

    ghost invariant = { λ finder. IsCache finder.symbols finder.found.items };
}

impl Finder {
    pub fn open(alloc: Global, symbols: Symbols) -> Result<Finder, AllocError>
        ensures { IfOk result (λ finder. finder ≡ symbols) }
    {
        let found = empty_cache(alloc, &symbols)?;
        Ok(Finder { symbols, found })
    }

    // The symbols.
    pub fn symbols(&self) -> &Symbols
        ensures { result.now ≡ self.now }
    {
        &self.symbols
    }

    // The index of the function of a pc.
    pub fn find(&mut self, pc: u32) -> Option<u32>
        ensures function { result ≡ function_of self.old pc }
        ensures symbols { self.new ≡ self.old }
    {
        let place = place_of(pc);
        let found = self.found[place];
        if found.pc == pc {
            return found.function;
        }
        let function = self.symbols.find(pc);
        let end = end_of(self.symbols.functions(), pc);
        keep(&self.symbols, &mut self.found, function, pc, end);
        function
    }
}

// An address above a pc, and at most 2^32, up to which all addresses from the pc on lie in the same functions as the pc.
#[tactic(auto, using(crate::proofs::Spans::spans))]
fn end_of(functions: &[Function], pc: u32) -> u64
    ensures same { (p : ℕ) → pc ≤ p → p < result → innermost functions.now p 1 ≡ innermost functions.now pc 1 }
    ensures limit { result ≤ 2 ^ 32 }
{
    let mut end = 1 << 32;
    let mut rest = functions;
    while let Some((function, others)) = rest.split_first() {
        end = next_edge(function, pc, end);
        rest = others;
    }
    end
}

// The lesser of an address and the first above a pc at which a function starts or has ended.
fn next_edge(function: &Function, pc: u32, end: u64) -> u64
    ensures same { (p : ℕ) → pc ≤ p → p < result → covers p 1 function.now ≡ covers pc 1 function.now }
    ensures less { result ≤ end }
{
    let start = u64::from(function.value);
    let behind = start + u64::from(function.size);
    if start > u64::from(pc) {
        end.min(start)
    } else if behind > u64::from(pc) {
        end.min(behind)
    } else {
        end
    }
}

// Keeps the answer of a pc for the pcs behind it, up to an address.
#[tactic(auto, using(crate::proofs::Spans::kept_answers))]
fn keep(symbols: &Symbols, found: &mut [Found], function: Option<u32>, pc: u32, end: u64)
    requires cache { IsCache symbols.now found.old }
    requires same { (p : ℕ) → pc ≤ p → p < end → function ≡ function_of symbols.now p }
    requires limit { end ≤ 2 ^ 32 }
    ensures { IsCache symbols.now found.new }
{
    let mut next = u64::from(pc);
    for _ in 0..KEPT {
        if next >= end {
            return;
        }
        let pc = next as u32;
        found[place_of(pc)] = Found { pc, function };
        next += 4;
    }
}

// Instructions have four bytes.
fn place_of(pc: u32) -> usize
    ensures { result < 262144 }
{
    pc as usize / 4 % PLACES
}

// The answer for one pc at each place.
fn empty_cache(alloc: Global, symbols: &Symbols) -> Result<Vec<Found>, AllocError>
    ensures { IfOk result (λ found. IsCache symbols.now found.items) }
{
    let first = Found {
        pc: 0,
        function: symbols.find(0),
    };
    let mut found = Vec::new(alloc);
    for _ in 0..PLACES {
        found.push(first)?;
    }
    Ok(found)
}
