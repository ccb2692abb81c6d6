//! The profile.
ghost use Rattle.std.specs.Prelude.{◌≡◌, ◌<◌, ◌≤◌, ◌+◌, ◌++◌, ◌^◌, [], ◌∷◌, ◌≢◌, ℕ, List, true, IfOk, OnOk, OnErr, length, vec_capacity, vec_len};
ghost use Rattle.or_text.specs.Keeps.{Keeps};
ghost use Rattle.or_prof.specs.Tally.{AreEmpty, HaveRoom};
ghost use Rattle.or_prof.specs.Profile.{Addition, IsProfile, steps_of, AreSized, Profiled};
ghost use Rattle.or_prof.specs.Text.{IsProfText, AreCoreTexts, Appends};

use crate::finding::Finder;
use crate::ranking::Line;
use crate::tallying::{Tally, count_all, size_of};
use crate::texts::append_core;
use or_elf::Symbols;
use or_words::NoMemory;
use std::alloc::{AllocError, Global};
use std::marker::Model;

/// How many steps each core made in each function, and at each pc outside of them if that is asked for. Contracts see the
/// symbols, whether it is, and the counts of the cores.
#[derive(Drop)]
pub struct Profile {
    finder: Finder,
    hot: bool,
    tallies: Vec<Tally>,
    // Room for a line of each function or of each pc of a core, so that no memory is asked for when the profile is written.
    lines: Vec<Line>,
}

impl Model for Profile {
    ghost use Rattle.std.specs.Prelude.{◌≤◌, length, vec_capacity};
    ghost use Rattle.or_prof.specs.Tally.{HaveRoom};
    ghost use Rattle.or_prof.specs.Profile.{Profiled, AreSized};

    ghost Value = { Profiled };

    ghost view = { λ profile. record { symbols = profile.finder; hot = profile.hot; cores = profile.tallies.items } };

    ghost invariant = { λ profile. AreSized profile.finder profile.tallies.items × (length profile.finder.functions ≤ vec_capacity profile.lines) × HaveRoom (vec_capacity profile.lines) profile.tallies.items };
}

impl Profile {
    /// The profile of 1 to 8 cores that have made no step, with or without counts of pcs outside of functions. Errors: NoMemory.
    pub fn open(alloc: Global, cores: u32, symbols: Symbols, hot: bool) -> Result<Profile, NoMemory>
        requires one { 1 ≤ cores }
        requires eight { cores ≤ 8 }
        ensures cores { IfOk result (λ profile. length profile.cores ≡ cores) }
        ensures symbols { IfOk result (λ profile. profile.symbols ≡ symbols) }
        ensures hot { IfOk result (λ profile. profile.hot ≡ hot) }
        ensures profile { IfOk result (λ profile. IsProfile profile []) }
    {
        let Ok(tallies) = empty_tallies(alloc, cores, size_of(symbols.functions())) else {
            return Err(NoMemory);
        };
        let Ok(lines) = Vec::with_capacity(alloc, symbols.functions().len()) else {
            return Err(NoMemory);
        };
        match Finder::open(alloc, symbols) {
            Ok(finder) => Ok(Profile {
                finder,
                hot,
                tallies,
                lines,
            }),
            Err(_) => Err(NoMemory),
        }
    }

    /// How many steps of a core were added.
    pub fn steps(&self, core: u32) -> u32
        requires { core < length self.now.cores }
        ensures { result ≡ steps_of self.now core }
    {
        self.tallies[core as usize].steps()
    }

    /// Adds the trace of a turn of a core: the pc before each of its steps. All traces of a core have fewer than 2^27 pcs.
    /// Errors: NoMemory, only for a new pc where pcs are counted.
    pub fn add(&mut self, core: u32, trace: &[u32]) -> Result<(), NoMemory>
        requires core { core < length self.old.cores }
        requires room { steps_of self.old core + length trace.now < 2 ^ 27 }
        ensures profile { OnOk result ((additions : List Addition) → IsProfile self.old additions
            → IsProfile self.new (additions ++ record { core = core; trace = trace.now } ∷ [])) }
        ensures no_memory { OnErr result (self.old.hot ≡ true) }
        ensures steps { OnOk result (steps_of self.new core ≡ steps_of self.old core + length trace.now) }
        ensures others { (other : ℕ) → other ≢ core → steps_of self.new other ≡ steps_of self.old other }
        ensures cores { length self.new.cores ≡ length self.old.cores }
        ensures symbols { self.new.symbols ≡ self.old.symbols }
        ensures hot { self.new.hot ≡ self.old.hot }
    {
        let tally = &mut self.tallies[core as usize];
        count_all(&mut self.finder, tally, self.hot, &mut self.lines, trace)?;
        Ok(())
    }

    /// Appends the profile: for each core a line of its steps, and a line of each function in which it made some, the
    /// greatest count first, then lines of the pcs outside of functions that have the greatest counts, if they are counted.
    /// Errors: NoMemory, only where `out` lacks capacity for the text, and then its bytes are as before.
    pub fn write(&mut self, out: &mut Vec<u8>) -> Result<(), NoMemory>
        ensures text { OnOk result ((additions : List Addition) → IsProfile self.old additions
            → Appends (IsProfText self.old.hot (length self.old.cores) self.old.symbols additions) out.old.items out.new.items) }
        ensures no_memory { OnErr result (out.new.items ≡ out.old.items) }
        ensures full { OnErr result ((additions : List Addition) → IsProfile self.old additions
            → (text : List ℕ) → IsProfText self.old.hot (length self.old.cores) self.old.symbols additions text → vec_capacity out.old < vec_len out.old + length text) }
        ensures same { self.new ≡ self.old }
    {
        let before = out.len();
        match append_profile(
            self.finder.symbols(),
            self.hot,
            &self.tallies,
            &mut self.lines,
            out,
        ) {
            Ok(()) => Ok(()),
            Err(_) => {
                out.truncate(before);
                Err(NoMemory)
            }
        }
    }
}

// The tallies of cores that have made no step.
fn empty_tallies(alloc: Global, cores: u32, size: usize) -> Result<Vec<Tally>, AllocError>
    ensures { IfOk result (λ tallies. AreEmpty cores size tallies.items) }
{
    let mut tallies = Vec::new(alloc);
    for _ in 0..cores {
        tallies.push(Tally::open(alloc, size)?)?;
    }
    Ok(tallies)
}

// Appends the text of these cores. The list of lines has room for one of each function, or of each pc of a core. Whether pcs
// are counted is only spoken of by the clauses.
fn append_profile(
    symbols: &Symbols,
    hot: bool,
    tallies: &[Tally],
    lines: &mut Vec<Line>,
    out: &mut Vec<u8>,
) -> Result<(), AllocError>
    requires sized { AreSized symbols.now tallies.now }
    requires room { length symbols.now.functions ≤ vec_capacity lines.old }
    requires spots { HaveRoom (vec_capacity lines.old) tallies.now }
    ensures text { OnOk result ((additions : List Addition) → IsProfile (record { symbols = symbols.now; hot = hot; cores = tallies.now }) additions
        → Appends (IsProfText hot (length tallies.now) symbols.now additions) out.old.items out.new.items) }
    ensures full { OnErr result ((additions : List Addition) → IsProfile (record { symbols = symbols.now; hot = hot; cores = tallies.now }) additions
        → (text : List ℕ) → IsProfText hot (length tallies.now) symbols.now additions text → vec_capacity out.old < vec_len out.old + length text) }
    ensures kept { Keeps out.old.items out.new.items }
    ensures room { vec_capacity lines.old ≤ vec_capacity lines.new }
{
    out.extend_from_slice(b"orprof 1\n")?;
    for (core, tally) in tallies.iter().enumerate() {
        append_core(symbols, core, tally, lines, out)?;
    }
    Ok(())
}
