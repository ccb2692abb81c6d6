// What is counted for a core.
ghost use Rattle.std.specs.Prelude.{◌≡◌, ◌<◌, ◌≤◌, ◌+◌, ◌++◌, ◌^◌, [], ◌∷◌, ℕ, List, Option, Some, true, IfOk, IfSome, OnOk, OnErr, length, slice_index, vec_capacity};
ghost use Rattle.or_elf.specs.Symbols.{function_of};
ghost use Rattle.or_prof.specs.Tally.{no_counts, IsCounted, AreBelow};
ghost use Rattle.or_prof.specs.Profile.{AreCounts};

use crate::finding::Finder;
use crate::ranking::Line;
use crate::spotting::Spots;
use or_elf::Symbol as Function;
use std::alloc::{AllocError, Global};
use std::marker::Model;

// The counts of the functions with each index, of the items that have none and of their pcs, and of all items.
#[derive(Drop)]
pub struct Tally {
    counts: Vec<u32>,
    outside: u32,
    spots: Spots,
    steps: u32,
}

impl Model for Tally {
    ghost use Rattle.or_prof.specs.Tally.{Counts, IsBounded};

    ghost Value = { Counts };

    ghost view = { λ tally. record { by_index = tally.counts.items; outside = tally.outside; spots = tally.spots; steps = tally.steps } };

    ghost invariant = { λ tally. IsBounded (record { by_index = tally.counts.items; outside = tally.outside; spots = tally.spots; steps = tally.steps }) };
}

impl Tally {
    // Nothing is counted yet. The size is above the index of each function.
    pub fn open(alloc: Global, size: usize) -> Result<Tally, AllocError>
        ensures { IfOk result (λ tally. tally ≡ no_counts size) }
    {
        Ok(Tally {
            counts: vec![in alloc; 0; size]?,
            outside: 0,
            spots: Spots::open(alloc),
            steps: 0,
        })
    }

    pub fn steps(&self) -> u32
        ensures { result ≡ self.now.steps }
    {
        self.steps
    }

    // How many items have no function.
    pub fn outside(&self) -> u32
        ensures { result ≡ self.now.outside }
    {
        self.outside
    }

    // The pcs of the items that have no function, if they were counted.
    pub fn spots(&self) -> &Spots
        ensures { result.now ≡ self.now.spots }
    {
        &self.spots
    }

    // How many items have the function with this index.
    pub fn inside(&self, index: u32) -> u32
        requires { index < length self.now.by_index }
        ensures { result ≡ slice_index self.now.by_index index }
    {
        self.counts[index as usize]
    }

    // Counts an item that has this function, or none, and then its pc too if that is asked for. Errors: if there is no memory
    // for a new pc, for which the list of lines gets room.
    pub fn count(
        &mut self,
        function: Option<u32>,
        pc: u32,
        hot: bool,
        lines: &mut Vec<Line>,
    ) -> Result<(), AllocError>
        requires known { IfSome function (λ index. index < length self.old.by_index) }
        requires room { self.old.steps < 2 ^ 27 }
        requires lines { length self.old.spots ≤ vec_capacity lines.old }
        ensures counted { OnOk result (IsCounted hot self.old function pc self.new) }
        ensures size { length self.new.by_index ≡ length self.old.by_index }
        ensures asked { OnErr result (hot ≡ true) }
        ensures lines { length self.new.spots ≤ vec_capacity lines.new }
        ensures capacity { vec_capacity lines.old ≤ vec_capacity lines.new }
    {
        match function {
            Some(index) => self.counts[index as usize] += 1,
            None => {
                if hot {
                    self.spots.count(pc, lines)?;
                }
                self.outside += 1;
            }
        }
        self.steps += 1;
        Ok(())
    }
}

// Counts the function of an item, or its pc.
#[tactic(auto, using(crate::proofs::Counting::counting))]
fn count_item(
    finder: &mut Finder,
    tally: &mut Tally,
    hot: bool,
    lines: &mut Vec<Line>,
    pc: u32,
) -> Result<(), AllocError>
    requires known { AreBelow (length tally.old.by_index) finder.old.functions }
    requires room { tally.old.steps < 2 ^ 27 }
    requires lines { length tally.old.spots ≤ vec_capacity lines.old }
    ensures counts { OnOk result ((items : List ℕ) → AreCounts hot finder.old items tally.old → AreCounts hot finder.old (items ++ pc ∷ []) tally.new) }
    ensures steps { OnOk result (tally.new.steps ≡ tally.old.steps + 1) }
    ensures asked { OnErr result (hot ≡ true) }
    ensures size { length tally.new.by_index ≡ length tally.old.by_index }
    ensures symbols { finder.new ≡ finder.old }
    ensures lines { length tally.new.spots ≤ vec_capacity lines.new }
    ensures capacity { vec_capacity lines.old ≤ vec_capacity lines.new }
{
    let function = finder.find(pc);
    tally.count(function, pc, hot, lines)
}

// Counts the functions of these items, and the pcs of those that have none if that is asked for. Errors: if there is no memory
// for a new pc, for which the list of lines gets room.
pub fn count_all(
    finder: &mut Finder,
    tally: &mut Tally,
    hot: bool,
    lines: &mut Vec<Line>,
    trace: &[u32],
) -> Result<(), AllocError>
    requires known { AreBelow (length tally.old.by_index) finder.old.functions }
    requires room { tally.old.steps + length trace.now < 2 ^ 27 }
    requires lines { length tally.old.spots ≤ vec_capacity lines.old }
    ensures counts { OnOk result ((items : List ℕ) → AreCounts hot finder.old items tally.old → AreCounts hot finder.old (items ++ trace.now) tally.new) }
    ensures steps { OnOk result (tally.new.steps ≡ tally.old.steps + length trace.now) }
    ensures asked { OnErr result (hot ≡ true) }
    ensures size { length tally.new.by_index ≡ length tally.old.by_index }
    ensures symbols { finder.new ≡ finder.old }
    ensures lines { length tally.new.spots ≤ vec_capacity lines.new }
    ensures capacity { vec_capacity lines.old ≤ vec_capacity lines.new }
{
    for pc in trace {
        count_item(finder, tally, hot, lines, *pc)?;
    }
    Ok(())
}

// A number above the index of each function.
pub fn size_of(functions: &[Function]) -> usize
    ensures { AreBelow result functions.now }
{
    let mut size = 0;
    for function in functions {
        size = size.max(function.index as usize + 1);
    }
    size
}
