//! The accesses of a schedule are added one after the other.
ghost use Rattle.std.specs.Prelude.{◌≡◌, ℕ, ◌<◌, ◌≤◌, Bool, List, [], ◌∷◌, ◌++◌, OnOk, OnErr};
ghost use Rattle.or_race.specs.Event.{Event, event};
ghost use Rattle.or_race.specs.Records.{Records, cores_of, last_of, KnowsWord};

use crate::races::Races;
use crate::word::{blank_word, next_clock, next_word};
use or_bus::Access;
use or_words::NoMemory;
use std::alloc::Global;
use std::collections::BTreeMap;

impl Races {
    /// No accesses, of so many cores, at most 8. With `locks` a plain store releases its word as a conditional store does, and
    /// no races are reported on the words that an l.lwa or an l.swa accesses. It takes no memory; `add` takes it from `alloc`.
    pub fn new(alloc: Global, cores: u32, locks: bool) -> Races
        requires { cores ≤ 8 }
        ensures none { Records locks result [] }
        ensures cores { cores_of result ≡ cores }
        ensures last { last_of result ≡ 0 }
    {
        Races {
            locks,
            cores,
            last: 0,
            clocks: [[0; 8]; 8],
            words: BTreeMap::new(alloc),
        }
    }

    /// Adds the access of a turn, made at a pc. Turns are counted from 1, and this one is behind those added before. Errors:
    /// NoMemory, only at a word's first access, and then all is as before.
    pub fn add(&mut self, turn: u64, pc: u32, a: &Access) -> Result<(), NoMemory>
        requires core { a.now.core < cores_of self.old }
        requires later { last_of self.old < turn }
        ensures ok { OnOk result ((locks : Bool) (events : List Event) → Records locks self.old events → Records locks self.new (events ++ event turn pc a.now ∷ [])) }
        ensures err { OnErr result ((locks : Bool) (events : List Event) → Records locks self.old events → Records locks self.new events) }
        ensures cores { cores_of self.new ≡ cores_of self.old }
        ensures last { OnOk result (last_of self.new ≡ turn) }
        ensures last_as_before { OnErr result (last_of self.new ≡ last_of self.old) }
        // Only a word's first access takes memory.
        ensures first { OnErr result (¬ KnowsWord self.old a.now.word) }
        ensures known { OnOk result (KnowsWord self.new a.now.word) }
        ensures still_known { (word : ℕ) → KnowsWord self.old word → KnowsWord self.new word }
    {
        let core = a.core as usize;
        let before = self.words.get(&a.word).copied().unwrap_or(blank_word());
        let clock = next_clock(&self.clocks[core], &before.released, turn, a);
        let word = next_word(self.locks, self.cores, &clock, &before, turn, pc, a);
        match self.words.insert(a.word, word) {
            Ok(_) => {
                self.clocks[core] = clock;
                self.last = turn;
                Ok(())
            }
            Err(_) => Err(NoMemory),
        }
    }
}
