//! The cores' data caches, side by side.

ghost use Rattle.std.specs.Prelude.{◌≡◌, ◌≢◌, ℕ, ◌<◌, ◌≤◌, ◌%◌, Some, length, replicate, IfOk, slice_set};
ghost use Rattle.or_words.specs.declared.limits.TheConstants.{MOST_CORES};
ghost use Rattle.or_parts.specs.Memory.{bytes_of};
ghost use Rattle.or_parts.specs.Lines.{index_of, line_of, no_lines, line_at_index, held_word, line_filled, line_dropped};
ghost use Rattle.or_mem.specs.Caches.{cache_of, line_updated, address_and_bytes};

use crate::data_cache::DataCache;
use or_words::{NoMemory, Width};
use std::alloc::Global;
use std::marker::Model;

/// The data cache of each core, in one block of memory.
#[derive(Drop)]
pub struct DCaches {
    caches: Vec<DataCache>,
}

impl Model for DCaches {
    ghost use Rattle.std.specs.Prelude.{List, Option};
    ghost use Rattle.or_parts.specs.declared.Line.{Line};

    ghost Value = { List (List (Option Line)) };

    ghost view = { λ a. a.caches.items };
}

impl DCaches {
    /// Caches for so many cores, 1 to 8, that hold no line. It fails only where memory runs out.
    pub fn open(alloc: Global, cores: u32) -> Result<DCaches, NoMemory>
        requires { cores ≤ MOST_CORES }
        ensures { IfOk result (λ caches. caches ≡ replicate cores no_lines) }
    {
        let caches = vec![in alloc; DataCache::empty(); cores as usize]?;
        Ok(DCaches { caches })
    }

    /// A copy of all lines. It fails only where memory runs out.
    pub fn copy(&self, alloc: Global) -> Result<DCaches, NoMemory>
        ensures { IfOk result (λ caches. caches ≡ self.now) }
    {
        let caches = Vec::from_slice(alloc, &self.caches)?;
        Ok(DCaches { caches })
    }

    /// The word at an address, None exactly where the core does not hold its line.
    #[inline(always)]
    pub fn look(&self, core: u32, pa: u32) -> Option<u32>
        requires core { core < length self.now }
        requires aligned { pa % 4 ≡ 0 }
        ensures { result ≡ held_word (cache_of self.now core) pa }
    {
        self.caches[core as usize].look(pa)
    }

    /// The address and the bytes of the line at an index of a core's cache, None exactly where the index holds none.
    pub fn line(&self, core: u32, index: u32) -> Option<(u32, [u8; 32])>
        requires core { core < length self.now }
        requires index { index < 128 }
        ensures { result ≡ address_and_bytes (line_at_index (cache_of self.now core) index) }
    {
        self.caches[core as usize].line(index)
    }

    /// Keeps the line of an address in a core's cache, in the place of whichever stood at its index.
    #[inline]
    pub fn fill(&mut self, core: u32, pa: u32, line: &[u8; 32])
        requires { core < length self.old }
        ensures filled { self.new ≡ slice_set self.old core (line_filled (cache_of self.old core) pa line.now) }
        ensures held { line_at_index (cache_of self.new core) (index_of pa) ≡ Some (record { address = line_of pa; bytes = line.now }) }
    {
        self.caches[core as usize].fill(pa, line);
    }

    /// Stores the low bits of a word at an address in the core's line of it, where that is held.
    #[inline(always)]
    pub fn update(&mut self, core: u32, pa: u32, width: Width, v: u32)
        requires core { core < length self.old }
        requires aligned { pa % bytes_of width ≡ 0 }
        ensures { self.new ≡ slice_set self.old core (line_updated (cache_of self.old core) pa width v) }
    {
        self.caches[core as usize].update(pa, width, v);
    }

    /// Drops the line of an address from a core's cache, where it is held.
    #[inline]
    pub fn drop_line(&mut self, core: u32, pa: u32)
        requires { core < length self.old }
        ensures { self.new ≡ slice_set self.old core (line_dropped (cache_of self.old core) pa) }
    {
        self.caches[core as usize].drop_line(pa);
    }

    /// Drops the line of an address from the cache of every core but this one.
    #[inline]
    pub fn snoop(&mut self, core: u32, pa: u32)
        requires { core < length self.old }
        ensures others { (c : ℕ) → c < length self.old → c ≢ core → cache_of self.new c ≡ line_dropped (cache_of self.old c) pa }
        ensures own { cache_of self.new core ≡ cache_of self.old core }
        ensures len { length self.new ≡ length self.old }
    {
        drop_elsewhere(&mut self.caches, core as usize, pa);
    }
}

#[inline]
fn drop_elsewhere(caches: &mut [DataCache], core: usize, pa: u32)
    ensures others { (c : ℕ) → c < length caches.old → c ≢ core → cache_of caches.new c ≡ line_dropped (cache_of caches.old c) pa }
    ensures own { cache_of caches.new core ≡ cache_of caches.old core }
{
    for place in 0..caches.len() {
        if place != core {
            caches[place].drop_line(pa);
        }
    }
}
