//! What a bus tells of itself.

ghost use Rattle.std.specs.Prelude.{◌≡◌, ◌<◌, min, length, None};
ghost use Rattle.or_parts.specs.Devices.{console_of};
ghost use Rattle.or_model.specs.World.{World};
ghost use Rattle.or_model.specs.Caches.{hits, misses};
ghost use Rattle.or_mem.specs.Memory.{last_count};
ghost use Rattle.or_bus.specs.State.{counts_of};
ghost use Rattle.or_bus.specs.Represents.{Represents};
ghost use Rattle.or_bus.specs.Answers.{word_shown};
ghost use Rattle.or_bus.specs.Lines.{IsLineTold};

use crate::bus::Bus;
use or_model::Counts;

impl Bus {
    /// How often the core's cached loads found their line held, and how often not, each cut at the last value of 64
    /// bits. A load that reserves counts as a load.
    pub fn counts(&self, core: u32) -> Counts
        requires { core < self.now.cores }
        ensures value { result ≡ counts_of self.now.counts core }
        ensures told { (world : World) → Represents self.now world → result ≡ record { hits = min (hits world.accesses core) last_count; misses = min (misses world.accesses core) last_count } }
    {
        self.counts_here(core)
    }

    /// How often RAM was written, cut at the last value of 64 bits.
    pub fn writes(&self) -> u64
        ensures value { result ≡ self.now.writes }
        ensures told { (world : World) → Represents self.now world → result ≡ min (length world.writes) last_count }
    {
        self.writes_here()
    }

    /// The bytes that were sent to the console.
    pub fn console(&self) -> &[u8]
        ensures value { result.now ≡ console_of self.now.devices }
        ensures told { (world : World) → Represents self.now world → result.now ≡ console_of world.devices }
    {
        self.console_here()
    }

    /// The address and the bytes of the line that the core's cache holds at an index below 128, None exactly where it
    /// holds none there.
    pub fn line(&self, core: u32, index: u32) -> Option<(u32, [u8; 32])>
        requires core { core < self.now.cores }
        requires index { index < 128 }
        ensures { (world : World) → Represents self.now world → IsLineTold world core index result }
    {
        self.line_at(core, index)
    }

    /// The big-endian word of RAM at an address, None exactly where the address is no multiple of four or not in RAM.
    /// It changes no more than the count of reads.
    #[tactic(auto, using(crate::proofs::Worlds::reads))]
    pub fn peek(&mut self, pa: u32) -> Option<u32>
        ensures value { result ≡ word_shown self.old.ram pa }
        ensures after { self.new ≡ record self.old { reads = self.new.reads } }
        ensures tracks { (world : World) → Represents self.old world → Represents self.new world }
    {
        if pa % 4 != 0 || !self.has_ram(pa) {
            return None;
        }
        Some(self.read_word(pa))
    }

    /// Forgets the last access to RAM.
    pub fn forget(&mut self)
        ensures after { self.new ≡ record self.old { last = None } }
        ensures tracks { (world : World) → Represents self.old world → Represents self.new world }
    {
        self.set_last(None);
    }
}
