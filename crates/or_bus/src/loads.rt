//! Loads.

ghost use Rattle.std.specs.Prelude.{◌≡◌, ℕ, ◌-◌, ◌+◌, ◌%◌, ◌^◌, ◌<◌, ◌≤◌, true, false, length, slice_index, Some, OnOk, OnErr};
ghost use Rattle.or_words.specs.declared.Width.TheVariants.{Word};
ghost use Rattle.or_parts.specs.Memory.{value_at, bytes_of};
ghost use Rattle.or_parts.specs.Lines.{line_of, line_bytes, line_filled};
ghost use Rattle.or_model.specs.World.{World, after_load, marked};
ghost use Rattle.or_model.specs.Caches.{held};
ghost use Rattle.or_model.specs.Bus.{load, load_linked};
ghost use Rattle.or_mem.specs.Caches.{cache_of};
ghost use Rattle.or_bus.specs.State.{counted_up, counts_of, with_read, with_miss};
ghost use Rattle.or_bus.specs.Represents.{Represents};
ghost use Rattle.or_bus.specs.Answers.{IsAnswer};
ghost use Rattle.or_bus.specs.Last.{access_of, last_after};
ghost use Rattle.std.specs.Prelude.{slice_set};

use crate::BusError;
use crate::access::AccessKind;
use crate::bus::Bus;
use crate::narrow::{narrow, word_of};
use or_model::Region;
use or_words::Width;

impl Bus {
    // A cached load did not find its line, and brings it.
    #[inline(never)]
    fn miss(&mut self, core: u32, pa: u32) -> [u8; 32]
        requires core { core < self.old.cores }
        requires inside { pa < length self.old.ram }
        ensures value { result ≡ line_bytes self.old.ram pa }
        ensures inside { line_of pa + 32 ≤ length self.old.ram }
        ensures after { self.new ≡ record self.old {
          reads = counted_up self.old.reads;
          caches = slice_set self.old.caches core (line_filled (cache_of self.old.caches core) pa (line_bytes self.old.ram pa));
          counts = slice_set self.old.counts core (with_miss (counts_of self.old.counts core));
        } }
    {
        let line = self.read_line(pa);
        self.keep(core, pa, &line);
        self.count_miss(core);
        line
    }

    // The word at an address, through the core's cache.
    #[inline(always)]
    fn load_cached(&mut self, core: u32, pa: u32) -> u32
        requires core { core < self.old.cores }
        requires inside { pa < length self.old.ram }
        requires aligned { pa % 4 ≡ 0 }
        ensures value { result ≡ value_at self.old.ram pa Word }
        ensures tracks { (world : World) → Represents self.old world → Represents self.new (after_load world core pa true) }
        ensures hit { (world : World) → Represents self.old world → held world.accesses core (line_of pa) ≡ true → self.new.reads ≡ self.old.reads }
        ensures miss { (world : World) → Represents self.old world → held world.accesses core (line_of pa) ≡ false → self.new.reads ≡ counted_up self.old.reads }
        ensures cores { self.new.cores ≡ self.old.cores }
        ensures spare { self.new.spare ≡ self.old.spare }
    {
        match self.look(core, pa) {
            Some(word) => {
                self.count_hit(core);
                word
            }
            None => {
                let line = self.miss(core, pa);
                word_of(&line, pa)
            }
        }
    }

    // The word at an address, past the caches.
    #[inline]
    fn load_plain(&mut self, core: u32, pa: u32) -> u32
        requires inside { pa < length self.old.ram }
        requires aligned { pa % 4 ≡ 0 }
        ensures value { result ≡ value_at self.old.ram pa Word }
        ensures tracks { (world : World) → Represents self.old world → Represents self.new (after_load world core pa false) }
        ensures cores { self.new.cores ≡ self.old.cores }
        ensures spare { self.new.spare ≡ self.old.spare }
    {
        self.read_word(pa)
    }

    // The word at an address.
    #[inline(always)]
    fn load_word(&mut self, core: u32, pa: u32, cached: bool) -> u32
        requires core { core < self.old.cores }
        requires inside { pa < length self.old.ram }
        requires aligned { pa % 4 ≡ 0 }
        ensures value { result ≡ value_at self.old.ram pa Word }
        ensures tracks { (world : World) → Represents self.old world → Represents self.new (after_load world core pa cached) }
        ensures hit { cached ≡ true → (world : World) → Represents self.old world → held world.accesses core (line_of pa) ≡ true → self.new.reads ≡ self.old.reads }
        ensures miss { cached ≡ true → (world : World) → Represents self.old world → held world.accesses core (line_of pa) ≡ false → self.new.reads ≡ counted_up self.old.reads }
        ensures cores { self.new.cores ≡ self.old.cores }
        ensures spare { self.new.spare ≡ self.old.spare }
    {
        if cached {
            self.load_cached(core, pa)
        } else {
            self.load_plain(core, pa)
        }
    }

    // The value at an address, made of the word that it lies in.
    #[inline(always)]
    #[tactic(auto, using(crate::proofs::Ranges::parts))]
    fn load_part(&mut self, core: u32, pa: u32, width: Width, cached: bool) -> u32
        requires core { core < self.old.cores }
        requires inside { pa < length self.old.ram }
        requires aligned { pa % bytes_of width ≡ 0 }
        requires bytes { (i : ℕ) → slice_index self.old.ram i < 256 }
        ensures value { result ≡ value_at self.old.ram pa width }
        ensures tracks { (world : World) → Represents self.old world → Represents self.new (after_load world core pa cached) }
        ensures hit { cached ≡ true → (world : World) → Represents self.old world → held world.accesses core (line_of pa) ≡ true → self.new.reads ≡ self.old.reads }
        ensures miss { cached ≡ true → (world : World) → Represents self.old world → held world.accesses core (line_of pa) ≡ false → self.new.reads ≡ counted_up self.old.reads }
        ensures cores { self.new.cores ≡ self.old.cores }
        ensures spare { self.new.spare ≡ self.old.spare }
    {
        let word = self.load_word(core, pa - pa % 4, cached);
        narrow(word, pa % 4, width)
    }

    // A load from RAM.
    #[inline(always)]
    fn load_ram(&mut self, core: u32, pa: u32, width: Width, cached: bool) -> u32
        requires core { core < self.old.cores }
        requires inside { pa < length self.old.ram }
        requires aligned { pa % bytes_of width ≡ 0 }
        requires bytes { (i : ℕ) → slice_index self.old.ram i < 256 }
        ensures value { result ≡ value_at self.old.ram pa width }
        ensures tracks { (world : World) → Represents self.old world → Represents self.new (after_load world core pa cached) }
        ensures hit { cached ≡ true → (world : World) → Represents self.old world → held world.accesses core (line_of pa) ≡ true → self.new.reads ≡ self.old.reads }
        ensures miss { cached ≡ true → (world : World) → Represents self.old world → held world.accesses core (line_of pa) ≡ false → self.new.reads ≡ counted_up self.old.reads }
        ensures last { self.new.last ≡ Some (access_of core pa AccessKind.Load) }
        ensures cores { self.new.cores ≡ self.old.cores }
        ensures spare { self.new.spare ≡ self.old.spare }
    {
        let value = self.load_part(core, pa, width, cached);
        self.note(core, pa, AccessKind::Load);
        value
    }

    // A load from RAM that reserves its word.
    #[inline]
    fn load_linked_ram(&mut self, core: u32, pa: u32, cached: bool) -> u32
        requires core { core < self.old.cores }
        requires inside { pa < length self.old.ram }
        requires aligned { pa % 4 ≡ 0 }
        ensures value { result ≡ value_at self.old.ram pa Word }
        ensures tracks { (world : World) → Represents self.old world → Represents self.new (marked (after_load world core pa cached) core pa) }
        ensures hit { cached ≡ true → (world : World) → Represents self.old world → held world.accesses core (line_of pa) ≡ true → self.new.reads ≡ self.old.reads }
        ensures miss { cached ≡ true → (world : World) → Represents self.old world → held world.accesses core (line_of pa) ≡ false → self.new.reads ≡ counted_up self.old.reads }
        ensures last { self.new.last ≡ Some (access_of core pa AccessKind.Linked) }
        ensures cores { self.new.cores ≡ self.old.cores }
        ensures spare { self.new.spare ≡ self.old.spare }
    {
        let value = self.load_word(core, pa, cached);
        self.reserve(core, pa);
        self.note(core, pa, AccessKind::Linked);
        value
    }

    /// A load at an address that is aligned for its width; the value is zero-extended. RAM answers any width, through
    /// the core's data cache or past it; a device answers the width that its row of the memory map has. Where nothing
    /// answers it is a bus error, and nothing changes.
    #[inline(always)]
    pub fn load(&mut self, core: u32, pa: u32, width: Width, cached: bool) -> Result<u32, BusError>
        requires core { core < self.old.cores }
        requires aligned { pa % bytes_of width ≡ 0 }
        ensures answer { (world : World) → Represents self.old world → IsAnswer (load world core pa width cached) result self.new }
        ensures err { OnErr result (self.new ≡ self.old) }
        ensures hit { OnOk result (cached ≡ true → (world : World) → Represents self.old world → held world.accesses core (line_of pa) ≡ true → self.new.reads ≡ self.old.reads) }
        ensures miss { OnOk result (cached ≡ true → pa < 2 ^ 31 → (world : World) → Represents self.old world → held world.accesses core (line_of pa) ≡ false → self.new.reads ≡ counted_up self.old.reads) }
        ensures last { self.new.last ≡ last_after self.old core pa AccessKind.Load }
        ensures cores { self.new.cores ≡ self.old.cores }
        ensures spare { self.new.spare ≡ self.old.spare }
    {
        match self.region(pa, width) {
            Region::Ram => Ok(self.load_ram(core, pa, width, cached)),
            Region::Register(device, offset) => Ok(self.load_device(device, offset)),
            Region::Nothing => Err(BusError),
        }
    }

    /// A load that reserves its word (l.lwa; OpenRISC 1000 Architecture Manual, section 7.3) at an address that is a
    /// multiple of four. Only RAM answers: elsewhere it is a bus error, and nothing changes.
    #[tactic(auto, unfolding(or_model::specs::Bus::load_linked))]
    pub fn lwa(&mut self, core: u32, pa: u32, cached: bool) -> Result<u32, BusError>
        requires core { core < self.old.cores }
        requires aligned { pa % 4 ≡ 0 }
        ensures answer { (world : World) → Represents self.old world → IsAnswer (load_linked world core pa cached) result self.new }
        ensures err { OnErr result (self.new ≡ self.old) }
        ensures hit { OnOk result (cached ≡ true → (world : World) → Represents self.old world → held world.accesses core (line_of pa) ≡ true → self.new.reads ≡ self.old.reads) }
        ensures miss { OnOk result (cached ≡ true → (world : World) → Represents self.old world → held world.accesses core (line_of pa) ≡ false → self.new.reads ≡ counted_up self.old.reads) }
        ensures last { OnOk result (self.new.last ≡ Some (access_of core pa AccessKind.Linked)) }
        ensures cores { self.new.cores ≡ self.old.cores }
        ensures spare { self.new.spare ≡ self.old.spare }
    {
        if !self.has_ram(pa) {
            return Err(BusError);
        }
        Ok(self.load_linked_ram(core, pa, cached))
    }
}
