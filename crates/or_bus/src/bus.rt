//! The bus and its parts, one change at a time.

ghost use Rattle.std.specs.Prelude.{◌≡◌, ◌≢◌, ℕ, ◌+◌, ◌-◌, ◌*◌, ◌%◌, ◌<◌, ◌≤◌, ◌↔◌, min, length, map, slice_set, slice_index, slice_index_or, nat_lt, Some, None, ◌⊎◌, OnOk, OnErr, IsOk, IfOk, IsTrue, List};
ghost use Rattle.or_words.specs.declared.Width.TheVariants.{Word};
ghost use Rattle.or_words.specs.Settings.{Fits, ram_bytes};
ghost use Rattle.or_parts.specs.Memory.{value_at, stored, bytes_of, word_address};
ghost use Rattle.or_parts.specs.Lines.{line_of, line_bytes, line_at_index, held_word, line_filled, line_dropped};
ghost use Rattle.or_parts.specs.Devices.{console_of, device_value, device_after_read, device_written, interrupt_lines};
ghost use Rattle.or_model.specs.World.{World, marked, unmarked, new_world, stands};
ghost use Rattle.or_model.specs.Bus.{region, region_of};
ghost use Rattle.or_dev.specs.Devices.{HasRegister};
ghost use Rattle.or_bus.specs.Places.{IsInside, is_ram};
ghost use Rattle.or_mem.specs.Caches.{cache_of, address_and_bytes};
ghost use Rattle.or_reservations.specs.Slots.{is_reserved};
ghost use Rattle.or_bus.specs.State.{counted_up, counts_of, with_read, with_hit, with_miss};
ghost use Rattle.or_bus.specs.Coherence.{IsSound};
ghost use Rattle.or_bus.specs.Writing.{IsWritten, AreWritten};
ghost use Rattle.or_bus.specs.Represents.{Represents};
ghost use Rattle.or_bus.specs.Last.{access_of};

use crate::access::{Access, AccessKind};
use crate::region::region_of;
use or_dev::Devices;
use or_mem::{DCaches, Ram};
use or_model::{Counts, Region};
use or_parts::memory_map::Device;
use or_reservations::Reservations;
use or_words::{Config, NoMemory, Width};
use std::alloc::Global;
use std::marker::Model;

/// RAM, the cores' data caches and reservations, the devices, and how often the caches helped.
#[derive(Drop)]
pub struct Bus {
    cores: u32,
    ram: Ram,
    caches: DCaches,
    reservations: Reservations,
    counts: [Counts; 8],
    writes: u64,
    devices: Devices,
    last: Option<Access>,
}

impl Model for Bus {
    ghost use Rattle.or_bus.specs.State.{BusState};
    ghost use Rattle.or_bus.specs.Coherence.{IsSound};

    ghost Value = { BusState };

    ghost view = { λ a. record { cores = a.cores; ram = a.ram.bytes; reads = a.ram.reads; caches = a.caches; slots = a.reservations; counts = a.counts; writes = a.writes; devices = a.devices.state; spare = a.devices.spare; last = a.last } };

    ghost invariant = { λ a. IsSound (record { cores = a.cores; ram = a.ram.bytes; reads = a.ram.reads; caches = a.caches; slots = a.reservations; counts = a.counts; writes = a.writes; devices = a.devices.state; spare = a.devices.spare; last = a.last }) };
}

// The counts after a hit.
#[inline]
fn one_more_hit(counts: Counts) -> Counts
    ensures { result ≡ with_hit counts }
{
    Counts {
        hits: counts.hits.saturating_add(1),
        misses: counts.misses,
    }
}

// The counts after a miss.
#[inline]
fn one_more_miss(counts: Counts) -> Counts
    ensures { result ≡ with_miss counts }
{
    Counts {
        hits: counts.hits,
        misses: counts.misses.saturating_add(1),
    }
}

impl Bus {
    /// A bus for the cores of a configuration over its RAM: no line is held, no word is reserved, nothing is counted
    /// but the reads of RAM so far, and the devices are at reset with the input left whole. It reserves
    /// cores × budget bytes of console, and no later call but `copy` takes memory. It fails only where memory runs out.
    pub fn open(alloc: Global, config: &Config, ram: Ram, input: Vec<u8>) -> Result<Bus, NoMemory>
        requires fits { Fits config.now }
        requires size { length ram.bytes ≡ ram_bytes config.now }
        ensures start { IfOk result (λ bus. Represents bus (new_world ram.bytes config.now.cores input.items)) }
        ensures cores { IfOk result (λ bus. bus.cores ≡ config.now.cores) }
        ensures spare { IfOk result (λ bus. bus.spare ≡ config.now.cores * config.now.budget) }
        ensures reads { IfOk result (λ bus. bus.reads ≡ ram.reads) }
        ensures last { IfOk result (λ bus. bus.last ≡ None) }
    {
        let caches = DCaches::open(alloc, config.cores)?;
        let room = config.cores as usize * config.budget as usize;
        let devices = Devices::open(alloc, config.cores, input, room)?;
        Ok(Bus {
            cores: config.cores,
            ram,
            caches,
            reservations: Reservations::empty(),
            counts: [Counts { hits: 0, misses: 0 }; 8],
            writes: 0,
            devices,
            last: None,
        })
    }

    /// A copy that equals this bus as it stands after the call, with the same room for console; it counts as one read
    /// of RAM. It fails only where memory runs out, and the read may then be counted too.
    pub fn copy(&mut self, alloc: Global) -> Result<Bus, NoMemory>
        ensures copy { IfOk result (λ bus. bus ≡ self.new) }
        ensures counted { OnOk result (self.new ≡ with_read self.old) }
        ensures failed { OnErr result ((self.new ≡ with_read self.old) ⊎ (self.new ≡ self.old)) }
        ensures tracks { (world : World) → Represents self.old world → Represents self.new world }
    {
        self.copy_parts(alloc)
    }

    fn copy_parts(&mut self, alloc: Global) -> Result<Bus, NoMemory>
        ensures copy { IfOk result (λ bus. bus ≡ self.new) }
        ensures counted { OnOk result (self.new ≡ with_read self.old) }
        ensures failed { OnErr result ((self.new ≡ with_read self.old) ⊎ (self.new ≡ self.old)) }
        ensures after { self.new ≡ record self.old { reads = self.new.reads } }
    {
        let caches = self.caches.copy(alloc)?;
        let devices = self.devices.copy(alloc)?;
        let ram = self.ram.copy(alloc)?;
        Ok(Bus {
            cores: self.cores,
            ram,
            caches,
            reservations: self.reservations.copy(),
            counts: self.counts,
            writes: self.writes,
            devices,
            last: self.last,
        })
    }

    /// Whether RAM answers at an address.
    #[inline]
    pub(crate) fn has_ram(&self, pa: u32) -> bool
        ensures answer { IsTrue result ↔ (pa < length self.now.ram) }
        ensures bytes { (i : ℕ) → slice_index self.now.ram i < 256 }
        ensures sound { IsSound self.now }
    {
        pa < self.ram.size()
    }

    /// What answers an access of this width at this address.
    #[inline]
    pub(crate) fn region(&self, pa: u32, width: Width) -> Region
        requires { pa % bytes_of width ≡ 0 }
        ensures told { (world : World) → Represents self.now world → region world pa width ≡ result }
        ensures inside { IsInside (length self.now.ram) self.now.cores pa result }
        ensures ram { is_ram result ≡ nat_lt pa (length self.now.ram) }
        ensures bytes { (i : ℕ) → slice_index self.now.ram i < 256 }
    {
        self.region_here(pa, width)
    }

    #[inline]
    fn region_here(&self, pa: u32, width: Width) -> Region
        requires { pa % bytes_of width ≡ 0 }
        ensures value { result ≡ region_of (length self.now.ram) self.now.cores pa width }
        ensures inside { IsInside (length self.now.ram) self.now.cores pa result }
        ensures ram { is_ram result ≡ nat_lt pa (length self.now.ram) }
        ensures bytes { (i : ℕ) → slice_index self.now.ram i < 256 }
    {
        region_of(self.ram.size(), self.cores, pa, width)
    }

    /// Reads the register at an offset in a device.
    pub(crate) fn load_device(&mut self, device: Device, offset: u32) -> u32
        requires { HasRegister self.old.cores device offset }
        ensures value { result ≡ device_value self.old.devices device offset }
        ensures after { self.new ≡ record self.old { devices = device_after_read self.old.devices device offset } }
        ensures sound { IsSound self.new }
    {
        self.devices.load(device, offset)
    }

    /// Writes a word to the register at an offset in a device.
    pub(crate) fn store_device(&mut self, device: Device, offset: u32, v: u32)
        requires register { HasRegister self.old.cores device offset }
        requires room { 0 < self.old.spare }
        ensures after { self.new ≡ record self.old { devices = device_written self.old.devices device offset v; spare = self.new.spare } }
        ensures spare { self.old.spare ≤ self.new.spare + 1 }
        ensures sound { IsSound self.new }
    {
        self.devices.store(device, offset, v);
    }

    /// The core's interrupt lines, each at its bit of PICSR.
    #[inline]
    pub fn lines(&self, core: u32) -> u32
        requires { core < self.now.cores }
        ensures value { result ≡ interrupt_lines self.now.devices core }
        ensures told { (world : World) → Represents self.now world → result ≡ interrupt_lines world.devices core }
    {
        self.devices.lines(core)
    }

    /// The word at an address in the line that the core holds, which is that of RAM.
    #[inline(always)]
    pub(crate) fn look(&self, core: u32, pa: u32) -> Option<u32>
        requires core { core < self.now.cores }
        requires aligned { pa % 4 ≡ 0 }
        ensures value { result ≡ held_word (cache_of self.now.caches core) pa }
        ensures sound { IsSound self.now }
    {
        self.caches.look(core, pa)
    }

    /// A cached load found its line.
    #[inline]
    pub(crate) fn count_hit(&mut self, core: u32)
        requires { core < self.old.cores }
        ensures { self.new ≡ record self.old { counts = slice_set self.old.counts core (with_hit (counts_of self.old.counts core)) } }
    {
        let counts = self.counts[core as usize];
        self.counts[core as usize] = one_more_hit(counts);
    }

    /// A cached load did not find its line.
    pub(crate) fn count_miss(&mut self, core: u32)
        requires { core < self.old.cores }
        ensures { self.new ≡ record self.old { counts = slice_set self.old.counts core (with_miss (counts_of self.old.counts core)) } }
    {
        let counts = self.counts[core as usize];
        self.counts[core as usize] = one_more_miss(counts);
    }

    /// The line of RAM that holds an address.
    pub(crate) fn read_line(&mut self, pa: u32) -> [u8; 32]
        requires { pa < length self.old.ram }
        ensures value { result ≡ line_bytes self.old.ram pa }
        ensures inside { line_of pa + 32 ≤ length self.old.ram }
        ensures after { self.new ≡ with_read self.old }
    {
        self.ram.read_line(pa)
    }

    /// Keeps a line of RAM for a core.
    pub(crate) fn keep(&mut self, core: u32, pa: u32, line: &[u8; 32])
        requires core { core < self.old.cores }
        requires inside { line_of pa + 32 ≤ length self.old.ram }
        requires true_line { line.now ≡ line_bytes self.old.ram pa }
        ensures { self.new ≡ record self.old { caches = slice_set self.old.caches core (line_filled (cache_of self.old.caches core) pa (line_bytes self.old.ram pa)) } }
    {
        self.caches.fill(core, pa, line);
    }

    /// A read of RAM past the caches.
    #[inline]
    pub(crate) fn read_word(&mut self, pa: u32) -> u32
        requires inside { pa < length self.old.ram }
        requires aligned { pa % 4 ≡ 0 }
        ensures value { result ≡ value_at self.old.ram pa Word }
        ensures after { self.new ≡ with_read self.old }
    {
        self.ram.read_word(pa)
    }

    /// Writes RAM and the core's line or none, and ends the lines and the reservations that the write makes stale.
    #[inline(always)]
    pub(crate) fn write(&mut self, core: u32, pa: u32, width: Width, v: u32, cached: bool)
        requires core { core < self.old.cores }
        requires inside { pa < length self.old.ram }
        requires aligned { pa % bytes_of width ≡ 0 }
        ensures written { IsWritten self.old core pa v width cached self.new }
        ensures sound { IsSound self.old }
    {
        write_through(&mut self.ram, &mut self.caches, core, pa, width, v, cached);
        self.reservations.wrote(pa - pa % 4);
        self.writes = self.writes.saturating_add(1);
    }

    fn set_slot(&mut self, core: u32, word: u32)
        requires { core < self.old.cores }
        ensures after { self.new ≡ record self.old { slots = slice_set self.old.slots core (Some word) } }
        ensures sound { IsSound self.old }
    {
        self.reservations.reserve(core, word);
    }

    fn clear_slot(&mut self, core: u32)
        requires { core < self.old.cores }
        ensures after { self.new ≡ record self.old { slots = slice_set self.old.slots core None } }
        ensures sound { IsSound self.old }
    {
        self.reservations.cancel(core);
    }

    /// The core reserves a word.
    #[inline]
    pub(crate) fn reserve(&mut self, core: u32, word: u32)
        requires { core < self.old.cores }
        ensures tracks { (world : World) → Represents self.old world → Represents self.new (marked world core word) }
        ensures after { self.new ≡ record self.old { slots = self.new.slots } }
    {
        self.set_slot(core, word);
    }

    /// The core has no reservation any more.
    #[inline]
    pub(crate) fn cancel(&mut self, core: u32)
        requires { core < self.old.cores }
        ensures tracks { (world : World) → Represents self.old world → Represents self.new (unmarked world core) }
        ensures after { self.new ≡ record self.old { slots = self.new.slots } }
    {
        self.clear_slot(core);
    }

    /// Whether the core's reservation of a word stands.
    #[inline]
    pub(crate) fn stands(&self, core: u32, word: u32) -> bool
        requires { core < self.now.cores }
        ensures value { result ≡ is_reserved self.now.slots core word }
        ensures tells { (world : World) → Represents self.now world → result ≡ stands world core word }
        ensures sound { IsSound self.now }
    {
        self.reservations.stands(core, word)
    }

    /// The core no longer holds the line of an address.
    pub(crate) fn forget_line(&mut self, core: u32, pa: u32)
        requires { core < self.old.cores }
        ensures after { self.new ≡ record self.old { caches = slice_set self.old.caches core (line_dropped (cache_of self.old.caches core) pa) } }
        ensures sound { IsSound self.old }
    {
        self.caches.drop_line(core, pa);
    }

    /// The line that stands at an index of the core's cache.
    pub(crate) fn line_at(&self, core: u32, index: u32) -> Option<(u32, [u8; 32])>
        requires core { core < self.now.cores }
        requires index { index < 128 }
        ensures value { result ≡ address_and_bytes (line_at_index (cache_of self.now.caches core) index) }
        ensures sound { IsSound self.now }
    {
        self.caches.line(core, index)
    }

    /// Notes an access to RAM as the last one.
    #[inline]
    pub(crate) fn note(&mut self, core: u32, pa: u32, kind: AccessKind)
        ensures after { self.new ≡ record self.old { last = Some (access_of core pa kind) } }
        ensures tracks { (world : World) → Represents self.old world → Represents self.new world }
    {
        self.set_last(Some(Access {
            core,
            word: pa - pa % 4,
            kind,
        }));
    }

    #[inline]
    pub(crate) fn set_last(&mut self, last: Option<Access>)
        ensures { self.new ≡ record self.old { last = last } }
    {
        self.last = last;
    }

    /// How often the core's cached loads found their line, and how often not.
    pub(crate) fn counts_here(&self, core: u32) -> Counts
        requires { core < self.now.cores }
        ensures { result ≡ counts_of self.now.counts core }
    {
        self.counts[core as usize]
    }

    /// How often RAM was written.
    pub(crate) fn writes_here(&self) -> u64
        ensures { result ≡ self.now.writes }
    {
        self.writes
    }

    /// The bytes that were sent.
    pub(crate) fn console_here(&self) -> &[u8]
        ensures { result.now ≡ console_of self.now.devices }
    {
        self.devices.console()
    }

    /// How often RAM was read, cut at the last value of 64 bits.
    pub fn reads(&self) -> u64
        ensures { result ≡ self.now.reads }
    {
        self.ram.reads()
    }

    /// The last access to RAM by a load, a store, a load that reserves, or a conditional store that stored, since the
    /// bus was opened or last told to forget. None exactly where there was none.
    pub fn last(&self) -> Option<Access>
        ensures { result ≡ self.now.last }
    {
        self.last
    }

    /// The bytes of RAM and of the console, alone.
    pub fn into_parts(self) -> (Vec<u8>, Vec<u8>)
        ensures ram { result.0.items ≡ self.ram }
        ensures console { result.1.items ≡ console_of self.devices }
    {
        let Bus { ram, devices, .. } = self;
        (ram.into_bytes(), devices.into_console())
    }
}

// Writes RAM and the core's line, where the store is cached, and drops all other lines of the address.
#[inline(always)]
fn write_through(
    ram: &mut Ram,
    caches: &mut DCaches,
    core: u32,
    pa: u32,
    width: Width,
    v: u32,
    cached: bool,
)
    requires core { core < length caches.old }
    requires inside { pa < length ram.old.bytes }
    requires aligned { pa % bytes_of width ≡ 0 }
    ensures bytes { ram.new ≡ record ram.old { bytes = stored ram.old.bytes pa width v } }
    ensures lines { AreWritten caches.old core pa v width cached caches.new }
{
    if cached {
        caches.update(core, pa, width, v);
    } else {
        caches.drop_line(core, pa);
    }
    ram.write(pa, width, v);
    caches.snoop(core, pa);
}
