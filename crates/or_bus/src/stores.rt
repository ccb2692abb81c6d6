//! Stores.

ghost use Rattle.std.specs.Prelude.{◌≡◌, ℕ, ◌-◌, ◌+◌, ◌%◌, ◌<◌, ◌≤◌, length, Some, IfOk, OnOk, OnErr, if◌then◌else◌};
ghost use Rattle.or_parts.specs.Memory.{bytes_of};
ghost use Rattle.or_model.specs.World.{World, after_store, after_drop};
ghost use Rattle.or_model.specs.Bus.{store, store_conditional, after_conditional};
ghost use Rattle.or_bus.specs.Represents.{Represents};
ghost use Rattle.or_bus.specs.Answers.{IsAnswer, IsStored};
ghost use Rattle.or_bus.specs.Last.{access_of, last_after};

use crate::BusError;
use crate::access::AccessKind;
use crate::bus::Bus;
use or_model::Region;
use or_words::Width;

impl Bus {
    // A store to RAM.
    #[inline(always)]
    #[tactic(auto, using(crate::proofs::Worlds::track_store))]
    fn store_ram(
        &mut self,
        core: u32,
        pa: u32,
        width: Width,
        v: u32,
        cached: bool,
        kind: AccessKind,
    )
        requires core { core < self.old.cores }
        requires inside { pa < length self.old.ram }
        requires aligned { pa % bytes_of width ≡ 0 }
        ensures tracks { (world : World) → Represents self.old world → Represents self.new (after_store world core pa width v cached) }
        ensures last { self.new.last ≡ Some (access_of core pa kind) }
        ensures cores { self.new.cores ≡ self.old.cores }
        ensures spare { self.new.spare ≡ self.old.spare }
    {
        self.write(core, pa, width, v, cached);
        self.note(core, pa, kind);
    }

    // The end of an l.swa: the store, where it succeeds, and in both cases the end of the reservation.
    fn complete_conditional(&mut self, core: u32, pa: u32, v: u32, cached: bool, succeeds: bool)
        requires core { core < self.old.cores }
        requires inside { pa < length self.old.ram }
        requires aligned { pa % 4 ≡ 0 }
        ensures tracks { (world : World) → Represents self.old world → Represents self.new (after_conditional world core pa v cached succeeds) }
        ensures last { self.new.last ≡ (if succeeds then Some (access_of core pa AccessKind.Conditional) else self.old.last) }
        ensures cores { self.new.cores ≡ self.old.cores }
        ensures spare { self.new.spare ≡ self.old.spare }
    {
        if succeeds {
            self.store_ram(core, pa, Width::Word, v, cached, AccessKind::Conditional);
        }
        self.cancel(core);
    }

    /// A store of the low bits of a word at an address that is aligned for its width. RAM answers any width: all cores'
    /// reservations of the word end, other cores lose the line, and the storing core's own line is updated where the
    /// store is cached, and lost where it is not. A device answers the width that its row of the memory map has, and
    /// may take one byte of the console's room. Where nothing answers it is a bus error, and nothing changes.
    #[inline(always)]
    pub fn store(
        &mut self,
        core: u32,
        pa: u32,
        width: Width,
        v: u32,
        cached: bool,
    ) -> Result<(), BusError>
        requires core { core < self.old.cores }
        requires aligned { pa % bytes_of width ≡ 0 }
        requires spare { 0 < self.old.spare }
        ensures answer { (world : World) → Represents self.old world → IsStored (store world core pa width v cached) result self.new }
        ensures err { OnErr result (self.new ≡ self.old) }
        ensures last { self.new.last ≡ last_after self.old core pa AccessKind.Store }
        ensures cores { self.new.cores ≡ self.old.cores }
        ensures spare { self.old.spare ≤ self.new.spare + 1 }
    {
        match self.region(pa, width) {
            Region::Ram => {
                self.store_ram(core, pa, width, v, cached, AccessKind::Store);
                Ok(())
            }
            Region::Register(device, offset) => {
                self.store_device(device, offset, v);
                Ok(())
            }
            Region::Nothing => Err(BusError),
        }
    }

    /// A store of a word where the core is linked and its reservation of the word stands (l.swa; OpenRISC 1000
    /// Architecture Manual, section 7.3), at an address that is a multiple of four. It answers whether it stored, and
    /// ends the core's reservation in both cases. Only RAM answers: elsewhere it is a bus error, and nothing changes.
    #[tactic(auto, unfolding(or_model::specs::Bus::store_conditional))]
    pub fn swa(
        &mut self,
        core: u32,
        pa: u32,
        v: u32,
        cached: bool,
        linked: bool,
    ) -> Result<bool, BusError>
        requires core { core < self.old.cores }
        requires aligned { pa % 4 ≡ 0 }
        ensures answer { (world : World) → Represents self.old world → IsAnswer (store_conditional world core pa v cached linked) result self.new }
        ensures err { OnErr result (self.new ≡ self.old) }
        ensures last { IfOk result (λ stored. self.new.last ≡ (if stored then Some (access_of core pa AccessKind.Conditional) else self.old.last)) }
        ensures cores { self.new.cores ≡ self.old.cores }
        ensures spare { self.new.spare ≡ self.old.spare }
    {
        if !self.has_ram(pa) {
            return Err(BusError);
        }
        let succeeds = linked && self.stands(core, pa);
        self.complete_conditional(core, pa, v, cached, succeeds);
        Ok(succeeds)
    }

    /// Drops the core's line of an address, where it is held.
    pub fn drop_line(&mut self, core: u32, pa: u32)
        requires { core < self.old.cores }
        ensures tracks { (world : World) → Represents self.old world → Represents self.new (after_drop world core pa) }
        ensures last { self.new.last ≡ self.old.last }
        ensures cores { self.new.cores ≡ self.old.cores }
        ensures spare { self.new.spare ≡ self.old.spare }
    {
        self.forget_line(core, pa);
    }
}
