//! Loads and stores: where they go, and what the bus answers.

ghost use Rattle.std.specs.Prelude.{◌≡◌, ◌<◌, ◌%◌, OnErr, false};
ghost use Rattle.std.specs.Option.{option_or};
ghost use Rattle.or_words.specs.declared.Width.TheVariants.{Word};
ghost use Rattle.or_parts.specs.Memory.{bytes_of};
ghost use Rattle.or_model.specs.World.{World};
ghost use Rattle.or_model.specs.Routes.{data_route};
ghost use Rattle.or_model.specs.DataAccess.{loaded, stored_value, loaded_linked, stored_conditional};
ghost use Rattle.or_bus.specs.Represents.{Represents};
ghost use Rattle.or_tlb.specs.Rights.{is_fetch};
ghost use Rattle.or_model.specs.Counts.{SameCounts};
ghost use Rattle.or_core.specs.Follows.{IsOutcome, IsAlignedBy, KeepsBus};
ghost use Rattle.or_core.specs.Access.{access_at};

use crate::state::{Core, has};
use or_bus::{AccessKind, Bus};
use or_model::Route;
use or_parts::status::{DCE, DME, SM};
use or_parts::{Cause, Right, TlbFault};
use or_words::{ExtendKind, Width, extend};

/// Physical addresses from here on are not cached.
pub(crate) const UNCACHED: u32 = 0x8000_0000;

// How many bytes an access has.
#[inline]
fn size_of(width: Width) -> u32
    ensures value { result ≡ bytes_of width }
    ensures some { 0 < result }
{
    match width {
        Width::Byte => 1,
        Width::Half => 2,
        Width::Word => 4,
    }
}

impl Core {
    // Where a load or a store goes.
    #[inline(always)]
    #[tactic(auto, using(crate::proofs::Aligned::same_aligned), unfolding(or_model::specs::Routes::data_route))]
    fn data_route(&self, ea: u32, width: Width, right: Right) -> Route
        requires { is_fetch right ≡ false }
        ensures value { result ≡ data_route self.now ea width right }
        ensures aligned { IsAlignedBy (bytes_of width) result }
    {
        let sr = self.sprs.sr();
        if ea % size_of(width) != 0 {
            return Route::Refused(Cause::Alignment(ea));
        }
        if !has(sr, DME) {
            return Route::At(ea, has(sr, DCE) && ea < UNCACHED);
        }
        match self.data_tlb.translate(ea, right, has(sr, SM)) {
            Ok(phys) => Route::At(
                phys.pa,
                has(sr, DCE) && phys.pa < UNCACHED && !phys.inhibited,
            ),
            Err(TlbFault::Miss) => Route::Refused(Cause::DataMiss(ea)),
            Err(TlbFault::PageFault) => Route::Refused(Cause::DataPageFault(ea)),
        }
    }

    // Loads into register d.
    #[inline(always)]
    #[tactic(auto, unfolding(or_model::specs::DataAccess::loaded, or_model::specs::Execute::put))]
    pub(crate) fn load(
        &mut self,
        bus: &mut Bus,
        d: u32,
        width: Width,
        kind: ExtendKind,
        ea: u32,
    ) -> Result<(), Cause>
        requires register { d < 32 }
        requires known { self.old.number < bus.old.cores }
        ensures outcome { (world : World) → Represents bus.old world → IsOutcome (loaded self.old world d width kind ea) result self.new bus.new }
        ensures err { OnErr result ((self.new ≡ self.old) × (bus.new ≡ bus.old)) }
        ensures counts { SameCounts self.old self.new }
        ensures access { (world : World) → Represents bus.old world → bus.new.last ≡ option_or (access_at self.old world AccessKind.Load (data_route self.old ea width Right.Load)) bus.old.last }
        ensures bus { KeepsBus bus.old bus.new }
    {
        match self.data_route(ea, width, Right::Load) {
            Route::Refused(cause) => Err(cause),
            Route::At(pa, cached) => match bus.load(self.number(), pa, width, cached) {
                Ok(value) => {
                    self.put(d, extend(kind, value));
                    Ok(())
                }
                Err(_) => Err(Cause::BusError(ea)),
            },
        }
    }

    // l.lwa: loads a word into register d and reserves it.
    #[tactic(auto, unfolding(or_model::specs::DataAccess::loaded_linked, or_model::specs::Execute::put))]
    pub(crate) fn load_linked(&mut self, bus: &mut Bus, d: u32, ea: u32) -> Result<(), Cause>
        requires register { d < 32 }
        requires known { self.old.number < bus.old.cores }
        ensures outcome { (world : World) → Represents bus.old world → IsOutcome (loaded_linked self.old world d ea) result self.new bus.new }
        ensures err { OnErr result ((self.new ≡ self.old) × (bus.new ≡ bus.old)) }
        ensures counts { SameCounts self.old self.new }
        ensures access { (world : World) → Represents bus.old world → bus.new.last ≡ option_or (access_at self.old world AccessKind.Linked (data_route self.old ea Word Right.Load)) bus.old.last }
        ensures bus { KeepsBus bus.old bus.new }
    {
        match self.data_route(ea, Width::Word, Right::Load) {
            Route::Refused(cause) => Err(cause),
            Route::At(pa, cached) => match bus.lwa(self.number(), pa, cached) {
                Ok(value) => {
                    self.set_linked(true);
                    self.put(d, value);
                    Ok(())
                }
                Err(_) => Err(Cause::BusError(ea)),
            },
        }
    }

    // Stores the low bits of a word.
    #[inline(always)]
    #[tactic(auto, unfolding(or_model::specs::DataAccess::stored_value))]
    pub(crate) fn store(
        &mut self,
        bus: &mut Bus,
        v: u32,
        width: Width,
        ea: u32,
    ) -> Result<(), Cause>
        requires known { self.old.number < bus.old.cores }
        requires spare { 0 < bus.old.spare }
        ensures outcome { (world : World) → Represents bus.old world → IsOutcome (stored_value self.old world v width ea) result self.new bus.new }
        ensures err { OnErr result ((self.new ≡ self.old) × (bus.new ≡ bus.old)) }
        ensures counts { SameCounts self.old self.new }
        ensures access { (world : World) → Represents bus.old world → bus.new.last ≡ option_or (access_at self.old world AccessKind.Store (data_route self.old ea width Right.Store)) bus.old.last }
        ensures bus { KeepsBus bus.old bus.new }
    {
        match self.data_route(ea, width, Right::Store) {
            Route::Refused(cause) => Err(cause),
            Route::At(pa, cached) => match bus.store(self.number(), pa, width, v, cached) {
                Ok(()) => {
                    self.go_on();
                    Ok(())
                }
                Err(_) => Err(Cause::BusError(ea)),
            },
        }
    }

    // l.swa: stores a word where the link is set and the reservation stands, and tells so in the flag.
    #[tactic(auto, unfolding(or_model::specs::DataAccess::stored_conditional))]
    pub(crate) fn store_conditional(&mut self, bus: &mut Bus, v: u32, ea: u32) -> Result<(), Cause>
        requires known { self.old.number < bus.old.cores }
        ensures outcome { (world : World) → Represents bus.old world → IsOutcome (stored_conditional self.old world v ea) result self.new bus.new }
        ensures err { OnErr result ((self.new ≡ self.old) × (bus.new ≡ bus.old)) }
        ensures counts { SameCounts self.old self.new }
        ensures access { (world : World) → Represents bus.old world → bus.new.last ≡ option_or (access_at self.old world AccessKind.Conditional (data_route self.old ea Word Right.Store)) bus.old.last }
        ensures bus { KeepsBus bus.old bus.new }
    {
        match self.data_route(ea, Width::Word, Right::Store) {
            Route::Refused(cause) => Err(cause),
            Route::At(pa, cached) => match bus.swa(self.number(), pa, v, cached, self.linked()) {
                Ok(succeeds) => {
                    self.set_flag(succeeds);
                    self.set_linked(false);
                    self.go_on();
                    Ok(())
                }
                Err(_) => Err(Cause::BusError(ea)),
            },
        }
    }

    fn linked(&self) -> bool
        ensures { result ≡ self.now.linked }
    {
        self.linked
    }

    fn set_linked(&mut self, linked: bool)
        ensures state { self.new ≡ record self.old { linked = linked } }
        ensures counts { SameCounts self.old self.new }
    {
        self.linked = linked;
    }
}
