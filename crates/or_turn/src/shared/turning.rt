//! A stay at the bus.
ghost use Rattle.std.specs.Prelude.{◌≡◌, ◌≢◌, ℕ, List, Bool, false, ◌+◌, ◌%◌, ◌<◌, ◌≤◌, [], ◌∷◌, ◌++◌, Some, None, IsTrue, vec_capacity, vec_len};
ghost use Rattle.or_model.specs.World.{World};
ghost use Rattle.or_bus.specs.Represents.{Represents};
ghost use Rattle.or_core.specs.Follows.{IsState, KeepsBus};
ghost use Rattle.or_replay.specs.Marks.{with_mark};
ghost use Rattle.or_turn.specs.declared.view.Settings.{Settings};
ghost use Rattle.or_turn.specs.SeatViews.{core_of, Turned};
ghost use Rattle.or_turn.specs.Stays.{turn_from, HasBusBegun, MadeTurns};
ghost use Rattle.or_turn.specs.Units.{view, begun, cores, IsOf};

use super::Shared;
use super::steps::{SERVING, wait_for_bus};
use crate::pace::Pace;
use crate::plays::Finish;
use crate::unit::TurnUnit;
use crate::view::Transfer;
use or_core::Core;
use or_sched::Mark;
use or_waiters::StayEnd;
use or_words::limits::BLOCK;
use std::sync::Wait;

// Adds the mark of a block that has ended.
fn mark_block(transfer: &mut Transfer)
    requires room { vec_len transfer.old.schedule % BLOCK ≡ 0 → vec_len transfer.old.marks < vec_capacity transfer.old.marks }
    ensures marks { (world : World) → Represents transfer.old.bus.value world → transfer.new.marks.items ≡ with_mark (vec_len transfer.old.schedule) world transfer.old.marks.items }
    ensures same { (transfer.new.bus.value ≡ transfer.old.bus.value) × (transfer.new.schedule ≡ transfer.old.schedule) }
    ensures kept { vec_capacity transfer.new.marks ≡ vec_capacity transfer.old.marks }
{
    if transfer.schedule.len() % BLOCK == 0 {
        transfer.marks.push_reserved(Mark {
            writes: transfer.bus.writes(),
            console: transfer.bus.console().len() as u64,
        });
    }
}

// Makes a turn on the bus, or the rest of one that has begun, and writes it into the schedule.
fn make_turn(core: &mut Core, transfer: &mut Transfer, begun: Option<bool>)
    requires running { begun ≢ Some false → core.old.stop ≡ None }
    requires known { (core.old.number < transfer.old.bus.value.cores) × (core.old.number < 256) }
    requires room { (0 < transfer.old.bus.value.spare) × (vec_len transfer.old.schedule < vec_capacity transfer.old.schedule) × ((vec_len transfer.old.schedule + 1) % BLOCK ≡ 0 → vec_len transfer.old.marks < vec_capacity transfer.old.marks) }
    ensures state { (world : World) → Represents transfer.old.bus.value world → IsState (turn_from begun core.old world) core.new transfer.new.bus.value }
    ensures bus { KeepsBus transfer.old.bus.value transfer.new.bus.value }
    ensures schedule { transfer.new.schedule.items ≡ transfer.old.schedule.items ++ core.old.number ∷ [] }
    ensures marks { (world : World) → Represents transfer.new.bus.value world → transfer.new.marks.items ≡ with_mark (vec_len transfer.old.schedule + 1) world transfer.old.marks.items }
    ensures kept { (vec_capacity transfer.new.schedule ≡ vec_capacity transfer.old.schedule) × (vec_capacity transfer.new.marks ≡ vec_capacity transfer.old.marks) }
{
    transfer.schedule.push_reserved(core.number() as u8);
    match begun {
        Some(follows) => core.end_turn(&mut *transfer.bus, follows),
        None => core.turn(&mut *transfer.bus),
    }
    mark_block(transfer);
}

// Makes the rest of a begun turn, and then further turns of the core while the stay goes on, at most `most` in all.
fn stay(core: &mut Core, transfer: &mut Transfer, follows: bool, pace: &mut Pace, most: u32)
    requires begun { (st : Settings) × (turns : List ℕ) × (c : ℕ) × HasBusBegun st turns c core.old follows transfer.old }
    requires most { 1 ≤ most }
    ensures { (st : Settings) (turns : List ℕ) (c : ℕ) → HasBusBegun st turns c core.old follows transfer.old → MadeTurns st turns c 1 most core.new transfer.new }
{
    let mut left = most - 1;
    make_turn(core, transfer, Some(follows));
    pace.ended(core, &transfer.bus);
    while left > 0 && pace.goes_on(core) {
        make_turn(core, transfer, None);
        pace.ended(core, &transfer.bus);
        left -= 1;
    }
}

impl Shared {
    /// Waits for the bus, makes the rest of the turn that the unit has begun, and then at most `most` - 1 further whole
    /// turns of the unit's core while it has not stopped. The unit is of this Shared; it then has not begun. It takes no
    /// memory.
    pub fn turn<R: Wait>(&self, rt: &R, unit: &mut TurnUnit, most: u32)
        requires most { 1 ≤ most }
        requires of { IsOf self.now unit.old }
        requires begun { (follows : Bool) × (begun unit.old ≡ Some follows) }
        ensures of { IsOf self.now unit.new }
        ensures turned { (c : ℕ) → (view unit.old).cores ≡ c ∷ [] → Turned (view unit.old) (view unit.new) c most }
        ensures rests { begun unit.new ≡ None }
        ensures core { (c : ℕ) → (view unit.old).cores ≡ c ∷ [] → cores unit.new ≡ core_of (view unit.new) c ∷ [] }
    {
        let Some(follows) = unit.begun else {
            unreachable!()
        };
        let top = &self.table.shared;
        let number = unit.cores.as_slice()[0].number();
        wait_for_bus(rt, top, &self.waiters, &mut unit.seat, number);
        let mut transfer = top.exchange(&mut unit.seat, 0, None).unwrap();
        let began = transfer.schedule.len() as u64;
        let core = &mut unit.cores.as_mut_slice()[0];
        stay(core, &mut transfer, follows, &mut unit.pace, most);
        let end = StayEnd {
            began,
            turns: transfer.schedule.len() as u64,
            most,
            spins: unit.pace.spins(),
        };
        top.exchange(&mut unit.seat, 0, Some(transfer));
        let chosen = self.waiters.choose(&end);
        top.fetch_add::<Finish>(&mut unit.seat, SERVING, 1);
        self.waiters.hand_over(chosen);
        unit.begun = None;
    }
}
