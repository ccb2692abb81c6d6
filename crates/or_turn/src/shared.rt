//! The bus that units share.
ghost use Rattle.std.specs.Prelude.{◌≡◌};

use crate::plays::TurnRule;
use crate::view::{OpenedWith, Transfer, View};
use arrayvec::ArrayVec;
use atomic_table::Table;
use or_bus::Bus;
use or_core::Core;
use or_sched::Mark;
use std::alloc::Global;

mod closing;
mod joining;
mod opening;
mod steps;
mod turning;

use or_waiters::Waiters;

/// What units share: the bus with the schedule so far, whose turn it is, and who waits.
/// Threads may share it.
#[derive(Drop)]
pub struct Shared {
    table: Table<Option<Transfer>, View, OpenedWith, TurnRule, Global>,
    waiters: Waiters,
    ghost sized: { (table.shared.table_id.words ≡ 3) × (table.shared.table_id.slots ≡ 1) },
}

impl Shared {
    ghost use Rattle.or_turn.specs.Units.{id_of, settings_in};

    /// Sets how often who waits for the bus tries to take it before it sleeps; at first it is 0.
    pub fn set_looks(&mut self, looks: u32)
        ensures { (id_of self.new ≡ id_of self.old) × (settings_in self.new ≡ settings_in self.old) }
    {
        self.waiters.looks = looks;
    }
}

/// What is left when all units are joined: the cores in order of number, the bus, the schedule and its marks.
#[derive(Drop)]
pub struct Closed {
    pub cores: ArrayVec<Core, 8>,
    pub bus: Bus,
    pub schedule: Vec<u8>,
    pub marks: Vec<Mark>,
}
