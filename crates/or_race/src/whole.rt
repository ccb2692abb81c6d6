//! The report on a whole list of accesses.
ghost use Rattle.std.specs.Prelude.{◌≡◌, ℕ, ◌≤◌, ◌++◌, List, OnOk, OnErr};
ghost use Rattle.or_race.specs.Adds.{events, Rises};
ghost use Rattle.or_race.specs.Text.{RaceText};

use crate::races::Races;
use or_bus::Access;
use or_elf::Symbols;
use or_words::NoMemory;
use std::alloc::Global;

/// An access to RAM, its turn, counted from 1, and the pc of its instruction.
#[derive(Clone, Copy, Debug, PartialEq, Eq)]
pub struct Added {
    pub turn: u64,
    pub pc: u32,
    pub access: Access,
}

/// Appends the report on the accesses of a schedule, whose turns rise from 1 and whose cores are below a number, with the
/// places of the accesses where symbols are given. Errors: NoMemory, and then `out` is as before.
pub fn report_of(
    alloc: Global,
    cores: u32,
    locks: bool,
    symbols: &Option<Symbols>,
    adds: &[Added],
    out: &mut Vec<u8>,
) -> Result<(), NoMemory>
    requires cores { cores ≤ 8 }
    requires rises { Rises cores 0 adds.now }
    ensures ok { OnOk result ((text : List ℕ) × RaceText locks symbols.now (events adds.now) text × (out.new.items ≡ out.old.items ++ text)) }
    ensures err { OnErr result (out.new.items ≡ out.old.items) }
{
    let mut races = Races::new(alloc, cores, locks);
    for add in adds {
        races.add(add.turn, add.pc, &add.access)?;
    }
    match races.write(symbols, out) {
        Ok(()) => Ok(()),
        Err(fault) => Err(fault),
    }
}
