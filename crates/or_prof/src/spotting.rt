// The pcs of the items that no function has.
ghost use Rattle.std.specs.Prelude.{◌≡◌, ◌<◌, ◌≤◌, ◌^◌, [], OnOk, OnErr, nat_eq, length, map, vec_capacity};
ghost use Rattle.std.specs.HashMap.{IsUnique};
ghost use Rattle.or_prof.specs.Tally.{spot_at, IsSpotted};
ghost use Rattle.or_prof.specs.Text.{AreSpots, spot_line};

use crate::ranking::Line;
use std::alloc::{AllocError, Global};
use std::collections::HashMap;
use std::marker::Model;

// How many items have each pc; contracts see the pcs with their counts.
#[derive(Drop)]
pub struct Spots {
    counts: HashMap<u32, u32>,
}

impl Model for Spots {
    ghost use Rattle.std.specs.Prelude.{◌<◌, ℕ, nat_eq};
    ghost use Rattle.std.specs.Option.{ForSome};
    ghost use Rattle.std.specs.HashMap.{get};
    ghost use Rattle.std.specs.HashMap.{IsUnique};
    ghost use Rattle.or_prof.specs.Tally.{Spotted};

    ghost Value = { Spotted };

    ghost view = { λ spots. spots.counts.entries };

    ghost invariant = { λ spots. (pc : ℕ) → ForSome (get nat_eq spots.counts pc) (λ count. 0 < count) };
}

impl Spots {
    pub fn open(alloc: Global) -> Spots
        ensures { result ≡ [] }
    {
        Spots {
            counts: HashMap::new(alloc),
        }
    }

    // Counts a pc. Makes room in the list for a line of each pc. Errors: if there is no memory.
    pub fn count(&mut self, pc: u32, lines: &mut Vec<Line>) -> Result<(), AllocError>
        requires few { spot_at self.old pc < 2 ^ 27 }
        requires room { length self.old ≤ vec_capacity lines.old }
        ensures counted { OnOk result (IsSpotted self.old pc self.new) }
        ensures err { OnErr result (self.new ≡ self.old) }
        ensures room { length self.new ≤ vec_capacity lines.new }
        ensures capacity { vec_capacity lines.old ≤ vec_capacity lines.new }
    {
        if let Some(count) = self.counts.get_mut(&pc) {
            *count += 1;
            return Ok(());
        }
        lines.clear();
        lines.reserve(self.counts.len() + 1)?;
        self.counts.insert(pc, 1)?;
        Ok(())
    }

    // Makes a line of each pc that has a count, in any order.
    pub fn list(&self, lines: &mut Vec<Line>) -> Result<(), AllocError>
        ensures lines { OnOk result (AreSpots (spot_at self.now) lines.new.items) }
        ensures full { OnErr result (vec_capacity lines.old < length self.now) }
        ensures capacity { vec_capacity lines.old ≤ vec_capacity lines.new }
    {
        list_entries(&self.counts, lines)
    }
}

fn list_entries(counts: &HashMap<u32, u32>, lines: &mut Vec<Line>) -> Result<(), AllocError>
    ensures lines { OnOk result (lines.new.items ≡ map spot_line counts.now.entries) }
    ensures full { OnErr result (vec_capacity lines.old < length counts.now.entries) }
    ensures capacity { vec_capacity lines.old ≤ vec_capacity lines.new }
    ensures unique { IsUnique nat_eq counts.now }
{
    lines.clear();
    for (pc, count) in counts {
        lines.push(Line {
            count: *count,
            key: *pc,
        })?;
    }
    Ok(())
}
