//! How long a stay goes on. But for a core that has stopped, no clause depends on it.
ghost use Rattle.std.specs.Prelude.{◌≡◌, None, IsTrue};

use or_bus::{Access, Bus};
use or_core::Core;

/// A stay ends behind a turn with more steps than this: the private steps of its next turn are made beside the turns of others,
/// and not while all wait for the bus.
const FEW_STEPS: u32 = 25;

/// So many turns apart are the traces at most that are compared.
const FARTHEST: u32 = 16;

/// Where a turn has left a core. A core that spins comes to one place again by the same access, and no word has been written
/// since.
#[derive(Clone, Copy)]
struct Trace {
    pc: u32,
    last: Option<Access>,
    writes: u64,
}

/// What is known of the last turns of a unit.
#[derive(Drop)]
pub(crate) struct Pace {
    /// How many steps the core has made, and how many of them in its last turn.
    steps: u32,
    length: u32,
    /// Whether the core waits for another: it does the same again and again, and nothing changes.
    spins: bool,
    /// The trace that others are compared with, how many turns have been made since, and after how many it is replaced.
    seen: Option<Trace>,
    since: u32,
    distance: u32,
}

impl Pace {
    pub(crate) fn new() -> Pace {
        Pace {
            steps: 0,
            length: 0,
            spins: false,
            seen: None,
            since: 0,
            distance: 1,
        }
    }

    // Whether the last turn has left the core where the trace was taken. What differs most often is compared first.
    fn is_seen(&self, core: &Core, bus: &Bus) -> bool {
        match &self.seen {
            Some(seen) => {
                seen.writes == bus.writes() && seen.pc == core.place().pc && seen.last == bus.last()
            }
            None => false,
        }
    }

    /// A turn of the core has ended. A long turn leaves no trace: behind private steps the core may come to one place again
    /// without an access, and it waits for nobody. The distances between the traces grow, so that a loop of several accesses is
    /// found too.
    pub(crate) fn ended(&mut self, core: &Core, bus: &Bus) {
        self.length = core.steps().wrapping_sub(self.steps);
        self.steps = core.steps();
        if self.length > FEW_STEPS {
            self.spins = false;
            return;
        }
        self.spins = self.is_seen(core, bus);
        self.since = self.since.wrapping_add(1);
        if self.since >= self.distance {
            self.seen = Some(Trace {
                pc: core.place().pc,
                last: bus.last(),
                writes: bus.writes(),
            });
            self.since = 0;
            self.distance = if self.distance < FARTHEST {
                self.distance.wrapping_mul(2)
            } else {
                1
            };
        }
    }

    pub(crate) fn spins(&self) -> bool {
        self.spins
    }

    /// Whether the stay goes on behind this turn.
    pub(crate) fn goes_on(&self, core: &Core) -> bool
        ensures { IsTrue result → core.now.stop ≡ None }
    {
        core.stop().is_none() && self.length <= FEW_STEPS && !self.spins
    }
}
