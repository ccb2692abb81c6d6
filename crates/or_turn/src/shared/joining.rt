//! Two units into one.
ghost use Rattle.std.specs.Prelude.{◌≡◌, ℕ, ◌+◌, ◌<◌, ◌≤◌, ◌++◌, None};
ghost use Rattle.arrayvec.specs.ArrayVec.{array_vec_len};
ghost use Rattle.or_turn.specs.Schedules.{count};
ghost use Rattle.or_turn.specs.Rule.{Begins};
ghost use Rattle.or_turn.specs.Told.{both_view};
ghost use Rattle.or_turn.specs.Units.{view, begun, cores, IsOf};

use super::Shared;
use super::steps::join;
use crate::unit::TurnUnit;
use arrayvec::ArrayVec;
use or_core::Core;

// Puts cores behind others.
fn append(into: &mut ArrayVec<Core, 8>, mut from: ArrayVec<Core, 8>)
    requires { array_vec_len into.old + array_vec_len from ≤ 8 }
    ensures { into.new.items ≡ into.old.items ++ from.items }
{
    while let Some(core) = from.pop_at(0) {
        into.push(core);
    }
}

impl Shared {
    /// Puts two units together, and waits for nobody. Both are of this Shared, and neither has begun; `into` then has the
    /// cores of both, unchanged, and the longer of the two beginnings of the schedule that they have seen. It takes no memory.
    pub fn join(&self, into: &mut TurnUnit, from: TurnUnit)
        requires of { IsOf self.now into.old × IsOf self.now from }
        requires rest { (begun into.old ≡ None) × (begun from ≡ None) }
        ensures of { IsOf self.now into.new }
        ensures rest { begun into.new ≡ None }
        ensures view { view into.new ≡ both_view (view into.old) (view from) }
        ensures cores { cores into.new ≡ cores into.old ++ cores from }
        ensures settings { (view from).settings ≡ (view into.old).settings }
        ensures first { Begins (view into.old).seen (view into.new).seen }
        ensures second { Begins (view from).seen (view into.new).seen }
        ensures told { (c : ℕ) → 0 < count c (view into.old).cores → count c (view into.old).seen ≡ count c (view into.new).seen }
        ensures other_told { (c : ℕ) → 0 < count c (view from).cores → count c (view from).seen ≡ count c (view into.new).seen }
    {
        let TurnUnit {
            seat,
            cores,
            begun: _,
            pace: _,
        } = from;
        join(&self.table.shared, &mut into.seat, seat);
        append(&mut into.cores, cores);
    }
}
