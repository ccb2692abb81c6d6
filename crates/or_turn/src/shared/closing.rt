//! The end.
ghost use Rattle.std.specs.Prelude.{◌≡◌, ℕ, ◌<◌, length, None};
ghost use Rattle.arrayvec.specs.ArrayVec.{array_vec_len};
ghost use Rattle.or_turn.specs.Schedules.{core_at, count};
ghost use Rattle.or_turn.specs.Ordered.{Numbered, Among};
ghost use Rattle.or_turn.specs.Units.{view, begun, IsOf};
ghost use Rattle.or_turn.specs.Ends.{IsClosedBy};

use super::{Closed, Shared};
use crate::unit::TurnUnit;
use crate::view::Transfer;
use arrayvec::ArrayVec;
use or_core::Core;

// The place of the core with this number.
fn place_of(cores: &[Core], number: u32) -> usize
    requires { Numbered number cores.now }
    ensures { (result < length cores.now) × ((core_at cores.now result).number ≡ number) }
{
    for (i, core) in cores.iter().enumerate() {
        if core.number() == number {
            return i;
        }
    }
    unreachable!()
}

// The same cores, in order of number.
fn in_order(mut cores: ArrayVec<Core, 8>) -> ArrayVec<Core, 8>
    requires { (n : ℕ) → n < array_vec_len cores → Numbered n cores.items }
    ensures len { length result.items ≡ length cores.items }
    ensures each { (n : ℕ) → n < length cores.items → ((core_at result.items n).number ≡ n) × Among (core_at result.items n) cores.items }
{
    let mut ordered = ArrayVec::new();
    let total = cores.len() as u32;
    for number in 0..total {
        let at = place_of(cores.as_slice(), number);
        ordered.push(cores.remove(at));
    }
    ordered
}

impl Shared {
    /// Ends it, and waits for nobody: who has every core knows that no one waits. The unit is of this Shared, holds every
    /// core and has not begun. It takes no memory.
    pub fn close(self, last: TurnUnit) -> Closed
        requires of { IsOf self last }
        requires rests { begun last ≡ None }
        requires whole { (c : ℕ) → c < (view last).settings.config.cores → 0 < count c (view last).cores }
        ensures { IsClosedBy (view last) result }
    {
        let TurnUnit {
            seat,
            cores,
            begun: _,
            pace: _,
        } = last;
        let Shared { table, waiters: _ } = self;
        let mut closed = table.close_with(seat);
        let transfer = closed.take(0).unwrap();
        closed.free();
        let Transfer {
            bus,
            schedule,
            marks,
        } = transfer;
        Closed {
            cores: in_order(cores),
            bus: Box::into_inner(bus),
            schedule,
            marks,
        }
    }
}
