//! Single steps on the table.
ghost use Rattle.std.specs.Prelude.{◌≡◌, ℕ, ◌<◌, [], ◌∷◌, ◌++◌, Some, MatchBool};
ghost use Rattle.or_turn.specs.declared.view.Stage.TheVariants.{Idle, Waits};
ghost use Rattle.or_turn.specs.Schedules.{board_of, core_at};
ghost use Rattle.or_turn.specs.Rule.{longer};
ghost use Rattle.or_turn.specs.Told.{TakesBus, waiting_view, enrolled_view, closed_view, next_view, both_view, halves, JoinConfirmed};

use crate::plays::{Confirm, Divide, Draw, Enrol, Look, TurnRule, Unite};
use crate::unit::TurnSeat;
use crate::view::{OpenedWith, Transfer, View};
use atomic_table::Shared as Steps;
use or_waiters::Waiters;
use std::hint;
use std::sync::Wait;

// The words: the next ticket, the ticket that is served, and how many cores are enrolled.
const NEXT: usize = 0;

pub(crate) const SERVING: usize = 1;

const ENROLLED: usize = 2;

pub(crate) type Top = Steps<Option<Transfer>, View, OpenedWith, TurnRule>;

// Draws this ticket, where it is the next one.
fn draw(top: &Top, seat: &mut TurnSeat, ticket: u64) -> bool
    requires table { (seat.old.table_id ≡ top.now.table_id) × (top.now.table_id.words ≡ 3) × (top.now.table_id.slots ≡ 1) }
    requires ready { (c : ℕ) × (seat.old.me.0.stage ≡ Idle) × (seat.old.me.0.cores ≡ c ∷ []) × ((core_at (board_of seat.old.me.0.settings seat.old.me.0.seen).cores c).stop ≡ None) }
    ensures same { (seat.new.table_id ≡ seat.old.table_id) × (seat.new.id ≡ seat.old.id) }
    ensures drew { MatchBool result ((seat.new.me.1 ≡ seat.old.me.1) × (seat.new.me.0 ≡ waiting_view seat.old.me.0 ticket)) (seat.new.me ≡ seat.old.me) }
{
    top.compare_exchange::<Draw>(seat, NEXT, ticket, ticket.wrapping_add(1)) == ticket
}

// Looks whether the ticket is served, and takes the slot where it is.
fn look(top: &Top, seat: &mut TurnSeat, ticket: u64) -> bool
    requires table { (seat.old.table_id ≡ top.now.table_id) × (top.now.table_id.words ≡ 3) × (top.now.table_id.slots ≡ 1) }
    requires waits { (seat.old.me.0.stage ≡ Waits ticket) × (seat.old.me.1 ≡ []) }
    ensures same { (seat.new.table_id ≡ seat.old.table_id) × (seat.new.id ≡ seat.old.id) }
    ensures took { MatchBool result (TakesBus seat.old.me.0 seat.new.me) (seat.new.me ≡ seat.old.me) }
{
    top.load::<Look>(seat, SERVING) == ticket
}

// Takes the slot once the ticket is served. Who draws the ticket that is served finds it so at the first look.
fn take<R: Wait>(rt: &R, top: &Top, seat: &mut TurnSeat, ticket: u64)
    requires table { (seat.old.table_id ≡ top.now.table_id) × (top.now.table_id.words ≡ 3) × (top.now.table_id.slots ≡ 1) }
    requires waits { (seat.old.me.0.stage ≡ Waits ticket) × (seat.old.me.1 ≡ []) }
    ensures same { (seat.new.table_id ≡ seat.old.table_id) × (seat.new.id ≡ seat.old.id) }
    ensures took { TakesBus seat.old.me.0 seat.new.me }
{
    for _ in rt.forever() {
        if look(top, seat, ticket) {
            return;
        }
    }
    unreachable!()
}

// Takes the bus, where it is free and not kept for another core.
fn try_bus<R: Wait>(rt: &R, top: &Top, waiters: &Waiters, seat: &mut TurnSeat, core: u32) -> bool
    requires table { (seat.old.table_id ≡ top.now.table_id) × (top.now.table_id.words ≡ 3) × (top.now.table_id.slots ≡ 1) }
    requires ready { (c : ℕ) × (seat.old.me.0.stage ≡ Idle) × (seat.old.me.0.cores ≡ c ∷ []) × ((core_at (board_of seat.old.me.0.settings seat.old.me.0.seen).cores c).stop ≡ None) × (seat.old.me.1 ≡ []) }
    ensures same { (seat.new.table_id ≡ seat.old.table_id) × (seat.new.id ≡ seat.old.id) }
    ensures took { MatchBool result (TakesBus seat.old.me.0 seat.new.me) (seat.new.me ≡ seat.old.me) }
{
    let ticket = top.peek(SERVING);
    if waiters.may_take(core) && top.peek(NEXT) == ticket && draw(top, seat, ticket) {
        take(rt, top, seat, ticket);
        return true;
    }
    false
}

// Tries up to so many times.
fn try_often<R: Wait>(rt: &R, top: &Top, waiters: &Waiters, seat: &mut TurnSeat, core: u32) -> bool
    requires table { (seat.old.table_id ≡ top.now.table_id) × (top.now.table_id.words ≡ 3) × (top.now.table_id.slots ≡ 1) }
    requires ready { (c : ℕ) × (seat.old.me.0.stage ≡ Idle) × (seat.old.me.0.cores ≡ c ∷ []) × ((core_at (board_of seat.old.me.0.settings seat.old.me.0.seen).cores c).stop ≡ None) × (seat.old.me.1 ≡ []) }
    ensures same { (seat.new.table_id ≡ seat.old.table_id) × (seat.new.id ≡ seat.old.id) }
    ensures took { MatchBool result (TakesBus seat.old.me.0 seat.new.me) (seat.new.me ≡ seat.old.me) }
{
    for _ in 0..waiters.looks {
        if try_bus(rt, top, waiters, seat, core) {
            return true;
        }
        hint::spin_loop();
    }
    false
}

// Waits for the bus, and takes it.
pub(crate) fn wait_for_bus<R: Wait>(
    rt: &R,
    top: &Top,
    waiters: &Waiters,
    seat: &mut TurnSeat,
    core: u32,
)
    requires table { (seat.old.table_id ≡ top.now.table_id) × (top.now.table_id.words ≡ 3) × (top.now.table_id.slots ≡ 1) }
    requires ready { (c : ℕ) × (seat.old.me.0.stage ≡ Idle) × (seat.old.me.0.cores ≡ c ∷ []) × ((core_at (board_of seat.old.me.0.settings seat.old.me.0.seen).cores c).stop ≡ None) × (seat.old.me.1 ≡ []) }
    ensures same { (seat.new.table_id ≡ seat.old.table_id) × (seat.new.id ≡ seat.old.id) }
    ensures took { TakesBus seat.old.me.0 seat.new.me }
{
    if try_bus(rt, top, waiters, seat, core) {
        return;
    }
    waiters.begin(core);
    for _ in rt.forever() {
        if try_often(rt, top, waiters, seat, core) {
            waiters.end(core);
            return;
        }
        waiters.announce(core);
        if try_bus(rt, top, waiters, seat, core) {
            waiters.end(core);
            return;
        }
        waiters.sleep(rt, core);
    }
    unreachable!()
}

// Gives the next core to the seat with the opener token.
pub(crate) fn enrol(top: &Top, seat: &mut TurnSeat)
    requires table { (seat.old.table_id ≡ top.now.table_id) × (top.now.table_id.words ≡ 3) × (top.now.table_id.slots ≡ 1) }
    requires ready { (k : ℕ) × (seat.old.me.0.stage ≡ Idle) × (seat.old.me.0.cores ≡ []) × (seat.old.me.0.opening ≡ Some k) × (k < seat.old.me.0.settings.config.cores) }
    ensures same { (seat.new.table_id ≡ seat.old.table_id) × (seat.new.id ≡ seat.old.id) × (seat.new.me.1 ≡ seat.old.me.1) }
    ensures view { (k : ℕ) → seat.old.me.0.opening ≡ Some k → seat.new.me.0 ≡ enrolled_view seat.old.me.0 k }
{
    top.fetch_add::<Enrol>(seat, ENROLLED, 1);
}

// Makes the next seat, which has the opener token from now on.
pub(crate) fn split(top: &Top, seat: &mut TurnSeat) -> TurnSeat
    requires table { (seat.old.table_id ≡ top.now.table_id) × (top.now.table_id.words ≡ 3) × (top.now.table_id.slots ≡ 1) }
    requires ready { (k : ℕ) × (seat.old.me.0.stage ≡ Idle) × (seat.old.me.0.opening ≡ Some k) }
    ensures same { (seat.new.table_id ≡ seat.old.table_id) × (seat.new.id ≡ seat.old.id) × (seat.new.me ≡ (closed_view seat.old.me.0, seat.old.me.1)) }
    ensures new { (result.table_id ≡ seat.old.table_id) × (result.me ≡ (next_view seat.old.me.0, [])) }
{
    top.split_seat::<Divide>(seat)
}

// Takes in the other seat's view, and looks what became of the two.
pub(crate) fn join(top: &Top, seat: &mut TurnSeat, other: TurnSeat)
    requires table { (seat.old.table_id ≡ top.now.table_id) × (top.now.table_id.words ≡ 3) × (top.now.table_id.slots ≡ 1) × (other.table_id ≡ top.now.table_id) }
    requires idle { (seat.old.me.0.stage ≡ Idle) × (other.me.0.stage ≡ Idle) × (other.me.1 ≡ []) }
    ensures same { (seat.new.table_id ≡ seat.old.table_id) × (seat.new.id ≡ seat.old.id) × (seat.new.me ≡ (both_view seat.old.me.0 other.me.0, seat.old.me.1)) }
    ensures joint { JoinConfirmed seat.old.me.0.settings (seat.old.me.0.cores ++ other.me.0.cores) (longer seat.old.me.0.seen other.me.0.seen) (halves seat.old.me.0 other.me.0) }
{
    top.join_seat::<Unite>(seat, other);
    top.load::<Confirm>(seat, NEXT);
}
