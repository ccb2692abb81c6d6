//! A unit: a seat at the table, with the cores that it works.
ghost use Rattle.std.specs.Prelude.{◌≡◌, [], Bool, None, Some};
ghost use Rattle.or_turn.specs.declared.view.Stage.TheVariants.{Idle};
ghost use Rattle.or_turn.specs.SeatViews.{cores_shown, HasBegun};

use crate::pace::Pace;
use crate::view::{Transfer, View};
use arrayvec::ArrayVec;
use atomic_table::Seat;
use or_core::Core;

pub(crate) type TurnSeat = Seat<Option<Transfer>, View>;

/// A unit holds some of a board's cores, at first one. Its cores are those of its view; where it has begun, its one core
/// is in the middle of a turn. It may move between threads.
#[derive(Drop)]
pub struct TurnUnit {
    pub(crate) seat: TurnSeat,
    pub(crate) cores: ArrayVec<Core, 8>,
    pub(crate) begun: Option<bool>,
    pub(crate) pace: Pace,
    ghost bare: { seat.me.1 ≡ [] },
    ghost idle: { seat.me.0.stage ≡ Idle },
    ghost shown: { cores.items ≡ cores_shown seat.me.0 begun },
    ghost ready: { (follows : Bool) → begun ≡ Some follows → HasBegun seat.me.0 follows },
}

impl TurnUnit {
    ghost use Rattle.std.specs.Prelude.{ℕ, ◌∷◌};
    ghost use Rattle.or_model.specs.Turn.{turn_begun};
    ghost use Rattle.or_turn.specs.Schedules.{core_at, first_board};
    ghost use Rattle.or_turn.specs.SeatViews.{core_of, begun_core, opened_view};
    ghost use Rattle.or_turn.specs.Units.{view, begun, cores, IsReady};

    // The unit of one core, as the board has it at first.
    pub(crate) fn fresh(seat: TurnSeat, core: Core) -> TurnUnit
        requires { (n : ℕ) × (seat.me ≡ (opened_view seat.me.0.settings n, [])) × (core ≡ core_at (first_board seat.me.0.settings).cores n) }
        ensures { (result.seat ≡ seat) × (begun result ≡ None) }
    {
        let mut cores = ArrayVec::new();
        cores.push(core);
        TurnUnit {
            seat,
            cores,
            begun: None,
            pace: Pace::new(),
        }
    }

    /// The unit's cores, after `begin` as `begin` left them.
    pub fn cores(&self) -> &[Core]
        ensures { result.now ≡ cores_shown (view self.now) (begun self.now) }
    {
        self.cores.as_slice()
    }

    /// Makes the private steps of the unit's next turn, and waits for nobody. The unit holds one core, which has not
    /// stopped, and has not begun; it then has.
    pub fn begin(&mut self)
        requires { (c : ℕ) × IsReady self.old c }
        ensures view { (view self.new ≡ view self.old) × (self.new.seat.table_id ≡ self.old.seat.table_id) × (self.new.seat.id ≡ self.old.seat.id) }
        ensures begun { (c : ℕ) → (view self.old).cores ≡ c ∷ [] → (begun self.new ≡ Some (turn_begun (core_of (view self.old) c)).follows) × (cores self.new ≡ begun_core (view self.old) c ∷ []) }
    {
        let core = &mut self.cores.as_mut_slice()[0];
        self.begun = Some(core.begin_turn());
    }
}
