//! The rule of the turn, and what each step tells.
ghost use Rattle.or_turn.specs.Rule.{Turns, first_view, spent_view};
ghost use Rattle.or_turn.specs.Told.{enrolled, drew, looked, finished, confirmed, closed_view, next_view, joined_view};

use crate::view::{OpenedWith, Transfer, View};
use atomic_table::{Join, Play, Split, TableRule};

/// The rule of the turn, which holds of the table between any two steps.
pub struct TurnRule;

impl TableRule<Option<Transfer>, View, OpenedWith> for TurnRule {
    ghost holds = { Turns };

    ghost first = { first_view };
}

pub(crate) struct Enrol;

impl Play<Option<Transfer>, View> for Enrol {
    ghost then = { enrolled };
}

pub(crate) struct Draw;

impl Play<Option<Transfer>, View> for Draw {
    ghost then = { drew };
}

pub(crate) struct Look;

impl Play<Option<Transfer>, View> for Look {
    ghost then = { looked };
}

pub(crate) struct Finish;

impl Play<Option<Transfer>, View> for Finish {
    ghost then = { finished };
}

pub(crate) struct Confirm;

impl Play<Option<Transfer>, View> for Confirm {
    ghost then = { confirmed };
}

pub(crate) struct Divide;

impl Split<View> for Divide {
    ghost left = { closed_view };

    ghost right = { next_view };
}

pub(crate) struct Unite;

impl Join<View> for Unite {
    ghost both = { joined_view };

    ghost spent = { spent_view };
}
