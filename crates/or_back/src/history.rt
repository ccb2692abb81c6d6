//! A history of turns, with copies of a few boards on the way.
ghost use Rattle.std.specs.Prelude.{◌≤◌, ◌<◌, length};
ghost use Rattle.or_back.specs.Copies.{AreMultiples};

use or_replay::Board;
use std::alloc::Global;

/// A copy of the board as it was after so many turns.
#[derive(Drop)]
pub struct Checkpoint {
    pub(crate) turn: usize,
    pub(crate) board: Board,
}

/// A board that stands behind the first `at` of its turns. It keeps copies of the board before the first turn and of at most
/// three later ones, each behind a multiple of `every` turns.
#[derive(Drop)]
pub struct History {
    pub(crate) alloc: Global,
    pub(crate) first: Board,
    pub(crate) kept: Vec<Checkpoint>,
    pub(crate) board: Board,
    pub(crate) at: usize,
    pub(crate) turns: Vec<u8>,
    pub(crate) every: u64,
    pub(crate) made: u64,
    pub(crate) ghost within: { at ≤ length turns.items },
    pub(crate) ghost steps: { 0 < every },
    pub(crate) ghost few: { length kept.items ≤ 3 },
    pub(crate) ghost multiples: { AreMultiples every kept.items },
}
