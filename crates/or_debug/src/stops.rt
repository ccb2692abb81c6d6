//! The points at which a session stops.
ghost use Rattle.std.specs.Prelude.{◌≡◌, ◌≤◌, ◌<◌, ◌+◌, ◌++◌, ◌∷◌, [], ℕ, List, None, OnOk, OnErr, length, map, vec_capacity, vec_len};
ghost use Rattle.or_model.specs.Turn.{Board as BoardModel};
ghost use Rattle.or_replay.specs.Board.{IsBoard};
ghost use Rattle.or_debug.specs.Points.{no_points, with_break, with_watch, with_store};
ghost use Rattle.or_debug.specs.Hits.{hits_of};
ghost use Rattle.or_debug.specs.Standing.{points_of, seen, HasSeen, HasLooked};

use crate::points::{Watchpoint, append_breaks, append_changes, append_stores, look, look_at_all};
use crate::turns::MadeTurn;
use or_replay::{Board, Breakpoint};
use std::alloc::{AllocError, Global};

/// The breakpoints, the watchpoints and the store points that were set, each kind in the order of its lines.
#[derive(Drop)]
pub struct Stops {
    pub(crate) breaks: Vec<Breakpoint>,
    pub(crate) watches: Vec<Watchpoint>,
    pub(crate) stores: Vec<Watchpoint>,
}

// Adds the point of an address, which has seen RAM as it is.
fn push_seen(
    points: &mut Vec<Watchpoint>,
    board: &mut Board,
    address: u32,
) -> Result<(), AllocError>
    ensures points { OnOk result ((now : BoardModel) → IsBoard board.old.cores board.old.bus now
        → points.new.items ≡ points.old.items ++ seen now.world.ram (record { address = address; word = None }) ∷ []) }
    ensures same { OnErr result (points.new.items ≡ points.old.items) }
    ensures full { OnErr result (vec_capacity points.old ≤ vec_len points.old) }
    ensures board { (now : BoardModel) → IsBoard board.old.cores board.old.bus now → IsBoard board.new.cores board.new.bus now }
    ensures config { board.new.config ≡ board.old.config }
{
    let point = look(
        Watchpoint {
            address,
            word: None,
        },
        board,
    );
    match points.push(point) {
        Ok(()) => Ok(()),
        Err(_) => Err(AllocError),
    }
}

// Each of the points sees RAM as it is.
fn look_each(points: &mut Vec<Watchpoint>, board: &mut Board)
    ensures points { (now : BoardModel) → IsBoard board.old.cores board.old.bus now → points.new.items ≡ map (seen now.world.ram) points.old.items }
    ensures board { (now : BoardModel) → IsBoard board.old.cores board.old.bus now → IsBoard board.new.cores board.new.bus now }
    ensures config { board.new.config ≡ board.old.config }
{
    look_at_all(points.as_mut_slice(), board);
}

impl Stops {
    /// No points.
    pub fn new(alloc: Global) -> Stops
        ensures none { points_of result ≡ no_points }
        ensures seen { (ram : List ℕ) → HasSeen ram result }
    {
        Stops {
            breaks: Vec::new(alloc),
            watches: Vec::new(alloc),
            stores: Vec::new(alloc),
        }
    }

    /// From now on a breakpoint is there, which is hit where a turn of the core, or of any core where none is given, leaves
    /// its pc at the address.
    pub fn set_break(&mut self, core: Option<u32>, pc: u32) -> Result<(), AllocError>
        ensures points { OnOk result (points_of self.new ≡ with_break (points_of self.old) core pc) }
        ensures same { OnErr result (points_of self.new ≡ points_of self.old) }
        ensures full { OnErr result (vec_capacity self.old.breaks ≤ vec_len self.old.breaks) }
        ensures seen { OnOk result ((ram : List ℕ) → HasSeen ram self.old → HasSeen ram self.new) }
    {
        match self.breaks.push(Breakpoint { core, pc }) {
            Ok(()) => Ok(()),
            Err(_) => Err(AllocError),
        }
    }

    /// From now on a watchpoint is there, which has seen RAM as it is.
    pub fn set_watch(&mut self, board: &mut Board, address: u32) -> Result<(), AllocError>
        ensures points { OnOk result ((now : BoardModel) → IsBoard board.old.cores board.old.bus now → points_of self.new ≡ with_watch (points_of self.old) address) }
        ensures same { OnErr result (points_of self.new ≡ points_of self.old) }
        ensures full { OnErr result (vec_capacity self.old.watches ≤ vec_len self.old.watches) }
        ensures seen { OnOk result ((now : BoardModel) → IsBoard board.old.cores board.old.bus now → HasSeen now.world.ram self.old → HasSeen now.world.ram self.new) }
        ensures board { (now : BoardModel) → IsBoard board.old.cores board.old.bus now → IsBoard board.new.cores board.new.bus now }
        ensures config { board.new.config ≡ board.old.config }
    {
        push_seen(&mut self.watches, board, address)
    }

    /// From now on a store point is there, which has seen RAM as it is.
    pub fn set_store(&mut self, board: &mut Board, address: u32) -> Result<(), AllocError>
        ensures points { OnOk result ((now : BoardModel) → IsBoard board.old.cores board.old.bus now → points_of self.new ≡ with_store (points_of self.old) address) }
        ensures same { OnErr result (points_of self.new ≡ points_of self.old) }
        ensures full { OnErr result (vec_capacity self.old.stores ≤ vec_len self.old.stores) }
        ensures seen { OnOk result ((now : BoardModel) → IsBoard board.old.cores board.old.bus now → HasSeen now.world.ram self.old → HasSeen now.world.ram self.new) }
        ensures board { (now : BoardModel) → IsBoard board.old.cores board.old.bus now → IsBoard board.new.cores board.new.bus now }
        ensures config { board.new.config ≡ board.old.config }
    {
        push_seen(&mut self.stores, board, address)
    }

    /// Each watchpoint and store point sees RAM as it is.
    pub fn look_again(&mut self, board: &mut Board)
        ensures looked { (now : BoardModel) → IsBoard board.old.cores board.old.bus now → HasLooked now.world.ram self.old self.new }
        ensures board { (now : BoardModel) → IsBoard board.old.cores board.old.bus now → IsBoard board.new.cores board.new.bus now }
        ensures config { board.new.config ≡ board.old.config }
    {
        look_each(&mut self.watches, board);
        look_each(&mut self.stores, board);
    }

    /// Appends the lines of what a turn that was made last hits: breakpoints, then watchpoints, then store points. The points
    /// have then seen RAM as it is.
    pub fn append_hits(
        &mut self,
        made: MadeTurn,
        board: &mut Board,
        text: &mut Vec<u8>,
    ) -> Result<(), AllocError>
        ensures text { OnOk result ((now : BoardModel) (before : List ℕ) → IsBoard board.old.cores board.old.bus now → HasSeen before self.old
            → text.new.items ≡ text.old.items ++ hits_of made before now.world.ram (points_of self.old)) }
        ensures full { OnErr result ((now : BoardModel) (before : List ℕ) → IsBoard board.old.cores board.old.bus now → HasSeen before self.old
            → vec_capacity text.old < vec_len text.old + length (hits_of made before now.world.ram (points_of self.old))) }
        ensures capacity { vec_capacity text.old ≤ vec_capacity text.new }
        ensures looked { OnOk result ((now : BoardModel) → IsBoard board.old.cores board.old.bus now → HasLooked now.world.ram self.old self.new) }
        ensures board { (now : BoardModel) → IsBoard board.old.cores board.old.bus now → IsBoard board.new.cores board.new.bus now }
        ensures config { board.new.config ≡ board.old.config }
    {
        append_breaks(self.breaks.as_slice(), made, text)?;
        append_changes(self.watches.as_slice(), made.turn, board, text)?;
        append_stores(self.stores.as_slice(), made, board, text)?;
        self.look_again(board);
        Ok(())
    }
}
