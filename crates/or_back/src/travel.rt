//! A history that goes to a turn.
ghost use Rattle.std.specs.Prelude.{◌≡◌, ◌≤◌, ◌<◌, ◌+◌, ◌-◌, ◌^◌, ℕ, List, min, length, IfOk, IsOk, OnOk, OnErr, slice_index};
ghost use Rattle.or_model.specs.Turn.{Board as BoardModel};
ghost use Rattle.or_replay.specs.Board.{IsBoard};
ghost use Rattle.or_debug.specs.Turns.{turn_made};
ghost use Rattle.or_debug.specs.Standing.{CanFollow};
ghost use Rattle.or_back.specs.Tells.{Tells};
ghost use Rattle.or_back.specs.Copies.{NoneBetween, MakesFewer};

use crate::checkpoints::{copy_of, latest};
use crate::history::History;
use crate::moves::{forward, step};
use or_debug::MadeTurn;
use or_replay::Board;
use or_words::NoMemory;
use std::alloc::Global;

impl History {
    /// The history of turns that can be followed from a board before its first turn, where it stands. It keeps copies of
    /// boards behind multiples of `every` turns, at least 1.
    ///
    /// Errors: NoMemory.
    pub fn open(
        alloc: Global,
        mut board: Board,
        turns: Vec<u8>,
        every: u64,
    ) -> Result<History, NoMemory>
        requires { 0 < every }
        ensures tells { IfOk result (λ history. (start : BoardModel) → IsBoard board.cores board.bus start → CanFollow start turns.items → Tells history start turns.items) }
        ensures at { IfOk result (λ history. (history.at ≡ 0) × (history.turns ≡ turns)) }
        ensures config { IfOk result (λ history. history.board.config ≡ board.config) }
        ensures made { IfOk result (λ history. history.made ≡ 0) }
    {
        let first = board.copy(alloc)?;
        Ok(History {
            alloc,
            first,
            kept: Vec::new(alloc),
            board,
            at: 0,
            turns,
            every,
            made: 0,
        })
    }

    /// The board behind the turns so far.
    pub fn board(&self) -> &Board
        ensures { result.now ≡ self.now.board }
    {
        &self.board
    }

    /// How many turns were made since opening, cut at the last value of 64 bits. Going back makes those again that lie
    /// behind the copy that it begins with.
    pub fn made(&self) -> u64
        ensures { result ≡ self.now.made }
    {
        self.made
    }

    // Puts a copy of an earlier board in place of a board that stands behind more turns than these.
    fn go_back(&mut self, to: usize) -> Result<(), NoMemory>
        requires { to ≤ length self.old.turns.items }
        ensures tells { (start : BoardModel) (turns : List ℕ) → Tells self.old start turns → Tells self.new start turns }
        ensures ok { OnOk result (self.new.at ≤ to) }
        ensures nearest { OnOk result (to < self.old.at → NoneBetween self.old.kept.items self.new.at to) }
        ensures err { OnErr result (self.new.at ≡ self.old.at) }
        ensures made { self.new.made ≡ self.old.made }
        ensures turns { self.new.turns ≡ self.old.turns }
        ensures forward { self.old.at ≤ to → IsOk result × (self.new.at ≡ self.old.at) }
    {
        if self.at <= to {
            return Ok(());
        }
        let Some(i) = latest(&self.kept, to) else {
            let board = self.first.copy(self.alloc)?;
            self.board = board;
            self.at = 0;
            return Ok(());
        };
        let (at, board) = copy_of(self.alloc, &mut self.kept, i)?;
        self.board = board;
        self.at = at;
        Ok(())
    }

    // Makes the turns up to a place that is not behind the board.
    fn go_on(&mut self, to: usize)
        requires order { self.old.at ≤ to }
        requires within { to ≤ length self.old.turns.items }
        ensures tells { (start : BoardModel) (turns : List ℕ) → Tells self.old start turns → Tells self.new start turns }
        ensures at { self.new.at ≡ to }
        ensures made { self.new.made ≡ min (self.old.made + (to - self.old.at)) (2 ^ 64 - 1) }
        ensures turns { self.new.turns ≡ self.old.turns }
    {
        let at = self.at;
        forward(
            self.alloc,
            &mut self.board,
            &mut self.kept,
            &self.turns,
            self.every,
            at,
            to,
        );
        self.made = self.made.saturating_add((to - at) as u64);
        self.at = to;
    }

    // Makes the next turn.
    pub(crate) fn make_next(&mut self) -> MadeTurn
        requires { self.old.at < length self.old.turns.items }
        ensures tells { (start : BoardModel) (turns : List ℕ) → Tells self.old start turns → Tells self.new start turns }
        ensures made { (start : BoardModel) (turns : List ℕ) → Tells self.old start turns → result ≡ turn_made start turns self.old.at }
        ensures at { self.new.at ≡ self.old.at + 1 }
        ensures turns { self.new.turns ≡ self.old.turns }
    {
        let at = self.at;
        let made = step(
            self.alloc,
            &mut self.board,
            &mut self.kept,
            &self.turns,
            self.every,
            at,
        );
        self.made = self.made.saturating_add(1);
        self.at = at + 1;
        made
    }

    // The turn of the latest copy that stands before a turn.
    pub(crate) fn copy_before(&self, turn: usize) -> usize
        requires { 0 < turn }
        ensures { result < turn }
    {
        match latest(&self.kept, turn - 1) {
            Some(i) => self.kept[i].turn,
            None => 0,
        }
    }

    /// Goes to the board behind the first `n` turns, or behind all of them where there are fewer, and answers how many
    /// these are.
    ///
    /// Errors: NoMemory, which only going back can answer; the history then stands where it stood.
    pub fn to(&mut self, n: u64) -> Result<u64, NoMemory>
        ensures tells { (start : BoardModel) (turns : List ℕ) → Tells self.old start turns → Tells self.new start turns }
        ensures ok { IfOk result (λ at. (at ≡ min n (length self.old.turns.items)) × (self.new.at ≡ at)) }
        ensures err { OnErr result ((self.new.at ≡ self.old.at) × (self.new.made ≡ self.old.made)) }
        ensures turns { self.new.turns ≡ self.old.turns }
        ensures forward { self.old.at ≤ n → IsOk result × (self.new.made ≡ min (self.old.made + (self.new.at - self.old.at)) (2 ^ 64 - 1)) }
        // Going back makes no more turns than lie before the turn that it goes to.
        ensures most { self.new.made ≤ self.old.made + self.new.at }
        // Nor than lie behind any copy before that turn.
        ensures copies { IfOk result (λ at. at < self.old.at → MakesFewer self.old.kept.items at self.old.made self.new.made) }
    {
        let many = self.turns.len();
        let to = if n < many as u64 { n as usize } else { many };
        self.go_back(to)?;
        self.go_on(to);
        Ok(to as u64)
    }
}
