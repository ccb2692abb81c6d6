//! The debugger on a schedule.
ghost use Rattle.std.specs.Prelude.{◌≡◌, ◌<◌, ◌≤◌, ◌+◌, ◌++◌, ℕ, List, [], length, codes, decimal, OnOk, OnErr, IfOk, vec_capacity, vec_len};
ghost use Rattle.or_words.specs.declared.limits.TheConstants.{LAST_TURNS};
ghost use Rattle.or_script.specs.declared.command.Command.TheVariants.{Go, Turn};
ghost use Rattle.or_script.specs.Last.{HasFewTurns};
ghost use Rattle.circular_buffer.specs.Buffer.{buffer};
ghost use Rattle.or_model.specs.Turn.{Board as BoardModel};
ghost use Rattle.or_debug.specs.Session.{first_state};
ghost use Rattle.or_debug.specs.Standing.{CanFollow, Reaches, IsMade, IsFollowed, Stands, IsAnswered, HasSeen, state_of};

use crate::board_text::{append_lines, append_memory, append_registers};
use crate::stops::Stops;
use crate::turns::{MadeTurn, append_last, make_turn};
use circular_buffer::HeapCircularBuffer;
use or_replay::Board;
use or_script::Command;
use or_text::append_decimal;
use or_words::limits::LAST_TURNS;
use std::alloc::{AllocError, Global};

/// How far the schedule was followed, the points that were set, and the last 64 turns.
#[derive(Drop)]
pub struct Debugger {
    pub(crate) turn: usize,
    pub(crate) stops: Stops,
    pub(crate) last: HeapCircularBuffer<MadeTurn>,
}

/// Appends a line of a word and the number of turns so far.
pub fn append_turn(word: &[u8], turn: usize, text: &mut Vec<u8>) -> Result<(), AllocError>
    ensures text { OnOk result (text.new.items ≡ text.old.items ++ (word.now ++ decimal turn ++ codes "\n")) }
    ensures full { OnErr result (vec_capacity text.old < vec_len text.old + length ((word.now ++ decimal turn ++ codes "\n"))) }
    ensures capacity { vec_capacity text.old ≤ vec_capacity text.new }
{
    text.extend_from_slice(word)?;
    append_decimal(turn as u64, text)?;
    text.extend_from_slice(b"\n")
}

impl Debugger {
    // A debugger before the first turn.
    pub(crate) fn new(alloc: Global) -> Result<Debugger, AllocError>
        ensures state { IfOk result (λ debugger. state_of debugger ≡ first_state) }
        ensures seen { IfOk result (λ debugger. (ram : List ℕ) → HasSeen ram debugger.stops) }
        ensures last { IfOk result (λ debugger. debugger.last ≡ buffer [] LAST_TURNS) }
    {
        let last = HeapCircularBuffer::with_capacity(alloc, LAST_TURNS)?;
        Ok(Debugger {
            turn: 0,
            stops: Stops::new(alloc),
            last,
        })
    }

    // Makes the next turn.
    fn advance(&mut self, board: &mut Board, turns: &[u8]) -> MadeTurn
        requires { self.old.turn < length turns.now }
        ensures made { (start : BoardModel) → CanFollow start turns.now → Reaches start turns.now self.old.turn self.old.last board.old.cores board.old.bus
            → IsMade start turns.now self.old.turn result self.new.last board.new.cores board.new.bus }
        ensures turn { self.new.turn ≡ self.old.turn + 1 }
        ensures stops { self.new.stops ≡ self.old.stops }
        ensures config { board.new.config ≡ board.old.config }
    {
        let made = make_turn(board, turns, self.turn);
        self.last.push_back(made);
        self.turn += 1;
        made
    }

    // Makes the next turn, with the lines of what it hits.
    fn follow(
        &mut self,
        board: &mut Board,
        turns: &[u8],
        text: &mut Vec<u8>,
    ) -> Result<(), AllocError>
        requires { self.old.turn < length turns.now }
        ensures reaches { (start : BoardModel) → CanFollow start turns.now → Reaches start turns.now self.old.turn self.old.last board.old.cores board.old.bus
            → Reaches start turns.now self.new.turn self.new.last board.new.cores board.new.bus }
        ensures followed { OnOk result ((start : BoardModel) → CanFollow start turns.now → Stands start turns.now self.old board.old.cores board.old.bus
            → IsFollowed start turns.now self.old text.old.items self.new text.new.items board.new.cores board.new.bus) }
        ensures turn { self.new.turn ≡ self.old.turn + 1 }
        ensures config { board.new.config ≡ board.old.config }
    {
        let made = self.advance(board, turns);
        self.stops.append_hits(made, board, text)
    }

    // Follows turns until one hits something or none is left.
    fn go(&mut self, board: &mut Board, turns: &[u8], text: &mut Vec<u8>) -> Result<(), AllocError>
        requires { text.old.items ≡ [] }
        ensures reaches { (start : BoardModel) → CanFollow start turns.now → Reaches start turns.now self.old.turn self.old.last board.old.cores board.old.bus
            → Reaches start turns.now self.new.turn self.new.last board.new.cores board.new.bus }
        ensures answered { OnOk result ((start : BoardModel) → CanFollow start turns.now → Stands start turns.now self.old board.old.cores board.old.bus
            → IsAnswered start turns.now self.old Go text.new.items self.new board.new.cores board.new.bus) }
        ensures config { board.new.config ≡ board.old.config }
    {
        while self.turn < turns.len() {
            self.follow(board, turns, text)?;
            if !text.is_empty() {
                return Ok(());
            }
        }
        append_turn(b"end turn ", self.turn, text)
    }

    // Makes turns up to a number of them.
    fn advance_to(&mut self, board: &mut Board, turns: &[u8], end: usize)
        requires { end ≤ length turns.now }
        ensures reaches { (start : BoardModel) → CanFollow start turns.now → Reaches start turns.now self.old.turn self.old.last board.old.cores board.old.bus
            → Reaches start turns.now self.new.turn self.new.last board.new.cores board.new.bus }
        ensures turn { self.old.turn ≤ end → self.new.turn ≡ end }
        ensures stops { self.new.stops ≡ self.old.stops }
        ensures config { board.new.config ≡ board.old.config }
    {
        while self.turn < end {
            self.advance(board, turns);
        }
    }

    // Makes so many turns, or as many as are left, without stops.
    fn make_turns(
        &mut self,
        board: &mut Board,
        turns: &[u8],
        count: u32,
        text: &mut Vec<u8>,
    ) -> Result<(), AllocError>
        requires { text.old.items ≡ [] }
        ensures reaches { (start : BoardModel) → CanFollow start turns.now → Reaches start turns.now self.old.turn self.old.last board.old.cores board.old.bus
            → Reaches start turns.now self.new.turn self.new.last board.new.cores board.new.bus }
        ensures answered { OnOk result ((start : BoardModel) → CanFollow start turns.now → Stands start turns.now self.old board.old.cores board.old.bus
            → IsAnswered start turns.now self.old (Turn count) text.new.items self.new board.new.cores board.new.bus) }
        ensures config { board.new.config ≡ board.old.config }
    {
        let end = self.turn.saturating_add(count as usize).min(turns.len());
        self.advance_to(board, turns, end);
        self.stops.look_again(board);
        append_turn(b"at turn ", self.turn, text)
    }

    // Does what a command says, and makes its text.
    pub(crate) fn answer(
        &mut self,
        board: &mut Board,
        turns: &[u8],
        command: Command,
        text: &mut Vec<u8>,
    ) -> Result<(), AllocError>
        requires text { text.old.items ≡ [] }
        requires few { HasFewTurns command }
        ensures reaches { (start : BoardModel) → CanFollow start turns.now → Reaches start turns.now self.old.turn self.old.last board.old.cores board.old.bus
            → Reaches start turns.now self.new.turn self.new.last board.new.cores board.new.bus }
        ensures answered { OnOk result ((start : BoardModel) → CanFollow start turns.now → Stands start turns.now self.old board.old.cores board.old.bus
            → IsAnswered start turns.now self.old command text.new.items self.new board.new.cores board.new.bus) }
        ensures config { board.new.config ≡ board.old.config }
    {
        match command {
            Command::Nothing => Ok(()),
            Command::Go => self.go(board, turns, text),
            Command::Turn { turns: count } => self.make_turns(board, turns, count, text),
            Command::Break { core, pc } => self.stops.set_break(core, pc),
            Command::Watch { address } => self.stops.set_watch(board, address),
            Command::Stores { address } => self.stops.set_store(board, address),
            Command::Registers { core } => append_registers(board, core, text),
            Command::Memory { address, words } => append_memory(board, address, words, text),
            Command::Lines { core } => append_lines(board, core, text),
            Command::Last { turns: count } => append_last(&self.last, count, text),
        }
    }
}
