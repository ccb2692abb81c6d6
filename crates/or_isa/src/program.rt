//! Programs: words at their places.
ghost use Rattle.std.specs.Prelude.{ℕ, List};

use std::marker::Model;

/// Words that stand one behind the other in memory.
#[derive(Drop)]
pub struct Piece {
    /// The address of the first word, a multiple of four.
    pub place: u32,
    /// The words, in the order of their addresses.
    pub words: Vec<u32>,
}

impl Model for Piece {
    ghost Value = { ℕ × List ℕ };

    ghost view = { λ piece. (piece.place, piece.words.items) };
}

/// A program: its pieces, in the order in which they were written.
#[derive(Drop)]
pub struct Program {
    pub pieces: Vec<Piece>,
}

impl Model for Program {
    ghost Value = { List (ℕ × List ℕ) };

    ghost view = { λ program. program.pieces.items };
}
