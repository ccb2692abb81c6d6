// The pieces of a program.
ghost use Rattle.std.specs.Prelude.{◌≡◌, ◌++◌, [], ◌∷◌, OnOk, IfOk};
ghost use Rattle.std.specs.List.{list_any};
ghost use Rattle.or_asm.specs.Program.{covers, appended, extended};

use or_isa::Piece;
use std::alloc::{AllocError, Global};

/// Whether a piece has a word at a place.
pub(crate) fn piece_covers(piece: &Piece, place: u32) -> bool
    ensures { result ≡ covers place piece.now }
{
    piece.place <= place && (place - piece.place) as usize / 4 < piece.words.len()
}

/// Whether a word stands at a place.
pub(crate) fn is_covered(pieces: &[Piece], place: u32) -> bool
    ensures { result ≡ list_any (covers place) pieces.now }
{
    for piece in pieces {
        if piece_covers(piece, place) {
            return true;
        }
    }
    false
}

/// Begins a piece with a word.
pub(crate) fn begin_piece(
    alloc: Global,
    pieces: &mut Vec<Piece>,
    place: u32,
    word: u32,
) -> Result<(), AllocError>
    ensures { OnOk result (pieces.new.items ≡ pieces.old.items ++ (place, word ∷ []) ∷ []) }
{
    let words = vec![in alloc; word]?;
    pieces.push(Piece { place, words })?;
    Ok(())
}

// A piece with one more word.
fn append(piece: Piece, word: u32) -> Result<Piece, AllocError>
    ensures { IfOk result (λ longer. longer ≡ appended word piece) }
{
    let Piece { place, mut words } = piece;
    words.push(word)?;
    Ok(Piece { place, words })
}

/// Puts a word behind the last piece.
#[tactic(auto, using(crate::proofs::LastPiece::extend_step))]
pub(crate) fn extend_last(pieces: &mut Vec<Piece>, word: u32) -> Result<(), AllocError>
    ensures { OnOk result (pieces.new.items ≡ extended word pieces.old.items) }
{
    match pieces.pop() {
        None => Ok(()),
        Some(piece) => {
            let longer = append(piece, word)?;
            pieces.push(longer)?;
            Ok(())
        }
    }
}
