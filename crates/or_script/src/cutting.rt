//! Cuts text at a byte.
ghost use Rattle.std.specs.Prelude.{◌≡◌, ◌+◌, ◌<◌, ◌==◌, [], ◌∷◌, length, position, take, drop, IfSome};
ghost use Rattle.std.specs.List.{slice_split};
ghost use Rattle.or_script.specs.Parts.{parts_behind, length_behind};

fn find(byte: u8, text: &[u8]) -> Option<usize>
    ensures place { result ≡ position (λ b. b == byte) text.now }
    ensures within { IfSome result (λ place. place < length text.now) }
{
    text.iter().position(|b| *b == byte)
}

// What stands behind a place.
fn behind(place: usize, text: &[u8]) -> &[u8]
    requires { place < length text.now }
    ensures { result.now ≡ drop (place + 1) text.now }
{
    text.split_at(place + 1).1
}

/// What stands before the first such byte and what stands behind it; all of the text, and nothing behind it, where there is
/// no such byte.
#[tactic(auto, using(crate::proofs::Cuts::cuts))]
pub fn cut(byte: u8, text: &[u8]) -> (&[u8], Option<&[u8]>)
    ensures parts { slice_split (λ b. b == byte) text.now ≡ result.0.now ∷ parts_behind byte result.1 }
    ensures shorter { length_behind result.1 < length text.now + 1 }
{
    match find(byte, text) {
        Some(place) => (text.split_at(place).0, Some(behind(place, text))),
        None => (text, None),
    }
}
