// A word of a source, as it is shown to people.
ghost use Rattle.std.specs.Prelude.{◌≡◌, ◌≤◌, not, length, take, position};
ghost use Rattle.std.specs.List.{before_first, position_or_len};
ghost use Rattle.or_asm.specs.Sentences.{is_printable, shown};

const MOST: usize = 32;

fn is_printable(byte: u8) -> bool
    ensures { result ≡ is_printable byte }
{
    b' ' <= byte && byte < 127
}

// The first bytes.
#[tactic(auto, using(crate::proofs::ShownText::fronts))]
fn front(word: &[u8]) -> &[u8]
    ensures { result.now ≡ take 32 word.now }
{
    if word.len() > MOST {
        word.split_at(MOST).0
    } else {
        word
    }
}

fn find_unprintable(text: &[u8]) -> Option<usize>
    ensures { result ≡ position (λ b. not (is_printable b)) text.now }
{
    text.iter().position(|byte| !is_printable(*byte))
}

#[tactic(auto, using(or_asm_read::proofs::Places::places))]
fn place_of_unprintable(text: &[u8]) -> usize
    ensures is { result ≡ position_or_len (λ b. not (is_printable b)) text.now }
    ensures within { result ≤ length text.now }
{
    match find_unprintable(text) {
        Some(place) => place,
        None => text.len(),
    }
}

// Up to the first byte that is not printable.
fn printable(text: &[u8]) -> &[u8]
    ensures { result.now ≡ before_first (λ b. not (is_printable b)) text.now }
{
    text.split_at(place_of_unprintable(text)).0
}

/// The first 32 bytes of a word at most, up to the first that is not printable.
#[tactic(auto, using(crate::proofs::ShownText::texts), unfolding(crate::specs::Sentences::shown))]
pub(crate) fn shown(word: &[u8]) -> &str
    ensures { result.now ≡ shown word.now }
{
    match str::from_utf8(printable(front(word))) {
        Ok(text) => text,
        Err(_) => "",
    }
}
