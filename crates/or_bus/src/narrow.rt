//! Parts of words.

ghost use Rattle.std.specs.Prelude.{◌≡◌, ℕ, ◌%◌, List};
ghost use Rattle.or_words.specs.declared.Width.TheVariants.{Byte, Word};
ghost use Rattle.or_parts.specs.Memory.{value_at};
ghost use Rattle.or_parts.specs.Lines.{line_bytes};
ghost use Rattle.or_bus.specs.Narrow.{narrowed};

use or_mem::word_at;
use or_words::Width;

/// The word at an address in the bytes of its line.
#[inline]
#[tactic(auto, using(crate::proofs::Ranges::word_of_line_at))]
pub fn word_of(line: &[u8; 32], pa: u32) -> u32
    requires { pa % 4 ≡ 0 }
    ensures { (ram : List ℕ) → line.now ≡ line_bytes ram pa → result ≡ value_at ram pa Word }
{
    word_at(line, (pa % 32) as usize)
}

/// The part of a big-endian word that begins at its byte k.
#[inline]
pub fn narrow(word: u32, k: u32, width: Width) -> u32
    ensures { result ≡ narrowed word k width }
{
    match width {
        Width::Byte => narrow_to_byte(word, k),
        Width::Half => { if k == 0 { word / 65536 } else { word % 65536 } }
        Width::Word => word,
    }
}

#[inline]
fn narrow_to_byte(word: u32, k: u32) -> u32
    ensures { result ≡ narrowed word k Byte }
{
    if k == 0 {
        word / 16_777_216
    } else if k == 1 {
        word / 65536 % 256
    } else if k == 2 {
        word / 256 % 256
    } else {
        word % 256
    }
}
