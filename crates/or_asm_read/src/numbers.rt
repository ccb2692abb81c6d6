// Numbers and registers.
ghost use Rattle.std.specs.Prelude.{◌≡◌};
ghost use Rattle.or_asm_read.specs.Numbers.{number_of, register_of};

use or_text::numerals::{has_leading_zero, read_digits, read_magnitude};

/// A number, at most 2 ^ 32 in size.
#[tactic(auto, unfolding(crate::specs::Numbers::number_of))]
pub fn number(text: &[u8]) -> Option<i64>
    ensures { result ≡ number_of text.now }
{
    match text {
        [] => None,
        [b'-', digits @ ..] => match read_magnitude(digits) {
            Some(magnitude) => Some(-(magnitude as i64)),
            None => None,
        },
        _ => match read_magnitude(text) {
            Some(magnitude) => Some(magnitude as i64),
            None => None,
        },
    }
}

/// The register of this name.
#[tactic(auto, unfolding(crate::specs::Numbers::register_of, or_text::specs::Numerals::value_of))]
pub fn register(text: &[u8]) -> Option<u32>
    ensures { result ≡ register_of text.now }
{
    match text {
        [b'r', digits @ ..] => match read_digits(10, digits) {
            Some(number) => {
                if number < 32 && !has_leading_zero(digits) {
                    Some(number as u32)
                } else {
                    None
                }
            }
            None => None,
        },
        _ => None,
    }
}
