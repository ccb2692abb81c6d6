//! The operands of a line.
ghost use Rattle.std.specs.Prelude.{◌≡◌, ◌≤◌, ◌^◌, IfSome};
ghost use Rattle.or_script.specs.Operands.{number_of, core_number, cores_named};

use or_text::numerals::{has_leading_zero, read_digits};

/// A number in decimal, or behind `0x` in hexadecimal digits of either case; leading zeros may stand. From 2^32 on all
/// count as 2^32. `None` where the text is no number.
pub fn number(text: &[u8]) -> Option<u64>
    ensures is { result ≡ number_of text.now }
    ensures within { IfSome result (λ n. n ≤ 2 ^ 32) }
{
    match text {
        [b'0', b'x', digits @ ..] => read_digits(16, digits),
        _ => read_digits(10, text),
    }
}

/// A number in decimal without leading zeros. From 2^32 on all count as 2^32. `None` where the text is none.
pub fn core_number(text: &[u8]) -> Option<u64>
    ensures is { result ≡ core_number text.now }
    ensures within { IfSome result (λ n. n ≤ 2 ^ 32) }
{
    if has_leading_zero(text) {
        None
    } else {
        read_digits(10, text)
    }
}

/// The core of a breakpoint: a number as `core_number` reads it, or none for `*`, which is every core. `None` where the text
/// is neither.
pub fn cores_named(text: &[u8]) -> Option<Option<u64>>
    ensures { result ≡ cores_named text.now }
{
    if text == b"*".as_slice() {
        return Some(None);
    }
    match core_number(text) {
        None => None,
        Some(core) => Some(Some(core)),
    }
}
