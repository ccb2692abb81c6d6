//! Numbers read from text.
ghost use Rattle.std.specs.Prelude.{◌≡◌, ◌+◌, ◌*◌, ◌≤◌, ◌<◌, ◌^◌, min, IfSome, nat_lt, if◌then◌else◌};
ghost use Rattle.std.specs.Char.{digit_value};
ghost use Rattle.or_text.specs.Numerals.{value_of, decimal_of, has_leading_zero, is_hexadecimal, magnitude_of};

const TOO_LARGE: u64 = 1 << 32;

fn digit(byte: u8) -> u8
    ensures { result ≡ digit_value byte }
{
    match byte {
        b'0'..=b'9' => byte - b'0',
        b'A'..=b'Z' => byte - b'A' + 10,
        b'a'..=b'z' => byte - b'a' + 10,
        _ => 36,
    }
}

// A number with one more digit.
fn append(value: u64, base: u8, digit: u8) -> u64
    requires { value ≤ 2 ^ 32 }
    ensures { result ≡ min (value * base + digit) (2 ^ 32) }
{
    (value * u64::from(base) + u64::from(digit)).min(TOO_LARGE)
}

/// The number that digits of a base from 1 to 36 write, in either case; from 2^32 on all count as 2^32.
/// `None` where the text is empty or has another byte.
#[tactic(auto, using(crate::proofs::Sizes::sizes), unfolding(crate::specs::Numerals::value_of))]
pub fn read_digits(base: u8, text: &[u8]) -> Option<u64>
    requires low { 1 ≤ base }
    requires high { base ≤ 36 }
    ensures is { result ≡ value_of base text.now }
    ensures within { IfSome result (λ n. n ≤ 2 ^ 32) }
{
    if text.is_empty() {
        return None;
    }
    let mut value: u64 = 0;
    let mut rest = text;
    while let Some((byte, others)) = rest.split_first() {
        let next = digit(*byte);
        if next >= base {
            return None;
        }
        value = append(value, base, next);
        rest = others;
    }
    Some(value)
}

/// Whether `0x` stands in front.
pub fn is_hexadecimal(text: &[u8]) -> bool
    ensures { result ≡ is_hexadecimal text.now }
{
    match text {
        [b'0', b'x', ..] => true,
        _ => false,
    }
}

/// The number that decimal digits write, or hexadecimal digits in either case behind `0x`; from 2^32 on all count as 2^32.
/// `None` where there are no digits or another byte stands among them.
pub fn read_magnitude(text: &[u8]) -> Option<u64>
    ensures is { result ≡ magnitude_of text.now }
    ensures within { IfSome result (λ n. n ≤ 2 ^ 32) }
{
    match text {
        [b'0', b'x', digits @ ..] => read_digits(16, digits),
        _ => read_digits(10, text),
    }
}

/// Whether a text has more than one byte, of which the first is `0`.
pub fn has_leading_zero(text: &[u8]) -> bool
    ensures { result ≡ has_leading_zero text.now }
{
    match text {
        [b'0', _, ..] => true,
        _ => false,
    }
}

/// The number below 2^32 that decimal digits without leading zeros write; else `None`.
#[tactic(auto, unfolding(crate::specs::Numerals::decimal_of))]
pub fn read_decimal(text: &[u8]) -> Option<u32>
    ensures { result ≡ decimal_of text.now }
{
    if has_leading_zero(text) {
        return None;
    }
    match read_digits(10, text) {
        Some(number) => narrow(number),
        None => None,
    }
}

// A number where it has 32 bits.
fn narrow(number: u64) -> Option<u32>
    ensures { result ≡ (if nat_lt number (2 ^ 32) then Some number else None) }
{
    if number < TOO_LARGE {
        Some(number as u32)
    } else {
        None
    }
}
