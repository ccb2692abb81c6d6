//! Numbers and bytes as text, appended to what a list holds.
#![tactic(auto)]

ghost use Rattle.std.specs.Prelude.{◌≡◌, ◌≤◌, ◌<◌, ◌+◌, ◌^◌, ◌++◌, length, OnOk, OnErr, vec_capacity, vec_len, decimal, codes, true, false, pos, negsuc};
ghost use Rattle.std.specs.Fmt.{digit_glyph, digits, signed_decimal};
ghost use Rattle.or_text.specs.Hexadecimal.{hexadecimal, word_text, digest_text};
ghost use Rattle.or_text.specs.Keeps.{Keeps};
ghost use Rattle.or_text.specs.Letters.{core_letter};

pub mod numerals;
mod sentence;

pub use sentence::{Clause, Part, Sentence, word_digits};
use std::alloc::AllocError;

/// Appends a number in decimal, without leading zeros.
#[tactic(auto, using(crate::proofs::Digits::digit_rules))]
pub fn append_decimal(n: u64, out: &mut Vec<u8>) -> Result<(), AllocError>
    ensures text { OnOk result (out.new.items ≡ out.old.items ++ decimal n) }
    ensures full { OnErr result (vec_capacity out.old < vec_len out.old + length (decimal n)) }
    ensures capacity { vec_capacity out.old ≤ vec_capacity out.new }
    ensures kept { Keeps out.old.items out.new.items }
{
    if n < 10 {
        out.push(b'0' + n as u8)?;
        return Ok(());
    }
    append_decimal(n / 10, out)?;
    out.push(b'0' + (n % 10) as u8)?;
    Ok(())
}

/// Appends a signed number in decimal, with `-` before a negative one.
pub fn append_signed(value: i32, out: &mut Vec<u8>) -> Result<(), AllocError>
    ensures text { OnOk result (out.new.items ≡ out.old.items ++ signed_decimal value) }
    ensures full { OnErr result (vec_capacity out.old < vec_len out.old + length (signed_decimal value)) }
    ensures capacity { vec_capacity out.old ≤ vec_capacity out.new }
    ensures kept { Keeps out.old.items out.new.items }
{
    if value < 0 {
        out.push(b'-')?;
    }
    append_decimal(u64::from(value.unsigned_abs()), out)
}

// The digit in capitals, as `A` for 10.
pub(crate) fn capital(digit: u32) -> u8
    requires { digit < 16 }
    ensures { result ≡ digit_glyph true digit }
{
    if digit < 10 {
        b'0' + digit as u8
    } else {
        b'A' + (digit - 10) as u8
    }
}

// The digit, as `a` for 10.
fn small(digit: u8) -> u8
    requires { digit < 16 }
    ensures { result ≡ digit_glyph false digit }
{
    if digit < 10 {
        b'0' + digit
    } else {
        b'a' + (digit - 10)
    }
}

/// The letter of a core, `a` for core 0, as schedules and reports name it.
pub fn core_letter(core: u32) -> u8
    ensures { result ≡ core_letter core }
{
    b'a' + (core % 26) as u8
}

// Appends a number in capital hexadecimal digits, without leading zeros.
#[tactic(auto, using(crate::proofs::Digits::digit_rules))]
fn append_digits(n: u32, out: &mut Vec<u8>) -> Result<(), AllocError>
    ensures text { OnOk result (out.new.items ≡ out.old.items ++ digits 16 true n) }
    ensures full { OnErr result (vec_capacity out.old < vec_len out.old + length (digits 16 true n)) }
    ensures capacity { vec_capacity out.old ≤ vec_capacity out.new }
    ensures kept { Keeps out.old.items out.new.items }
{
    if n < 16 {
        out.push(capital(n))?;
        return Ok(());
    }
    append_digits(n / 16, out)?;
    out.push(capital(n % 16))?;
    Ok(())
}

/// Appends a number as `0x` and capital hexadecimal digits, without leading zeros.
pub fn append_hexadecimal(n: u32, out: &mut Vec<u8>) -> Result<(), AllocError>
    ensures text { OnOk result (out.new.items ≡ out.old.items ++ hexadecimal n) }
    ensures full { OnErr result (vec_capacity out.old < vec_len out.old + length (hexadecimal n)) }
    ensures capacity { vec_capacity out.old ≤ vec_capacity out.new }
    ensures kept { Keeps out.old.items out.new.items }
{
    out.extend_from_slice(b"0x")?;
    append_digits(n, out)
}

/// Appends a word as eight capital hexadecimal digits.
#[tactic(auto, unfolding(crate::specs::Hexadecimal::word_text))]
pub fn append_word(n: u32, out: &mut Vec<u8>) -> Result<(), AllocError>
    ensures text { OnOk result (out.new.items ≡ out.old.items ++ word_text n) }
    ensures same { OnErr result (out.new.items ≡ out.old.items) }
    ensures full { OnErr result (vec_capacity out.old < vec_len out.old + length (word_text n)) }
    ensures capacity { vec_capacity out.old ≤ vec_capacity out.new }
    ensures kept { Keeps out.old.items out.new.items }
{
    out.extend_from_slice(&word_digits(n))
}

/// Appends bytes as two lower-case hexadecimal digits each.
#[tactic(auto, using(crate::proofs::Digits::digest_length))]
pub fn append_digest(bytes: &[u8], out: &mut Vec<u8>) -> Result<(), AllocError>
    ensures text { OnOk result (out.new.items ≡ out.old.items ++ digest_text bytes.now) }
    ensures full { OnErr result (vec_capacity out.old < vec_len out.old + length (digest_text bytes.now)) }
    ensures capacity { vec_capacity out.old ≤ vec_capacity out.new }
    ensures kept { Keeps out.old.items out.new.items }
{
    for byte in bytes {
        out.extend_from_slice(&[small(*byte / 16), small(*byte % 16)])?;
    }
    Ok(())
}

#[cfg(test)]
mod tests {
    use super::*;
    use std::alloc::Global;

    // Numbers in decimal, without leading zeros and of 32 bits.
    #[test]
    fn numerals(rt: HostRuntime) {
        let cases: [(&str, Option<u32>); 7] = [
            ("0", Some(0)),
            ("67108864", Some(67_108_864)),
            ("4294967295", Some(4_294_967_295)),
            ("4294967296", None),
            ("01", None),
            ("", None),
            ("+1", None),
        ];
        for (text, number) in cases {
            assert_eq!(rt; numerals::read_decimal(text.as_bytes()), number, "`{text}`");
        }
        assert_eq!(rt;
            numerals::read_digits(16, b"fFfFfFfFfF"),
            Some(0x1_0000_0000),
            "ten digits"
        );
    }

    // What the calls append.
    #[test]
    fn texts(rt: HostRuntime) {
        let alloc: Global = rt.alloc();
        let mut out: Vec<u8> = Vec::new(alloc);
        assert!(rt;
            append_decimal(18_446_744_073_709_551_615, &mut out).is_ok(),
            "append_decimal"
        );
        assert!(rt;
            append_signed(-2_147_483_648, &mut out).is_ok(),
            "append_signed"
        );
        assert!(rt;
            append_hexadecimal(0x1F0A, &mut out).is_ok(),
            "append_hexadecimal"
        );
        assert!(rt; append_word(0xAB, &mut out).is_ok(), "append_word");
        assert!(rt;
            append_digest(&[0x0F, 0xA0], &mut out).is_ok(),
            "append_digest"
        );
        assert!(rt;
            out.as_slice() == b"18446744073709551615-21474836480x1F0A000000AB0fa0".as_slice(),
            "the text"
        );
    }
}
