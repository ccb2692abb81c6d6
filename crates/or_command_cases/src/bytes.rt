// Bytes as the cases write and show them: `\n` a line feed, `\\` a backslash, `\xHH` any byte, every other character itself.
use crate::fault::CaseFault;
use std::alloc::{AllocError, Global};

// Where the reading of a text is.
#[derive(Clone, Copy)]
enum At {
    Plain,
    Backslash,
    FirstDigit,
    SecondDigit(u8),
}

fn digit(byte: u8) -> Result<u8, CaseFault> {
    match byte {
        b'0'..=b'9' => Ok(byte - b'0'),
        b'A'..=b'F' => Ok(byte - b'A' + 10),
        b'a'..=b'f' => Ok(byte - b'a' + 10),
        _ => Err(CaseFault::Form),
    }
}

// Takes one character of a text.
fn take(at: At, byte: u8, out: &mut Vec<u8>) -> Result<At, CaseFault> {
    match at {
        At::Plain if byte == b'\\' => Ok(At::Backslash),
        At::Plain => {
            out.push(byte)?;
            Ok(At::Plain)
        }
        At::Backslash if byte == b'x' => Ok(At::FirstDigit),
        At::Backslash => {
            out.push(if byte == b'n' { b'\n' } else { byte })?;
            Ok(At::Plain)
        }
        At::FirstDigit => Ok(At::SecondDigit(digit(byte)?)),
        At::SecondDigit(first) => {
            out.push(first.wrapping_mul(16) | digit(byte)?)?;
            Ok(At::Plain)
        }
    }
}

// The bytes that a text stands for.
pub(crate) fn read(alloc: Global, text: &str) -> Result<Vec<u8>, CaseFault> {
    let mut out = Vec::new(alloc);
    let mut at = At::Plain;
    for byte in text.as_bytes() {
        at = take(at, *byte, &mut out)?;
    }
    Ok(out)
}

fn glyph(digit: u8) -> char {
    if digit < 10 {
        (b'0' + digit) as char
    } else {
        (b'A' + digit.wrapping_sub(10) % 16) as char
    }
}

// Adds a byte as it is shown.
fn add_shown(byte: u8, out: &mut String) -> Result<(), AllocError> {
    match byte {
        b'\n' => out.push_str("\\n"),
        b'\\' => out.push_str("\\\\"),
        b' '..=b'~' => out.push(byte as char),
        _ => {
            out.push_str("\\x")?;
            out.push(glyph(byte / 16))?;
            out.push(glyph(byte % 16))
        }
    }
}

// Bytes as a text that stands for them.
pub(crate) fn shown(alloc: Global, bytes: &[u8]) -> Result<String, AllocError> {
    let mut out = String::new(alloc);
    for byte in bytes {
        add_shown(*byte, &mut out)?;
    }
    Ok(out)
}
