//! The arithmetic of 32-bit words, with its carry and overflow flags.
#![tactic(auto)]

ghost use Rattle.std.specs.Prelude.{◌≡◌, ℕ, ◌+◌, ◌-◌, ◌*◌, ◌/◌, ◌%◌, ◌^◌, ◌==◌, ◌-ℤ◌, ◌*ℤ◌, nat_lt, if◌then◌else◌};
ghost use Rattle.or_words.specs.Word.{signed, remainder, exceeds_unsigned, exceeds_signed, unsigned_sum, signed_sum, signed_quotient, quotient_overflows, unsigned_quotient, lowest_one, highest_one, IsLowestOne, IsHighestOne};
ghost use Rattle.or_words.specs.Kind.{shifted, extended, compares, accumulated};

pub mod cache_registers;
pub mod limits;

use std::alloc::{AllocError, AllocFailed};

/// Memory ran out.
#[derive(Clone, Copy, Debug, PartialEq, Eq)]
pub struct NoMemory;

impl From<AllocError> for NoMemory {
    fn from(_error: AllocError) -> NoMemory {
        NoMemory
    }
}

impl<T> From<AllocFailed<T>> for NoMemory
where
    T: Drop,
{
    fn from(_refused: AllocFailed<T>) -> NoMemory {
        NoMemory
    }
}

/// How many bytes an access has: 1, 2 or 4.
#[derive(Clone, Copy, Debug, PartialEq, Eq)]
pub enum Width {
    Byte,
    Half,
    Word,
}

/// The settings of a run.
#[derive(Clone, Copy, Debug, PartialEq, Eq)]
pub struct Config {
    /// How many cores the board has, 1 to 8.
    pub cores: u32,
    /// How many steps each core may make, 1 to 67108864.
    pub budget: u32,
    /// The size of RAM in MiB, 1 to 256.
    pub ram: u32,
    /// Whether the PIC latches its lines; else its status shows their levels.
    pub latched: bool,
}

/// A shift to the left or to the right, or a rotation to the right.
#[derive(Clone, Copy, Debug, PartialEq, Eq)]
pub enum ShiftKind {
    Left,
    /// To the right, with zeros.
    RightLogical,
    /// To the right, with copies of the sign.
    RightArithmetic,
    RotateRight,
}

/// Which part of a word is kept, and how it is extended.
#[derive(Clone, Copy, Debug, PartialEq, Eq)]
pub enum ExtendKind {
    HalfSigned,
    ByteSigned,
    HalfZero,
    ByteZero,
    Whole,
}

/// A comparison: `u` is of unsigned words, `s` of signed ones.
#[derive(Clone, Copy, Debug, PartialEq, Eq)]
pub enum CompareCode {
    Eq,
    Ne,
    Gtu,
    Geu,
    Ltu,
    Leu,
    Gts,
    Ges,
    Lts,
    Les,
}

/// What becomes of the accumulator.
#[derive(Clone, Copy, Debug, PartialEq, Eq)]
pub enum MacKind {
    Plus,
    Minus,
    PlusUnsigned,
    MinusUnsigned,
    Set,
    SetUnsigned,
}

/// The sum of two words and a carry, with the carry out and the overflow.
#[inline(always)]
pub fn add(a: u32, b: u32, carry: bool) -> (u32, bool, bool)
    ensures sum { result.0 ≡ unsigned_sum a b carry % 2 ^ 32 }
    ensures carry { result.1 ≡ exceeds_unsigned (unsigned_sum a b carry) }
    ensures overflow { result.2 ≡ exceeds_signed (signed_sum a b carry) }
{
    let sum = u64::from(a) + u64::from(b) + u64::from(carry_value(carry));
    (
        low_word(sum),
        sum > u64::from(u32::MAX),
        exceeds_signed(signed_sum(a, b, carry)),
    )
}

#[inline(always)]
fn signed_sum(a: u32, b: u32, carry: bool) -> i64
    ensures { result ≡ signed_sum a b carry }
{
    i64::from(a.cast_signed()) + i64::from(b.cast_signed()) + i64::from(carry_value(carry))
}

#[inline(always)]
fn carry_value(carry: bool) -> u8
    ensures { result ≡ (if carry then 1 else 0) }
{
    if carry { 1 } else { 0 }
}

// The low 32 bits.
#[inline(always)]
fn low_word(value: u64) -> u32
    ensures { result ≡ value % 2 ^ 32 }
{
    (value & 0xffff_ffff) as u32
}

// A signed value does not fit 32 bits.
#[inline(always)]
fn exceeds_signed(value: i64) -> bool
    ensures { result ≡ exceeds_signed value }
{
    value < i64::from(i32::MIN) || i64::from(i32::MAX) < value
}

/// The difference of two words, with the borrow and the overflow.
#[inline(always)]
pub fn sub(a: u32, b: u32) -> (u32, bool, bool)
    ensures difference { result.0 ≡ (a + 2 ^ 32 - b) % 2 ^ 32 }
    ensures borrow { result.1 ≡ nat_lt a b }
    ensures overflow { result.2 ≡ exceeds_signed (signed a -ℤ signed b) }
{
    let signed_difference = i64::from(a.cast_signed()) - i64::from(b.cast_signed());
    (a.wrapping_sub(b), a < b, exceeds_signed(signed_difference))
}

/// The product of two words, with the overflow of the signed product.
#[inline(always)]
pub fn mul(a: u32, b: u32) -> (u32, bool)
    ensures product { result.0 ≡ a * b % 2 ^ 32 }
    ensures overflow { result.1 ≡ exceeds_signed (signed a *ℤ signed b) }
{
    let signed_product = i64::from(a.cast_signed()) * i64::from(b.cast_signed());
    (a.wrapping_mul(b), exceeds_signed(signed_product))
}

/// The product of two words, with the carry of the unsigned product.
pub fn mulu(a: u32, b: u32) -> (u32, bool)
    ensures product { result.0 ≡ a * b % 2 ^ 32 }
    ensures carry { result.1 ≡ exceeds_unsigned (a * b) }
{
    (
        a.wrapping_mul(b),
        u64::from(a) * u64::from(b) > u64::from(u32::MAX),
    )
}

/// The signed quotient toward zero, with the overflow. Division by zero gives 0 and overflows.
pub fn div(a: u32, b: u32) -> (u32, bool)
    ensures quotient { result.0 ≡ signed_quotient a b }
    ensures overflow { result.1 ≡ quotient_overflows a b }
{
    if b == 0 {
        return (0, true);
    }
    let (quotient, overflow) = a.cast_signed().overflowing_div(b.cast_signed());
    (quotient.cast_unsigned(), overflow)
}

/// The unsigned quotient, with the carry, which is set for division by zero alone: it gives 0.
pub fn divu(a: u32, b: u32) -> (u32, bool)
    ensures quotient { result.0 ≡ unsigned_quotient a b }
    ensures carry { result.1 ≡ (b == 0) }
{
    if b == 0 { (0, true) } else { (a / b, false) }
}

/// A shift or a rotation by the low five bits of `n`.
#[inline(always)]
pub fn shift(kind: ShiftKind, a: u32, n: u32) -> u32
    ensures { result ≡ shifted kind a n }
{
    let places = n % 32;
    match kind {
        ShiftKind::Left => a << places,
        ShiftKind::RightLogical => a >> places,
        ShiftKind::RightArithmetic => (a.cast_signed() >> places).cast_unsigned(),
        ShiftKind::RotateRight => a.rotate_right(places),
    }
}

/// The low half or byte, extended to a word.
#[inline(always)]
pub fn extend(kind: ExtendKind, a: u32) -> u32
    ensures { result ≡ extended kind a }
{
    match kind {
        ExtendKind::HalfSigned => i32::from(low_half(a).cast_signed()).cast_unsigned(),
        ExtendKind::ByteSigned => i32::from(low_byte(a).cast_signed()).cast_unsigned(),
        ExtendKind::HalfZero => u32::from(low_half(a)),
        ExtendKind::ByteZero => u32::from(low_byte(a)),
        ExtendKind::Whole => a,
    }
}

#[inline(always)]
fn low_half(a: u32) -> u16
    ensures { result ≡ a % 2 ^ 16 }
{
    (a & 0xffff) as u16
}

#[inline(always)]
fn low_byte(a: u32) -> u8
    ensures { result ≡ a % 2 ^ 8 }
{
    (a & 0xff) as u8
}

/// The place of the lowest one bit, counted from 1; 0 where there is none.
pub fn ff1(a: u32) -> u32
    ensures place { IsLowestOne a result }
    ensures value { result ≡ lowest_one a }
{
    if a == 0 { 0 } else { a.trailing_zeros() + 1 }
}

/// The place of the highest one bit, counted from 1; 0 where there is none.
pub fn fl1(a: u32) -> u32
    ensures place { IsHighestOne a result }
    ensures value { result ≡ highest_one a }
{
    32 - a.leading_zeros()
}

/// Whether the comparison holds.
#[inline(always)]
pub fn compare(code: CompareCode, a: u32, b: u32) -> bool
    ensures { result ≡ compares code a b }
{
    match code {
        CompareCode::Eq => a == b,
        CompareCode::Ne => a != b,
        CompareCode::Gtu => a > b,
        CompareCode::Geu => a >= b,
        CompareCode::Ltu => a < b,
        CompareCode::Leu => a <= b,
        CompareCode::Gts => a.cast_signed() > b.cast_signed(),
        CompareCode::Ges => a.cast_signed() >= b.cast_signed(),
        CompareCode::Lts => a.cast_signed() < b.cast_signed(),
        CompareCode::Les => a.cast_signed() <= b.cast_signed(),
    }
}

/// The accumulator's high and low words after an operation on them.
pub fn mac(kind: MacKind, hi: u32, lo: u32, a: u32, b: u32) -> (u32, u32)
    ensures { result.0 * 2 ^ 32 + result.1 ≡ remainder (accumulated kind (hi * 2 ^ 32 + lo) a b) (2 ^ 64) }
{
    let total = accumulate(kind, (u64::from(hi) << 32) | u64::from(lo), a, b);
    ((total >> 32) as u32, low_word(total))
}

fn accumulate(kind: MacKind, accumulator: u64, a: u32, b: u32) -> u64
    ensures { result ≡ remainder (accumulated kind accumulator a b) (2 ^ 64) }
{
    match kind {
        MacKind::Plus => accumulator.wrapping_add(signed_product(a, b)),
        MacKind::Minus => accumulator.wrapping_sub(signed_product(a, b)),
        MacKind::PlusUnsigned => accumulator.wrapping_add(u64::from(a) * u64::from(b)),
        MacKind::MinusUnsigned => accumulator.wrapping_sub(u64::from(a) * u64::from(b)),
        MacKind::Set => signed_product(a, b),
        MacKind::SetUnsigned => u64::from(a) * u64::from(b),
    }
}

// The signed product of two words, modulo 2 ^ 64.
fn signed_product(a: u32, b: u32) -> u64
    ensures { result ≡ remainder (signed a *ℤ signed b) (2 ^ 64) }
{
    (i64::from(a.cast_signed()) * i64::from(b.cast_signed())).cast_unsigned()
}
