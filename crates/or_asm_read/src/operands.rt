// The operands of a statement.
ghost use Rattle.std.specs.Prelude.{◌≡◌, ◌≤ℤ◌, ◌≤◌, ◌<◌, ◌^◌, ◌/◌, ◌%◌, ℕ, ℤ, pos, negsuc, codes, Option, Some, None, ◌&&◌};
ghost use Rattle.std.specs.Int.{cast_unsigned, int_wrap, w16, w32};
ghost use Rattle.std.specs.Str.{bytes_eq};
ghost use Rattle.or_asm_read.specs.Operands.{as_value, with_value, unsigned_half, constant_at, optional_at, greatest_immediate, immediate_at, is_empty, address_operand, within, ranged, number_at, register_at, before_bracket, in_brackets, is_bracketed, bits_of, half_at, half_or, value_at, offset_of, quarter, jump_to, jump_at, memory_at, slot_at, placed, none_at, operands_at};
ghost use Rattle.or_asm_read.specs.Numbers.{number_of, register_of};
ghost use Rattle.or_asm_read.specs.Cuts.{is_label};
ghost use Rattle.or_asm_read.specs.Faults.{lesser_fault};

use crate::cuts::{after, before, has, is_label, trim};
use crate::fault::{Fault, lesser};
use crate::labels::LabelTable;
use crate::numbers::{number, register};
use or_asm_text::operands::{Operands, Slot};
use or_text::numerals::is_hexadecimal;

/// What an operand says: a register, a number, or both.
#[derive(Clone, Copy)]
pub struct Operand {
    pub register: u32,
    pub value: i32,
}

fn within(low: i32, high: i32, value: i64) -> Result<Operand, Fault>
    ensures { result ≡ as_value (within low high value) }
{
    if i64::from(low) <= value && value <= i64::from(high) {
        Ok(Operand {
            register: 0,
            value: value as i32,
        })
    } else {
        Err(Fault::OutOfRange)
    }
}

fn number_at(low: i32, high: i32, text: &[u8]) -> Result<Operand, Fault>
    ensures { result ≡ number_at low high text.now }
{
    match number(text) {
        Some(value) => within(low, high, value),
        None => Err(Fault::BadLine),
    }
}

fn register_at(text: &[u8]) -> Result<Operand, Fault>
    ensures { result ≡ register_at (register_of text.now) }
{
    match register(text) {
        Some(register) => Ok(Operand { register, value: 0 }),
        None => Err(Fault::BadLine),
    }
}

// K: 16 bits, spelled with or without a sign.
fn constant_at(text: &[u8]) -> Result<Operand, Fault>
    ensures { result ≡ constant_at text.now }
{
    match number_at(-32768, 65535, text) {
        Ok(Operand { register, value }) => Ok(Operand {
            register,
            value: value.rem_euclid(65536),
        }),
        Err(fault) => Err(fault),
    }
}

// K, or nothing for 0.
fn optional_at(text: &[u8]) -> Result<Operand, Fault>
    ensures { result ≡ optional_at text.now }
{
    if is_empty(text) {
        Ok(Operand {
            register: 0,
            value: 0,
        })
    } else {
        constant_at(text)
    }
}

// The greatest number that may stand for I.
fn greatest_immediate(text: &[u8]) -> i32
    ensures { result ≡ greatest_immediate text.now }
{
    if is_hexadecimal(text) { 65535 } else { 32767 }
}

// The low 16 bits of a number, read with their sign.
fn signed_half(value: i32) -> i32
    ensures { result ≡ int_wrap w16 value }
{
    i32::from((value.rem_euclid(65536) as u16).cast_signed())
}

// I: 16 bits with their sign, which hexadecimal digits may spell without it.
fn immediate_at(text: &[u8]) -> Result<Operand, Fault>
    ensures { result ≡ immediate_at text.now }
{
    match number_at(-32768, greatest_immediate(text), text) {
        Ok(Operand { register, value }) => Ok(Operand {
            register,
            value: signed_half(value),
        }),
        Err(fault) => Err(fault),
    }
}

#[tactic(auto, unfolding(crate::specs::Operands::before_bracket))]
fn before_bracket(text: &[u8]) -> &[u8]
    ensures { result.now ≡ before_bracket text.now }
{
    before(b'(', text)
}

#[tactic(auto, unfolding(crate::specs::Operands::in_brackets))]
pub(crate) fn in_brackets(text: &[u8]) -> &[u8]
    ensures { result.now ≡ in_brackets text.now }
{
    before(b')', after(b'(', text))
}

pub(crate) fn is_empty(text: &[u8]) -> bool
    ensures { result ≡ is_empty text.now }
{
    text.is_empty()
}

#[tactic(auto, unfolding(crate::specs::Operands::is_bracketed))]
fn is_bracketed(text: &[u8]) -> bool
    ensures { result ≡ is_bracketed text.now }
{
    let behind = after(b'(', text);
    has(b')', behind) && is_empty(after(b')', behind))
}

// A label's place, or a number.
#[tactic(auto, unfolding(crate::specs::Operands::value_at))]
fn value_at(labels: &LabelTable, text: &[u8]) -> Result<i64, Fault>
    ensures { result ≡ value_at labels.now text.now }
{
    if is_label(text) {
        match labels.place_of(text) {
            Some(place) => Ok(i64::from(place)),
            None => Err(Fault::UnknownLabel),
        }
    } else {
        match number(text) {
            Some(value) => Ok(value),
            None => Err(Fault::BadLine),
        }
    }
}

fn low_word(value: i64) -> u32
    requires low { negsuc 2147483647 ≤ℤ value }
    requires high { value ≤ℤ pos 4294967295 }
    ensures { result ≡ cast_unsigned w32 value }
{
    if value < 0 {
        (value as i32).cast_unsigned()
    } else {
        value as u32
    }
}

// The 32 bits of a label's place, or of a number from -2147483648 to 4294967295.
pub(crate) fn bits_at(labels: &LabelTable, text: &[u8]) -> Result<u32, Fault>
    ensures { result ≡ bits_of (value_at labels.now text.now) }
{
    match value_at(labels, text) {
        Err(fault) => Err(fault),
        Ok(value) => {
            if -2_147_483_648 <= value && value <= 4_294_967_295 {
                Ok(low_word(value))
            } else {
                Err(Fault::OutOfRange)
            }
        }
    }
}

fn is_half_of(name: &[u8], text: &[u8]) -> bool
    ensures { result ≡ (is_bracketed text.now && bytes_eq (before_bracket text.now) name.now) }
{
    is_bracketed(text) && before_bracket(text) == name
}

fn high_at(labels: &LabelTable, text: &[u8]) -> Result<Operand, Fault>
    ensures { result ≡ half_or (codes "hi") (λ word. word / 65536) labels.now text.now }
{
    if is_half_of(b"hi", text) {
        match bits_at(labels, in_brackets(text)) {
            Ok(word) => Ok(Operand {
                register: 0,
                value: (word / 65536) as i32,
            }),
            Err(fault) => Err(fault),
        }
    } else {
        constant_at(text)
    }
}

fn low_at(labels: &LabelTable, text: &[u8]) -> Result<Operand, Fault>
    ensures { result ≡ half_or (codes "lo") (λ word. word % 65536) labels.now text.now }
{
    if is_half_of(b"lo", text) {
        match bits_at(labels, in_brackets(text)) {
            Ok(word) => Ok(Operand {
                register: 0,
                value: (word % 65536) as i32,
            }),
            Err(fault) => Err(fault),
        }
    } else {
        constant_at(text)
    }
}

fn offset(pc: u32, target: u32) -> i32
    ensures { result ≡ offset_of pc target }
{
    target.wrapping_sub(pc).cast_signed()
}

// A quarter, where nothing is left over.
fn quarter(value: i32) -> i32
    ensures { result ≡ quarter value }
{
    value >> 2
}

fn jump_to(pc: u32, target: i64) -> Result<Operand, Fault>
    ensures { result ≡ jump_to pc target }
{
    if target < 0 || target > 4_294_967_295 || target % 4 != 0 {
        return Err(Fault::OutOfRange);
    }
    within(
        -0x200_0000,
        0x1ff_ffff,
        i64::from(quarter(offset(pc, target as u32))),
    )
}

fn jump_at(labels: &LabelTable, pc: u32, text: &[u8]) -> Result<Operand, Fault>
    ensures { result ≡ jump_at pc (value_at labels.now text.now) }
{
    match value_at(labels, text) {
        Ok(target) => jump_to(pc, target),
        Err(fault) => Err(fault),
    }
}

// What both give, or the lesser fault.
fn address_operand(
    value: Result<Operand, Fault>,
    register: Result<Operand, Fault>,
) -> Result<Operand, Fault>
    ensures { result ≡ lesser_fault address_operand value register }
{
    match (value, register) {
        (Ok(value), Ok(register)) => {
            Ok(Operand {
                register: register.register,
                value: value.value,
            })
        }
        (Ok(_), Err(fault)) => Err(fault),
        (Err(fault), Ok(_)) => Err(fault),
        (Err(first), Err(second)) => Err(lesser(first, second)),
    }
}

fn memory_at(text: &[u8]) -> Result<Operand, Fault>
    ensures { result ≡ memory_at text.now }
{
    if is_bracketed(text) {
        address_operand(
            immediate_at(before_bracket(text)),
            register_at(in_brackets(text)),
        )
    } else {
        Err(Fault::BadLine)
    }
}

#[tactic(auto, unfolding(crate::specs::Operands::slot_at))]
pub(crate) fn slot_at(
    labels: &LabelTable,
    pc: u32,
    slot: Slot,
    text: &[u8],
) -> Result<Operand, Fault>
    ensures { result ≡ slot_at labels.now pc slot text.now }
{
    match slot {
        Slot::D => register_at(text),
        Slot::A => register_at(text),
        Slot::B => register_at(text),
        Slot::Signed => immediate_at(text),
        Slot::Half => constant_at(text),
        Slot::OptionalHalf => optional_at(text),
        Slot::HighHalf => high_at(labels, text),
        Slot::LowHalf => low_at(labels, text),
        Slot::Shift => number_at(0, 63, text),
        Slot::Page => number_at(-1_048_576, 1_048_575, text),
        Slot::Target => jump_at(labels, pc, text),
        Slot::Memory => memory_at(text),
    }
}

fn placed(slot: Slot, operand: Operand, operands: Operands) -> Operands
    ensures { result ≡ placed slot operand operands }
{
    let Operand { register, value } = operand;
    match slot {
        Slot::D => Operands {
            d: register,
            ..operands
        },
        Slot::A => Operands {
            a: register,
            ..operands
        },
        Slot::B => Operands {
            b: register,
            ..operands
        },
        Slot::Memory => Operands {
            a: register,
            value,
            ..operands
        },
        _ => Operands { value, ..operands },
    }
}

// The operand at its place, or the lesser fault.
fn join(
    slot: Slot,
    operand: Result<Operand, Fault>,
    others: Result<Operands, Fault>,
) -> Result<Operands, Fault>
    ensures { result ≡ lesser_fault (placed slot) operand others }
{
    match (operand, others) {
        (Ok(operand), Ok(others)) => Ok(placed(slot, operand, others)),
        (Ok(_), Err(fault)) => Err(fault),
        (Err(fault), Ok(_)) => Err(fault),
        (Err(first), Err(second)) => Err(lesser(first, second)),
    }
}

/// The operands of a statement, parted by commas.
pub fn operands_at(
    labels: &LabelTable,
    pc: u32,
    slots: &[Slot],
    text: &[u8],
) -> Result<Operands, Fault>
    ensures { result ≡ operands_at labels.now pc slots.now text.now }
{
    match slots.split_first() {
        None => {
            if is_empty(trim(text)) {
                Ok(Operands {
                    d: 0,
                    a: 0,
                    b: 0,
                    value: 0,
                })
            } else {
                Err(Fault::BadLine)
            }
        }
        Some((slot, others)) => {
            if others.is_empty() {
                join(
                    *slot,
                    slot_at(labels, pc, *slot, trim(text)),
                    Ok(Operands {
                        d: 0,
                        a: 0,
                        b: 0,
                        value: 0,
                    }),
                )
            } else {
                let operand = slot_at(labels, pc, *slot, trim(before(b',', text)));
                join(
                    *slot,
                    operand,
                    operands_at(labels, pc, others, after(b',', text)),
                )
            }
        }
    }
}
