// The text of an instruction.
ghost use Rattle.std.specs.Prelude.{◌≡◌, ◌≤◌, ◌<◌, ◌+◌, ◌%◌, ◌++◌, OnOk, OnErr, length, vec_capacity, vec_len, pos};
ghost use Rattle.std.specs.List.{flat_map};
ghost use Rattle.or_text.specs.Keeps.{Keeps};
ghost use Rattle.or_isa.specs.Fits.{Fits};
ghost use Rattle.or_asm_text.specs.Texts.{register_text, slot_text, slots_text, next_text, further_text, text_of, target_of};

use crate::names::name;
use crate::operands::{Operands, Slot, natural, operands_for, slots};
use or_isa::Insn;
use or_text::{append_decimal, append_hexadecimal, append_signed};
use or_words::NoMemory;
use std::alloc::AllocError;

// Appends a register.
fn append_register(register: u32, out: &mut Vec<u8>) -> Result<(), AllocError>
    ensures text { OnOk result (out.new.items ≡ out.old.items ++ register_text register) }
    ensures full { OnErr result (vec_capacity out.old < vec_len out.old + length (register_text register)) }
    ensures capacity { vec_capacity out.old ≤ vec_capacity out.new }
    ensures kept { Keeps out.old.items out.new.items }
{
    out.push(b'r')?;
    append_decimal(u64::from(register), out)
}

// The address to which a jump of this many words leads.
pub(crate) fn target(pc: u32, words: i32) -> u32
    ensures { result ≡ target_of pc words }
{
    pc.wrapping_add(words.cast_unsigned().wrapping_mul(4))
}

// Appends the operand of a slot.
fn append_slot(
    pc: u32,
    slot: Slot,
    operands: &Operands,
    out: &mut Vec<u8>,
) -> Result<(), AllocError>
    ensures text { OnOk result (out.new.items ≡ out.old.items ++ slot_text pc slot operands.now) }
    ensures full { OnErr result (vec_capacity out.old < vec_len out.old + length (slot_text pc slot operands.now)) }
    ensures capacity { vec_capacity out.old ≤ vec_capacity out.new }
    ensures kept { Keeps out.old.items out.new.items }
{
    match slot {
        Slot::D => append_register(operands.d, out),
        Slot::A => append_register(operands.a, out),
        Slot::B => append_register(operands.b, out),
        Slot::Signed | Slot::Shift | Slot::Page => append_signed(operands.value, out),
        Slot::Half | Slot::OptionalHalf | Slot::HighHalf | Slot::LowHalf => {
            append_hexadecimal(natural(operands.value), out)
        }
        Slot::Target => append_hexadecimal(target(pc, operands.value), out),
        Slot::Memory => {
            append_signed(operands.value, out)?;
            out.push(b'(')?;
            append_register(operands.a, out)?;
            out.push(b')')?;
            Ok(())
        }
    }
}

// Appends an operand behind a comma.
fn append_next(
    pc: u32,
    slot: Slot,
    operands: &Operands,
    out: &mut Vec<u8>,
) -> Result<(), AllocError>
    ensures text { OnOk result (out.new.items ≡ out.old.items ++ next_text pc operands.now slot) }
    ensures full { OnErr result (vec_capacity out.old < vec_len out.old + length (next_text pc operands.now slot)) }
    ensures capacity { vec_capacity out.old ≤ vec_capacity out.new }
    ensures kept { Keeps out.old.items out.new.items }
{
    out.push(b',')?;
    append_slot(pc, slot, operands, out)
}

// Appends further operands, each behind a comma.
fn append_further(
    pc: u32,
    slots: &[Slot],
    operands: &Operands,
    out: &mut Vec<u8>,
) -> Result<(), AllocError>
    ensures text { OnOk result (out.new.items ≡ out.old.items ++ further_text pc operands.now slots.now) }
    ensures full { OnErr result (vec_capacity out.old < vec_len out.old + length (further_text pc operands.now slots.now)) }
    ensures capacity { vec_capacity out.old ≤ vec_capacity out.new }
    ensures kept { Keeps out.old.items out.new.items }
{
    for slot in slots {
        append_next(pc, *slot, operands, out)?;
    }
    Ok(())
}

// Appends a blank and the operands, if there are any.
fn append_slots(
    pc: u32,
    slots: &[Slot],
    operands: &Operands,
    out: &mut Vec<u8>,
) -> Result<(), AllocError>
    ensures text { OnOk result (out.new.items ≡ out.old.items ++ slots_text pc operands.now slots.now) }
    ensures full { OnErr result (vec_capacity out.old < vec_len out.old + length (slots_text pc operands.now slots.now)) }
    ensures capacity { vec_capacity out.old ≤ vec_capacity out.new }
    ensures kept { Keeps out.old.items out.new.items }
{
    match slots.split_first() {
        None => Ok(()),
        Some((slot, further)) => {
            out.push(b' ')?;
            append_slot(pc, *slot, operands, out)?;
            append_further(pc, further, operands, out)
        }
    }
}

/// Appends the text of an instruction that stands at the byte address `pc`, as `print` does, but takes no memory beside the
/// list's own. Errors: AllocError where the list has no room for the whole text and gets none; a part of it may then stand
/// behind what the list held.
#[tactic(auto, unfolding(crate::specs::Texts::text_of))]
pub fn append_text(insn: &Insn, pc: u32, out: &mut Vec<u8>) -> Result<(), AllocError>
    requires { Fits insn.now }
    ensures text { OnOk result (out.new.items ≡ out.old.items ++ text_of pc insn.now) }
    ensures full { OnErr result (vec_capacity out.old < vec_len out.old + length (text_of pc insn.now)) }
    ensures capacity { vec_capacity out.old ≤ vec_capacity out.new }
    ensures kept { Keeps out.old.items out.new.items }
{
    out.extend_from_slice(name(insn).as_bytes())?;
    append_slots(pc, slots(insn), &operands_for(insn), out)
}

/// Appends the text of an instruction that stands at the byte address `pc`, without a line feed: its name, and where it
/// has operands a blank and the operands, with commas between them. Immediates and shift lengths are decimal, 16-bit
/// constants and the targets of jumps are `0x` and capital hexadecimal digits. After `NoMemory` `out` is as it was.
pub fn print(i: &Insn, pc: u32, out: &mut Vec<u8>) -> Result<(), NoMemory>
    requires fits { Fits i.now }
    requires aligned { pc % 4 ≡ 0 }
    ensures ok { OnOk result (out.new.items ≡ out.old.items ++ text_of pc i.now) }
    ensures err { OnErr result (out.new.items ≡ out.old.items) }
    ensures full { OnErr result (vec_capacity out.old < vec_len out.old + length (text_of pc i.now)) }
{
    let before = out.len();
    match append_text(i, pc, out) {
        Ok(()) => Ok(()),
        Err(_) => {
            out.truncate(before);
            Err(NoMemory)
        }
    }
}
