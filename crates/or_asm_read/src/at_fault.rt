// The word of a faulty line that its fault is about.
ghost use Rattle.std.specs.Prelude.{◌≡◌};
ghost use Rattle.or_asm_read.specs.AtFault.{has_fault, operand_with, faulty_operand, from_disallowed, label_in, label_or_none, word_at_fault};
ghost use Rattle.or_asm_read.specs.Cuts.{label_of};

use crate::cuts::{
    after, before, is_allowed, is_clean, is_label, label, name, operands, statement, trim,
};
use crate::fault::{Fault, fault_number};
use crate::labels::LabelTable;
use crate::operands::{in_brackets, slot_at};
use crate::statements::statement_at;
use or_asm_text::names::insn_named;
use or_asm_text::operands::{Slot, slots};

fn has_fault<X>(fault: Fault, outcome: &Result<X, Fault>) -> bool
    ensures { result ≡ has_fault fault outcome.now }
{
    match outcome {
        Ok(_) => false,
        Err(found) => fault_number(*found) == fault_number(fault),
    }
}

// The first operand with this fault, which is the last where no other has it.
fn operand_with<'a>(
    fault: Fault,
    labels: &LabelTable,
    pc: u32,
    slots: &[Slot],
    text: &'a [u8],
) -> &'a [u8]
    ensures { result.now ≡ operand_with fault labels.now pc slots.now text.now }
{
    match slots.split_first() {
        None => trim(text),
        Some((slot, others)) => {
            if others.is_empty() {
                return trim(text);
            }
            let operand = trim(before(b',', text));
            if has_fault(fault, &slot_at(labels, pc, *slot, operand)) {
                return operand;
            }
            operand_with(fault, labels, pc, others, after(b',', text))
        }
    }
}

// The operand of a statement with this fault.
#[tactic(auto, unfolding(crate::specs::AtFault::faulty_operand))]
fn faulty_operand<'a>(fault: Fault, labels: &LabelTable, pc: u32, statement: &'a [u8]) -> &'a [u8]
    ensures { result.now ≡ faulty_operand fault labels.now pc statement.now }
{
    match insn_named(name(statement)) {
        None => trim(operands(statement)),
        Some(named) => operand_with(fault, labels, pc, slots(&named), operands(statement)),
    }
}

// From the first byte on that a line may not have.
fn from_disallowed(text: &[u8]) -> &[u8]
    ensures { result.now ≡ from_disallowed text.now }
{
    let mut rest = text;
    while let [first, others @ ..] = rest {
        if !is_allowed(*first) {
            break;
        }
        rest = others;
    }
    rest
}

// The label that an operand uses.
fn label_in(text: &[u8]) -> &[u8]
    ensures { result.now ≡ label_in text.now }
{
    if is_label(text) {
        text
    } else {
        in_brackets(text)
    }
}

fn label_or_none(line: &[u8]) -> &[u8]
    ensures { result.now ≡ label_or_none (label_of line.now) }
{
    match label(line) {
        None => b"".as_slice(),
        Some(label) => label,
    }
}

/// The word of a faulty line that its fault is about, as it stands there. It is empty where an operand is missing, or the
/// word has no room; where a byte is not allowed, it begins with this byte.
#[tactic(auto, unfolding(crate::specs::AtFault::word_at_fault))]
pub fn word_at_fault<'a>(labels: &LabelTable, pc: u32, line: &'a [u8], fault: Fault) -> &'a [u8]
    ensures { result.now ≡ word_at_fault labels.now pc line.now fault }
{
    let statement = statement(line);
    match fault {
        Fault::BadLine => {
            if is_clean(line) {
                faulty_operand(fault, labels, pc, statement)
            } else {
                from_disallowed(before(b'#', line))
            }
        }
        Fault::OutOfRange => {
            if has_fault(fault, &statement_at(labels, pc, statement)) {
                faulty_operand(fault, labels, pc, statement)
            } else {
                b"".as_slice()
            }
        }
        Fault::UnknownLabel => label_in(faulty_operand(fault, labels, pc, statement)),
        Fault::RepeatedLabel => label_or_none(line),
        Fault::UnknownName | Fault::Overlap => name(statement),
    }
}
