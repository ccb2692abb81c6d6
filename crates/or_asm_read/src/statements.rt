// What a statement does.
ghost use Rattle.std.specs.Prelude.{◌≡◌};
ghost use Rattle.or_asm_read.specs.Numbers.{number_of};
ghost use Rattle.or_asm_read.specs.Operands.{value_at, bits_of, operands_at};
ghost use Rattle.or_asm_read.specs.Statements.{org_at, word_at, insn_at, made_of, named_at, statement_at, HasLowPlace};
ghost use Rattle.or_asm_text.specs.Names.{insn_named};
ghost use Rattle.or_asm_text.specs.Slots.{slots_of};

use crate::cuts::{name, operands, trim};
use crate::fault::Fault;
use crate::labels::LabelTable;
use crate::numbers::number;
use crate::operands::{bits_at, is_empty, operands_at};
use or_asm_text::names::insn_named;
use or_asm_text::operands::{slots, with_operands};
use or_isa::{Insn, encode};
use or_words::limits::MOST_RAM_BYTES;

/// What a statement does: nothing, it sets the place, or it puts a word.
#[derive(Clone, Copy)]
pub enum Statement {
    Nothing,
    Place(u32),
    Word(u32),
}

/// Where an .org leads.
pub fn org_at(text: &[u8]) -> Result<Statement, Fault>
    ensures is { result ≡ org_at (number_of text.now) }
    ensures low { HasLowPlace result }
{
    match number(text) {
        None => Err(Fault::BadLine),
        Some(place) => {
            if 0 <= place && place < i64::from(MOST_RAM_BYTES) && place % 4 == 0 {
                Ok(Statement::Place(place as u32))
            } else {
                Err(Fault::OutOfRange)
            }
        }
    }
}

fn word_at(labels: &LabelTable, text: &[u8]) -> Result<Statement, Fault>
    ensures is { result ≡ word_at (bits_of (value_at labels.now text.now)) }
    ensures low { HasLowPlace result }
{
    match bits_at(labels, text) {
        Ok(word) => Ok(Statement::Word(word)),
        Err(fault) => Err(fault),
    }
}

#[tactic(auto, using(crate::proofs::Found::made_fits))]
fn insn_at(labels: &LabelTable, pc: u32, named: &Insn, text: &[u8]) -> Result<Statement, Fault>
    ensures is { result ≡ made_of named.now (operands_at labels.now pc (slots_of named.now) text.now) }
    ensures low { HasLowPlace result }
{
    match operands_at(labels, pc, slots(named), text) {
        Ok(operands) => Ok(Statement::Word(encode(&with_operands(named, &operands)))),
        Err(fault) => Err(fault),
    }
}

fn instruction_at(
    labels: &LabelTable,
    pc: u32,
    name: &[u8],
    text: &[u8],
) -> Result<Statement, Fault>
    ensures is { result ≡ insn_at labels.now pc (insn_named name.now) text.now }
    ensures low { HasLowPlace result }
{
    match insn_named(name) {
        Some(named) => insn_at(labels, pc, &named, text),
        None => Err(Fault::UnknownName),
    }
}

#[tactic(auto, unfolding(crate::specs::Statements::named_at))]
fn named_at(labels: &LabelTable, pc: u32, name: &[u8], text: &[u8]) -> Result<Statement, Fault>
    ensures is { result ≡ named_at labels.now pc name.now text.now }
    ensures low { HasLowPlace result }
{
    if name == b".org".as_slice() {
        org_at(trim(text))
    } else if name == b".word".as_slice() {
        word_at(labels, trim(text))
    } else {
        instruction_at(labels, pc, name, text)
    }
}

/// What a statement does, or its least fault.
#[tactic(auto, unfolding(crate::specs::Statements::statement_at))]
pub fn statement_at(labels: &LabelTable, pc: u32, statement: &[u8]) -> Result<Statement, Fault>
    ensures is { result ≡ statement_at labels.now pc statement.now }
    ensures low { HasLowPlace result }
{
    if is_empty(statement) {
        Ok(Statement::Nothing)
    } else {
        named_at(labels, pc, name(statement), operands(statement))
    }
}
