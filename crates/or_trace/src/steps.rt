// The lines of steps.
ghost use Rattle.std.specs.Prelude.{◌≡◌, ◌≤◌, ◌<◌, ◌+◌, ◌++◌, OnOk, OnErr, codes, length, vec_capacity, vec_len};
ghost use Rattle.or_text.specs.Hexadecimal.{word_text};
ghost use Rattle.or_text.specs.Keeps.{Keeps};
ghost use Rattle.or_isa.specs.Decode.{decode_of};
ghost use Rattle.or_trace.specs.Text.{insn_text, executed_text, entry_text, step_text, steps_text};

use crate::names::exception_name;
use or_asm_text::printing::append_text;
use or_core::TracedStep;
use or_elf::Labels;
use or_isa::decode;
use or_parts::Cause;
use or_text::append_word;
use std::alloc::AllocError;

// Appends the instruction that a word is.
fn append_insn(pc: u32, word: u32, out: &mut Vec<u8>) -> Result<(), AllocError>
    ensures text { OnOk result (out.new.items ≡ out.old.items ++ insn_text pc (decode_of word)) }
    ensures full { OnErr result (vec_capacity out.old < vec_len out.old + length (insn_text pc (decode_of word))) }
    ensures capacity { vec_capacity out.old ≤ vec_capacity out.new }
    ensures kept { Keeps out.old.items out.new.items }
{
    match decode(word) {
        Some(insn) => append_text(&insn, pc, out),
        None => out.extend_from_slice(b"illegal"),
    }
}

// Appends a word between blanks.
fn append_fetched(word: u32, out: &mut Vec<u8>) -> Result<(), AllocError>
    ensures text { OnOk result (out.new.items ≡ out.old.items ++ codes " " ++ word_text word ++ codes " ") }
    ensures full { OnErr result (vec_capacity out.old < vec_len out.old + length (codes " " ++ word_text word ++ codes " ")) }
    ensures capacity { vec_capacity out.old ≤ vec_capacity out.new }
    ensures kept { Keeps out.old.items out.new.items }
{
    out.push(b' ')?;
    append_word(word, out)?;
    out.push(b' ')?;
    Ok(())
}

// Appends the word that a step executes, and its instruction.
fn append_executed(pc: u32, word: Option<u32>, out: &mut Vec<u8>) -> Result<(), AllocError>
    ensures text { OnOk result (out.new.items ≡ out.old.items ++ executed_text pc word) }
    ensures full { OnErr result (vec_capacity out.old < vec_len out.old + length (executed_text pc word)) }
    ensures capacity { vec_capacity out.old ≤ vec_capacity out.new }
    ensures kept { Keeps out.old.items out.new.items }
{
    let Some(word) = word else {
        return Ok(());
    };
    append_fetched(word, out)?;
    append_insn(pc, word, out)
}

// Appends the exception that a step enters.
fn append_entry(exception: Option<Cause>, out: &mut Vec<u8>) -> Result<(), AllocError>
    ensures text { OnOk result (out.new.items ≡ out.old.items ++ entry_text exception) }
    ensures full { OnErr result (vec_capacity out.old < vec_len out.old + length (entry_text exception)) }
    ensures capacity { vec_capacity out.old ≤ vec_capacity out.new }
    ensures kept { Keeps out.old.items out.new.items }
{
    let Some(cause) = exception else {
        return Ok(());
    };
    out.extend_from_slice(b" enters ")?;
    out.extend_from_slice(exception_name(cause).as_bytes())
}

// Appends the lines of a step.
#[tactic(auto, unfolding(crate::specs::Text::step_text))]
fn append_step(labels: &Labels, step: &TracedStep, out: &mut Vec<u8>) -> Result<(), AllocError>
    ensures text { OnOk result (out.new.items ≡ out.old.items ++ step_text labels.now step.now) }
    ensures full { OnErr result (vec_capacity out.old < vec_len out.old + length (step_text labels.now step.now)) }
    ensures capacity { vec_capacity out.old ≤ vec_capacity out.new }
    ensures kept { Keeps out.old.items out.new.items }
{
    labels.append(step.pc, out)?;
    append_word(step.pc, out)?;
    append_executed(step.pc, step.word, out)?;
    append_entry(step.exception, out)?;
    out.push(b'\n')?;
    Ok(())
}

// Appends the lines of steps.
#[tactic(auto, unfolding(crate::specs::Text::steps_text))]
pub fn append_steps(
    labels: &Labels,
    steps: &[TracedStep],
    out: &mut Vec<u8>,
) -> Result<(), AllocError>
    ensures text { OnOk result (out.new.items ≡ out.old.items ++ steps_text labels.now steps.now) }
    ensures full { OnErr result (vec_capacity out.old < vec_len out.old + length (steps_text labels.now steps.now)) }
    ensures capacity { vec_capacity out.old ≤ vec_capacity out.new }
    ensures kept { Keeps out.old.items out.new.items }
{
    for step in steps {
        append_step(labels, step, out)?;
    }
    Ok(())
}
