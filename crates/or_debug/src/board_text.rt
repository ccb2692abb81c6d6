//! What the debugger shows of a board.
ghost use Rattle.std.specs.Prelude.{◌≡◌, ◌≤◌, ◌<◌, ◌+◌, ◌++◌, OnOk, OnErr, length, vec_capacity, vec_len};
ghost use Rattle.or_model.specs.Turn.{Board as BoardModel};
ghost use Rattle.or_replay.specs.Board.{IsBoard};
ghost use Rattle.or_bus.specs.Answers.{word_shown};
ghost use Rattle.or_debug.specs.BoardText.{registers_text, memory_text, word_line, lines_text, index_line, index_lines, held_at};

use or_replay::{Board, core_text};
use or_text::{append_decimal, append_word};
use std::alloc::AllocError;

/// Appends the block of a core, or nothing where the board has no such core.
#[tactic(auto, unfolding(crate::specs::BoardText::registers_text))]
pub fn append_registers(board: &Board, core: u32, text: &mut Vec<u8>) -> Result<(), AllocError>
    ensures text { OnOk result ((now : BoardModel) → IsBoard board.now.cores board.now.bus now → text.new.items ≡ text.old.items ++ registers_text now core) }
    ensures full { OnErr result ((now : BoardModel) → IsBoard board.now.cores board.now.bus now → vec_capacity text.old < vec_len text.old + length (registers_text now core)) }
    ensures capacity { vec_capacity text.old ≤ vec_capacity text.new }
{
    match board.cores().get(core as usize) {
        Some(found) => match core_text(found, board.counts(core), text) {
            Ok(()) => Ok(()),
            Err(_) => Err(AllocError),
        },
        None => Ok(()),
    }
}

// A word of RAM behind its address.
fn append_shown(address: u32, word: Option<u32>, text: &mut Vec<u8>) -> Result<(), AllocError>
    ensures text { OnOk result (text.new.items ≡ text.old.items ++ word_line address word) }
    ensures full { OnErr result (vec_capacity text.old < vec_len text.old + length (word_line address word)) }
    ensures capacity { vec_capacity text.old ≤ vec_capacity text.new }
{
    match word {
        None => Ok(()),
        Some(word) => {
            append_word(address, text)?;
            text.extend_from_slice(b" ")?;
            append_word(word, text)?;
            text.extend_from_slice(b"\n")
        }
    }
}

/// Appends so many words of RAM from an address on, each behind its address.
pub fn append_memory(
    board: &mut Board,
    address: u32,
    words: u32,
    text: &mut Vec<u8>,
) -> Result<(), AllocError>
    ensures text { OnOk result ((now : BoardModel) → IsBoard board.old.cores board.old.bus now → text.new.items ≡ text.old.items ++ memory_text now.world.ram address words) }
    ensures full { OnErr result ((now : BoardModel) → IsBoard board.old.cores board.old.bus now → vec_capacity text.old < vec_len text.old + length (memory_text now.world.ram address words)) }
    ensures capacity { vec_capacity text.old ≤ vec_capacity text.new }
    ensures board { (now : BoardModel) → IsBoard board.old.cores board.old.bus now → IsBoard board.new.cores board.new.bus now }
    ensures config { board.new.config ≡ board.old.config }
{
    let mut place = address;
    let mut left = words;
    while left > 0 {
        let word = board.word(place);
        append_shown(place, word, text)?;
        place = place.wrapping_add(4);
        left -= 1;
    }
    Ok(())
}

// The address of the line that the core's data cache holds at an index.
fn line_address(board: &Board, core: u32, index: u32) -> Option<u32>
    requires core { core < length board.now.cores }
    requires index { index < 128 }
    ensures { (now : BoardModel) → IsBoard board.now.cores board.now.bus now → result ≡ held_at now.world.accesses core index }
{
    match board.line(core, index) {
        None => None,
        Some((address, _)) => Some(address),
    }
}

// The index of a valid line, and its address.
fn append_index(index: u32, address: Option<u32>, text: &mut Vec<u8>) -> Result<(), AllocError>
    ensures text { OnOk result (text.new.items ≡ text.old.items ++ index_line index address) }
    ensures full { OnErr result (vec_capacity text.old < vec_len text.old + length (index_line index address)) }
    ensures capacity { vec_capacity text.old ≤ vec_capacity text.new }
{
    match address {
        None => Ok(()),
        Some(address) => {
            append_decimal(u64::from(index), text)?;
            text.extend_from_slice(b" ")?;
            append_word(address, text)?;
            text.extend_from_slice(b"\n")
        }
    }
}

#[tactic(auto, using(crate::proofs::Texts::index_added))]
fn append_indexes(board: &Board, core: u32, text: &mut Vec<u8>) -> Result<(), AllocError>
    requires core { core < length board.now.cores }
    ensures text { OnOk result ((now : BoardModel) → IsBoard board.now.cores board.now.bus now → text.new.items ≡ text.old.items ++ index_lines now.world.accesses core 128) }
    ensures full { OnErr result ((now : BoardModel) → IsBoard board.now.cores board.now.bus now → vec_capacity text.old < vec_len text.old + length (index_lines now.world.accesses core 128)) }
    ensures capacity { vec_capacity text.old ≤ vec_capacity text.new }
{
    for index in 0..128u32 {
        append_index(index, line_address(board, core, index), text)?;
    }
    Ok(())
}

/// Appends the valid lines of a core's data cache, by index, or nothing where the board has no such core.
#[tactic(auto, unfolding(crate::specs::BoardText::lines_text))]
pub fn append_lines(board: &Board, core: u32, text: &mut Vec<u8>) -> Result<(), AllocError>
    ensures text { OnOk result ((now : BoardModel) → IsBoard board.now.cores board.now.bus now → text.new.items ≡ text.old.items ++ lines_text now core) }
    ensures full { OnErr result ((now : BoardModel) → IsBoard board.now.cores board.now.bus now → vec_capacity text.old < vec_len text.old + length (lines_text now core)) }
    ensures capacity { vec_capacity text.old ≤ vec_capacity text.new }
{
    if (core as usize) < board.cores().len() {
        append_indexes(board, core, text)
    } else {
        Ok(())
    }
}
