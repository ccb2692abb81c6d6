//! The forms of a line.
ghost use Rattle.std.specs.Prelude.{◌≡◌, ◌≤◌, ◌<◌, ◌^◌, nat_lt, true, IfSome, [], ◌∷◌, Some, None};
ghost use Rattle.or_words.specs.declared.Config.{Config as ConfigModel};
ghost use Rattle.or_words.specs.Settings.{ram_bytes};
ghost use Rattle.or_script.specs.Command.{is_word_of_ram, turn_line, last_line, watch_line, stores_line, registers_line, lines_line, break_line, memory_line, with_one, with_two, no_operand, one_operand, two_operands, form_of, command_of, words_of};

use crate::cutting::cut;
use crate::operands::{core_number, cores_named, number};
use or_words::Config;
use or_words::limits::{LAST_TURNS, MIB, MOST_SHOWN_WORDS};

/// What a line of a script tells the debugger to do.
#[derive(Clone, Copy, Debug, PartialEq, Eq)]
pub enum Command {
    /// Nothing: the line is empty or begins with `#`.
    Nothing,
    /// `go`: follow turns until a point is hit or none is left.
    Go,
    /// `turn N`: follow so many turns, 1 to 4294967295, or as many as are left.
    Turn { turns: u32 },
    /// `break C ADDR`, `break * ADDR`: from now on hit where a turn of the core, or of any core, leaves its pc at the address.
    Break { core: Option<u32>, pc: u32 },
    /// `watch ADDR`: from now on hit where a turn changed the word of RAM at the address, a multiple of four.
    Watch { address: u32 },
    /// `stores ADDR`: from now on hit where a turn stores to the word of RAM at the address, a multiple of four.
    Stores { address: u32 },
    /// `regs C`: show the core's block.
    Registers { core: u32 },
    /// `mem ADDR N`: show so many words, 1 to 256, of RAM from an address on, a multiple of four.
    Memory { address: u32, words: u32 },
    /// `lines C`: show the valid lines of the core's data cache.
    Lines { core: u32 },
    /// `last N`: show the last so many turns, 1 to 64.
    Last { turns: u32 },
}

/// Why a line is refused.
#[derive(Clone, Copy, Debug, PartialEq, Eq)]
pub enum LineFault {
    /// The line has none of the forms.
    BadCommand,
    /// A number is out of its range, or there is a breakpoint, a watchpoint or a store point too many.
    OutOfRange,
}

const TOO_LARGE: u64 = 1 << 32;

// The bytes of RAM.
fn ram_bytes(config: &Config) -> u64
    ensures { result ≡ ram_bytes config.now }
{
    u64::from(config.ram) * u64::from(MIB)
}

// Whether the board has a core of this number.
fn is_core(config: &Config, core: u64) -> bool
    ensures value { result ≡ nat_lt core config.now.cores }
    ensures word { result ≡ true → core < 2 ^ 32 }
{
    core < u64::from(config.cores)
}

// Whether an address is that of a word of RAM.
fn is_word_of_ram(config: &Config, address: u64) -> bool
    ensures value { result ≡ is_word_of_ram config.now address }
    ensures word { result ≡ true → address < 2 ^ 32 }
{
    address % 4 == 0 && address < TOO_LARGE && address < ram_bytes(config)
}

fn turn_line(number: Option<u64>) -> Result<Command, LineFault>
    ensures { result ≡ with_one number turn_line }
{
    match number {
        None => Err(LineFault::BadCommand),
        Some(turns) => {
            if 1 <= turns && turns < TOO_LARGE {
                Ok(Command::Turn {
                    turns: turns as u32,
                })
            } else {
                Err(LineFault::OutOfRange)
            }
        }
    }
}

fn last_line(number: Option<u64>) -> Result<Command, LineFault>
    ensures { result ≡ with_one number last_line }
{
    match number {
        None => Err(LineFault::BadCommand),
        Some(turns) => {
            if 1 <= turns && turns <= LAST_TURNS as u64 {
                Ok(Command::Last {
                    turns: turns as u32,
                })
            } else {
                Err(LineFault::OutOfRange)
            }
        }
    }
}

fn watch_line(config: &Config, number: Option<u64>) -> Result<Command, LineFault>
    ensures { result ≡ with_one number (watch_line config.now) }
{
    match number {
        None => Err(LineFault::BadCommand),
        Some(address) => {
            if is_word_of_ram(config, address) {
                Ok(Command::Watch {
                    address: address as u32,
                })
            } else {
                Err(LineFault::OutOfRange)
            }
        }
    }
}

fn stores_line(config: &Config, number: Option<u64>) -> Result<Command, LineFault>
    ensures { result ≡ with_one number (stores_line config.now) }
{
    match number {
        None => Err(LineFault::BadCommand),
        Some(address) => {
            if is_word_of_ram(config, address) {
                Ok(Command::Stores {
                    address: address as u32,
                })
            } else {
                Err(LineFault::OutOfRange)
            }
        }
    }
}

fn registers_line(config: &Config, number: Option<u64>) -> Result<Command, LineFault>
    ensures { result ≡ with_one number (registers_line config.now) }
{
    match number {
        None => Err(LineFault::BadCommand),
        Some(core) => {
            if is_core(config, core) {
                Ok(Command::Registers { core: core as u32 })
            } else {
                Err(LineFault::OutOfRange)
            }
        }
    }
}

fn lines_line(config: &Config, number: Option<u64>) -> Result<Command, LineFault>
    ensures { result ≡ with_one number (lines_line config.now) }
{
    match number {
        None => Err(LineFault::BadCommand),
        Some(core) => {
            if is_core(config, core) {
                Ok(Command::Lines { core: core as u32 })
            } else {
                Err(LineFault::OutOfRange)
            }
        }
    }
}

// A breakpoint of one core.
fn break_of(config: &Config, core: u64, pc: u64) -> Result<Command, LineFault>
    ensures { result ≡ break_line config.now (Some core) pc }
{
    if is_core(config, core) && pc < TOO_LARGE {
        Ok(Command::Break {
            core: Some(core as u32),
            pc: pc as u32,
        })
    } else {
        Err(LineFault::OutOfRange)
    }
}

// A breakpoint of every core.
fn break_of_all(pc: u64) -> Result<Command, LineFault>
    ensures { (config : ConfigModel) → result ≡ break_line config None pc }
{
    if pc < TOO_LARGE {
        Ok(Command::Break {
            core: None,
            pc: pc as u32,
        })
    } else {
        Err(LineFault::OutOfRange)
    }
}

// A breakpoint of one core, or of every core.
fn break_at(config: &Config, core: Option<u64>, pc: u64) -> Result<Command, LineFault>
    ensures { result ≡ break_line config.now core pc }
{
    match core {
        Some(core) => break_of(config, core, pc),
        None => break_of_all(pc),
    }
}

fn break_line(
    config: &Config,
    core: Option<Option<u64>>,
    pc: Option<u64>,
) -> Result<Command, LineFault>
    ensures { result ≡ with_two core pc (break_line config.now) }
{
    match (core, pc) {
        (Some(core), Some(pc)) => break_at(config, core, pc),
        _ => Err(LineFault::BadCommand),
    }
}

fn memory_line(
    config: &Config,
    address: Option<u64>,
    words: Option<u64>,
) -> Result<Command, LineFault>
    requires address { IfSome address (λ n. n ≤ 2 ^ 32) }
    ensures { result ≡ with_two address words (memory_line config.now) }
{
    match (address, words) {
        (Some(address), Some(words)) => {
            if address % 4 == 0
                && address < TOO_LARGE
                && 1 <= words
                && words <= u64::from(MOST_SHOWN_WORDS)
                && address + 4 * words <= ram_bytes(config)
            {
                Ok(Command::Memory {
                    address: address as u32,
                    words: words as u32,
                })
            } else {
                Err(LineFault::OutOfRange)
            }
        }
        _ => Err(LineFault::BadCommand),
    }
}

fn no_operand(name: &[u8]) -> Result<Command, LineFault>
    ensures { result ≡ no_operand name.now }
{
    if name == b"go".as_slice() {
        Ok(Command::Go)
    } else if name.is_empty() {
        Ok(Command::Nothing)
    } else {
        Err(LineFault::BadCommand)
    }
}

fn one_operand(config: &Config, name: &[u8], word: &[u8]) -> Result<Command, LineFault>
    ensures { result ≡ one_operand config.now name.now word.now }
{
    if name == b"turn".as_slice() {
        turn_line(number(word))
    } else if name == b"last".as_slice() {
        last_line(number(word))
    } else if name == b"watch".as_slice() {
        watch_line(config, number(word))
    } else if name == b"stores".as_slice() {
        stores_line(config, number(word))
    } else if name == b"regs".as_slice() {
        registers_line(config, core_number(word))
    } else if name == b"lines".as_slice() {
        lines_line(config, core_number(word))
    } else {
        Err(LineFault::BadCommand)
    }
}

fn two_operands(
    config: &Config,
    name: &[u8],
    first: &[u8],
    second: &[u8],
) -> Result<Command, LineFault>
    ensures { result ≡ two_operands config.now name.now first.now second.now }
{
    if name == b"break".as_slice() {
        break_line(config, cores_named(first), number(second))
    } else if name == b"mem".as_slice() {
        memory_line(config, number(first), number(second))
    } else {
        Err(LineFault::BadCommand)
    }
}

// The command of a name, an operand, and what stands behind it.
#[tactic(auto, using(crate::proofs::Cuts::four_words))]
fn last_operand(
    config: &Config,
    name: &[u8],
    first: &[u8],
    text: &[u8],
) -> Result<Command, LineFault>
    ensures { result ≡ form_of config.now (name.now ∷ first.now ∷ words_of text.now) }
{
    let (second, more) = cut(b' ', text);
    match more {
        None => two_operands(config, name, first, second),
        Some(_) => Err(LineFault::BadCommand),
    }
}

// The command of a name and what stands behind it.
fn operands(config: &Config, name: &[u8], text: &[u8]) -> Result<Command, LineFault>
    ensures { result ≡ form_of config.now (name.now ∷ words_of text.now) }
{
    let (first, more) = cut(b' ', text);
    match more {
        None => one_operand(config, name, first),
        Some(text) => last_operand(config, name, first, text),
    }
}

// The command of a line that is no comment.
fn read_form(config: &Config, line: &[u8]) -> Result<Command, LineFault>
    ensures { result ≡ form_of config.now (words_of line.now) }
{
    let (name, more) = cut(b' ', line);
    match more {
        None => no_operand(name),
        Some(text) => operands(config, name, text),
    }
}

/// The command of a line: a name and its operands, parted by one blank each; an empty line and one that begins with `#` do
/// nothing.
///
/// Errors: BadCommand where the line has none of the forms, else OutOfRange where a number is out of its range.
#[tactic(auto, unfolding(crate::specs::Command::command_of))]
pub fn read_line(config: &Config, line: &[u8]) -> Result<Command, LineFault>
    ensures { result ≡ command_of config.now line.now }
{
    match line {
        [b'#', ..] => Ok(Command::Nothing),
        _ => read_form(config, line),
    }
}
