//! What a run says of the cores that used up their budget.
ghost use Rattle.std.specs.Prelude.{◌≡◌, ◌≤◌, ◌++◌, length, IfOk, OnOk};
ghost use Rattle.std.specs.List.{flat_map};
ghost use Rattle.or_words.specs.declared.limits.TheConstants.{IMAGE_LIMIT};
ghost use Rattle.or_command.specs.Said.{Said};
ghost use Rattle.or_command_run.specs.Budgets.{named_functions, known_place_text, stopped_by_budget, pc_text, used_text, budget_line, budget_lines, AreSaidBehind};

use or_core::Core;
use or_elf::{SymFault, Symbols};
use or_host::{Failed, Host};
use or_model::Stop;
use or_text::{append_decimal, append_word};
use or_words::NoMemory;
use std::alloc::{AllocError, Global};

// The functions that an image names, unless its symbols have a fault.
fn named_functions(alloc: Global, image: &[u8]) -> Result<Option<Symbols>, NoMemory>
    requires long { 52 ≤ length image.now }
    requires short { length image.now ≤ IMAGE_LIMIT }
    ensures { IfOk result (λ symbols. symbols ≡ named_functions image.now) }
{
    match Symbols::read(alloc, image) {
        Ok(symbols) => Ok(Some(symbols)),
        Err(SymFault::NoMemory) => Err(NoMemory),
        Err(_) => Ok(None),
    }
}

// Appends the function that has an address and the distance from its start, where the functions are known.
fn append_known_place(
    symbols: &Option<Symbols>,
    pc: u32,
    out: &mut Vec<u8>,
) -> Result<(), AllocError>
    ensures { OnOk result (out.new.items ≡ out.old.items ++ known_place_text symbols.now pc) }
{
    match symbols {
        Some(symbols) => symbols.append_place(pc, out),
        None => Ok(()),
    }
}

fn stopped_by_budget(stop: Option<Stop>) -> bool
    ensures { result ≡ stopped_by_budget stop }
{
    match stop {
        Some(Stop::Budget) => true,
        _ => false,
    }
}

// Appends an address, and the function that has it.
fn append_pc(symbols: &Option<Symbols>, pc: u32, out: &mut Vec<u8>) -> Result<(), AllocError>
    ensures { OnOk result (out.new.items ≡ out.old.items ++ pc_text symbols.now pc) }
{
    append_word(pc, out)?;
    append_known_place(symbols, pc, out)
}

// Appends where the core of this number stands that used up its budget.
fn append_used(
    symbols: &Option<Symbols>,
    number: u32,
    budget: u32,
    pc: u32,
    out: &mut Vec<u8>,
) -> Result<(), AllocError>
    ensures { OnOk result (out.new.items ≡ out.old.items ++ used_text symbols.now number budget pc) }
{
    out.extend_from_slice(b"or1k: core ")?;
    append_decimal(u64::from(number), out)?;
    out.extend_from_slice(b" used its budget of ")?;
    append_decimal(u64::from(budget), out)?;
    out.extend_from_slice(b" steps at ")?;
    append_pc(symbols, pc, out)?;
    out.extend_from_slice(b"\n")?;
    Ok(())
}

// Appends the line of a core, where it used up its budget.
fn append_line(
    symbols: &Option<Symbols>,
    budget: u32,
    core: &Core,
    out: &mut Vec<u8>,
) -> Result<(), AllocError>
    ensures { OnOk result (out.new.items ≡ out.old.items ++ budget_line symbols.now budget core.now) }
{
    if stopped_by_budget(core.stop()) {
        append_used(symbols, core.number(), budget, core.place().pc, out)
    } else {
        Ok(())
    }
}

// Appends the lines of these cores.
fn append_lines(
    symbols: &Option<Symbols>,
    budget: u32,
    cores: &[Core],
    out: &mut Vec<u8>,
) -> Result<(), AllocError>
    ensures { OnOk result (out.new.items ≡ out.old.items ++ flat_map (budget_line symbols.now budget) cores.now) }
{
    for core in cores {
        append_line(symbols, budget, core, out)?;
    }
    Ok(())
}

/// The lines of the cores that used up their budget, which have run this image without a fault. Errors: NoMemory.
#[tactic(auto, unfolding(crate::specs::Budgets::budget_lines))]
pub(crate) fn budget_lines(
    alloc: Global,
    image: &[u8],
    budget: u32,
    cores: &[Core],
) -> Result<Vec<u8>, NoMemory>
    requires long { 52 ≤ length image.now }
    requires short { length image.now ≤ IMAGE_LIMIT }
    ensures { IfOk result (λ lines. lines.items ≡ budget_lines image.now budget cores.now) }
{
    let symbols = match named_functions(alloc, image) {
        Ok(symbols) => symbols,
        Err(NoMemory) => return Err(NoMemory),
    };
    let mut lines = Vec::new(alloc);
    match append_lines(&symbols, budget, cores, &mut lines) {
        Ok(()) => Ok(lines),
        Err(_) => Err(NoMemory),
    }
}

// Says text.
fn say_text<H: Host>(host: &mut H, text: &[u8]) -> Result<(), Failed>
    ensures { Said result text.now (H.state host.old) (H.state host.new) }
{
    host.say(text)
}

/// Says the lines of used-up budgets behind a run of this status, where it has done all. A fault of `say` changes nothing.
pub fn say_budgets<H: Host>(host: &mut H, status: u8, lines: &[u8])
    ensures { AreSaidBehind status lines.now (H.state host.old) (H.state host.new) }
{
    if status != 0 {
        return;
    }
    let _ = say_text(host, lines);
}
