//! The report of a board.
ghost use Rattle.std.specs.Prelude.{◌≡◌, ◌+◌, ◌++◌, ◌<◌, ◌≤◌, OnOk, OnErr, IfOk, List, ℕ, length, vec_capacity, vec_len, codes, decimal};
ghost use Rattle.sha2.specs.Sha256.{sha256};
ghost use Rattle.or_text.specs.Hexadecimal.{digest_text};
ghost use Rattle.or_text.specs.Keeps.{Keeps};
ghost use Rattle.or_replay.specs.Board.{AreOfBus};
ghost use Rattle.or_model.specs.Turn.{Board as BoardModel};
ghost use Rattle.or_model.specs.World.{World};
ghost use Rattle.or_bus.specs.Represents.{Represents};
ghost use Rattle.or_replay.specs.Report.{stop_text, slot_text, progress_line, field_text, place_line, unit_line, behind_register, registers_text, core_block, core_blocks, counts_line, report_text};
ghost use Rattle.or_parts.specs.Devices.{console_of};

use or_bus::{Bus, Counts};
use or_core::{Core, Stop};
use or_parts::PcState;
use or_parts::registers::{EEAR0, EPCR0, ESR0, MACHI, MACLO, PICMR, PICSR, SR, TTCR, TTMR};
use or_text::{append_decimal, append_digest, append_word};
use or_words::NoMemory;
use sha2::{Digest, Sha256};
use std::alloc::AllocError;

/// Appends how a core has stopped: `exit` with its value, `budget`, or `running`.
pub fn append_stop(stop: Option<Stop>, out: &mut Vec<u8>) -> Result<(), AllocError>
    ensures text { OnOk result (out.new.items ≡ out.old.items ++ stop_text stop) }
    ensures full { OnErr result (vec_capacity out.old < vec_len out.old + length (stop_text stop)) }
    ensures capacity { vec_capacity out.old ≤ vec_capacity out.new }
    ensures kept { Keeps out.old.items out.new.items }
{
    match stop {
        None => out.extend_from_slice(b"running"),
        Some(Stop::Budget) => out.extend_from_slice(b"budget"),
        Some(Stop::Exit(word)) => {
            out.extend_from_slice(b"exit ")?;
            append_word(word, out)
        }
    }
}

fn append_slot(branch: Option<u32>, out: &mut Vec<u8>) -> Result<(), AllocError>
    ensures text { OnOk result (out.new.items ≡ out.old.items ++ slot_text branch) }
    ensures full { OnErr result (vec_capacity out.old < vec_len out.old + length (slot_text branch)) }
    ensures capacity { vec_capacity out.old ≤ vec_capacity out.new }
    ensures kept { Keeps out.old.items out.new.items }
{
    match branch {
        None => out.extend_from_slice(b"-"),
        Some(destination) => append_word(destination, out),
    }
}

// A name with its blank, and a number.
fn append_number(name: &[u8], number: u64, out: &mut Vec<u8>) -> Result<(), AllocError>
    ensures text { OnOk result (out.new.items ≡ out.old.items ++ (name.now ++ decimal number)) }
    ensures full { OnErr result (vec_capacity out.old < vec_len out.old + length (name.now ++ decimal number)) }
    ensures capacity { vec_capacity out.old ≤ vec_capacity out.new }
    ensures kept { Keeps out.old.items out.new.items }
{
    out.extend_from_slice(name)?;
    append_decimal(number, out)
}

// A core's number, and how it has stopped.
fn append_stopped(core: &Core, out: &mut Vec<u8>) -> Result<(), AllocError>
    ensures text { OnOk result (out.new.items ≡ out.old.items ++ (codes "core " ++ decimal core.now.number ++ codes " " ++ stop_text core.now.stop)) }
    ensures full { OnErr result (vec_capacity out.old < vec_len out.old + length (codes "core " ++ decimal core.now.number ++ codes " " ++ stop_text core.now.stop)) }
    ensures capacity { vec_capacity out.old ≤ vec_capacity out.new }
    ensures kept { Keeps out.old.items out.new.items }
{
    append_number(b"core ", u64::from(core.number()), out)?;
    out.extend_from_slice(b" ")?;
    append_stop(core.stop(), out)
}

// The end of a core's first line.
fn append_hits(counts: Counts, out: &mut Vec<u8>) -> Result<(), AllocError>
    ensures text { OnOk result (out.new.items ≡ out.old.items ++ (codes " hits " ++ decimal counts.hits ++ codes " misses " ++ decimal counts.misses ++ codes "\n")) }
    ensures full { OnErr result (vec_capacity out.old < vec_len out.old + length (codes " hits " ++ decimal counts.hits ++ codes " misses " ++ decimal counts.misses ++ codes "\n")) }
    ensures capacity { vec_capacity out.old ≤ vec_capacity out.new }
    ensures kept { Keeps out.old.items out.new.items }
{
    append_number(b" hits ", counts.hits, out)?;
    append_number(b" misses ", counts.misses, out)?;
    out.extend_from_slice(b"\n")
}

#[tactic(auto, unfolding(crate::specs::Report::progress_line))]
fn append_progress(core: &Core, counts: Counts, out: &mut Vec<u8>) -> Result<(), AllocError>
    ensures text { OnOk result (out.new.items ≡ out.old.items ++ progress_line core.now counts) }
    ensures full { OnErr result (vec_capacity out.old < vec_len out.old + length (progress_line core.now counts)) }
    ensures capacity { vec_capacity out.old ≤ vec_capacity out.new }
    ensures kept { Keeps out.old.items out.new.items }
{
    append_stopped(core, out)?;
    append_number(b" steps ", u64::from(core.steps()), out)?;
    append_hits(counts, out)
}

// The special registers of a report.
#[tactic(auto, unfolding(or_model::specs::SpecialAccess::special, or_parts::specs::Special::spr_route, or_parts::specs::Special::own_read))]
fn saved(core: &Core) -> (u32, u32, u32, u32)
    ensures sr { result.0 ≡ core.now.sr }
    ensures epcr { result.1 ≡ core.now.epcr }
    ensures eear { result.2 ≡ core.now.eear }
    ensures esr { result.3 ≡ core.now.esr }
{
    (
        core.special(SR),
        core.special(EPCR0),
        core.special(EEAR0),
        core.special(ESR0),
    )
}

#[tactic(auto, unfolding(or_model::specs::SpecialAccess::special, or_parts::specs::Special::spr_route, or_parts::specs::Special::own_read))]
fn accumulator(core: &Core) -> (u32, u32)
    ensures high { result.0 ≡ core.now.machi }
    ensures low { result.1 ≡ core.now.maclo }
{
    (core.special(MACHI), core.special(MACLO))
}

#[tactic(auto, unfolding(or_model::specs::SpecialAccess::special, or_parts::specs::Special::spr_route))]
fn timer(core: &Core) -> (u32, u32)
    ensures mode { result.0 ≡ core.now.ttmr }
    ensures count { result.1 ≡ core.now.ttcr }
{
    (core.special(TTMR), core.special(TTCR))
}

#[tactic(auto, unfolding(or_model::specs::SpecialAccess::special, or_parts::specs::Special::spr_route))]
fn interrupts(core: &Core) -> (u32, u32)
    ensures mask { result.0 ≡ core.now.picmr }
    ensures status { result.1 ≡ core.now.picsr }
{
    (core.special(PICMR), core.special(PICSR))
}

// A name with its blank, and a word.
fn append_field(name: &[u8], word: u32, out: &mut Vec<u8>) -> Result<(), AllocError>
    ensures text { OnOk result (out.new.items ≡ out.old.items ++ field_text name.now word) }
    ensures full { OnErr result (vec_capacity out.old < vec_len out.old + length (field_text name.now word)) }
    ensures capacity { vec_capacity out.old ≤ vec_capacity out.new }
    ensures kept { Keeps out.old.items out.new.items }
{
    out.extend_from_slice(name)?;
    append_word(word, out)
}

// Two names and words.
fn append_pair(
    name: &[u8],
    word: u32,
    other_name: &[u8],
    other: u32,
    out: &mut Vec<u8>,
) -> Result<(), AllocError>
    ensures text { OnOk result (out.new.items ≡ out.old.items ++ (field_text name.now word ++ field_text other_name.now other)) }
    ensures full { OnErr result (vec_capacity out.old < vec_len out.old + length (field_text name.now word ++ field_text other_name.now other)) }
    ensures capacity { vec_capacity out.old ≤ vec_capacity out.new }
    ensures kept { Keeps out.old.items out.new.items }
{
    append_field(name, word, out)?;
    append_field(other_name, other, out)
}

// Where a core is.
fn append_pc(place: PcState, out: &mut Vec<u8>) -> Result<(), AllocError>
    ensures text { OnOk result (out.new.items ≡ out.old.items ++ (field_text (codes "pc ") place.pc ++ codes " slot " ++ slot_text place.branch)) }
    ensures full { OnErr result (vec_capacity out.old < vec_len out.old + length (field_text (codes "pc ") place.pc ++ codes " slot " ++ slot_text place.branch)) }
    ensures capacity { vec_capacity out.old ≤ vec_capacity out.new }
    ensures kept { Keeps out.old.items out.new.items }
{
    append_field(b"pc ", place.pc, out)?;
    out.extend_from_slice(b" slot ")?;
    append_slot(place.branch, out)
}

#[tactic(auto, unfolding(crate::specs::Report::place_line))]
fn append_place(core: &Core, out: &mut Vec<u8>) -> Result<(), AllocError>
    ensures text { OnOk result (out.new.items ≡ out.old.items ++ place_line core.now) }
    ensures full { OnErr result (vec_capacity out.old < vec_len out.old + length (place_line core.now)) }
    ensures capacity { vec_capacity out.old ≤ vec_capacity out.new }
    ensures kept { Keeps out.old.items out.new.items }
{
    let place = core.place();
    let (sr, epcr, eear, esr) = saved(core);
    append_pc(place, out)?;
    append_pair(b" sr ", sr, b" epcr ", epcr, out)?;
    append_pair(b" eear ", eear, b" esr ", esr, out)?;
    out.extend_from_slice(b"\n")
}

#[tactic(auto, unfolding(crate::specs::Report::unit_line))]
fn append_units(core: &Core, out: &mut Vec<u8>) -> Result<(), AllocError>
    ensures text { OnOk result (out.new.items ≡ out.old.items ++ unit_line core.now) }
    ensures full { OnErr result (vec_capacity out.old < vec_len out.old + length (unit_line core.now)) }
    ensures capacity { vec_capacity out.old ≤ vec_capacity out.new }
    ensures kept { Keeps out.old.items out.new.items }
{
    let (machi, maclo) = accumulator(core);
    let (ttmr, ttcr) = timer(core);
    let (picmr, picsr) = interrupts(core);
    append_pair(b"machi ", machi, b" maclo ", maclo, out)?;
    append_pair(b" ttmr ", ttmr, b" ttcr ", ttcr, out)?;
    append_pair(b" picmr ", picmr, b" picsr ", picsr, out)?;
    out.extend_from_slice(b"\n")
}

fn append_behind(n: u32, out: &mut Vec<u8>) -> Result<(), AllocError>
    ensures text { OnOk result (out.new.items ≡ out.old.items ++ behind_register n) }
    ensures full { OnErr result (vec_capacity out.old < vec_len out.old + length (behind_register n)) }
    ensures capacity { vec_capacity out.old ≤ vec_capacity out.new }
    ensures kept { Keeps out.old.items out.new.items }
{
    if n % 8 == 7 {
        out.extend_from_slice(b"\n")
    } else {
        out.extend_from_slice(b" ")
    }
}

// All registers, eight in a line.
#[tactic(auto, using(crate::proofs::Registers::registers))]
fn append_registers(core: &Core, out: &mut Vec<u8>) -> Result<(), AllocError>
    ensures text { OnOk result (out.new.items ≡ out.old.items ++ registers_text core.now 32) }
    ensures full { OnErr result (vec_capacity out.old < vec_len out.old + length (registers_text core.now 32)) }
    ensures capacity { vec_capacity out.old ≤ vec_capacity out.new }
    ensures kept { Keeps out.old.items out.new.items }
{
    for n in 0..32u32 {
        append_word(core.register(n), out)?;
        append_behind(n, out)?;
    }
    Ok(())
}

#[tactic(auto, unfolding(crate::specs::Report::core_block))]
fn append_core(core: &Core, counts: Counts, out: &mut Vec<u8>) -> Result<(), AllocError>
    ensures text { OnOk result (out.new.items ≡ out.old.items ++ core_block core.now counts) }
    ensures full { OnErr result (vec_capacity out.old < vec_len out.old + length (core_block core.now counts)) }
    ensures capacity { vec_capacity out.old ≤ vec_capacity out.new }
    ensures kept { Keeps out.old.items out.new.items }
{
    append_progress(core, counts, out)?;
    append_place(core, out)?;
    append_units(core, out)?;
    append_registers(core, out)
}

/// Appends a core's block of a report: seven lines with its progress, its place, its accumulator, tick timer and
/// interrupt controller, and its registers. Errors: NoMemory, only where `out` lacks capacity for the block, and then its bytes
/// are as before.
pub fn core_text(core: &Core, counts: Counts, out: &mut Vec<u8>) -> Result<(), NoMemory>
    ensures ok { OnOk result (out.new.items ≡ out.old.items ++ core_block core.now counts) }
    ensures err { OnErr result (out.new.items ≡ out.old.items) }
    ensures full { OnErr result (vec_capacity out.old < vec_len out.old + length (core_block core.now counts)) }
    ensures capacity { vec_capacity out.old ≤ vec_capacity out.new }
{
    let before = out.len();
    match append_core(core, counts, out) {
        Ok(()) => Ok(()),
        Err(_) => {
            out.truncate(before);
            Err(NoMemory)
        }
    }
}

fn append_cores(cores: &[Core], bus: &Bus, out: &mut Vec<u8>) -> Result<(), AllocError>
    requires { AreOfBus cores.now bus.now }
    ensures text { OnOk result ((world : World) → Represents bus.now world → out.new.items ≡ out.old.items ++ core_blocks world cores.now) }
    ensures full { OnErr result ((world : World) → Represents bus.now world → vec_capacity out.old < vec_len out.old + length (core_blocks world cores.now)) }
    ensures capacity { vec_capacity out.old ≤ vec_capacity out.new }
    ensures kept { Keeps out.old.items out.new.items }
{
    for core in cores {
        append_core(core, bus.counts(core.number()), out)?;
    }
    Ok(())
}

#[tactic(auto, unfolding(crate::specs::Report::counts_line))]
fn append_counts(
    cores: usize,
    turns: u64,
    console: usize,
    out: &mut Vec<u8>,
) -> Result<(), AllocError>
    ensures text { OnOk result (out.new.items ≡ out.old.items ++ counts_line cores turns console) }
    ensures full { OnErr result (vec_capacity out.old < vec_len out.old + length (counts_line cores turns console)) }
    ensures capacity { vec_capacity out.old ≤ vec_capacity out.new }
    ensures kept { Keeps out.old.items out.new.items }
{
    append_number(b"cores ", cores as u64, out)?;
    append_number(b" turns ", turns, out)?;
    append_number(b" console ", console as u64, out)?;
    out.extend_from_slice(b"\n")
}

// The report up to RAM's digest.
fn append_front(cores: &[Core], bus: &Bus, turns: u64, out: &mut Vec<u8>) -> Result<(), AllocError>
    requires { AreOfBus cores.now bus.now }
    ensures text { OnOk result ((world : World) → Represents bus.now world
        → out.new.items ≡ out.old.items ++ (codes "orreport 1\n" ++ counts_line (length cores.now) turns (length (console_of world.devices)) ++ core_blocks world cores.now)) }
    ensures full { OnErr result ((world : World) → Represents bus.now world
        → vec_capacity out.old < vec_len out.old + length (codes "orreport 1\n" ++ counts_line (length cores.now) turns (length (console_of world.devices)) ++ core_blocks world cores.now)) }
    ensures capacity { vec_capacity out.old ≤ vec_capacity out.new }
    ensures kept { Keeps out.old.items out.new.items }
{
    out.extend_from_slice(b"orreport 1\n")?;
    append_counts(cores.len(), turns, bus.console().len(), out)?;
    append_cores(cores, bus, out)
}

fn append_memory(ram: &[u8], out: &mut Vec<u8>) -> Result<(), AllocError>
    ensures text { OnOk result (out.new.items ≡ out.old.items ++ (codes "memory " ++ digest_text (sha256 ram.now) ++ codes "\n")) }
    ensures full { OnErr result (vec_capacity out.old < vec_len out.old + length (codes "memory " ++ digest_text (sha256 ram.now) ++ codes "\n")) }
    ensures capacity { vec_capacity out.old ≤ vec_capacity out.new }
    ensures kept { Keeps out.old.items out.new.items }
{
    out.extend_from_slice(b"memory ")?;
    append_digest(&Sha256::digest(ram), out)?;
    out.extend_from_slice(b"\n")
}

// Appends the report, and answers the console's bytes.
#[tactic(auto, unfolding(crate::specs::Report::report_text))]
fn append_report(
    cores: &[Core],
    bus: Bus,
    turns: u64,
    out: &mut Vec<u8>,
) -> Result<Vec<u8>, AllocError>
    requires { AreOfBus cores.now bus }
    ensures ok { IfOk result (λ console. (board : BoardModel) → cores.now ≡ board.cores → Represents bus board.world
        → (console.items ≡ console_of board.world.devices) × (out.new.items ≡ out.old.items ++ report_text board turns)) }
    ensures full { OnErr result ((board : BoardModel) → cores.now ≡ board.cores → Represents bus board.world
        → vec_capacity out.old < vec_len out.old + length (report_text board turns)) }
    ensures kept { Keeps out.old.items out.new.items }
{
    append_front(cores, &bus, turns, out)?;
    let (ram, console) = bus.into_parts();
    append_memory(&ram, out)?;
    Ok(console)
}

/// Appends the report of a board whose cores and bus these are, after so many turns, and answers the console's bytes.
/// Errors: NoMemory, only where `out` lacks capacity for the report, and then its bytes are as before.
pub fn report(cores: &[Core], bus: Bus, turns: u64, out: &mut Vec<u8>) -> Result<Vec<u8>, NoMemory>
    requires { AreOfBus cores.now bus }
    ensures ok { IfOk result (λ console. (board : BoardModel) → cores.now ≡ board.cores → Represents bus board.world
        → (console.items ≡ console_of board.world.devices) × (out.new.items ≡ out.old.items ++ report_text board turns)) }
    ensures err { OnErr result (out.new.items ≡ out.old.items) }
    ensures full { OnErr result ((board : BoardModel) → cores.now ≡ board.cores → Represents bus board.world
        → vec_capacity out.old < vec_len out.old + length (report_text board turns)) }
{
    let before = out.len();
    match append_report(cores, bus, turns, out) {
        Ok(console) => Ok(console),
        Err(_) => {
            out.truncate(before);
            Err(NoMemory)
        }
    }
}
