//! The workload that the board is measured and raced by: a source in the assembler syntax for a seed, cores and rounds.
#![tactic(auto)]

ghost use Rattle.std.specs.Prelude.{◌≡◌, ◌≤◌, ◌<◌, ◌+◌, ◌*◌, ◌/◌, ◌++◌, [], codes, length, OnOk, OnErr, vec_capacity, vec_len};
ghost use Rattle.std.specs.List.{flat_map};
ghost use Rattle.or_words.specs.declared.limits.TheConstants.{MOST_CORES, MOST_ROUNDS, SOURCE_LIMIT};
ghost use Rattle.or_gen.specs.Workload.{workload, lines_text, number_text, upper_text, lower_text, delay_text, delays_text, next_number, set_up_lines, wait_lines, count_lines, print_lines, end_lines};

use or_text::{append_decimal, append_hexadecimal};
use or_words::NoMemory;
use std::alloc::AllocError;

/// Appends the source of the workload of a seed, 1 to 8 cores and 1 to 100000 rounds of each. `out` is empty before, and again
/// after `NoMemory`, which comes only where it lacks the capacity for the whole source.
pub fn program(seed: u32, cores: u32, rounds: u32, out: &mut Vec<u8>) -> Result<(), NoMemory>
    requires some_core { 1 ≤ cores }
    requires few_cores { cores ≤ MOST_CORES }
    requires some_round { 1 ≤ rounds }
    requires few_rounds { rounds ≤ MOST_ROUNDS }
    requires empty { out.old.items ≡ [] }
    ensures text { OnOk result (out.new.items ≡ workload seed cores rounds) }
    ensures no_memory { OnErr result (out.new.items ≡ []) }
    ensures full { OnErr result (vec_capacity out.old < length (workload seed cores rounds)) }

    // What the assembler asks of a source.
    ensures small { OnOk result (length out.new.items ≤ SOURCE_LIMIT) }
{
    match append_workload(seed, cores, rounds, out) {
        Ok(()) => Ok(()),
        Err(_) => {
            out.clear();
            Err(NoMemory)
        }
    }
}

#[tactic(auto, unfolding(crate::specs::Workload::workload))]
fn append_workload(seed: u32, cores: u32, rounds: u32, out: &mut Vec<u8>) -> Result<(), AllocError>
    requires cores { cores ≤ MOST_CORES }
    requires rounds { rounds ≤ MOST_ROUNDS }
    requires empty { out.old.items ≡ [] }
    ensures text { OnOk result (out.new.items ≡ workload seed cores rounds) }
    ensures full { OnErr result (vec_capacity out.old < length (workload seed cores rounds)) }
{
    append_set_up(out)?;
    append_number("r6", cores * rounds, out)?;
    append_number("r5", rounds, out)?;
    append_wait(out)?;
    append_count(out)?;
    append_print(out)?;
    append_end(out)?;
    out.extend_from_slice(b"delays: ")?;
    append_delays(seed, cores, out)
}

// Appends a line.
fn append_line(line: &str, out: &mut Vec<u8>) -> Result<(), AllocError>
    ensures text { OnOk result (out.new.items ≡ out.old.items ++ (line.now ++ codes "\n")) }
    ensures full { OnErr result (vec_capacity out.old < vec_len out.old + length ((line.now ++ codes "\n"))) }
    ensures capacity { vec_capacity out.old ≤ vec_capacity out.new }
{
    out.extend_from_slice(line.as_bytes())?;
    out.extend_from_slice(b"\n")
}

// Appends lines.
fn append_lines(lines: &[&str], out: &mut Vec<u8>) -> Result<(), AllocError>
    ensures text { OnOk result (out.new.items ≡ out.old.items ++ flat_map (λ line. line.now ++ codes "\n") lines.now) }
    ensures full { OnErr result (vec_capacity out.old < vec_len out.old + length (flat_map (λ line. line.now ++ codes "\n") lines.now)) }
    ensures capacity { vec_capacity out.old ≤ vec_capacity out.new }
{
    for line in lines {
        append_line(line, out)?;
    }
    Ok(())
}

// Appends the two instructions that give a register a number.
#[tactic(auto, unfolding(crate::specs::Workload::number_text))]
fn append_number(register: &str, number: u32, out: &mut Vec<u8>) -> Result<(), AllocError>
    ensures text { OnOk result (out.new.items ≡ out.old.items ++ number_text register.now number) }
    ensures full { OnErr result (vec_capacity out.old < vec_len out.old + length (number_text register.now number)) }
    ensures capacity { vec_capacity out.old ≤ vec_capacity out.new }
{
    append_upper(register, number, out)?;
    append_lower(register, number, out)
}

fn append_upper(register: &str, number: u32, out: &mut Vec<u8>) -> Result<(), AllocError>
    ensures text { OnOk result (out.new.items ≡ out.old.items ++ upper_text register.now number) }
    ensures full { OnErr result (vec_capacity out.old < vec_len out.old + length (upper_text register.now number)) }
    ensures capacity { vec_capacity out.old ≤ vec_capacity out.new }
{
    out.extend_from_slice(b"l.movhi ")?;
    out.extend_from_slice(register.as_bytes())?;
    out.extend_from_slice(b",")?;
    append_hexadecimal(number / 65536, out)?;
    out.extend_from_slice(b"\n")
}

fn append_lower(register: &str, number: u32, out: &mut Vec<u8>) -> Result<(), AllocError>
    ensures text { OnOk result (out.new.items ≡ out.old.items ++ lower_text register.now number) }
    ensures full { OnErr result (vec_capacity out.old < vec_len out.old + length (lower_text register.now number)) }
    ensures capacity { vec_capacity out.old ≤ vec_capacity out.new }
{
    out.extend_from_slice(b"l.ori ")?;
    out.extend_from_slice(register.as_bytes())?;
    out.extend_from_slice(b",")?;
    out.extend_from_slice(register.as_bytes())?;
    out.extend_from_slice(b",")?;
    append_hexadecimal(number % 65536, out)?;
    out.extend_from_slice(b"\n")
}

// The next number of the sequence that the delays come from.
fn next_number(x: u32) -> u32
    ensures { result ≡ next_number x }
{
    ((1_664_525 * u64::from(x) + 1_013_904_223) % 0x1_0000_0000) as u32
}

// Appends the word of a delay.
fn append_delay(delay: u32, out: &mut Vec<u8>) -> Result<(), AllocError>
    ensures text { OnOk result (out.new.items ≡ out.old.items ++ delay_text delay) }
    ensures full { OnErr result (vec_capacity out.old < vec_len out.old + length (delay_text delay)) }
    ensures capacity { vec_capacity out.old ≤ vec_capacity out.new }
{
    out.extend_from_slice(b".word ")?;
    append_decimal(u64::from(delay), out)?;
    out.extend_from_slice(b"\n")
}

// Appends a word for each delay.
fn append_delays(x: u32, cores: u32, out: &mut Vec<u8>) -> Result<(), AllocError>
    ensures text { OnOk result (out.new.items ≡ out.old.items ++ delays_text x cores) }
    ensures full { OnErr result (vec_capacity out.old < vec_len out.old + length (delays_text x cores)) }
    ensures capacity { vec_capacity out.old ≤ vec_capacity out.new }
{
    if cores == 0 {
        return Ok(());
    }
    let next = next_number(x);
    append_delay(next / 0x4000_0000, out)?;
    append_delays(next, cores - 1, out)?;
    Ok(())
}

// The caches, the core's delay and the address of the counter.
#[tactic(auto, unfolding(crate::specs::Workload::set_up_lines))]
fn append_set_up(out: &mut Vec<u8>) -> Result<(), AllocError>
    ensures text { OnOk result (out.new.items ≡ out.old.items ++ lines_text set_up_lines) }
    ensures full { OnErr result (vec_capacity out.old < vec_len out.old + length (lines_text set_up_lines)) }
    ensures capacity { vec_capacity out.old ≤ vec_capacity out.new }
{
    append_lines(
        &[
            ".org 0x100",
            "l.mfspr r15,r0,0x11",
            "l.ori r15,r15,0x18",
            "l.mtspr r0,r15,0x11",
            "l.mfspr r10,r0,0x80",
            "l.slli r11,r10,2",
            "l.movhi r12,hi(delays)",
            "l.ori r12,r12,lo(delays)",
            "l.add r12,r12,r11",
            "l.lwz r13,0(r12)",
            "l.movhi r2,hi(counter)",
            "l.ori r2,r2,lo(counter)",
        ],
        out,
    )
}

// A round waits as often as the delay says.
#[tactic(auto, unfolding(crate::specs::Workload::wait_lines))]
fn append_wait(out: &mut Vec<u8>) -> Result<(), AllocError>
    ensures text { OnOk result (out.new.items ≡ out.old.items ++ lines_text wait_lines) }
    ensures full { OnErr result (vec_capacity out.old < vec_len out.old + length (lines_text wait_lines)) }
    ensures capacity { vec_capacity out.old ≤ vec_capacity out.new }
{
    append_lines(
        &[
            "round: l.ori r14,r13,0x0",
            "wait: l.sfeqi r14,0",
            "l.bf try",
            "l.nop 0x0",
            "l.j wait",
            "l.addi r14,r14,-1",
        ],
        out,
    )
}

// Then it adds one to the counter, and tries again until that succeeds; the core that brings the counter to its end prints it.
#[tactic(auto, unfolding(crate::specs::Workload::count_lines))]
fn append_count(out: &mut Vec<u8>) -> Result<(), AllocError>
    ensures text { OnOk result (out.new.items ≡ out.old.items ++ lines_text count_lines) }
    ensures full { OnErr result (vec_capacity out.old < vec_len out.old + length (lines_text count_lines)) }
    ensures capacity { vec_capacity out.old ≤ vec_capacity out.new }
{
    append_lines(
        &[
            "try: l.lwa r4,0(r2)",
            "l.addi r4,r4,1",
            "l.swa 0(r2),r4",
            "l.bnf try",
            "l.nop 0x0",
            "l.sfeq r4,r6",
            "l.bf print",
            "l.addi r5,r5,-1",
            "l.sfnei r5,0",
            "l.bf round",
            "l.nop 0x0",
            "done: l.ori r3,r0,0x0",
            "l.nop 0x1",
        ],
        out,
    )
}

// Eight hexadecimal digits.
#[tactic(auto, unfolding(crate::specs::Workload::print_lines))]
fn append_print(out: &mut Vec<u8>) -> Result<(), AllocError>
    ensures text { OnOk result (out.new.items ≡ out.old.items ++ lines_text print_lines) }
    ensures full { OnErr result (vec_capacity out.old < vec_len out.old + length (lines_text print_lines)) }
    ensures capacity { vec_capacity out.old ≤ vec_capacity out.new }
{
    append_lines(
        &[
            "print: l.movhi r8,0x9000",
            "l.addi r7,r0,28",
            "digit: l.srl r9,r4,r7",
            "l.andi r9,r9,0xF",
            "l.sfgtui r9,9",
            "l.bf letter",
            "l.addi r9,r9,48",
            "l.j emit",
            "l.nop 0x0",
            "letter: l.addi r9,r9,7",
            "emit: l.sb 0(r8),r9",
            "l.sfeqi r7,0",
            "l.bf last",
            "l.nop 0x0",
            "l.j digit",
            "l.addi r7,r7,-4",
        ],
        out,
    )
}

// A line feed; and the counter in memory.
#[tactic(auto, unfolding(crate::specs::Workload::end_lines))]
fn append_end(out: &mut Vec<u8>) -> Result<(), AllocError>
    ensures text { OnOk result (out.new.items ≡ out.old.items ++ lines_text end_lines) }
    ensures full { OnErr result (vec_capacity out.old < vec_len out.old + length (lines_text end_lines)) }
    ensures capacity { vec_capacity out.old ≤ vec_capacity out.new }
{
    append_lines(
        &[
            "last: l.addi r9,r0,10",
            "l.j done",
            "l.sb 0(r8),r9",
            ".org 0x1000",
            "counter: .word 0",
        ],
        out,
    )
}
