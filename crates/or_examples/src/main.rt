//! Runs the programs of `examples/`, and the workload, through the top call on real files. `data/` has the files of
//! `examples/` that it reads, under the same names. Then it goes to the edges of real files: a directory, a full disk, a read that
//! fails late, names of one file, a long program. What it prints does not depend on the schedule.
#![tactic(auto)]

mod edges;

use edges::{EDGES, make_links, write_labels, write_long_source};
use or_cli::{FileHost, Host, OpenGate, top};
use std::alloc::{AllocError, Global};
use std::fs;
use std::fs::OpenOptions;
use std::io::Write;
use std::process::ExitCode;
use std::sync::Wait;
use std::thread::Threads;

/// What is done in a line.
#[derive(Clone, Copy)]
pub(crate) enum Line {
    /// A command of `or1k`, with its words.
    Command(&'static str),
    /// Prints how each core of this report stopped. Unlike a core's steps, that does not depend on the schedule.
    Exits(&'static str),
    /// A command that is refused, with what it says on standard error and its status.
    Refused(&'static str),
    /// The same, where standard output is full.
    Full(&'static str),
    /// Prints whether two files hold the same.
    Same(&'static str, &'static str),
}

use Line::{Command, Exits, Full, Refused, Same};

const EXAMPLES: [Line; 44] = [
    Command("asm hello/hello.s hello.elf"),
    Command("run hello.elf - hello.sched hello.rep --ram 1"),
    Command("dis hello.elf"),
    Command("asm spin_lock/spin_lock.s spin_lock.elf"),
    Command("run spin_lock.elf - spin_lock.sched spin_lock.rep --cores 2 --ram 1"),
    Command("asm tick/tick.s tick.elf"),
    Command("run tick.elf - tick.sched tick.rep --ram 1"),
    Command("asm ompic/ompic.s ompic.elf"),
    Command(
        "run ompic.elf - ompic.sched ompic.rep --cores 2 --budget 60000000 --ram 1 --pic latched",
    ),
    Command("asm tlb_miss/tlb_miss.s tlb_miss.elf"),
    Command("run tlb_miss.elf - tlb_miss.sched tlb_miss.rep --ram 1"),
    Command("asm hunt/lost_update.s lost_update.elf"),
    Command("hunt lost_update.elf - hunt.sched hunt.rep --ram 1"),
    Command("replay lost_update.elf - hunt.sched again.rep"),
    Exits("again.rep"),
    Command("asm hunt/flag.s flag.elf"),
    Command("hunt flag.elf - hunt.sched hunt.rep --ram 1"),
    Command("replay flag.elf - hunt.sched again.rep"),
    Exits("again.rep"),
    Command("asm hunt/list_aba.s list_aba.elf"),
    Command("hunt list_aba.elf - hunt.sched hunt.rep --ram 1"),
    Command("replay list_aba.elf - hunt.sched again.rep"),
    Exits("again.rep"),
    Command("run c/hello.elf - c.sched c.rep --ram 1"),
    Exits("c.rep"),
    Command("prof c/hello.elf - c.sched"),
    Command("run c/interrupts.elf c/interrupts.input c.sched c.rep --ram 1"),
    Exits("c.rep"),
    Command("run c/interrupts.elf c/interrupts.input c.sched c.rep --ram 1 --pic latched"),
    Exits("c.rep"),
    Command("run c/lock.elf - c.sched c.rep --cores 3 --budget 60000000 --ram 1"),
    Exits("c.rep"),
    Command("run c/message.elf - c.sched c.rep --cores 3 --budget 60000000 --ram 1"),
    Exits("c.rep"),
    Command("run c/message.elf - c.sched c.rep --cores 2 --budget 60000000 --ram 1 --pic latched"),
    Exits("c.rep"),
    Command("run c/race.elf - c.sched c.rep --cores 2 --budget 60000000 --ram 1"),
    Command("replay c/race.elf - c.sched again.rep"),
    Command("gen 1 4 1000 workload.s"),
    Command("asm workload.s workload.elf"),
    Command("run workload.elf - workload.sched workload.rep --cores 4 --budget 10000000 --ram 1"),
    Command("replay workload.elf - workload.sched replayed.rep"),
    Command("bench 1 4 1000 bench.sched"),
    Command("replay workload.elf - bench.sched bench.rep"),
];

fn words(alloc: Global, line: &str) -> Result<Vec<String>, AllocError> {
    let mut words = Vec::new(alloc);
    for word in line.split(' ') {
        words.push(String::from_str(alloc, word)?)?;
    }
    Ok(words)
}

// Does a command, and answers its status.
fn command<R: Threads + Wait + Sync, H: Host>(
    rt: &R,
    alloc: Global,
    line: &str,
    host: &mut H,
) -> u8 {
    match words(alloc, line) {
        Ok(words) => top(rt, alloc, &words, host, &OpenGate),
        Err(_) => 7,
    }
}

// Prints how each core of a report stopped, and answers a status as a command does.
fn exits(rt: &HostRuntime, report: &str) -> u8 {
    let Ok(text) = fs::read_to_string(rt, report) else {
        return 5;
    };
    for line in text.as_str().split('\n') {
        if line.starts_with("core ") {
            if let Some((exit, _)) = line.split_once(" steps") {
                let _ = println!(rt; "{exit}");
            }
        }
    }
    0
}

// Prints the status of a command, behind what it says. It answers 0, so that the next line follows.
fn refused<R: Threads + Wait + Sync, O: Write + Drop>(
    rt: &HostRuntime,
    threads: &R,
    line: &str,
    out: O,
) -> u8 {
    let mut host = FileHost::over(rt, out, rt.stdout());
    let status = command(threads, rt.alloc(), line, &mut host);
    let _ = println!(rt; "status {status}");
    0
}

// A command whose standard output takes no byte.
fn full<R: Threads + Wait + Sync>(rt: &HostRuntime, threads: &R, line: &str) -> u8 {
    match OpenOptions::new().append(true).open(rt, "/dev/full") {
        Ok(out) => refused(rt, threads, line, out),
        Err(_) => 5,
    }
}

// Prints whether two files hold the same, and answers a status as a command does.
fn same(rt: &HostRuntime, name: &str, other: &str) -> u8 {
    let (Ok(bytes), Ok(others)) = (fs::read(rt, name), fs::read(rt, other)) else {
        return 5;
    };
    let word = if bytes == others { "is" } else { "is not" };
    let _ = println!(rt; "{name} {word} {other}");
    0
}

// Does what a line says, and answers the status with which the program ends if it is not 0.
fn make<R: Threads + Wait + Sync>(rt: &HostRuntime, threads: &R, line: Line) -> u8 {
    match line {
        Command(words) => {
            let _ = println!(rt; "$ {words}");
            command(threads, rt.alloc(), words, &mut FileHost::new(rt))
        }
        Exits(report) => {
            let _ = println!(rt; "exit values in {report}:");
            exits(rt, report)
        }
        Refused(words) => {
            let _ = println!(rt; "$ {words}");
            refused(rt, threads, words, rt.stdout())
        }
        Full(words) => {
            let _ = println!(rt; "$ {words} >/dev/full");
            full(rt, threads, words)
        }
        Same(name, other) => same(rt, name, other),
    }
}

// Does the lines in order, up to the first that fails.
fn make_all<R: Threads + Wait + Sync>(rt: &HostRuntime, threads: &R, lines: &[Line]) -> u8 {
    for line in lines {
        let status = make(rt, threads, *line);
        let _ = println!(rt; "");
        if status != 0 {
            return status;
        }
    }
    0
}

fn main(rt: HostRuntime) -> ExitCode {
    let status = make_all(&rt, &rt, &EXAMPLES);
    if status != 0 {
        return ExitCode::from(status);
    }
    if write_long_source(&rt).is_err() || write_labels(&rt).is_err() {
        return ExitCode::from(6);
    }
    if make_links(&rt).is_err() {
        return ExitCode::from(6);
    }
    ExitCode::from(make_all(&rt, &rt, &EDGES))
}
