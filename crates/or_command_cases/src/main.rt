//! Goes through the cases of `data/`, each a few commands of the top call over a host in memory, and prints what they answer and
//! leave behind the name of the case. docs/HACKING.md says how a case is written.
#![tactic(auto)]

mod bytes;
mod calls;
mod fault;
mod parsed;
mod stage;

use calls::{real_files, sure_files};
use fault::CaseFault;
use stage::Stage;
use std::fs;
use std::process::ExitCode;
use std::sync::Wait;
use std::thread::Threads;

const FILES: [&str; 15] = [
    "host.cases",
    "images.cases",
    "line.cases",
    "source.cases",
    "spellings.cases",
    "run.cases",
    "look.cases",
    "points.cases",
    "hunt.cases",
    "locks.cases",
    "messages.cases",
    "worked.cases",
    "hostile.cases",
    "names.cases",
    "dashes.cases",
];

// Does what the lines of a file say.
fn go_through<R: Print + Threads + Wait + Sync>(
    rt: &R,
    stage: &mut Stage,
    text: &str,
) -> Result<(), CaseFault> {
    for line in text.lines() {
        stage.make(rt, line)?;
    }
    Ok(())
}

// The hosts that are not in memory, or not of files alone.
fn other_hosts(rt: &HostRuntime) -> Result<(), CaseFault> {
    sure_files(rt)?;
    real_files(rt)
}

fn main(rt: HostRuntime) -> ExitCode {
    let mut stage = Stage::new(rt.alloc());
    for name in FILES {
        let Ok(text) = fs::read_to_string(&rt, name) else {
            let _ = println!(rt; "{name} is not read");
            return ExitCode::from(1);
        };
        if let Err(fault) = go_through(&rt, &mut stage, &text) {
            let _ = println!(rt; "{name}: {fault}");
            return ExitCode::from(1);
        }
    }
    if let Err(fault) = other_hosts(&rt) {
        let _ = println!(rt; "{fault}");
        return ExitCode::from(1);
    }
    ExitCode::from(0)
}
