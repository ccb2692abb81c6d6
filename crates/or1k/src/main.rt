//! The command `or1k`.
#![tactic(auto)]

mod help;

use help::{COMMANDS, HEAD, TAIL, VERSION};
use or_cli::{FileHost, OpenGate, Texts, program};
use std::env;
use std::io::ErrorKind;
use std::process::ExitCode;

// Ends before the words are known, with a line on standard error and a sentence behind it.
fn end(rt: &HostRuntime, status: u8, line: &str, sentence: &str) -> ExitCode {
    let _ = eprintln!(rt; "or1k: {line}\n  {sentence}");
    ExitCode::from(status)
}

fn end_without_memory(rt: &HostRuntime) -> ExitCode {
    end(rt, 7, "no memory", "the system gave no more memory")
}

fn main(rt: HostRuntime) -> ExitCode {
    let alloc = rt.alloc();
    let mut words = Vec::new(alloc);
    let mut args = match env::args(&rt) {
        Ok(args) => args,
        Err(error) => {
            return match error.kind() {
                ErrorKind::OutOfMemory => end_without_memory(&rt),
                _ => end(&rt, 13, "arguments", "an argument is not valid UTF-8"),
            };
        }
    };
    let _program = args.next();
    for word in args {
        if words.push(word).is_err() {
            return end_without_memory(&rt);
        }
    }
    let about = Texts {
        head: HEAD,
        commands: &COMMANDS,
        tail: TAIL,
        version: VERSION,
    };
    let mut host = FileHost::new(&rt);
    ExitCode::from(program(&rt, alloc, &about, &words, &mut host, &OpenGate))
}
