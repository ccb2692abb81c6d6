// The calls of a host, each with what it answers.
ghost use Rattle.std.specs.Prelude.{◌≡◌, []};
ghost use Rattle.or_host.specs.Calls.{IsName};

use crate::bytes::{read, shown};
use crate::fault::CaseFault;
use or_host::{Failed, FileHost, Host, LoadFail, SureHost};
use or_words::limits::NAME_LIMIT;
use std::alloc::Global;
use std::io::Write;
use std::{fs, io};

fn word(answer: Result<(), Failed>) -> &'static str {
    match answer {
        Ok(()) => "done",
        Err(Failed) => "failed",
    }
}

// Loads a file, and prints what that answers and what was taken.
fn load<R: Print, H: Host>(
    rt: &R,
    alloc: Global,
    host: &mut H,
    name: &str,
    max: usize,
) -> Result<(), CaseFault>
    requires { IsName name.now }
{
    let mut into = Vec::new(alloc);
    let word = match host.load(name, max, &mut into) {
        Ok(()) => "done",
        Err(LoadFail::Failed) => "failed",
        Err(LoadFail::TooLong) => "too long",
        Err(LoadFail::NoMemory) => "no memory",
    };
    let text = shown(alloc, &into)?;
    println!(rt; "load {name} {max}: {word}, {text}")?;
    Ok(())
}

fn create<H: Host>(host: &mut H, name: &str) -> &'static str
    requires { IsName name.now }
{
    word(host.create(name))
}

fn append<H: Host>(host: &mut H, name: &str, bytes: &[u8]) -> &'static str
    requires { IsName name.now }
{
    word(host.append(name, bytes))
}

// A call on a file.
fn call_on<R: Print, H: Host>(
    rt: &R,
    alloc: Global,
    host: &mut H,
    verb: &str,
    rest: &str,
) -> Result<(), CaseFault> {
    let (name, text) = rest.split_once(' ').unwrap_or((rest, ""));
    if name.len() > NAME_LIMIT || name == "-" {
        return Err(CaseFault::Form);
    }
    let word = match verb {
        "load" => {
            let max = text.parse::<usize>().map_err(|_| CaseFault::Form)?;
            return load(rt, alloc, host, name, max);
        }
        "create" => create(host, name),
        "append" => append(host, name, &read(alloc, text)?),
        _ => return Err(CaseFault::Form),
    };
    println!(rt; "{verb} {rest}: {word}")?;
    Ok(())
}

// Makes the call that a line says, and prints what it answers.
pub(crate) fn call<R: Print, H: Host>(
    rt: &R,
    alloc: Global,
    host: &mut H,
    line: &str,
) -> Result<(), CaseFault> {
    let (verb, rest) = line.split_once(' ').unwrap_or((line, ""));
    let word = match verb {
        "out" => word(host.out(&read(alloc, rest)?)),
        "say" => word(host.say(&read(alloc, rest)?)),
        _ => return call_on(rt, alloc, host, verb, rest),
    };
    println!(rt; "{verb} {rest}: {word}")?;
    Ok(())
}

// A writer that takes one byte at a time, and at last nothing.
#[derive(Drop)]
struct Stingy {
    left: usize,
}

impl Write for Stingy {
    fn write(&mut self, buf: &[u8]) -> io::Result<usize> {
        if buf.is_empty() || self.left == 0 {
            return Ok(0);
        }
        self.left -= 1;
        Ok(1)
    }

    fn flush(&mut self) -> io::Result<()> {
        Ok(())
    }
}

// A given file loads until its name is written, and an absent one as an empty one.
pub(crate) fn sure_files(rt: &HostRuntime) -> Result<(), CaseFault> {
    println!(rt; "== a host that is sure")?;
    let alloc = rt.alloc();
    let mut files = Vec::new(alloc);
    files.push((String::from_str(alloc, "a")?, b"abc".to_vec(alloc)?))?;
    let mut host = SureHost::new(files);
    for line in ["load a 9", "load b 9", "append a d", "load a 9"] {
        call(rt, alloc, &mut host, line)?;
    }
    Ok(())
}

// Real files, and writers that take a byte at a time.
pub(crate) fn real_files(rt: &HostRuntime) -> Result<(), CaseFault> {
    println!(rt; "== real files")?;
    let alloc = rt.alloc();
    let mut host = FileHost::over(rt, Stingy { left: 3 }, Stingy { left: 2 });
    for line in ["create f", "append f ab", "append f cde"] {
        call(rt, alloc, &mut host, line)?;
    }
    let mut process = FileHost::new(rt);
    for line in ["load f 5", "load f 3"] {
        call(rt, alloc, &mut process, line)?;
    }
    fs::remove_file(rt, "f")?;
    for line in ["load f 5", "append f x", "out ", "say "] {
        call(rt, alloc, &mut process, line)?;
    }
    for line in ["out abc", "out d", "say abc"] {
        call(rt, alloc, &mut host, line)?;
    }
    Ok(())
}
