// What a case works on, and the lines that it is made of.
use crate::bytes::{read, shown};
use crate::calls::call;
use crate::fault::CaseFault;
use crate::parsed::print_parsed;
use or_cli::{MemHost, OpenGate, top, top_alone, top_run};
use or_command::{Outcome, conclude};
use std::alloc::{AllocError, Global};
use std::sync::Wait;
use std::thread::Threads;

// Which call takes a command.
#[derive(Clone, Copy)]
enum Call {
    Whole,
    // the same, of which what is written out is not shown
    Status,
    Alone,
    Threaded,
}

// The host of the case that is gone through, and a shelf of files for later cases.
#[derive(Drop)]
pub(crate) struct Stage {
    alloc: Global,
    shelf: MemHost,
    host: MemHost,
}

impl Stage {
    pub(crate) fn new(alloc: Global) -> Self {
        Stage {
            alloc,
            shelf: MemHost::new(alloc, Vec::new(alloc)),
            host: MemHost::new(alloc, Vec::new(alloc)),
        }
    }

    // Does what a line of a case says.
    pub(crate) fn make<R: Print + Threads + Wait + Sync>(
        &mut self,
        rt: &R,
        line: &str,
    ) -> Result<(), CaseFault> {
        let (verb, rest) = line.split_once(' ').unwrap_or((line, ""));
        match verb {
            "" | "#" => Ok(()),
            "case" => self.begin(rt, rest),
            "failing" => self.fail_at(rest),
            "links" => self.link(rest),
            "or1k" => command(rt, self.alloc, &mut self.host, Call::Whole, rest),
            "status" => command(rt, self.alloc, &mut self.host, Call::Status, rest),
            "alone" => command(rt, self.alloc, &mut self.host, Call::Alone, rest),
            "threaded" => command(rt, self.alloc, &mut self.host, Call::Threaded, rest),
            "parse" => {
                print!(rt; "{rest}: ")?;
                print_parsed(rt, &words(self.alloc, rest)?)
            }
            _ => self.look_or_change(rt, verb, rest),
        }
    }

    fn begin<R: Print>(&mut self, rt: &R, name: &str) -> Result<(), CaseFault> {
        println!(rt; "== {name}")?;
        self.host = MemHost::new(self.alloc, Vec::new(self.alloc));
        Ok(())
    }

    // A host without files, whose call of this number fails.
    fn fail_at(&mut self, number: &str) -> Result<(), CaseFault> {
        let call = read_number(number)? as u64;
        self.host = MemHost::new(self.alloc, vec![in self.alloc; call]?);
        Ok(())
    }

    // A host without files, in which each two of these names lead to one file.
    fn link(&mut self, names: &str) -> Result<(), CaseFault> {
        let mut links = Vec::new(self.alloc);
        let mut first = None;
        for name in names.split(' ') {
            first = match first {
                None => Some(name),
                Some(one) => {
                    let one = String::from_str(self.alloc, one)?;
                    links.push((one, String::from_str(self.alloc, name)?))?;
                    None
                }
            };
        }
        self.host = MemHost::with_links(self.alloc, Vec::new(self.alloc), links);
        Ok(())
    }

    fn look_or_change<R: Print + Threads + Wait + Sync>(
        &mut self,
        rt: &R,
        verb: &str,
        rest: &str,
    ) -> Result<(), CaseFault> {
        let (name, text) = rest.split_once(' ').unwrap_or((rest, ""));
        match verb {
            "show" => show(rt, self.alloc, &self.host, name),
            "first" => show_part(
                rt,
                self.alloc,
                &self.host,
                name,
                Part::First(read_number(text)?),
            ),
            "last" => show_part(
                rt,
                self.alloc,
                &self.host,
                name,
                Part::Last(read_number(text)?),
            ),
            "size" => size(rt, &self.host, name),
            "same" => same(rt, &self.host, name, text),
            "call" => call(rt, self.alloc, &mut self.host, rest),
            "texts" => texts(rt, self.alloc, &self.host),
            "memory" => without_memory(rt, self.alloc, &mut self.host),
            "shelve" => command(rt, self.alloc, &mut self.shelf, Call::Alone, rest),
            _ => self.change_files(verb, name, text),
        }
    }

    fn change_files(&mut self, verb: &str, name: &str, text: &str) -> Result<(), CaseFault> {
        match verb {
            "file" => Ok(self.host.put(name, &read(self.alloc, text)?)?),
            "shelf" => Ok(self.shelf.put(name, &read(self.alloc, text)?)?),
            "take" => self.take(name, text),
            "cut" => self.cut(name, text),
            "change" => self.change(name, text),
            "zeros" => self.zeros(name, text),
            _ => Err(CaseFault::Form),
        }
    }

    // Puts a file of the shelf under its name or another one.
    fn take(&mut self, name: &str, other: &str) -> Result<(), CaseFault> {
        let bytes = self.shelf.file(name).ok_or(CaseFault::Form)?;
        let name = if other.is_empty() { name } else { other };
        Ok(self.host.put(name, bytes)?)
    }

    // The bytes of a file of the host.
    fn file(&self, name: &str) -> Result<Vec<u8>, CaseFault> {
        let bytes = self.host.file(name).ok_or(CaseFault::Form)?;
        Ok(Vec::from_slice(self.alloc, bytes)?)
    }

    // Keeps the first bytes of a file.
    fn cut(&mut self, name: &str, length: &str) -> Result<(), CaseFault> {
        let length = read_number(length)? as usize;
        let mut bytes = self.file(name)?;
        bytes.truncate(length);
        Ok(self.host.put(name, &bytes)?)
    }

    // Writes bytes over those at a place of a file.
    fn change(&mut self, name: &str, text: &str) -> Result<(), CaseFault> {
        let (place, text) = text.split_once(' ').ok_or(CaseFault::Form)?;
        let mut place = read_number(place)? as usize;
        let mut bytes = self.file(name)?;
        for byte in &read(self.alloc, text)? {
            let Some(old) = bytes.get_mut(place) else {
                return Err(CaseFault::Form);
            };
            *old = *byte;
            place = place.wrapping_add(1);
        }
        Ok(self.host.put(name, &bytes)?)
    }

    // A file of so many zeros.
    fn zeros(&mut self, name: &str, length: &str) -> Result<(), CaseFault> {
        let length = read_number(length)? as usize;
        let bytes = vec![in self.alloc; 0u8; length]?;
        Ok(self.host.put(name, &bytes)?)
    }
}

fn read_number(text: &str) -> Result<u32, CaseFault> {
    text.parse::<u32>().map_err(|_| CaseFault::Form)
}

// The words of a line; `''` is an empty word.
fn words(alloc: Global, line: &str) -> Result<Vec<String>, AllocError> {
    let mut words = Vec::new(alloc);
    if line.is_empty() {
        return Ok(words);
    }
    for word in line.split(' ') {
        words.push(String::from_str(alloc, if word == "''" { "" } else { word })?)?;
    }
    Ok(words)
}

// What stands behind the first bytes.
fn behind(bytes: &[u8], first: usize) -> &[u8] {
    if first <= bytes.len() {
        &bytes[first..]
    } else {
        bytes
    }
}

// Makes a command, and prints its status and what it said and wrote out.
fn command<R: Print + Threads + Wait + Sync>(
    rt: &R,
    alloc: Global,
    host: &mut MemHost,
    call: Call,
    line: &str,
) -> Result<(), CaseFault> {
    let words = words(alloc, line)?;
    let (said, written) = (host.said().len(), host.written().len());
    let status = answer(rt, alloc, host, call, &words);
    println!(rt; "{line}: {status}")?;
    print_text(rt, alloc, "said", behind(host.said(), said))?;
    match call {
        Call::Status => Ok(()),
        _ => print_text(rt, alloc, "written", behind(host.written(), written)),
    }
}

// The status of a command. It has no `ensures`, so that the facts of each call end with it.
fn answer<R: Threads + Wait + Sync>(
    rt: &R,
    alloc: Global,
    host: &mut MemHost,
    call: Call,
    words: &[String],
) -> u8 {
    match call {
        Call::Whole | Call::Status => top(rt, alloc, words, host, &OpenGate),
        Call::Alone => top_alone(alloc, words, host),
        Call::Threaded => top_run(rt, alloc, words, host, &OpenGate),
    }
}

fn print_text<R: Print>(rt: &R, alloc: Global, what: &str, bytes: &[u8]) -> Result<(), CaseFault> {
    if !bytes.is_empty() {
        let text = shown(alloc, bytes)?;
        println!(rt; "    {what} {text}")?;
    }
    Ok(())
}

// Prints all that was said and written out.
fn texts<R: Print>(rt: &R, alloc: Global, host: &MemHost) -> Result<(), CaseFault> {
    print_text(rt, alloc, "said", host.said())?;
    print_text(rt, alloc, "written", host.written())
}

// Prints what a file holds.
fn show<R: Print>(rt: &R, alloc: Global, host: &MemHost, name: &str) -> Result<(), CaseFault> {
    match host.file(name) {
        Some(bytes) => {
            let text = shown(alloc, bytes)?;
            println!(rt; "    {name} holds {text}")?;
        }
        None => println!(rt; "    no {name}")?,
    }
    Ok(())
}

// So many bytes of a file.
#[derive(Clone, Copy)]
enum Part {
    First(u32),
    Last(u32),
}

// Prints the first or the last bytes of what a file holds.
fn show_part<R: Print>(
    rt: &R,
    alloc: Global,
    host: &MemHost,
    name: &str,
    part: Part,
) -> Result<(), CaseFault> {
    let bytes = host.file(name).ok_or(CaseFault::Form)?;
    match part {
        Part::First(count) => {
            let text = shown(alloc, &bytes[..bytes.len().min(count as usize)])?;
            println!(rt; "    {name} begins {text}")?;
        }
        Part::Last(count) => {
            let text = shown(
                alloc,
                behind(bytes, bytes.len().saturating_sub(count as usize)),
            )?;
            println!(rt; "    {name} ends {text}")?;
        }
    }
    Ok(())
}

// Prints how a command ends for which there is no memory.
fn without_memory<R: Print>(rt: &R, alloc: Global, host: &mut MemHost) -> Result<(), CaseFault> {
    let status = conclude(host, Outcome::NoMemory);
    println!(rt; "the end without memory: {status}")?;
    print_text(rt, alloc, "said", host.said())
}

// Prints how many bytes a file holds.
fn size<R: Print>(rt: &R, host: &MemHost, name: &str) -> Result<(), CaseFault> {
    match host.file(name) {
        Some(bytes) => println!(rt; "    {name} holds {} bytes", bytes.len())?,
        None => println!(rt; "    no {name}")?,
    }
    Ok(())
}

// Prints whether two files hold the same bytes.
fn same<R: Print>(rt: &R, host: &MemHost, name: &str, other: &str) -> Result<(), CaseFault> {
    let is_same = host.file(name).is_some() && host.file(name) == host.file(other);
    let word = if is_same { "is" } else { "is not" };
    println!(rt; "    {name} {word} {other}")?;
    Ok(())
}
