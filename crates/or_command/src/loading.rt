// Loads files in order.
ghost use Rattle.std.specs.Prelude.{◌≤◌, ◌+◌, length, MatchResult};
ghost use Rattle.arrayvec.specs.ArrayVec.{array_vec_len};
ghost use Rattle.or_host.specs.Calls.{IsName};
ghost use Rattle.or_command.specs.Leaves.{Silent};
ghost use Rattle.or_command.specs.Loads.{load_of, loads_of, AreLoads, bytes_of, OneRead, OneStops, LoadsAll, LoadsSome};

use arrayvec::ArrayVec;
use or_host::{Host, LoadFail};
use std::alloc::Global;

/// The bytes of the files that a command has loaded, at most four. The list itself takes no memory.
pub type Loaded = ArrayVec<Vec<u8>, 4, Global>;

/// A file that a command loads: its name, and how many bytes it may hold.
#[derive(Clone, Copy)]
pub struct Input<'a> {
    pub name: &'a str,
    pub limit: usize,
}

/// Why not all files were read, with the name of the first that was not.
#[derive(Clone, Copy)]
pub enum LoadStop<'a> {
    /// The host failed to read it.
    Unread(&'a str),
    /// It holds more bytes than this limit.
    TooLong(&'a str, usize),
    /// Its load found no memory.
    NoMemory,
}

/// Loads files in order, behind those that are there.
///
/// It stops at the first file that is not read or too long, and touches none behind it. The files read before stay. It takes
/// memory in the host's loads alone.
pub fn load_files<'a, H: Host>(
    alloc: Global,
    host: &mut H,
    inputs: &[Input<'a>],
    into: &mut Loaded,
) -> Result<(), LoadStop<'a>>
    requires names { AreLoads (loads_of inputs.now) }
    requires room { array_vec_len into.old + length inputs.now ≤ 4 }
    ensures files { MatchResult result
        (λ _. LoadsAll (loads_of inputs.now) (bytes_of into.old.items) (bytes_of into.new.items) (H.state host.old) (H.state host.new))
        (λ stop. LoadsSome (loads_of inputs.now) stop (bytes_of into.old.items) (bytes_of into.new.items) (H.state host.old) (H.state host.new)) }
    ensures silent { Silent (H.state host.old) (H.state host.new) }
{
    let Some((first, others)) = inputs.split_first() else {
        return Ok(());
    };
    let file = match load_one(alloc, host, first) {
        Ok(file) => file,
        Err(stop) => return Err(stop),
    };
    into.push(file);
    match load_files(alloc, host, others, into) {
        Ok(()) => Ok(()),
        Err(stop) => Err(stop),
    }
}

// Loads one file.
fn load_one<'a, H: Host>(
    alloc: Global,
    host: &mut H,
    input: &Input<'a>,
) -> Result<Vec<u8>, LoadStop<'a>>
    requires { IsName input.now.name.now }
    ensures file { MatchResult result
        (λ file. OneRead (load_of input.now) file.items (H.state host.old) (H.state host.new))
        (λ stop. OneStops (load_of input.now) stop (H.state host.old) (H.state host.new)) }
    ensures silent { Silent (H.state host.old) (H.state host.new) }
{
    let mut file = Vec::new(alloc);
    match host.load(input.name, input.limit, &mut file) {
        Ok(()) => Ok(file),
        Err(LoadFail::Failed) => Err(LoadStop::Unread(input.name)),
        Err(LoadFail::TooLong) => Err(LoadStop::TooLong(input.name, input.limit)),
        Err(LoadFail::NoMemory) => Err(LoadStop::NoMemory),
    }
}
