// Files read whole, and bytes written whole, by calls that each take a part.
ghost use Rattle.std.specs.Prelude.{◌≡◌, ◌≢◌, [], List, ℕ, Some, vec_capacity};
ghost use Rattle.std.specs.Option.{option_map};
ghost use Rattle.or_host.specs.Told.{Content, TellsSame};
ghost use Rattle.or_host.specs.Pairs.{KeepsPairs};
ghost use Rattle.or_host.specs.Calls.{Takes, Extends};
ghost use Rattle.or_host.specs.Named.{Sends, LacksRoom};

use crate::{Failed, LoadFail, NamedFiles};
use std::io::{Read, Write};

/// How many bytes of a file are read at a time.
pub const CHUNK: usize = 4096;

// Opens a file and reads it whole.
pub(crate) fn load_named<F: NamedFiles>(
    files: &mut F,
    name: &str,
    max: usize,
    into: &mut Vec<u8>,
) -> Result<(), LoadFail>
    requires { into.old.items ≡ [] }
    ensures taken { Takes result (F.holds files.old name.now) max into.new.items }
    ensures names { (other : List ℕ) → TellsSame (F.holds files.old other) (F.holds files.new other) }
    ensures pairs { KeepsPairs (F.pairs files.old) (F.pairs files.new) }
    ensures full { LacksRoom result (vec_capacity into.old) into.new.items }
{
    match files.open(name) {
        Ok(mut file) => read_whole(&mut file, max, into),
        Err(_) => Err(LoadFail::Failed),
    }
}

// Reads to the end, or `max + 1` bytes.
fn read_whole<F: Read>(file: &mut F, max: usize, into: &mut Vec<u8>) -> Result<(), LoadFail>
    requires { into.old.items ≡ [] }
    ensures taken { Takes result (option_map Some (F.remaining file.old)) max into.new.items }
    ensures full { LacksRoom result (vec_capacity into.old) into.new.items }
{
    let mut buffer = [0u8; CHUNK];
    while into.len() <= max {
        let left = max - into.len();
        let wanted = if left < CHUNK { left + 1 } else { CHUNK };
        let Ok(taken) = file.read(&mut buffer[..wanted]) else {
            return Err(LoadFail::Failed);
        };
        if taken == 0 {
            return Ok(());
        }
        if into.extend_from_slice(&buffer[..taken]).is_err() {
            return Err(LoadFail::NoMemory);
        }
    }
    Err(LoadFail::TooLong)
}

// Adds all the bytes to a file, or fails at the first write that fails or takes nothing.
pub(crate) fn append_whole<F: NamedFiles>(
    files: &mut F,
    name: &str,
    bytes: &[u8],
) -> Result<(), Failed>
    ensures own { Extends result bytes.now (F.holds files.old name.now) (F.holds files.new name.now) }
    ensures others { (other : List ℕ) → other ≢ name.now → TellsSame (F.holds files.old other) (F.holds files.new other) }
    ensures pairs { KeepsPairs (F.pairs files.old) (F.pairs files.new) }
{
    let first = files.append(name, bytes)?;
    let mut left = &bytes[first..];
    while !left.is_empty() {
        let count = files.append(name, left)?;
        if count == 0 {
            return Err(Failed);
        }
        left = &left[count..];
    }
    Ok(())
}

// Writes all the bytes, or fails at the first write that fails or takes nothing.
pub(crate) fn write_whole<W: Write>(to: &mut W, bytes: &[u8]) -> Result<(), Failed>
    ensures { Sends result bytes.now (W.contents to.old) (W.contents to.new) }
{
    let mut rest = bytes;
    while !rest.is_empty() {
        match to.write(rest) {
            Ok(count) if count > 0 => rest = &rest[count..],
            _ => return Err(Failed),
        }
    }
    Ok(())
}
