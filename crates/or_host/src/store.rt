// Files and texts in memory: how they are read, made and grown, and what a call that is to fail leaves of them.
ghost use Rattle.std.specs.Prelude.{◌≡◌, ◌≢◌, ◌≤◌, ◌++◌, [], List, ℕ, None, Some, IsTrue, IsFalse, length, vec_capacity};
ghost use Rattle.or_host.specs.Store.{content_of, room_of};
ghost use Rattle.or_host.specs.Bytes.{AddsPrefix, AddsWhereRoom};
ghost use Rattle.or_host.specs.Failing.{LoadsBytes, LoadsListed, AppendsListed, GrowsListed, LacksPlace, failed_part};

use crate::LoadFail;
use std::alloc::Global;
use std::collections::BTreeMap;

// Takes a file's bytes, or half of them where the call is to fail.
pub(crate) fn load_bytes(
    files: &BTreeMap<String, Vec<u8>>,
    listed: bool,
    name: &str,
    max: usize,
    into: &mut Vec<u8>,
) -> Result<(), LoadFail>
    requires { into.old.items ≡ [] }
    ensures { LoadsListed listed (content_of files.now name.now) max (vec_capacity into.old) result into.new.items }
{
    match files.get(name) {
        Some(bytes) if listed => {
            load_half(bytes, max, into);
            Err(LoadFail::Failed)
        }
        Some(bytes) => load_whole(bytes, max, into),
        None => Err(LoadFail::Failed),
    }
}

// Makes the name hold these bytes, or changes nothing. It takes no memory where the file is there and has room for them.
pub(crate) fn put_file(
    alloc: Global,
    files: &mut BTreeMap<String, Vec<u8>>,
    name: &str,
    bytes: &[u8],
) -> bool
    ensures own { IsTrue result → content_of files.new name.now ≡ Some bytes.now }
    ensures others { (other : List ℕ) → other ≢ name.now → content_of files.new other ≡ content_of files.old other }
    ensures unchanged { IsFalse result → (other : List ℕ) → content_of files.new other ≡ content_of files.old other }
    ensures full { IsFalse result → LacksPlace (room_of files.old name.now) bytes.now (content_of files.old name.now) }
{
    if has_room(files, name, bytes) {
        refill_file(files, name, bytes);
        return true;
    }
    let Ok(copy) = bytes.to_vec(alloc) else {
        return false;
    };
    set_file(alloc, files, name, copy)
}

// Whether a name is there, and its file has room for these bytes.
fn has_room(files: &BTreeMap<String, Vec<u8>>, name: &str, bytes: &[u8]) -> bool
    ensures place { IsTrue result → length bytes.now ≤ room_of files.now name.now }
    ensures there { IsTrue result → content_of files.now name.now ≢ None }
    ensures full { IsFalse result → LacksPlace (room_of files.now name.now) bytes.now (content_of files.now name.now) }
{
    match files.get(name) {
        Some(file) => bytes.len() <= file.capacity(),
        None => false,
    }
}

// Makes a name that is there hold these bytes, for which its file has room.
fn refill_file(files: &mut BTreeMap<String, Vec<u8>>, name: &str, bytes: &[u8])
    requires place { length bytes.now ≤ room_of files.old name.now }
    requires there { content_of files.old name.now ≢ None }
    ensures own { content_of files.new name.now ≡ Some bytes.now }
    ensures others { (other : List ℕ) → other ≢ name.now → content_of files.new other ≡ content_of files.old other }
{
    if let Some(file) = files.get_mut(name) {
        refill(file, bytes);
    }
}

// Makes a list these bytes, for which it has room.
fn refill(list: &mut Vec<u8>, bytes: &[u8])
    requires { length bytes.now ≤ vec_capacity list.old }
    ensures { list.new.items ≡ bytes.now }
{
    list.clear();
    let _ = list.extend_from_slice(bytes);
}

// Makes the name hold these bytes, or changes nothing.
fn set_file(
    alloc: Global,
    files: &mut BTreeMap<String, Vec<u8>>,
    name: &str,
    bytes: Vec<u8>,
) -> bool
    ensures own { IsTrue result → content_of files.new name.now ≡ Some bytes.items }
    ensures others { (other : List ℕ) → other ≢ name.now → content_of files.new other ≡ content_of files.old other }
    ensures unchanged { IsFalse result → (other : List ℕ) → content_of files.new other ≡ content_of files.old other }
{
    let Ok(key) = String::from_str(alloc, name) else {
        return false;
    };
    files.insert(key, bytes).is_ok()
}

// Makes the name hold nothing, or changes nothing where memory ran out for a new name.
pub(crate) fn empty_file(alloc: Global, files: &mut BTreeMap<String, Vec<u8>>, name: &str) -> bool
    ensures own { IsTrue result → content_of files.new name.now ≡ Some [] }
    ensures others { (other : List ℕ) → other ≢ name.now → content_of files.new other ≡ content_of files.old other }
    ensures absent { IsFalse result → content_of files.old name.now ≡ None }
    ensures unchanged { IsFalse result → content_of files.new name.now ≡ None }
{
    if clear_file(files, name) {
        return true;
    }
    set_file(alloc, files, name, Vec::new(alloc))
}

// Makes a name that is there hold nothing.
fn clear_file(files: &mut BTreeMap<String, Vec<u8>>, name: &str) -> bool
    ensures own { IsTrue result → content_of files.new name.now ≡ Some [] }
    ensures others { (other : List ℕ) → other ≢ name.now → content_of files.new other ≡ content_of files.old other }
    ensures absent { IsFalse result → content_of files.old name.now ≡ None }
    ensures unchanged { IsFalse result → content_of files.new name.now ≡ None }
{
    match files.get_mut(name) {
        Some(file) => {
            file.clear();
            true
        }
        None => false,
    }
}

// Adds bytes to what a name holds, or half of them where the call is to fail.
pub(crate) fn grow_file(
    files: &mut BTreeMap<String, Vec<u8>>,
    listed: bool,
    name: &str,
    bytes: &[u8],
) -> bool
    ensures own { AppendsListed listed (room_of files.old name.now) bytes.now result (content_of files.old name.now) (content_of files.new name.now) }
    ensures others { (other : List ℕ) → other ≢ name.now → content_of files.new other ≡ content_of files.old other }
{
    match files.get_mut(name) {
        Some(file) => grow(file, listed, bytes),
        None => false,
    }
}

// Adds bytes, or half of them where the call is to fail.
pub(crate) fn grow(list: &mut Vec<u8>, listed: bool, bytes: &[u8]) -> bool
    ensures { GrowsListed listed (vec_capacity list.old) bytes.now result list.old.items list.new.items }
{
    if listed {
        add_where_room(list, &bytes[..bytes.len() / 2]);
        return false;
    }
    list.extend_from_slice(bytes).is_ok()
}

// The same of what is written out or said: all bytes are added, or a prefix of them.
pub(crate) fn emit(list: &mut Vec<u8>, listed: bool, bytes: &[u8]) -> bool
    ensures exact { GrowsListed listed (vec_capacity list.old) bytes.now result list.old.items list.new.items }
    ensures all { IsTrue result → list.new.items ≡ list.old.items ++ bytes.now }
    ensures prefix { IsFalse result → AddsPrefix bytes.now list.old.items list.new.items }
{
    grow(list, listed, bytes)
}

// Adds bytes where memory is found for them.
fn add_where_room(list: &mut Vec<u8>, bytes: &[u8])
    ensures { AddsWhereRoom (vec_capacity list.old) bytes.now list.old.items list.new.items }
{
    let _ = list.extend_from_slice(bytes);
}

// Takes the first half of a file, at most `max` bytes.
fn load_half(file: &[u8], max: usize, into: &mut Vec<u8>)
    requires { into.old.items ≡ [] }
    ensures { AddsWhereRoom (vec_capacity into.old) (failed_part file.now max) [] into.new.items }
{
    add_where_room(into, &file[..max.min(file.len() / 2)]);
}

// Takes a file's bytes, or `max + 1` of them where it is too long.
pub(crate) fn load_whole(file: &[u8], max: usize, into: &mut Vec<u8>) -> Result<(), LoadFail>
    requires { into.old.items ≡ [] }
    ensures { LoadsBytes file.now max (vec_capacity into.old) result into.new.items }
{
    if file.len() <= max {
        return match into.extend_from_slice(file) {
            Ok(()) => Ok(()),
            Err(_) => Err(LoadFail::NoMemory),
        };
    }
    match into.extend_from_slice(&file[..max + 1]) {
        Ok(()) => Err(LoadFail::TooLong),
        Err(_) => Err(LoadFail::NoMemory),
    }
}
