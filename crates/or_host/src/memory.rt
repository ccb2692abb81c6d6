// A host in memory, some of whose calls fail.
ghost use Rattle.std.specs.Prelude.{◌≡◌, ◌≢◌, ◌==◌, [], List, ℕ, None, Some, Option, OnOk, OnErr, is_ok, vec_capacity};
ghost use Rattle.std.specs.List.{list_any};
ghost use Rattle.std.specs.Option.{option_copied};
ghost use Rattle.or_host.specs.Counts.{raised, LoadCounts, WriteCounts, SayCounts};
ghost use Rattle.or_host.specs.Calls.{IsName, dash, Takes, Empties, Extends, Emits};
ghost use Rattle.or_host.specs.declared.host.Operation.{Operation};
ghost use Rattle.or_host.specs.Blamed.{blamed};
ghost use Rattle.or_host.specs.Links.{is_link, are_linked};
ghost use Rattle.or_host.specs.Told.{TellsSame};
ghost use Rattle.or_host.specs.Pairs.{IsTold, KeepsPairs};

use crate::blame::note;
use crate::store::{emit, empty_file, grow_file, load_bytes, put_file};
use crate::{Blame, Failed, Host, LoadFail, Operation};
use or_words::NoMemory;
use std::alloc::Global;
use std::collections::BTreeMap;

/// Files, standard output and what was said, in memory. Calls whose numbers are listed fail. Two names lead to one file if they are
/// one text or listed as a pair; what each of them holds is kept for itself.
#[derive(Drop)]
pub struct MemHost {
    alloc: Global,
    files: BTreeMap<String, Vec<u8>>,
    failing: Vec<u64>,
    links: Vec<(String, String)>,
    calls: u64,
    written: Vec<u8>,
    said: Vec<u8>,
    faults: u64,
    say_faults: u64,
    lacks: u64,
    blame: Option<Blame>,
}

impl MemHost {
    ghost use Rattle.or_host.specs.Memory.{file_of, file_room, bytes_out, bytes_said, KeepsAllButFiles, StartsWith};
    ghost use Rattle.or_host.specs.Failing.{LacksPlace};

    /// A host with no files. Its calls with these numbers, counted from 1 over all five calls, are to fail.
    pub fn new(alloc: Global, failing: Vec<u64>) -> Self
        ensures names { (name : List ℕ) → file_of result name ≡ None }
        ensures written { bytes_out result ≡ [] }
        ensures said { bytes_said result ≡ [] }
        ensures start { StartsWith failing.items [] result }
    {
        MemHost::with_links(alloc, failing, Vec::new(alloc))
    }

    /// The same, in which the two names of each of these pairs lead to one file.
    pub fn with_links(alloc: Global, failing: Vec<u64>, links: Vec<(String, String)>) -> Self
        ensures names { (name : List ℕ) → file_of result name ≡ None }
        ensures written { bytes_out result ≡ [] }
        ensures said { bytes_said result ≡ [] }
        ensures start { StartsWith failing.items links.items result }
    {
        MemHost {
            alloc,
            files: BTreeMap::new(alloc),
            failing,
            links,
            calls: 0,
            written: Vec::new(alloc),
            said: Vec::new(alloc),
            faults: 0,
            say_faults: 0,
            lacks: 0,
            blame: None,
        }
    }

    /// Makes a name hold these bytes, or changes nothing where memory ran out: it may for a new name, and for a file that has no
    /// room for them. It is no counted call.
    pub fn put(&mut self, name: &str, bytes: &[u8]) -> Result<(), NoMemory>
        ensures own { OnOk result (file_of self.new name.now ≡ Some bytes.now) }
        ensures full { OnErr result (LacksPlace (file_room self.old name.now) bytes.now (file_of self.old name.now)) }
        ensures others { (other : List ℕ) → other ≢ name.now → file_of self.new other ≡ file_of self.old other }
        ensures unchanged { OnErr result ((other : List ℕ) → file_of self.new other ≡ file_of self.old other) }
        ensures rest { KeepsAllButFiles self.old self.new }
    {
        if put_file(self.alloc, &mut self.files, name, bytes) {
            Ok(())
        } else {
            Err(NoMemory)
        }
    }

    /// What a name holds, `None` exactly where it is absent.
    pub fn file(&self, name: &str) -> Option<&[u8]>
        ensures { option_copied result ≡ file_of self.now name.now }
    {
        match self.files.get(name) {
            Some(bytes) => Some(bytes.as_slice()),
            None => None,
        }
    }

    /// The bytes of standard output.
    pub fn written(&self) -> &[u8]
        ensures { result.now ≡ bytes_out self.now }
    {
        &self.written
    }

    /// The bytes that were said.
    pub fn said(&self) -> &[u8]
        ensures { result.now ≡ bytes_said self.now }
    {
        &self.said
    }
}

impl Host for MemHost {
    ghost use Rattle.or_host.specs.Memory.{memory_state, file_of, file_room, bytes_out, bytes_said, out_room, say_room, is_listed, CountsCall};
    ghost use Rattle.or_host.specs.Failing.{LoadsListed, CreatesListed, AppendsListed, GrowsListed};

    ghost state = { memory_state };

    fn same(&self, one: &str, other: &str) -> bool
        ensures { IsTold result ((memory_state self.now).pairs one.now other.now) }
    {
        one == other || are_linked(&self.links, one, other)
    }

    fn load(&mut self, name: &str, max: usize, into: &mut Vec<u8>) -> Result<(), LoadFail>
        requires name { IsName name.now }
        requires empty { into.old.items ≡ [] }
        ensures taken { Takes result ((memory_state self.old).holds name.now) max into.new.items }
        ensures names { (other : List ℕ) → TellsSame ((memory_state self.old).holds other) ((memory_state self.new).holds other) }
        ensures written { TellsSame ((memory_state self.old).written) ((memory_state self.new).written) }
        ensures said { TellsSame ((memory_state self.old).said) ((memory_state self.new).said) }
        ensures pairs { KeepsPairs ((memory_state self.old).pairs) ((memory_state self.new).pairs) }
        ensures counts { LoadCounts result (blamed Operation.Load name.now) (memory_state self.old) (memory_state self.new) }
        ensures exact { LoadsListed (is_listed self.old) (file_of self.old name.now) max (vec_capacity into.old) result into.new.items }
        ensures counted { CountsCall self.old self.new }
    {
        let listed = next_is_listed(&self.failing, &mut self.calls);
        let result = load_bytes(&self.files, listed, name, max, into);
        if matches!(result, Err(LoadFail::Failed)) {
            note(&mut self.faults, &mut self.blame, Operation::Load, name);
        } else if matches!(result, Err(LoadFail::NoMemory)) {
            self.lacks = self.lacks.saturating_add(1);
        }
        result
    }

    fn create(&mut self, name: &str) -> Result<(), Failed>
        requires { IsName name.now }
        ensures own { Empties result ((memory_state self.old).holds name.now) ((memory_state self.new).holds name.now) }
        ensures others { (other : List ℕ) → other ≢ name.now → TellsSame ((memory_state self.old).holds other) ((memory_state self.new).holds other) }
        ensures written { TellsSame ((memory_state self.old).written) ((memory_state self.new).written) }
        ensures said { TellsSame ((memory_state self.old).said) ((memory_state self.new).said) }
        ensures pairs { KeepsPairs ((memory_state self.old).pairs) ((memory_state self.new).pairs) }
        ensures counts { WriteCounts result (blamed Operation.Write name.now) (memory_state self.old) (memory_state self.new) }
        ensures exact { CreatesListed (is_listed self.old) (is_ok result) (file_of self.old name.now) (file_of self.new name.now) }
        ensures counted { CountsCall self.old self.new }
    {
        let listed = next_is_listed(&self.failing, &mut self.calls);
        if !listed && empty_file(self.alloc, &mut self.files, name) {
            return Ok(());
        }
        note(&mut self.faults, &mut self.blame, Operation::Write, name);
        Err(Failed)
    }

    fn append(&mut self, name: &str, bytes: &[u8]) -> Result<(), Failed>
        requires { IsName name.now }
        ensures own { Extends result bytes.now ((memory_state self.old).holds name.now) ((memory_state self.new).holds name.now) }
        ensures others { (other : List ℕ) → other ≢ name.now → TellsSame ((memory_state self.old).holds other) ((memory_state self.new).holds other) }
        ensures written { TellsSame ((memory_state self.old).written) ((memory_state self.new).written) }
        ensures said { TellsSame ((memory_state self.old).said) ((memory_state self.new).said) }
        ensures pairs { KeepsPairs ((memory_state self.old).pairs) ((memory_state self.new).pairs) }
        ensures counts { WriteCounts result (blamed Operation.Write name.now) (memory_state self.old) (memory_state self.new) }
        ensures exact { AppendsListed (is_listed self.old) (file_room self.old name.now) bytes.now (is_ok result) (file_of self.old name.now) (file_of self.new name.now) }
        ensures counted { CountsCall self.old self.new }
    {
        let listed = next_is_listed(&self.failing, &mut self.calls);
        if grow_file(&mut self.files, listed, name, bytes) {
            return Ok(());
        }
        note(&mut self.faults, &mut self.blame, Operation::Write, name);
        Err(Failed)
    }

    fn out(&mut self, bytes: &[u8]) -> Result<(), Failed>
        ensures names { (other : List ℕ) → TellsSame ((memory_state self.old).holds other) ((memory_state self.new).holds other) }
        ensures written { Emits result bytes.now ((memory_state self.old).written) ((memory_state self.new).written) }
        ensures said { TellsSame ((memory_state self.old).said) ((memory_state self.new).said) }
        ensures pairs { KeepsPairs ((memory_state self.old).pairs) ((memory_state self.new).pairs) }
        ensures counts { WriteCounts result (blamed Operation.Write dash) (memory_state self.old) (memory_state self.new) }
        ensures exact { GrowsListed (is_listed self.old) (out_room self.old) bytes.now (is_ok result) (bytes_out self.old) (bytes_out self.new) }
        ensures counted { CountsCall self.old self.new }
    {
        let listed = next_is_listed(&self.failing, &mut self.calls);
        if emit(&mut self.written, listed, bytes) {
            return Ok(());
        }
        note(&mut self.faults, &mut self.blame, Operation::Write, "-");
        Err(Failed)
    }

    fn say(&mut self, bytes: &[u8]) -> Result<(), Failed>
        ensures names { (other : List ℕ) → TellsSame ((memory_state self.old).holds other) ((memory_state self.new).holds other) }
        ensures written { TellsSame ((memory_state self.old).written) ((memory_state self.new).written) }
        ensures said { Emits result bytes.now ((memory_state self.old).said) ((memory_state self.new).said) }
        ensures pairs { KeepsPairs ((memory_state self.old).pairs) ((memory_state self.new).pairs) }
        ensures counts { SayCounts result (memory_state self.old) (memory_state self.new) }
        ensures exact { GrowsListed (is_listed self.old) (say_room self.old) bytes.now (is_ok result) (bytes_said self.old) (bytes_said self.new) }
        ensures counted { CountsCall self.old self.new }
    {
        let listed = next_is_listed(&self.failing, &mut self.calls);
        if emit(&mut self.said, listed, bytes) {
            return Ok(());
        }
        self.say_faults = self.say_faults.saturating_add(1);
        Err(Failed)
    }
}

// Counts a call, and says whether its number is listed.
fn next_is_listed(failing: &[u64], calls: &mut u64) -> bool
    ensures counted { calls.new ≡ raised calls.old }
    ensures listed { result ≡ list_any (λ number. number == raised calls.old) failing.now }
{
    *calls = calls.saturating_add(1);
    failing.contains(calls)
}

// Whether one of these pairs is of the two names, in either order.
fn are_linked(links: &[(String, String)], one: &str, other: &str) -> bool
    ensures { result ≡ are_linked links.now one.now other.now }
{
    let Some((first, rest)) = links.split_first() else {
        return false;
    };
    is_link(first, one, other) || is_link(first, other, one) || are_linked(rest, one, other)
}

fn is_link(link: &(String, String), one: &str, other: &str) -> bool
    ensures { result ≡ is_link link.now one.now other.now }
{
    link.0.as_str() == one && link.1.as_str() == other
}
