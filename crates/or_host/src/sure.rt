// A host that never fails: it holds the files that it is given, and drops what is written.
ghost use Rattle.std.specs.Prelude.{◌≡◌, ◌≢◌, [], List, ℕ, None, Some, Option, Result, IsOk, MatchOption, unwrap_or, vec_capacity};
ghost use Rattle.or_host.specs.Given.{given};
ghost use Rattle.or_host.specs.Failing.{LoadsBytes};
ghost use Rattle.or_host.specs.Counts.{LoadCounts, WriteCounts, SayCounts};
ghost use Rattle.or_host.specs.Calls.{IsName, dash, Takes, Empties, Extends, Emits};
ghost use Rattle.or_host.specs.declared.host.Operation.{Operation};
ghost use Rattle.or_host.specs.Blamed.{blamed};
ghost use Rattle.or_host.specs.Told.{TellsSame};
ghost use Rattle.or_host.specs.Pairs.{IsTold, KeepsPairs};

use crate::store::load_whole;
use crate::{Failed, Host, LoadFail};

/// Files that are given, until one of their names is first written. What is written is dropped, and no call fails but for
/// want of memory in a load.
#[derive(Drop)]
pub struct SureHost {
    files: Vec<(String, Vec<u8>)>,
    lacks: u64,
}

impl SureHost {
    ghost use Rattle.or_host.specs.Sure.{sure_files};

    /// A host that holds these files. Of two files of one name the first counts.
    pub fn new(files: Vec<(String, Vec<u8>)>) -> Self
        ensures { (name : List ℕ) → sure_files result name ≡ given files.items name }
    {
        SureHost { files, lacks: 0 }
    }
}

impl Host for SureHost {
    ghost use Rattle.or_host.specs.Sure.{sure_state, sure_files, Forgets, Keeps};

    ghost state = { sure_state };

    // Each name leads to a file of its own.
    fn same(&self, one: &str, other: &str) -> bool
        ensures { IsTold result ((sure_state self.now).pairs one.now other.now) }
    {
        let _ = self;
        one == other
    }

    // An absent name loads as an empty file.
    fn load(&mut self, name: &str, max: usize, into: &mut Vec<u8>) -> Result<(), LoadFail>
        requires name { IsName name.now }
        requires empty { into.old.items ≡ [] }
        ensures taken { Takes result ((sure_state self.old).holds name.now) max into.new.items }
        ensures names { (other : List ℕ) → TellsSame ((sure_state self.old).holds other) ((sure_state self.new).holds other) }
        ensures written { TellsSame ((sure_state self.old).written) ((sure_state self.new).written) }
        ensures said { TellsSame ((sure_state self.old).said) ((sure_state self.new).said) }
        ensures pairs { KeepsPairs ((sure_state self.old).pairs) ((sure_state self.new).pairs) }
        ensures counts { LoadCounts result (blamed Operation.Load name.now) (sure_state self.old) (sure_state self.new) }
        ensures exact { LoadsBytes (unwrap_or (sure_files self.old name.now) []) max (vec_capacity into.old) result into.new.items }
        ensures keeps { Keeps self.old self.new }
    {
        match find(&self.files, name) {
            Some(bytes) => {
                let answer = load_whole(bytes, max, into);
                if matches!(answer, Err(LoadFail::NoMemory)) {
                    self.lacks = self.lacks.saturating_add(1);
                }
                answer
            }
            None => Ok(()),
        }
    }

    fn create(&mut self, name: &str) -> Result<(), Failed>
        requires { IsName name.now }
        ensures own { Empties result ((sure_state self.old).holds name.now) ((sure_state self.new).holds name.now) }
        ensures others { (other : List ℕ) → other ≢ name.now → TellsSame ((sure_state self.old).holds other) ((sure_state self.new).holds other) }
        ensures written { TellsSame ((sure_state self.old).written) ((sure_state self.new).written) }
        ensures said { TellsSame ((sure_state self.old).said) ((sure_state self.new).said) }
        ensures pairs { KeepsPairs ((sure_state self.old).pairs) ((sure_state self.new).pairs) }
        ensures counts { WriteCounts result (blamed Operation.Write name.now) (sure_state self.old) (sure_state self.new) }
        ensures done { IsOk result }
        ensures forgets { Forgets name.now self.old self.new }
    {
        forget(&mut self.files, name);
        Ok(())
    }

    fn append(&mut self, name: &str, _bytes: &[u8]) -> Result<(), Failed>
        requires { IsName name.now }
        ensures own { Extends result _bytes.now ((sure_state self.old).holds name.now) ((sure_state self.new).holds name.now) }
        ensures others { (other : List ℕ) → other ≢ name.now → TellsSame ((sure_state self.old).holds other) ((sure_state self.new).holds other) }
        ensures written { TellsSame ((sure_state self.old).written) ((sure_state self.new).written) }
        ensures said { TellsSame ((sure_state self.old).said) ((sure_state self.new).said) }
        ensures pairs { KeepsPairs ((sure_state self.old).pairs) ((sure_state self.new).pairs) }
        ensures counts { WriteCounts result (blamed Operation.Write name.now) (sure_state self.old) (sure_state self.new) }
        ensures done { IsOk result }
        ensures forgets { Forgets name.now self.old self.new }
    {
        forget(&mut self.files, name);
        Ok(())
    }

    fn out(&mut self, _bytes: &[u8]) -> Result<(), Failed>
        ensures names { (other : List ℕ) → TellsSame ((sure_state self.old).holds other) ((sure_state self.new).holds other) }
        ensures written { Emits result _bytes.now ((sure_state self.old).written) ((sure_state self.new).written) }
        ensures said { TellsSame ((sure_state self.old).said) ((sure_state self.new).said) }
        ensures pairs { KeepsPairs ((sure_state self.old).pairs) ((sure_state self.new).pairs) }
        ensures counts { WriteCounts result (blamed Operation.Write dash) (sure_state self.old) (sure_state self.new) }
        ensures done { IsOk result }
        ensures keeps { Keeps self.old self.new }
    {
        Ok(())
    }

    fn say(&mut self, _bytes: &[u8]) -> Result<(), Failed>
        ensures names { (other : List ℕ) → TellsSame ((sure_state self.old).holds other) ((sure_state self.new).holds other) }
        ensures written { TellsSame ((sure_state self.old).written) ((sure_state self.new).written) }
        ensures said { Emits result _bytes.now ((sure_state self.old).said) ((sure_state self.new).said) }
        ensures pairs { KeepsPairs ((sure_state self.old).pairs) ((sure_state self.new).pairs) }
        ensures counts { SayCounts result (sure_state self.old) (sure_state self.new) }
        ensures done { IsOk result }
        ensures keeps { Keeps self.old self.new }
    {
        Ok(())
    }
}

// What a name is given.
fn find<'a>(files: &'a [(String, Vec<u8>)], name: &str) -> Option<&'a [u8]>
    ensures { MatchOption result (given files.now name.now ≡ None) (λ bytes. given files.now name.now ≡ Some bytes.now) }
{
    let mut rest = files;
    while let [(given, bytes), after @ ..] = rest {
        if given.as_str() == name {
            return Some(bytes.as_slice());
        }
        rest = after;
    }
    None
}

// Takes a name out.
fn forget(files: &mut Vec<(String, Vec<u8>)>, name: &str)
    ensures own { given files.new.items name.now ≡ None }
    ensures others { (other : List ℕ) → other ≢ name.now → given files.new.items other ≡ given files.old.items other }
{
    files.retain(|file| file.0.as_str() != name);
}
