// The host of named files and of two writers.
ghost use Rattle.std.specs.Prelude.{◌≡◌, ◌≢◌, [], List, ℕ, None, vec_capacity};
ghost use Rattle.or_host.specs.Counts.{LoadCounts, WriteCounts, SayCounts};
ghost use Rattle.or_host.specs.Calls.{IsName, dash, Takes, Empties, Extends, Emits};
ghost use Rattle.or_host.specs.Named.{Sends, LacksRoom};
ghost use Rattle.or_host.specs.declared.host.Operation.{Operation};
ghost use Rattle.or_host.specs.Blamed.{blamed};
ghost use Rattle.or_host.specs.Told.{TellsSame};
ghost use Rattle.or_host.specs.Pairs.{IsTold, KeepsPairs};

use crate::blame::note;
use crate::whole::{append_whole, load_named, write_whole};
use crate::{Blame, Failed, Host, LoadFail, NamedFiles, Operation};
use std::io::{Stderr, Stdout, Write};

/// Named files, a writer for what is written out, and one for what is said.
///
/// It tells of files what they tell. What the writers are known to hold grows by what is written out and what is said. Of real
/// files, standard output and standard error nothing is told.
#[derive(Drop)]
pub struct FileHost<F: NamedFiles + Drop, O: Write + Drop, E: Write + Drop> {
    files: F,
    out: O,
    err: E,
    faults: u64,
    say_faults: u64,
    lacks: u64,
    blame: Option<Blame>,
}

impl<'a> FileHost<&'a HostRuntime, Stdout, Stderr> {
    /// The host of the process: its files, its standard output and its standard error.
    pub fn new(rt: &'a HostRuntime) -> Self
        ensures faults { result.faults ≡ 0 }
        ensures say_faults { result.say_faults ≡ 0 }
        ensures lacks { result.lacks ≡ 0 }
        ensures blame { result.blame ≡ None }
    {
        FileHost::over(rt, rt.stdout(), rt.stderr())
    }
}

impl<F: NamedFiles + Drop, O: Write + Drop, E: Write + Drop> FileHost<F, O, E> {
    /// A host over these files, with these writers for what is written out and what is said.
    pub fn over(files: F, out: O, err: E) -> Self
        ensures faults { result.faults ≡ 0 }
        ensures say_faults { result.say_faults ≡ 0 }
        ensures lacks { result.lacks ≡ 0 }
        ensures blame { result.blame ≡ None }
    {
        FileHost {
            files,
            out,
            err,
            faults: 0,
            say_faults: 0,
            lacks: 0,
            blame: None,
        }
    }
}

impl<F: NamedFiles + Drop, O: Write + Drop, E: Write + Drop> Host for FileHost<F, O, E> {
    ghost use Rattle.or_host.specs.FileHost.{files_state, KeepsWriters};

    ghost state = { files_state F.holds F.pairs };

    fn same(&self, one: &str, other: &str) -> bool
        ensures { IsTold result ((files_state F.holds F.pairs self.now).pairs one.now other.now) }
    {
        self.files.same(one, other)
    }

    fn load(&mut self, name: &str, max: usize, into: &mut Vec<u8>) -> Result<(), LoadFail>
        requires name { IsName name.now }
        requires empty { into.old.items ≡ [] }
        ensures taken { Takes result ((files_state F.holds F.pairs self.old).holds name.now) max into.new.items }
        ensures names { (other : List ℕ) → TellsSame ((files_state F.holds F.pairs self.old).holds other) ((files_state F.holds F.pairs self.new).holds other) }
        ensures written { TellsSame ((files_state F.holds F.pairs self.old).written) ((files_state F.holds F.pairs self.new).written) }
        ensures said { TellsSame ((files_state F.holds F.pairs self.old).said) ((files_state F.holds F.pairs self.new).said) }
        ensures pairs { KeepsPairs ((files_state F.holds F.pairs self.old).pairs) ((files_state F.holds F.pairs self.new).pairs) }
        ensures counts { LoadCounts result (blamed Operation.Load name.now) (files_state F.holds F.pairs self.old) (files_state F.holds F.pairs self.new) }
        ensures full { LacksRoom result (vec_capacity into.old) into.new.items }
        ensures writers { KeepsWriters self.old self.new }
    {
        match load_named(&mut self.files, name, max, into) {
            Err(LoadFail::Failed) => {
                note(&mut self.faults, &mut self.blame, Operation::Load, name);
                Err(LoadFail::Failed)
            }
            Err(LoadFail::NoMemory) => {
                self.lacks = self.lacks.saturating_add(1);
                Err(LoadFail::NoMemory)
            }
            answer => answer,
        }
    }

    fn create(&mut self, name: &str) -> Result<(), Failed>
        requires { IsName name.now }
        ensures own { Empties result ((files_state F.holds F.pairs self.old).holds name.now) ((files_state F.holds F.pairs self.new).holds name.now) }
        ensures others { (other : List ℕ) → other ≢ name.now → TellsSame ((files_state F.holds F.pairs self.old).holds other) ((files_state F.holds F.pairs self.new).holds other) }
        ensures written { TellsSame ((files_state F.holds F.pairs self.old).written) ((files_state F.holds F.pairs self.new).written) }
        ensures said { TellsSame ((files_state F.holds F.pairs self.old).said) ((files_state F.holds F.pairs self.new).said) }
        ensures pairs { KeepsPairs ((files_state F.holds F.pairs self.old).pairs) ((files_state F.holds F.pairs self.new).pairs) }
        ensures counts { WriteCounts result (blamed Operation.Write name.now) (files_state F.holds F.pairs self.old) (files_state F.holds F.pairs self.new) }
        ensures writers { KeepsWriters self.old self.new }
    {
        match self.files.create(name) {
            Ok(()) => Ok(()),
            Err(_) => {
                note(&mut self.faults, &mut self.blame, Operation::Write, name);
                Err(Failed)
            }
        }
    }

    fn append(&mut self, name: &str, bytes: &[u8]) -> Result<(), Failed>
        requires { IsName name.now }
        ensures own { Extends result bytes.now ((files_state F.holds F.pairs self.old).holds name.now) ((files_state F.holds F.pairs self.new).holds name.now) }
        ensures others { (other : List ℕ) → other ≢ name.now → TellsSame ((files_state F.holds F.pairs self.old).holds other) ((files_state F.holds F.pairs self.new).holds other) }
        ensures written { TellsSame ((files_state F.holds F.pairs self.old).written) ((files_state F.holds F.pairs self.new).written) }
        ensures said { TellsSame ((files_state F.holds F.pairs self.old).said) ((files_state F.holds F.pairs self.new).said) }
        ensures pairs { KeepsPairs ((files_state F.holds F.pairs self.old).pairs) ((files_state F.holds F.pairs self.new).pairs) }
        ensures counts { WriteCounts result (blamed Operation.Write name.now) (files_state F.holds F.pairs self.old) (files_state F.holds F.pairs self.new) }
        ensures writers { KeepsWriters self.old self.new }
    {
        match append_whole(&mut self.files, name, bytes) {
            Ok(()) => Ok(()),
            Err(_) => {
                note(&mut self.faults, &mut self.blame, Operation::Write, name);
                Err(Failed)
            }
        }
    }

    fn out(&mut self, bytes: &[u8]) -> Result<(), Failed>
        ensures names { (other : List ℕ) → TellsSame ((files_state F.holds F.pairs self.old).holds other) ((files_state F.holds F.pairs self.new).holds other) }
        ensures written { Emits result bytes.now ((files_state F.holds F.pairs self.old).written) ((files_state F.holds F.pairs self.new).written) }
        ensures said { TellsSame ((files_state F.holds F.pairs self.old).said) ((files_state F.holds F.pairs self.new).said) }
        ensures pairs { KeepsPairs ((files_state F.holds F.pairs self.old).pairs) ((files_state F.holds F.pairs self.new).pairs) }
        ensures counts { WriteCounts result (blamed Operation.Write dash) (files_state F.holds F.pairs self.old) (files_state F.holds F.pairs self.new) }
        ensures sent { Sends result bytes.now (O.contents self.old.out) (O.contents self.new.out) }
        ensures err { self.new.err ≡ self.old.err }
    {
        match write_whole(&mut self.out, bytes) {
            Ok(()) => Ok(()),
            Err(_) => {
                note(&mut self.faults, &mut self.blame, Operation::Write, "-");
                Err(Failed)
            }
        }
    }

    fn say(&mut self, bytes: &[u8]) -> Result<(), Failed>
        ensures names { (other : List ℕ) → TellsSame ((files_state F.holds F.pairs self.old).holds other) ((files_state F.holds F.pairs self.new).holds other) }
        ensures written { TellsSame ((files_state F.holds F.pairs self.old).written) ((files_state F.holds F.pairs self.new).written) }
        ensures said { Emits result bytes.now ((files_state F.holds F.pairs self.old).said) ((files_state F.holds F.pairs self.new).said) }
        ensures pairs { KeepsPairs ((files_state F.holds F.pairs self.old).pairs) ((files_state F.holds F.pairs self.new).pairs) }
        ensures counts { SayCounts result (files_state F.holds F.pairs self.old) (files_state F.holds F.pairs self.new) }
        ensures sent { Sends result bytes.now (E.contents self.old.err) (E.contents self.new.err) }
        ensures out { self.new.out ≡ self.old.out }
    {
        match write_whole(&mut self.err, bytes) {
            Ok(()) => Ok(()),
            Err(_) => {
                self.say_faults = self.say_faults.saturating_add(1);
                Err(Failed)
            }
        }
    }
}
