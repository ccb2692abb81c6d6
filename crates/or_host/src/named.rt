// The calls of the system on named files that a host of real files is made of.
ghost use Rattle.std.specs.Prelude.{◌≡◌, ◌≢◌, ◌≤◌, [], List, ℕ, Option, None, IfOk, length};
ghost use Rattle.or_host.specs.Told.{Content, TellsSame};
ghost use Rattle.or_host.specs.Pairs.{Pairs, IsTold, KeepsPairs};
ghost use Rattle.or_host.specs.Calls.{Empties};
ghost use Rattle.or_host.specs.Named.{Opens, AddsSome};

use crate::Failed;
use crate::same::same_file;
use std::fs;
use std::fs::{File, OpenOptions};
use std::io::{Read, Write};

/// Named files: one can be opened to be read, made empty, or added to by one write.
pub trait NamedFiles {
    /// A file that is being read.
    type Reader: Read + Drop;

    /// What each name holds, where it is told.
    ghost holds: { Self → List ℕ → Option Content };

    /// Whether two names lead to one file, where it is told.
    ghost pairs: { Self → Pairs };

    /// Whether two names lead to one file that is no special one.
    fn same(&self, one: &str, other: &str) -> bool
        ensures { IsTold result (pairs self.now one.now other.now) };

    /// Opens a file, to be read from its first byte.
    fn open(&mut self, name: &str) -> Result<Self::Reader, Failed>
        ensures opened { Opens Self.Reader.remaining (holds self.old name.now) result }
        ensures names { (other : List ℕ) → TellsSame (holds self.old other) (holds self.new other) }
        ensures pairs { KeepsPairs (pairs self.old) (pairs self.new) };

    /// Makes a name hold nothing. A failure leaves it as it was.
    fn create(&mut self, name: &str) -> Result<(), Failed>
        ensures own { Empties result (holds self.old name.now) (holds self.new name.now) }
        ensures others { (other : List ℕ) → other ≢ name.now → TellsSame (holds self.old other) (holds self.new other) }
        ensures pairs { KeepsPairs (pairs self.old) (pairs self.new) };

    /// Adds bytes to what a name holds, by one write, and answers how many were taken. A failure adds none.
    fn append(&mut self, name: &str, bytes: &[u8]) -> Result<usize, Failed>
        ensures count { IfOk result (λ count. count ≤ length bytes.now) }
        ensures own { AddsSome result bytes.now (holds self.old name.now) (holds self.new name.now) }
        ensures others { (other : List ℕ) → other ≢ name.now → TellsSame (holds self.old other) (holds self.new other) }
        ensures pairs { KeepsPairs (pairs self.old) (pairs self.new) };
}

// Real files, of which nothing is told.
impl<'a> NamedFiles for &'a HostRuntime {
    type Reader = File;

    ghost holds = { λ _ _. None };

    ghost pairs = { λ _ _ _. None };

    fn same(&self, one: &str, other: &str) -> bool {
        same_file(*self, one, other)
    }

    fn open(&mut self, name: &str) -> Result<File, Failed> {
        fs::open(*self, name).map_err(|_| Failed)
    }

    fn create(&mut self, name: &str) -> Result<(), Failed> {
        match fs::create(*self, name) {
            Ok(_) => Ok(()),
            Err(_) => Err(Failed),
        }
    }

    fn append(&mut self, name: &str, bytes: &[u8]) -> Result<usize, Failed> {
        let Ok(mut file) = OpenOptions::new().append(true).open(*self, name) else {
            return Err(Failed);
        };
        file.write(bytes).map_err(|_| Failed)
    }
}
