// The trait that a command's outside meets, with its faults and their blame.
ghost use Rattle.std.specs.Prelude.{◌≡◌, ◌≢◌, [], List, ℕ};
ghost use Rattle.or_host.specs.declared.host.Operation.{Operation};
ghost use Rattle.or_host.specs.Blamed.{blamed};
ghost use Rattle.or_host.specs.Told.{TellsSame};
ghost use Rattle.or_host.specs.Pairs.{IsTold, KeepsPairs};
ghost use Rattle.or_host.specs.Counts.{LoadCounts, WriteCounts, SayCounts};
ghost use Rattle.or_host.specs.HostState.{HostState};
ghost use Rattle.or_host.specs.Calls.{IsName, dash, Takes, Empties, Extends, Emits};

use arrayvec::ArrayString;
use or_words::limits::NAME_LIMIT;
use std::marker::Model;
use thiserror::Error;

/// Why a load did not give a whole file.
#[derive(Clone, Copy, Debug, PartialEq, Eq, Error)]
pub enum LoadFail {
    /// The file could not be read: a fault of the host.
    #[error("the file could not be read")]
    Failed,
    /// The file has more bytes than the limit.
    #[error("the file is too long")]
    TooLong,
    /// Memory ran out.
    #[error("memory ran out")]
    NoMemory,
}

/// A call of the outside failed.
#[derive(Clone, Copy, Debug, PartialEq, Eq)]
pub struct Failed;

/// What was being done when a fault came.
#[derive(Clone, Copy, Debug, PartialEq, Eq)]
pub enum Operation {
    /// A file was being read.
    Load,
    /// A file or standard output was being written.
    Write,
}

/// What was being done at the last fault, and with which name: `-` for standard output.
#[derive(Drop)]
pub struct Blame {
    pub operation: Operation,
    pub name: ArrayString<NAME_LIMIT>,
}

impl Model for Blame {
    ghost use Rattle.or_host.specs.Blamed.{Blamed};

    ghost Value = { Blamed };

    ghost view = { λ b. record { operation = b.operation; name = b.name.bytes } };
}

/// Files by name, standard output, and a place where faults are said.
///
/// A host counts its faults, and keeps what was being done at the last one. Faults of `say` are counted for themselves. `same` is no
/// counted call.
/// It also counts the loads that found no memory. A count stands still at the last value of a `u64`.
pub trait Host {
    /// What a contract sees of the host at a moment.
    ghost state: { Self → HostState };

    /// Whether two names lead to one file: a question that changes nothing and that does not fail. A special file, as a terminal,
    /// is none that two names lead to.
    fn same(&self, one: &str, other: &str) -> bool
        ensures { IsTold result ((state self.now).pairs one.now other.now) };

    /// Takes the bytes that a name holds into an empty list: all of them where they are at most `max`.
    ///
    /// Errors: `TooLong` exactly where `max + 1` bytes were taken; `Failed` for a fault of the host, `NoMemory` where memory
    /// ran out, which is counted, both behind a prefix of at most `max` bytes.
    fn load(&mut self, name: &str, max: usize, into: &mut Vec<u8>) -> Result<(), LoadFail>
        requires name { IsName name.now }
        requires empty { into.old.items ≡ [] }
        ensures taken { Takes result ((state self.old).holds name.now) max into.new.items }
        ensures names { (other : List ℕ) → TellsSame ((state self.old).holds other) ((state self.new).holds other) }
        ensures written { TellsSame ((state self.old).written) ((state self.new).written) }
        ensures said { TellsSame ((state self.old).said) ((state self.new).said) }
        ensures pairs { KeepsPairs ((state self.old).pairs) ((state self.new).pairs) }
        ensures counts { LoadCounts result (blamed Operation.Load name.now) (state self.old) (state self.new) };

    /// Makes a name hold nothing. A failure leaves it as it was.
    fn create(&mut self, name: &str) -> Result<(), Failed>
        requires { IsName name.now }
        ensures own { Empties result ((state self.old).holds name.now) ((state self.new).holds name.now) }
        ensures others { (other : List ℕ) → other ≢ name.now → TellsSame ((state self.old).holds other) ((state self.new).holds other) }
        ensures written { TellsSame ((state self.old).written) ((state self.new).written) }
        ensures said { TellsSame ((state self.old).said) ((state self.new).said) }
        ensures pairs { KeepsPairs ((state self.old).pairs) ((state self.new).pairs) }
        ensures counts { WriteCounts result (blamed Operation.Write name.now) (state self.old) (state self.new) };

    /// Adds bytes to what a name holds. A failure adds a prefix of them.
    fn append(&mut self, name: &str, bytes: &[u8]) -> Result<(), Failed>
        requires { IsName name.now }
        ensures own { Extends result bytes.now ((state self.old).holds name.now) ((state self.new).holds name.now) }
        ensures others { (other : List ℕ) → other ≢ name.now → TellsSame ((state self.old).holds other) ((state self.new).holds other) }
        ensures written { TellsSame ((state self.old).written) ((state self.new).written) }
        ensures said { TellsSame ((state self.old).said) ((state self.new).said) }
        ensures pairs { KeepsPairs ((state self.old).pairs) ((state self.new).pairs) }
        ensures counts { WriteCounts result (blamed Operation.Write name.now) (state self.old) (state self.new) };

    /// Adds bytes to standard output. A failure adds a prefix of them.
    fn out(&mut self, bytes: &[u8]) -> Result<(), Failed>
        ensures names { (other : List ℕ) → TellsSame ((state self.old).holds other) ((state self.new).holds other) }
        ensures written { Emits result bytes.now ((state self.old).written) ((state self.new).written) }
        ensures said { TellsSame ((state self.old).said) ((state self.new).said) }
        ensures pairs { KeepsPairs ((state self.old).pairs) ((state self.new).pairs) }
        ensures counts { WriteCounts result (blamed Operation.Write dash) (state self.old) (state self.new) };

    /// Adds bytes to what is said. A failure adds a prefix of them, and counts for itself.
    fn say(&mut self, bytes: &[u8]) -> Result<(), Failed>
        ensures names { (other : List ℕ) → TellsSame ((state self.old).holds other) ((state self.new).holds other) }
        ensures written { TellsSame ((state self.old).written) ((state self.new).written) }
        ensures said { Emits result bytes.now ((state self.old).said) ((state self.new).said) }
        ensures pairs { KeepsPairs ((state self.old).pairs) ((state self.new).pairs) }
        ensures counts { SayCounts result (state self.old) (state self.new) };
}
