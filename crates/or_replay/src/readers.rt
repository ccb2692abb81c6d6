//! What is told of a board, and a copy of it.
ghost use Rattle.std.specs.Prelude.{◌≡◌, ◌<◌, ◌≤◌, ◌⊎◌, ℕ, List, OnOk, OnErr, IfOk, length};
ghost use Rattle.or_model.specs.Turn.{Board as BoardModel};
ghost use Rattle.or_bus.specs.State.{with_read};
ghost use Rattle.or_bus.specs.Answers.{word_shown};
ghost use Rattle.or_bus.specs.Lines.{IsLineTold};
ghost use Rattle.or_replay.specs.Board.{IsBoard};
ghost use Rattle.or_replay.specs.Report.{shown_counts};

use crate::board::Board;
use arrayvec::ArrayVec;
use or_bus::Counts;
use or_core::Core;
use or_words::NoMemory;
use std::alloc::Global;

impl Board {
    /// The hits and misses of a core's data cache so far, each cut at the last value of 64 bits.
    pub fn counts(&self, core: u32) -> Counts
        requires { core < length self.now.cores }
        ensures { (board : BoardModel) → IsBoard self.now.cores self.now.bus board → result ≡ shown_counts board.world core }
    {
        self.bus.counts(core)
    }

    /// The line at an index, 0 to 127, of a core's data cache: its address and the bytes of RAM there. None exactly where
    /// the core holds no line with this index.
    pub fn line(&self, core: u32, index: u32) -> Option<(u32, [u8; 32])>
        requires core { core < length self.now.cores }
        requires index { index < 128 }
        ensures { (board : BoardModel) → IsBoard self.now.cores self.now.bus board → IsLineTold board.world core index result }
    {
        self.bus.line(core, index)
    }

    /// The big-endian word of RAM at an address, None exactly where the address is no multiple of four or not in RAM. It
    /// changes no more than the count of reads.
    pub fn word(&mut self, pa: u32) -> Option<u32>
        ensures value { (board : BoardModel) → IsBoard self.old.cores self.old.bus board → result ≡ word_shown board.world.ram pa }
        ensures after { self.new ≡ record self.old { bus = record self.old.bus { reads = self.new.bus.reads } } }
        ensures same { (board : BoardModel) → IsBoard self.old.cores self.old.bus board → IsBoard self.new.cores self.new.bus board }
    {
        self.bus.peek(pa)
    }

    /// The board once more, as it stands after the call: the count of reads has risen by one, or stands at its last value.
    /// Nothing else changes. After NoMemory the count has risen so, or is as before.
    pub fn copy(&mut self, alloc: Global) -> Result<Board, NoMemory>
        ensures copy { IfOk result (λ board. board ≡ self.new) }
        ensures counted { OnOk result (self.new ≡ record self.old { bus = with_read self.old.bus }) }
        ensures failed { OnErr result ((self.new ≡ record self.old { bus = with_read self.old.bus }) ⊎ (self.new ≡ self.old)) }
        ensures same { (board : BoardModel) → IsBoard self.old.cores self.old.bus board → IsBoard self.new.cores self.new.bus board }
    {
        let bus = self.bus.copy(alloc)?;
        Ok(Board {
            config: self.config,
            cores: copies(self.cores.as_slice()),
            bus,
        })
    }
}

// The same cores once more.
fn copies(cores: &[Core]) -> ArrayVec<Core, 8>
    requires { length cores.now ≤ 8 }
    ensures { result.items ≡ cores.now }
{
    let mut copies = ArrayVec::new();
    for core in cores {
        copies.push(core.copy());
    }
    copies
}
