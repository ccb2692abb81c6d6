//! A schedule with its marks, as it is made.
ghost use Rattle.std.specs.Prelude.{◌≡◌, []};

use or_sched::Mark;
use std::alloc::Global;

/// A schedule with a mark for each block of 65536 turns.
#[derive(Drop)]
pub struct Made {
    /// The numbers of the cores, in the order of their turns.
    pub turns: Vec<u8>,
    pub marks: Vec<Mark>,
}

impl Made {
    /// No turn.
    pub fn new(alloc: Global) -> Made
        ensures { (result.turns.items ≡ []) × (result.marks.items ≡ []) }
    {
        Made {
            turns: Vec::new(alloc),
            marks: Vec::new(alloc),
        }
    }

    /// Drops all turns and keeps their memory.
    pub fn clear(&mut self)
        ensures { (self.new.turns.items ≡ []) × (self.new.marks.items ≡ []) }
    {
        self.turns.clear();
        self.marks.clear();
    }
}
