//! Laws of the recordings' text, as contracts of functions that do nothing.
ghost use Rattle.std.specs.Prelude.{◌≡◌, ◌+◌, List, ℕ, take};
ghost use Rattle.or_sched.specs.Runs.{runs, expand, NeighboursDiffer};
ghost use Rattle.or_sched.specs.Recording.{FaultAt, Begins, IsRecording};
ghost use Rattle.or_sched.specs.declared.recording.Head.{Head};
ghost use Rattle.or_sched.specs.declared.recording.Mark.{Mark};

/// The runs of some turns stand for these turns, and neighbouring runs are of different cores.
pub fn runs_stand_for_turns(turns: &[u8])
    ensures turns { expand (runs turns.now) ≡ turns.now }
    ensures neighbours { NeighboursDiffer (runs turns.now) }
{
    let _ = turns;
}

/// A text that agrees with another one up to and including the place of its fault has the same fault.
pub fn fault_stands_at_its_place(text: &[u8], other: &[u8])
    ensures { (place : ℕ) → FaultAt text.now place → take (place + 1) other.now ≡ take (place + 1) text.now → FaultAt other.now place }
{
    let _ = text;
    let _ = other;
}

/// A text has one fault at most, and the beginning of a recording has none.
pub fn fault_is_unique(text: &[u8])
    ensures one { (place other : ℕ) → FaultAt text.now place → FaultAt text.now other → place ≡ other }
    ensures none { (place : ℕ) → Begins text.now → FaultAt text.now place → ⊥ }
{
    let _ = text;
}

/// A text is a recording of one head, of one list of turns and of one list of marks at most.
pub fn recording_is_unique(text: &[u8])
    ensures { (head other : Head) (turns others : List ℕ) (marks other_marks : List Mark) → IsRecording text.now head turns marks → IsRecording text.now other others other_marks
        → (head ≡ other) × (turns ≡ others) × (marks ≡ other_marks) }
{
    let _ = text;
}
