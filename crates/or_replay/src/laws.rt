//! A law of schedules, as the contract of a function that does nothing.
ghost use Rattle.std.specs.Prelude.{◌≡◌, ◌<◌, ℕ, Result};
ghost use Rattle.or_model.specs.Turn.{Board as BoardModel};
ghost use Rattle.or_replay.specs.declared.follow.TurnFault.{TurnFault as TurnFaultModel};
ghost use Rattle.or_replay.specs.Following.{Followed};

use or_sched::Mark;

/// A schedule with its marks is followed from a board in one way: one thing refuses it first, or nothing does, and one board is left.
pub fn schedules_are_followed_in_one_way(turns: &[u8], marks: &[Mark])
    ensures { (block : ℕ) (start : BoardModel) (one other : Result (Unit {0}) TurnFaultModel) (last again : BoardModel) → 0 < block
        → Followed block start turns.now marks.now one last → Followed block start turns.now marks.now other again → (one ≡ other) × (last ≡ again) }
{
    let _ = turns;
    let _ = marks;
}
