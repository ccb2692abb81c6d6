//! Laws of the written board on which the turn at the bus rests.
ghost use Rattle.or_turn.specs.Laws.{OthersStay, EqualEntriesLeaveCore};

/// A turn of one core leaves all other cores as they are.
pub fn turns_leave_other_cores()
    ensures { OthersStay }
{}

/// Where one schedule begins another, and both have equally many entries of a core, they lead to the same core.
pub fn equal_entries_leave_the_core()
    ensures { EqualEntriesLeaveCore }
{}
