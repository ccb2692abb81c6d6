//! What is kept of a word, and what an access does to it and to its core's vector clock.
ghost use Rattle.std.specs.Prelude.{◌≡◌, ◌≢◌, ℕ, ◌<◌, ◌≤◌, max, not, slice_index, slice_set, IfNone, IfSome, if◌then◌else◌};
ghost use Rattle.or_race.specs.Event.{event, is_release};
ghost use Rattle.or_race.specs.Race.{is_plain};
ghost use Rattle.or_race.specs.Kept.{blank, later_access, conflicting_of, NextClock, NextWord, NoRace, IsLatestRace, ReleasedAfter, LastsAfter};

use crate::line::Line;
use or_bus::{Access, AccessKind};

/// For each core the last of its turns that comes before something, and 0 where there is none.
pub type VectorClock = [u64; 8];

/// The last access of a kind: its turn, 0 where there is none, and its pc.
#[derive(Clone, Copy)]
pub struct Last {
    pub(crate) turn: u64,
    pub(crate) pc: u32,
}

/// For each core its last access of a kind.
pub type Lasts = [Last; 8];

// No access.
const NO_ACCESS: Last = Last { turn: 0, pc: 0 };

/// What is kept of a word: the clock that was released on it, each core's last access of each kind, whether an l.lwa or an
/// l.swa accessed it, and the first race that was found on it.
#[derive(Clone, Copy)]
pub struct Word {
    pub(crate) released: VectorClock,
    pub(crate) loads: Lasts,
    pub(crate) stores: Lasts,
    pub(crate) linked: Lasts,
    pub(crate) conditionals: Lasts,
    pub(crate) synchronizes: bool,
    pub(crate) found: Option<Line>,
}

// A word with no access.
pub(crate) fn blank_word() -> Word
    ensures { result ≡ blank }
{
    Word {
        released: [0; 8],
        loads: [NO_ACCESS; 8],
        stores: [NO_ACCESS; 8],
        linked: [NO_ACCESS; 8],
        conditionals: [NO_ACCESS; 8],
        synchronizes: false,
        found: None,
    }
}

// The later of two turns.
fn later(a: u64, b: u64) -> u64
    ensures { result ≡ max a b }
{
    if a < b { b } else { a }
}

// The join of two clocks: the later turn, core by core.
fn joined(a: &VectorClock, b: &VectorClock) -> VectorClock
    ensures { (core : ℕ) → slice_index result core ≡ max (slice_index a.now core) (slice_index b.now core) }
{
    let mut both = *a;
    for core in 0..8 {
        both[core] = later(a[core], b[core]);
    }
    both
}

// The clock of the access's core after it. A linked load acquires what was released on the word.
pub(crate) fn next_clock(
    before: &VectorClock,
    released: &VectorClock,
    turn: u64,
    a: &Access,
) -> VectorClock
    requires { a.now.core < 8 }
    ensures { (pc : ℕ) → NextClock (event turn pc a.now) before.now released.now result }
{
    let mut clock = if a.kind == AccessKind::Linked {
        joined(before, released)
    } else {
        *before
    };
    clock[a.core as usize] = turn;
    clock
}

// The later of two accesses.
fn later_access(a: Last, b: Last) -> Last
    ensures { result ≡ later_access a b }
{
    if a.turn < b.turn { b } else { a }
}

// The core's last access that conflicts with one of this kind.
fn last_conflicting(kind: AccessKind, word: &Word, core: u32) -> Last
    requires { core < 8 }
    ensures { result ≡ conflicting_of kind word.now core }
{
    let at = core as usize;
    match kind {
        AccessKind::Load => later_access(word.stores[at], word.conditionals[at]),
        AccessKind::Store => later_access(
            later_access(word.loads[at], word.stores[at]),
            later_access(word.linked[at], word.conditionals[at]),
        ),
        AccessKind::Linked => word.stores[at],
        AccessKind::Conditional => later_access(word.loads[at], word.stores[at]),
    }
}

// The race of the access with the latest one that it races with.
fn latest_race(
    cores: u32,
    clock: &VectorClock,
    word: &Word,
    turn: u64,
    pc: u32,
    a: &Access,
) -> Option<Line>
    requires { cores ≤ 8 }
    ensures none { IfNone result (NoRace cores clock.now word.now (event turn pc a.now)) }
    ensures some { IfSome result (λ line. IsLatestRace cores clock.now word.now (event turn pc a.now) line) }
{
    let mut first = NO_ACCESS;
    let mut first_core = 0;
    for core in 0..cores {
        let conflicting = last_conflicting(a.kind, word, core);
        if core != a.core
            && clock[core as usize] < conflicting.turn
            && first.turn < conflicting.turn
        {
            first = conflicting;
            first_core = core;
        }
    }
    if first.turn == 0 {
        return None;
    }
    Some(Line {
        word: a.word,
        first_turn: first.turn,
        first_core,
        first_pc: first.pc,
        second_turn: turn,
        second_core: a.core,
        second_pc: pc,
    })
}

// Whether an access of this kind releases its word: a conditional store, and with locks a plain store too.
fn releases(locks: bool, kind: AccessKind) -> bool
    ensures { result ≡ is_release locks kind }
{
    match kind {
        AccessKind::Conditional => true,
        AccessKind::Store => locks,
        AccessKind::Load | AccessKind::Linked => false,
    }
}

// What is released on the word after the access, where clock is then its core's clock.
fn released_after(
    locks: bool,
    released: &VectorClock,
    clock: &VectorClock,
    a: &Access,
) -> VectorClock
    ensures { ReleasedAfter locks a.now.kind released.now clock.now result }
{
    if releases(locks, a.kind) {
        joined(released, clock)
    } else {
        *released
    }
}

// Each core's last access of a kind, after the access.
fn lasts_after(kind: AccessKind, lasts: &Lasts, turn: u64, pc: u32, a: &Access) -> Lasts
    requires { a.now.core < 8 }
    ensures { LastsAfter (event turn pc a.now) kind lasts.now result }
{
    let mut after = *lasts;
    if a.kind == kind {
        after[a.core as usize] = Last { turn, pc };
    }
    after
}

// Whether an access of this kind makes its word a synchronization word.
fn synchronizes(kind: AccessKind) -> bool
    ensures { result ≡ not (is_plain kind) }
{
    matches!(kind, AccessKind::Linked | AccessKind::Conditional)
}

// What is kept of the word after the access, where clock is then its core's clock.
pub(crate) fn next_word(
    locks: bool,
    cores: u32,
    clock: &VectorClock,
    word: &Word,
    turn: u64,
    pc: u32,
    a: &Access,
) -> Word
    requires cores { cores ≤ 8 }
    requires core { a.now.core < 8 }
    ensures { NextWord locks cores (event turn pc a.now) clock.now word.now result }
{
    let found = match word.found {
        Some(line) => Some(line),
        None => latest_race(cores, clock, word, turn, pc, a),
    };
    Word {
        released: released_after(locks, &word.released, clock, a),
        loads: lasts_after(AccessKind::Load, &word.loads, turn, pc, a),
        stores: lasts_after(AccessKind::Store, &word.stores, turn, pc, a),
        linked: lasts_after(AccessKind::Linked, &word.linked, turn, pc, a),
        conditionals: lasts_after(AccessKind::Conditional, &word.conditionals, turn, pc, a),
        synchronizes: word.synchronizes || synchronizes(a.kind),
        found,
    }
}
