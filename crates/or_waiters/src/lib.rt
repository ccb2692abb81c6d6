//! Who waits for the bus, who is woken, and for whom it is kept. No clause depends on it.
//!
//! The bus may be taken by whoever finds it free, so that no time is lost while a sleeper wakes. Who waits is passed by a bounded
//! number of turns; then the bus is kept for the core that has waited longest.
//!
//! No wake is lost. A waiter says `SLEEPS` before its last try, and a holder reads what the others say after it has given the
//! bus back. So either the last try comes after that and finds the bus free, or the holder reads `SLEEPS`. It then wakes one
//! sleeper, unless some waiter says `LOOKS`: that one tries once more after it says `SLEEPS`. A try that comes after the bus was
//! given back fails only where another core has taken the bus, which gives it back in its turn, or where it is kept for a core
//! that waits; this one is woken, if it sleeps. No other core takes the bus meanwhile: a try reads the ticket before it reads for
//! whom the bus is kept, so a try that read the latter too early draws a ticket that is no longer the next.
#![tactic(auto)]

#[cfg(test)]
mod tests;

use std::sync::Wait;
use std::sync::atomic::{AtomicU64, Ordering};

/// What a core says that does not wait for the bus.
const BUSY: u64 = 0;

/// It waits, and tries again by itself: it has not slept, or was woken.
const LOOKS: u64 = 1;

/// It sleeps, or tries for the last time before it does.
const SLEEPS: u64 = 2;

const ANYBODY: u64 = 0;

/// It has begun to wait since the last stay ended, and no holder has noted the number of turns.
const NOT_NOTED: u64 = u64::MAX;

/// What is known of a stay at its end.
#[derive(Drop)]
pub struct StayEnd {
    /// How many turns had been made by all cores when it began, and when it ended.
    pub began: u64,
    pub turns: u64,
    /// How many turns it could have at most.
    pub most: u32,
    /// Whether its core waits for another.
    pub spins: bool,
}

/// What the cores of a board say, by number.
#[derive(Drop)]
pub struct Waiters {
    says: [AtomicU64; 8],
    /// How many turns had been made when it began to wait, which the next holder notes.
    since: [AtomicU64; 8],
    /// For whom the bus is kept: the number of a core plus 1.
    kept_for: AtomicU64,
    cores: u32,
    /// How often who waits tries before it sleeps.
    pub looks: u32,
}

// One such word for each core.
fn words(first: u64) -> [AtomicU64; 8] {
    [
        AtomicU64::new(first),
        AtomicU64::new(first),
        AtomicU64::new(first),
        AtomicU64::new(first),
        AtomicU64::new(first),
        AtomicU64::new(first),
        AtomicU64::new(first),
        AtomicU64::new(first),
    ]
}

impl Waiters {
    /// Nobody waits yet, on a board of so many cores, 1 to 8.
    pub fn new(cores: u32) -> Waiters {
        Waiters {
            says: words(BUSY),
            since: words(0),
            kept_for: AtomicU64::new(ANYBODY),
            cores,
            looks: 0,
        }
    }

    fn says(&self, core: u32) -> &AtomicU64 {
        &self.says[(core % 8) as usize]
    }

    fn since(&self, core: u32) -> &AtomicU64 {
        &self.since[(core % 8) as usize]
    }

    /// Whether the core may take the bus where it is free.
    pub fn may_take(&self, core: u32) -> bool {
        let kept_for = self.kept_for.load(Ordering::SeqCst);
        kept_for == ANYBODY || kept_for == core as u64 + 1
    }

    /// The core begins to wait.
    pub fn begin(&self, core: u32) {
        self.since(core).store(NOT_NOTED, Ordering::SeqCst);
        self.says(core).store(LOOKS, Ordering::SeqCst);
    }

    /// The core is about to sleep. It has to try once more before it does.
    pub fn announce(&self, core: u32) {
        self.says(core).store(SLEEPS, Ordering::SeqCst);
    }

    /// Sleeps until a wake, which may also come for no reason.
    pub fn sleep<R: Wait>(&self, rt: &R, core: u32) {
        self.says(core).park(rt, SLEEPS as u32);
        self.says(core).store(LOOKS, Ordering::SeqCst);
    }

    /// The core waits no longer: it has the bus.
    pub fn end(&self, core: u32) {
        self.says(core).store(BUSY, Ordering::SeqCst);
    }

    // Notes how many turns had been made when those began to wait of whom it is not known. The holder does so, since a count
    // that each stay changes would cost each holder a cache miss.
    fn note(&self, began: u64) {
        for core in 0..self.cores {
            if self.says(core).load(Ordering::SeqCst) != BUSY
                && self.since(core).load(Ordering::SeqCst) == NOT_NOTED
            {
                self.since(core).store(began, Ordering::SeqCst);
            }
        }
    }

    // Stores for whom the bus is kept, where that changes: a store costs those who wait a cache miss.
    fn keep_for(&self, kept_for: u64) {
        if self.kept_for.load(Ordering::SeqCst) != kept_for {
            self.kept_for.store(kept_for, Ordering::SeqCst);
        }
    }

    // The core that has waited longest, and how many turns had been made when it began.
    fn longest(&self) -> Option<(u32, u64)> {
        let mut longest = None;
        for core in 0..self.cores {
            if self.says(core).load(Ordering::SeqCst) != BUSY {
                let since = self.since(core).load(Ordering::SeqCst);
                let first = match longest {
                    Some((_, least)) => since < least,
                    None => true,
                };
                if first {
                    longest = Some((core, since));
                }
            }
        }
        longest
    }

    // Whether some waiter tries again by itself.
    fn some_looks(&self) -> bool {
        for core in 0..self.cores {
            if self.says(core).load(Ordering::SeqCst) == LOOKS {
                return true;
            }
        }
        false
    }

    // Wakes the core, if it sleeps.
    fn wake(&self, core: u32) {
        let says = self.says(core);
        if says
            .compare_exchange(SLEEPS, LOOKS, Ordering::SeqCst, Ordering::SeqCst)
            .is_ok()
        {
            says.wake_one();
        }
    }

    /// The holder is about to give the bus back. A waiter is passed by fewer turns than two stays of each other core have, and
    /// woken at half of them. Answers who is to be woken, if the bus is kept for it, or soon will be.
    pub fn choose(&self, end: &StayEnd) -> Option<u32> {
        self.note(end.began);
        let Some((core, since)) = self.longest() else {
            self.keep_for(ANYBODY);
            return None;
        };
        let others = self.cores.saturating_sub(1) as u64;
        let most = (end.most as u64 * 2).saturating_sub(1).wrapping_mul(others);
        let passed = end.turns.saturating_sub(since);
        let kept = end.spins || passed >= most;
        let kept_for = if kept { core as u64 + 1 } else { ANYBODY };
        self.keep_for(kept_for);
        if kept || passed >= most / 2 {
            Some(core)
        } else {
            None
        }
    }

    /// The bus has been given back: wakes the chosen core, or one that sleeps where nobody tries by itself.
    pub fn hand_over(&self, chosen: Option<u32>) {
        if let Some(core) = chosen {
            self.wake(core);
        } else if !self.some_looks() {
            if let Some((core, _)) = self.longest() {
                self.wake(core);
            }
        }
    }
}
