//! Reservations of words, one for each core, as load-linked and store-conditional instructions make and use them.
#![tactic(auto)]

ghost use Rattle.std.specs.Prelude.{◌≡◌, ℕ, ◌<◌, ◌++◌, ◌∷◌, [], List, Option, map, Some, None, length, replicate, slice_set, slice_index_or, IsTrue};
ghost use Rattle.or_parts.specs.Reservation.{ReservationMark, stands_by};
ghost use Rattle.or_reservations.specs.Slots.{is_reserved, after_write};
ghost use Rattle.or_reservations.specs.Tracks.{Tracks, mark_of};

use std::marker::Model;

/// The address of the word that each of 8 cores has reserved, if it has one.
#[derive(Drop)]
pub struct Reservations {
    slots: [Option<u32>; 8],
    // Where none stands a write looks at no slot.
    some_stand: bool,
}

impl Model for Reservations {
    ghost use Rattle.std.specs.Prelude.{◌≡◌, ℕ, List, Option, None, false, length, slice_index_or};

    ghost Value = { List (Option ℕ) };

    ghost view = { λ a. a.slots };

    ghost invariant = { λ a. (length a.slots ≡ 8) × (a.some_stand ≡ false → (core : ℕ) → slice_index_or a.slots core None ≡ None) };
}

impl Reservations {
    /// No core has a reservation.
    pub fn empty() -> Reservations
        ensures value { result ≡ replicate 8 None }
        ensures tracks { (writes : List (ℕ × ℕ)) (cores : ℕ) → Tracks result writes (replicate cores None) }
    {
        Reservations {
            slots: [None; 8],
            some_stand: false,
        }
    }

    /// The same reservations once more.
    pub fn copy(&self) -> Reservations
        ensures { result ≡ self.now }
    {
        Reservations {
            slots: self.slots,
            some_stand: self.some_stand,
        }
    }

    /// The core reserves a word, in the place of whichever it had reserved.
    #[inline]
    pub fn reserve(&mut self, core: u32, word: u32)
        requires { core < 8 }
        ensures value { self.new ≡ slice_set self.old core (Some word) }
        ensures tracks { (writes : List (ℕ × ℕ)) (marks : List (Option ReservationMark)) → core < length marks → Tracks self.old writes marks → Tracks self.new writes (slice_set marks core (Some (word, length writes))) }
    {
        self.slots[core as usize] = Some(word);
        self.some_stand = true;
    }

    /// The core's reservation ends.
    #[inline]
    pub fn cancel(&mut self, core: u32)
        requires { core < 8 }
        ensures value { self.new ≡ slice_set self.old core None }
        ensures tracks { (writes : List (ℕ × ℕ)) (marks : List (Option ReservationMark)) → core < length marks → Tracks self.old writes marks → Tracks self.new writes (slice_set marks core None) }
    {
        self.slots[core as usize] = None;
    }

    /// A word was written: every core's reservation of it ends, and no other.
    #[inline]
    pub fn wrote(&mut self, word: u32)
        ensures value { self.new ≡ map (after_write word) self.old }
        ensures tracks { (writes : List (ℕ × ℕ)) (marks : List (Option ReservationMark)) (core : ℕ) → Tracks self.old writes marks → Tracks self.new (writes ++ (core, word) ∷ []) marks }
    {
        if self.some_stand {
            clear_word(&mut self.slots, word);
            self.some_stand = !none_stands(&self.slots);
        }
    }

    /// Whether the core's reservation of a word stands.
    #[inline]
    pub fn stands(&self, core: u32, word: u32) -> bool
        requires { core < 8 }
        ensures value { result ≡ is_reserved self.now core word }
        ensures tracks { (writes : List (ℕ × ℕ)) (marks : List (Option ReservationMark)) → Tracks self.now writes marks → result ≡ stands_by writes word (mark_of marks core) }
    {
        match self.slots[core as usize] {
            Some(reserved) => reserved == word,
            None => false,
        }
    }
}

// A slot after the word was written.
#[inline]
fn after_write(word: u32, slot: Option<u32>) -> Option<u32>
    ensures { result ≡ after_write word slot }
{
    match slot {
        Some(reserved) => { if reserved == word { None } else { slot } }
        None => None,
    }
}

// Ends each reservation of a word.
#[tactic(auto, using(std::proofs::lemmas::List::Edits::map_over_more))]
fn clear_word(slots: &mut [Option<u32>], word: u32)
    ensures { slots.new ≡ map (after_write word) slots.old }
{
    for place in 0..slots.len() {
        let slot = slots[place];
        slots[place] = after_write(word, slot);
    }
}

// Whether no slot has a reservation.
fn none_stands(slots: &[Option<u32>]) -> bool
    ensures { IsTrue result → (core : ℕ) → core < length slots.now → slice_index_or slots.now core None ≡ None }
{
    slots.iter().all(|slot| slot.is_none())
}
