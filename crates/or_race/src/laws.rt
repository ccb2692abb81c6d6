//! Laws of the definitions, which stand on functions with nothing in them.
ghost use Rattle.std.specs.Prelude.{◌≡◌, ℕ, List, Option, Bool, IsTrue};
ghost use Rattle.or_elf.specs.Symbols.{SymbolTable};
ghost use Rattle.or_race.specs.Event.{Event, Direct, Before};
ghost use Rattle.or_race.specs.Text.{RaceText};

/// A list of events has one report, with the same symbols or without.
pub fn one_report()
    ensures { (locks : Bool) (symbols : Option SymbolTable) (events : List Event) (a b : List ℕ) → RaceText locks symbols events a
        → RaceText locks symbols events b → a ≡ b }
{}

/// Before is the least: each transitive relation that has what is ordered at once has all of it.
pub fn least_order()
    ensures { (locks : Bool) (events : List Event) (r : ℕ → ℕ → Bool) → ((i j : ℕ) → Direct locks events i j → IsTrue (r i j))
        → ((i j k : ℕ) → IsTrue (r i j) → IsTrue (r j k) → IsTrue (r i k)) → (i j : ℕ) → Before locks events i j → IsTrue (r i j) }
{}
