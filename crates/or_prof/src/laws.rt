//! Laws of the profile, as contracts of functions that do nothing.
ghost use Rattle.std.specs.Prelude.{◌≡◌, ◌+◌, ℕ, Bool, List, None, length, sum_by};
ghost use Rattle.or_elf.specs.Symbols.{symbols_of};
ghost use Rattle.or_prof.specs.declared.ranking.Line.{Line as LineModel};
ghost use Rattle.or_prof.specs.Profile.{Addition, count_of};
ghost use Rattle.or_prof.specs.Text.{lines_of, AreRanked, IsProfText};

use or_elf::Symbols;

/// The counts in the lines of a core, with that of the items that have no function, sum to its items: each is counted once.
pub fn counts_sum_to_items(bytes: &[u8])
    ensures { (items : List ℕ) (ranked : List LineModel) → AreRanked (lines_of (count_of (symbols_of bytes.now) items) (symbols_of bytes.now).functions) ranked
        → sum_by (λ line. line.count) ranked + count_of (symbols_of bytes.now) items None ≡ length items }
{
    let _ = bytes;
}

/// What was added has one text.
pub fn additions_have_one_text(symbols: &Symbols)
    ensures { (hot : Bool) (cores : ℕ) (additions : List Addition) (text other : List ℕ) → IsProfText hot cores symbols.now additions text
        → IsProfText hot cores symbols.now additions other → text ≡ other }
{
    let _ = symbols;
}
