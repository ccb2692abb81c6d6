//! The backward debugger on a history.
ghost use Rattle.std.specs.Prelude.{◌≡◌, ◌<◌, ◌≤◌, ◌+◌, ◌++◌, ◌⊎◌, ℕ, List, [], Some, codes, min, length, OnOk, IfOk, IfSome};
ghost use Rattle.std.specs.Option.{option_or};
ghost use Rattle.or_model.specs.Turn.{Board as BoardModel};
ghost use Rattle.or_script.specs.declared.command.Command.TheVariants.{Go};
ghost use Rattle.or_debug.specs.Turns.{turn_made, turns_made, last_of};
ghost use Rattle.or_debug.specs.Points.{Points};
ghost use Rattle.or_debug.specs.Hits.{hit_lines};
ghost use Rattle.or_debug.specs.BoardText.{made_line, made_text};
ghost use Rattle.or_debug.specs.Standing.{points_of};
ghost use Rattle.or_back.specs.declared.lines.BackCommand.TheVariants.{Plain, GoBack};
ghost use Rattle.or_back.specs.Session.{last_hit, hit_before};
ghost use Rattle.or_back.specs.Tells.{Tells};
ghost use Rattle.or_back.specs.Backward.{StandsBack, StandsWith, Searches, IsNext, IsThere, IsGone, IsBackAnswered, state_at};

use crate::history::History;
use or_debug::{Stops, append_made, append_turn};
use std::alloc::AllocError;

// The history goes to a turn, or to the last where there are fewer.
fn go_to(history: &mut History, turn: u64) -> Result<(), AllocError>
    ensures tells { (start : BoardModel) (turns : List ℕ) → Tells history.old start turns → Tells history.new start turns }
    ensures at { OnOk result (history.new.at ≡ min turn (length history.old.turns.items)) }
    ensures turns { history.new.turns ≡ history.old.turns }
{
    match history.to(turn) {
        Ok(_) => Ok(()),
        Err(_) => Err(AllocError),
    }
}

// Makes the next turn, with the lines of what it hits.
fn follow(history: &mut History, stops: &mut Stops, text: &mut Vec<u8>) -> Result<(), AllocError>
    requires { history.old.at < length history.old.turns.items }
    ensures tells { (start : BoardModel) (turns : List ℕ) → Tells history.old start turns → Tells history.new start turns }
    ensures followed { OnOk result ((start : BoardModel) (turns : List ℕ) → StandsBack history.old stops.old start turns
        → IsNext start turns history.old stops.old text.old.items history.new stops.new text.new.items) }
    ensures at { history.new.at ≡ history.old.at + 1 }
    ensures turns { history.new.turns ≡ history.old.turns }
{
    let made = history.make_next();
    stops.append_hits(made, &mut history.board, text)
}

// Follows turns until one hits something or none is left.
pub(crate) fn go(
    history: &mut History,
    stops: &mut Stops,
    text: &mut Vec<u8>,
) -> Result<(), AllocError>
    requires { text.old.items ≡ [] }
    ensures tells { (start : BoardModel) (turns : List ℕ) → Tells history.old start turns → Tells history.new start turns }
    ensures answered { OnOk result ((start : BoardModel) (turns : List ℕ) → StandsBack history.old stops.old start turns
        → IsBackAnswered start turns history.old stops.old (Plain Go) text.new.items history.new stops.new) }
{
    while history.at < history.turns.len() {
        follow(history, stops, text)?;
        if !text.is_empty() {
            return Ok(());
        }
    }
    append_turn(b"end turn ", history.at, text)
}

// Goes to a turn, or to the last where there are fewer, where the points see RAM.
fn arrive(history: &mut History, stops: &mut Stops, turn: u64) -> Result<(), AllocError>
    ensures tells { (start : BoardModel) (turns : List ℕ) → Tells history.old start turns → Tells history.new start turns }
    ensures there { OnOk result ((start : BoardModel) (turns : List ℕ) → StandsBack history.old stops.old start turns
        → IsThere start turns turn stops.old history.new stops.new) }
    ensures at { OnOk result (history.new.at ≡ min turn (length history.old.turns.items)) }
    ensures turns { history.new.turns ≡ history.old.turns }
{
    go_to(history, turn)?;
    stops.look_again(&mut history.board);
    Ok(())
}

// Goes to a turn, or to the last where there are fewer, without stops.
pub(crate) fn travel(
    history: &mut History,
    stops: &mut Stops,
    turn: u64,
    text: &mut Vec<u8>,
) -> Result<(), AllocError>
    requires { text.old.items ≡ [] }
    ensures tells { (start : BoardModel) (turns : List ℕ) → Tells history.old start turns → Tells history.new start turns }
    ensures gone { OnOk result ((start : BoardModel) (turns : List ℕ) → StandsBack history.old stops.old start turns
        → IsGone start turns turn stops.old history.new stops.new text.new.items) }
{
    arrive(history, stops, turn)?;
    append_turn(b"at turn ", history.at, text)
}

// Makes the next turn: its place where it hits something, else the one that was found before.
fn find_next(
    history: &mut History,
    stops: &mut Stops,
    lines: &mut Vec<u8>,
    found: Option<usize>,
) -> Result<Option<usize>, AllocError>
    requires inside { history.old.at < length history.old.turns.items }
    requires nothing { lines.old.items ≡ [] }
    ensures tells { (start : BoardModel) (turns : List ℕ) → Tells history.old start turns → Tells history.new start turns }
    ensures searches { IfOk result (λ now. (start : BoardModel) (turns : List ℕ) (points : Points) (from : ℕ)
        → Searches start turns points from found history.old stops.old → Searches start turns points from now history.new stops.new) }
    ensures place { IfOk result (λ now. IfSome now (λ place. (found ≡ Some place) ⊎ (place ≡ history.old.at))) }
    ensures nothing { OnOk result (lines.new.items ≡ []) }
    ensures at { history.new.at ≡ history.old.at + 1 }
    ensures turns { history.new.turns ≡ history.old.turns }
{
    let place = history.at;
    follow(history, stops, lines)?;
    if lines.is_empty() {
        return Ok(found);
    }
    lines.clear();
    Ok(Some(place))
}

// The last of the turns from one place to another that hits something.
fn last_hit_in(
    history: &mut History,
    stops: &mut Stops,
    from: usize,
    to: usize,
) -> Result<Option<usize>, AllocError>
    requires order { from ≤ to }
    requires within { to ≤ length history.old.turns.items }
    ensures tells { (start : BoardModel) (turns : List ℕ) → Tells history.old start turns → Tells history.new start turns }
    ensures stands { OnOk result ((start : BoardModel) (turns : List ℕ) → StandsBack history.old stops.old start turns
        → StandsWith start turns (points_of stops.old) history.new stops.new) }
    ensures found { IfOk result (λ found. (start : BoardModel) (turns : List ℕ) → StandsBack history.old stops.old start turns
        → last_hit (hit_lines start turns (points_of stops.old)) to ≡ option_or found (last_hit (hit_lines start turns (points_of stops.old)) from)) }
    ensures place { IfOk result (λ found. IfSome found (λ place. place < to)) }
    ensures turns { history.new.turns ≡ history.old.turns }
{
    arrive(history, stops, from as u64)?;
    let mut lines = Vec::new(history.alloc);
    let mut found = None;
    while history.at < to {
        found = find_next(history, stops, &mut lines, found)?;
    }
    Ok(found)
}

// The last turn that hits something, of those before the one that was made last. It is looked for behind one copy of the
// board after another, the latest first.
fn hit_before(history: &mut History, stops: &mut Stops) -> Result<Option<usize>, AllocError>
    ensures tells { (start : BoardModel) (turns : List ℕ) → Tells history.old start turns → Tells history.new start turns }
    ensures stands { OnOk result ((start : BoardModel) (turns : List ℕ) → StandsBack history.old stops.old start turns
        → StandsWith start turns (points_of stops.old) history.new stops.new) }
    ensures found { IfOk result (λ found. (start : BoardModel) (turns : List ℕ) → StandsBack history.old stops.old start turns
        → found ≡ hit_before start turns (state_at history.old.at stops.old)) }
    ensures place { IfOk result (λ found. IfSome found (λ place. place < length history.old.turns.items)) }
    ensures turns { history.new.turns ≡ history.old.turns }
{
    let mut to = history.at.saturating_sub(1);
    while to > 0 {
        let from = history.copy_before(to);
        match last_hit_in(history, stops, from, to)? {
            Some(hit) => return Ok(Some(hit)),
            None => to = from,
        }
    }
    Ok(None)
}

// Appends the line of the place before the first turn.
fn append_start(text: &mut Vec<u8>) -> Result<(), AllocError>
    ensures { OnOk result (text.new.items ≡ text.old.items ++ codes "start turn 0\n") }
{
    text.extend_from_slice(b"start turn 0\n")
}

// Goes back behind the last turn before the one made last that hits something, or before the first turn where none does.
pub(crate) fn go_back(
    history: &mut History,
    stops: &mut Stops,
    text: &mut Vec<u8>,
) -> Result<(), AllocError>
    requires { text.old.items ≡ [] }
    ensures tells { (start : BoardModel) (turns : List ℕ) → Tells history.old start turns → Tells history.new start turns }
    ensures answered { OnOk result ((start : BoardModel) (turns : List ℕ) → StandsBack history.old stops.old start turns
        → IsBackAnswered start turns history.old stops.old GoBack text.new.items history.new stops.new) }
{
    match hit_before(history, stops)? {
        Some(place) => {
            arrive(history, stops, place as u64)?;
            follow(history, stops, text)
        }
        None => {
            arrive(history, stops, 0)?;
            append_start(text)
        }
    }
}

// Makes the next turn, and appends its line.
fn append_next(history: &mut History, text: &mut Vec<u8>) -> Result<(), AllocError>
    requires { history.old.at < length history.old.turns.items }
    ensures tells { (start : BoardModel) (turns : List ℕ) → Tells history.old start turns → Tells history.new start turns }
    ensures text { OnOk result ((start : BoardModel) (turns : List ℕ) → Tells history.old start turns
        → text.new.items ≡ text.old.items ++ made_line (turn_made start turns history.old.at)) }
    ensures at { history.new.at ≡ history.old.at + 1 }
    ensures turns { history.new.turns ≡ history.old.turns }
{
    append_made(history.make_next(), text)
}

// Appends the last so many of the turns so far, or all: it goes back over them and makes them once more.
pub(crate) fn append_last(
    history: &mut History,
    count: u32,
    text: &mut Vec<u8>,
) -> Result<(), AllocError>
    ensures tells { (start : BoardModel) (turns : List ℕ) → Tells history.old start turns → Tells history.new start turns }
    ensures text { OnOk result ((start : BoardModel) (turns : List ℕ) → Tells history.old start turns
        → text.new.items ≡ text.old.items ++ made_text (last_of count (turns_made start turns history.old.at))) }
    ensures at { OnOk result (history.new.at ≡ history.old.at) }
{
    let at = history.at;
    let from = at.saturating_sub(count as usize);
    go_to(history, from as u64)?;
    while history.at < at {
        append_next(history, text)?;
    }
    Ok(())
}
