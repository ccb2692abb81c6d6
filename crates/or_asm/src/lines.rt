// The lines of a source.
ghost use Rattle.std.specs.Prelude.{◌≡◌, ◌+◌, ◌<◌, ◌≤◌, ◌^◌, ◌⊎◌, [], ◌∷◌, length, pos, negsuc};
ghost use Rattle.or_asm_read.specs.Numbers.{number_of};
ghost use Rattle.or_asm_read.specs.Cuts.{trimmed, operands_part, is_clean, statement_of};
ghost use Rattle.or_asm_read.specs.Statements.{org_at};
ghost use Rattle.or_asm.specs.Lines.{lines_of, is_org, puts_word, set_place, place_after};

use or_asm_read::cuts::{after, before, is_clean, name, operands, statement, trim};
use or_asm_read::statements::{Statement, org_at};
use or_asm_text::names::insn_named;

// The first line, and the lines behind it.
#[tactic(auto, using(crate::proofs::Cut::cuts))]
pub(crate) fn cut_line(text: &[u8]) -> (&[u8], &[u8])
    requires { 0 < length text.now }
    ensures parts { lines_of text.now ≡ result.0.now ∷ lines_of result.1.now }
    ensures shorter { length result.1.now < length text.now }
{
    (before(b'\n', text), after(b'\n', text))
}

// Whether a statement is an .org.
fn is_org(statement: &[u8]) -> bool
    ensures { result ≡ is_org statement.now }
{
    name(statement) == b".org".as_slice()
}

// Whether a statement puts a word.
#[tactic(auto, unfolding(crate::specs::Lines::puts_word))]
pub(crate) fn puts_word(statement: &[u8]) -> bool
    ensures { result ≡ puts_word statement.now }
{
    !statement.is_empty()
        && !is_org(statement)
        && (name(statement) == b".word".as_slice() || insn_named(name(statement)).is_some())
}

// Where an .org leads.
fn set_place(place: u32, text: &[u8]) -> u32
    ensures is { result ≡ set_place place (org_at (number_of text.now)) }
    ensures near { (result ≡ place) ⊎ (result < 2 ^ 28) }
{
    match org_at(text) {
        Ok(Statement::Place(next)) => next,
        _ => place,
    }
}

// The place after a line.
#[tactic(auto, unfolding(crate::specs::Lines::place_after))]
pub(crate) fn place_after(place: u32, line: &[u8]) -> u32
    requires { place < 4294967291 }
    ensures is { result ≡ place_after place line.now }
    ensures near { (result ≤ place + 4) ⊎ (result < 2 ^ 28) }
{
    let statement = statement(line);
    if puts_word(statement) {
        place + 4
    } else if is_org(statement) && is_clean(line) {
        set_place(place, trim(operands(statement)))
    } else {
        place
    }
}
