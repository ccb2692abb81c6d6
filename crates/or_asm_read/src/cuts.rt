// The parts of a line.
ghost use Rattle.std.specs.Prelude.{◌≡◌, ◌+◌, ◌≤◌, ◌==◌, length, drop, MatchOption, Some, None, position};
ghost use Rattle.std.specs.List.{position_or_len, list_all};
ghost use Rattle.or_asm_read.specs.Cuts.{is_blank, is_allowed, is_label_start, is_decimal_digit, is_label_byte, is_label, trimmed_start, trimmed_end, trimmed, before, after, has, body_of, is_clean, has_label, label_of, statement_of, name_part, operands_part};

use or_words::limits::LABEL_LIMIT;

fn is_blank(byte: u8) -> bool
    ensures { result ≡ is_blank byte }
{
    byte == b' ' || byte == b'\t'
}

/// Whether a line may have this byte outside its comment: printable ASCII, blanks and tabs.
pub fn is_allowed(byte: u8) -> bool
    ensures { result ≡ is_allowed byte }
{
    byte == b'\t' || (b' ' <= byte && byte < 127)
}

fn is_label_start(byte: u8) -> bool
    ensures { result ≡ is_label_start byte }
{
    (b'A' <= byte && byte <= b'Z') || (b'a' <= byte && byte <= b'z') || byte == b'_'
}

fn is_label_byte(byte: u8) -> bool
    ensures { result ≡ is_label_byte byte }
{
    is_label_start(byte) || (b'0' <= byte && byte <= b'9')
}

fn are_label_bytes(text: &[u8]) -> bool
    ensures { result ≡ list_all is_label_byte text.now }
{
    text.iter().all(|byte| is_label_byte(*byte))
}

/// Whether a text has the form of a label.
#[tactic(auto, unfolding(crate::specs::Cuts::is_label))]
pub fn is_label(text: &[u8]) -> bool
    ensures { result ≡ is_label text.now }
{
    match text.split_first() {
        None => false,
        Some((first, rest)) => {
            is_label_start(*first) && are_label_bytes(rest) && rest.len() < LABEL_LIMIT
        }
    }
}

fn trim_start(text: &[u8]) -> &[u8]
    ensures { result.now ≡ trimmed_start text.now }
{
    let mut rest = text;
    while let [first, others @ ..] = rest {
        if !is_blank(*first) {
            break;
        }
        rest = others;
    }
    rest
}

#[tactic(auto, using(crate::proofs::Places::ends))]
fn trim_end(text: &[u8]) -> &[u8]
    ensures { result.now ≡ trimmed_end text.now }
{
    let mut rest = text;
    while let Some((last, others)) = rest.split_last() {
        if !is_blank(*last) {
            break;
        }
        rest = others;
    }
    rest
}

/// Without the blanks in front and behind.
pub fn trim(text: &[u8]) -> &[u8]
    ensures { result.now ≡ trimmed text.now }
{
    trim_end(trim_start(text))
}

fn find(byte: u8, text: &[u8]) -> Option<usize>
    ensures { result ≡ position (λ b. b == byte) text.now }
{
    text.iter().position(|b| *b == byte)
}

fn find_blank(text: &[u8]) -> Option<usize>
    ensures { result ≡ position is_blank text.now }
{
    text.iter().position(|b| is_blank(*b))
}

#[tactic(auto, using(crate::proofs::Places::places))]
fn place(byte: u8, text: &[u8]) -> usize
    ensures is { result ≡ position_or_len (λ b. b == byte) text.now }
    ensures within { result ≤ length text.now }
{
    match find(byte, text) {
        Some(place) => place,
        None => text.len(),
    }
}

#[tactic(auto, using(crate::proofs::Places::places))]
fn place_of_blank(text: &[u8]) -> usize
    ensures is { result ≡ position_or_len is_blank text.now }
    ensures within { result ≤ length text.now }
{
    match find_blank(text) {
        Some(place) => place,
        None => text.len(),
    }
}

// What stands behind a place, or nothing.
#[tactic(auto, using(crate::proofs::Places::places))]
fn behind(place: usize, text: &[u8]) -> &[u8]
    requires { place ≤ length text.now }
    ensures { result.now ≡ drop (place + 1) text.now }
{
    if place < text.len() {
        text.split_at(place + 1).1
    } else {
        text.split_at(place).1
    }
}

/// What stands before the first such byte, or all.
pub fn before(byte: u8, text: &[u8]) -> &[u8]
    ensures { result.now ≡ before byte text.now }
{
    text.split_at(place(byte, text)).0
}

/// What stands after the first such byte, or nothing.
pub fn after(byte: u8, text: &[u8]) -> &[u8]
    ensures { result.now ≡ after byte text.now }
{
    behind(place(byte, text), text)
}

/// Whether there is such a byte.
pub fn has(byte: u8, text: &[u8]) -> bool
    ensures { result ≡ has byte text.now }
{
    text.iter().any(|b| *b == byte)
}

#[tactic(auto, unfolding(crate::specs::Cuts::body_of))]
fn body(line: &[u8]) -> &[u8]
    ensures { result.now ≡ body_of line.now }
{
    trim_start(before(b'#', line))
}

/// Whether a line has only bytes that it may have.
#[tactic(auto, unfolding(crate::specs::Cuts::is_clean))]
pub fn is_clean(line: &[u8]) -> bool
    ensures { result ≡ is_clean line.now }
{
    before(b'#', line).iter().all(|byte| is_allowed(*byte))
}

#[tactic(auto, unfolding(crate::specs::Cuts::has_label))]
fn has_label(line: &[u8]) -> bool
    ensures { result ≡ has_label line.now }
{
    let body = body(line);
    has(b':', body) && is_label(before(b':', body))
}

/// The label at the front of a line.
pub fn label(line: &[u8]) -> Option<&[u8]>
    ensures { MatchOption result (label_of line.now ≡ None) (λ label. label_of line.now ≡ Some label.now) }
{
    if has_label(line) {
        Some(before(b':', body(line)))
    } else {
        None
    }
}

/// The statement of a line, empty where there is none.
#[tactic(auto, unfolding(crate::specs::Cuts::statement_of))]
pub fn statement(line: &[u8]) -> &[u8]
    ensures { result.now ≡ statement_of line.now }
{
    let body = body(line);
    if has_label(line) {
        trim(after(b':', body))
    } else {
        trim(body)
    }
}

/// The name of a statement.
#[tactic(auto, unfolding(crate::specs::Cuts::name_part))]
pub fn name(statement: &[u8]) -> &[u8]
    ensures { result.now ≡ name_part statement.now }
{
    statement.split_at(place_of_blank(statement)).0
}

/// What stands behind the name of a statement.
#[tactic(auto, unfolding(crate::specs::Cuts::operands_part))]
pub fn operands(statement: &[u8]) -> &[u8]
    ensures { result.now ≡ operands_part statement.now }
{
    behind(place_of_blank(statement), statement)
}
