// Says a line in pieces: where a piece fails, the rest is not said. No piece takes memory.
ghost use Rattle.std.specs.Prelude.{◌≡◌, ◌++◌, ◌<◌, ◌/◌, ◌^◌, nat_lt, if◌then◌else◌, [], List, ℕ, decimal, codes, false};
ghost use Rattle.std.specs.Fmt.{digit_glyph};
ghost use Rattle.or_text.specs.Hexadecimal.{digest_text};
ghost use Rattle.or_text.specs.Sentences.{address_text, range_text, part_text, clause_text, sentence_text, sentence_line};
ghost use Rattle.or_host.specs.HostState.{HostState};
ghost use Rattle.or_command.specs.Said.{Said};
ghost use Rattle.or_command.specs.Lines.{detail_text};

use crate::{Digests, ScheduleDetail};
use or_host::{Failed, Host};
use or_text::{Clause, Part, Sentence, word_digits};

// Says a piece of a line, where what stands before it was said.
pub(crate) fn then_say<H: Host>(
    host: &mut H,
    so_far: Result<(), Failed>,
    piece: &[u8],
) -> Result<(), Failed>
    ensures { (start : HostState) (line : List ℕ) → Said so_far line start (H.state host.old)
        → Said result (line ++ piece.now) start (H.state host.new) }
{
    match so_far {
        Ok(()) => host.say(piece),
        Err(failed) => Err(failed),
    }
}

// Says a number in decimal, in the same way.
pub(crate) fn then_number<H: Host>(
    host: &mut H,
    so_far: Result<(), Failed>,
    n: u64,
) -> Result<(), Failed>
    ensures { (start : HostState) (line : List ℕ) → Said so_far line start (H.state host.old)
        → Said result (line ++ decimal n) start (H.state host.new) }
{
    if n < 10 {
        return then_say(host, so_far, &[b'0' + n as u8]);
    }
    let so_far = then_number(host, so_far, n / 10);
    then_say(host, so_far, &[b'0' + (n % 10) as u8])
}

// The digit, as `a` for 10.
fn small_digit(digit: u8) -> u8
    requires { digit < 16 }
    ensures { result ≡ digit_glyph false digit }
{
    if digit < 10 {
        b'0' + digit
    } else {
        b'a' + (digit - 10)
    }
}

// Says bytes as two lower-case digits each, in the same way.
pub(crate) fn then_digest<H: Host>(
    host: &mut H,
    so_far: Result<(), Failed>,
    bytes: &[u8],
) -> Result<(), Failed>
    ensures { (start : HostState) (line : List ℕ) → Said so_far line start (H.state host.old)
        → Said result (line ++ digest_text bytes.now) start (H.state host.new) }
{
    let Some((first, others)) = bytes.split_first() else {
        return so_far;
    };
    let digits = [small_digit(*first / 16), small_digit(*first % 16)];
    let so_far = then_say(host, so_far, &digits);
    then_digest(host, so_far, others)
}

// Says a word and two digests.
fn then_digests<H: Host>(
    host: &mut H,
    so_far: Result<(), Failed>,
    word: &[u8],
    digests: &Digests,
) -> Result<(), Failed>
    ensures { (start : HostState) (line : List ℕ) → Said so_far line start (H.state host.old)
        → Said result (line ++ (word.now ++ digest_text digests.now.recorded ++ codes " " ++ digest_text digests.now.found)) start (H.state host.new) }
{
    let so_far = then_say(host, so_far, word);
    let so_far = then_digest(host, so_far, &digests.recorded);
    let so_far = then_say(host, so_far, b" ");
    then_digest(host, so_far, &digests.found)
}

// Says a word and a number.
fn then_numbered<H: Host>(
    host: &mut H,
    so_far: Result<(), Failed>,
    before: &[u8],
    n: u64,
) -> Result<(), Failed>
    ensures { (start : HostState) (line : List ℕ) → Said so_far line start (H.state host.old)
        → Said result (line ++ (before.now ++ decimal n)) start (H.state host.new) }
{
    let so_far = then_say(host, so_far, before);
    then_number(host, so_far, n)
}

// Says a number between two words.
fn then_between<H: Host>(
    host: &mut H,
    so_far: Result<(), Failed>,
    before: &[u8],
    n: u64,
    behind: &[u8],
) -> Result<(), Failed>
    ensures { (start : HostState) (line : List ℕ) → Said so_far line start (H.state host.old)
        → Said result (line ++ (before.now ++ decimal n ++ behind.now)) start (H.state host.new) }
{
    let so_far = then_say(host, so_far, before);
    let so_far = then_number(host, so_far, n);
    then_say(host, so_far, behind)
}

// Says a turn, a word and two counts.
fn then_counts<H: Host>(
    host: &mut H,
    so_far: Result<(), Failed>,
    turn: u64,
    word: &[u8],
    recorded: u64,
    found: u64,
) -> Result<(), Failed>
    ensures { (start : HostState) (line : List ℕ) → Said so_far line start (H.state host.old)
        → Said result (line ++ (codes "turn " ++ decimal turn ++ word.now ++ decimal recorded ++ codes " " ++ decimal found)) start (H.state host.new) }
{
    let so_far = then_between(host, so_far, b"turn ", turn, word);
    let so_far = then_number(host, so_far, recorded);
    let so_far = then_say(host, so_far, b" ");
    then_number(host, so_far, found)
}

// Says why a recording is refused.
pub(crate) fn then_detail<H: Host>(
    host: &mut H,
    so_far: Result<(), Failed>,
    detail: ScheduleDetail,
) -> Result<(), Failed>
    ensures { (start : HostState) (line : List ℕ) → Said so_far line start (H.state host.old)
        → Said result (line ++ detail_text detail) start (H.state host.new) }
{
    match detail {
        ScheduleDetail::Head { line } => { then_numbered(host, so_far, b"head ", u64::from(line)) }
        ScheduleDetail::At { place } => then_numbered(host, so_far, b"at ", place),
        ScheduleDetail::Short => then_say(host, so_far, b"short"),
        ScheduleDetail::Image(digests) => then_digests(host, so_far, b"image ", &digests),
        ScheduleDetail::Input(digests) => then_digests(host, so_far, b"input ", &digests),
        ScheduleDetail::TurnStopped { turn } => {
            then_between(host, so_far, b"turn ", turn, b" stopped")
        }
        ScheduleDetail::CoreRunning { core } => {
            then_between(host, so_far, b"core ", u64::from(core), b" running")
        }
        ScheduleDetail::TurnWrites {
            turn,
            recorded,
            found,
        } => then_counts(host, so_far, turn, b" writes ", recorded, found),
        ScheduleDetail::TurnConsole {
            turn,
            recorded,
            found,
        } => then_counts(host, so_far, turn, b" console ", recorded, found),
    }
}

// Says what exceeds 32 bits, where something does.
fn then_excess<H: Host>(host: &mut H, so_far: Result<(), Failed>, n: u64) -> Result<(), Failed>
    ensures { (start : HostState) (line : List ℕ) → Said so_far line start (H.state host.old)
        → Said result (line ++ (if nat_lt n (2 ^ 32) then [] else decimal (n / 2 ^ 32))) start (H.state host.new) }
{
    if n < 0x1_0000_0000 {
        so_far
    } else {
        then_number(host, so_far, n / 0x1_0000_0000)
    }
}

// Says an address.
fn then_address<H: Host>(host: &mut H, so_far: Result<(), Failed>, n: u64) -> Result<(), Failed>
    ensures { (start : HostState) (line : List ℕ) → Said so_far line start (H.state host.old)
        → Said result (line ++ address_text n) start (H.state host.new) }
{
    let so_far = then_excess(host, so_far, n);
    let digits = word_digits((n % 0x1_0000_0000) as u32);
    then_say(host, so_far, &digits)
}

// Says two numbers.
fn then_range<H: Host>(
    host: &mut H,
    so_far: Result<(), Failed>,
    low: u64,
    high: u64,
) -> Result<(), Failed>
    ensures { (start : HostState) (line : List ℕ) → Said so_far line start (H.state host.old)
        → Said result (line ++ range_text low high) start (H.state host.new) }
{
    let so_far = then_number(host, so_far, low);
    let so_far = then_say(host, so_far, b" to ");
    then_number(host, so_far, high)
}

// Says a value.
fn then_part<H: Host>(
    host: &mut H,
    so_far: Result<(), Failed>,
    part: &Part<'_>,
) -> Result<(), Failed>
    ensures { (start : HostState) (line : List ℕ) → Said so_far line start (H.state host.old)
        → Said result (line ++ part_text part.now) start (H.state host.new) }
{
    match part {
        Part::Text(text) => then_say(host, so_far, text.as_bytes()),
        Part::Number(n) => then_number(host, so_far, *n),
        Part::Range { low, high } => then_range(host, so_far, *low, *high),
        Part::Address(n) => then_address(host, so_far, *n),
    }
}

// Says a value and the words behind it.
fn then_clause<H: Host>(
    host: &mut H,
    so_far: Result<(), Failed>,
    clause: &Clause<'_>,
) -> Result<(), Failed>
    ensures { (start : HostState) (line : List ℕ) → Said so_far line start (H.state host.old)
        → Said result (line ++ clause_text clause.now) start (H.state host.new) }
{
    let so_far = then_part(host, so_far, &clause.value);
    then_say(host, so_far, clause.words.as_bytes())
}

// Says a sentence as the second line.
#[tactic(auto, unfolding(or_text::specs::Sentences::sentence_text))]
pub(crate) fn then_sentence<H: Host>(
    host: &mut H,
    so_far: Result<(), Failed>,
    sentence: &Sentence<'_>,
) -> Result<(), Failed>
    ensures { (start : HostState) (line : List ℕ) → Said so_far line start (H.state host.old)
        → Said result (line ++ sentence_line (sentence_text sentence.now)) start (H.state host.new) }
{
    let so_far = then_say(host, so_far, b"  ");
    let so_far = then_say(host, so_far, sentence.words.as_bytes());
    let so_far = then_clause(host, so_far, &sentence.first);
    let so_far = then_clause(host, so_far, &sentence.second);
    let so_far = then_clause(host, so_far, &sentence.third);
    let so_far = then_clause(host, so_far, &sentence.fourth);
    then_say(host, so_far, b"\n")
}
