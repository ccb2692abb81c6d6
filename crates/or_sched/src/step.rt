// A byte at a place.
ghost use Rattle.std.specs.Prelude.{◌≡◌, ◌≤◌, ◌<◌, ◌-◌, ◌^◌, ◌+◌, slice_index, codes, IfSome, length, ℕ};
ghost use Rattle.or_sched.specs.RunRests.{AtEnd, AtLine};
ghost use Rattle.or_sched.specs.BlockRests.{Behind};
ghost use Rattle.or_sched.specs.Places.{AreLimits, IsSound, IsSoundBlock, IsNumberBelow, StepIs, StepSound, Leads, Onward, OpenIs, DigitIs, WithinIs, digits_text};
ghost use Rattle.or_sched.specs.declared.places.Place.{Place};
ghost use Rattle.or_sched.specs.Ended.{StepPlaces, PlaceAt};

use crate::places::{Begun, Block, Limits, Place, Step};
use crate::recording::Mark;

/// What the byte makes of the place.
pub(crate) fn step(limits: &Limits, place: Place, byte: u8) -> Step
    requires limits { AreLimits limits.now }
    requires sound { IsSound limits.now place }
    ensures step { StepIs limits.now place byte result }
    ensures places { StepPlaces place result }
    ensures sound { StepSound limits.now result }
{
    match place {
        Place::First(block) => first(limits, block, byte),
        Place::Run(begun) => run(limits, begun, byte),
        Place::Line(core, block) => line(limits, core, block, byte),
        Place::Word(seen, total) => word(limits, seen, total, byte),
        Place::Writes(number, total) => writes(limits, number, total, byte),
        Place::Console(writes, number, total) => console(limits, writes, number, total, byte),
        Place::Done => Step::Refused,
    }
}

fn first(limits: &Limits, block: Block, byte: u8) -> Step
    requires limits { AreLimits limits.now }
    requires sound { IsSound limits.now (Place.First block) }
    ensures step { StepIs limits.now (Place.First block) byte result }
    ensures places { StepPlaces (Place.First block) result }
    ensures sound { StepSound limits.now result }
{
    match open(limits, limits.cores, 15, block, byte) {
        None => Step::Refused,
        Some(begun) => Step::Goes(Place::Run(begun)),
    }
}

fn line(limits: &Limits, core: u8, block: Block, byte: u8) -> Step
    requires limits { AreLimits limits.now }
    requires sound { IsSound limits.now (Place.Line core block) }
    ensures step { StepIs limits.now (Place.Line core block) byte result }
    ensures places { StepPlaces (Place.Line core block) result }
    ensures sound { StepSound limits.now result }
{
    match open(limits, core, 15, block, byte) {
        None => Step::Refused,
        Some(begun) => Step::Goes(Place::Run(begun)),
    }
}

// The run that the byte opens where a letter must stand that isn't the core's.
fn open(limits: &Limits, core: u8, room: u8, block: Block, byte: u8) -> Option<Begun>
    requires block { IsSoundBlock limits.now block }
    requires room { room < 16 }
    ensures open { OpenIs limits.now core room block byte result }
    ensures begun { IfSome result (λ begun. (begun.number ≡ 0) × (begun.room ≡ room)) }
{
    if byte < b'a' {
        return None;
    }
    let next = byte - b'a';
    if next >= limits.cores {
        return None;
    }
    if next == core {
        return None;
    }
    if block.left == 0 {
        return None;
    }
    Some(Begun {
        core: next,
        number: 0,
        room,
        block,
    })
}

fn run(limits: &Limits, begun: Begun, byte: u8) -> Step
    requires limits { AreLimits limits.now }
    requires sound { IsSound limits.now (Place.Run begun) }
    ensures step { StepIs limits.now (Place.Run begun) byte result }
    ensures places { StepPlaces (Place.Run begun) result }
    ensures sound { StepSound limits.now result }
{
    if byte >= b'0' {
        if byte <= b'9' {
            return digit(limits, begun, byte - b'0');
        }
    }
    if begun.number == 1 {
        return Step::Refused;
    }
    end_run(limits, begun, byte)
}

fn digit(limits: &Limits, begun: Begun, digit: u8) -> Step
    requires limits { AreLimits limits.now }
    requires sound { IsSound limits.now (Place.Run begun) }
    requires digit { digit < 10 }
    ensures step { StepIs limits.now (Place.Run begun) (48 + digit) result }
    ensures places { StepPlaces (Place.Run begun) result }
    ensures sound { StepSound limits.now result }
{
    let next = 10 * begun.number + u64::from(digit);
    if next == 0 {
        return Step::Refused;
    }
    if next > begun.block.left {
        return Step::Refused;
    }
    if next == 1 {
        if begun.block.left < 10 {
            return Step::Refused;
        }
    }
    Step::Goes(Place::Run(Begun {
        core: begun.core,
        number: next,
        room: begun.room,
        block: begun.block,
    }))
}

// The byte isn't a digit, and the digits so far are no lone 1.
fn end_run(limits: &Limits, begun: Begun, byte: u8) -> Step
    requires limits { AreLimits limits.now }
    requires sound { IsSound limits.now (Place.Run begun) }
    requires byte { 48 ≤ byte → byte ≤ 57 → ⊥ }
    requires number { begun.number ≡ 1 → ⊥ }
    ensures step { StepIs limits.now (Place.Run begun) byte result }
    ensures places { StepPlaces (Place.Run begun) result }
    ensures sound { StepSound limits.now result }
{
    let count = begun.number.max(1);
    let block = Block {
        left: begun.block.left - count,
        behind: begun.block.behind,
    };
    if byte == b'\n' {
        let next = if begun.room == 0 {
            at_line(limits, begun.core, block)
        } else {
            at_end(limits, block)
        };
        return Step::EndsRun(begun.core, count, next);
    }
    if begun.room == 0 {
        return Step::Refused;
    }
    match open(limits, begun.core, begun.room - 1, block, byte) {
        None => Step::Refused,
        Some(next) => Step::EndsRun(begun.core, count, Place::Run(next)),
    }
}

// Behind the line feed of a line with room.
fn at_end(limits: &Limits, block: Block) -> Place
    requires limits { AreLimits limits.now }
    requires block { IsSoundBlock limits.now block }
    ensures places { (room : ℕ) → PlaceAt result room 1 }
    ensures leads { Leads limits.now result (λ rest all later. AtEnd (Behind limits.now block.behind) block.left rest all later) }
    ensures sound { IsSound limits.now result }
{
    match block.behind {
        None => Place::Done,
        Some(total) => {
            if block.left == 0 {
                Place::Word(0, total)
            } else {
                Place::Done
            }
        }
    }
}

// Behind the line feed of a full line.
fn at_line(limits: &Limits, core: u8, block: Block) -> Place
    requires limits { AreLimits limits.now }
    requires block { IsSoundBlock limits.now block }
    ensures places { PlaceAt result 0 1 }
    ensures leads { Leads limits.now result (λ rest all later. AtLine (Behind limits.now block.behind) limits.now.cores core block.left rest all later) }
    ensures sound { IsSound limits.now result }
{
    if block.left == 0 {
        at_end(limits, block)
    } else {
        Place::Line(core, block)
    }
}

// Behind a mark's line.
fn onward(limits: &Limits, total: u64) -> Place
    requires limits { AreLimits limits.now }
    requires total { total ≤ limits.now.turns }
    ensures places { PlaceAt result 16 0 }
    ensures leads { Leads limits.now result (λ rest all later. Onward limits.now total rest all later) }
    ensures sound { IsSound limits.now result }
{
    if total == 0 {
        return Place::Done;
    }
    if limits.block <= total {
        return Place::Line(
            limits.cores,
            Block {
                left: limits.block,
                behind: Some(total - limits.block),
            },
        );
    }
    Place::Line(
        limits.cores,
        Block {
            left: total,
            behind: None,
        },
    )
}

fn word(limits: &Limits, seen: u8, total: u64, byte: u8) -> Step
    requires limits { AreLimits limits.now }
    requires sound { IsSound limits.now (Place.Word seen total) }
    ensures step { StepIs limits.now (Place.Word seen total) byte result }
    ensures places { StepPlaces (Place.Word seen total) result }
    ensures sound { StepSound limits.now result }
{
    if byte != word_byte(seen) {
        return Step::Refused;
    }
    if seen == 4 {
        return Step::Goes(Place::Writes(None, total));
    }
    Step::Goes(Place::Word(seen + 1, total))
}

fn word_byte(seen: u8) -> u8
    requires { seen < 5 }
    ensures { result ≡ slice_index (codes "mark ") seen }
{
    match seen {
        0 => b'm',
        1 => b'a',
        2 => b'r',
        3 => b'k',
        _ => b' ',
    }
}

// The number with one digit more.
pub(crate) fn more_digits(number: Option<u64>, byte: u8, most: u64) -> Option<u64>
    requires number { IsNumberBelow number most }
    requires most { most < 2 ^ 32 }
    requires low { 48 ≤ byte }
    requires high { byte ≤ 57 }
    ensures digit { DigitIs number byte most result }
    ensures longer { IfSome result (λ next. length (digits_text (Some next)) ≡ length (digits_text number) + 1) }
{
    let digit = u64::from(byte - b'0');
    match number {
        None => within(digit, most),
        Some(n) => {
            if n == 0 {
                None
            } else {
                within(10 * n + digit, most)
            }
        }
    }
}

fn within(n: u64, most: u64) -> Option<u64>
    ensures { WithinIs n most result }
{
    if n <= most { Some(n) } else { None }
}

fn writes(limits: &Limits, number: Option<u64>, total: u64, byte: u8) -> Step
    requires limits { AreLimits limits.now }
    requires sound { IsSound limits.now (Place.Writes number total) }
    ensures step { StepIs limits.now (Place.Writes number total) byte result }
    ensures places { StepPlaces (Place.Writes number total) result }
    ensures sound { StepSound limits.now result }
{
    if byte >= b'0' {
        if byte <= b'9' {
            return match more_digits(number, byte, limits.turns - total) {
                None => Step::Refused,
                Some(next) => Step::Goes(Place::Writes(Some(next), total)),
            };
        }
    }
    if byte != b' ' {
        return Step::Refused;
    }
    match number {
        None => Step::Refused,
        Some(n) => Step::Goes(Place::Console(n, None, total)),
    }
}

fn console(limits: &Limits, writes: u64, number: Option<u64>, total: u64, byte: u8) -> Step
    requires limits { AreLimits limits.now }
    requires sound { IsSound limits.now (Place.Console writes number total) }
    ensures step { StepIs limits.now (Place.Console writes number total) byte result }
    ensures places { StepPlaces (Place.Console writes number total) result }
    ensures sound { StepSound limits.now result }
{
    if byte >= b'0' {
        if byte <= b'9' {
            return match more_digits(number, byte, limits.turns - total) {
                None => Step::Refused,
                Some(next) => Step::Goes(Place::Console(writes, Some(next), total)),
            };
        }
    }
    if byte != b'\n' {
        return Step::Refused;
    }
    match number {
        None => Step::Refused,
        Some(n) => Step::EndsMark(Mark { writes, console: n }, onward(limits, total)),
    }
}
