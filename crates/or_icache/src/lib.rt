//! The instruction cache: a finite map from index to line, of 128 lines of 32 bytes, with the
//! instructions of its words.
//! Nothing here takes memory, and nothing refuses.
#![tactic(auto)]

ghost use Rattle.std.specs.Prelude.{◌≡◌, ◌≢◌, ℕ, ◌+◌, ◌*◌, ◌/◌, ◌≤◌, ◌<◌, ◌%◌, length, slice_index_or, None, IfSome};
ghost use Rattle.std.specs.Option.{ForSome};
ghost use Rattle.or_isa.specs.Fits.{Fits};
ghost use Rattle.or_words.specs.declared.Width.TheVariants.{Word};
ghost use Rattle.or_parts.specs.Memory.{value_at};
ghost use Rattle.or_parts.specs.Lines.{index_of, line_of, no_lines, is_line_at, word_of_line, held_word, line_filled, line_dropped};
ghost use Rattle.or_icache.specs.Decoded.{IsDecoded, held_insn};

use or_isa::{Insn, decode};
pub use or_parts::Line;
use std::marker::Model;

/// The bytes of a line.
const LINE: u32 = 32;
/// How many lines there are.
const LINES: u32 = 128;

/// How many words, and so instructions, all lines have.
const WORDS: u32 = 1024;

/// The lines that are held, each with the physical address at which it begins. No store reaches
/// them (OpenRISC 1000 Architecture Manual, chapter 9). A line is decoded once, when it is filled.
#[derive(Drop)]
pub struct ICache {
    lines: [Option<Line>; 128],
    // Eight for each index.
    insns: [Option<Insn>; 1024],
}

impl Model for ICache {
    ghost use Rattle.std.specs.Prelude.{List, Option};
    ghost use Rattle.or_parts.specs.declared.Line.{Line};
    ghost use Rattle.or_icache.specs.Decoded.{AreDecoded};

    ghost Value = { List (Option Line) };

    ghost view = { λ a. a.lines };

    ghost invariant = { λ a. AreDecoded a.lines a.insns };
}

// The index of an address.
#[inline]
fn index_of(pa: u32) -> usize
    ensures { result ≡ index_of pa }
{
    (pa / LINE % LINES) as usize
}

// Where the line of an address begins.
#[inline]
fn line_of(pa: u32) -> u32
    ensures { result ≡ line_of pa }
{
    pa - pa % LINE
}

// Whether it is the line of an address.
#[inline]
fn is_line_at(held: &Option<Line>, pa: u32) -> bool
    ensures { result ≡ is_line_at held.now pa }
{
    match held {
        Some(line) => line.address == line_of(pa),
        None => false,
    }
}

// The big-endian word at a place.
#[inline]
fn word_at(bytes: &[u8], at: usize) -> u32
    requires { at + 4 ≤ length bytes.now }
    ensures { result ≡ value_at bytes.now at Word }
{
    let first = u32::from(bytes[at]);
    let second = u32::from(bytes[at + 1]);
    let third = u32::from(bytes[at + 2]);
    let fourth = u32::from(bytes[at + 3]);
    ((first * 256 + second) * 256 + third) * 256 + fourth
}

// The word at an address, where this is its line.
fn word_of_line(held: &Option<Line>, pa: u32) -> Option<u32>
    requires { pa % 4 ≡ 0 }
    ensures { result ≡ word_of_line held.now pa }
{
    match held {
        Some(line) if line_of(pa) == line.address => {
            Some(word_at(&line.bytes, (pa % LINE) as usize))
        }
        _ => None,
    }
}

// The instruction of each word of a line stands at its index.
fn decode_line(insns: &mut [Option<Insn>; 1024], index: usize, bytes: &[u8; 32])
    requires { index < 128 }
    ensures here { (k : ℕ) → k < 8 → IsDecoded bytes.now (k * 4) (slice_index_or insns.new (index * 8 + k) None) }
    ensures elsewhere { (place : ℕ) → place / 8 ≢ index → slice_index_or insns.new place None ≡ slice_index_or insns.old place None }
{
    for k in 0..8usize {
        insns[index * 8 + k] = decode(word_at(bytes, k * 4));
    }
}

impl ICache {
    /// A cache that holds no line.
    pub fn empty() -> ICache
        ensures { result ≡ no_lines }
    {
        ICache {
            lines: [None; 128],
            insns: [None; 1024],
        }
    }

    /// The same cache once more.
    pub fn copy(&self) -> ICache
        ensures { result ≡ self.now }
    {
        ICache {
            lines: self.lines,
            insns: self.insns,
        }
    }

    /// The instruction of the word at a physical address, None exactly where its line is not held;
    /// `Some(None)` where the word is no instruction.
    #[inline(always)]
    #[tactic(auto, unfolding(or_parts::specs::Lines::held_word))]
    pub fn look(&self, pa: u32) -> Option<Option<Insn>>
        requires { pa % 4 ≡ 0 }
        ensures value { result ≡ held_insn self.now pa }
        ensures fits { IfSome result (λ insn. ForSome insn Fits) }
    {
        match &self.lines[index_of(pa)] {
            Some(line) => if line.address == line_of(pa) {
                Some(self.insns[(pa / 4 % WORDS) as usize])
            } else {
                None
            },
            None => None,
        }
    }

    /// The word at a physical address, None exactly where its line is not held.
    #[tactic(auto, unfolding(or_parts::specs::Lines::held_word))]
    pub fn word(&self, pa: u32) -> Option<u32>
        requires { pa % 4 ≡ 0 }
        ensures { result ≡ held_word self.now pa }
    {
        word_of_line(&self.lines[index_of(pa)], pa)
    }

    /// Holds these bytes as the line of a physical address, over whatever its index held.
    #[tactic(auto, unfolding(or_parts::specs::Lines::line_filled))]
    pub fn fill(&mut self, pa: u32, line: &[u8; 32])
        ensures { self.new ≡ line_filled self.old pa line.now }
    {
        let index = index_of(pa);
        decode_line(&mut self.insns, index, line);
        self.lines[index] = Some(Line {
            address: line_of(pa),
            bytes: *line,
        });
    }

    /// Drops the line of a physical address where it is held.
    #[tactic(auto, unfolding(or_parts::specs::Lines::line_dropped))]
    pub fn drop_line(&mut self, pa: u32)
        ensures { self.new ≡ line_dropped self.old pa }
    {
        let index = index_of(pa);
        if is_line_at(&self.lines[index], pa) {
            self.lines[index] = None;
        }
    }
}
