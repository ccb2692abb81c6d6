//! The lines that one core's data cache holds, and words in lists of bytes.

ghost use Rattle.std.specs.Prelude.{◌≡◌, ◌+◌, ◌<◌, ◌≤◌, ◌%◌, Some, length};
ghost use Rattle.or_words.specs.declared.Width.TheVariants.{Word};
ghost use Rattle.or_parts.specs.Memory.{value_at, stored, bytes_of};
ghost use Rattle.or_parts.specs.Lines.{index_of, line_of, no_lines, line_at_index, held_word, line_filled, line_dropped};
ghost use Rattle.or_mem.specs.Caches.{line_updated, address_and_bytes};

use or_parts::Line;
use or_words::Width;
use std::marker::Model;

/// A direct-mapped cache of 128 lines of 32 bytes; bits 11 to 5 of an address are its index.
#[derive(Clone, Copy)]
pub struct DataCache {
    lines: [Option<Line>; 128],
}

impl Model for DataCache {
    ghost use Rattle.std.specs.Prelude.{◌≡◌, List, Option, length};
    ghost use Rattle.or_parts.specs.declared.Line.{Line};

    ghost Value = { List (Option Line) };

    ghost view = { λ a. a.lines };

    ghost invariant = { λ a. length a.lines ≡ 128 };

    ghost inverse = { λ lines. record { lines = lines } };
}

/// The big-endian word at a place.
#[inline]
pub fn word_at(bytes: &[u8], at: usize) -> u32
    requires { at + 4 ≤ length bytes.now }
    ensures { result ≡ value_at bytes.now at Word }
{
    let first = u32::from(bytes[at]);
    let second = u32::from(bytes[at + 1]);
    let third = u32::from(bytes[at + 2]);
    let fourth = u32::from(bytes[at + 3]);
    ((first * 256 + second) * 256 + third) * 256 + fourth
}

/// Stores the low bits of a word at a place, big-endian.
#[inline]
pub fn write_at(bytes: &mut [u8], at: usize, width: Width, v: u32)
    requires { at + bytes_of width ≤ length bytes.old }
    ensures { bytes.new ≡ stored bytes.old at width v }
{
    match width {
        Width::Byte => {
            bytes[at] = (v % 256) as u8;
        }
        Width::Half => {
            bytes[at] = (v / 256 % 256) as u8;
            bytes[at + 1] = (v % 256) as u8;
        }
        Width::Word => {
            bytes[at] = (v / 16_777_216) as u8;
            bytes[at + 1] = (v / 65536 % 256) as u8;
            bytes[at + 2] = (v / 256 % 256) as u8;
            bytes[at + 3] = (v % 256) as u8;
        }
    }
}

impl DataCache {
    /// A cache that holds no line.
    pub fn empty() -> DataCache
        ensures { result ≡ no_lines }
    {
        DataCache { lines: [None; 128] }
    }

    /// The address and the bytes of the line at an index, None where the index holds none.
    pub fn line(&self, index: u32) -> Option<(u32, [u8; 32])>
        requires { index < 128 }
        ensures { result ≡ address_and_bytes (line_at_index self.now index) }
    {
        match &self.lines[index as usize] {
            Some(line) => Some((line.address, line.bytes)),
            None => None,
        }
    }

    /// The word at an address, None exactly where its line is not held.
    #[inline(always)]
    #[tactic(auto, unfolding(or_parts::specs::Lines::held_word))]
    pub fn look(&self, pa: u32) -> Option<u32>
        requires { pa % 4 ≡ 0 }
        ensures { result ≡ held_word self.now pa }
    {
        match &self.lines[(pa / 32 % 128) as usize] {
            Some(line) => {
                if line.address == pa - pa % 32 {
                    Some(word_at(&line.bytes, (pa % 32) as usize))
                } else {
                    None
                }
            }
            None => None,
        }
    }

    /// Keeps the line of an address, in the place of whichever stood at its index.
    #[inline]
    #[tactic(auto, unfolding(or_parts::specs::Lines::line_filled))]
    pub fn fill(&mut self, pa: u32, line: &[u8; 32])
        ensures filled { self.new ≡ line_filled self.old pa line.now }
        ensures held { line_at_index self.new (index_of pa) ≡ Some (record { address = line_of pa; bytes = line.now }) }
    {
        self.lines[(pa / 32 % 128) as usize] = Some(Line {
            address: pa - pa % 32,
            bytes: *line,
        });
    }

    /// Drops the line of an address, where it is held.
    #[inline]
    #[tactic(auto, unfolding(or_parts::specs::Lines::line_dropped))]
    pub fn drop_line(&mut self, pa: u32)
        ensures { self.new ≡ line_dropped self.old pa }
    {
        let index = (pa / 32 % 128) as usize;
        let is_held = match &self.lines[index] {
            Some(line) => line.address == pa - pa % 32,
            None => false,
        };
        if is_held {
            self.lines[index] = None;
        }
    }

    /// Stores the low bits of a word at an address in its line, where that is held.
    #[inline(always)]
    pub fn update(&mut self, pa: u32, width: Width, v: u32)
        requires { pa % bytes_of width ≡ 0 }
        ensures { self.new ≡ line_updated self.old pa width v }
    {
        update_line(&mut self.lines, pa, width, v);
    }
}

#[inline(always)]
#[tactic(auto, unfolding(crate::specs::Caches::line_updated))]
fn update_line(lines: &mut [Option<Line>], pa: u32, width: Width, v: u32)
    requires aligned { pa % bytes_of width ≡ 0 }
    requires whole { length lines.old ≡ 128 }
    ensures { lines.new ≡ line_updated lines.old pa width v }
{
    if let Some(line) = &mut lines[(pa / 32 % 128) as usize] {
        if line.address == pa - pa % 32 {
            write_at(&mut line.bytes, (pa % 32) as usize, width, v);
        }
    }
}
