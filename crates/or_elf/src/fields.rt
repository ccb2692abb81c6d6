// Numbers at offsets of a file.
ghost use Rattle.std.specs.Prelude.{◌≡◌, ◌≤◌, ◌+◌, length};
ghost use Rattle.or_elf.specs.Header.{half_at, word_at};

use byteorder::{BigEndian, ByteOrder};

#[tactic(auto, unfolding(crate::specs::Header::half_at))]
pub fn half(bytes: &[u8], at: usize) -> u16
    requires { at + 2 ≤ length bytes.now }
    ensures { result ≡ half_at bytes.now at }
{
    BigEndian::read_u16(&bytes[at..])
}

#[tactic(auto, unfolding(crate::specs::Header::word_at))]
pub fn word(bytes: &[u8], at: usize) -> u32
    requires { at + 4 ≤ length bytes.now }
    ensures { result ≡ word_at bytes.now at }
{
    BigEndian::read_u32(&bytes[at..])
}
