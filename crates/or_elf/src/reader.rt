// Reads a file, one test after another.
ghost use Rattle.std.specs.Prelude.{◌≡◌, ◌≢◌, ◌≤◌, ◌<◌, ◌+◌, ◌*◌, length, None, Some, MatchResult, IfOk, OnOk, slice_index};
ghost use Rattle.std.specs.List.{All};
ghost use Rattle.or_words.specs.declared.limits.TheConstants.{IMAGE_LIMIT, MOST_SEGMENTS};
ghost use Rattle.or_elf.specs.Header.{half_at, word_at, table_start, header_count, header_start, segment_at, segments};
ghost use Rattle.or_elf.specs.Fault.{elf_fault, length_fault, ident_fault, header_fault, program_table_fault, segment_fault, segments_fault, field_fault, IsInside};

use crate::fields::{half, word};
use crate::{ElfFault, Image, Segment};
use arrayvec::ArrayVec;
use or_words::limits::MOST_SEGMENTS;

/// The segments of a file for a board with `ram` bytes of RAM, or the file's first fault: the file is 32 bits,
/// big-endian, executable, for OpenRISC and of version 1 (ELF gABI, "ELF Header"), it has 1 to 64 program headers,
/// at least one of them to be loaded, and each that is to be loaded lies in the file and in RAM. All else is ignored.
#[tactic(auto, unfolding(crate::specs::Fault::elf_fault))]
pub fn read(bytes: &[u8], ram: u32) -> Result<Image, ElfFault>
    requires { length bytes.now ≤ IMAGE_LIMIT }
    ensures answer { MatchResult result
        (λ image. (elf_fault bytes.now ram ≡ None) × (image.segments ≡ segments bytes.now))
        (λ fault. elf_fault bytes.now ram ≡ Some fault) }
    ensures inside { IfOk result (λ image. All (IsInside (length bytes.now) ram) image.segments) }
{
    check_length(bytes)?;
    check_ident(bytes)?;
    check_header(bytes)?;
    check_table(bytes)?;
    let segments = collect(bytes);
    check_segments(bytes.len() as u32, ram, &segments)?;
    Ok(Image { segments })
}

fn check_length(bytes: &[u8]) -> Result<(), ElfFault>
    requires { length bytes.now ≤ IMAGE_LIMIT }
    ensures { MatchResult result (λ _. (length_fault bytes.now ≡ None) × (52 ≤ length bytes.now)) (λ fault. length_fault bytes.now ≡ Some fault) }
{
    if bytes.len() < 52 {
        return Err(ElfFault::Short {
            at: bytes.len() as u32,
        });
    }
    Ok(())
}

fn check_ident(bytes: &[u8]) -> Result<(), ElfFault>
    requires { 52 ≤ length bytes.now }
    ensures { MatchResult result (λ _. ident_fault bytes.now ≡ None) (λ fault. ident_fault bytes.now ≡ Some fault) }
{
    check_byte(bytes, 0, 0x7F)?;
    check_byte(bytes, 1, 0x45)?;
    check_byte(bytes, 2, 0x4C)?;
    check_byte(bytes, 3, 0x46)?;
    check_byte(bytes, 4, 1)?;
    check_byte(bytes, 5, 2)?;
    check_byte(bytes, 6, 1)
}

fn check_byte(bytes: &[u8], at: u32, wanted: u8) -> Result<(), ElfFault>
    requires { at < length bytes.now }
    ensures { MatchResult result (λ _. slice_index bytes.now at ≡ wanted) (λ fault. (slice_index bytes.now at ≢ wanted) × (fault ≡ ElfFault.BadIdent at)) }
{
    if bytes[at as usize] == wanted {
        Ok(())
    } else {
        Err(ElfFault::BadIdent { at })
    }
}

fn check_field(field: u32, found: u32, wanted: u32) -> Result<(), ElfFault>
    ensures { MatchResult result (λ _. field_fault field found wanted ≡ None) (λ fault. field_fault field found wanted ≡ Some fault) }
{
    if found == wanted {
        Ok(())
    } else {
        Err(ElfFault::BadHeader {
            field,
            value: found,
        })
    }
}

fn check_header(bytes: &[u8]) -> Result<(), ElfFault>
    requires { 52 ≤ length bytes.now }
    ensures { MatchResult result (λ _. (header_fault bytes.now ≡ None) × (header_count bytes.now ≤ MOST_SEGMENTS)) (λ fault. header_fault bytes.now ≡ Some fault) }
{
    check_field(16, u32::from(half(bytes, 16)), 2)?;
    check_field(18, u32::from(half(bytes, 18)), 92)?;
    check_field(20, word(bytes, 20), 1)?;
    check_field(40, u32::from(half(bytes, 40)), 52)?;
    check_field(42, u32::from(half(bytes, 42)), 32)?;
    let count = half(bytes, 44);
    if usize::from(count) > MOST_SEGMENTS {
        return Err(ElfFault::BadHeader {
            field: 44,
            value: u32::from(count),
        });
    }
    Ok(())
}

fn check_table(bytes: &[u8]) -> Result<(), ElfFault>
    requires long { 52 ≤ length bytes.now }
    requires short { length bytes.now ≤ IMAGE_LIMIT }
    requires count { header_count bytes.now ≤ MOST_SEGMENTS }
    ensures { MatchResult result
        (λ _. (program_table_fault bytes.now ≡ None) × (0 < header_count bytes.now → table_start bytes.now + 32 * header_count bytes.now ≤ length bytes.now))
        (λ fault. program_table_fault bytes.now ≡ Some fault) }
{
    let count = usize::from(half(bytes, 44));
    if count == 0 {
        return Ok(());
    }
    if word(bytes, 28) as usize + 32 * count > bytes.len() {
        return Err(ElfFault::Short {
            at: bytes.len() as u32,
        });
    }
    Ok(())
}

// The headers of type 1.
fn collect(bytes: &[u8]) -> ArrayVec<Segment, MOST_SEGMENTS>
    requires long { 52 ≤ length bytes.now }
    requires short { length bytes.now ≤ IMAGE_LIMIT }
    requires count { header_count bytes.now ≤ MOST_SEGMENTS }
    requires table { 0 < header_count bytes.now → table_start bytes.now + 32 * header_count bytes.now ≤ length bytes.now }
    ensures { result.items ≡ segments bytes.now }
{
    let mut segments = ArrayVec::new();
    let start = word(bytes, 28) as usize;
    let count = u32::from(half(bytes, 44));
    for index in 0..count {
        let at = start + 32 * index as usize;
        if word(bytes, at) == 1 {
            segments.push(segment_in(bytes, index, at));
        }
    }
    segments
}

fn segment_in(bytes: &[u8], index: u32, at: usize) -> Segment
    requires inside { at + 32 ≤ length bytes.now }
    requires start { at ≡ header_start bytes.now index }
    ensures { result ≡ segment_at bytes.now index }
{
    Segment {
        index,
        offset: word(bytes, at + 4),
        paddr: word(bytes, at + 12),
        filesz: word(bytes, at + 16),
        memsz: word(bytes, at + 20),
    }
}

fn check_segments(size: u32, ram: u32, segments: &[Segment]) -> Result<(), ElfFault>
    ensures { MatchResult result (λ _. segments_fault size ram segments.now ≡ None) (λ fault. segments_fault size ram segments.now ≡ Some fault) }
{
    if segments.is_empty() {
        return Err(ElfFault::NoSegments);
    }
    let mut rest = segments;
    while let Some((segment, others)) = rest.split_first() {
        check_segment(size, ram, segment)?;
        rest = others;
    }
    Ok(())
}

fn check_segment(size: u32, ram: u32, segment: &Segment) -> Result<(), ElfFault>
    ensures { MatchResult result (λ _. segment_fault size ram segment.now ≡ None) (λ fault. segment_fault size ram segment.now ≡ Some fault) }
{
    let index = segment.index;
    let end = u64::from(segment.offset) + u64::from(segment.filesz);
    if segment.filesz != 0 && end > u64::from(size) {
        return Err(ElfFault::SegmentOutOfFile { index, end, size });
    }
    let end = u64::from(segment.paddr) + u64::from(segment.memsz);
    if end > u64::from(ram) {
        return Err(ElfFault::SegmentOutOfRam { index, end, ram });
    }
    if segment.filesz > segment.memsz {
        return Err(ElfFault::FileSizeOverMemSize {
            index,
            filesz: segment.filesz,
            memsz: segment.memsz,
        });
    }
    Ok(())
}
