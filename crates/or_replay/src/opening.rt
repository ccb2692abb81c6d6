//! Opening a board over an image.
ghost use Rattle.std.specs.Prelude.{◌≡◌, ◌≤◌, ◌<◌, ◌*◌, ◌+◌, ℕ, List, Some, None, length, take, drop, replicate, MatchResult, IfOk};
ghost use Rattle.std.specs.List.{All, fold};
ghost use Rattle.or_words.specs.Settings.{Fits, ram_bytes};
ghost use Rattle.or_words.specs.declared.limits.TheConstants.{IMAGE_LIMIT, MOST_RAM, MOST_RAM_BYTES};
ghost use Rattle.or_elf.specs.Fault.{elf_fault, IsInside};
ghost use Rattle.or_elf.specs.Header.{segments as segments_in};
ghost use Rattle.or_elf.specs.Placed.{placed, place_segment};
ghost use Rattle.or_model.specs.World.{new_world};
ghost use Rattle.or_model.specs.Turn.{reset_cores};
ghost use Rattle.or_bus.specs.Represents.{Represents};
ghost use Rattle.or_replay.specs.Start.{start};
ghost use Rattle.or_replay.specs.Board.{IsBoard};
ghost use Rattle.or_replay.specs.Opening.{FailsToOpen};

use crate::board::Board;
use arrayvec::ArrayVec;
use or_bus::Bus;
use or_core::Core;
use or_elf::{ElfFault, Segment};
use or_mem::Ram;
use or_words::limits::MIB;
use or_words::{Config, NoMemory};
use std::alloc::Global;

/// Why a board is not opened.
#[derive(Clone, Copy, Debug, PartialEq, Eq)]
pub enum OpenFault {
    /// The image has this fault.
    Elf(ElfFault),
    /// Memory ran out.
    NoMemory,
}

// The file's bytes of a segment.
fn bytes_of<'a>(image: &'a [u8], segment: &Segment) -> &'a [u8]
    requires { 0 < segment.now.filesz → segment.now.offset + segment.now.filesz ≤ length image.now }
    ensures { result.now ≡ take segment.now.filesz (drop segment.now.offset image.now) }
{
    if segment.filesz == 0 {
        return &[];
    }
    image
        .split_at(segment.offset as usize)
        .1
        .split_at(segment.filesz as usize)
        .0
}

// Places a segment in RAM.
#[tactic(auto, using(crate::proofs::Placing::placing))]
fn place(ram: &mut Ram, image: &[u8], segment: &Segment)
    requires inside { IsInside (length image.now) (length ram.old.bytes) segment.now }
    requires small { length ram.old.bytes ≤ MOST_RAM_BYTES }
    ensures bytes { ram.new.bytes ≡ place_segment image.now ram.old.bytes segment.now }
    ensures size { length ram.new.bytes ≡ length ram.old.bytes }
{
    ram.load(segment.paddr, bytes_of(image, segment));
    ram.clear(
        segment.paddr + segment.filesz,
        segment.memsz - segment.filesz,
    );
}

// Places all segments in order.
fn place_all(ram: &mut Ram, image: &[u8], segments: &[Segment])
    requires small { length ram.old.bytes ≤ MOST_RAM_BYTES }
    requires inside { All (IsInside (length image.now) (length ram.old.bytes)) segments.now }
    ensures bytes { ram.new.bytes ≡ fold (place_segment image.now) ram.old.bytes segments.now }
    ensures size { length ram.new.bytes ≡ length ram.old.bytes }
{
    let mut rest = segments;
    while let Some((segment, others)) = rest.split_first() {
        place(ram, image, segment);
        rest = others;
    }
}

// RAM with the image placed in it.
#[tactic(auto, unfolding(or_elf::specs::Placed::placed))]
fn loaded(alloc: Global, mib: u32, image: &[u8], segments: &[Segment]) -> Result<Ram, NoMemory>
    requires size { mib ≤ MOST_RAM }
    requires all { segments.now ≡ segments_in image.now }
    requires inside { All (IsInside (length image.now) (mib * MIB)) segments.now }
    ensures bytes { IfOk result (λ ram. ram.bytes ≡ placed image.now (mib * MIB)) }
    ensures size { IfOk result (λ ram. length ram.bytes ≡ mib * MIB) }
{
    let mut ram = Ram::open(alloc, mib)?;
    place_all(&mut ram, image, segments);
    Ok(ram)
}

// All cores at reset.
#[tactic(auto, using(crate::proofs::Reset::reset))]
fn cores_at_reset(config: &Config) -> ArrayVec<Core, 8>
    requires { Fits config.now }
    ensures { result.items ≡ reset_cores config.now config.now.cores }
{
    let mut cores = ArrayVec::new();
    for number in 0..config.cores {
        cores.push(Core::reset(config, number));
    }
    cores
}

// A board over RAM.
#[tactic(auto, using(crate::proofs::Reset::reset))]
fn assemble(alloc: Global, config: &Config, ram: Ram, input: Vec<u8>) -> Result<Board, NoMemory>
    requires fits { Fits config.now }
    requires size { length ram.bytes ≡ ram_bytes config.now }
    ensures cores { IfOk result (λ board. board.cores ≡ reset_cores config.now config.now.cores) }
    ensures bus { IfOk result (λ board. Represents board.bus (new_world ram.bytes config.now.cores input.items)) }
    ensures config { IfOk result (λ board. board.config ≡ config.now) }
{
    let bus = Bus::open(alloc, config, ram, input)?;
    let cores = cores_at_reset(config);
    Ok(Board {
        config: *config,
        cores,
        bus,
    })
}

// A board over segments that lie in the file and in RAM.
fn opened(
    alloc: Global,
    config: &Config,
    image: &[u8],
    segments: &[Segment],
    input: Vec<u8>,
) -> Result<Board, NoMemory>
    requires fits { Fits config.now }
    requires all { segments.now ≡ segments_in image.now }
    requires inside { All (IsInside (length image.now) (ram_bytes config.now)) segments.now }
    ensures cores { IfOk result (λ board. board.cores ≡ reset_cores config.now config.now.cores) }
    ensures bus { IfOk result (λ board. Represents board.bus (new_world (placed image.now (ram_bytes config.now)) config.now.cores input.items)) }
    ensures config { IfOk result (λ board. board.config ≡ config.now) }
{
    let ram = loaded(alloc, config.ram, image, segments)?;
    assemble(alloc, config, ram, input)
}

impl Board {
    /// A board with these settings over an image, with the input for its console: all cores are at reset, and the image's
    /// segments are placed in RAM over zeros. The image has at most 64 MiB. It reserves room for all that the console can
    /// show, so that no turn takes memory.
    ///
    /// Errors: Elf exactly where the image has this fault, which is found before memory is taken; NoMemory.
    #[tactic(auto, unfolding(crate::specs::Start::start))]
    pub fn open(
        alloc: Global,
        config: &Config,
        image: &[u8],
        input: Vec<u8>,
    ) -> Result<Board, OpenFault>
        requires fits { Fits config.now }
        requires limit { length image.now ≤ IMAGE_LIMIT }
        ensures opened { MatchResult result
            (λ board. (elf_fault image.now (ram_bytes config.now) ≡ None) × IsBoard board.cores board.bus (start config.now image.now input.items) × (board.config ≡ config.now))
            (λ fault. FailsToOpen image.now (ram_bytes config.now) fault) }
    {
        match or_elf::read(image, config.ram * MIB) {
            Ok(found) => match opened(alloc, config, image, &found.segments, input) {
                Ok(board) => Ok(board),
                Err(_) => Err(OpenFault::NoMemory),
            },
            Err(fault) => Err(OpenFault::Elf(fault)),
        }
    }
}
