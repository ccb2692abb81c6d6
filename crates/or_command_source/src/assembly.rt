//! The command `asm`.
ghost use Rattle.std.specs.Prelude.{◌≡◌, ◌≤◌, ℕ, true, false, List, Result, Ok, [], ◌∷◌, IfOk, MatchResult, length};
ghost use Rattle.or_words.specs.declared.limits.TheConstants.{IMAGE_LIMIT, MOST_SEGMENTS, MOST_PROGRAM_WORDS};
ghost use Rattle.or_asm.specs.Source.{SourceFault, source_of, Refuses};
ghost use Rattle.or_elf.specs.Text.{Piece, word_count};
ghost use Rattle.or_host.specs.Calls.{IsName};
ghost use Rattle.or_command_line.specs.Names.{IsAssembly};
ghost use Rattle.or_command.specs.Leaves.{Silent};
ghost use Rattle.or_command.specs.Loads.{bytes_of};
ghost use Rattle.or_command.specs.Ends.{end_of};
ghost use Rattle.or_command.specs.Outcomes.{CommandOutcome};
ghost use Rattle.or_command.specs.Carried.{IsCarriedOut};
ghost use Rattle.or_command.specs.Answered.{Answers, IsDecided, FinishEnds, StopsInCheck};
ghost use Rattle.or_command_source.specs.Assembly.{asm_loads, asm_check, source_check, AsmWrites, AsmLacks, only_file, IsFileOf};

use crate::files::{only_file, write_file};
use or_asm::{AsmFault, assemble, program_symbols};
use or_command::{Input, LoadStop, Loaded, Outcome, Refusal, conclude, load_files};
use or_host::Host;
use or_isa::Program;
use or_words::limits::SOURCE_LIMIT;
use std::alloc::Global;

// The program of a source.
fn program(alloc: Global, source: &[u8]) -> Result<Program, AsmFault<'_>>
    requires limit { length source.now ≤ SOURCE_LIMIT }
    ensures said { MatchResult result (λ program. source_of source.now ≡ Ok program) (λ fault. Refuses fault (source_of source.now)) }
    ensures few { IfOk result (λ program. length program ≤ MOST_SEGMENTS) }
    ensures short { IfOk result (λ program. word_count program ≤ MOST_PROGRAM_WORDS) }
{
    let mut program = Program {
        pieces: Vec::new(alloc),
    };
    assemble(alloc, source, &mut program)?;
    Ok(program)
}

/// The ELF file of the program of a source of at most 4 MiB, which has at most 64 MiB.
///
/// Errors: the least fault of the source's first faulty line; NoMemory.
#[tactic(auto, using(crate::proofs::Ending::files))]
pub fn program_file(alloc: Global, source: &[u8]) -> Result<Vec<u8>, AsmFault<'_>>
    requires limit { length source.now ≤ SOURCE_LIMIT }
    ensures file { MatchResult result (λ file. IsFileOf false source.now file.items) (λ fault. Refuses fault (source_of source.now)) }
    ensures small { IfOk result (λ file. length file.items ≤ IMAGE_LIMIT) }
{
    let program = program(alloc, source)?;
    let mut file = Vec::new(alloc);
    match or_elf::write(&program, &mut file) {
        Ok(()) => Ok(file),
        Err(_) => Err(AsmFault::NoMemory),
    }
}

// The same with a symbol for each label.
fn labelled_file(alloc: Global, source: &[u8]) -> Result<Vec<u8>, AsmFault<'_>>
    requires limit { length source.now ≤ SOURCE_LIMIT }
    ensures { MatchResult result (λ file. IsFileOf true source.now file.items) (λ fault. Refuses fault (source_of source.now)) }
{
    let program = program(alloc, source)?;
    let Ok(labels) = program_symbols(alloc, source, &program) else {
        return Err(AsmFault::NoMemory);
    };
    let mut file = Vec::new(alloc);
    match or_elf::write_labelled(&program, labels.as_slice(), &mut file) {
        Ok(()) => Ok(file),
        Err(_) => Err(AsmFault::NoMemory),
    }
}

fn file_of(alloc: Global, source: &[u8], symbols: bool) -> Result<Vec<u8>, AsmFault<'_>>
    requires limit { length source.now ≤ SOURCE_LIMIT }
    ensures { MatchResult result (λ file. IsFileOf symbols source.now file.items) (λ fault. Refuses fault (source_of source.now)) }
{
    if symbols {
        labelled_file(alloc, source)
    } else {
        program_file(alloc, source)
    }
}

// How a source of this name that has no program ends the command.
fn refuse_source<'a>(name: &'a str, fault: AsmFault<'a>) -> Outcome<'a>
    ensures { (source : Result (List Piece) SourceFault) → Refuses fault.entry source → StopsInCheck (source_check name.now source) (end_of result) }
{
    match fault.line() {
        None => Outcome::NoMemory,
        Some(line) => Outcome::Refused(Refusal::Source {
            name,
            fault: fault.number(),
            line: u64::from(line),
            why: fault.sentence(),
        }),
    }
}

// How the command ends on a source that was loaded.
fn finish<'a, H: Host>(
    alloc: Global,
    source: &'a str,
    image: &'a str,
    symbols: bool,
    files: &'a [Vec<u8>],
    host: &mut H,
) -> Outcome<'a>
    requires names { IsAssembly source.now image.now }
    requires limit { length (only_file (bytes_of files.now)) ≤ SOURCE_LIMIT }
    ensures outcome { FinishEnds (asm_check source.now) (AsmWrites image.now symbols) (bytes_of files.now) (end_of result) (H.state host.old) (H.state host.new) }
    ensures silent { Silent (H.state host.old) (H.state host.new) }
{
    match file_of(alloc, only_file(files), symbols) {
        Ok(file) => write_file(image, &file, host),
        Err(fault) => refuse_source(source, fault),
    }
}

// Loads a source, and writes the file of its program. The files outlive the outcome, which may have a word of the source.
fn assembled<'a, H: Host>(
    alloc: Global,
    source: &'a str,
    image: &'a str,
    symbols: bool,
    files: &'a mut Loaded,
    host: &mut H,
) -> Outcome<'a>
    requires names { IsAssembly source.now image.now }
    requires none { files.old.items ≡ [] }
    ensures outcome { CommandOutcome (asm_loads source.now) (asm_check source.now) (AsmWrites image.now symbols) (AsmLacks source.now) (end_of result) (H.state host.old) (H.state host.new) }
    ensures silent { Silent (H.state host.old) (H.state host.new) }
{
    let input = Input {
        name: source,
        limit: SOURCE_LIMIT,
    };
    match load_files(alloc, host, &[input], files) {
        Ok(()) => finish(alloc, source, image, symbols, files.as_slice(), host),
        Err(LoadStop::Unread(name)) => Outcome::Unread(name),
        Err(LoadStop::TooLong(name, limit)) => Outcome::TooLong(name, limit),
        Err(LoadStop::NoMemory) => Outcome::NoMemory,
    }
}

/// Assembles a source of at most 4 MiB, writes the ELF file of its program, with a symbol for each label where they are
/// wanted, to the image, and says how that ended.
///
/// Status: 0 all was done, 5 the source was not read, 6 the image was not written, 7 no memory, 8 the source is too long,
/// 9 the source has a fault. After 5, 7, 8 and 9 nothing is written or created.
pub fn asm<H: Host>(alloc: Global, source: &str, image: &str, symbols: bool, host: &mut H) -> u8
    requires names { IsAssembly source.now image.now }
    ensures ends { Answers (asm_loads source.now) (asm_check source.now) (AsmWrites image.now symbols) (AsmLacks source.now) result (H.state host.old) (H.state host.new) }
    ensures decided { IsDecided (asm_loads source.now) (asm_check source.now) (AsmWrites image.now symbols) (AsmLacks source.now) result (H.state host.old) (H.state host.new) }
    ensures command { IsCarriedOut result }
{
    let mut files = Loaded::new_in(alloc);
    let outcome = assembled(alloc, source, image, symbols, &mut files, host);
    conclude(host, outcome)
}
