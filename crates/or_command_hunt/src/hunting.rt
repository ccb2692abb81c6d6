//! The command `hunt`.
ghost use Rattle.std.specs.Prelude.{◌≡◌, ◌≤◌, ◌+◌, ℕ, None, IfOk, MatchOption, MatchResult, length};
ghost use Rattle.or_words.specs.declared.limits.TheConstants.{IMAGE_LIMIT};
ghost use Rattle.or_words.specs.Settings.{Fits, ram_bytes};
ghost use Rattle.or_elf.specs.Fault.{elf_fault};
ghost use Rattle.or_sched.specs.Schedule.{IsSchedule, AreMarks};
ghost use Rattle.or_model.specs.Turn.{Board as BoardModel};
ghost use Rattle.or_replay.specs.Start.{start};
ghost use Rattle.or_replay.specs.Board.{IsBoard};
ghost use Rattle.or_hunt.specs.Failing.{NoneFails};
ghost use Rattle.or_hunt.specs.Making.{IsDrawn};
ghost use Rattle.or_command_line.specs.Names.{hunt_names, AreWritten};
ghost use Rattle.or_command_line.specs.Settings.{FitsHunt};
ghost use Rattle.or_command.specs.Ends.{end_of};
ghost use Rattle.or_command.specs.Loads.{bytes_of};
ghost use Rattle.or_command_image.specs.Loaded.{image_in as image_of};
ghost use Rattle.or_replay.specs.Opening.{FailsToOpen};
ghost use Rattle.or_command_image.specs.Opened.{head_of};
ghost use Rattle.or_command_hunt.specs.Hunt.{hunt_start, IsHunted};
ghost use Rattle.or_command_hunt.specs.Tries.{IsHeard};
ghost use Rattle.or_command_hunt.specs.Finishing.{IsFound, HuntGoesOn, HuntEnds};

use crate::telling::append_told;
use crate::trying::try_seeds;
use or_command::{LoadStop, Loaded, Outcome, Refusal};
use or_command_image::{
    Reported, head, image_in, input_for_board, input_in, load_image, recording_if, refused,
    report_if, write_recorded,
};
use or_command_line::Hunt;
use or_host::Host;
use or_hunt::{Found, Made};
use or_replay::{Board, OpenFault};
use or_sched::Head;
use or_words::{Config, NoMemory};
use std::alloc::Global;

// What a hunt writes.
#[derive(Drop)]
struct HuntTexts {
    recording: Vec<u8>,
    report: Vec<u8>,
    told: Vec<u8>,
}

// The board that each try begins with.
fn open(alloc: Global, config: &Config, image: &[u8], input: &[u8]) -> Result<Board, OpenFault>
    requires fits { Fits config.now }
    requires limit { length image.now ≤ IMAGE_LIMIT }
    ensures { MatchResult result
        (λ board. (elf_fault image.now (ram_bytes config.now) ≡ None) × IsBoard board.cores board.bus (start config.now image.now input.now))
        (λ fault. FailsToOpen image.now (ram_bytes config.now) fault) }
{
    match input_for_board(alloc, config, image, input) {
        Ok(bytes) => Board::open(alloc, config, image, bytes),
        Err(fault) => Err(fault),
    }
}

// The texts of a seed on which a core fails, which was tried behind so many others less one.
fn texts(
    alloc: Global,
    words: &Hunt<'_>,
    head: &Head,
    count: u32,
    found: Found,
    made: &Made,
) -> Result<HuntTexts, NoMemory>
    requires fits { Fits head.now.config }
    requires schedule { IsSchedule head.now.config made.now.turns.items }
    requires marks { AreMarks made.now.turns.items made.now.marks.items }
    ensures { IfOk result (λ texts. (start : BoardModel) (from : ℕ) → IsDrawn start found.seed made.now found.board.cores found.board.bus → from + count ≡ found.seed + 1
        → IsHunted (hunt_names words.now) start head.now from found.seed texts.recording.items texts.report.items texts.told.items) }
{
    let Found { seed, board } = found;
    let turns = made.turns.len() as u64;
    let recording = recording_if(alloc, words.schedule, head, &made.turns, &made.marks)?;
    let mut told = Vec::new(alloc);
    let Ok(()) = append_told(seed, count, turns, board.cores(), &mut told) else {
        return Err(NoMemory);
    };
    let (cores, bus) = board.into_parts();
    let Reported { report, .. } = report_if(alloc, words.report, cores.as_slice(), bus, turns)?;
    Ok(HuntTexts {
        recording,
        report,
        told,
    })
}

// Tries the seeds from this board, and makes the texts of the first on which a core fails.
fn make<H: Host>(
    alloc: Global,
    words: &Hunt<'_>,
    image: &[u8],
    input: &[u8],
    mut board: Board,
    host: &mut H,
) -> Result<Option<HuntTexts>, NoMemory>
    requires fits { Fits words.now.options.config }
    requires range { FitsHunt words.now.options }
    requires board { IsBoard board.cores board.bus (start words.now.options.config image.now input.now) }
    ensures made { IfOk result (λ found. MatchOption found (NoneFails (start words.now.options.config image.now input.now) words.now.options.seed words.now.options.tries)
        (λ texts. IsFound (hunt_names words.now) words.now.options image.now input.now texts.recording.items texts.report.items texts.told.items)) }
    ensures heard { IsHeard words.now.options.tries (H.state host.old) (H.state host.new) }
{
    let options = &words.options;
    let mut made = Made::new(alloc);
    match try_seeds(alloc, &mut board, options, &mut made, host) {
        Ok(Some(found)) => {
            let count = found.seed - options.seed + 1;
            let head = head(&options.config, image, input);
            match texts(alloc, words, &head, count, found, &made) {
                Ok(texts) => Ok(Some(texts)),
                Err(NoMemory) => Err(NoMemory),
            }
        }
        Ok(None) => Ok(None),
        Err(NoMemory) => Err(NoMemory),
    }
}

// How a hunt from an opened board ends.
fn hunt_on<'a, H: Host>(
    alloc: Global,
    words: &Hunt<'a>,
    files: &[Vec<u8>],
    board: Board,
    host: &mut H,
) -> Outcome<'a>
    requires names { AreWritten (hunt_names words.now) }
    requires fits { Fits words.now.options.config }
    requires range { FitsHunt words.now.options }
    requires sound { elf_fault (image_of (bytes_of files.now)) (ram_bytes words.now.options.config) ≡ None }
    requires board { IsBoard board.cores board.bus (hunt_start words.now.options (bytes_of files.now)) }
    ensures { HuntGoesOn (hunt_names words.now) words.now.options (bytes_of files.now) (end_of result) (H.state host.old) (H.state host.new) }
{
    match make(alloc, words, image_in(files), input_in(files), board, host) {
        Ok(Some(texts)) => write_recorded(
            words.schedule,
            words.report,
            texts.recording.as_slice(),
            texts.report.as_slice(),
            texts.told.as_slice(),
            host,
        ),
        Ok(None) => Outcome::Refused(Refusal::NoFailure {
            tries: words.options.tries,
        }),
        Err(NoMemory) => Outcome::NoMemory,
    }
}

// How a hunt on files that were loaded ends.
fn finish<'a, H: Host>(
    alloc: Global,
    words: &Hunt<'a>,
    files: &[Vec<u8>],
    host: &mut H,
) -> Outcome<'a>
    requires names { AreWritten (hunt_names words.now) }
    requires fits { Fits words.now.options.config }
    requires range { FitsHunt words.now.options }
    requires limit { length (image_of (bytes_of files.now)) ≤ IMAGE_LIMIT }
    ensures { HuntGoesOn (hunt_names words.now) words.now.options (bytes_of files.now) (end_of result) (H.state host.old) (H.state host.new) }
{
    match open(
        alloc,
        &words.options.config,
        image_in(files),
        input_in(files),
    ) {
        Ok(board) => hunt_on(alloc, words, files, board, host),
        Err(fault) => refused(words.image, fault),
    }
}

/// Looks for a schedule on which a program fails: loads the image and the input, tries the seeds in order, each from the board
/// before its first turn, and writes the recording of the first seed's schedule on which a core fails, with its report, and to
/// standard output which seed it was and which cores fail.
pub fn hunt<'a, H: Host>(alloc: Global, words: &Hunt<'a>, host: &mut H) -> Outcome<'a>
    requires names { AreWritten (hunt_names words.now) }
    requires fits { Fits words.now.options.config }
    requires range { FitsHunt words.now.options }
    ensures { HuntEnds (hunt_names words.now) words.now.options (end_of result) (H.state host.old) (H.state host.new) }
{
    let mut files = Loaded::new_in(alloc);
    match load_image(alloc, host, words.image, words.input, &mut files) {
        Ok(()) => finish(alloc, words, files.as_slice(), host),
        Err(LoadStop::Unread(name)) => Outcome::Unread(name),
        Err(LoadStop::TooLong(name, limit)) => Outcome::TooLong(name, limit),
        Err(LoadStop::NoMemory) => Outcome::NoMemory,
    }
}
