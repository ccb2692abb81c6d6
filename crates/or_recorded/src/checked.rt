//! The checks of a recorded run, in their order: the recording's text, the digests of the image and of the input, the image,
//! and then the turns with their marks.
ghost use Rattle.std.specs.Prelude.{◌≡◌, ◌≢◌, ◌≤◌, ◌⊎◌, ◌/◌, [], ℕ, List, Some, None, Err, true, false, IfOk, MatchResult, length};
ghost use Rattle.or_words.specs.declared.limits.TheConstants.{IMAGE_LIMIT};
ghost use Rattle.sha2.specs.Sha256.{sha256};
ghost use Rattle.or_words.specs.Settings.{Fits, ram_bytes};
ghost use Rattle.or_elf.specs.Fault.{elf_fault};
ghost use Rattle.or_sched.specs.Recording.{IsRecording};
ghost use Rattle.or_model.specs.Turn.{Board as BoardModel};
ghost use Rattle.or_replay.specs.Start.{start};
ghost use Rattle.or_replay.specs.Opening.{FailsToOpen};
ghost use Rattle.or_replay.specs.Board.{IsBoard};
ghost use Rattle.or_replay.specs.Following.{IsFollowed, IsFollowable};
ghost use Rattle.or_recorded.specs.Checked.{TextFault, IsFirstFault, IsOfRun, IsTurnFault, AreOfBlocks, IsRunOpened, IsRunChecked};
ghost use Rattle.or_recorded.specs.declared.checked.Checked.{Checked as CheckedModel};

use or_command::Digests;
use or_command_image::input_for_board;
use or_elf::ElfFault;
use or_replay::{Board, OpenFault, TurnFault, Watcher};
use or_sched::{Head, Mark, Reader, RecFault};
use or_words::Config;
use sha2::{Digest, Sha256};
use std::alloc::Global;

/// The first check of a recorded run that fails.
#[derive(Clone, Copy)]
pub enum RunFault {
    /// The recording's text, which ends too early or has this fault; never NoMemory.
    Text(RecFault),
    /// Memory ran out while the text was read.
    NoMemoryForText,
    /// The digest of the image.
    Image(Digests),
    /// The digest of the input.
    Input(Digests),
    /// The image has this fault.
    Elf(ElfFault),
    /// The turns can't be followed.
    Turns(TurnFault),
    /// Memory ran out behind the checks of the digests and of the image.
    NoMemory,
}

/// What a recording tells: the settings and digests, the turns, and the marks of their blocks, which version 1 has not.
#[derive(Drop)]
pub struct Recording {
    pub head: Head,
    pub turns: Vec<u8>,
    pub marks: Vec<Mark>,
}

/// A recorded run: its recording, and its board, before the first turn or, once its checks have passed, behind the last.
#[derive(Drop)]
pub struct Checked {
    pub recording: Recording,
    pub board: Board,
}

impl Checked {
    /// The recording alone, for a command that makes its turns again.
    pub(crate) fn into_recording(self) -> Recording
        ensures { result ≡ self.recording }
    {
        let Checked { recording, board } = self;
        let _ended = board;
        recording
    }
}

/// Makes the checks of a recorded run up to its turns, and opens its board.
///
/// Errors: the first check that fails; NoMemory.
pub(crate) fn open_run(
    alloc: Global,
    image: &[u8],
    input: &[u8],
    text: &[u8],
) -> Result<Checked, RunFault>
    requires limit { length image.now ≤ IMAGE_LIMIT }
    ensures run { MatchResult result (λ run. IsRunOpened image.now input.now text.now run) (λ fault. IsFirstFault image.now input.now text.now fault) }
    ensures fits { IfOk result (λ run. Fits run.recording.head.config) }
{
    match read(alloc, text) {
        Ok(recording) => check_digests(alloc, recording, image, input),
        Err(RecFault::NoMemory) => Err(RunFault::NoMemoryForText),
        Err(fault) => Err(RunFault::Text(fault)),
    }
}

// Reads a recording.
#[tactic(auto, using(crate::proofs::Recorded::recorded))]
fn read(alloc: Global, text: &[u8]) -> Result<Recording, RecFault>
    ensures read { MatchResult result (λ read. IsRecording text.now read.head read.turns.items read.marks.items) (λ fault. TextFault text.now fault) }
    ensures fits { IfOk result (λ read. Fits read.head.config) }
    ensures marks { IfOk result (λ read. AreOfBlocks read.turns.items read.marks.items) }
{
    let mut turns = Vec::new(alloc);
    let mut marks = Vec::new(alloc);
    let mut reader = Reader::new();
    let _ = reader.feed(text, &mut turns, &mut marks);
    match reader.finish() {
        Ok(()) => {
            let head = reader.head().unwrap();
            Ok(Recording { head, turns, marks })
        }
        Err(fault) => Err(fault),
    }
}

// The checks behind the text.
fn check_digests(
    alloc: Global,
    recording: Recording,
    image: &[u8],
    input: &[u8],
) -> Result<Checked, RunFault>
    requires limit { length image.now ≤ IMAGE_LIMIT }
    requires fits { Fits recording.head.config }
    ensures run { (text : List ℕ) → IsRecording text recording.head recording.turns.items recording.marks.items
        → MatchResult result (λ run. IsRunOpened image.now input.now text run) (λ fault. IsFirstFault image.now input.now text fault) }
    ensures fits { IfOk result (λ run. Fits run.recording.head.config) }
{
    match compare(recording.head.image, image) {
        Err(digests) => Err(RunFault::Image(digests)),
        Ok(()) => match compare(recording.head.input, input) {
            Err(digests) => Err(RunFault::Input(digests)),
            Ok(()) => check_image(alloc, recording, image, input),
        },
    }
}

// Compares the digest of a file with the recorded one.
fn compare(recorded: [u8; 32], file: &[u8]) -> Result<(), Digests>
    ensures { MatchResult result (λ _. recorded ≡ sha256 file.now)
        (λ digests. (digests.recorded ≡ recorded) × (digests.found ≡ sha256 file.now) × (recorded ≢ sha256 file.now)) }
{
    let found = Sha256::digest(file);
    if recorded == found {
        return Ok(());
    }
    Err(Digests { recorded, found })
}

// The check behind the digests.
fn check_image(
    alloc: Global,
    recording: Recording,
    image: &[u8],
    input: &[u8],
) -> Result<Checked, RunFault>
    requires limit { length image.now ≤ IMAGE_LIMIT }
    requires fits { Fits recording.head.config }
    ensures run { (text : List ℕ) → IsOfRun image.now input.now text recording.head recording.turns.items recording.marks.items
        → MatchResult result (λ run. IsRunOpened image.now input.now text run) (λ fault. IsFirstFault image.now input.now text fault) }
    ensures fits { IfOk result (λ run. Fits run.recording.head.config) }
{
    match open_board(alloc, &recording.head.config, image, input) {
        Ok(board) => Ok(Checked { recording, board }),
        Err(OpenFault::Elf(fault)) => Err(RunFault::Elf(fault)),
        Err(OpenFault::NoMemory) => Err(RunFault::NoMemory),
    }
}

/// The board at the start of a run. Errors: Elf exactly where the image has this fault; NoMemory.
pub(crate) fn open_board(
    alloc: Global,
    config: &Config,
    image: &[u8],
    input: &[u8],
) -> Result<Board, OpenFault>
    requires limit { length image.now ≤ IMAGE_LIMIT }
    requires fits { Fits config.now }
    ensures board { MatchResult result
        (λ board. (elf_fault image.now (ram_bytes config.now) ≡ None) × IsBoard board.cores board.bus (start config.now image.now input.now))
        (λ fault. FailsToOpen image.now (ram_bytes config.now) fault) }
    ensures config { IfOk result (λ board. board.config ≡ config.now) }
{
    match input_for_board(alloc, config, image, input) {
        Ok(bytes) => match Board::open(alloc, config, image, bytes) {
            Ok(board) => Ok(board),
            Err(fault) => Err(fault),
        },
        Err(fault) => Err(fault),
    }
}

/// Follows the turns with their marks; each turn is made by `watcher`.
pub(crate) fn follow<W: Watcher>(run: Checked, watcher: &mut W) -> Result<Checked, TurnFault>
    requires opened { (image : List ℕ) × (input : List ℕ) × (text : List ℕ) × IsRunOpened image input text run }
    requires seen { (first : BoardModel) × W.Sees watcher.old first run.recording.turns.items 0 run.board.cores run.board.bus }
    ensures run { (image input text : List ℕ) → IsRunOpened image input text run
        → MatchResult result (λ ended. IsRunChecked image input text ended) (λ fault. IsTurnFault image input text fault) }
    ensures recording { IfOk result (λ ended. ended.recording ≡ run.recording) }
    ensures seen { IfOk result (λ ended. (first : BoardModel) → W.Sees watcher.old first run.recording.turns.items 0 run.board.cores run.board.bus
        → W.Sees watcher.new first run.recording.turns.items (length run.recording.turns.items) ended.board.cores ended.board.bus) }
    ensures kept { (image : List ℕ) → W.Keeps watcher.old image → W.Keeps watcher.new image }
{
    let Checked {
        recording,
        mut board,
    } = run;
    match board.follow_watched(&recording.turns, &recording.marks, watcher) {
        Ok(()) => Ok(Checked { recording, board }),
        Err(fault) => Err(fault),
    }
}
