// A reader of recordings, of both versions, in pieces of any lengths.
ghost use Rattle.std.specs.Prelude.{◌≡◌, ◌+◌, ◌%◌, ◌^◌, ◌++◌, ◌∷◌, ◌*◌, [], replicate, List, ℕ, MatchResult, MatchOption};
ghost use Rattle.or_sched.specs.declared.recording.Mark.{Mark};
ghost use Rattle.or_sched.specs.declared.recording.RecFault.{RecFault};
ghost use Rattle.or_sched.specs.declared.state.State.{State};
ghost use Rattle.or_sched.specs.HeadPlaces.{HasSettings};
ghost use Rattle.or_sched.specs.Places.{ends_at, IsSound};
ghost use Rattle.or_sched.specs.Recording.{IsReadable};
ghost use Rattle.or_sched.specs.Reading.{limits_of, first_of, first_block_of, IsAt, IsFront, HasRead, HasFailed, kept_head, HeadIs, HeadFed, Fed, AnswerIs, IsReading, Tells, Stays, StaysFailed, FinishIs};

use crate::head::{HeadPlace, HeadStep, Known, Literal, head_step, line};
use crate::places::{Block, Limits, Place, Step};
use crate::recording::{Head, Mark, RecFault};
use crate::state::{Body, Heading, State};
use crate::step::step;
use or_words::limits::BLOCK;
use std::alloc::AllocError;

/// A reader of a recording in version 1 or 2, which keeps neither its bytes nor its turns.
#[derive(Drop)]
pub struct Reader {
    pub(crate) head: Option<Head>,
    pub(crate) state: State,
}

impl Reader {
    /// A reader that has been fed nothing.
    pub fn new() -> Reader
        ensures { HasRead result [] [] [] }
    {
        Reader {
            head: None,
            state: State::Head(Heading {
                known: Known::nothing(),
                place: HeadPlace::Text(Literal::Orsched, 0),
                count: 0,
            }),
        }
    }

    /// The head of the recording: None exactly until its fourth line has ended.
    pub fn head(&self) -> Option<Head>
        ensures kept { result ≡ kept_head self.now }
        // It is that of each recording that begins as the bytes do, up to a fault.
        ensures exact { (bytes turns front : List ℕ) (marks : List Mark) → HasRead self.now bytes turns marks → IsReadable bytes front → HeadIs result front }
    {
        self.head
    }

    /// Whether the bytes that were fed are a recording. Short is answered where they are the beginning of one and none
    /// yet; any other fault is one that a feed answered.
    pub fn finish(&self) -> Result<(), RecFault>
        ensures exact { (bytes turns : List ℕ) (marks : List Mark) → HasRead self.now bytes turns marks → FinishIs self.now bytes turns marks result }
        ensures failed { (fault : RecFault) → HasFailed self.now fault → result ≡ Err fault }
    {
        match self.state {
            State::Head(_) => Err(RecFault::Short),
            State::Body(body) => {
                if is_end(body.place) {
                    Ok(())
                } else {
                    Err(RecFault::Short)
                }
            }
            State::Failed(fault) => Err(fault),
        }
    }

    /// Reads a piece of the text, appends the turns of the runs and the marks that end in it, and answers the number of
    /// these turns. How the text is cut into pieces makes no difference.
    ///
    /// BadHead or BadRun comes exactly at the first byte after which no recording goes on; what ended before it is
    /// appended. NoMemory leaves beginnings of the turns and of the marks appended. Each later call answers the fault that
    /// was answered, and changes nothing.
    pub fn feed(
        &mut self,
        piece: &[u8],
        out: &mut Vec<u8>,
        marks: &mut Vec<Mark>,
    ) -> Result<usize, RecFault>
        ensures fed { Fed self.old self.new piece.now out.old.items out.new.items marks.old.items marks.new.items }
        ensures exact { Tells self.new result out.old.items out.new.items }
        ensures failed { StaysFailed self.old self.new out.old.items out.new.items marks.old.items marks.new.items result }
    {
        let before = out.len();
        match self.read_piece(piece, out, marks) {
            Ok(()) => Ok(out.len() - before),
            Err(fault) => Err(fault),
        }
    }

    fn read_piece(
        &mut self,
        piece: &[u8],
        out: &mut Vec<u8>,
        marks: &mut Vec<Mark>,
    ) -> Result<(), RecFault>
        ensures fed { Fed self.old self.new piece.now out.old.items out.new.items marks.old.items marks.new.items }
        ensures answer { AnswerIs self.new result }
        ensures failed { (fault : RecFault) → HasFailed self.old fault → Stays self.old self.new out.old.items out.new.items marks.old.items marks.new.items }
    {
        match self.failure() {
            Some(fault) => return Err(fault),
            None => {}
        }
        for byte in piece {
            match self.read(*byte, out, marks) {
                Ok(()) => {}
                Err(fault) => return Err(fault),
            }
        }
        Ok(())
    }

    // The fault that was answered.
    fn failure(&self) -> Option<RecFault>
        ensures { MatchOption result (IsReading self.now.state) (λ fault. HasFailed self.now fault) }
    {
        match self.state {
            State::Failed(fault) => Some(fault),
            _ => None,
        }
    }

    fn read(&mut self, byte: u8, out: &mut Vec<u8>, marks: &mut Vec<Mark>) -> Result<(), RecFault>
        ensures fed { Fed self.old self.new (byte ∷ []) out.old.items out.new.items marks.old.items marks.new.items }
        ensures answer { AnswerIs self.new result }
    {
        match self.state {
            State::Head(heading) => self.read_head(heading, byte),
            State::Body(body) => self.read_body(body, byte, out, marks),
            State::Failed(fault) => Err(fault),
        }
    }

    fn read_head(&mut self, heading: Heading, byte: u8) -> Result<(), RecFault>
        requires { self.old.state ≡ State.Head heading }
        ensures fed { HeadFed self.old self.new byte }
        ensures answer { AnswerIs self.new result }
    {
        let count = next_count(heading.count);
        match head_step(heading.known, heading.place, byte) {
            HeadStep::Refused => self.fail(RecFault::BadHead {
                line: line(heading.place),
            }),
            HeadStep::Goes(HeadPlace::Behind, known) => {
                self.head = Some(known.head());
                self.state = State::Body(first_place(&known, count));
                Ok(())
            }
            HeadStep::Goes(place, known) => {
                self.state = State::Head(Heading {
                    known,
                    place,
                    count,
                });
                Ok(())
            }
        }
    }

    fn read_body(
        &mut self,
        body: Body,
        byte: u8,
        out: &mut Vec<u8>,
        marks: &mut Vec<Mark>,
    ) -> Result<(), RecFault>
        requires { self.old.state ≡ State.Body body }
        ensures fed { Fed self.old self.new (byte ∷ []) out.old.items out.new.items marks.old.items marks.new.items }
        ensures answer { AnswerIs self.new result }
    {
        match step(&body.limits, body.place, byte) {
            Step::Refused => self.fail(RecFault::BadRun { at: body.count }),
            Step::Goes(next) => {
                self.go(body, next);
                Ok(())
            }
            Step::EndsRun(core, turns, next) => match push_run(core, turns, out) {
                Ok(()) => {
                    self.go(body, next);
                    Ok(())
                }
                Err(_) => self.fail(RecFault::NoMemory),
            },
            Step::EndsMark(mark, next) => match push_mark(mark, marks) {
                Ok(()) => {
                    self.go(body, next);
                    Ok(())
                }
                Err(_) => self.fail(RecFault::NoMemory),
            },
        }
    }

    fn go(&mut self, body: Body, next: Place)
        requires { IsSound body.limits next }
        ensures head { self.new.head ≡ self.old.head }
        ensures state { IsAt self.new.state body.limits next ((body.count + 1) % 2 ^ 64) }
    {
        self.state = State::Body(Body {
            limits: body.limits,
            place: next,
            count: next_count(body.count),
        });
    }

    fn fail(&mut self, fault: RecFault) -> Result<(), RecFault>
        ensures head { self.new.head ≡ self.old.head }
        ensures state { self.new.state ≡ State.Failed fault }
        ensures answer { result ≡ Err fault }
    {
        self.state = State::Failed(fault);
        Err(fault)
    }
}

// The first place behind the head.
fn first_place(known: &Known, count: u64) -> Body
    requires { HasSettings known.now }
    ensures limits { result.limits ≡ limits_of known.now }
    ensures place { result.place ≡ first_of known.now }
    ensures count { result.count ≡ count }
{
    let turns = u64::from(known.cores) * u64::from(known.budget);
    let limits = Limits {
        cores: known.cores as u8,
        turns,
        block: BLOCK as u64,
    };
    Body {
        limits,
        place: Place::First(first_block(known.version, turns)),
        count,
    }
}

// In version 1 all turns stand in one block, and no mark behind it.
fn first_block(version: u8, turns: u64) -> Block
    ensures { result ≡ first_block_of version turns }
{
    if version == 1 {
        return Block {
            left: turns,
            behind: None,
        };
    }
    if turns < BLOCK as u64 {
        return Block {
            left: turns,
            behind: None,
        };
    }
    Block {
        left: BLOCK as u64,
        behind: Some(turns - BLOCK as u64),
    }
}

// Whether nothing need follow.
fn is_end(place: Place) -> bool
    ensures { result ≡ ends_at place }
{
    match place {
        Place::Line(_, _) | Place::Done => true,
        _ => false,
    }
}

// A text is shorter than 2 ^ 64, so this is one more while one is read.
fn next_count(count: u64) -> u64
    ensures { result ≡ (count + 1) % 2 ^ 64 }
{
    count.wrapping_add(1)
}

fn push_mark(mark: Mark, marks: &mut Vec<Mark>) -> Result<(), AllocError>
    ensures { MatchResult result (λ _. marks.new.items ≡ marks.old.items ++ mark ∷ []) (λ _. marks.new.items ≡ marks.old.items) }
{
    marks.push(mark)?;
    Ok(())
}

// Where memory runs out, a part of the turns is appended.
fn push_run(core: u8, turns: u64, out: &mut Vec<u8>) -> Result<(), AllocError>
    ensures { MatchResult result (λ _. out.new.items ≡ out.old.items ++ replicate turns core)
        (λ _. (part : List ℕ) × (out.new.items ≡ out.old.items ++ part) × IsFront part (replicate turns core)) }
{
    let mut left = turns;
    while left > 0 {
        match out.push(core) {
            Ok(()) => {}
            Err(_) => return Err(AllocError),
        }
        left -= 1;
    }
    Ok(())
}
