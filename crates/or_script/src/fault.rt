//! Why a script is refused.
ghost use Rattle.std.specs.Prelude.{◌≡◌, Some};
ghost use Rattle.or_text.specs.Sentences.{sentence_text};
ghost use Rattle.or_script.specs.Script.{number_of_fault, line_of_fault};
ghost use Rattle.or_script.specs.Sentences.{script_sentence};

use or_text::Sentence;
use std::alloc::AllocError;
use thiserror::Error;

/// Why a script is refused. Lines count from 1.
#[derive(Clone, Copy, Debug, PartialEq, Eq, Error)]
pub enum ScriptFault {
    /// The line has none of the forms.
    #[error("line {line}: bad command")]
    BadCommand { line: u32 },
    /// A number is out of its range, or the line gives a 17th breakpoint, watchpoint or store point.
    #[error("line {line}: out of range")]
    OutOfRange { line: u32 },
    /// Memory ran out.
    #[error("no memory")]
    NoMemory,
}

impl ScriptFault {
    /// The number of the fault, 1 to 3 in the order of the variants.
    pub fn number(self) -> u32
        ensures { result ≡ number_of_fault self }
    {
        match self {
            ScriptFault::BadCommand { .. } => 1,
            ScriptFault::OutOfRange { .. } => 2,
            ScriptFault::NoMemory => 3,
        }
    }

    /// The line of the fault, counted from 1, or none for want of memory.
    pub fn line(self) -> Option<u32>
        ensures { result ≡ line_of_fault self }
    {
        match self {
            ScriptFault::BadCommand { line } | ScriptFault::OutOfRange { line } => Some(line),
            ScriptFault::NoMemory => None,
        }
    }

    /// What the fault says to people.
    pub fn sentence(self) -> Sentence<'static>
        ensures { sentence_text result ≡ script_sentence self }
    {
        match self {
            ScriptFault::BadCommand { .. } => Sentence::plain(
                "the line has none of the forms of a command",
            ),
            ScriptFault::OutOfRange { .. } => Sentence::plain(
                "a core, an address or a number is out of its range, or it is a 17th breakpoint, watchpoint or store point",
            ),
            ScriptFault::NoMemory => Sentence::plain("the system gave no more memory"),
        }
    }
}

impl From<AllocError> for ScriptFault {
    ghost use Rattle.or_script.specs.declared.fault.ScriptFault.TheVariants.{NoMemory};

    ghost from_gives = { λ _ e. e ≡ NoMemory };

    fn from(_error: AllocError) -> Self {
        ScriptFault::NoMemory
    }
}
