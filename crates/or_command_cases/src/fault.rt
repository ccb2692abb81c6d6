// What ends the program before its last case.
use or_words::NoMemory;
use std::alloc::{AllocError, AllocFailed};
use std::io;
use thiserror::Error;

#[derive(Debug, Drop, Error)]
pub(crate) enum CaseFault {
    #[error("memory ran out")]
    NoMemory,
    #[error("a file was not read or the output was not written")]
    Outside,
    #[error("a line has no form of a case")]
    Form,
}

impl From<AllocError> for CaseFault {
    fn from(_: AllocError) -> Self {
        CaseFault::NoMemory
    }
}

impl<T: Drop> From<AllocFailed<T>> for CaseFault {
    fn from(_: AllocFailed<T>) -> Self {
        CaseFault::NoMemory
    }
}

impl From<NoMemory> for CaseFault {
    fn from(_: NoMemory) -> Self {
        CaseFault::NoMemory
    }
}

impl From<io::Error> for CaseFault {
    fn from(_: io::Error) -> Self {
        CaseFault::Outside
    }
}
