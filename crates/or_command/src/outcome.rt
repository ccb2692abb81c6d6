// What a command comes to.
use crate::Refusal;

/// How a command ended.
#[derive(Clone, Copy)]
pub enum Outcome<'a> {
    /// All was done: status 0.
    Done,
    /// The file of this name was not read: status 5.
    Unread(&'a str),
    /// The file of this name holds more bytes than this limit: status 8.
    TooLong(&'a str, usize),
    /// A check failed: the status is the refusal's.
    Refused(Refusal<'a>),
    /// The file of this name, or standard output for `-`, was not written: status 6.
    Unwritten(&'a str),
    /// Memory ran out: status 7.
    NoMemory,
}
