//! Accesses to RAM, as the bus tells the last of them.

/// How a core went to RAM.
#[derive(Clone, Copy, Debug, PartialEq, Eq)]
pub enum AccessKind {
    /// A load.
    Load,
    /// A store.
    Store,
    /// A load that reserves its word (l.lwa).
    Linked,
    /// A store that a reservation let through (l.swa).
    Conditional,
}

/// An access to RAM by a core: the address of its word, a multiple of four, and how it went.
#[derive(Clone, Copy, Debug, PartialEq, Eq)]
pub struct Access {
    pub core: u32,
    pub word: u32,
    pub kind: AccessKind,
}
