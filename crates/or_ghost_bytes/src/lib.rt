//! What a slice showed, for clauses alone.
#![tactic(auto)]

ghost use Rattle.std.specs.Prelude.{◌≡◌, List, ℕ};
ghost use base.Fml.{ftrue};

use std::marker::{Model, PhantomData};

/// The bytes that a slice showed. It takes no memory, and lives as long as its owner likes.
pub struct GhostBytes {
    marker: PhantomData<()>,
    pub ghost bytes: { List ℕ },
}

impl Model for GhostBytes {
    ghost also_owns = { λ _. ftrue };
}

impl GhostBytes {
    /// What this slice shows.
    pub fn of(bytes: &[u8]) -> GhostBytes
        ensures { result.bytes ≡ bytes.now }
    {
        let _ = bytes;
        GhostBytes {
            marker: PhantomData,
        }
    }
}

impl Drop for GhostBytes {
    fn drop(self) {
        let Self { marker: _ } = self;
    }
}

unsafe impl Send for GhostBytes {}

unsafe impl Sync for GhostBytes {}
