//! What may cross from thread to thread.

use crate::shared::Shared;
use crate::unit::TurnUnit;

// Its callers show that threads may share a value of the type.
fn is_shared<T: Sync>(_value: &T) {}

// Its callers show that a value of the type may move to another thread.
fn is_moved<T: Send>(_value: &T) {}

/// Threads may share a `Shared`, and a `TurnUnit` may move between them. The function does nothing: that its calls are allowed is what
/// it shows.
pub fn may_cross_threads(shared: &Shared, unit: &TurnUnit) {
    is_shared(shared);
    is_moved(unit);
}
