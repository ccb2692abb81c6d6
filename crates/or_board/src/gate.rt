//! What a worker passes before each of its stays at the bus.

/// What a worker passes before it begins a stay at the bus.
pub trait Gate {
    /// Returns when the core may make its next stay; `stay` counts this core's stays from 0.
    fn pass(&self, core: u32, stay: u64);

    /// Whether the gate is to be passed before each turn: each stay then has one turn. A gate that waits for other cores asks for
    /// this, since a core inside a stay passes no gate.
    fn single_turns(&self) -> bool;
}

/// It returns at once.
pub struct OpenGate;

impl Gate for OpenGate {
    fn pass(&self, _core: u32, _stay: u64) {}

    fn single_turns(&self) -> bool {
        false
    }
}
