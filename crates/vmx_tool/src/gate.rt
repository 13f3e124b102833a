//! A place where a test can hold an actor of a replay.
//!
//! Actor `2g` is the driver of guest `g`, and actor `2g + 1` its device. No actor runs yet, so no gate is called.

/// Is called before each turn of an actor. It has no meaning.
pub trait Gate {
    /// `turn` counts the actor's turns from 0.
    fn at(&self, actor: u32, turn: u64);
}

/// Holds nothing.
#[derive(Clone, Copy, Debug)]
pub struct NoGate;

impl Gate for NoGate {
    fn at(&self, _actor: u32, _turn: u64) {}
}
