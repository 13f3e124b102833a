//! What a turn of an actor came to.

/// A device answers the first two alone.
#[derive(Clone, Copy, Debug, PartialEq, Eq)]
pub enum Turn {
    /// A look found something.
    Worked,
    /// No look found anything.
    Idle,
    /// A driver has nothing left to do until it is closed.
    Drained,
    /// A driver is quiet, and all its queue ends have met.
    Ended,
}
