//! A row of the table.

use vmx_model::Fate;

/// A copy of a captured frame and what became of it.
#[derive(Clone, Copy, Debug, PartialEq, Eq)]
pub struct FrameCopy {
    /// The port of the guest that captured the frame.
    pub sender: u32,
    /// The frame's number in its capture, counted from 0.
    pub number: u32,
    /// The port that the copy was for; a frame that is not sent, or has no target, counts as one copy without.
    pub target: Option<u32>,
    pub fate: Fate,
}
