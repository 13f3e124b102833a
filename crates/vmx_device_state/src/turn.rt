//! What was told over the registers, as plain data. No value of a view is made: views stand in contracts alone.
//! A bag goes over with a command and comes back with its answer; of the queue ends in it a view has what `vmx_io::Handed`
//! tells of them.

use std::collections::LinkedList;
use vmx_io::HandedView;

/// A command, and what its bag held.
pub struct CommandView {
    /// The number that was written into the register CMD, below 2^32.
    pub number: u64,
    /// The bytes of the image.
    pub image: LinkedList<u8>,
    /// The queue ends, where the bag had some.
    pub ends: Option<HandedView>,
}

/// An answer, and what its bag held.
pub struct AnswerView {
    /// The value that is read from the register CMD, below 2^32.
    pub value: u64,
    /// The bytes of the image.
    pub image: LinkedList<u8>,
    /// The queue ends, where the bag had some.
    pub ends: Option<HandedView>,
}

/// A turn: a command with its answer.
pub struct Turn {
    pub command: CommandView,
    pub answer: AnswerView,
}

/// How many transmit and receive ends a bag holds.
#[derive(Clone, Copy, Debug, PartialEq, Eq)]
pub struct EndCounts {
    pub tx: u64,
    pub rx: u64,
}
