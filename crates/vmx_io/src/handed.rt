//! What may be handed over in a bag.
//!
//! A set of registers carries a bag from a driver to a device and back. Of what lies in it the registers know only what
//! `handed` tells: numbers, in which the one side finds again what the other did.
use std::collections::LinkedList;

/// What contracts see of the queue ends in a bag, as plain data. No value of it is made.
pub struct HandedView {
    /// The key of each end.
    pub keys: LinkedList<LinkedList<u64>>,
    /// What each end did, as numbers that determine it: its frames, and the looks that it refused.
    pub lists: LinkedList<LinkedList<u64>>,
    /// How many of them are transmit ends.
    pub tx: u64,
    /// How many of them are receive ends.
    pub rx: u64,
    /// Whether any of them stands over given words.
    pub given: bool,
    /// Whether no end is in the middle of a frame, and each has heard as many notes as it has given.
    pub whole: bool,
    /// Whether no end has taken, completed, delivered or refused a frame.
    pub fresh: bool,
}

/// What a bag may hold beside its image.
pub trait Handed: Drop + Send {
    ghost use Rattle.vmx_io.specs.declared.handed.HandedView.{HandedView};

    ghost handed: { Self → HandedView };
}
