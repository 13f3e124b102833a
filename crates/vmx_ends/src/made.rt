//! What queues are made with. Both ends of a queue, their notes and the facts show it.
use crate::QueueName;
use std::collections::LinkedList;

/// A transmit queue: descriptors in its ring, and bytes of a piece, 576 to 4,096.
#[derive(Clone, Copy, Debug, PartialEq, Eq)]
pub struct TxMade {
    pub name: QueueName,
    /// Descriptors, 32 to 4,096 in steps of 32. The completion ring has as many.
    pub size: u32,
    pub piece: u32,
    /// The first 128 bytes of a frame are a piece of their own.
    pub with_data: bool,
    /// A driver stands behind it, and all its descriptors were free at the start.
    pub full: bool,
}

/// Which descriptors of ring 1 are BODY. No value of `Given` is made.
pub enum Bodies {
    /// So many behind each HEAD, by index.
    Every { bodies: u32 },
    /// Those of which this list says so, by index.
    Given { kinds: LinkedList<bool> },
}

/// A receive queue, as contracts see it. No value of it is made.
pub struct RxMade {
    pub name: QueueName,
    /// Receive queues of the guest, 1 to 8.
    pub queues: u32,
    /// Descriptors of ring 1 and of ring 2, each 32 to 4,096 in steps of 32. The completion ring has as many as both.
    pub size1: u32,
    pub size2: u32,
    pub bodies: Bodies,
    /// A short frame lies in a data ring.
    pub with_data: bool,
    /// All descriptors were the device's at the start.
    pub full: bool,
}

/// A receive queue that is made full, with so many BODY descriptors, 0 to 2, behind each HEAD of ring 1.
#[derive(Clone, Copy, Debug, PartialEq, Eq)]
pub struct RxShape {
    pub name: QueueName,
    pub queues: u32,
    pub size1: u32,
    pub size2: u32,
    pub bodies: u32,
    pub with_data: bool,
}
