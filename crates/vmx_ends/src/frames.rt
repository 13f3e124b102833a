//! Frames as the views of ends and the rules of tables see them. No value of these types is made.
use crate::{RxMeta, TxMark};
use std::collections::LinkedList;

/// A frame that a driver posted, with its mark.
pub struct Sent {
    pub frame: LinkedList<u8>,
    pub mark: TxMark,
}

/// A frame that a device took, and how many descriptors it found for it.
pub struct Taken {
    pub sent: Sent,
    pub descriptors: u32,
}

/// A frame that a device delivered.
pub struct Delivery {
    pub frame: LinkedList<u8>,
    pub meta: RxMeta,
    /// BODY descriptors of ring 1 that were passed over before the head.
    pub passed: u64,
    /// The ring, 1 or 2, and the position of each piece.
    pub chain: LinkedList<(u32, u64)>,
}
