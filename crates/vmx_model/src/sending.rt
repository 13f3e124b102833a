//! The verdict on a captured frame: whether its guest sends it, and where.

/// What becomes of a captured frame before any queue.
#[derive(Clone, Copy, Debug, PartialEq, Eq)]
pub enum Sending {
    /// The guest's driver is quiesced.
    Down,
    /// The frame has fewer than 14 bytes.
    Short,
    /// The frame has more than 18 bytes above the MTU.
    TooLong,
    /// The frame is sent: in this activation, counted from 0, on this transmit queue, with so many frames sent there before it.
    Sent {
        activation: u32,
        queue: u32,
        place: u64,
    },
}
