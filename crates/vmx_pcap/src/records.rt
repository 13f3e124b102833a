//! The records of a capture. A record is a frame and the time of its capture; the bytes after the last whole
//! record are the capture's tail.

use vmx_io::{Bytes, List};

/// A frame and the time of its capture, in seconds since 1970 and microseconds.
#[derive(Drop)]
pub struct Stamped {
    pub seconds: u32,
    /// The fraction as it stands in the record: no check keeps it below 1,000,000.
    pub micros: u32,
    /// The captured bytes, which may be fewer than the frame had.
    pub frame: Bytes,
}

/// The whole records of a capture in order, and the number of bytes after the last of them.
#[derive(Drop)]
pub struct Capture {
    pub records: List<Stamped>,
    /// In bytes. Above 0 where the last record is cut.
    pub tail: u32,
}
