//! Captures in the classic pcap format: version 2.4, link type Ethernet, in either byte order, stamped in microseconds or
//! nanoseconds.
//!
//! `read` gives the whole records of a capture and the length of a cut last one, or answers the first check that fails.
//! `write` gives the capture of records, little-endian and in microseconds, which `read` gives back.
#![tactic(auto)]

mod encoding;
mod fault;
mod fields;
mod format;
mod kinds;
mod reader;
mod records;
mod writer;

pub use fault::CaptureFault;
pub use format::{MAX_CAPTURE, MAX_CAPTURED, SNAP_LENGTH};
pub use reader::read;
pub use records::{Capture, Stamped};
pub use writer::{CaptureWriter, write, write_over};

#[cfg(test)]
mod tests;
