//! The frames of captured records through one transmit queue, as a driver sends them that leaves TCP checksums to its device.
//!
//! A frame with a TCP segment is seeded and posted with its mark; the device takes it, fills in the checksum that the mark
//! asks for and completes it. So one frame is under way at a time, and each is filled in where it lies. Frames without a
//! segment stay as they are and are not sent; frames above 9,022 bytes are given up.
#![tactic(auto)]

mod carrying;
mod counts;
mod filling;
mod writing;

pub use counts::{Counts, MAX_RECORDS};
pub use writing::{WrittenRecords, fill_all};
