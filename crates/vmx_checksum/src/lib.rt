//! TCP checksum offload on the device's side: where a frame's TCP segment lies, the seed that a driver leaves in the
//! checksum field, the checksum that a device fills in, and what a device tells of a received frame's checksum.
//!
//! A checksum is the complement of a ones' complement sum over the segment and a pseudo header (RFC 1071, RFC 9293,
//! RFC 8200). The driver sums the pseudo header and stores that sum in the field; the device sums the segment as it
//! stands, field and all, and stores the complement. So the device need not know of addresses. No call takes memory.
#![tactic(auto)]

mod answer;
mod filling;
mod marks;
mod segments;
mod telling;
mod words;

pub use answer::{Flags, Segment};
pub use filling::{fill, seed};
pub use marks::OM_CHECKSUM;
pub use segments::{CHECKSUM_AT, TCP_HEADER_LEN, segment_of};
pub use telling::flags;
pub use words::{ALL_ONES, ones, word_sum};

#[cfg(test)]
mod tests;
