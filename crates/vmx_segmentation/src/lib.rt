//! TCP segmentation offload on the device's side: where the TCP header of a frame ends, and the segments into which a device
//! cuts a frame whose payload is longer than a driver's segments may be (RFC 9293; RFC 791 and RFC 8200 for the packets).
//!
//! Each segment has the frame's headers, with what differs from segment to segment written anew, and its piece of the
//! payload. What becomes of the identification and of the flags is own to this project.
#![tactic(auto)]

mod cutting;
mod header;
mod headers;
mod marks;

pub use cutting::cut;
pub use header::header_of;
pub use marks::{MAX_MSS, MIN_MSS, OM_SEGMENTATION, cut_mark};

#[cfg(test)]
mod tests;
