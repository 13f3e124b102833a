//! What a driver asks for with a frame that is to be cut.
ghost use Rattle.std.specs.Prelude.{◌≡◌, ◌≤◌, length, Some};
ghost use Rattle.vmx_checksum.specs.Segment.{segment as segment_in};
ghost use Rattle.vmx_segmentation.specs.Header.{header as header_in};
ghost use Rattle.vmx_segmentation.specs.Cuts.{MarksCut};

use crate::header::header_of;
use vmx_checksum::{Segment, segment_of};
use vmx_ends::TxMark;
use vmx_frame::HEADER_LEN;
use vmx_io::MAX_FRAME;

/// The offload mode that asks for segmentation (Linux `VMXNET3_OM_TSO`).
pub const OM_SEGMENTATION: u32 = 3;

/// The least bytes of a segment's payload that are asked for (own to this project).
pub const MIN_MSS: u32 = 64;

/// The most bytes of a segment's payload that are asked for: an MTU of 9,000 less two headers of 20 (own to this project).
pub const MAX_MSS: u32 = 8_960;

/// The mark that asks to cut a frame into segments with payloads of `mss` bytes; none where the frame has no lawful TCP
/// header, or no payload that is longer.
///
/// Conditions: the frame has 14 to 9,022 bytes, and `mss` is 64 to 8,960.
pub fn cut_mark(frame: &[u8], mss: u32) -> Option<TxMark>
    requires long { HEADER_LEN ≤ length frame.now }
    requires short { length frame.now ≤ MAX_FRAME }
    requires least { MIN_MSS ≤ mss }
    requires most { mss ≤ MAX_MSS }
    ensures mark { MarksCut frame.now mss result }
{
    match header_of(frame) {
        None => None,
        Some(header) => mark_behind(frame, header, mss),
    }
}

/// The mark of a frame whose TCP header ends there; none where its payload is no longer.
fn mark_behind(frame: &[u8], header: u32, mss: u32) -> Option<TxMark>
    requires long { HEADER_LEN ≤ length frame.now }
    requires short { length frame.now ≤ MAX_FRAME }
    requires least { MIN_MSS ≤ mss }
    requires most { mss ≤ MAX_MSS }
    requires header { header_in frame.now ≡ Some header }
    requires low { header ≤ 138 }
    ensures mark { MarksCut frame.now mss result }
{
    match segment_of(frame) {
        None => None,
        Some(segment) => asked(frame, header, mss, segment),
    }
}

/// The same, of a frame with this segment.
fn asked(frame: &[u8], header: u32, mss: u32, segment: Segment) -> Option<TxMark>
    requires least { MIN_MSS ≤ mss }
    requires most { mss ≤ MAX_MSS }
    requires segment { segment_in frame.now ≡ Some segment }
    requires header { header_in frame.now ≡ Some header }
    requires low { header ≤ 138 }
    ensures mark { MarksCut frame.now mss result }
{
    let longer = header + mss < segment.end;
    if longer {
        Some(TxMark {
            tci: None,
            om: OM_SEGMENTATION,
            hlen: header,
            msscof: mss,
        })
    } else {
        None
    }
}
