//! What a device tells of a received frame's checksum.

ghost use Rattle.std.specs.Prelude.{◌≡◌, ◌≤◌, length};
ghost use Rattle.vmx_frame.specs.Internet.{flow_of};
ghost use Rattle.vmx_checksum.specs.Segment.{IsWithin};
ghost use Rattle.vmx_checksum.specs.Checksum.{is_right as is_right_of};
ghost use Rattle.vmx_checksum.specs.Flags.{flags_of};

use crate::answer::{Flags, Segment};
use crate::filling::pseudo_sum;
use crate::segments::segment_by;
use crate::words::{ALL_ONES, ones, word_sum};
use vmx_frame::{Flow, HEADER_LEN, flow};
use vmx_io::MAX_FRAME;

/// What a device tells of a frame: its family, whether it has a TCP segment, and whether that segment's checksum is
/// right. With `csum` false, where no checksum was asked for, it tells nothing.
///
/// Condition: the frame has 14 to 9,022 bytes.
pub fn flags(csum: bool, frame: &[u8]) -> Flags
    requires header { HEADER_LEN ≤ length frame.now }
    requires few { length frame.now ≤ MAX_FRAME }
    ensures flags { result ≡ flags_of csum frame.now }
{
    if !csum {
        return Flags {
            v4: false,
            v6: false,
            tcp: false,
            tuc: false,
        };
    }
    let flow = flow(frame);
    let segment = segment_by(&flow, frame);
    let right = match segment {
        None => false,
        Some(segment) => is_right(&flow, frame, segment),
    };
    Flags {
        v4: matches!(flow, Flow::V4 { .. }),
        v6: matches!(flow, Flow::V6 { .. }),
        tcp: segment.is_some(),
        tuc: right,
    }
}

/// Whether the checksum of a segment is right: pseudo header and segment sum up to all ones (RFC 1071, 1 (3)).
fn is_right(flow: &Flow, frame: &[u8], segment: Segment) -> bool
    requires few { length frame.now ≤ MAX_FRAME }
    requires flow { flow.now ≡ flow_of frame.now }
    requires within { IsWithin segment (length frame.now) }
    ensures right { result ≡ is_right_of frame.now segment }
{
    let part = &frame[segment.l4 as usize..segment.end as usize];
    let sum = pseudo_sum(flow, segment.end - segment.l4) + word_sum(part);
    ones(sum) == ALL_ONES
}
