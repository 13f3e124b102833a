//! Where the TCP header of a frame ends.
ghost use Rattle.std.specs.Prelude.{◌≡◌, ◌≤◌, length, IfSome};
ghost use Rattle.vmx_checksum.specs.Segment.{IsWithin};
ghost use Rattle.vmx_segmentation.specs.Header.{header, header_at as header_at_of};

use vmx_checksum::{Segment, TCP_HEADER_LEN, segment_of};
use vmx_frame::HEADER_LEN;
use vmx_io::MAX_FRAME;

/// The place in a TCP header of the byte whose high half counts the header's words (RFC 9293, 3.1, Data Offset).
pub const DATA_OFFSET_AT: usize = 12;

/// Bytes of a word in which a TCP header counts its length (RFC 9293, 3.1, Data Offset).
pub const WORD_LEN: usize = 4;

/// The end of the TCP header of a frame, in bytes from the frame's first: there where the frame has a TCP segment, and its
/// header has 20 bytes at least and ends within it.
///
/// Condition: the frame has 14 to 9,022 bytes.
pub fn header_of(frame: &[u8]) -> Option<u32>
    requires long { HEADER_LEN ≤ length frame.now }
    requires short { length frame.now ≤ MAX_FRAME }
    ensures header { result ≡ header frame.now }
    ensures low { IfSome result (λ h. h ≤ 138) }
{
    match segment_of(frame) {
        None => None,
        Some(segment) => header_at(frame, segment),
    }
}

/// The same, of a frame with this segment.
fn header_at(frame: &[u8], segment: Segment) -> Option<u32>
    requires short { length frame.now ≤ MAX_FRAME }
    requires within { IsWithin segment (length frame.now) }
    ensures header { result ≡ header_at_of frame.now segment }
    ensures low { IfSome result (λ h. h ≤ 138) }
{
    let l4 = segment.l4 as usize;
    let end = segment.end as usize;
    let header = l4 + usize::from(frame[l4 + DATA_OFFSET_AT] / 16) * WORD_LEN;
    if l4 + TCP_HEADER_LEN <= header && header <= end {
        Some(header as u32)
    } else {
        None
    }
}
