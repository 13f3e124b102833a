//! The two halves of a TCP checksum: the driver's seed, and what the device makes of it.

ghost use Rattle.std.specs.Prelude.{◌≡◌, ◌≤◌, List, ℕ, length, true};
ghost use Rattle.vmx_frame.specs.Internet.{flow_of};
ghost use Rattle.vmx_checksum.specs.Segment.{segment};
ghost use Rattle.vmx_checksum.specs.Checksum.{address_sum as address_sum_of, pseudo_sum as pseudo_sum_of, seeded, completed, filled, is_right_at, Marks, IsMarkOf, KeepsAllBut};

use crate::answer::Segment;
use crate::marks::mark_of;
use crate::segments::{CHECKSUM_AT, segment_by, segment_of};
use crate::words::{ALL_ONES, ones, put_word, word_sum};
use vmx_ends::TxMark;
use vmx_frame::{Flow, HEADER_LEN, flow};
use vmx_io::MAX_FRAME;

/// The protocol number of TCP (RFC 9293, 3.1).
pub const TCP: u32 = 6;

/// Stores the sum of the pseudo header in the checksum field of a frame's TCP segment, and gives the mark that asks a
/// device for the rest. A frame without a segment stays as it is, and has none.
///
/// Condition: the frame has 14 to 9,022 bytes.
pub fn seed(frame: &mut [u8]) -> Option<TxMark>
    requires header { HEADER_LEN ≤ length frame.old }
    requires few { length frame.old ≤ MAX_FRAME }
    ensures frame { frame.new ≡ seeded frame.old }
    ensures mark { Marks (segment frame.old) result }
    ensures alone { KeepsAllBut (segment frame.old) frame.old frame.new }
    ensures segment { segment frame.new ≡ segment frame.old }
    ensures flow { flow_of frame.new ≡ flow_of frame.old }
{
    let flow = flow(frame);
    let segment = segment_by(&flow, frame)?;
    let sum = ones(pseudo_sum(&flow, segment.end - segment.l4));
    put_word(frame, segment.l4 as usize + CHECKSUM_AT, sum);
    Some(mark_of(segment))
}

/// Fills in the checksum that the mark asks for: the complement of the sum of the segment as it stands, with what the
/// driver left in the field.
///
/// Conditions: the frame has 14 to 9,022 bytes and a TCP segment, and the mark is the one that `seed` gives for it.
pub fn fill(frame: &mut [u8], mark: &TxMark)
    requires header { HEADER_LEN ≤ length frame.old }
    requires few { length frame.old ≤ MAX_FRAME }
    requires mark { IsMarkOf (segment frame.old) mark.now }
    ensures frame { frame.new ≡ completed frame.old }
    // A frame that was seeded has its checksum then, and it is right.
    ensures filled { (captured : List ℕ) → frame.old ≡ seeded captured → frame.new ≡ filled captured }
    ensures right { (captured : List ℕ) → frame.old ≡ seeded captured
        → is_right_at frame.new (segment frame.new) ≡ true }
    ensures alone { KeepsAllBut (segment frame.old) frame.old frame.new }
    ensures segment { segment frame.new ≡ segment frame.old }
    ensures flow { flow_of frame.new ≡ flow_of frame.old }
{
    let Some(segment) = segment_of(frame) else {
        unreachable!()
    };
    let sum = ones(word_sum(&frame[mark.hlen as usize..segment.end as usize]));
    put_word(frame, mark.msscof as usize, ALL_ONES - sum);
}

/// The sum of the pseudo header of a segment of this length (RFC 9293, 3.1; over IPv6 RFC 8200, 8.1).
pub fn pseudo_sum(flow: &Flow, len: u32) -> u32
    requires few { len ≤ MAX_FRAME }
    ensures sum { result ≡ pseudo_sum_of flow.now len }
    ensures most { result ≤ 2000000 }
{
    address_sum(flow) + TCP + len
}

/// The sum of the words of both addresses.
fn address_sum(flow: &Flow) -> u32
    ensures sum { result ≡ address_sum_of flow.now }
    ensures most { result ≤ 1900000 }
{
    match flow {
        Flow::NonIp => 0,
        Flow::V4 { source, target, .. } => word_sum(source) + word_sum(target),
        Flow::V6 { source, target, .. } => word_sum(source) + word_sum(target),
    }
}
