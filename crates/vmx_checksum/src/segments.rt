//! Where the TCP segment of a frame lies.
//!
//! It begins behind the IP header and ends with the IP packet; what follows in the frame is padding. A frame has none
//! where its flow has no ports, where its packet ends past the frame, or where that has no room for a TCP header.

ghost use Rattle.std.specs.Prelude.{◌≡◌, ◌+◌, ◌≤◌, length, drop, IsTrue, IfSome};
ghost use Rattle.vmx_frame.specs.Internet.{flow_of};
ghost use Rattle.vmx_checksum.specs.Segment.{packet_at as packet_at_of, has_ports as has_ports_of, header_len as header_len_of, packet_len as packet_len_of, is_whole as is_whole_of, segment_by as segment_by_of, segment, IsWithin};

use crate::answer::Segment;
use crate::words::u16_at;
use vmx_frame::{Flow, HEADER_LEN, TAGGED_HEADER_LEN, flow, is_tagged};
use vmx_io::MAX_FRAME;

/// Bytes of an IPv4 header without options (RFC 791, 3.1), fewer than those of an IPv6 header.
const V4_HEADER_LEN: usize = 20;

/// Bytes of a word of an IPv4 header, in which it counts its length (RFC 791, 3.1, IHL).
const V4_WORD_LEN: usize = 4;

/// The place in an IPv4 header of the packet's total length (RFC 791, 3.1).
pub const V4_TOTAL_LEN_AT: usize = 2;

/// Bytes of an IPv6 header without extension headers (RFC 8200, 3).
pub const V6_HEADER_LEN: usize = 40;

/// The place in an IPv6 header of the length of what follows it (RFC 8200, 3).
pub const V6_PAYLOAD_LEN_AT: usize = 4;

/// Bytes of a TCP header without options, the least that one has (RFC 9293, 3.1).
pub const TCP_HEADER_LEN: usize = 20;

/// The place in a TCP header of the checksum (RFC 9293, 3.1).
pub const CHECKSUM_AT: usize = 16;

/// The TCP segment of a frame, where there is one.
///
/// Condition: the frame has 14 to 9,022 bytes.
pub fn segment_of(frame: &[u8]) -> Option<Segment>
    requires header { HEADER_LEN ≤ length frame.now }
    requires few { length frame.now ≤ MAX_FRAME }
    ensures segment { result ≡ segment frame.now }
    ensures within { IfSome result (λ s. IsWithin s (length frame.now)) }
{
    segment_by(&flow(frame), frame)
}

/// The TCP segment of a frame of this flow.
pub fn segment_by(flow: &Flow, frame: &[u8]) -> Option<Segment>
    requires header { HEADER_LEN ≤ length frame.now }
    requires few { length frame.now ≤ MAX_FRAME }
    requires flow { flow.now ≡ flow_of frame.now }
    ensures segment { result ≡ segment_by_of flow.now frame.now }
    ensures within { IfSome result (λ s. IsWithin s (length frame.now)) }
{
    found(flow, frame)
}

/// The same, as the headers say.
#[tactic(auto, using(crate::specs::FlowLaws::long_packet), unfolding(crate::specs::Segment::segment_by))]
fn found(flow: &Flow, frame: &[u8]) -> Option<Segment>
    requires header { HEADER_LEN ≤ length frame.now }
    requires few { length frame.now ≤ MAX_FRAME }
    requires flow { flow.now ≡ flow_of frame.now }
    ensures segment { result ≡ segment_by_of flow.now frame.now }
{
    if !has_ports(flow) {
        return None;
    }
    let at = packet_at(frame);
    let packet = &frame[at..];
    let l4 = at + header_len(flow, packet);
    let end = at + packet_len(flow, packet);
    if !is_whole(l4, end, frame.len()) {
        return None;
    }
    Some(Segment {
        l4: l4 as u32,
        end: end as u32,
    })
}

/// Whether a flow has TCP ports.
fn has_ports(flow: &Flow) -> bool
    ensures ports { result ≡ has_ports_of flow.now }
{
    match flow {
        Flow::NonIp => false,
        Flow::V4 { ports, .. } | Flow::V6 { ports, .. } => ports.is_some(),
    }
}

/// The place of the IP header: behind the Ethernet header, or behind its tag.
#[tactic(auto, using(vmx_frame::specs::TagLaws::tagged_least))]
fn packet_at(frame: &[u8]) -> usize
    requires header { HEADER_LEN ≤ length frame.now }
    ensures place { result ≡ packet_at_of frame.now }
    ensures within { result ≤ length frame.now }
    ensures few { result ≤ TAGGED_HEADER_LEN }
{
    if is_tagged(frame) {
        TAGGED_HEADER_LEN
    } else {
        HEADER_LEN
    }
}

/// Bytes of the IP header of a packet.
fn header_len(flow: &Flow, packet: &[u8]) -> usize
    requires header { V4_HEADER_LEN ≤ length packet.now }
    ensures len { result ≡ header_len_of flow.now packet.now }
    ensures few { result ≤ 60 }
{
    match flow {
        Flow::V4 { .. } => usize::from(packet[0] % 16) * V4_WORD_LEN,
        Flow::NonIp | Flow::V6 { .. } => V6_HEADER_LEN,
    }
}

/// Bytes of a packet, header and all.
fn packet_len(flow: &Flow, packet: &[u8]) -> usize
    requires header { V4_HEADER_LEN ≤ length packet.now }
    ensures len { result ≡ packet_len_of flow.now packet.now }
    ensures few { result ≤ 65575 }
{
    match flow {
        Flow::V4 { .. } => usize::from(u16_at(packet, V4_TOTAL_LEN_AT)),
        Flow::NonIp | Flow::V6 { .. } => V6_HEADER_LEN
            + usize::from(u16_at(packet, V6_PAYLOAD_LEN_AT)),
    }
}

/// Whether a segment ends within a frame of this length, and has room for a TCP header.
fn is_whole(l4: usize, end: usize, len: usize) -> bool
    requires low { l4 ≤ 78 }
    ensures whole { result ≡ is_whole_of l4 end len }
{
    end <= len && l4 + TCP_HEADER_LEN <= end
}
