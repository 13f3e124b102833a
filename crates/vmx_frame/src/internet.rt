//! The flow of a frame, from its IP header and its TCP ports.
//!
//! One tag is looked through, a second one is a payload like any other (own to this project). Where a header is cut
//! short or its length is not lawful, the frame is `NonIp`; where only the ports are missing, the flow has none.

ghost use Rattle.std.specs.Prelude.{◌≡◌, ◌+◌, ◌≤◌, length, IsTrue};
ghost use Rattle.vmx_frame.specs.Internet.{ports_of, is_v4 as is_v4_of, v4_header_len as v4_header_len_of, has_v4_ports as has_v4_ports_of, v4_source as v4_source_of, v4_target as v4_target_of, v4_of, v6_of, payload_flow as payload_flow_of, flow_of};

use crate::bytes::{u16_at, v4_address_at, v6_address_at};
use crate::ethernet::{HEADER_LEN, TAGGED_HEADER_LEN, TAGGED_TYPE_AT, TYPE_AT, is_tagged};
use crate::kinds::{Flow, Ports};

/// The Ethernet type of IPv4 (RFC 894).
const V4_TYPE: u16 = 0x0800;

/// The Ethernet type of IPv6 (RFC 2464).
const V6_TYPE: u16 = 0x86dd;

/// The first half byte of an IPv4 packet (RFC 791).
const V4_VERSION: u8 = 4;

/// The first half byte of an IPv6 packet (RFC 8200).
const V6_VERSION: u8 = 6;

/// Bytes of an IPv4 header without options, the least that one has (RFC 791).
const V4_HEADER_LEN: usize = 20;

/// Bytes of an IPv6 header without extension headers (RFC 8200).
const V6_HEADER_LEN: usize = 40;

/// Bytes of a word of an IPv4 header, in which it counts its length (RFC 791).
const V4_WORD_LEN: usize = 4;

/// The place in an IPv4 header of the two bytes with flags and fragment offset (RFC 791).
const V4_FRAGMENT_AT: usize = 6;

/// What flags and fragment offset are taken modulo: 'more fragments' and the offset are the lower 14 bits (RFC 791).
const FRAGMENT_MODULUS: u16 = 0x4000;

/// The place in an IPv4 header of the protocol (RFC 791).
const V4_PROTOCOL_AT: usize = 9;

/// The place in an IPv4 header of the source address (RFC 791).
const V4_SOURCE_AT: usize = 12;

/// The place in an IPv4 header of the destination address (RFC 791).
const V4_TARGET_AT: usize = 16;

/// The place in an IPv6 header of the next header's number (RFC 8200).
const V6_NEXT_HEADER_AT: usize = 6;

/// The place in an IPv6 header of the source address (RFC 8200).
const V6_SOURCE_AT: usize = 8;

/// The place in an IPv6 header of the destination address (RFC 8200).
const V6_TARGET_AT: usize = 24;

/// The protocol number of TCP (RFC 9293).
const TCP: u8 = 6;

/// Bytes of a TCP header without options, the least that one has (RFC 9293).
const TCP_HEADER_LEN: usize = 20;

/// The flow of a frame.
///
/// IPv4 is the type 0x0800 with a first half byte of 4 and a header of at least 20 bytes that lies within the payload;
/// IPv6 is the type 0x86DD with a first half byte of 6 and 40 bytes. Ports are the first two numbers behind the header,
/// where the protocol byte is 6 (TCP), 20 bytes follow the header, and the IPv4 packet is no fragment.
///
/// Condition: the frame has at least 14 bytes.
#[tactic(auto, unfolding(crate::specs::Ethernet::is_tagged, crate::specs::Internet::flow_of))]
pub fn flow(frame: &[u8]) -> Flow
    requires header { HEADER_LEN ≤ length frame.now }
    ensures flow { result ≡ flow_of frame.now }
{
    if is_tagged(frame) {
        payload_flow(u16_at(frame, TAGGED_TYPE_AT), &frame[TAGGED_HEADER_LEN..])
    } else {
        payload_flow(u16_at(frame, TYPE_AT), &frame[HEADER_LEN..])
    }
}

/// The flow of a payload of this type.
#[tactic(auto, unfolding(crate::specs::Internet::payload_flow))]
fn payload_flow(kind: u16, payload: &[u8]) -> Flow
    ensures flow { result ≡ payload_flow_of kind payload.now }
{
    if kind == V4_TYPE {
        v4(payload)
    } else if kind == V6_TYPE {
        v6(payload)
    } else {
        Flow::NonIp
    }
}

/// The flow of an IPv4 packet.
fn v4(payload: &[u8]) -> Flow
    ensures flow { result ≡ v4_of payload.now }
{
    if !is_v4(payload) {
        return Flow::NonIp;
    }
    let header = v4_header_len(payload);
    let counts = has_v4_ports(payload, header);
    Flow::V4 {
        source: v4_source(payload),
        target: v4_target(payload),
        ports: ports(counts, payload, header),
    }
}

/// The source address of an IPv4 packet.
fn v4_source(payload: &[u8]) -> [u8; 4]
    requires whole { V4_HEADER_LEN ≤ length payload.now }
    ensures address { result ≡ v4_source_of payload.now }
{
    v4_address_at(payload, V4_SOURCE_AT)
}

/// The destination address of an IPv4 packet.
fn v4_target(payload: &[u8]) -> [u8; 4]
    requires whole { V4_HEADER_LEN ≤ length payload.now }
    ensures address { result ≡ v4_target_of payload.now }
{
    v4_address_at(payload, V4_TARGET_AT)
}

/// The flow of an IPv6 packet.
fn v6(payload: &[u8]) -> Flow
    ensures flow { result ≡ v6_of payload.now }
{
    if payload.len() < V6_HEADER_LEN || payload[0] / 16 != V6_VERSION {
        return Flow::NonIp;
    }
    let counts = payload[V6_NEXT_HEADER_AT] == TCP
        && payload.len() >= V6_HEADER_LEN + TCP_HEADER_LEN;
    Flow::V6 {
        source: v6_address_at(payload, V6_SOURCE_AT),
        target: v6_address_at(payload, V6_TARGET_AT),
        ports: ports(counts, payload, V6_HEADER_LEN),
    }
}

/// Whether a payload is an IPv4 packet whose header is whole.
fn is_v4(payload: &[u8]) -> bool
    ensures whole { result ≡ is_v4_of payload.now }
{
    if payload.len() < V4_HEADER_LEN {
        return false;
    }
    let header = v4_header_len(payload);
    payload[0] / 16 == V4_VERSION && header >= V4_HEADER_LEN && header <= payload.len()
}

/// The length of an IPv4 header in bytes, 0 to 60: the second half byte counts words of four.
fn v4_header_len(payload: &[u8]) -> usize
    requires whole { V4_HEADER_LEN ≤ length payload.now }
    ensures len { result ≡ v4_header_len_of payload.now }
{
    usize::from(payload[0] % 16) * V4_WORD_LEN
}

/// Whether an IPv4 packet has ports that count.
fn has_v4_ports(payload: &[u8], header: usize) -> bool
    requires whole { V4_HEADER_LEN ≤ length payload.now }
    requires header { header ≡ v4_header_len_of payload.now }
    ensures count { result ≡ has_v4_ports_of payload.now }
{
    payload[V4_PROTOCOL_AT] == TCP
        && u16_at(payload, V4_FRAGMENT_AT) % FRAGMENT_MODULUS == 0
        && header + TCP_HEADER_LEN <= payload.len()
}

/// The ports at `at`, where they count.
fn ports(counts: bool, payload: &[u8], at: usize) -> Option<Ports>
    requires within { IsTrue counts → at + 4 ≤ length payload.now }
    ensures ports { result ≡ ports_of counts payload.now at }
{
    if !counts {
        return None;
    }
    Some(Ports {
        source: u16_at(payload, at),
        target: u16_at(payload, at + 2),
    })
}
