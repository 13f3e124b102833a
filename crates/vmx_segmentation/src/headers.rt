//! What differs in the headers of a frame's segments.
ghost use Rattle.std.specs.Prelude.{◌≡◌, ◌≤◌, ◌<◌, ◌+◌, ◌*◌, length};
ghost use Rattle.vmx_frame.specs.Bytes.{u16_at as number_at};
ghost use Rattle.vmx_checksum.specs.Words.{put_word as put_word_of};
ghost use Rattle.vmx_segmentation.specs.Cuts.{u32_at as double_at, put_double as put_double_of, header_summed, packet_written, flags as flags_of, segment_written, ended as ended_of, without as without_of};

use vmx_checksum::{ALL_ONES, ones, word_sum};
use vmx_frame::Flow;
use vmx_io::MAX_FRAME;

/// The place in an IPv4 header of the packet's total length (RFC 791, 3.1).
const V4_TOTAL_LEN_AT: usize = 2;

/// The place in an IPv4 header of the identification (RFC 791, 3.1).
pub const V4_IDENTIFICATION_AT: usize = 4;

/// The place in an IPv4 header of its checksum (RFC 791, 3.1).
pub const V4_CHECKSUM_AT: usize = 10;

/// Bytes of an IPv6 header without extension headers (RFC 8200, 3).
const V6_HEADER_LEN: usize = 40;

/// The place in an IPv6 header of the length of what follows it (RFC 8200, 3).
const V6_PAYLOAD_LEN_AT: usize = 4;

/// The place in a TCP header of the sequence number (RFC 9293, 3.1).
pub const SEQUENCE_AT: usize = 4;

/// The place in a TCP header of the flags (RFC 9293, 3.1, Control bits).
pub const FLAGS_AT: usize = 13;

/// The flag that no more data comes (RFC 9293, 3.1).
pub const FIN: u8 = 1;

/// The flag that data is to be handed up at once (RFC 9293, 3.1).
pub const PSH: u8 = 8;

/// The flag that the congestion window was reduced (RFC 3168, 6.1.2).
pub const CWR: u8 = 128;

/// Numbers of a word of 16 bits.
const WORD_NUMBERS: u32 = 65_536;

/// Numbers of a word of 32 bits, in which sequence numbers go round.
const DOUBLE_NUMBERS: u64 = 4_294_967_296;

/// Writes the IP header of segment `number`, whose packet lies at `at` and has `len` bytes, and whose TCP header is at `l4`:
/// over IPv4 total length, identification and checksum, over IPv6 the payload length.
pub fn write_packet(bytes: &mut [u8], flow: &Flow, at: usize, l4: usize, len: usize, number: usize)
    requires short { length bytes.old ≤ MAX_FRAME }
    requires header { at + 20 ≤ l4 }
    requires within { l4 ≤ length bytes.old }
    requires low { 40 ≤ len }
    requires high { len ≤ MAX_FRAME }
    requires few { number ≤ MAX_FRAME }
    ensures bytes { bytes.new ≡ packet_written flow.now bytes.old at l4 len number }
{
    match flow {
        Flow::NonIp => {}
        Flow::V4 { .. } => {
            let identification = u32::from(u16_at(bytes, at + V4_IDENTIFICATION_AT))
                + number as u32;
            put_word(bytes, at + V4_TOTAL_LEN_AT, len as u16);
            put_word(
                bytes,
                at + V4_IDENTIFICATION_AT,
                (identification % WORD_NUMBERS) as u16,
            );
            sum_header(bytes, at, l4);
        }
        Flow::V6 { .. } => {
            put_word(bytes, at + V6_PAYLOAD_LEN_AT, (len - V6_HEADER_LEN) as u16);
        }
    }
}

/// Writes the checksum of the IPv4 header from `at` to `l4`.
fn sum_header(bytes: &mut [u8], at: usize, l4: usize)
    requires short { length bytes.old ≤ MAX_FRAME }
    requires header { at + 20 ≤ l4 }
    requires within { l4 ≤ length bytes.old }
    ensures bytes { bytes.new ≡ header_summed bytes.old at l4 }
{
    put_word(bytes, at + V4_CHECKSUM_AT, 0);
    let sum = ones(word_sum(&bytes[at..l4]));
    put_word(bytes, at + V4_CHECKSUM_AT, ALL_ONES - sum);
}

/// Writes the TCP header at `l4` of segment `number` of `count`, before which `before` bytes of the payload lie: sequence
/// number and flags.
pub fn write_segment(bytes: &mut [u8], l4: usize, before: usize, number: usize, count: usize)
    requires within { l4 + 20 ≤ length bytes.old }
    requires short { length bytes.old ≤ MAX_FRAME }
    requires before { before ≤ MAX_FRAME }
    requires few { number < count }
    requires count { count ≤ MAX_FRAME }
    ensures bytes { bytes.new ≡ segment_written bytes.old l4 before number count }
{
    let sequence = u64::from(u32_at(bytes, l4 + SEQUENCE_AT)) + before as u64;
    let flags = flags(bytes[l4 + FLAGS_AT], number, count);
    put_double(bytes, l4 + SEQUENCE_AT, (sequence % DOUBLE_NUMBERS) as u32);
    bytes[l4 + FLAGS_AT] = flags;
}

/// The flags of segment `number` of `count`: CWR stays in the first alone.
fn flags(byte: u8, number: usize, count: usize) -> u8
    requires few { number < count }
    requires count { count ≤ MAX_FRAME }
    ensures flags { result ≡ flags_of byte number count }
{
    let ended = ended(byte, number, count);
    if 0 < number {
        without(ended, CWR)
    } else {
        ended
    }
}

/// The flags of segment `number` of `count` but for CWR: FIN and PSH stay in the last alone.
fn ended(byte: u8, number: usize, count: usize) -> u8
    requires few { number < count }
    requires count { count ≤ MAX_FRAME }
    ensures flags { result ≡ ended_of byte number count }
{
    if number + 1 < count {
        without(without(byte, FIN), PSH)
    } else {
        byte
    }
}

/// A byte without one of its bits, that of this value.
#[tactic(auto, using(crate::proofs::Numbers::bit_fits))]
fn without(byte: u8, bit: u8) -> u8
    requires bit { 0 < bit }
    ensures byte { result ≡ without_of byte bit }
{
    if byte / bit % 2 == 1 {
        byte - bit
    } else {
        byte
    }
}

/// The word at a place, big-endian.
fn u16_at(bytes: &[u8], at: usize) -> u16
    requires within { at + 2 ≤ length bytes.now }
    ensures number { result ≡ number_at bytes.now at }
{
    u16::from(bytes[at]) * 256 + u16::from(bytes[at + 1])
}

/// Stores a word at a place, big-endian.
fn put_word(bytes: &mut [u8], at: usize, word: u16)
    requires within { at + 2 ≤ length bytes.old }
    ensures bytes { bytes.new ≡ put_word_of bytes.old at word }
{
    bytes[at] = (word / 256) as u8;
    bytes[at + 1] = (word % 256) as u8;
}

/// The double word at a place, big-endian.
fn u32_at(bytes: &[u8], at: usize) -> u32
    requires within { at + 4 ≤ length bytes.now }
    ensures number { result ≡ double_at bytes.now at }
{
    u32::from(u16_at(bytes, at)) * WORD_NUMBERS + u32::from(u16_at(bytes, at + 2))
}

/// Stores a double word at a place, big-endian.
fn put_double(bytes: &mut [u8], at: usize, number: u32)
    requires within { at + 4 ≤ length bytes.old }
    ensures bytes { bytes.new ≡ put_double_of bytes.old at number }
{
    put_word(bytes, at, (number / WORD_NUMBERS) as u16);
    put_word(bytes, at + 2, (number % WORD_NUMBERS) as u16);
}
