//! The segments of a frame.
ghost use Rattle.std.specs.Prelude.{◌≡◌, ◌≤◌, ◌<◌, ◌+◌, ◌-◌, ◌*◌, take, length, IfOk};
ghost use Rattle.vmx_checksum.specs.Segment.{packet_at as packet_at_of, segment as segment_in};
ghost use Rattle.vmx_segmentation.specs.Cuts.{AsksSegments, IsWhole, cuts, cuts_from, cut_one, cut_part, headers_written, pieces, joined, payload_in};
ghost use Rattle.vmx_checksum.specs.Checksum.{filled};

use crate::headers::{write_packet, write_segment};
use std::alloc::{AllocError, Global};
use vmx_checksum::{Segment, fill, seed, segment_of};
use vmx_ends::TxMark;
use vmx_frame::{HEADER_LEN, TAGGED_HEADER_LEN, flow, is_tagged};
use vmx_io::{Bytes, List, MAX_FRAME};

/// A frame that is cut, and into what.
#[derive(Drop)]
struct Whole<'a> {
    frame: &'a [u8],
    segment: Segment,
    /// Where its TCP header ends.
    header: usize,
    /// Bytes of a segment's payload, the last one's excepted.
    mss: usize,
    /// How many segments there are.
    count: usize,
}

/// Cuts a frame as its mark asks for: the payload in pieces of `msscof` bytes, the last the rest, each behind the frame's
/// headers, of which lengths, identification, sequence number, flags and checksums are written anew.
///
/// Conditions: the frame has 14 to 9,022 bytes, and its mark is one that `cut_mark` gives: `hlen` is where its TCP header
/// ends, `msscof` is 64 to 8,960, and the payload is longer.
///
/// # Errors
///
/// Want of memory.
pub fn cut(alloc: Global, frame: &[u8], mark: &TxMark) -> Result<List<Bytes>, AllocError>
    requires long { HEADER_LEN ≤ length frame.now }
    requires short { length frame.now ≤ MAX_FRAME }
    requires mark { AsksSegments frame.now mark.now }
    ensures segments { IfOk result (λ x. x ≡ cuts frame.now mark.now.hlen mark.now.msscof) }
    // What lies behind their headers, joined, is the frame's payload.
    ensures joined { IfOk result (λ x. joined mark.now.hlen x ≡ payload_in frame.now mark.now.hlen (segment_in frame.now)) }
{
    match segment_of(frame) {
        None => unreachable!(),
        Some(segment) => {
            let header = mark.hlen as usize;
            let mss = mark.msscof as usize;
            let count = count_of(segment.end as usize, header, mss);
            let whole = Whole {
                frame,
                segment,
                header,
                mss,
                count,
            };
            all_segments(alloc, &whole)
        }
    }
}

/// How many pieces of `mss` bytes a payload between two places has, the last being the rest.
fn count_of(end: usize, header: usize, mss: usize) -> usize
    requires order { header ≤ end }
    requires short { end ≤ MAX_FRAME }
    requires pos { 0 < mss }
    requires few { mss ≤ MAX_FRAME }
    ensures count { result ≡ pieces mss (end - header) }
{
    (end - header + (mss - 1)) / mss
}

/// All segments, in order.
fn all_segments(alloc: Global, whole: &Whole) -> Result<List<Bytes>, AllocError>
    requires whole { IsWhole whole.now.frame.now whole.now.header whole.now.segment whole.now.mss whole.now.count }
    ensures segments { IfOk result (λ x. x ≡ cuts_from whole.now.frame.now whole.now.header whole.now.segment whole.now.mss whole.now.count 0 whole.now.count) }
{
    let mut segments = Vec::with_capacity(alloc, whole.count)?;
    for number in 0..whole.count {
        segments.push(segment_bytes(alloc, whole, number)?)?;
    }
    Ok(List::of(segments))
}

/// The segment with this number.
fn segment_bytes(alloc: Global, whole: &Whole, number: usize) -> Result<Bytes, AllocError>
    requires whole { IsWhole whole.now.frame.now whole.now.header whole.now.segment whole.now.mss whole.now.count }
    requires number { number < whole.now.count }
    ensures bytes { IfOk result (λ b. b ≡ cut_one whole.now.frame.now whole.now.header whole.now.segment whole.now.mss number whole.now.count) }
{
    let payload = &whole.frame[whole.header..whole.segment.end as usize];
    let before = bytes_before(whole, number);
    let part = front(&payload[before..], whole.mss);
    part_bytes(alloc, whole, part, before, number)
}

/// The bytes of the payload before the segment with this number.
fn bytes_before(whole: &Whole, number: usize) -> usize
    requires whole { IsWhole whole.now.frame.now whole.now.header whole.now.segment whole.now.mss whole.now.count }
    requires number { number < whole.now.count }
    ensures before { result ≡ number * whole.now.mss }
    ensures within { whole.now.header + result < whole.now.segment.end }
{
    number * whole.mss
}

/// The first bytes, so many at most.
#[tactic(auto, using(std::proofs::lemmas::List::take_all))]
fn front<'a>(bytes: &'a [u8], most: usize) -> &'a [u8]
    ensures front { result.now ≡ take most bytes.now }
    ensures few { length result.now ≤ length bytes.now }
{
    if bytes.len() < most {
        bytes
    } else {
        &bytes[..most]
    }
}

/// The segment with this number and this piece, before which `before` bytes of the payload lie.
fn part_bytes(
    alloc: Global,
    whole: &Whole,
    part: &[u8],
    before: usize,
    number: usize,
) -> Result<Bytes, AllocError>
    requires whole { IsWhole whole.now.frame.now whole.now.header whole.now.segment whole.now.mss whole.now.count }
    requires number { number < whole.now.count }
    requires before { before ≤ MAX_FRAME }
    requires part { whole.now.header + length part.now ≤ MAX_FRAME }
    ensures bytes { IfOk result (λ b. b ≡ cut_part whole.now.frame.now whole.now.header whole.now.segment part.now before number whole.now.count) }
{
    let mut bytes = Vec::with_capacity(alloc, whole.header + part.len())?;
    bytes.extend_from_slice(&whole.frame[..whole.header])?;
    bytes.extend_from_slice(part)?;
    write_headers(whole, &mut bytes, before, number);
    Ok(Bytes::of(bytes))
}

/// Writes what differs from segment to segment into the headers of a segment, and fills in its checksum.
fn write_headers(whole: &Whole, bytes: &mut [u8], before: usize, number: usize)
    requires whole { IsWhole whole.now.frame.now whole.now.header whole.now.segment whole.now.mss whole.now.count }
    requires number { number < whole.now.count }
    requires before { before ≤ MAX_FRAME }
    requires long { whole.now.header ≤ length bytes.old }
    requires short { length bytes.old ≤ MAX_FRAME }
    ensures bytes { bytes.new ≡ headers_written whole.now.frame.now whole.now.segment bytes.old before number whole.now.count }
{
    let l4 = whole.segment.l4 as usize;
    let at = packet_at(whole.frame);
    let len = bytes.len() - at;
    write_packet(bytes, &flow(whole.frame), at, l4, len, number);
    write_segment(bytes, l4, before, number, whole.count);
    fill_in(bytes);
}

/// Fills in the checksum of a frame, where it has a TCP segment.
fn fill_in(frame: &mut [u8])
    requires header { HEADER_LEN ≤ length frame.old }
    requires few { length frame.old ≤ MAX_FRAME }
    ensures frame { frame.new ≡ filled frame.old }
{
    match seed(frame) {
        None => {}
        Some(mark) => fill(frame, &mark),
    }
}

/// The place of the IP header: behind the Ethernet header, or behind its tag.
fn packet_at(frame: &[u8]) -> usize
    requires header { HEADER_LEN ≤ length frame.now }
    ensures place { result ≡ packet_at_of frame.now }
{
    if is_tagged(frame) {
        TAGGED_HEADER_LEN
    } else {
        HEADER_LEN
    }
}
