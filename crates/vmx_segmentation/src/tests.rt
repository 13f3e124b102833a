//! Frames that are cut, against numbers worked out by hand.
use super::*;
use std::alloc::{AllocError, Global};
use std::test::Fail;
use vmx_checksum::{flags, ones, word_sum};
use vmx_io::{Bytes, List};

/// An Ethernet header, an IPv4 header of 20 bytes with the identification 0xFFFF, and a TCP header of 20 bytes with the
/// sequence number 0xFFFFFF00, from 10.0.0.1 to 10.0.0.2. The total length and the flags are put in.
const HEADERS: [u8; 54] = [
    0x00, 0x50, 0x56, 0x00, 0x00, 0x02, 0x00, 0x50, 0x56, 0x00, 0x00, 0x01, 0x08, 0x00, 0x45, 0x00,
    0x00, 0x00, 0xff, 0xff, 0x40, 0x00, 0x40, 0x06, 0x12, 0x34, 0x0a, 0x00, 0x00, 0x01, 0x0a, 0x00,
    0x00, 0x02, 0x12, 0x34, 0x00, 0x50, 0xff, 0xff, 0xff, 0x00, 0x00, 0x00, 0x00, 0x00, 0x50, 0x00,
    0x20, 0x00, 0xab, 0xcd, 0x00, 0x00,
];

/// The frame with these flags and so many bytes of payload, whose byte j is j modulo 251, and three bytes of padding.
fn frame(alloc: Global, flags: u8, payload: usize) -> Result<Vec<u8>, AllocError> {
    let total = (payload % 60_000 + 40) as u16;
    let mut headers = HEADERS;
    headers[16] = (total / 256) as u8;
    headers[17] = (total % 256) as u8;
    headers[47] = flags;
    let mut out = Vec::from_slice(alloc, &headers)?;
    for place in 0..payload {
        out.push((place % 251) as u8)?;
    }
    out.extend_from_slice(&[0xee; 3])?;
    Ok(out)
}

/// The segments of a frame, where it is cut.
fn segments(alloc: Global, frame: &[u8], mss: u32) -> Result<Option<List<Bytes>>, AllocError> {
    if frame.len() < 14 || frame.len() > 9_022 || mss < MIN_MSS || mss > MAX_MSS {
        return Ok(None);
    }
    let Some(mark) = cut_mark(frame, mss) else {
        return Ok(None);
    };
    Ok(Some(cut(alloc, frame, &mark)?))
}

/// Total length, identification, sequence number and flags of a segment.
type Numbers = (u16, u16, u32, u8);

/// The big-endian number of the bytes at a place, 0 where they are not there.
fn number(bytes: &[u8], at: usize, count: usize) -> u32 {
    let mut all = 0u32;
    for byte in bytes.iter().skip(at).take(count) {
        all = all.wrapping_mul(256).wrapping_add(u32::from(*byte));
    }
    all
}

fn numbers(segment: &[u8]) -> Numbers {
    (
        (number(segment, 16, 2) % 65_536) as u16,
        (number(segment, 18, 2) % 65_536) as u16,
        number(segment, 38, 4),
        (number(segment, 47, 1) % 256) as u8,
    )
}

/// Whether the checksums of a segment's headers are right.
fn sums_are_right(segment: &[u8]) -> bool {
    segment.len() >= 54
        && segment.len() <= 9_022
        && ones(word_sum(&segment[14..34])) == 65_535
        && flags(true, segment).tuc
}

/// Whether a frame with this payload is cut into segments with these numbers, whose payloads joined are the payload.
fn is_cut_so(
    alloc: Global,
    flags: u8,
    payload: usize,
    mss: u32,
    wanted: &[Numbers],
) -> Result<bool, AllocError> {
    let whole = frame(alloc, flags, payload)?;
    let Some(segments) = segments(alloc, whole.as_slice(), mss)? else {
        return Ok(wanted.is_empty());
    };
    if segments.len() != wanted.len() {
        return Ok(false);
    }
    let mut joined = Vec::new(alloc);
    let mut place = 0usize;
    for segment in segments.as_slice() {
        let bytes = segment.as_slice();
        if bytes.len() < 54
            || !sums_are_right(bytes)
            || wanted.get(place) != Some(&numbers(bytes))
        {
            return Ok(false);
        }
        joined.extend_from_slice(&bytes[54..])?;
        place = place.saturating_add(1);
    }
    let end = payload.saturating_add(54);
    Ok(whole.as_slice().get(54..end) == Some(joined.as_slice()))
}

/// Flags, payload, MSS, and the numbers of the segments: none where the frame is not cut.
type Row = (u8, usize, u32, &'static [Numbers]);

const ROWS: [Row; 5] = [
    (
        0x19,
        2_500,
        1_000,
        &[
            (1_040, 0xffff, 0xffff_ff00, 0x10),
            (1_040, 0, 0x0000_02e8, 0x10),
            (540, 1, 0x0000_06d0, 0x19),
        ],
    ),
    (
        0xff,
        2_500,
        1_000,
        &[
            (1_040, 0xffff, 0xffff_ff00, 0xf6),
            (1_040, 0, 0x0000_02e8, 0x76),
            (540, 1, 0x0000_06d0, 0x7f),
        ],
    ),
    (0x19, 1_000, 1_000, &[]),
    (
        0x19,
        1_001,
        1_000,
        &[
            (1_040, 0xffff, 0xffff_ff00, 0x10),
            (41, 0, 0x0000_02e8, 0x19),
        ],
    ),
    (0x19, 0, 64, &[]),
];

#[test]
fn frames_are_cut_into_segments(rt: HostRuntime) -> Result<(), Fail> {
    for row in &ROWS {
        let (flags, payload, mss, wanted) = row;
        assert!(rt;
            is_cut_so(rt.alloc(), *flags, *payload, *mss, wanted)?,
            "{payload} {mss}"
        );
    }
    Ok(())
}

/// The byte that counts the header's words, and where the header of the frame with 100 bytes of payload ends.
const HEADER_ENDS: [(u8, Option<u32>); 6] = [
    (0x00, None),
    (0x40, None),
    (0x50, Some(54)),
    (0x5f, Some(54)),
    (0x60, Some(58)),
    (0xf0, Some(94)),
];

/// Where the header ends with this byte.
fn header_end(alloc: Global, byte: u8, payload: usize) -> Result<Option<u32>, AllocError> {
    let mut bytes = frame(alloc, 0x10, payload)?;
    if bytes.len() < 54 || bytes.len() > 9_022 {
        return Ok(None);
    }
    bytes[46] = byte;
    Ok(header_of(bytes.as_slice()))
}

#[test]
fn a_header_ends_within_its_segment(rt: HostRuntime) -> Result<(), Fail> {
    for (byte, wanted) in &HEADER_ENDS {
        assert!(rt; header_end(rt.alloc(), *byte, 100)? == *wanted, "{byte}");
    }
    assert!(rt; header_end(rt.alloc(), 0xf0, 40)? == Some(94));
    assert!(rt; header_end(rt.alloc(), 0xf0, 39)?.is_none());
    Ok(())
}
