//! Frames whose sums were made by `bench/check_offload.py`, and published ones.

ghost use Rattle.std.specs.Prelude.{◌≡◌, ◌+◌, ◌*◌, ◌≤◌, length};

use super::*;
use crate::words::{put_word, u16_at};
use std::process::Abort;

/// The first frame of Wireshark's sample capture http.cap, a SYN, with two bytes of padding behind it.
const OVER_V4: [u8; 64] = [
    0xfe, 0xff, 0x20, 0x00, 0x01, 0x00, 0x00, 0x00, 0x01, 0x00, 0x00, 0x00, 0x08, 0x00, 0x45, 0x00,
    0x00, 0x30, 0x0f, 0x41, 0x40, 0x00, 0x80, 0x06, 0x91, 0xeb, 0x91, 0xfe, 0xa0, 0xed, 0x41, 0xd0,
    0xe4, 0xdf, 0x0d, 0x2c, 0x00, 0x50, 0x38, 0xaf, 0xfe, 0x13, 0x00, 0x00, 0x00, 0x00, 0x70, 0x02,
    0x22, 0x38, 0xc3, 0x0c, 0x00, 0x00, 0x02, 0x04, 0x05, 0xb4, 0x01, 0x01, 0x04, 0x02, 0xee, 0xee,
];

/// A segment with three bytes of data from 2001:db8::1 to 2001:db8::2, with three bytes of padding behind it.
const OVER_V6: [u8; 80] = [
    0x00, 0x50, 0x56, 0x00, 0x00, 0x02, 0x00, 0x50, 0x56, 0x00, 0x00, 0x01, 0x86, 0xdd, 0x60, 0x00,
    0x00, 0x00, 0x00, 0x17, 0x06, 0x40, 0x20, 0x01, 0x0d, 0xb8, 0x00, 0x00, 0x00, 0x00, 0x00, 0x00,
    0x00, 0x00, 0x00, 0x00, 0x00, 0x01, 0x20, 0x01, 0x0d, 0xb8, 0x00, 0x00, 0x00, 0x00, 0x00, 0x00,
    0x00, 0x00, 0x00, 0x00, 0x00, 0x02, 0x12, 0x34, 0x00, 0x50, 0x00, 0x00, 0x00, 0x01, 0x00, 0x00,
    0x00, 0x00, 0x50, 0x18, 0x20, 0x00, 0xab, 0xcd, 0x00, 0x00, 0x61, 0x62, 0x63, 0xee, 0xee, 0xee,
];

/// A TCP header from 10.0.0.1 to 10.0.0.2 whose field holds all ones, with six bytes of padding behind it.
const BARE: [u8; 60] = [
    0x00, 0x50, 0x56, 0x00, 0x00, 0x02, 0x00, 0x50, 0x56, 0x00, 0x00, 0x01, 0x08, 0x00, 0x45, 0x00,
    0x00, 0x28, 0x00, 0x00, 0x00, 0x00, 0x40, 0x06, 0x00, 0x00, 0x0a, 0x00, 0x00, 0x01, 0x0a, 0x00,
    0x00, 0x02, 0x12, 0x34, 0x00, 0x50, 0x00, 0x00, 0x00, 0x00, 0x00, 0x00, 0x00, 0x00, 0x50, 0x10,
    0x00, 0x00, 0xff, 0xff, 0x00, 0x00, 0xff, 0xff, 0xff, 0xff, 0xff, 0xff,
];

/// Where a segment lies, what the driver leaves in its field, and what the device makes of that.
#[derive(Clone, Copy, Debug, PartialEq, Eq)]
struct Answer {
    l4: u32,
    end: u32,
    seed: u16,
    checksum: u16,
}

type Row = (usize, usize, u16, Option<(u32, u32, u16, u16)>);

fn wanted(want: Option<(u32, u32, u16, u16)>) -> Option<Answer> {
    let (l4, end, seed, checksum) = want?;
    Some(Answer {
        l4,
        end,
        seed,
        checksum,
    })
}

/// What the calls make of a frame, which ends with the checksum filled in.
fn answered(rt: &impl Abort, frame: &mut [u8]) -> Option<Answer>
    requires header { 14 ≤ length frame.old }
    requires few { length frame.old ≤ 9022 }
{
    let found = segment_of(frame);
    let mark = seed(frame)?;
    let Segment { l4, end } = found?;
    assert_eq!(rt; (mark.tci, mark.om, mark.hlen), (None, 2, l4));
    let at = mark.msscof as usize;
    assert!(rt; at == l4 as usize + 16 && at + 2 <= frame.len());
    let seed = u16_at(frame, at);
    fill(frame, &mark);
    let checksum = u16_at(frame, at);
    Some(Answer {
        l4,
        end,
        seed,
        checksum,
    })
}

/// Compares what the calls make of a frame's first `len` bytes, with this word at this place, with what is wanted.
fn holds(rt: &impl Abort, frame: &mut [u8], row: Row, v4: bool) {
    let (len, place, word, want) = row;
    assert!(rt;
        len >= 14
            && len <= frame.len()
            && frame.len() <= 100
            && place < 80
            && place + 2 <= frame.len()
    );
    put_word(frame, place, word);
    let part = &mut frame[..len];
    assert_eq!(rt;
        answered(rt, part),
        wanted(want),
        "{len} {place} {word:04x}"
    );
    let told = flags(true, part);
    let whole = want.is_some();
    assert_eq!(rt;
        (told.tcp, told.tuc),
        (whole, whole),
        "{len} {place} {word:04x}"
    );
    if whole {
        assert_eq!(rt; (told.v4, told.v6), (v4, !v4), "{len} {place} {word:04x}");
    }
    let silent = flags(false, part);
    assert!(rt; !(silent.v4 || silent.v6 || silent.tcp || silent.tuc));
}

#[test]
fn segments_over_ipv4_are_whole_or_not_there(rt: HostRuntime) {
    // the bytes kept, the place of one word and its new value
    let table: [Row; 51] = [
        (64, 14, 0x4500, Some((34, 62, 0x59be, 0xc30c))),
        (62, 14, 0x4500, Some((34, 62, 0x59be, 0xc30c))),
        (61, 14, 0x4500, None),
        (54, 14, 0x4500, None),
        (53, 14, 0x4500, None),
        (34, 14, 0x4500, None),
        (33, 14, 0x4500, None),
        (18, 14, 0x4500, None),
        (14, 14, 0x4500, None),
        (64, 16, 0x0000, None),
        (64, 16, 0x0014, None),
        (64, 16, 0x0027, None),
        (64, 16, 0x0028, Some((34, 54, 0x59b6, 0xcfcf))),
        (64, 16, 0x0029, Some((34, 55, 0x59b7, 0xcdce))),
        (64, 16, 0x002f, Some((34, 61, 0x59bd, 0xc30f))),
        (64, 16, 0x0031, Some((34, 63, 0x59bf, 0xd50a))),
        (64, 16, 0x0032, Some((34, 64, 0x59c0, 0xd41b))),
        (64, 16, 0x0033, None),
        (64, 16, 0x0130, None),
        (64, 16, 0xffff, None),
        (64, 14, 0x4000, None),
        (64, 14, 0x4100, None),
        (64, 14, 0x4200, None),
        (64, 14, 0x4300, None),
        (64, 14, 0x4400, None),
        (64, 14, 0x4500, Some((34, 62, 0x59be, 0xc30c))),
        (64, 14, 0x4600, Some((38, 62, 0x59ba, 0x0f84))),
        (64, 14, 0x4700, Some((42, 62, 0x59b6, 0x4548))),
        (64, 14, 0x4800, None),
        (64, 14, 0x4900, None),
        (64, 14, 0x4a00, None),
        (64, 14, 0x4b00, None),
        (64, 14, 0x4c00, None),
        (64, 14, 0x4d00, None),
        (64, 14, 0x4e00, None),
        (64, 14, 0x4f00, None),
        (64, 14, 0x5500, None),
        (64, 14, 0x6500, None),
        (64, 20, 0x0000, Some((34, 62, 0x59be, 0xc30c))),
        (64, 20, 0x8000, Some((34, 62, 0x59be, 0xc30c))),
        (64, 20, 0x2000, None),
        (64, 20, 0x6000, None),
        (64, 20, 0x4001, None),
        (64, 20, 0x1000, None),
        (64, 22, 0x8011, None),
        (64, 22, 0x8000, None),
        (64, 22, 0xff06, Some((34, 62, 0x59be, 0xc30c))),
        (64, 12, 0x86dd, None),
        (64, 12, 0x8100, None),
        (64, 12, 0x0806, None),
        (64, 50, 0xffff, Some((34, 62, 0x59be, 0xc30c))),
    ];
    for row in table {
        let mut frame = OVER_V4;
        holds(&rt, &mut frame, row, true);
    }
}

#[test]
fn segments_over_ipv6_are_whole_or_not_there(rt: HostRuntime) {
    // the bytes kept, the place of one word and its new value
    let table: [Row; 24] = [
        (80, 14, 0x6000, Some((54, 77, 0x5b92, 0x5d6d))),
        (77, 14, 0x6000, Some((54, 77, 0x5b92, 0x5d6d))),
        (76, 14, 0x6000, None),
        (74, 14, 0x6000, None),
        (73, 14, 0x6000, None),
        (54, 14, 0x6000, None),
        (53, 14, 0x6000, None),
        (80, 18, 0x0000, None),
        (80, 18, 0x0013, None),
        (80, 18, 0x0014, Some((54, 74, 0x5b8f, 0x21d3))),
        (80, 18, 0x0015, Some((54, 75, 0x5b90, 0xc0d1))),
        (80, 18, 0x0016, Some((54, 76, 0x5b91, 0xc06e))),
        (80, 18, 0x0018, Some((54, 78, 0x5b93, 0x5c7e))),
        (80, 18, 0x0019, Some((54, 79, 0x5b94, 0x6e7c))),
        (80, 18, 0x001a, Some((54, 80, 0x5b95, 0x6d8d))),
        (80, 18, 0x001b, None),
        (80, 18, 0x0117, None),
        (80, 18, 0xffff, None),
        (80, 20, 0x0040, None),
        (80, 20, 0x1140, None),
        (80, 20, 0x06ff, Some((54, 77, 0x5b92, 0x5d6d))),
        (80, 14, 0x4500, None),
        (80, 14, 0x7000, None),
        (80, 14, 0x6fff, Some((54, 77, 0x5b92, 0x5d6d))),
    ];
    for row in table {
        let mut frame = OVER_V6;
        holds(&rt, &mut frame, row, false);
    }
}

#[test]
fn sums_of_all_ones_are_not_zero(rt: HostRuntime) {
    // the bytes kept, the place of one word and its new value
    let table: [Row; 6] = [
        (60, 50, 0xffff, Some((34, 54, 0x141d, 0x894e))),
        (60, 50, 0x0000, Some((34, 54, 0x141d, 0x894e))),
        (60, 28, 0xebe3, Some((34, 54, 0xffff, 0x9d6b))),
        (60, 52, 0x894e, Some((34, 54, 0x141d, 0x0000))),
        (60, 52, 0x894d, Some((34, 54, 0x141d, 0x0001))),
        (60, 52, 0x894f, Some((34, 54, 0x141d, 0xfffe))),
    ];
    for row in table {
        let mut frame = BARE;
        holds(&rt, &mut frame, row, true);
    }
}

#[test]
fn one_tag_is_looked_through_and_no_second(rt: HostRuntime) {
    let mut once = [0; 64];
    once[..12].copy_from_slice(&BARE[..12]);
    once[12..16].copy_from_slice(&[0x81, 0x00, 0xa0, 0x05]);
    once[16..].copy_from_slice(&BARE[12..]);
    let mut twice = [0; 68];
    twice[..12].copy_from_slice(&BARE[..12]);
    twice[12..16].copy_from_slice(&[0x81, 0x00, 0xa0, 0x05]);
    twice[16..].copy_from_slice(&once[12..]);
    let whole = Some((38, 58, 0x141d, 0x894e));
    for (len, want) in [(64, whole), (58, whole), (57, None)] {
        let mut frame = once;
        holds(&rt, &mut frame, (len, 14, 0xa005, want), true);
    }
    holds(&rt, &mut twice, (68, 14, 0xa005, None), true);
}

#[test]
fn a_published_frame_gets_its_checksum_and_keeps_the_rest(rt: HostRuntime) {
    assert!(rt; flags(true, &OVER_V4).tuc);
    let mut frame = OVER_V4;
    put_word(&mut frame, 50, 0x1234);
    assert!(rt; !flags(true, &frame).tuc);
    let Some(mark) = seed(&mut frame) else {
        assert!(rt; false);
        return;
    };
    assert_eq!(rt; u16_at(&frame, 50), 0x59be);
    assert!(rt; !flags(true, &frame).tuc);
    fill(&mut frame, &mark);
    assert_eq!(rt; frame, OVER_V4);
}

#[test]
fn a_frame_without_a_segment_stays(rt: HostRuntime) {
    let mut frame = OVER_V4;
    frame[13] = 0x06;
    let before = frame;
    assert_eq!(rt; seed(&mut frame), None);
    assert_eq!(rt; frame, before);
}

#[test]
fn published_sums(rt: HostRuntime) {
    // the example of RFC 1071, section 3, whole and without its last byte
    let example = [0x00, 0x01, 0xf2, 0x03, 0xf4, 0xf5, 0xf6, 0xf7];
    assert_eq!(rt; word_sum(&example), 0x2ddf0);
    assert_eq!(rt; ones(0x2ddf0), 0xddf2);
    assert_eq!(rt; ones(word_sum(&example[..7])), 0xdcfb);
    // the header of an IPv4 packet without its checksum, which is 0xB861
    let header = [
        0x45, 0x00, 0x00, 0x73, 0x00, 0x00, 0x40, 0x00, 0x40, 0x11, 0x00, 0x00, 0xc0, 0xa8, 0x00,
        0x01, 0xc0, 0xa8, 0x00, 0xc7,
    ];
    assert_eq!(rt; 0xffff - ones(word_sum(&header)), 0xb861);
    assert_eq!(rt; word_sum(&[]), 0);
    assert_eq!(rt; word_sum(&[0xff]), 0xff00);
    for (sum, want) in [
        (0, 0),
        (1, 1),
        (65_534, 65_534),
        (65_535, 65_535),
        (65_536, 1),
        (131_070, 65_535),
        (131_071, 1),
        (4_294_967_295, 65_535),
        (4_294_967_294, 65_534),
    ] {
        assert_eq!(rt; ones(sum), want, "{sum}");
    }
}
