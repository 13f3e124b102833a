//! Frames by hand: the readings that no clause can tell from a misreading.

ghost use Rattle.std.specs.Prelude.{◌≤◌, length};

use super::*;
use std::alloc::{AllocError, Global};

/// A TCP segment with no payload from 192.0.2.1 port 4,660 to 198.51.100.7 port 80, over IPv4.
const OVER_V4: [u8; 54] = [
    0x00, 0x50, 0x56, 0x00, 0x00, 0x02, 0x00, 0x50, 0x56, 0x00, 0x00, 0x01, 0x08, 0x00, 0x45, 0x00,
    0x00, 0x28, 0x00, 0x01, 0x00, 0x00, 0x40, 0x06, 0x00, 0x00, 192, 0, 2, 1, 198, 51, 100, 7,
    0x12, 0x34, 0x00, 0x50, 0, 0, 0, 1, 0, 0, 0, 0, 0x50, 0x02, 0x20, 0x00, 0, 0, 0, 0,
];

/// The same over IPv6, from 2001:db8::1 to 2001:db8::2.
const OVER_V6: [u8; 74] = [
    0x00, 0x50, 0x56, 0x00, 0x00, 0x02, 0x00, 0x50, 0x56, 0x00, 0x00, 0x01, 0x86, 0xdd, 0x60, 0x00,
    0x00, 0x00, 0x00, 0x14, 0x06, 0x40, 0x20, 0x01, 0x0d, 0xb8, 0, 0, 0, 0, 0, 0, 0, 0, 0, 0, 0, 1,
    0x20, 0x01, 0x0d, 0xb8, 0, 0, 0, 0, 0, 0, 0, 0, 0, 0, 0, 2, 0x12, 0x34, 0x00, 0x50, 0, 0, 0, 1,
    0, 0, 0, 0, 0x50, 0x02, 0x20, 0x00, 0, 0, 0, 0,
];

/// What a flow shows at a glance.
#[derive(Clone, Copy, Debug, PartialEq, Eq)]
enum Sight {
    Nothing,
    Addresses,
    Both,
}

fn at_a_glance(flow: Flow) -> Sight {
    match flow {
        Flow::NonIp => Sight::Nothing,
        Flow::V4 { ports: None, .. } | Flow::V6 { ports: None, .. } => Sight::Addresses,
        Flow::V4 { .. } | Flow::V6 { .. } => Sight::Both,
    }
}

#[test]
fn whole_headers_give_addresses_and_ports(rt: HostRuntime) {
    let ports = Some(Ports {
        source: 4660,
        target: 80,
    });
    let over_v4 = Flow::V4 {
        source: [192, 0, 2, 1],
        target: [198, 51, 100, 7],
        ports,
    };
    let over_v6 = Flow::V6 {
        source: [0x20, 0x01, 0x0d, 0xb8, 0, 0, 0, 0, 0, 0, 0, 0, 0, 0, 0, 1],
        target: [0x20, 0x01, 0x0d, 0xb8, 0, 0, 0, 0, 0, 0, 0, 0, 0, 0, 0, 2],
        ports,
    };
    assert_eq!(rt; flow(&OVER_V4), over_v4);
    assert_eq!(rt; flow(&OVER_V6), over_v6);
}

#[test]
fn near_misses_lose_the_ports_or_the_flow(rt: HostRuntime) {
    // the bytes kept, the place of one byte and its new value
    let over_v4 = [
        (54, 14, 0x45, Sight::Both),
        (53, 14, 0x45, Sight::Addresses),
        (34, 14, 0x45, Sight::Addresses),
        (33, 14, 0x45, Sight::Nothing),
        (54, 14, 0x44, Sight::Nothing),
        (54, 14, 0x46, Sight::Addresses),
        (54, 14, 0x4a, Sight::Addresses),
        (54, 14, 0x4b, Sight::Nothing),
        (54, 14, 0x55, Sight::Nothing),
        (54, 23, 0x11, Sight::Addresses),
        (54, 20, 0x20, Sight::Addresses),
        (54, 20, 0x01, Sight::Addresses),
        (54, 21, 0x01, Sight::Addresses),
        (54, 20, 0x40, Sight::Both),
        (54, 20, 0x80, Sight::Both),
        (54, 13, 0x06, Sight::Nothing),
    ];
    for (len, place, byte, want) in over_v4 {
        let mut frame = OVER_V4;
        assert!(rt; len >= 14 && len <= 54 && place < 54);
        frame[place] = byte;
        assert_eq!(rt;
            at_a_glance(flow(&frame[..len])),
            want,
            "IPv4 {len} {place} {byte}"
        );
    }
    // 0x00 at 20 is a hop-by-hop header before TCP
    let over_v6 = [
        (74, 20, 0x06, Sight::Both),
        (73, 20, 0x06, Sight::Addresses),
        (54, 20, 0x06, Sight::Addresses),
        (53, 20, 0x06, Sight::Nothing),
        (74, 20, 0x00, Sight::Addresses),
        (74, 20, 0x11, Sight::Addresses),
        (74, 14, 0x45, Sight::Nothing),
    ];
    for (len, place, byte, want) in over_v6 {
        let mut frame = OVER_V6;
        assert!(rt; len >= 14 && len <= 74 && place < 74);
        frame[place] = byte;
        assert_eq!(rt;
            at_a_glance(flow(&frame[..len])),
            want,
            "IPv6 {len} {place} {byte}"
        );
    }
}

#[test]
fn one_tag_is_looked_through_and_no_second(rt: HostRuntime) {
    let mut once = [0; 58];
    once[..12].copy_from_slice(&OVER_V4[..12]);
    once[12..16].copy_from_slice(&[0x81, 0x00, 0xa0, 0x05]);
    once[16..].copy_from_slice(&OVER_V4[12..]);
    assert_eq!(rt; tag(&once), Some(5));
    assert_eq!(rt; flow(&once), flow(&OVER_V4));
    assert_eq!(rt; at_a_glance(flow(&once[..57])), Sight::Addresses);

    let mut twice = [0; 62];
    twice[..12].copy_from_slice(&once[..12]);
    twice[12..16].copy_from_slice(&[0x81, 0x00, 0x00, 0x07]);
    twice[16..].copy_from_slice(&once[12..]);
    assert_eq!(rt; tag(&twice), Some(7));
    assert_eq!(rt; flow(&twice), Flow::NonIp);
}

#[test]
fn a_tag_needs_eighteen_bytes(rt: HostRuntime) {
    let frame = [
        0, 0, 0, 0, 0, 0, 0, 0, 0, 0, 0, 0, 0x81, 0x00, 0xa0, 0x05, 0x08, 0x00,
    ];
    assert_eq!(rt; tag(&frame[..17]), None);
    assert_eq!(rt; tag(&frame), Some(5));
    assert_eq!(rt; tag(&OVER_V4), None);
}

/// A frame of type 0x0806 with four bytes of payload.
const BARE: [u8; 18] = [
    0x02, 0, 0, 0, 0, 0x0b, 0x02, 0, 0, 0, 0, 0x0a, 0x08, 0x06, 0xd1, 0xd2, 0xd3, 0xd4,
];

/// The same with a tag of priority 5 and VLAN 0x105.
const TAGGED: [u8; 22] = [
    0x02, 0, 0, 0, 0, 0x0b, 0x02, 0, 0, 0, 0, 0x0a, 0x81, 0x00, 0xa1, 0x05, 0x08, 0x06, 0xd1, 0xd2,
    0xd3, 0xd4,
];

/// Whether putting the tag 0xA105 into `bare` gives `tagged`, and taking it out of that gives `bare`.
fn goes_there_and_back(alloc: Global, bare: &[u8], tagged: &[u8]) -> Result<bool, AllocError>
    requires header { HEADER_LEN ≤ length bare.now }
    requires few { length bare.now ≤ 18 }
    requires tagged_header { HEADER_LEN ≤ length tagged.now }
    requires tagged_few { length tagged.now ≤ 22 }
{
    let mut into = Vec::with_capacity(alloc, 22)?;
    put(bare, 0xa105, &mut into);
    let mut out_of = Vec::with_capacity(alloc, 22)?;
    let tci = strip(tagged, &mut out_of);
    Ok(into.as_slice() == tagged && tci == Some(0xa105) && out_of.as_slice() == bare)
}

#[test]
fn tags_go_in_and_come_out(rt: HostRuntime) -> Result<(), AllocError> {
    for len in 14..19 {
        let back = goes_there_and_back(rt.alloc(), &BARE[..len], &TAGGED[..len + 4])?;
        assert!(rt; back, "{len} bytes");
    }
    Ok(())
}

#[test]
fn a_frame_without_a_tag_comes_out_whole(rt: HostRuntime) -> Result<(), AllocError> {
    // from 18 bytes on the type 0x8100 is a tag's
    for (len, want) in [
        (14, None),
        (17, None),
        (18, Some(0xa105)),
        (22, Some(0xa105)),
    ] {
        let mut into = Vec::with_capacity(rt.alloc(), 22)?;
        let tci = strip(&TAGGED[..len], &mut into);
        assert_eq!(rt; tci, want, "{len} bytes");
        let kept = if want.is_some() { len - 4 } else { len };
        assert_eq!(rt; into.len(), kept, "{len} bytes");
    }
    Ok(())
}

#[test]
fn classes_go_by_the_destination(rt: HostRuntime) {
    let table = [
        ([0xff, 0xff, 0xff, 0xff, 0xff, 0xff], Class::Broadcast),
        ([0xff, 0xff, 0xff, 0xff, 0xff, 0xfe], Class::Multicast),
        ([0x01, 0x00, 0x5e, 0x00, 0x00, 0x01], Class::Multicast),
        ([0xfe, 0xff, 0xff, 0xff, 0xff, 0xff], Class::Unicast),
        ([0x00, 0x50, 0x56, 0x00, 0x00, 0x01], Class::Unicast),
    ];
    for (address, want) in table {
        let mut frame = OVER_V4;
        frame[..6].copy_from_slice(&address);
        assert_eq!(rt; class(&frame), want, "{address:?}");
    }
}
