//! Filters by hand: each mode alone, and which rule comes first.

ghost use Rattle.std.specs.Prelude.{◌<◌};

use super::*;
use vmx_shared_area::{Filter, MacTable};

const OWN: [u8; 6] = [0x00, 0x50, 0x56, 0x00, 0x00, 0x01];

const OTHER: [u8; 6] = [0x00, 0x50, 0x56, 0x00, 0x00, 0x02];

const LISTED: [u8; 6] = [0x01, 0x00, 0x5e, 0x00, 0x00, 0x01];

const UNLISTED: [u8; 6] = [0x01, 0x00, 0x5e, 0x00, 0x00, 0x02];

const BROADCAST: [u8; 6] = [0xff; 6];

/// The multicast table of `LISTED` alone.
fn listed_table() -> MacTable {
    let mut macs = [[0; 6]; 256];
    macs[0] = LISTED;
    MacTable { count: 1, macs }
}

/// A filter that lists `LISTED` and lets in the VLAN 5.
fn filter_of(mode: u32) -> Filter
    requires mode { mode < 32 }
{
    let mut vlans = [0; 128];
    vlans[0] = 1 << 5;
    let multicast = listed_table();
    Filter {
        mode,
        multicast,
        vlans,
    }
}

fn untagged(destination: &[u8; 6]) -> [u8; 60] {
    let mut frame = [0; 60];
    frame[..6].copy_from_slice(destination);
    frame
}

fn tagged(destination: &[u8; 6], vlan: u8) -> [u8; 60] {
    let mut frame = untagged(destination);
    frame[12] = 0x81;
    frame[15] = vlan;
    frame
}

#[test]
fn classes_need_their_modes(rt: HostRuntime) {
    let unicast = Verdict::No {
        rule: Rule::Unicast,
    };
    let multicast = Verdict::No {
        rule: Rule::Multicast,
    };
    let broadcast = Verdict::No {
        rule: Rule::Broadcast,
    };
    // 7 is UCAST, MCAST and BCAST
    let table = [
        (7, OWN, Verdict::Yes),
        (7, OTHER, unicast),
        (6, OWN, unicast),
        (7, LISTED, Verdict::Yes),
        (7, UNLISTED, multicast),
        (5, LISTED, multicast),
        (8, UNLISTED, Verdict::Yes),
        (7, BROADCAST, Verdict::Yes),
        (1, BROADCAST, broadcast),
        (10, BROADCAST, broadcast),
        (16, OTHER, Verdict::Yes),
        (0, OWN, unicast),
    ];
    for (mode, destination, want) in table {
        assert!(rt; mode < 32);
        let verdict = admits(&filter_of(mode), &OWN, &untagged(&destination));
        assert_eq!(rt; verdict, want, "{mode} {destination:?}");
    }
}

#[test]
fn vlans_come_after_promisc_and_before_the_class(rt: HostRuntime) {
    let vlan = Verdict::No { rule: Rule::Vlan };
    let unicast = Verdict::No {
        rule: Rule::Unicast,
    };
    let table = [
        (7, OWN, 5, Verdict::Yes),
        (7, OWN, 0, Verdict::Yes),
        (7, OWN, 7, vlan),
        (7, OTHER, 7, vlan),
        (7, OTHER, 5, unicast),
        (16, OTHER, 7, Verdict::Yes),
    ];
    for (mode, destination, number, want) in table {
        assert!(rt; mode < 32);
        let verdict = admits(&filter_of(mode), &OWN, &tagged(&destination, number));
        assert_eq!(rt; verdict, want, "{mode} {destination:?} {number}");
    }
}
