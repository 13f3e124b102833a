//! Switches by hand, and the tests of a table's condition.

use super::*;

/// The address of port i is 00:50:56:00:00:0(i + 1).
const MACS: [[u8; 6]; 4] = [
    [0x00, 0x50, 0x56, 0x00, 0x00, 0x01],
    [0x00, 0x50, 0x56, 0x00, 0x00, 0x02],
    [0x00, 0x50, 0x56, 0x00, 0x00, 0x03],
    [0x00, 0x50, 0x56, 0x00, 0x00, 0x04],
];

const BROADCAST: [u8; 6] = [0xff; 6];

const MULTICAST: [u8; 6] = [0x01, 0x00, 0x5e, 0x00, 0x00, 0x01];

const NOBODY: [u8; 6] = [0x00, 0x50, 0x56, 0x00, 0x00, 0x09];

fn frame_to(destination: &[u8; 6]) -> [u8; 60] {
    let mut frame = [0; 60];
    frame[..6].copy_from_slice(destination);
    frame
}

fn padded(ports: &[u32; 3]) -> [u32; 16] {
    let mut padded = [0; 16];
    padded[..3].copy_from_slice(ports);
    padded
}

#[test]
fn owners_groups_and_sniffers_are_listed_once(rt: HostRuntime) {
    // the sniffer, if any; the sender; the destination; the targets
    let table = [
        (9, 0, MACS[1], 1, [1, 0, 0]),
        (9, 0, MACS[0], 0, [0, 0, 0]),
        (9, 0, NOBODY, 0, [0, 0, 0]),
        (9, 0, BROADCAST, 3, [1, 2, 3]),
        (9, 2, MULTICAST, 3, [0, 1, 3]),
        (2, 0, MACS[2], 1, [2, 0, 0]),
        (2, 2, MACS[2], 0, [0, 0, 0]),
        (2, 0, NOBODY, 1, [2, 0, 0]),
        (2, 3, MACS[0], 2, [0, 2, 0]),
        (2, 1, BROADCAST, 3, [0, 2, 3]),
    ];
    for (sniffer, from, destination, count, ports) in table {
        let sniffers = [sniffer == 0, sniffer == 1, sniffer == 2, sniffer == 3];
        assert!(rt; Table::fits(&MACS, &sniffers));
        let switch = Table::new(&MACS, &sniffers);
        assert_eq!(rt; switch.len(), 4);
        assert!(rt; from < 4);
        let found = targets(&switch, from, &frame_to(&destination));
        assert_eq!(rt;
            found.count,
            count,
            "{from} to {destination:?} past {sniffer}"
        );
        assert_eq!(rt;
            found.ports,
            padded(&ports),
            "{from} to {destination:?} past {sniffer}"
        );
    }
}

#[test]
fn a_table_needs_unicast_addresses_that_differ(rt: HostRuntime) {
    assert!(rt; Table::fits(&MACS[..1], &[true]));
    assert!(rt; !Table::fits(&[], &[]));
    assert!(rt; !Table::fits(&MACS, &[false; 3]));
    assert!(rt; !Table::fits(&[MACS[0], MACS[1], MACS[0]], &[false; 3]));
    assert!(rt; !Table::fits(&[MACS[0], MULTICAST], &[false; 2]));
    let mut many = [[0x02; 6]; 17];
    for (i, mac) in many.iter_mut().enumerate() {
        mac[5] = i as u8;
    }
    assert!(rt; Table::fits(&many[..16], &[false; 16]));
    assert!(rt; !Table::fits(&many, &[false; 17]));
}
