//! Microsoft's published hashes ("Verifying the RSS Hash Calculation"), and the queues that they choose.

ghost use Rattle.std.specs.Prelude.{◌≡◌, ◌≤◌, ℕ, length, slice_index};

use super::*;
use vmx_frame::{Flow, Ports};
use vmx_shared_area::{MICROSOFT_KEY, Rss};

/// A setting with this table.
fn setting(types: u16, key: [u8; 40], entries: &[u8]) -> Rss
    requires types { types ≤ 15 }
    requires some { 1 ≤ length entries.now }
    requires few { length entries.now ≤ 128 }
{
    let size = entries.len() as u16;
    let table = padded(entries);
    Rss {
        types,
        key,
        size,
        table,
    }
}

fn padded(entries: &[u8]) -> [u8; 128]
    requires few { length entries.now ≤ 128 }
    ensures rest { (i : ℕ) → length entries.now ≤ i → slice_index result i ≡ 0 }
{
    let mut table = [0; 128];
    for (i, entry) in entries.iter().enumerate() {
        table[i] = *entry;
    }
    table
}

fn over_v4(source: [u8; 4], source_port: u16, target: [u8; 4], target_port: u16) -> Flow {
    let ports = Ports {
        source: source_port,
        target: target_port,
    };
    Flow::V4 {
        source,
        target,
        ports: Some(ports),
    }
}

#[test]
fn published_flows_have_their_hashes_and_queues(rt: HostRuntime) {
    let first = over_v4([66, 9, 149, 187], 2794, [161, 142, 100, 80], 1766);
    let second = over_v4([199, 92, 111, 2], 14230, [65, 69, 140, 83], 4739);
    // all types allowed, then the IPv4 addresses alone
    let ports = setting(15, MICROSOFT_KEY, &[3, 0, 1, 2]);
    let addresses = setting(1, MICROSOFT_KEY, &[3, 0, 1, 2]);
    let ports_of_three = setting(15, MICROSOFT_KEY, &[0, 1, 2]);
    let addresses_of_three = setting(1, MICROSOFT_KEY, &[0, 1, 2]);
    let table = [
        (first, &ports, 2, 0x51cc_c178, 3),
        (first, &addresses, 1, 0x323e_8fc2, 1),
        (second, &ports, 2, 0xc626_b0ea, 1),
        (second, &addresses, 1, 0xd718_262a, 1),
        (first, &ports_of_three, 2, 0x51cc_c178, 1),
        (first, &addresses_of_three, 1, 0x323e_8fc2, 2),
    ];
    for (flow, rss, kind, hash, queue) in table {
        assert_eq!(rt; choose(Some(rss), &flow), Choice { queue, hash, kind });
    }
    // 0x51ccc178 is a multiple of 8, and 0xc626b0ea is 2 modulo 8
    assert_eq!(rt; tx_queue(&first, 8), 0);
    assert_eq!(rt; tx_queue(&second, 8), 2);
    assert_eq!(rt; tx_queue(&Flow::NonIp, 8), 0);
}

#[test]
fn published_ipv6_flow_has_its_hashes(rt: HostRuntime) {
    let ports = Ports {
        source: 2794,
        target: 1766,
    };
    let flow = Flow::V6 {
        source: [
            0x3f, 0xfe, 0x25, 0x01, 0x02, 0x00, 0x1f, 0xff, 0, 0, 0, 0, 0, 0, 0, 7,
        ],
        target: [
            0x3f, 0xfe, 0x25, 0x01, 0x02, 0x00, 0x00, 0x03, 0, 0, 0, 0, 0, 0, 0, 1,
        ],
        ports: Some(ports),
    };
    // the type IPv6 alone, all types, and the IPv4 types
    let by_address = choose(Some(&setting(4, MICROSOFT_KEY, &[3, 0, 1, 2])), &flow);
    assert_eq!(rt; by_address.kind, 3);
    assert_eq!(rt; by_address.hash, 0x2cc1_8cd5);
    let by_ports = choose(Some(&setting(15, MICROSOFT_KEY, &[3, 0, 1, 2])), &flow);
    assert_eq!(rt; by_ports.kind, 4);
    assert_eq!(rt; by_ports.hash, 0x4020_7d3d);
    let none = Choice {
        queue: 0,
        hash: 0,
        kind: 0,
    };
    assert_eq!(rt;
        choose(Some(&setting(3, MICROSOFT_KEY, &[3, 0, 1, 2])), &flow),
        none
    );
    assert_eq!(rt; choose(None, &flow), none);
    assert_eq!(rt;
        choose(
            Some(&setting(15, MICROSOFT_KEY, &[3, 0, 1, 2])),
            &Flow::NonIp
        ),
        none
    );
}

#[test]
fn published_inputs_have_their_hashes(rt: HostRuntime) {
    let input = [66, 9, 149, 187, 161, 142, 100, 80, 10, 234, 6, 230];
    assert_eq!(rt; toeplitz(&MICROSOFT_KEY, &input), 0x51cc_c178);
    assert_eq!(rt; toeplitz(&MICROSOFT_KEY, &input[..8]), 0x323e_8fc2);
    assert_eq!(rt; toeplitz(&MICROSOFT_KEY, &[]), 0);
}
