//! What a plan gets.

use super::*;
use std::test::Fail;
use vmx_config::{Config, read};
use vmx_model::{Deed, GuestPlan};

const TEXT: &str = "output = \"runs/x\"
poll_every = 7
[[guest]]
name = \"first\"
mac = \"00:50:56:00:00:01\"
[[guest]]
name = \"second\"
mac = \"00:50:56:00:00:0A\"
capture = \"b.pcap\"
sniffer = true
vlan = 5
strip = true
mtu = 9000
tx_queues = 2
rx_queues = 3
tx_ring = 64
rx_ring1 = 96
rx_ring2 = 128
bodies = 1
tx_data = true
rx_data = true
piece = 640
mode = [\"promisc\", \"ucast\"]
multicast = [\"01:00:5e:00:00:01\", \"33:33:00:00:00:01\", \"01:00:5E:00:00:01\"]
vlans = [33]
rss = {}
script = [
  { at = 3, do = \"rss\", table = [2, 0] },
  { at = 3, do = \"quiesce\" },
  { at = 4, do = \"mode\", mode = [\"bcast\"] },
]
";

/// The configuration of the text.
fn config(rt: &impl Abort, alloc: Global) -> Config {
    read(alloc, TEXT.as_bytes())
        .ok()
        .expect(rt, "a configuration")
}

/// The guest with this number.
fn guest_at<'a>(rt: &impl Abort, config: &'a Config, index: usize) -> &'a GuestPlan {
    config
        .plan
        .guests
        .as_slice()
        .get(index)
        .expect(rt, "a guest")
}

#[test]
fn a_guest_has_defaults(rt: HostRuntime) -> Result<(), Fail> {
    let config = config(&rt, rt.alloc());
    let first = guest_at(&rt, &config, 0);
    assert_eq!(&rt; first.name.as_str(), "first");
    assert_eq!(&rt; first.mac, [0, 0x50, 0x56, 0, 0, 1]);
    assert_eq!(&rt;
        (first.sniffer, first.vlan, first.piece, first.bodies),
        (false, None, 4_096, 0)
    );
    assert_eq!(&rt; first.setup, vmx_shared_area::Setup::by_default());
    assert!(&rt; first.script.is_empty());
    Ok(())
}

#[test]
fn the_top_table_is_kept(rt: HostRuntime) -> Result<(), Fail> {
    let config = config(&rt, rt.alloc());
    assert_eq!(&rt; config.plan.prefix.as_str(), "runs/x");
    assert_eq!(&rt; config.plan.poll_every, 7);
    assert_eq!(&rt; config.plan.guests.len(), 2);
    assert_eq!(&rt; config.captures.len(), 2);
    match config.captures.as_slice() {
        [None, Some(name)] => assert_eq!(&rt; name.as_str(), "b.pcap"),
        _ => return Err(Fail::from("the names of captures")),
    }
    Ok(())
}

#[test]
fn a_port_is_kept(rt: HostRuntime) -> Result<(), Fail> {
    let config = config(&rt, rt.alloc());
    let second = guest_at(&rt, &config, 1);
    assert_eq!(&rt; second.mac, [0, 0x50, 0x56, 0, 0, 10]);
    assert_eq!(&rt;
        (second.sniffer, second.vlan, second.piece, second.bodies),
        (true, Some(5), 640, 1)
    );
    assert_eq!(&rt; second.capture.records.len(), 0);
    assert_eq!(&rt; second.capture.tail, 0);
    Ok(())
}

#[test]
fn a_setup_is_kept(rt: HostRuntime) -> Result<(), Fail> {
    let config = config(&rt, rt.alloc());
    let setup = guest_at(&rt, &config, 1).setup;
    assert_eq!(&rt;
        (setup.tx_queues, setup.rx_queues, setup.mtu),
        (2, 3, 9_000)
    );
    assert_eq!(&rt;
        (setup.tx_ring, setup.rx_ring1, setup.rx_ring2),
        (64, 96, 128)
    );
    assert_eq!(&rt;
        (setup.tx_data, setup.rx_data, setup.strip, setup.csum),
        (true, true, true, false)
    );
    Ok(())
}

#[test]
fn a_filter_is_kept(rt: HostRuntime) -> Result<(), Fail> {
    let config = config(&rt, rt.alloc());
    let filter = guest_at(&rt, &config, 1).setup.filter;
    assert_eq!(&rt; (filter.mode, filter.multicast.count), (17, 2));
    let macs = filter.multicast.macs;
    assert_eq!(&rt; macs[1], [0x33, 0x33, 0, 0, 0, 1]);
    let vlans = filter.vlans;
    assert_eq!(&rt; (vlans[0], vlans[1]), (0, 2));
    Ok(())
}

#[test]
fn rss_has_defaults(rt: HostRuntime) -> Result<(), Fail> {
    let config = config(&rt, rt.alloc());
    let rss = guest_at(&rt, &config, 1)
        .setup
        .rss
        .expect(&rt, "an RSS setting");
    assert_eq!(&rt; (rss.types, rss.size), (15, 128));
    assert_eq!(&rt; rss.key, vmx_shared_area::MICROSOFT_KEY);
    assert_eq!(&rt; (rss.table[0], rss.table[5], rss.table[127]), (0, 2, 1));
    Ok(())
}

#[test]
fn a_script_is_kept(rt: HostRuntime) -> Result<(), Fail> {
    let config = config(&rt, rt.alloc());
    match guest_at(&rt, &config, 1).script.as_slice() {
        [first, second, third] => {
            assert_eq!(&rt; (first.at, second.at, third.at), (3, 3, 4));
            assert!(&rt; matches!(&first.deed, Deed::Rss { size: 2, .. }));
            assert!(&rt; matches!(&second.deed, Deed::Quiesce));
            assert!(&rt; matches!(&third.deed, Deed::Mode { mode: 4 }));
        }
        _ => return Err(Fail::from("three actions")),
    }
    Ok(())
}
