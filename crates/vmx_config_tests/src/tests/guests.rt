//! The table of a guest.

use super::*;
use std::test::Fail;

const NAMES: [(&str, &str); 17] = [
    ("[[guest]]\nname = \"a_z09\"\n", "guest 0 mac: missing"),
    ("[[guest]]\nname = \"\"\n", "guest 0 name: form"),
    ("[[guest]]\nname = \"A\"\n", "guest 0 name: form"),
    ("[[guest]]\nname = \"`\"\n", "guest 0 name: form"),
    ("[[guest]]\nname = \"{\"\n", "guest 0 name: form"),
    ("[[guest]]\nname = \"/\"\n", "guest 0 name: form"),
    ("[[guest]]\nname = \":\"\n", "guest 0 name: form"),
    ("[[guest]]\nname = \"a-b\"\n", "guest 0 name: form"),
    (
        "[[guest]]\nname = \"abcdefghijklmnop\"\n",
        "guest 0 mac: missing",
    ),
    (
        "[[guest]]\nname = \"abcdefghijklmnopq\"\n",
        "guest 0 name: form",
    ),
    ("[[guest]]\nname = \"a\"\nmac = 1\n", "guest 0 mac: kind"),
    (
        "[[guest]]\nname = \"a\"\nmac = \"fE:fF:0a:B0:99:00\"\n",
        "ok",
    ),
    (
        "[[guest]]\nname = \"a\"\nmac = \"01:00:00:00:00:00\"\n",
        "guest 0 mac: form",
    ),
    (
        "[[guest]]\nname = \"a\"\nmac = \"00:00:00:00:00\"\n",
        "guest 0 mac: form",
    ),
    (
        "[[guest]]\nname = \"a\"\nmac = \"00:00:00:00:00:0g\"\n",
        "guest 0 mac: form",
    ),
    (
        "[[guest]]\nname = \"a\"\nmac = \"00:00:00:00:00:0:\"\n",
        "guest 0 mac: form",
    ),
    (
        "[[guest]]\nname = \"a\"\nmac = \"00-00-00-00-00-00\"\n",
        "guest 0 mac: form",
    ),
];

#[test]
fn names_and_addresses_have_a_form(rt: HostRuntime) -> Result<(), Fail> {
    check(&rt, rt.alloc(), Row::Whole, &NAMES)?;
    Ok(())
}

const PORTS: [(&str, &str); 19] = [
    ("", "ok"),
    ("x = 1", "guest 0 x: unknown"),
    ("mtu = 59\nscripts = 1\nrx = 1", "guest 0 rx: unknown"),
    ("capture = 1", "guest 0 capture: kind"),
    ("capture = \"\"", "guest 0 capture: form"),
    ("capture = \"x\"", "ok"),
    ("sniffer = 1", "guest 0 sniffer: kind"),
    ("sniffer = true", "ok"),
    ("vlan = 0", "guest 0 vlan: 0 out of range"),
    ("vlan = 1", "ok"),
    ("vlan = 4094", "ok"),
    ("vlan = 4095", "guest 0 vlan: 4095 out of range"),
    ("vlan = \"1\"", "guest 0 vlan: kind"),
    ("strip = 0", "guest 0 strip: kind"),
    ("mtu = 59", "guest 0 mtu: 59 out of range"),
    ("mtu = 60", "ok"),
    ("mtu = 9000", "ok"),
    ("mtu = 9001", "guest 0 mtu: 9001 out of range"),
    ("mtu = 59\nsniffer = 1", "guest 0 sniffer: kind"),
];

#[test]
fn ports_have_ranges(rt: HostRuntime) -> Result<(), Fail> {
    check(&rt, rt.alloc(), Row::Guest, &PORTS)?;
    Ok(())
}

const QUEUES: [(&str, &str); 20] = [
    ("tx_queues = 0", "guest 0 tx_queues: 0 out of range"),
    ("tx_queues = 1", "ok"),
    ("tx_queues = 8", "ok"),
    ("tx_queues = 9", "guest 0 tx_queues: 9 out of range"),
    ("rx_queues = 0", "guest 0 rx_queues: 0 out of range"),
    ("rx_queues = 1", "ok"),
    ("rx_queues = 8", "ok"),
    ("rx_queues = 9", "guest 0 rx_queues: 9 out of range"),
    ("bodies = -1", "guest 0 bodies: -1 out of range"),
    ("bodies = 0", "ok"),
    ("bodies = 2", "ok"),
    ("bodies = 3", "guest 0 bodies: 3 out of range"),
    ("tx_data = 1", "guest 0 tx_data: kind"),
    ("rx_data = 1", "guest 0 rx_data: kind"),
    ("piece = 575", "guest 0 piece: 575 out of range"),
    ("piece = 576", "ok"),
    ("piece = 4096", "ok"),
    ("piece = 4097", "guest 0 piece: 4097 out of range"),
    (
        "piece = 639\ntx_data = true",
        "guest 0 piece: 639 out of range",
    ),
    ("piece = 640\ntx_data = true", "ok"),
];

#[test]
fn queues_have_ranges(rt: HostRuntime) -> Result<(), Fail> {
    check(&rt, rt.alloc(), Row::Guest, &QUEUES)?;
    Ok(())
}

const RINGS: [(&str, &str); 18] = [
    ("tx_ring = 0", "guest 0 tx_ring: 0 out of range"),
    ("tx_ring = 31", "guest 0 tx_ring: 31 out of range"),
    ("tx_ring = 32", "ok"),
    ("tx_ring = 33", "guest 0 tx_ring: 33 out of range"),
    ("tx_ring = 4096", "ok"),
    ("tx_ring = 4128", "guest 0 tx_ring: 4128 out of range"),
    ("rx_ring1 = 0", "guest 0 rx_ring1: 0 out of range"),
    ("rx_ring1 = 31", "guest 0 rx_ring1: 31 out of range"),
    ("rx_ring1 = 32", "ok"),
    ("rx_ring1 = 48", "guest 0 rx_ring1: 48 out of range"),
    ("rx_ring1 = 4096", "ok"),
    ("rx_ring1 = 4097", "guest 0 rx_ring1: 4097 out of range"),
    ("rx_ring2 = 0", "guest 0 rx_ring2: 0 out of range"),
    ("rx_ring2 = 31", "guest 0 rx_ring2: 31 out of range"),
    ("rx_ring2 = 32", "ok"),
    ("rx_ring2 = 63", "guest 0 rx_ring2: 63 out of range"),
    ("rx_ring2 = 4096", "ok"),
    ("rx_ring2 = 4128", "guest 0 rx_ring2: 4128 out of range"),
];

#[test]
fn rings_are_multiples_of_32(rt: HostRuntime) -> Result<(), Fail> {
    check(&rt, rt.alloc(), Row::Guest, &RINGS)?;
    Ok(())
}

const ARRAYS: [(&str, &str); 20] = [
    ("mode = 1", "guest 0 mode: kind"),
    ("mode = []", "ok"),
    (
        "mode = [\"ucast\", \"mcast\", \"bcast\", \"allmulti\", \"promisc\"]",
        "ok",
    ),
    ("mode = [1, 2, 3, 4, 5, 6]", "guest 0 mode: 6 out of range"),
    ("mode = [\"ucast\", 3]", "guest 0 mode: kind"),
    ("mode = [\"Ucast\", 3]", "guest 0 mode: form"),
    ("multicast = 1", "guest 0 multicast: kind"),
    ("multicast = []", "ok"),
    ("multicast = [\"01:00:5e:00:00:01\"]", "ok"),
    (
        "multicast = [\"00:00:5e:00:00:01\", 1]",
        "guest 0 multicast: form",
    ),
    (
        "multicast = [1, \"00:00:5e:00:00:01\"]",
        "guest 0 multicast: kind",
    ),
    ("multicast = [\"all\"]", "guest 0 multicast: form"),
    ("vlans = 1", "guest 0 vlans: kind"),
    ("vlans = []", "ok"),
    ("vlans = [-1]", "guest 0 vlans: -1 out of range"),
    ("vlans = [0, 4095, 0]", "ok"),
    (
        "vlans = [0, 4096, \"1\"]",
        "guest 0 vlans: 4096 out of range",
    ),
    ("vlans = [\"1\", 4096]", "guest 0 vlans: kind"),
    ("script = 1", "guest 0 script: kind"),
    ("script = [{}, 1]", "guest 0 script: kind"),
];

#[test]
fn arrays_are_looked_at_count_first(rt: HostRuntime) -> Result<(), Fail> {
    check(&rt, rt.alloc(), Row::Guest, &ARRAYS)?;
    Ok(())
}

const RSS: [(&str, &str); 18] = [
    ("rss = 1", "guest 0 rss: kind"),
    ("rss = {}", "ok"),
    ("rss.types = 1\nrss.x = 1", "guest 0 rss.x: unknown"),
    ("rss.types = 1", "guest 0 rss.types: kind"),
    ("rss.types = []", "ok"),
    ("rss.types = [\"ipv4\", \"tcp4\", \"ipv6\", \"tcp6\"]", "ok"),
    (
        "rss.types = [1, 2, 3, 4, 5]",
        "guest 0 rss.types: 5 out of range",
    ),
    (
        "rss.types = [\"udp4\"]\nrss.key = 1",
        "guest 0 rss.types: form",
    ),
    ("rss.types = [4]", "guest 0 rss.types: kind"),
    ("rss.key = 1\nrss.table = 1", "guest 0 rss.key: kind"),
    ("rss.key = \"\"", "guest 0 rss.key: form"),
    ("rss.table = 1", "guest 0 rss.table: kind"),
    ("rss.table = []", "guest 0 rss.table: 0 out of range"),
    ("rss.table = [0]", "ok"),
    ("rss.table = [1]", "guest 0 rss.table: 1 out of range"),
    ("rss.table = [-1]", "guest 0 rss.table: -1 out of range"),
    ("rx_queues = 8\nrss.table = [0, 7]", "ok"),
    (
        "rx_queues = 8\nrss.table = [8, \"0\"]",
        "guest 0 rss.table: 8 out of range",
    ),
];

#[test]
fn rss_is_read_at_its_turn(rt: HostRuntime) -> Result<(), Fail> {
    check(&rt, rt.alloc(), Row::Guest, &RSS)?;
    Ok(())
}

const COUNTS: [(&str, &str, usize, &str, &str); 12] = [
    ("capture = \"", "x", 255, "\"", "ok"),
    ("capture = \"", "x", 256, "\"", "guest 0 capture: form"),
    ("multicast = [", "\"01:00:5e:00:00:01\",", 256, "]", "ok"),
    (
        "multicast = [",
        "1,",
        257,
        "]",
        "guest 0 multicast: 257 out of range",
    ),
    ("vlans = [", "7,", 4_096, "]", "ok"),
    (
        "vlans = [",
        "\"\",",
        4_097,
        "]",
        "guest 0 vlans: 4097 out of range",
    ),
    ("rss.key = \"", "0F", 40, "\"", "ok"),
    ("rss.key = \"", "0", 79, "\"", "guest 0 rss.key: form"),
    ("rss.key = \"", "0", 81, "\"", "guest 0 rss.key: form"),
    ("rss.key = \"", "0g", 40, "\"", "guest 0 rss.key: form"),
    ("rss.table = [", "0,", 128, "]", "ok"),
    (
        "rss.table = [",
        "0,",
        129,
        "]",
        "guest 0 rss.table: 129 out of range",
    ),
];

#[test]
fn counts_have_ranges(rt: HostRuntime) -> Result<(), Fail> {
    let alloc = rt.alloc();
    for (before, piece, count, after, want) in COUNTS {
        let lines = repeated(alloc, before, piece, count, after)?;
        let text = guest(alloc, lines.as_str())?;
        let got = answer(alloc, text.as_str())?;
        assert_eq!(&rt; got.as_str(), want, "{count} of {piece}");
    }
    Ok(())
}
