//! Values of a table, in their ranges and beside them, and the first of two faults.

use super::*;
use std::alloc::Global;
use std::process::Abort;
use std::test::Fail;
use toml::Table;

/// The top table.
const TOP: Spot = Spot {
    guest: None,
    action: None,
};

/// The table of a text.
fn table(rt: &impl Abort, alloc: Global, text: &str) -> Table {
    toml::table_from_str(alloc, text).ok().expect(rt, "a table")
}

/// A text, a key of it, and the number that is read there: or the number that is out of range, or none of both.
type NumberCase = (&'static str, NumberKey, Result<u32, Option<i64>>);

const NUMBERS: [NumberCase; 18] = [
    ("", NumberKey::PollEvery, Ok(1)),
    ("poll_every = 0", NumberKey::PollEvery, Err(Some(0))),
    ("poll_every = 4096", NumberKey::PollEvery, Ok(4_096)),
    ("poll_every = 4097", NumberKey::PollEvery, Err(Some(4_097))),
    ("mtu = 59", NumberKey::Mtu, Err(Some(59))),
    ("mtu = 60", NumberKey::Mtu, Ok(60)),
    ("mtu = 9001", NumberKey::Mtu, Err(Some(9_001))),
    ("mtu = \"60\"", NumberKey::Mtu, Err(None)),
    ("tx_ring = 32", NumberKey::TxRing, Ok(32)),
    ("tx_ring = 33", NumberKey::TxRing, Err(Some(33))),
    ("rx_ring1 = 4128", NumberKey::RxRing1, Err(Some(4_128))),
    ("rx_ring2 = 4096", NumberKey::RxRing2, Ok(4_096)),
    ("piece = 576", NumberKey::Piece { tx_data: false }, Ok(576)),
    (
        "piece = 639",
        NumberKey::Piece { tx_data: true },
        Err(Some(639)),
    ),
    ("piece = 640", NumberKey::Piece { tx_data: true }, Ok(640)),
    ("bodies = -1", NumberKey::Bodies, Err(Some(-1))),
    ("at = 6", NumberKey::At { from: 7 }, Err(Some(6))),
    ("at = 262144", NumberKey::At { from: 7 }, Ok(262_144)),
];

#[test]
fn numbers_have_ranges(rt: HostRuntime) -> Result<(), Fail> {
    let alloc = rt.alloc();
    for (text, key, want) in NUMBERS {
        let got = match number(alloc, TOP, key, &table(&rt, alloc, text)) {
            Ok(found) => Ok(found),
            Err(ConfigFault::Range { found, .. }) => Err(Some(found)),
            Err(_) => Err(None),
        };
        assert_eq!(&rt; got, want, "{text}");
    }
    Ok(())
}

#[test]
fn a_vlan_may_be_absent(rt: HostRuntime) -> Result<(), Fail> {
    let alloc = rt.alloc();
    let cases = [
        ("", Some(None)),
        ("vlan = 1", Some(Some(1))),
        ("vlan = 4094", Some(Some(4_094))),
        ("vlan = 4095", None),
        ("vlan = 0", None),
    ];
    for (text, want) in cases {
        let got = optional_number(alloc, TOP, NumberKey::Vlan, &table(&rt, alloc, text)).ok();
        assert_eq!(&rt; got, want, "{text}");
    }
    Ok(())
}

#[test]
fn truth_values_are_false_by_default(rt: HostRuntime) -> Result<(), Fail> {
    let alloc = rt.alloc();
    let cases = [
        ("", Some(false)),
        ("strip = true", Some(true)),
        ("strip = false", Some(false)),
        ("strip = 1", None),
    ];
    for (text, want) in cases {
        let got = truth(alloc, TOP, TruthKey::Strip, &table(&rt, alloc, text)).ok();
        assert_eq!(&rt; got, want, "{text}");
    }
    Ok(())
}

/// An address as text, and its bytes.
const MACS: [(&str, Option<[u8; 6]>); 7] = [
    ("00:50:56:00:00:01", Some([0, 0x50, 0x56, 0, 0, 1])),
    ("aB:Cd:eF:09:fF:Ff", Some([0xab, 0xcd, 0xef, 9, 0xff, 0xff])),
    ("00:50:56:00:00:1", None),
    ("00:50:56:00:00:001", None),
    ("00-50-56-00-00-01", None),
    ("00:50:56:00:00:0g", None),
    ("00:50:56:00:00:0`", None),
];

#[test]
fn addresses_are_six_pairs(rt: HostRuntime) -> Result<(), Fail> {
    for (text, want) in MACS {
        assert_eq!(&rt; mac_of(text), want, "{text}");
    }
    Ok(())
}

#[test]
fn names_have_letters_digits_and_underscores(rt: HostRuntime) -> Result<(), Fail> {
    let alloc = rt.alloc();
    let cases = [
        ("name = \"a\"", true),
        ("name = \"a_z09bcdefghijkl\"", true),
        ("name = \"a_z09bcdefghijklm\"", false),
        ("name = \"\"", false),
        ("name = \"A\"", false),
        ("name = \"{\"", false),
        ("name = \"a-b\"", false),
    ];
    for (text, want) in cases {
        let is_name = name(alloc, TOP, &table(&rt, alloc, text)).is_ok();
        assert_eq!(&rt; is_name, want, "{text}");
    }
    Ok(())
}

#[test]
fn prefixes_do_not_begin_with_a_dot_or_slash(rt: HostRuntime) -> Result<(), Fail> {
    let alloc = rt.alloc();
    let cases = [
        ("", true),
        ("output = \"runs/A.1_b\"", true),
        ("output = \".out\"", false),
        ("output = \"/out\"", false),
        ("output = \"o u t\"", false),
        ("output = 1", false),
    ];
    for (text, want) in cases {
        let is_prefix = output(alloc, TOP, &table(&rt, alloc, text)).is_ok();
        assert_eq!(&rt; is_prefix, want, "{text}");
    }
    Ok(())
}

#[test]
fn the_first_unknown_key_is_answered(rt: HostRuntime) -> Result<(), Fail> {
    let alloc = rt.alloc();
    let found = table(&rt, alloc, "zz = 1\noutput = 2\nab = 3\n");
    match known_keys(alloc, TOP, "", &["output", "poll_every", "guest"], &found) {
        Err(ConfigFault::Unknown { spot, key }) => {
            assert_eq!(&rt; spot, TOP);
            assert_eq!(&rt; key.as_str(), "ab");
        }
        _ => return Err(Fail::from("an unknown key")),
    }
    Ok(())
}
