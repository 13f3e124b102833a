//! Arrays by their counts and elements, and the first of two faults.

use super::*;
use std::alloc::Global;
use std::process::Abort;
use std::test::Fail;
use toml::{Table, Value};
use vmx_config_rows::{ConfigFault, Spot};

/// The second guest.
const GUEST: Spot = Spot {
    guest: Some(1),
    action: None,
};

/// The table whose key `x` has this value.
fn table(rt: &impl Abort, alloc: Global, value: &str) -> Table {
    let text = format!(in alloc; "x = {value}\n").ok().expect(rt, "memory");
    toml::table_from_str(alloc, text.as_str())
        .ok()
        .expect(rt, "a table")
}

/// The value at `x`.
fn value<'a>(rt: &impl Abort, table: &'a Table) -> &'a Value {
    table.get("x").expect(rt, "a value")
}

/// What a reader answered, without keys and spots.
#[derive(Clone, Copy, Debug, Drop, PartialEq, Eq)]
enum Answer {
    Number(u32),
    Kind,
    Form,
    Range(i64),
    Other,
}

fn answer_of(read: Result<u32, ConfigFault>) -> Answer {
    match read {
        Ok(number) => Answer::Number(number),
        Err(ConfigFault::Kind { .. }) => Answer::Kind,
        Err(ConfigFault::Form { .. }) => Answer::Form,
        Err(ConfigFault::Range { found, .. }) => Answer::Range(found),
        Err(_) => Answer::Other,
    }
}

const MODES: [(&str, Answer); 7] = [
    ("[]", Answer::Number(0)),
    ("[\"promisc\", \"ucast\", \"ucast\"]", Answer::Number(17)),
    (
        "[\"ucast\", \"mcast\", \"bcast\", \"allmulti\", \"promisc\"]",
        Answer::Number(31),
    ),
    ("[1, 2, 3, 4, 5, 6]", Answer::Range(6)),
    ("[\"ucast\", 3]", Answer::Kind),
    ("[\"Ucast\", 3]", Answer::Form),
    ("\"ucast\"", Answer::Kind),
];

#[test]
fn modes_are_at_most_five_words(rt: HostRuntime) -> Result<(), Fail> {
    let alloc = rt.alloc();
    for (text, want) in MODES {
        let table = table(&rt, alloc, text);
        let bits = mode(alloc, GUEST, value(&rt, &table));
        assert_eq!(&rt; answer_of(bits), want, "{text}");
    }
    Ok(())
}

const TYPES: [(&str, Answer); 4] = [
    ("[\"tcp6\", \"ipv4\"]", Answer::Number(9)),
    (
        "[\"ipv4\", \"tcp4\", \"ipv6\", \"tcp6\"]",
        Answer::Number(15),
    ),
    (
        "[\"ipv4\", \"ipv4\", \"ipv4\", \"ipv4\", \"ipv4\"]",
        Answer::Range(5),
    ),
    ("[\"udp4\"]", Answer::Form),
];

#[test]
fn hash_types_are_at_most_four_words(rt: HostRuntime) -> Result<(), Fail> {
    let alloc = rt.alloc();
    for (text, want) in TYPES {
        let table = table(&rt, alloc, text);
        let bits = types(alloc, GUEST, value(&rt, &table)).map(u32::from);
        assert_eq!(&rt; answer_of(bits), want, "{text}");
    }
    Ok(())
}

#[test]
fn a_repeated_address_is_kept_once(rt: HostRuntime) -> Result<(), Fail> {
    let alloc = rt.alloc();
    let table = table(
        &rt,
        alloc,
        "[\"01:00:5e:00:00:01\", \"33:33:00:00:00:0A\", \"01:00:5E:00:00:01\"]",
    );
    let groups = multicast(alloc, GUEST, value(&rt, &table))
        .ok()
        .expect(&rt, "addresses");
    assert_eq!(&rt;
        groups.as_slice(),
        [[1, 0, 0x5e, 0, 0, 1], [0x33, 0x33, 0, 0, 0, 10]].as_slice()
    );
    Ok(())
}

#[test]
fn an_address_of_one_station_has_no_form(rt: HostRuntime) -> Result<(), Fail> {
    let alloc = rt.alloc();
    let table = table(&rt, alloc, "[\"00:00:5e:00:00:01\", 3]");
    let read = multicast(alloc, GUEST, value(&rt, &table));
    assert!(&rt; matches!(read, Err(ConfigFault::Form { .. })));
    Ok(())
}

#[test]
fn a_vid_is_a_bit(rt: HostRuntime) -> Result<(), Fail> {
    let alloc = rt.alloc();
    let table = table(&rt, alloc, "[0, 31, 32, 4095, 31]");
    let words = vlans(alloc, GUEST, value(&rt, &table))
        .ok()
        .expect(&rt, "VLANs");
    assert_eq!(&rt; words[0], 0x8000_0001);
    assert_eq!(&rt; words[1], 1);
    assert_eq!(&rt; words[127], 0x8000_0000);
    Ok(())
}

const VIDS: [(&str, Answer); 4] = [
    ("[4095, 4096]", Answer::Range(4_096)),
    ("[-1]", Answer::Range(-1)),
    ("[1, \"1\", 5000]", Answer::Kind),
    ("[]", Answer::Number(0)),
];

#[test]
fn vids_are_below_4096(rt: HostRuntime) -> Result<(), Fail> {
    let alloc = rt.alloc();
    for (text, want) in VIDS {
        let table = table(&rt, alloc, text);
        let answer = answer_of(vlans(alloc, GUEST, value(&rt, &table)).map(|words| words[0]));
        assert_eq!(&rt; answer, want, "{text}");
    }
    Ok(())
}

const ENTRIES: [(&str, Answer); 5] = [
    ("[3, 0]", Answer::Number(2)),
    ("[]", Answer::Range(0)),
    ("[0, 4]", Answer::Range(4)),
    ("[-1, \"0\"]", Answer::Range(-1)),
    ("3", Answer::Kind),
];

#[test]
fn entries_name_queues(rt: HostRuntime) -> Result<(), Fail> {
    let alloc = rt.alloc();
    for (text, want) in ENTRIES {
        let table = table(&rt, alloc, text);
        let read = table_entries(alloc, GUEST, "table", 4, value(&rt, &table));
        let size = read.map(|entries| u32::from(entries.size));
        assert_eq!(&rt; answer_of(size), want, "{text}");
    }
    Ok(())
}

#[test]
fn a_key_has_80_digits(rt: HostRuntime) -> Result<(), Fail> {
    let alloc = rt.alloc();
    let table = table(
        &rt,
        alloc,
        "\"6D5a56da255b0ec24167253d43a38fb0d0ca2bcbae7b30b477cb2da38030f20c6a42b73bbeac01fa\"",
    );
    let bytes = key(alloc, GUEST, value(&rt, &table))
        .ok()
        .expect(&rt, "a key");
    assert_eq!(&rt;
        [bytes[0], bytes[1], bytes[2], bytes[38], bytes[39]],
        [0x6d, 0x5a, 0x56, 0x01, 0xfa]
    );
    Ok(())
}
