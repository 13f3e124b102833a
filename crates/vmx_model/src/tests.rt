//! The makers over tables: what is taken, and for each rule what is refused by that rule alone.

ghost use Rattle.std.specs.Prelude.{◌≡◌, ◌≤◌, ◌%◌, ℕ, slice_index, IfSome};

use super::*;
use std::alloc::{AllocError, Global};
use std::process::Abort;
use std::test::Fail;
use vmx_io::{Bytes, List, Text};
use vmx_pcap::{Capture, Stamped};
use vmx_shared_area::{Filter, MacTable, Rss, Setup};

/// A deed of a script, in few numbers.
#[derive(Clone, Copy)]
enum Step {
    Quiesce,
    Activate,
    Reset,
    Mode(u32),
    /// A multicast table with one address of this first byte.
    Multicast(u8),
    /// An indirection table of so many entries, the first of them and the first behind them. All others are 0.
    Table(u16, u8, u8),
}

/// The numbers of a guest with four receive queues.
#[derive(Clone, Copy)]
struct Tried<'a> {
    name: &'a str,
    /// The first byte of the address.
    first: u8,
    vlan: Option<u16>,
    piece: u32,
    bodies: u32,
    wide: bool,
    rss: bool,
    more: More,
    script: &'a [(u32, Step)],
}

/// What else a setup has.
#[derive(Clone, Copy)]
struct More {
    auto_mask: bool,
    /// All moderation levels.
    level: u8,
    tx_data: bool,
    csum: bool,
    /// The first byte of the one multicast address.
    group: u8,
}

const NO_MORE: More = More {
    auto_mask: true,
    level: 0,
    tx_data: false,
    csum: false,
    group: 1,
};

const PLAIN: Tried<'static> = Tried {
    name: "a",
    first: 0,
    vlan: None,
    piece: 4096,
    bodies: 0,
    wide: false,
    rss: false,
    more: NO_MORE,
    script: &[],
};

/// A setup with four receive queues, and 320 descriptors or, where it is wide, 65,536.
fn setup(wide: bool, rss: bool, more: More) -> Setup {
    let filter = Filter {
        mode: 7,
        multicast: one_address(more.group),
        vlans: [u32::MAX; 128],
    };
    let ring = ring(wide);
    Setup {
        tx_queues: tx_queues(wide),
        rx_queues: 4,
        tx_ring: ring,
        rx_ring1: ring,
        rx_ring2: ring,
        mtu: 1500,
        filter,
        rss: setting(rss),
        auto_mask: more.auto_mask,
        levels: [more.level; 25],
        tx_data: more.tx_data,
        rx_data: true,
        strip: true,
        csum: more.csum,
    }
}

/// A multicast table with one address of this first byte.
fn one_address(first: u8) -> MacTable {
    let mut macs = [[0; 6]; 256];
    macs[0] = [first, 0, 0x5e, 0, 0, 1];
    MacTable { count: 1, macs }
}

fn tx_queues(wide: bool) -> u8
    ensures low { 1 ≤ result }
    ensures high { result ≤ 8 }
{
    if wide { 8 } else { 2 }
}

/// The descriptors of each ring.
fn ring(wide: bool) -> u32
    ensures low { 32 ≤ result }
    ensures high { result ≤ 4096 }
    ensures step { result % 32 ≡ 0 }
{
    if wide { 4096 } else { 32 }
}

/// A setting whose four entries name queue 0.
fn setting(rss: bool) -> Option<Rss>
    ensures zeros { IfSome result (λ r. (i : ℕ) → slice_index r.table i ≡ 0) }
{
    if !rss {
        return None;
    }
    Some(Rss {
        types: 15,
        key: [0x6d; 40],
        size: 4,
        table: [0; 128],
    })
}

fn deed(step: Step) -> Deed {
    match step {
        Step::Quiesce => Deed::Quiesce,
        Step::Activate => Deed::Activate,
        Step::Reset => Deed::Reset,
        Step::Mode(mode) => Deed::Mode { mode },
        Step::Multicast(first) => Deed::Multicast {
            table: one_address(first),
        },
        Step::Table(size, entry, behind) => {
            let mut table = [0; 128];
            table[0] = entry;
            if let Some(place) = table.get_mut(usize::from(size)) {
                *place = behind;
            }
            Deed::Rss { size, table }
        }
    }
}

fn parts(alloc: Global, tried: Tried<'_>) -> Result<GuestParts, AllocError> {
    let mut script = Vec::with_capacity(alloc, tried.script.len())?;
    for (at, step) in tried.script {
        script.push(Action {
            at: *at,
            deed: deed(*step),
        })?;
    }
    Ok(GuestParts {
        name: Text::from_str(alloc, tried.name)?,
        mac: [tried.first, 0x50, 0x56, 0, 0, 1],
        sniffer: false,
        vlan: tried.vlan,
        piece: tried.piece,
        bodies: tried.bodies,
        setup: setup(tried.wide, tried.rss, tried.more),
        capture: Capture {
            records: List::new(alloc),
            tail: 0,
        },
        script: List::of(script),
    })
}

/// Whether the maker makes a guest of these.
fn is_guest(alloc: Global, tried: Tried<'_>) -> Result<bool, AllocError> {
    Ok(GuestPlan::of(parts(alloc, tried)?).is_some())
}

#[test]
fn a_guest_is_made_exactly_of_parts_in_their_ranges(rt: HostRuntime) -> Result<(), Fail> {
    let alloc = rt.alloc();
    for (name, first, piece, bodies, fits) in [
        ("a", 0, 4096, 0, true),
        ("az_09_az_09_az_0", 0xfe, 576, 2, true),
        ("", 0, 4096, 0, false),
        ("az_09_az_09_az_09", 0, 4096, 0, false),
        ("aB", 0, 4096, 0, false),
        ("a-b", 0, 4096, 0, false),
        ("a", 1, 4096, 0, false),
        ("a", 0, 575, 0, false),
        ("a", 0, 4097, 0, false),
        ("a", 0, 4096, 3, false),
    ] {
        let tried = Tried {
            name,
            first,
            piece,
            bodies,
            ..PLAIN
        };
        assert_eq!(rt;
            is_guest(alloc, tried)?,
            fits,
            "{name} {first} {piece} {bodies}"
        );
    }
    Ok(())
}

#[test]
fn a_vlan_is_1_to_4094(rt: HostRuntime) -> Result<(), Fail> {
    let alloc = rt.alloc();
    for (vlan, fits) in [(0, false), (1, true), (4094, true), (4095, false)] {
        let tried = Tried {
            vlan: Some(vlan),
            ..PLAIN
        };
        assert_eq!(rt; is_guest(alloc, tried)?, fits, "{vlan}");
    }
    Ok(())
}

#[test]
fn pieces_go_by_data_rings(rt: HostRuntime) -> Result<(), Fail> {
    let alloc = rt.alloc();
    for (tx_data, piece, fits) in [
        (false, 639, true),
        (true, 575, false),
        (true, 576, false),
        (true, 639, false),
        (true, 640, true),
        (true, 4096, true),
        (true, 4097, false),
    ] {
        let tried = Tried {
            piece,
            more: More { tx_data, ..NO_MORE },
            ..PLAIN
        };
        assert_eq!(rt; is_guest(alloc, tried)?, fits, "{tx_data} {piece}");
    }
    Ok(())
}

#[test]
fn setups_mask_themselves_check_nothing_and_name_groups(rt: HostRuntime) -> Result<(), Fail> {
    let alloc = rt.alloc();
    for (auto_mask, level, csum, group, fits) in [
        (true, 0, false, 0x33, true),
        (false, 0, false, 1, false),
        (true, 1, false, 1, false),
        (true, 0, true, 1, false),
        (true, 0, false, 0, false),
        (true, 0, false, 0xfe, false),
    ] {
        let more = More {
            auto_mask,
            level,
            csum,
            group,
            ..NO_MORE
        };
        let tried = Tried { more, ..PLAIN };
        assert_eq!(rt;
            is_guest(alloc, tried)?,
            fits,
            "{auto_mask} {level} {csum} {group}"
        );
    }
    Ok(())
}

#[test]
fn scripts_have_their_ranges_and_turns(rt: HostRuntime) -> Result<(), Fail> {
    let alloc = rt.alloc();
    let long = [(0, Step::Mode(1)); 257];
    let scripts: [(&[(u32, Step)], bool); 19] = [
        (&long[..256], true),
        (&long, false),
        (
            &[
                (0, Step::Quiesce),
                (0, Step::Mode(31)),
                (9, Step::Activate),
                (262_144, Step::Reset),
            ],
            true,
        ),
        (&[(262_145, Step::Reset)], false),
        (&[(5, Step::Reset), (4, Step::Reset)], false),
        (&[(0, Step::Activate)], false),
        (&[(0, Step::Quiesce), (1, Step::Quiesce)], false),
        (&[(0, Step::Quiesce), (1, Step::Reset)], false),
        (&[(0, Step::Mode(32))], false),
        (&[(0, Step::Multicast(3))], true),
        (&[(0, Step::Multicast(2))], false),
        (&[(0, Step::Table(1, 3, 0))], true),
        (&[(0, Step::Table(128, 3, 0))], true),
        (&[(0, Step::Table(0, 0, 0))], false),
        (&[(0, Step::Table(129, 3, 0))], false),
        (&[(0, Step::Table(1, 4, 0))], false),
        (&[(0, Step::Table(1, 3, 1))], false),
        (&[(0, Step::Table(127, 3, 1))], false),
        (
            &[
                (0, Step::Quiesce),
                (1, Step::Table(2, 3, 0)),
                (1, Step::Activate),
            ],
            true,
        ),
    ];
    for (i, (script, fits)) in scripts.into_iter().enumerate() {
        let tried = Tried {
            rss: true,
            script,
            ..PLAIN
        };
        assert_eq!(rt; is_guest(alloc, tried)?, fits, "{i}");
    }
    let tried = Tried {
        script: &[(0, Step::Table(1, 3, 0))],
        ..PLAIN
    };
    assert!(rt; !is_guest(alloc, tried)?);
    Ok(())
}

/// A guest at a switch, in few numbers.
#[derive(Clone, Copy)]
struct Seat<'a> {
    name: &'a str,
    /// The last byte of the address.
    last: u8,
    /// Whether its rings have 65,536 descriptors, the most of a plan. Else they have 320.
    wide: bool,
    /// So many records without a byte.
    records: u32,
    /// The bytes behind the records.
    tail: u32,
}

const fn seat_of(name: &str, last: u8) -> Seat<'_> {
    Seat {
        name,
        last,
        wide: false,
        records: 0,
        tail: 0,
    }
}

fn seated(rt: &(impl Abort + AllocGlobal), seat: Seat<'_>) -> Result<GuestPlan, AllocError> {
    let alloc = rt.alloc();
    let mut records = Vec::new(alloc);
    for _ in 0..seat.records {
        records.push(Stamped {
            seconds: 0,
            micros: 0,
            frame: Bytes::new(alloc),
        })?;
    }
    let tried = Tried {
        name: seat.name,
        wide: seat.wide,
        ..PLAIN
    };
    let mut parts = parts(alloc, tried)?;
    parts.mac[5] = seat.last;
    parts.capture = Capture {
        records: List::of(records),
        tail: seat.tail,
    };
    Ok(GuestPlan::of(parts).expect(rt, "a guest"))
}

fn is_plan(
    rt: &(impl Abort + AllocGlobal),
    prefix: &str,
    poll_every: u32,
    seats: &[Seat<'_>],
) -> Result<bool, AllocError> {
    let alloc = rt.alloc();
    let mut guests = Vec::with_capacity(alloc, seats.len())?;
    for seat in seats {
        guests.push(seated(rt, *seat)?)?;
    }
    let plan = Plan::of(Text::from_str(alloc, prefix)?, poll_every, List::of(guests));
    Ok(plan.is_some())
}

#[test]
fn a_plan_is_made_exactly_in_its_ranges(rt: HostRuntime) -> Result<(), Fail> {
    let a = seat_of("a", 1);
    let b = seat_of("b", 2);
    for (prefix, poll_every, fits) in [
        ("out", 1, true),
        ("A/z_0.9", 4096, true),
        (
            "0123456789/0123456789/0123456789/0123456789/0123456789/012345678",
            1,
            true,
        ),
        (
            "0123456789/0123456789/0123456789/0123456789/0123456789/0123456789",
            1,
            false,
        ),
        ("", 1, false),
        (".out", 1, false),
        ("/out", 1, false),
        ("out-1", 1, false),
        ("out", 0, false),
        ("out", 4097, false),
    ] {
        assert_eq!(rt;
            is_plan(&rt, prefix, poll_every, &[a, b])?,
            fits,
            "{prefix} {poll_every}"
        );
    }
    let many = [
        a,
        b,
        seat_of("c", 3),
        seat_of("d", 4),
        seat_of("e", 5),
        seat_of("f", 6),
        seat_of("g", 7),
        seat_of("h", 8),
        seat_of("i", 9),
        seat_of("j", 10),
        seat_of("k", 11),
        seat_of("l", 12),
        seat_of("m", 13),
        seat_of("n", 14),
        seat_of("o", 15),
        seat_of("p", 16),
        seat_of("q", 17),
    ];
    let seats: [(&[Seat<'_>], bool); 12] = [
        (&[a], true),
        (&[], false),
        (&many[..16], true),
        (&many, false),
        (&[a, b, seat_of("a", 3)], false),
        (&[a, b, seat_of("c", 2)], false),
        (&[Seat { wide: true, ..a }], true),
        (&[Seat { wide: true, ..a }, b], false),
        (
            &[
                Seat {
                    records: 262_144,
                    ..a
                },
                b,
            ],
            true,
        ),
        (
            &[
                Seat {
                    records: 262_144,
                    ..a
                },
                Seat { records: 1, ..b },
            ],
            false,
        ),
        (
            &[
                Seat {
                    records: 1,
                    tail: 67_108_840,
                    ..a
                },
                Seat { tail: 8, ..b },
            ],
            true,
        ),
        (
            &[
                Seat {
                    records: 1,
                    tail: 67_108_840,
                    ..a
                },
                Seat { tail: 9, ..b },
            ],
            false,
        ),
    ];
    for (i, (seats, fits)) in seats.into_iter().enumerate() {
        assert_eq!(rt; is_plan(&rt, "out", 1, seats)?, fits, "{i}");
    }
    Ok(())
}
