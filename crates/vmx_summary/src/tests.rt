//! The lines of a table by hand.
use crate::{Kind, count_from, count_to, summary};
use std::alloc::{AllocError, Global};
use std::test::Fail;
use vmx_copies::FrameCopy;
use vmx_filters::Rule;
use vmx_io::{Bytes, List, Text};
use vmx_model::{Fate, GuestParts, GuestPlan, Plan};
use vmx_pcap::{Capture, Stamped};
use vmx_shared_area::Setup;

/// A plan of one guest, whose capture has two records and seven bytes behind them.
fn plan(alloc: Global) -> Result<Option<Plan>, AllocError> {
    let mut records = List::new(alloc);
    for _ in 0..2u32 {
        records.push(Stamped {
            seconds: 0,
            micros: 0,
            frame: Bytes::of(Vec::from_elem(alloc, 0, 60)?),
        })?;
    }
    let parts = GuestParts {
        name: Text::from_str(alloc, "a")?,
        mac: [0, 0x50, 0x56, 0, 0, 1],
        sniffer: false,
        vlan: None,
        piece: 4096,
        bodies: 0,
        setup: Setup::by_default(),
        capture: Capture { records, tail: 7 },
        script: List::new(alloc),
    };
    let Some(guest) = GuestPlan::of(parts) else {
        return Ok(None);
    };
    let mut guests = List::new(alloc);
    guests.push(guest)?;
    Ok(Plan::of(Text::from_str(alloc, "out")?, 1, guests))
}

const fn row(number: u32, fate: Fate) -> FrameCopy {
    FrameCopy {
        sender: 0,
        number,
        target: None,
        fate,
    }
}

fn up(place: u64) -> Fate {
    Fate::Up {
        activation: 0,
        queue: 0,
        place,
    }
}

#[test]
fn each_kind_is_counted(rt: HostRuntime) -> Result<(), Fail> {
    let plan = plan(rt.alloc())?.expect(&rt, "a plan");
    let rows = [
        row(0, up(0)),
        row(1, up(1)),
        row(2, Fate::LinkFull { look: 0 }),
        row(3, Fate::Inactive),
        row(
            4,
            Fate::Filtered {
                rule: Rule::Unicast,
            },
        ),
        row(
            5,
            Fate::NoBuffer {
                activation: 0,
                queue: 0,
                ring: 1,
                position: 32,
                look: 0,
            },
        ),
        row(6, Fate::Discarded),
        row(7, Fate::NoPort),
        row(8, Fate::Down),
        row(9, Fate::Short),
        row(10, Fate::TooLong),
        row(11, Fate::TooLong),
    ];
    assert_eq!(rt; count_from(&rows, 0, Kind::TooLong), 2);
    assert_eq!(rt; count_from(&rows, 1, Kind::TooLong), 0);
    assert_eq!(rt; count_to(&rows, 0, Kind::Up), 0);
    let lines = summary(rt.alloc(), &plan, &rows)?;
    assert!(rt;
        lines.as_str()
            == "guests 1 captured 2 copies 12 tail 7\nup 2 link-full 1 inactive 1 filtered 1 no-buffer 1 discarded 1 no-port 1 down 1 short 1 too-long 2\n"
    );
    Ok(())
}
