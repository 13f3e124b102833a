//! A walk over a small capture, each verdict by hand.
use super::Verdicts;
use std::alloc::{AllocError, Global};
use std::test::Fail;
use vmx_io::{Bytes, List, Text};
use vmx_model::{Action, Deed, GuestParts, GuestPlan, Sending};
use vmx_pcap::{Capture, Stamped};
use vmx_shared_area::Setup;

/// Frames of so many zero bytes: 13 are no Ethernet header, and 1,519 are one more than the MTU of 1,500 lets pass.
const LENGTHS: [usize; 7] = [60, 13, 1519, 60, 60, 60, 1518];

fn records(alloc: Global) -> Result<Vec<Stamped>, AllocError> {
    let mut records = Vec::with_capacity(alloc, LENGTHS.len())?;
    for len in LENGTHS {
        records.push(Stamped {
            seconds: 0,
            micros: 0,
            frame: Bytes::of(Vec::from_elem(alloc, 0, len)?),
        })?;
    }
    Ok(records)
}

/// A guest that is quiesced at 3, activated at 4 and reset at 5.
fn parts(alloc: Global) -> Result<GuestParts, AllocError> {
    let mut script = Vec::with_capacity(alloc, 3)?;
    script.push(Action {
        at: 3,
        deed: Deed::Quiesce,
    })?;
    script.push(Action {
        at: 4,
        deed: Deed::Activate,
    })?;
    script.push(Action {
        at: 5,
        deed: Deed::Reset,
    })?;
    Ok(GuestParts {
        name: Text::from_str(alloc, "a")?,
        mac: [0, 0x50, 0x56, 0, 0, 1],
        sniffer: false,
        vlan: None,
        piece: 4096,
        bodies: 0,
        setup: Setup::by_default(),
        capture: Capture {
            records: List::of(records(alloc)?),
            tail: 0,
        },
        script: List::of(script),
    })
}

fn sent(activation: u32, place: u64) -> Sending {
    Sending::Sent {
        activation,
        queue: 0,
        place,
    }
}

#[test]
fn a_walk_gives_the_verdicts_in_order(rt: HostRuntime) -> Result<(), Fail> {
    let alloc = rt.alloc();
    match GuestPlan::of(parts(alloc)?) {
        None => assert!(rt; false, "the parts fit"),
        Some(guest) => {
            let mut walk = Verdicts::new(&guest);
            for verdict in [
                sent(0, 0),
                Sending::Short,
                Sending::TooLong,
                Sending::Down,
                sent(1, 0),
                sent(2, 0),
                sent(2, 1),
            ] {
                assert!(rt; walk.has_next());
                assert_eq!(rt; walk.next(), verdict);
            }
            assert!(rt; !walk.has_next());
        }
    }
    Ok(())
}
