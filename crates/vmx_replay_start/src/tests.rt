//! Three guests over queue ends in memory.
use crate::{INTERRUPTS, new_guests};
use std::alloc::{AllocError, Global};
use std::test::Fail;
use vmx_driver_steps::Due;
use vmx_io::{List, Text};
use vmx_lists::ListFabric;
use vmx_model::{GuestParts, GuestPlan, Plan};
use vmx_pcap::Capture;
use vmx_shared_area::Setup;

/// Names and addresses of the guests, by port.
const GUESTS: [(&str, [u8; 6]); 3] = [
    ("a", [0x00, 0x50, 0x56, 0x00, 0x00, 0x01]),
    ("b", [0x00, 0x50, 0x56, 0x00, 0x00, 0x02]),
    ("c", [0x00, 0x50, 0x56, 0x00, 0x00, 0x03]),
];

/// The plan of these guests, none of which sends a frame.
fn plan(alloc: Global) -> Result<Option<Plan>, AllocError> {
    let mut guests = List::new(alloc);
    for (name, mac) in &GUESTS {
        let parts = GuestParts {
            name: Text::from_str(alloc, name)?,
            mac: *mac,
            sniffer: false,
            vlan: None,
            piece: 4096,
            bodies: 0,
            setup: Setup::by_default(),
            capture: Capture {
                records: List::new(alloc),
                tail: 0,
            },
            script: List::new(alloc),
        };
        match GuestPlan::of(parts) {
            Some(guest) => guests.push(guest)?,
            None => return Ok(None),
        }
    }
    Ok(Plan::of(Text::from_str(alloc, "out/")?, 32, guests))
}

#[test]
fn each_guest_stands_at_its_port_and_is_to_activate(rt: HostRuntime) -> Result<(), Fail> {
    let alloc = rt.alloc();
    let plan = plan(alloc)?.ok_or("no plan")?;
    let guests = new_guests::<ListFabric>(alloc, &plan)?;
    assert_eq!(rt; guests.len(), GUESTS.len());
    assert_eq!(rt; INTERRUPTS, 17);
    for port in 0..GUESTS.len() {
        let guest = guests.as_slice().get(port).ok_or("no guest")?;
        assert_eq!(rt; guest.device.port(), port as u32);
        assert_eq!(rt; guest.driver.due(), Due::Activate);
    }
    Ok(())
}
