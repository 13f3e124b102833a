//! Two guests on four threads: the driver and the device of each have a thread of their own.

use crate::fates::{came, came_up, on_the_link};
use std::test::Fail;
use std::thread;
use std::thread::Threads;
use vmx_driver::Turn;
use vmx_io::List;
use vmx_two_guests::{Driven, Guest, Served, guests_of, plan_of};

/// The most turns of an actor.
const TURNS: u64 = 10_000_000;

/// The most turns of a device after that.
const FURTHER: u64 = 1_000;

/// Frames that each guest sends to the other: fewer than a link holds.
const FRAMES: u32 = 40;

/// A driver makes its turns until it has ended. Where nothing is left to be sent, it is closed.
fn drive<'a>(driver: Driven<'a>) -> Driven<'a> {
    let mut driver = driver;
    for _ in 0..TURNS {
        match driver.turn() {
            Ok(Turn::Worked) => {}
            Ok(Turn::Idle) => thread::yield_now(),
            Ok(Turn::Drained) => {
                driver.close();
            }
            Ok(Turn::Ended) | Err(_) => break,
        }
    }
    driver
}

/// A device makes its turns until it has given back the ends that it held.
fn serve(device: Served) -> Served {
    let mut device = device;
    let mut held = false;
    for _ in 0..TURNS {
        match device.turn() {
            Ok(Some(vmx_device::Turn::Worked)) => {}
            Ok(_) => thread::yield_now(),
            Err(_) => break,
        }
        let holds = device.device.ends().is_some();
        if held && !holds {
            break;
        }
        held = holds;
    }
    device
}

/// Both actors of a guest run to their end, each on a thread of its own.
fn run<'a, R: Threads + Sync>(rt: &R, guest: Guest<'a>) -> Guest<'a> {
    let Guest { driver, device } = guest;
    let (driver, device) = thread::join(rt, move || { drive(driver) }, move || { serve(device) });
    Guest { driver, device }
}

/// Both guests run to their end.
fn both<'a, R: Threads + Sync>(rt: &R, a: Guest<'a>, b: Guest<'a>) -> (Guest<'a>, Guest<'a>) {
    thread::join(rt, move || { run(rt, a) }, move || { run(rt, b) })
}

/// Whether the driver ended and the device, which is idle then, comes to a turn that finds nothing.
fn finishes(guest: &mut Guest) -> bool {
    guest.driver.driver.is_over() && empties(&mut guest.device)
}

/// Makes turns until one finds nothing, and says whether one did.
fn empties(device: &mut Served) -> bool {
    for _ in 0..FURTHER {
        match device.turn() {
            Ok(Some(vmx_device::Turn::Worked)) => {}
            Ok(Some(_)) => return true,
            Ok(None) | Err(_) => return false,
        }
    }
    false
}

/// Whether each frame of one guest got onto its link and came to the other one, and what came up there was handed up.
fn agree(from: &Guest, to: &Guest) -> bool {
    let left = on_the_link(from.device.device.journal());
    let journal = to.device.device.journal();
    let up = to.driver.driver.received().len();
    left == FRAMES as usize && came(journal) == left && came_up(journal) == up
}

#[test]
fn two_guests_run_to_their_end_on_four_threads(rt: HostRuntime) -> Result<(), Fail> {
    let alloc = rt.alloc();
    let plan = plan_of(alloc, FRAMES, List::new(alloc), FRAMES)?.ok_or("no plan")?;
    let (a, b) = guests_of(alloc, &plan)?.ok_or("too few guests")?;
    let (mut a, mut b) = both(&rt, a, b);
    assert!(rt; finishes(&mut a) && finishes(&mut b));
    assert!(rt; agree(&a, &b) && agree(&b, &a));
    Ok(())
}
