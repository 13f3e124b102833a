//! One guest from its activation to its end: it sends three frames to another one, gets one, and is quiesced and activated again
//! in between. Prints what its device wrote down, what its driver handed up and how it ended. `bench/refuse_steps.sh` refuses
//! each growth of memory of it in turn.
#![tactic(auto)]

use std::alloc::{AllocError, Global};
use std::io;
use vmx_driver::Turn;
use vmx_ends::Packet;
use vmx_io::List;
use vmx_model::{Action, Deed, Plan};
use vmx_two_guests::{Driven, Far, Guest, Served, first_of, frame_to, packet_of, plan_of};

/// The most turns of the driver.
const TURNS: u32 = 100;

/// The turn before which the other guest sends its frame.
const SENDS: u32 = 2;

/// A script that quiesces the guest and activates it again before its second frame.
fn script(alloc: Global) -> Result<List<Action>, AllocError> {
    let mut script = List::new(alloc);
    for deed in [Deed::Quiesce, Deed::Activate] {
        script.push(Action { at: 1, deed })?;
    }
    Ok(script)
}

/// What is there before the guest runs.
fn made(alloc: Global) -> Result<Option<(Plan, Packet)>, AllocError> {
    let packet = packet_of(alloc, &frame_to(0))?;
    let plan = plan_of(alloc, 3, script(alloc)?, 0)?;
    Ok(plan.map(|plan| (plan, packet)))
}

/// A turn of the driver, made again where it found no memory.
fn drive(driver: &mut Driven) -> Result<Turn, AllocError> {
    match driver.turn() {
        Ok(turn) => Ok(turn),
        Err(_) => driver.turn(),
    }
}

/// A turn of the device, made again where it found no memory.
fn serve(device: &mut Served) -> Result<(), AllocError> {
    match device.turn() {
        Ok(_) => {}
        Err(_) => {
            device.turn()?;
        }
    }
    Ok(())
}

/// Turn by turn, the driver's and then the device's. Says whether the driver ended.
fn run(guest: &mut Guest, far: Far, packet: Packet) -> Result<bool, AllocError> {
    let mut far = far;
    let mut packet = Some(packet);
    for turn in 0..TURNS {
        if turn == SENDS {
            if let Some(packet) = packet.take() {
                far.send(packet);
            }
        }
        match drive(&mut guest.driver)? {
            Turn::Worked | Turn::Idle => {}
            Turn::Drained => {
                guest.driver.close();
            }
            Turn::Ended => return Ok(true),
        }
        serve(&mut guest.device)?;
    }
    Ok(false)
}

/// Prints what the device wrote down.
fn print_entries<R: Print>(rt: &R, guest: &Guest) -> io::Result<()> {
    for entry in guest.device.device.journal().entries.as_slice() {
        println!(rt; "{entry:?}")?;
    }
    Ok(())
}

/// Prints what the driver handed up.
fn print_received<R: Print>(rt: &R, guest: &Guest) -> io::Result<()> {
    for frame in guest.driver.driver.received() {
        let (activation, queue, place) = (frame.activation, frame.queue, frame.place);
        println!(rt; "handed up: activation {activation}, queue {queue}, place {place}")?;
    }
    Ok(())
}

/// The last line.
fn ending(ended: Result<bool, AllocError>) -> &'static str {
    match ended {
        Ok(true) => "ended",
        Ok(false) => "not ended",
        Err(_) => "no memory",
    }
}

/// Runs a guest, and prints what it left.
fn tell<R: Print>(rt: &R, guest: Guest, far: Far, packet: Packet) -> io::Result<()> {
    let mut guest = guest;
    let ending = ending(run(&mut guest, far, packet));
    print_entries(rt, &guest)?;
    print_received(rt, &guest)?;
    println!(rt; "{ending}")
}

fn main(rt: HostRuntime) -> io::Result<()> {
    let alloc = rt.alloc();
    let Ok(Some((plan, packet))) = made(alloc) else {
        return println!(rt; "no memory for the plan");
    };
    match first_of(alloc, &plan) {
        Ok(Some((guest, far))) => tell(&rt, guest, far, packet),
        _ => println!(rt; "no memory for the guest"),
    }
}
