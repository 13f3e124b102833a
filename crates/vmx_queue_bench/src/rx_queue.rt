//! Frames a second through the receive queue of words, on one thread and on two. A frame is copied into the buffers of
//! its descriptors, and out of them.
ghost use Rattle.std.specs.Prelude.{◌≡◌, ◌≤◌, [], true, length, vec_capacity};
ghost use Rattle.vmx_io.specs.declared.buffer.TheConstants.{MAX_FRAME};
ghost use Rattle.vmx_rxq.specs.Ends.{driver_view, device_view};
ghost use Rattle.vmx_queue_bench.specs.declared.frames.TheConstants.{TEXT};

use crate::frames::{frame_of, roomy, text};
use crate::rx_steps::{delivers, receives};
use crate::{NAME, TRIES};
use std::alloc::Global;
use std::rt::Clock;
use std::thread;
use std::thread::Threads;
use std::time::Instant;
use vmx_ends::RxMeta;
use vmx_rxq::{RxDeviceEnd, RxDriverEnd, make};

/// The descriptors of each ring.
const SIZE: u32 = 256;

/// No hash and no tag.
const PLAIN: RxMeta = RxMeta {
    hash: 0,
    kind: 0,
    tci: None,
};

/// Delivers and receives this many frames, one after the other.
fn one_by_one(
    driver: RxDriverEnd,
    device: RxDeviceEnd,
    into: Vec<u8>,
    text: &[u8],
    count: u32,
) -> u32
    requires text { length text.now ≡ TEXT }
    requires room { MAX_FRAME ≤ vec_capacity into }
    requires driver { ((driver_view driver).received ≡ []) × ((driver_view driver).made.full ≡ true) }
    requires device { ((device_view device).delivered ≡ []) × ((device_view device).refused ≡ []) }
{
    let mut driver = driver;
    let mut device = device;
    let mut into = into;
    for done in 0..count {
        let through = delivers(&mut device, frame_of(text, u64::from(done)), &PLAIN)
            && receives(&mut driver, &mut into);
        if !through {
            return done;
        }
    }
    count
}

/// Delivers this many frames, each until it finds its buffers.
fn send(device: RxDeviceEnd, text: &[u8], count: u32) -> u32
    requires text { length text.now ≡ TEXT }
    requires fresh { ((device_view device).delivered ≡ []) × ((device_view device).refused ≡ []) }
{
    let mut device = device;
    let mut number = 0;
    for tries in 0..TRIES {
        if number == count {
            break;
        }
        if delivers(&mut device, frame_of(text, u64::from(number)), &PLAIN) {
            number += 1;
        } else {
            thread::yield_now();
        }
    }
    number
}

/// Receives this many frames.
fn receive(driver: RxDriverEnd, into: Vec<u8>, count: u32) -> u32
    requires room { MAX_FRAME ≤ vec_capacity into }
    requires fresh { ((driver_view driver).received ≡ []) × ((driver_view driver).made.full ≡ true) }
{
    let mut driver = driver;
    let mut into = into;
    let mut number = 0;
    for tries in 0..TRIES {
        if number == count {
            break;
        }
        if receives(&mut driver, &mut into) {
            number += 1;
        } else {
            thread::yield_now();
        }
    }
    number
}

/// Prints how many frames went through a receive queue and the nanoseconds that it took, on one thread and on two.
pub fn measure<R: Print + Clock + Threads + Sync>(
    rt: &R,
    alloc: Global,
    count: u32,
) -> anyhow::Result<()> {
    let text = text(alloc)?;
    let text = text.as_slice();
    let (driver, device) = make(alloc, NAME, SIZE, SIZE, 0, 1, false)?;
    let into = roomy(alloc)?;
    let start = Instant::now(rt)?;
    let done = one_by_one(driver, device, into, text, count);
    let took = start.elapsed(rt)?.as_nanos();
    println!(rt; "one-thread {done} {took}")?;

    let (driver, device) = make(alloc, NAME, SIZE, SIZE, 0, 1, false)?;
    let into = roomy(alloc)?;
    let start = Instant::now(rt)?;
    let (sent, received) = thread::join(
        rt,
        move ||
            requires fresh { (length text.now ≡ TEXT) × ((device_view device).delivered ≡ []) × ((device_view device).refused ≡ []) }
        { send(device, text, count) },
        move ||
            requires fresh { (MAX_FRAME ≤ vec_capacity into) × ((driver_view driver).received ≡ []) × ((driver_view driver).made.full ≡ true) }
        { receive(driver, into, count) },
    );
    let took = start.elapsed(rt)?.as_nanos();
    println!(rt; "two-threads {sent} {received} {took}")?;
    Ok(())
}
