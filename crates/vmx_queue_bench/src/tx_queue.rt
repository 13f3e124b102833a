//! Frames a second through the transmit queue of words, on one thread and on two. A frame is copied into the buffers of
//! its descriptors, and out of them.
ghost use Rattle.std.specs.Prelude.{◌≡◌, ◌≤◌, [], length, vec_capacity};
ghost use Rattle.vmx_io.specs.declared.buffer.TheConstants.{MAX_FRAME};
ghost use Rattle.vmx_txq.specs.Ends.{driver_view, device_view};
ghost use Rattle.vmx_queue_bench.specs.declared.frames.TheConstants.{TEXT};

use crate::frames::{frame_of, roomy, text};
use crate::tx_steps::{posts, reaps, takes};
use crate::{NAME, TRIES};
use std::alloc::Global;
use std::rt::Clock;
use std::thread;
use std::thread::Threads;
use std::time::Instant;
use vmx_ends::{MAX_PIECE, TxMark};
use vmx_txq::{TxDeviceEnd, TxDriverEnd, make};

/// The descriptors of the ring.
const SIZE: u32 = 512;

/// Posts, takes, completes and reaps this many frames, one after the other.
fn one_by_one(
    driver: TxDriverEnd,
    device: TxDeviceEnd,
    into: Vec<u8>,
    text: &[u8],
    count: u32,
) -> u32
    requires text { length text.now ≡ TEXT }
    requires room { MAX_FRAME ≤ vec_capacity into }
    requires driver { ((driver_view driver).sent ≡ []) × ((driver_view driver).reaped ≡ 0) }
    requires device { ((device_view device).taken ≡ []) × ((device_view device).completed ≡ 0) }
{
    let mut driver = driver;
    let mut device = device;
    let mut into = into;
    for done in 0..count {
        let through = posts(
            &mut driver,
            frame_of(text, u64::from(done)),
            &TxMark::plain(),
        ) && takes(&mut device, &mut into)
            && reaps(&mut driver);
        if !through {
            return done;
        }
    }
    count
}

/// Posts this many frames, and reaps where there is no room.
fn send(driver: TxDriverEnd, text: &[u8], count: u32) -> u32
    requires text { length text.now ≡ TEXT }
    requires fresh { ((driver_view driver).sent ≡ []) × ((driver_view driver).reaped ≡ 0) }
{
    let mut driver = driver;
    let mut number = 0;
    for tries in 0..TRIES {
        if number == count {
            break;
        }
        if posts(
            &mut driver,
            frame_of(text, u64::from(number)),
            &TxMark::plain(),
        ) {
            number += 1;
        } else if !reaps(&mut driver) {
            thread::yield_now();
        }
    }
    number
}

/// Takes this many frames and completes them.
fn receive(device: TxDeviceEnd, into: Vec<u8>, count: u32) -> u32
    requires room { MAX_FRAME ≤ vec_capacity into }
    requires fresh { ((device_view device).taken ≡ []) × ((device_view device).completed ≡ 0) }
{
    let mut device = device;
    let mut into = into;
    let mut number = 0;
    for tries in 0..TRIES {
        if number == count {
            break;
        }
        if takes(&mut device, &mut into) {
            number += 1;
        } else {
            thread::yield_now();
        }
    }
    number
}

/// Prints how many frames went through a transmit queue and the nanoseconds that it took, on one thread and on two.
pub fn measure<R: Print + Clock + Threads + Sync>(
    rt: &R,
    alloc: Global,
    count: u32,
) -> anyhow::Result<()> {
    let text = text(alloc)?;
    let text = text.as_slice();
    let (driver, device) = make(alloc, NAME, SIZE, MAX_PIECE, false)?;
    let into = roomy(alloc)?;
    let start = Instant::now(rt)?;
    let done = one_by_one(driver, device, into, text, count);
    let took = start.elapsed(rt)?.as_nanos();
    println!(rt; "one-thread {done} {took}")?;

    let (driver, device) = make(alloc, NAME, SIZE, MAX_PIECE, false)?;
    let into = roomy(alloc)?;
    let start = Instant::now(rt)?;
    let (sent, taken) = thread::join(
        rt,
        move ||
            requires fresh { (length text.now ≡ TEXT) × ((driver_view driver).sent ≡ []) × ((driver_view driver).reaped ≡ 0) }
        { send(driver, text, count) },
        move ||
            requires fresh { (MAX_FRAME ≤ vec_capacity into) × ((device_view device).taken ≡ []) × ((device_view device).completed ≡ 0) }
        { receive(device, into, count) },
    );
    let took = start.elapsed(rt)?.as_nanos();
    println!(rt; "two-threads {sent} {taken} {took}")?;
    Ok(())
}
