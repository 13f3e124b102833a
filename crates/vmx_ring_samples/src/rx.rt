//! The receive queue: 32 descriptors in each ring, one BODY behind each HEAD of ring 1.
ghost use Rattle.std.specs.Prelude.{◌≡◌, [], true, IfOk};
ghost use mathlib.Core.List.{IsPrefix};
ghost use Rattle.vmx_rxq.specs.Ends.{driver_view, device_view};
ghost use Rattle.vmx_ring_samples.specs.Rings.{ShowsRx, AddsRx};

use crate::frames::{FRAMES, frame_of, meta_of};
use crate::section;
use std::alloc::{AllocError, Global};
use vmx_ends::QueueName;
use vmx_queue_bench::roomy;
use vmx_queue_bench::rx_steps::{delivers, receives};
use vmx_rxq::{MAX_SLOT_SIZE, RxDeviceEnd, RxDriverEnd, make, write_down};

/// What a section of a receive queue begins with.
const RECEIVE: u32 = 2;

/// The queue's name: its number is 2 among its guest's.
const NAME: QueueName = QueueName {
    guest: 0,
    activation: 0,
    queue: 2,
};

/// How many receive queues the guest has.
const QUEUES: u32 = 4;

/// The descriptors of each ring.
const SIZE: u32 = 32;

/// The BODY descriptors behind each HEAD of ring 1.
const BODIES: u32 = 1;

/// The words of the queue, of 64 bits: two of each descriptor of both rings, and two of its completion.
const WORDS: usize = 4 * (SIZE as usize + SIZE as usize);

/// The most bytes of all slots.
const BYTES: usize = (SIZE as usize + SIZE as usize) * MAX_SLOT_SIZE;

/// Delivers all frames in turn, and from the fourth on receives the third one before it. It tells whether each call found
/// what it looks for.
fn passes(
    driver: &mut RxDriverEnd,
    device: &mut RxDeviceEnd,
    alloc: Global,
) -> Result<bool, AllocError>
    requires driver { ((driver_view driver.old).received ≡ []) × ((driver_view driver.old).made.full ≡ true) }
    requires device { ((device_view device.old).delivered ≡ []) × ((device_view device.old).refused ≡ []) }
    ensures keys { IfOk result (λ _. ((driver_view driver.new).key ≡ (driver_view driver.old).key) × ((device_view device.new).key ≡ (device_view device.old).key)) }
    ensures made { IfOk result (λ _. (driver_view driver.new).made ≡ (driver_view driver.old).made) }
{
    let mut into = roomy(alloc)?;
    let mut all = true;
    for number in 0..FRAMES {
        let frame = frame_of(alloc, number)?;
        let delivered = delivers(device, frame.as_slice(), &meta_of(number));
        let received = number < 3 || receives(driver, &mut into);
        all = all && delivered && received;
    }
    Ok(all)
}

/// The words and buffers of a new queue through which the frames went, behind whether they did.
///
/// # Errors
///
/// Want of memory.
fn filled(alloc: Global, with_data: bool) -> Result<(bool, Vec<u64>, Vec<u8>), AllocError>
    ensures shows { IfOk result (λ f. ShowsRx with_data f.0 f.1.items f.2.items) }
{
    let (mut driver, mut device) = make(alloc, NAME, SIZE, SIZE, BODIES, QUEUES, with_data)?;
    let through = passes(&mut driver, &mut device, alloc)?;
    let mut words = Vec::new(alloc);
    words.reserve(WORDS)?;
    let mut buffers = Vec::new(alloc);
    buffers.reserve(BYTES)?;
    let written = write_down(driver, device, &mut words, &mut buffers);
    Ok((through && written, words, buffers))
}

/// Puts the section of a new queue through which the frames went. It tells whether they did.
///
/// # Errors
///
/// Want of memory.
pub(crate) fn put(alloc: Global, with_data: bool, into: &mut Vec<u8>) -> Result<bool, AllocError>
    ensures behind { IsPrefix into.old.items into.new.items }
    ensures prints { IfOk result (λ done. AddsRx with_data done into.old.items into.new.items) }
{
    let (done, words, buffers) = filled(alloc, with_data)?;
    let head = [
        RECEIVE,
        NAME.queue,
        QUEUES,
        SIZE,
        SIZE,
        BODIES,
        0,
        u32::from(with_data),
    ];
    section::put(&head, words.as_slice(), buffers.as_slice(), into)?;
    Ok(done)
}
