//! The transmit queue: 32 descriptors, buffers of 4,096 bytes.
ghost use Rattle.std.specs.Prelude.{◌≡◌, [], IfOk};
ghost use mathlib.Core.List.{IsPrefix};
ghost use Rattle.vmx_txq.specs.Ends.{driver_view, device_view};
ghost use Rattle.vmx_ring_samples.specs.Rings.{ShowsTx, AddsTx};

use crate::frames::{FRAMES, frame_of, mark_of};
use crate::section;
use std::alloc::{AllocError, Global};
use vmx_ends::{MAX_PIECE, QueueName};
use vmx_queue_bench::roomy;
use vmx_queue_bench::tx_steps::{posts, reaps, takes};
use vmx_txq::{SLOT_SIZE, TxDeviceEnd, TxDriverEnd, make, write_down};

/// What a section of a transmit queue begins with.
const TRANSMIT: u32 = 1;

/// The queue's name: its number is 3 among its guest's.
const NAME: QueueName = QueueName {
    guest: 0,
    activation: 0,
    queue: 3,
};

/// The descriptors of the ring.
const SIZE: u32 = 32;

/// The words of the queue, of 64 bits: two of each descriptor, and two of its completion.
const WORDS: usize = 4 * SIZE as usize;

/// The bytes of all slots.
const BYTES: usize = SIZE as usize * SLOT_SIZE;

/// Posts all frames in turn. From the third on, the frame before the last is taken and completed, and from the sixth on, the
/// fifth one before it is reaped. It tells whether each call found what it looks for.
fn passes(
    driver: &mut TxDriverEnd,
    device: &mut TxDeviceEnd,
    alloc: Global,
) -> Result<bool, AllocError>
    requires driver { ((driver_view driver.old).sent ≡ []) × ((driver_view driver.old).reaped ≡ 0) }
    requires device { ((device_view device.old).taken ≡ []) × ((device_view device.old).completed ≡ 0) }
    ensures keys { IfOk result (λ _. ((driver_view driver.new).key ≡ (driver_view driver.old).key) × ((device_view device.new).key ≡ (device_view device.old).key)) }
    ensures made { IfOk result (λ _. (driver_view driver.new).made ≡ (driver_view driver.old).made) }
{
    let mut into = roomy(alloc)?;
    let mut all = true;
    for number in 0..FRAMES {
        let frame = frame_of(alloc, number)?;
        let posted = posts(driver, frame.as_slice(), &mark_of(number));
        let taken = number < 2 || takes(device, &mut into);
        let reaped = number < 5 || reaps(driver);
        all = all && posted && taken && reaped;
    }
    Ok(all)
}

/// The words and buffers of a new queue through which the frames went, behind whether they did.
///
/// # Errors
///
/// Want of memory.
fn filled(alloc: Global, with_data: bool) -> Result<(bool, Vec<u64>, Vec<u8>), AllocError>
    ensures shows { IfOk result (λ f. ShowsTx with_data f.0 f.1.items f.2.items) }
{
    let (mut driver, mut device) = make(alloc, NAME, SIZE, MAX_PIECE, with_data)?;
    let through = passes(&mut driver, &mut device, alloc)?;
    let mut words = Vec::new(alloc);
    words.reserve(WORDS)?;
    let mut buffers = Vec::new(alloc);
    buffers.reserve(BYTES)?;
    let written = write_down(driver, device, &mut words, &mut buffers);
    Ok((through && written, words, buffers))
}

/// Puts the section of a new queue through which the frames went. It tells whether they did.
///
/// # Errors
///
/// Want of memory.
pub(crate) fn put(alloc: Global, with_data: bool, into: &mut Vec<u8>) -> Result<bool, AllocError>
    ensures behind { IsPrefix into.old.items into.new.items }
    ensures prints { IfOk result (λ done. AddsTx with_data done into.old.items into.new.items) }
{
    let (done, words, buffers) = filled(alloc, with_data)?;
    let head = [
        TRANSMIT,
        NAME.queue,
        0,
        SIZE,
        0,
        0,
        MAX_PIECE,
        u32::from(with_data),
    ];
    section::put(&head, words.as_slice(), buffers.as_slice(), into)?;
    Ok(done)
}
