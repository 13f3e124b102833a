//! How the two ends of a transmit queue are made, and how they meet.
ghost use Rattle.std.specs.Prelude.{◌≡◌, ◌≤◌, ◌%◌, IfOk};
ghost use Rattle.vmx_layout.specs.declared.addresses.TheConstants.{MAX_RING_SIZE};
ghost use Rattle.vmx_ends.specs.declared.limits.TheConstants.{RING_STEP, MAX_PIECE};
ghost use Rattle.vmx_ends.specs.Queues.{made_tx, least_piece};
ghost use Rattle.vmx_ends.specs.TransmitClauses.{AreNew, IsIdle, AreEven, facts_of, IsOrdered};
ghost use Rattle.vmx_tx_counted.specs.Ends.{driver_view, device_view, facts_view};

use crate::counting::InCount;
use crate::ends::{RingTxDevice, RingTxDriver, RingTxFacts};
use std::alloc::{AllocError, Global};
use vmx_ends::{QueueName, TxMade};
use vmx_tx_ring::{make_ring, meet_ring};

/// The two ends of a transmit queue of `size` descriptors, 32 to 4,096 in steps of 32, that posts a frame in pieces of
/// `piece` bytes, 576 to 4,096, and from 640 on with a data ring: the first 128 bytes of a frame then lie in the data entry
/// of its first descriptor. All descriptors are free. It takes 4,240 bytes a descriptor.
///
/// # Errors
///
/// Want of memory.
pub fn make(
    alloc: Global,
    name: QueueName,
    size: u32,
    piece: u32,
    with_data: bool,
) -> Result<(RingTxDriver, RingTxDevice), AllocError>
    requires size { (RING_STEP ≤ size) × (size ≤ MAX_RING_SIZE) × (size % RING_STEP ≡ 0) }
    requires piece { (least_piece with_data ≤ piece) × (piece ≤ MAX_PIECE) }
    ensures made { IfOk result (λ p. AreNew (made_tx name size piece with_data) (driver_view p.0) (device_view p.1)) }
{
    let made = TxMade {
        name,
        size,
        piece,
        with_data,
        full: true,
    };
    let (writer, reader) = make_ring::<InCount>(alloc, made)?;
    Ok((RingTxDriver { writer }, RingTxDevice { reader }))
}

/// Lets the two ends of one queue meet. No frame is taken and not completed, and every note was heard.
pub fn meet(driver: RingTxDriver, device: RingTxDevice) -> RingTxFacts
    requires keys { (driver_view driver).key ≡ (device_view device).key }
    requires idle { IsIdle (device_view device) }
    requires even { AreEven (driver_view driver) (device_view device) }
    ensures made { (driver_view driver).made ≡ (device_view device).made }
    ensures facts { facts_view result ≡ facts_of (driver_view driver) (device_view device) }
    ensures ordered { IsOrdered (facts_view result) }
{
    let RingTxDriver { writer } = driver;
    let RingTxDevice { reader } = device;
    let meeting = meet_ring(writer, reader);
    RingTxFacts { meeting }
}
