//! How the two ends of a receive queue are made, and how they meet.
ghost use Rattle.std.specs.Prelude.{◌≡◌, ◌%◌, ◌<◌, ◌≤◌, IfOk};
ghost use Rattle.vmx_layout.specs.declared.addresses.TheConstants.{MAX_RING_SIZE};
ghost use Rattle.vmx_layout.specs.declared.register.TheConstants.{MAX_QUEUES};
ghost use Rattle.vmx_ends.specs.declared.limits.TheConstants.{RING_STEP, MAX_BODIES};
ghost use Rattle.vmx_ends.specs.ReceiveClauses.{AreEven, AreNew, made_rx, facts_of, IsOrdered};
ghost use Rattle.vmx_rx_counted.specs.Ends.{device_view, driver_view};
ghost use Rattle.vmx_rx_counted.specs.FactsView.{facts_view};

use crate::device::RingRxDevice;
use crate::driver::RingRxDriver;
use crate::facts::RingRxFacts;
use std::alloc::{AllocError, Global};
use vmx_ends::{QueueName, RxShape};
use vmx_rx_ends::{make_ends, meet_ends};
use vmx_rx_ring::ByCount;

/// The two ends of a receive queue, both rings made full: sizes 32 to 4,096 in steps of 32, 0 to 2 BODY descriptors behind
/// each HEAD of ring 1, and 1 to 8 queues of the guest, of which this is one. It takes a buffer of 2,048 bytes for each HEAD and of
/// 4,096 for each BODY, and for each descriptor a data entry of 128 bytes and 32 bytes of words.
///
/// # Errors
///
/// Want of memory.
pub fn make(
    alloc: Global,
    name: QueueName,
    size1: u32,
    size2: u32,
    bodies: u32,
    queues: u32,
    with_data: bool,
) -> Result<(RingRxDriver, RingRxDevice), AllocError>
    requires sizes { (RING_STEP ≤ size1) × (size1 ≤ MAX_RING_SIZE) × (size1 % RING_STEP ≡ 0) × (RING_STEP ≤ size2) × (size2 ≤ MAX_RING_SIZE) × (size2 % RING_STEP ≡ 0) }
    requires bodies { bodies ≤ MAX_BODIES }
    requires queues { (1 ≤ queues) × (queues ≤ MAX_QUEUES) × (name.queue < queues) }
    ensures made { IfOk result (λ p. AreNew (made_rx name size1 size2 bodies queues with_data) (driver_view p.0) (device_view p.1)) }
{
    let shape = RxShape {
        name,
        queues,
        size1,
        size2,
        bodies,
        with_data,
    };
    let (reader, filler) = make_ends::<ByCount>(alloc, shape)?;
    Ok((RingRxDriver { reader }, RingRxDevice { filler }))
}

/// Lets the two ends of one queue meet: every note was heard.
pub fn meet(driver: RingRxDriver, device: RingRxDevice) -> RingRxFacts
    requires keys { (driver_view driver).key ≡ (device_view device).key }
    requires even { AreEven (driver_view driver) (device_view device) }
    ensures made { (driver_view driver).made ≡ (device_view device).made }
    ensures facts { facts_view result ≡ facts_of (driver_view driver) (device_view device) }
    ensures ordered { IsOrdered (facts_view result) }
{
    let RingRxDriver { reader } = driver;
    let RingRxDevice { filler } = device;
    let meeting = meet_ends(reader, filler);
    RingRxFacts { meeting }
}
