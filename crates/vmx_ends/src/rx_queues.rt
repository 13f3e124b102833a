//! Callers that are generic in the fabric: many receive queues are made, and their ends meet, queue by queue.
ghost use Rattle.std.specs.Prelude.{◌≡◌, ◌+◌, ◌≤◌, ◌%◌, ℕ, [], map, IfOk, length};
ghost use Rattle.vmx_layout.specs.declared.addresses.TheConstants.{MAX_RING_SIZE};
ghost use Rattle.vmx_layout.specs.declared.register.TheConstants.{MAX_QUEUES};
ghost use Rattle.vmx_ends.specs.declared.limits.TheConstants.{RING_STEP, MAX_BODIES};
ghost use Rattle.vmx_ends.specs.Queues.{queue_name, AreNewRxQueues, MayMeetRx, MetRx};
ghost use Rattle.vmx_ends.specs.ReceiveClauses.{made_rx};

use crate::{Fabric, QueueName};
use std::alloc::{AllocError, Global};
use vmx_io::{List, Roomy};

/// The drivers' ends of some receive queues and, in the same order, the devices' ends.
#[derive(Drop)]
pub struct RxQueues<F: Fabric> {
    pub drivers: List<F::RxDriver>,
    pub devices: List<F::RxDevice>,
}

/// Makes all `count` receive queues of a guest, 1 to 8 and numbered from 0. Rings and bodies are as for one queue.
pub fn make_rx_queues<F: Fabric>(
    alloc: Global,
    guest: u32,
    activation: u32,
    count: u32,
    size1: u32,
    size2: u32,
    bodies: u32,
    with_data: bool,
) -> Result<RxQueues<F>, AllocError>
    requires sizes { (RING_STEP ≤ size1) × (size1 ≤ MAX_RING_SIZE) × (size1 % RING_STEP ≡ 0) × (RING_STEP ≤ size2) × (size2 ≤ MAX_RING_SIZE) × (size2 % RING_STEP ≡ 0) }
    requires bodies { bodies ≤ MAX_BODIES }
    requires count { count ≤ MAX_QUEUES }
    ensures queues { IfOk result (λ t. AreNewRxQueues (λ q. made_rx (queue_name guest activation q) size1 size2 bodies count with_data) 0 (map F.RxDriver.view t.drivers) (map F.RxDevice.view t.devices)) }
    ensures count { IfOk result (λ t. length t.drivers ≡ count) }
{
    let mut drivers = List::new(alloc);
    let mut devices = List::new(alloc);
    for queue in 0..count {
        let name = QueueName {
            guest,
            activation,
            queue,
        };
        let (driver, device) = F::make_rx(alloc, name, size1, size2, bodies, count, with_data)?;
        drivers.push(driver)?;
        devices.push(device)?;
    }
    Ok(RxQueues { drivers, devices })
}

/// Lets the ends of receive queues meet, queue by queue, and puts their facts behind those that are there. There is room
/// for them, so it takes no memory.
pub fn meet_rx_queues<F: Fabric>(
    drivers: &mut List<F::RxDriver>,
    devices: &mut List<F::RxDevice>,
    facts: &mut Roomy<F::RxFacts>,
)
    requires meet { MayMeetRx (map F.RxDriver.view drivers.old) (map F.RxDevice.view devices.old) }
    requires room { length drivers.old ≤ facts.old.1 }
    ensures none { (drivers.new ≡ []) × (devices.new ≡ []) }
    ensures met { MetRx (map F.RxFacts.view facts.old.0) (map F.RxFacts.view facts.new.0) (map F.RxDriver.view drivers.old) (map F.RxDevice.view devices.old) }
    ensures room { facts.new.1 + length drivers.old ≡ facts.old.1 }
{
    while let Some(driver) = drivers.pop_first() {
        match devices.pop_first() {
            Some(device) => facts.push(F::meet_rx(driver, device)),
            None => unreachable!(),
        }
    }
}
