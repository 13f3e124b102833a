//! Callers that are generic in the fabric: many transmit queues are made, and their ends meet, queue by queue.
ghost use Rattle.std.specs.Prelude.{◌≡◌, ◌+◌, ◌-◌, ◌≤◌, ◌%◌, ℕ, [], map, IfOk, length};
ghost use Rattle.vmx_layout.specs.declared.addresses.TheConstants.{MAX_RING_SIZE};
ghost use Rattle.vmx_ends.specs.declared.limits.TheConstants.{RING_STEP, MAX_PIECE};
ghost use Rattle.vmx_ends.specs.Queues.{queue_name, made_tx, least_piece, AreNewQueues, MayMeet, Met};

use crate::{Fabric, QueueName};
use std::alloc::{AllocError, Global};
use vmx_io::{List, Roomy};

/// The drivers' ends of some transmit queues and, in the same order, the devices' ends.
#[derive(Drop)]
pub struct TxQueues<F: Fabric> {
    pub drivers: List<F::TxDriver>,
    pub devices: List<F::TxDevice>,
}

/// Makes `count` transmit queues of a guest, numbered from 0. Ring and piece are as for one queue.
pub fn make_queues<F: Fabric>(
    alloc: Global,
    guest: u32,
    activation: u32,
    count: u32,
    size: u32,
    piece: u32,
    with_data: bool,
) -> Result<TxQueues<F>, AllocError>
    requires size { (RING_STEP ≤ size) × (size ≤ MAX_RING_SIZE) × (size % RING_STEP ≡ 0) }
    requires piece { (least_piece with_data ≤ piece) × (piece ≤ MAX_PIECE) }
    ensures queues { IfOk result (λ t. AreNewQueues (λ q. made_tx (queue_name guest activation q) size piece with_data) 0 (map F.TxDriver.view t.drivers) (map F.TxDevice.view t.devices)) }
    ensures count { IfOk result (λ t. length t.drivers ≡ count) }
{
    let mut drivers = List::new(alloc);
    let mut devices = List::new(alloc);
    for queue in 0..count {
        let name = QueueName {
            guest,
            activation,
            queue,
        };
        let (driver, device) = F::make_tx(alloc, name, size, piece, with_data)?;
        drivers.push(driver)?;
        devices.push(device)?;
    }
    Ok(TxQueues { drivers, devices })
}

/// Lets the ends of transmit queues meet, queue by queue, and puts their facts behind those that are there. There is room
/// for them, so it takes no memory.
pub fn meet_queues<F: Fabric>(
    drivers: &mut List<F::TxDriver>,
    devices: &mut List<F::TxDevice>,
    facts: &mut Roomy<F::TxFacts>,
)
    requires meet { MayMeet (map F.TxDriver.view drivers.old) (map F.TxDevice.view devices.old) }
    requires room { length drivers.old ≤ facts.old.1 }
    ensures none { (drivers.new ≡ []) × (devices.new ≡ []) }
    ensures met { Met (map F.TxFacts.view facts.old.0) (map F.TxFacts.view facts.new.0) (map F.TxDriver.view drivers.old) (map F.TxDevice.view devices.old) }
    ensures room { facts.new.1 + length drivers.old ≡ facts.old.1 }
{
    while let Some(driver) = drivers.pop_first() {
        match devices.pop_first() {
            Some(device) => facts.push(F::meet_tx(driver, device)),
            None => unreachable!(),
        }
    }
}
