//! The fabric of rings: it makes the ends of queues of words, and lets them meet.
ghost use Rattle.std.specs.Prelude.{◌≡◌};

use std::alloc::{AllocError, Global};
use vmx_ends::{Fabric, QueueName};
use vmx_rx_counted::{RingRxDevice, RingRxDriver, RingRxFacts, RingRxNote};
use vmx_tx_counted::{RingTxDevice, RingTxDriver, RingTxFacts, RingTxNote};

/// Queues whose frames lie in rings of words, and whose completions one word counts.
pub struct RingFabric;

impl Fabric for RingFabric {
    type TxNote = RingTxNote;

    type TxDriver = RingTxDriver;

    type TxDevice = RingTxDevice;

    type TxFacts = RingTxFacts;

    type RxNote = RingRxNote;

    type RxDriver = RingRxDriver;

    type RxDevice = RingRxDevice;

    type RxFacts = RingRxFacts;

    fn make_tx(
        alloc: Global,
        name: QueueName,
        size: u32,
        piece: u32,
        with_data: bool,
    ) -> Result<(RingTxDriver, RingTxDevice), AllocError> {
        vmx_tx_counted::make(alloc, name, size, piece, with_data)
    }

    fn make_rx(
        alloc: Global,
        name: QueueName,
        size1: u32,
        size2: u32,
        bodies: u32,
        queues: u32,
        with_data: bool,
    ) -> Result<(RingRxDriver, RingRxDevice), AllocError> {
        vmx_rx_counted::make(alloc, name, size1, size2, bodies, queues, with_data)
    }

    fn meet_tx(driver: RingTxDriver, device: RingTxDevice) -> RingTxFacts {
        vmx_tx_counted::meet(driver, device)
    }

    fn meet_rx(driver: RingRxDriver, device: RingRxDevice) -> RingRxFacts {
        vmx_rx_counted::meet(driver, device)
    }
}
