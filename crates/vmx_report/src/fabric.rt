//! The fabric of atomic queues: it makes the ends of queues of words, and lets them meet.
ghost use Rattle.std.specs.Prelude.{◌≡◌};

use std::alloc::{AllocError, Global};
use vmx_ends::{Fabric, QueueName};
use vmx_rxq::{RxDeviceEnd, RxDriverEnd, RxNoteEnd, RxQueueFacts};
use vmx_txq::{TxDeviceEnd, TxDriverEnd, TxFacts, TxQueueNote};

/// Queues whose two ends may be threads of their own, with no lock: descriptors and completions are words with a generation bit.
pub struct QueueFabric;

impl Fabric for QueueFabric {
    type TxNote = TxQueueNote;

    type TxDriver = TxDriverEnd;

    type TxDevice = TxDeviceEnd;

    type TxFacts = TxFacts;

    type RxNote = RxNoteEnd;

    type RxDriver = RxDriverEnd;

    type RxDevice = RxDeviceEnd;

    type RxFacts = RxQueueFacts;

    fn make_tx(
        alloc: Global,
        name: QueueName,
        size: u32,
        piece: u32,
        with_data: bool,
    ) -> Result<(TxDriverEnd, TxDeviceEnd), AllocError> {
        vmx_txq::make(alloc, name, size, piece, with_data)
    }

    fn make_rx(
        alloc: Global,
        name: QueueName,
        size1: u32,
        size2: u32,
        bodies: u32,
        queues: u32,
        with_data: bool,
    ) -> Result<(RxDriverEnd, RxDeviceEnd), AllocError> {
        vmx_rxq::make(alloc, name, size1, size2, bodies, queues, with_data)
    }

    fn meet_tx(driver: TxDriverEnd, device: TxDeviceEnd) -> TxFacts {
        vmx_txq::meet(driver, device)
    }

    fn meet_rx(driver: RxDriverEnd, device: RxDeviceEnd) -> RxQueueFacts {
        vmx_rxq::meet(driver, device)
    }
}
