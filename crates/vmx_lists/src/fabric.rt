//! The fabric of lists: it makes the ends of queues over lists, and lets them meet.
ghost use Rattle.std.specs.Prelude.{◌≡◌};

use crate::rx::{ListRxDevice, ListRxDriver, ListRxFacts, ListRxNote};
use crate::tx::{ListTxDevice, ListTxDriver, ListTxFacts, ListTxNote};
use crate::{rx, tx};
use std::alloc::{AllocError, Global};
use vmx_ends::{Fabric, QueueName, RxFacts, RxShape, TxFacts, TxMade};

/// Queues whose ends hand frames over through slots, in one thread or in two.
pub struct ListFabric;

impl TxFacts for ListTxFacts {
    ghost use Rattle.vmx_lists.specs.TxEnds.{facts_view};

    ghost view = { facts_view };

    fn name(&self) -> QueueName {
        let made = self.made;
        made.name
    }

    fn sent(&self) -> u64 {
        self.sent
    }

    fn taken(&self) -> u64 {
        self.taken
    }

    fn completed(&self) -> u64 {
        self.completed
    }

    fn reaped(&self) -> u64 {
        self.reaped
    }
}

impl RxFacts for ListRxFacts {
    ghost use Rattle.vmx_lists.specs.RxEnds.{facts_view};

    ghost view = { facts_view };

    fn name(&self) -> QueueName {
        let shape = self.shape;
        shape.name
    }

    fn delivered(&self) -> u64 {
        self.delivered
    }

    fn received(&self) -> u64 {
        self.received
    }

    fn refused(&self) -> u64 {
        self.refused
    }
}

impl Fabric for ListFabric {
    type TxNote = ListTxNote;

    type TxDriver = ListTxDriver;

    type TxDevice = ListTxDevice;

    type TxFacts = ListTxFacts;

    type RxNote = ListRxNote;

    type RxDriver = ListRxDriver;

    type RxDevice = ListRxDevice;

    type RxFacts = ListRxFacts;

    fn make_tx(
        alloc: Global,
        name: QueueName,
        size: u32,
        piece: u32,
        with_data: bool,
    ) -> Result<(ListTxDriver, ListTxDevice), AllocError> {
        let made = TxMade {
            name,
            size,
            piece,
            with_data,
            full: true,
        };
        tx::make(alloc, made)
    }

    fn make_rx(
        alloc: Global,
        name: QueueName,
        size1: u32,
        size2: u32,
        bodies: u32,
        queues: u32,
        with_data: bool,
    ) -> Result<(ListRxDriver, ListRxDevice), AllocError> {
        let shape = RxShape {
            name,
            queues,
            size1,
            size2,
            bodies,
            with_data,
        };
        rx::make(alloc, shape)
    }

    fn meet_tx(driver: ListTxDriver, device: ListTxDevice) -> ListTxFacts {
        tx::meet(driver, device)
    }

    fn meet_rx(driver: ListRxDriver, device: ListRxDevice) -> ListRxFacts {
        rx::meet(driver, device)
    }
}
