//! A fabric makes the two ends of queues, and lets them meet. Whoever is generic in a fabric runs over each of them.
ghost use Rattle.std.specs.Prelude.{◌≡◌, ◌≤◌, ◌<◌, ◌%◌, ℕ, map, IfOk};
ghost use Rattle.vmx_ends.specs.TransmitClauses as tx;
ghost use Rattle.vmx_ends.specs.ReceiveClauses as rx;
ghost use Rattle.vmx_layout.specs.declared.addresses.TheConstants.{MAX_RING_SIZE};
ghost use Rattle.vmx_layout.specs.declared.register.TheConstants.{MAX_QUEUES};
ghost use Rattle.vmx_ends.specs.declared.limits.TheConstants.{RING_STEP, MAX_PIECE, MAX_BODIES};
ghost use Rattle.vmx_ends.specs.Queues.{made_tx, least_piece};
ghost use Rattle.vmx_ends.specs.HandedEnds.{ends_handed};

use crate::{QueueName, RxDevice, RxDriver, RxFacts, RxNote, TxDevice, TxDriver, TxFacts, TxNote};
use std::alloc::{AllocError, Global};
use vmx_io::{Handed, List};

pub trait Fabric: Send {
    type TxNote: TxNote;

    type TxDriver: TxDriver<Note = Self::TxNote>;

    type TxDevice: TxDevice<Note = Self::TxNote>;

    type TxFacts: TxFacts;

    type RxNote: RxNote;

    type RxDriver: RxDriver<Note = Self::RxNote>;

    type RxDevice: RxDevice<Note = Self::RxNote>;

    type RxFacts: RxFacts;

    /// The two ends of a transmit queue of `size` descriptors, 32 to 4,096 in steps of 32, that posts a frame in pieces
    /// of `piece` bytes, 576 to 4,096, and from 640 on with a data ring: the first 128 bytes of a frame are then a piece of
    /// their own.
    fn make_tx(
        alloc: Global,
        name: QueueName,
        size: u32,
        piece: u32,
        with_data: bool,
    ) -> Result<(Self::TxDriver, Self::TxDevice), AllocError>
        requires size { (RING_STEP ≤ size) × (size ≤ MAX_RING_SIZE) × (size % RING_STEP ≡ 0) }
        requires piece { (least_piece with_data ≤ piece) × (piece ≤ MAX_PIECE) }
        ensures made { IfOk result (λ p. tx.AreNew (made_tx name size piece with_data) (Self.TxDriver.view p.0) (Self.TxDevice.view p.1)) };

    /// The two ends of a receive queue, both rings made full: sizes 32 to 4,096 in steps of 32, 0 to 2 BODY descriptors
    /// behind each HEAD of ring 1, and 1 to 8 queues of the guest, of which this is one. With a data ring a frame of at most
    /// 128 bytes may lie in its head's data entry, which changes no answer.
    fn make_rx(
        alloc: Global,
        name: QueueName,
        size1: u32,
        size2: u32,
        bodies: u32,
        queues: u32,
        with_data: bool,
    ) -> Result<(Self::RxDriver, Self::RxDevice), AllocError>
        requires sizes { (RING_STEP ≤ size1) × (size1 ≤ MAX_RING_SIZE) × (size1 % RING_STEP ≡ 0) × (RING_STEP ≤ size2) × (size2 ≤ MAX_RING_SIZE) × (size2 % RING_STEP ≡ 0) }
        requires bodies { bodies ≤ MAX_BODIES }
        requires queues { (1 ≤ queues) × (queues ≤ MAX_QUEUES) × (name.queue < queues) }
        ensures made { IfOk result (λ p. rx.AreNew (rx.made_rx name size1 size2 bodies queues with_data) (Self.RxDriver.view p.0) (Self.RxDevice.view p.1)) };

    /// Lets the two ends of one transmit queue meet. No frame may be taken and not completed, and every note was heard.
    fn meet_tx(driver: Self::TxDriver, device: Self::TxDevice) -> Self::TxFacts
        requires keys { (Self.TxDriver.view driver).key ≡ (Self.TxDevice.view device).key }
        requires idle { tx.IsIdle (Self.TxDevice.view device) }
        requires even { tx.AreEven (Self.TxDriver.view driver) (Self.TxDevice.view device) }
        ensures made { (Self.TxDriver.view driver).made ≡ (Self.TxDevice.view device).made }
        ensures facts { Self.TxFacts.view result ≡ tx.facts_of (Self.TxDriver.view driver) (Self.TxDevice.view device) }
        ensures ordered { tx.IsOrdered (Self.TxFacts.view result) };

    /// Lets the two ends of one receive queue meet. Every note was heard.
    fn meet_rx(driver: Self::RxDriver, device: Self::RxDevice) -> Self::RxFacts
        requires keys { (Self.RxDriver.view driver).key ≡ (Self.RxDevice.view device).key }
        requires even { rx.AreEven (Self.RxDriver.view driver) (Self.RxDevice.view device) }
        ensures made { (Self.RxDriver.view driver).made ≡ (Self.RxDevice.view device).made }
        ensures facts { Self.RxFacts.view result ≡ rx.facts_of (Self.RxDriver.view driver) (Self.RxDevice.view device) }
        ensures ordered { rx.IsOrdered (Self.RxFacts.view result) };
}

/// The device's ends of a guest's queues, each list by the queue's number.
#[derive(Drop)]
pub struct Ends<F: Fabric> {
    pub tx: List<F::TxDevice>,
    pub rx: List<F::RxDevice>,
}

impl<F: Fabric> Handed for Ends<F> {
    ghost handed = { λ e. ends_handed (map F.TxDevice.view e.tx) (map F.RxDevice.view e.rx) };
}
