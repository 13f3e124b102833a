//! The driver's ends of one activation: a transmit queue, and the first receive queue.

ghost use Rattle.std.specs.Prelude.{◌≡◌, ◌≤◌, ◌<◌, ◌*◌, ◌∷◌, [], ◌++◌, true, length, map, IfOk, IfSome, IsTrue};
ghost use Rattle.vmx_ends.specs.Frames.{IsMarked, sent_as};
ghost use Rattle.vmx_ends.specs.Transmit.{posted};
ghost use Rattle.vmx_ends.specs.Receive.{used, pieces_of};
ghost use Rattle.vmx_ends.specs.HandedEnds.{all_of, is_whole_tx, is_fresh_tx, is_whole_rx, is_fresh_rx};
ghost use Rattle.vmx_ends.specs.declared.frames.Delivery.{Delivery};
ghost use Rattle.vmx_lists.specs.TxEnds.{driver_view as tx_view, device_view as tx_device};
ghost use Rattle.vmx_lists.specs.RxEnds.{driver_view as rx_view, device_view as rx_device};
ghost use Rattle.vmx_machine_state.specs.Views.{ends_view, handed_of};
ghost use Rattle.vmx_one_guest.specs.Queues.{IsFewSent, IsFewReceived};
ghost use Rattle.vmx_one_guest.specs.declared.queues.TheConstants.{MAX_CALLS};

use std::alloc::{AllocError, Global};
use vmx_ends::{Ends, Fabric, Post, QueueName, Receive, RxDriver, TxDriver, TxMark};
use vmx_io::{Buffer, List};
use vmx_lists::{ListFabric, ListRxDevice, ListRxDriver, ListTxDevice, ListTxDriver};
use vmx_shared_area::Setup;

/// Bytes of a piece of a posted frame.
const PIECE: u32 = 4096;

/// The most calls of the ends of one activation.
pub const MAX_CALLS: u64 = 1_000;

/// The driver's ends, and how many calls were made on them. They are let go here alone, so that no crate above has to prove that of
/// each of their parts again.
pub struct Queues {
    pub tx: ListTxDriver,
    pub rx: ListRxDriver,
    calls: u64,
    ghost few: { calls ≤ MAX_CALLS },
    ghost sent: { IsFewSent calls tx },
    ghost received: { IsFewReceived calls rx },
}

/// A frame that came up, and the tag that was taken out of it.
#[derive(Drop)]
pub struct Up {
    pub bytes: Vec<u8>,
    pub tci: Option<u16>,
}

impl Drop for Queues {
    fn drop(self) {
        let Queues {
            tx: _,
            rx: _,
            calls: _,
        } = self;
    }
}

impl Queues {
    /// Posts a frame. Says whether there was room; no after `MAX_CALLS`.
    pub fn post(&mut self, frame: &[u8], mark: &TxMark) -> bool
        requires frame { IsMarked frame.now mark.now }
        ensures sent { IsTrue result → (tx_view self.new.tx).sent ≡ (tx_view self.old.tx).sent ++ sent_as frame.now mark.now ∷ [] }
    {
        if self.calls >= MAX_CALLS {
            return false;
        }
        self.calls += 1;
        matches!(self.tx.post(frame, mark), Post::Done { place: _ })
    }

    /// The next frame of the first receive queue, where there is one; none after `MAX_CALLS`.
    pub fn receive(&mut self, alloc: Global) -> Result<Option<Up>, AllocError>
        ensures up { IfOk result (λ o. IfSome o (λ u. (d : Delivery) × ((rx_view self.new.rx).received ≡ (rx_view self.old.rx).received ++ d ∷ []) × (d.frame ≡ u.bytes.items) × (d.meta.tci ≡ u.tci))) }
    {
        if self.calls >= MAX_CALLS {
            return Ok(None);
        }
        let mut bytes = Buffer::new(alloc)?.into_room();
        self.calls += 1;
        match self.rx.receive(&mut bytes) {
            Receive::Frame {
                place: _,
                meta,
                descriptors: _,
            } => Ok(Some(Up {
                bytes,
                tci: meta.tci,
            })),
            Receive::NotYet { word: _ } => Ok(None),
        }
    }
}

/// The ends of the transmit queue.
fn tx_ends(
    alloc: Global,
    setup: &Setup,
    activation: u32,
) -> Result<(ListTxDriver, ListTxDevice), AllocError>
    ensures driver { IfOk result (λ p. IsFewSent 0 p.0) }
    ensures whole { IfOk result (λ p. is_whole_tx (tx_device p.1) ≡ true) }
    ensures fresh { IfOk result (λ p. is_fresh_tx (tx_device p.1) ≡ true) }
{
    let name = QueueName {
        guest: 0,
        activation,
        queue: 0,
    };
    ListFabric::make_tx(alloc, name, setup.tx_ring, PIECE, false)
}

/// The ends of a receive queue, of two at most.
fn rx_ends(
    alloc: Global,
    setup: &Setup,
    activation: u32,
    queue: u32,
) -> Result<(ListRxDriver, ListRxDevice), AllocError>
    requires queue { queue < 2 }
    ensures driver { IfOk result (λ p. IsFewReceived 0 p.0) }
    ensures whole { IfOk result (λ p. is_whole_rx (rx_device p.1) ≡ true) }
    ensures fresh { IfOk result (λ p. is_fresh_rx (rx_device p.1) ≡ true) }
{
    let name = QueueName {
        guest: 0,
        activation,
        queue,
    };
    ListFabric::make_rx(alloc, name, setup.rx_ring1, setup.rx_ring2, 0, 2, false)
}

/// The ends of the one or two receive queues, and of the driver's those of the first.
fn all_rx_ends(
    alloc: Global,
    setup: &Setup,
    activation: u32,
) -> Result<(ListRxDriver, List<ListRxDevice>), AllocError>
    ensures driver { IfOk result (λ p. IsFewReceived 0 p.0) }
    ensures whole { IfOk result (λ p. all_of is_whole_rx (map rx_device p.1) ≡ true) }
    ensures fresh { IfOk result (λ p. all_of is_fresh_rx (map rx_device p.1) ≡ true) }
{
    let (driver, first) = rx_ends(alloc, setup, activation, 0)?;
    let mut ends = List::new(alloc);
    ends.push(first)?;
    if setup.rx_queues == 1 {
        return Ok((driver, ends));
    }
    let (_driver, second) = rx_ends(alloc, setup, activation, 1)?;
    ends.push(second)?;
    Ok((driver, ends))
}

/// New queues of an activation with one transmit queue and one or two receive queues: the driver's ends, and the device's.
pub fn queues_of(
    alloc: Global,
    setup: &Setup,
    activation: u32,
) -> Result<(Queues, Ends<ListFabric>), AllocError>
    ensures whole { IfOk result (λ p. (handed_of (ends_view tx_device rx_device p.1)).whole ≡ true) }
    ensures fresh { IfOk result (λ p. (handed_of (ends_view tx_device rx_device p.1)).fresh ≡ true) }
{
    let (tx_driver, tx_device) = tx_ends(alloc, setup, activation)?;
    let (rx_driver, rx) = all_rx_ends(alloc, setup, activation)?;
    let mut tx = List::new(alloc);
    tx.push(tx_device)?;
    let queues = Queues {
        tx: tx_driver,
        rx: rx_driver,
        calls: 0,
    };
    Ok((queues, Ends { tx, rx }))
}
