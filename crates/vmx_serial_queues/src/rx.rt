//! A receive queue of the serial run: two supplies of buffers by positions, and no ring.
ghost use Rattle.std.specs.Prelude.{◌≡◌, ◌≤◌, ◌<◌, ◌+◌, ◌*◌, ◌^◌, length, IfOk, OnOk};
ghost use Rattle.vmx_ends.specs.ReceiveClauses.{made_of};
ghost use Rattle.vmx_serial_queues.specs.Walks.{IsShape, outcome_of};

mod sums;

use self::sums::{used1, used2};
use crate::walk::{Outcome, missed_word, walked};
use std::alloc::{AllocError, Global};
use vmx_ends::{MAX_FRAME, RxMeta, RxShape};
use vmx_io::{Bytes, List};
use vmx_model::Received;

/// A frame that was delivered.
#[derive(Drop)]
pub struct Delivered {
    pub frame: Bytes,
    pub meta: RxMeta,
    /// BODY descriptors of ring 1 that were passed over before the head.
    pub passed: u64,
    /// The ring, 1 or 2, and the position of each piece.
    pub chain: List<(u32, u64)>,
    ghost few: { (passed ≤ 4096) × (length chain ≤ 3) },
}

/// A receive queue: the frames that were delivered, how many of them were received and posted back, and the looks that refused a frame.
#[derive(Drop)]
pub struct RxQueue {
    pub shape: RxShape,
    pub delivered: List<Delivered>,
    pub received: usize,
    /// The ring, 1 or 2, the position and the word of each.
    pub refused: List<(u32, u64, u64)>,
    ghost shaped: { IsShape shape },
    ghost within: { received ≤ length delivered },
}

impl Delivered {
    ghost use Rattle.vmx_ends.specs.Receive.{took1, took2};
    ghost use Rattle.vmx_serial_queues.specs.Queues.{delivery_of};

    /// How many buffers of ring 1 it took, those passed over included.
    pub fn took1(&self) -> u64
        ensures took { result ≡ took1 (delivery_of self.now) }
        ensures few { result ≤ 4099 }
    {
        self.passed + in_ring(1, self.chain.as_slice())
    }

    /// How many buffers of ring 2 it took.
    pub fn took2(&self) -> u64
        ensures took { result ≡ took2 (delivery_of self.now) }
        ensures few { result ≤ 4099 }
    {
        in_ring(2, self.chain.as_slice())
    }
}

impl RxQueue {
    ghost use Rattle.std.specs.Prelude.{◌-◌};
    ghost use Rattle.vmx_ends.specs.Receive.{took1, took2};
    ghost use Rattle.vmx_ends.specs.ReceiveCore.{new_core, comes_to as comes_to_of, after, delivers, receives};
    ghost use Rattle.vmx_model.specs.Serial.{rx_is, is_of, up_next as up_next_of};
    ghost use Rattle.vmx_serial_queues.specs.Queues.{rx_core, delivery_of};

    /// A queue whose rings are full.
    pub fn new(alloc: Global, shape: RxShape) -> RxQueue
        requires shape { IsShape shape }
        ensures new { rx_core result ≡ new_core (made_of shape) }
    {
        RxQueue {
            shape,
            delivered: List::new(alloc),
            received: 0,
            refused: List::new(alloc),
        }
    }

    /// Whether it is the queue of this number in this activation.
    pub fn is(&self, activation: u32, queue: u32) -> bool
        ensures same { result ≡ rx_is activation queue (rx_core self.now) }
    {
        self.shape.name.activation == activation && self.shape.name.queue == queue
    }

    /// Whether it is a queue of this activation.
    pub fn is_of(&self, activation: u32) -> bool
        ensures same { result ≡ is_of activation (rx_core self.now) }
    {
        self.shape.name.activation == activation
    }

    /// What the delivery of a frame of so many bytes comes to.
    pub fn comes_to(&self, alloc: Global, bytes: usize) -> Result<Outcome, AllocError>
        requires bytes { bytes ≤ MAX_FRAME }
        requires small { length self.now.delivered ≤ 2 ^ 40 }
        ensures outcome { IfOk result (λ x. outcome_of x ≡ comes_to_of (rx_core self.now) bytes) }
    {
        let delivered = self.delivered.as_slice();
        let back = &delivered[..self.received];
        walked(
            alloc,
            &self.shape,
            used1(delivered),
            used2(delivered),
            u64::from(self.shape.size1) + used1(back),
            u64::from(self.shape.size2) + used2(back),
            ((bytes + 2047) / 4096) as u32,
        )
    }

    /// A delivery is tried: the frame goes last in the delivered list, or a look refuses it.
    pub fn deliver(&mut self, alloc: Global, frame: &[u8], meta: &RxMeta) -> Result<(), AllocError>
        requires bytes { length frame.now ≤ MAX_FRAME }
        requires small { length self.old.delivered ≤ 2 ^ 40 }
        ensures delivers { OnOk result (rx_core self.new ≡ after (rx_core self.old) (delivers frame.now meta.now)) }
    {
        match self.comes_to(alloc, frame.len())? {
            Outcome::Takes { passed, end } => {
                let delivered = Delivered {
                    frame: Bytes::from_slice(alloc, frame)?,
                    meta: *meta,
                    passed,
                    chain: end.chain,
                };
                self.delivered.push(delivered)?;
            }
            Outcome::Misses {
                ring,
                position,
                looks: _,
            } => {
                let word = missed_word(ring_size(&self.shape, ring), position);
                self.refused.push((ring, position, word))?;
            }
        }
        Ok(())
    }

    /// The next frame is received, if there is one.
    pub fn receive_next(&mut self)
        ensures receives { rx_core self.new ≡ after (rx_core self.old) receives }
    {
        if self.received < self.delivered.len() {
            self.received += 1;
        }
    }

    /// The next frame of a queue of the activation, as the driver hands it up.
    pub fn up_next(&self, alloc: Global, activation: u32) -> Result<Option<Received>, AllocError>
        ensures next { IfOk result (λ x. x ≡ up_next_of activation (rx_core self.now)) }
    {
        if !self.is_of(activation) || self.received >= self.delivered.len() {
            return Ok(None);
        }
        let delivered = self.delivered.at(self.received);
        Ok(Some(Received {
            activation,
            queue: self.shape.name.queue,
            place: self.received as u64,
            frame: Bytes::from_slice(alloc, delivered.frame.as_slice())?,
            tci: delivered.meta.tci,
        }))
    }

    /// How many delivered frames are not received.
    pub fn pending(&self) -> usize
        ensures pending { result ≡ length self.now.delivered - self.now.received }
    {
        self.delivered.len() - self.received
    }
}

ghost use Rattle.vmx_ends.specs.Receive.{in_ring as in_ring_of};
ghost use Rattle.vmx_ends.specs.ReceiveClauses.{ring_size as ring_size_of};

/// How many pieces lie in a ring.
fn in_ring(ring: u32, chain: &[(u32, u64)]) -> u64
    ensures pieces { result ≡ in_ring_of ring chain.now }
    ensures few { result ≤ length chain.now }
{
    let mut pieces = 0;
    for spot in chain {
        if spot.0 == ring {
            pieces += 1;
        }
    }
    pieces
}

fn ring_size(shape: &RxShape, ring: u32) -> u32
    requires shape { IsShape shape.now }
    ensures size { result ≡ ring_size_of (made_of shape.now) ring }
    ensures some { 0 < result }
{
    if ring < 2 { shape.size1 } else { shape.size2 }
}
