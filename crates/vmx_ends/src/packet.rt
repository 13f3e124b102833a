//! A packet is a copy of a sent frame on its way from one guest to another.
//! Its tag says where the frame was sent: guest, activation, queue and place, each counted from 0. Own to this project.
//! A frame has 14 to 9,022 bytes: an Ethernet header at least, and at most a header with a VLAN tag and an MTU of 9,000.
ghost use Rattle.std.specs.Prelude.{◌≡◌, ◌≤◌, ◌<◌, ◌^◌, ℕ, length, slice_index, IfOk};
ghost use Rattle.vmx_io.specs.declared.buffer.TheConstants.{MIN_FRAME, MAX_FRAME};

use std::alloc::{AllocError, Global};
use vmx_io::Bytes;

/// Where a frame was sent.
#[derive(Clone, Copy, Debug, PartialEq, Eq)]
pub struct Tag {
    /// The guest that sent it, by its port.
    pub guest: u32,
    /// Which activation of that guest.
    pub activation: u32,
    /// The transmit queue of that activation.
    pub queue: u32,
    /// How many frames were sent on the queue before it.
    pub place: u64,
}

/// A queue of one activation of a guest.
#[derive(Clone, Copy, Debug, PartialEq, Eq)]
pub struct QueueName {
    pub guest: u32,
    pub activation: u32,
    pub queue: u32,
}

/// A frame and its tag.
#[derive(Debug, Drop)]
pub struct Packet {
    pub tag: Tag,
    /// 14 to 9,022 bytes.
    pub frame: Bytes,
    ghost least: { MIN_FRAME ≤ length frame },
    ghost most: { length frame ≤ MAX_FRAME },
    pub ghost octets: { (i : ℕ) → slice_index frame i < 2 ^ 8 },
}

impl Packet {
    /// A packet with a copy of these bytes.
    pub fn copy_of(alloc: Global, tag: Tag, frame: &[u8]) -> Result<Packet, AllocError>
        requires bounds { (MIN_FRAME ≤ length frame.now) × (length frame.now ≤ MAX_FRAME) }
        ensures tag { IfOk result (λ p. p.tag ≡ tag) }
        ensures frame { IfOk result (λ p. p.frame ≡ frame.now) }
    {
        Ok(Packet {
            tag,
            frame: Bytes::from_slice(alloc, frame)?,
        })
    }

    /// A packet with these bytes.
    pub fn holding(tag: Tag, frame: Vec<u8>) -> Packet
        requires bounds { (MIN_FRAME ≤ length frame.items) × (length frame.items ≤ MAX_FRAME) }
        ensures tag { result.tag ≡ tag }
        ensures frame { result.frame ≡ frame.items }
    {
        Packet {
            tag,
            frame: Bytes::of(frame),
        }
    }
}

impl Tag {
    /// The queue that the frame was sent on.
    pub fn queue_name(self) -> QueueName
        ensures guest { result.guest ≡ self.guest }
        ensures activation { result.activation ≡ self.activation }
        ensures queue { result.queue ≡ self.queue }
    {
        QueueName {
            guest: self.guest,
            activation: self.activation,
            queue: self.queue,
        }
    }
}
