//! The core of a transmit queue over a list of frames. Each call counts anew what it needs to know.
ghost use Rattle.std.specs.Prelude.{◌≡◌, ◌≤◌, ◌<◌, ◌+◌, ◌-◌, ◌/◌, ◌^◌, ℕ, length, drop, IfOk, OnErr, vec_len, vec_capacity};
ghost use Rattle.vmx_ends.specs.Frames.{IsMarked};
ghost use Rattle.vmx_ends.specs.Transmit.{need};
ghost use Rattle.vmx_ends.specs.Queues.{least_piece};
ghost use Rattle.vmx_io.specs.declared.buffer.TheConstants.{MAX_FRAME};
ghost use Rattle.vmx_ends.specs.declared.limits.TheConstants.{MIN_PIECE, MAX_PIECE, MAX_DESCRIPTORS};
ghost use Rattle.vmx_layout.specs.declared.addresses.TheConstants.{MAX_RING_SIZE};
ghost use Rattle.vmx_queue_reference.specs.PlainFrames.{ArePosted, needed_from};

use crate::rx::put;
use std::alloc::{AllocError, Global};
use vmx_ends::{Post, TxMade, TxMark, need_of};
use vmx_io::{Bytes, List};

/// A frame that was posted, with its mark.
#[derive(Drop)]
pub struct TxFrame {
    pub frame: Bytes,
    pub mark: TxMark,
}

/// A transmit queue: the frames that were posted, and how many of them were taken, completed and reaped.
#[derive(Drop)]
pub struct PlainTx {
    pub made: TxMade,
    pub sent: List<TxFrame>,
    pub reaped: usize,
    pub completed: usize,
    pub taken: usize,
    ghost sizes: { (made.size ≤ MAX_RING_SIZE) × (least_piece made.with_data ≤ made.piece) × (made.piece ≤ MAX_PIECE) },
    ghost order: { (reaped ≤ completed) × (completed ≤ taken) × (taken ≤ length sent) },
    ghost frames: { ArePosted sent },
    ghost within: { needed_from made reaped sent ≤ made.size },
}

/// The frame of a place was taken, and has this mark.
#[derive(Clone, Copy, Debug, PartialEq, Eq)]
pub struct Taken {
    pub place: u64,
    pub mark: TxMark,
}

/// The frame of a place gave so many descriptors back.
#[derive(Clone, Copy, Debug, PartialEq, Eq)]
pub struct Reaped {
    pub place: u64,
    pub descriptors: u32,
}

impl PlainTx {
    ghost use Rattle.vmx_queue_reference.specs.PlainTransmit.{tx_core, Posts, Takes, Reaps};
    ghost use Rattle.vmx_ends.specs.TransmitCore.{new_core, completes, after};

    /// A queue of which all descriptors are free.
    pub fn new(alloc: Global, made: TxMade) -> PlainTx
        requires sizes { (made.size ≤ MAX_RING_SIZE) × (least_piece made.with_data ≤ made.piece) × (made.piece ≤ MAX_PIECE) }
        ensures new { tx_core result ≡ new_core made }
    {
        PlainTx {
            made,
            sent: List::new(alloc),
            reaped: 0,
            completed: 0,
            taken: 0,
        }
    }

    /// Posts a frame where the free descriptors suffice.
    pub fn post(&mut self, alloc: Global, frame: &[u8], mark: &TxMark) -> Result<Post, AllocError>
        requires frame { IsMarked frame.now mark.now }
        ensures posts { IfOk result (λ a. Posts self.old frame.now mark.now a self.new) }
        ensures same { OnErr result (tx_core self.new ≡ tx_core self.old) }
    {
        let used = needed(&self.made, &self.sent, self.reaped);
        let need = need_of(&self.made, frame.len());
        if self.made.size < used + need {
            return Ok(Post::Full { used, need });
        }
        let place = self.sent.len() as u64;
        self.sent.push(TxFrame {
            frame: Bytes::from_slice(alloc, frame)?,
            mark: *mark,
        })?;
        Ok(Post::Done { place })
    }

    /// Takes the next frame into an empty buffer, where none is taken and not completed.
    pub fn take(&mut self, into: &mut Vec<u8>) -> Option<Taken>
        requires empty { vec_len into.old ≡ 0 }
        requires room { MAX_FRAME ≤ vec_capacity into.old }
        ensures takes { Takes self.old into.new.items result self.new }
        ensures room { vec_capacity into.old ≤ vec_capacity into.new }
    {
        if self.taken != self.completed || self.taken >= self.sent.len() {
            return None;
        }
        let place = self.taken;
        let next = self.sent.at(place);
        put(&next.frame, into);
        let mark = next.mark;
        self.taken += 1;
        Some(Taken {
            place: place as u64,
            mark,
        })
    }

    /// Completes the frame that is taken.
    pub fn complete(&mut self)
        requires taken { self.old.completed < self.old.taken }
        ensures completes { tx_core self.new ≡ after (tx_core self.old) completes }
    {
        self.completed += 1;
    }

    /// Takes the next completed frame's descriptors back.
    pub fn reap(&mut self) -> Option<Reaped>
        ensures reaps { Reaps self.old result self.new }
    {
        if self.reaped >= self.completed {
            return None;
        }
        let place = self.reaped;
        let descriptors = need_of(&self.made, self.sent.at(place).frame.len());
        self.reaped += 1;
        Some(Reaped {
            place: place as u64,
            descriptors,
        })
    }
}

/// How many descriptors the frames from a place on need.
fn needed(made: &TxMade, sent: &List<TxFrame>, from: usize) -> u32
    requires piece { (least_piece made.now.with_data ≤ made.now.piece) × (made.now.piece ≤ MAX_PIECE) }
    requires frames { ArePosted sent.now }
    requires within { needed_from made.now from sent.now ≤ MAX_RING_SIZE }
    ensures sum { result ≡ needed_from made.now from sent.now }
{
    if from >= sent.len() {
        return 0;
    }
    need_of(made, sent.at(from).frame.len()) + needed(made, sent, from + 1)
}
