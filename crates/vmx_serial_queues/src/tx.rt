//! A transmit queue of the serial run: each frame goes through it at once.
ghost use Rattle.std.specs.Prelude.{◌≡◌, ◌≤◌, length, OnOk};

use std::alloc::{AllocError, Global};
use vmx_ends::{TxMade, TxMark};
use vmx_io::{Bytes, List};

/// A frame that was posted, with its mark.
#[derive(Drop)]
pub struct Posted {
    pub frame: Bytes,
    pub mark: TxMark,
}

/// A transmit queue: the frames that were posted, and how many of them were taken, completed and reaped.
#[derive(Drop)]
pub struct TxQueue {
    pub made: TxMade,
    pub sent: List<Posted>,
    pub taken: usize,
    pub completed: usize,
    pub reaped: usize,
    ghost order: { (taken ≤ length sent) × (completed ≤ length sent) × (reaped ≤ length sent) },
}

impl TxQueue {
    ghost use Rattle.vmx_ends.specs.TransmitCore.{new_core};
    ghost use Rattle.vmx_model.specs.Serial.{tx_is, through as goes_through};
    ghost use Rattle.vmx_serial_queues.specs.Queues.{tx_core, marked};

    /// A queue on which nothing was posted.
    pub fn new(alloc: Global, made: TxMade) -> TxQueue
        ensures new { tx_core result ≡ new_core made }
    {
        TxQueue {
            made,
            sent: List::new(alloc),
            taken: 0,
            completed: 0,
            reaped: 0,
        }
    }

    /// Whether it is the queue of this number in this activation.
    pub fn is(&self, activation: u32, queue: u32) -> bool
        ensures same { result ≡ tx_is activation queue (tx_core self.now) }
    {
        self.made.name.activation == activation && self.made.name.queue == queue
    }

    /// The frame is posted with its mark, taken, completed and reaped.
    pub fn through(&mut self, alloc: Global, frame: &[u8], mark: &TxMark) -> Result<(), AllocError>
        ensures through { OnOk result (tx_core self.new ≡ goes_through (marked frame.now mark.now) (tx_core self.old)) }
    {
        self.sent.push(Posted {
            frame: Bytes::from_slice(alloc, frame)?,
            mark: *mark,
        })?;
        let most = self.sent.len();
        prove!(self.taken < most && self.completed < most && self.reaped < most);
        self.taken += 1;
        self.completed += 1;
        self.reaped += 1;
        Ok(())
    }
}
