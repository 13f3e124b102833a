//! The two ends of a transmit queue, their notes, and the facts that are left when they meet.
ghost use Rattle.std.specs.Prelude.{◌≡◌, [], not};

use crate::counting::InCount;
use atomic_table::Seat;
use vmx_tx_ring::{TxBuffer, TxKnown, TxMeeting, TxReader, TxWriter};

mod device;
mod driver;
mod facts;

/// The driver's end.
///
/// ```text
/// words of the table, for s descriptors, each one of 64 bits
/// 0 to s - 1        the second words of the descriptors: len, generation (bit 14), the mark in a frame's first one, eop and cq in its last
/// s to 2s - 1       the first words of the descriptors: the address of the data entry in a frame's first one where there is a data ring, else of the buffer
/// 2s                how many frames are completed
///
/// slots of the table
/// 0 to s - 1        the buffer of 4,096 bytes, with its data entry of 128 bytes, of the descriptor with this index
/// ```
#[derive(Drop)]
pub struct RingTxDriver {
    pub(crate) writer: TxWriter<InCount>,
    ghost rests: { writer.seat.me.0.driver.at.staged ≡ [] },
}

/// The device's end, over the same words and slots.
#[derive(Drop)]
pub struct RingTxDevice {
    pub(crate) reader: TxReader<InCount>,
    ghost rests: { reader.seat.me.0.device.at.ahead ≡ [] },
}

/// What one end tells the other.
#[derive(Drop)]
pub struct RingTxNote {
    seat: Seat<TxBuffer, TxKnown>,
    ghost bare: { seat.me.1 ≡ [] },
    ghost side: { seat.me.0.of_device ≡ not seat.me.0.of_driver },
}

/// What is known of a queue whose ends have met.
#[derive(Drop)]
pub struct RingTxFacts {
    pub(crate) meeting: TxMeeting,
}
