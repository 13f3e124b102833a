//! The two ends of a transmit queue, their notes, and the facts that are left when they meet.
ghost use Rattle.std.specs.Prelude.{◌≡◌, ◌+◌, ◌*◌, [], not};

use crate::rows::InRows;
use atomic_table::Seat;
use vmx_tx_ring::{TxBuffer, TxKnown, TxMeeting, TxReader, TxWriter};

mod device;
mod driver;
mod facts;

/// The driver's end.
///
/// ```text
/// words of the table, for s descriptors, each one of 64 bits
/// 0 to s - 1        the second words of the descriptors: len, generation (bit 14), the mark in a frame's first one, eop and cq in its last
/// s to 2s - 1       the first words of the descriptors: the address of the data entry in a frame's first one where there is a data ring, else of the buffer
/// 2s to 3s - 1      the second words of the completions: generation (bit 63)
/// 3s to 4s - 1      the first words of the completions: the index of the frame's last descriptor
///
/// slots of the table
/// 0 to s - 1        the buffer of 4,096 bytes, with its data entry of 128 bytes, of the descriptor with this index
/// ```
#[derive(Drop)]
pub struct TxDriverEnd {
    pub(crate) writer: TxWriter<InRows>,
    ghost wide: { writer.seat.table_id.words ≡ writer.made.size + (writer.made.size + writer.made.size * 2) },
    ghost rests: { writer.seat.me.0.driver.at.staged ≡ [] },
}

/// The device's end, over the same words and slots.
#[derive(Drop)]
pub struct TxDeviceEnd {
    pub(crate) reader: TxReader<InRows>,
    ghost wide: { reader.seat.table_id.words ≡ reader.made.size + (reader.made.size + reader.made.size * 2) },
    ghost rests: { reader.seat.me.0.device.at.ahead ≡ [] },
}

/// What one end tells the other.
#[derive(Drop)]
pub struct TxQueueNote {
    seat: Seat<TxBuffer, TxKnown>,
    ghost bare: { seat.me.1 ≡ [] },
    ghost side: { seat.me.0.of_device ≡ not seat.me.0.of_driver },
}

/// What is known of a queue whose ends have met.
#[derive(Drop)]
pub struct TxFacts {
    pub(crate) meeting: TxMeeting,
}
