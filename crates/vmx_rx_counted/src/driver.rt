//! The driver's end.
ghost use Rattle.std.specs.Prelude.{◌≡◌, ◌^◌, ◌<◌, ◌≤◌, suc, length, true, false, vec_len, vec_capacity};
ghost use Rattle.vmx_ends.specs.Receive.{used, pieces_of};
ghost use Rattle.vmx_ends.specs.ReceiveClauses.{Receives, GrowsReceived, driver_note, DriverHears};
ghost use Rattle.vmx_rx_ends.specs.Views.{HasWords};

use crate::notes::RingRxNote;
use vmx_ends::{Receive, RxDriver};
use vmx_rx_ends::RxReader;
use vmx_rx_ring::ByCount;

/// The end that receives frames.
///
/// ```text
/// words of the table, for n = size of ring 1 + size of ring 2, each one of 64 bits
/// 0 to n - 1      second words of the descriptors, ring 1 and then ring 2: len (bits 0-13), btype (14), generation (31)
/// n to 2n - 1     first words of the descriptors: the buffer's address
/// 2n to 3n - 1    second words of the completions: len (0-13), ts (15), tci (16-31), type (56-62)
/// 3n to 4n - 1    first words of the completions: rxdIdx (0-11), eop (14), sop (15), rqID (16-25), rssType (26-29), rssHash (32-63)
/// 4n              how many completions are visible
///
/// slots of the table
/// 0 to n - 1      the buffer of the descriptor with this index, 2,048 bytes of a HEAD and 4,096 of a BODY, with its data entry of 128 bytes
/// ```
#[derive(Drop)]
pub struct RingRxDriver {
    pub(crate) reader: RxReader<ByCount>,
    ghost words: { HasWords true reader.seat.table_id reader.shape },
}

impl RxDriver for RingRxDriver {
    ghost use Rattle.vmx_rx_counted.specs.Ends.{driver_view};

    type Note = RingRxNote;

    ghost view = { driver_view };

    fn receive(&mut self, into: &mut Vec<u8>) -> Receive {
        self.reader.receive(into)
    }

    fn note(&mut self) -> RingRxNote {
        RingRxNote {
            seat: self.reader.note(),
        }
    }

    fn hear(&mut self, note: RingRxNote) {
        let RingRxNote { seat } = note;
        self.reader.hear(seat);
    }
}
