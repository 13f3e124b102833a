//! The device's end: it takes frames and completes them, and passes notes.
ghost use Rattle.std.specs.Prelude.{◌≡◌, ◌^◌, ◌+◌, ◌%◌, ◌<◌, ◌≤◌, length, take, true, false, vec_len, vec_capacity};

use super::{RingTxDevice, RingTxNote};
use crate::completing::complete_next;
use vmx_ends::{Take, TxDevice};

impl TxDevice for RingTxDevice {
    ghost use Rattle.vmx_tx_counted.specs.Ends.{device_view};

    type Note = RingTxNote;

    ghost view = { device_view };

    fn take(&mut self, into: &mut Vec<u8>) -> Take {
        self.reader.take(into)
    }

    fn complete(&mut self) {
        complete_next(&mut self.reader);
    }

    fn note(&mut self) -> RingTxNote {
        RingTxNote {
            seat: self.reader.note(),
        }
    }

    fn hear(&mut self, note: RingTxNote) {
        let RingTxNote { seat } = note;
        self.reader.hear(seat);
    }
}
