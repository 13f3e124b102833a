//! The device's end: it takes frames and completes them, and passes notes.
ghost use Rattle.std.specs.Prelude.{◌≡◌, ◌^◌, ◌+◌, ◌%◌, ◌<◌, ◌≤◌, length, take, true, false, vec_len, vec_capacity};

use super::{TxDeviceEnd, TxQueueNote};
use crate::completing::complete_next;
use vmx_ends::{Take, TxDevice};

impl TxDevice for TxDeviceEnd {
    ghost use Rattle.vmx_txq.specs.Ends.{device_view};

    type Note = TxQueueNote;

    ghost view = { device_view };

    fn take(&mut self, into: &mut Vec<u8>) -> Take {
        self.reader.take(into)
    }

    fn complete(&mut self) {
        complete_next(&mut self.reader);
    }

    fn note(&mut self) -> TxQueueNote {
        TxQueueNote {
            seat: self.reader.note(),
        }
    }

    fn hear(&mut self, note: TxQueueNote) {
        let TxQueueNote { seat } = note;
        self.reader.hear(seat);
    }
}
