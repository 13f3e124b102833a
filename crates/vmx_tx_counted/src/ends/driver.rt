//! The driver's end: it posts frames and reaps them, and passes notes.
ghost use Rattle.std.specs.Prelude.{◌≡◌, ◌^◌, ◌+◌, ◌%◌, ◌<◌, ◌≤◌, length, true, false, vec_len, take};

use super::{RingTxDriver, RingTxNote};
use crate::reaping::reap_next;
use vmx_ends::{Post, Reap, TxDriver, TxMark, TxNote, need_of};

impl TxNote for RingTxNote {
    ghost use Rattle.vmx_tx_counted.specs.Ends.{note_view};

    ghost view = { note_view };
}

impl TxDriver for RingTxDriver {
    ghost use Rattle.vmx_tx_counted.specs.Ends.{driver_view};

    type Note = RingTxNote;

    ghost view = { driver_view };

    fn post(&mut self, frame: &[u8], mark: &TxMark) -> Post {
        let need = need_of(&self.writer.made, frame.len());
        let used = (self.writer.posted - self.writer.returned) as u32;
        if self.writer.made.size < used + need {
            return Post::Full { used, need };
        }
        let place = self.writer.place;
        self.writer.send(frame, mark, need);
        Post::Done { place }
    }

    fn reap(&mut self) -> Reap {
        reap_next(&mut self.writer)
    }

    fn note(&mut self) -> RingTxNote {
        RingTxNote {
            seat: self.writer.note(),
        }
    }

    fn hear(&mut self, note: RingTxNote) {
        let RingTxNote { seat } = note;
        self.writer.hear(seat);
    }
}
