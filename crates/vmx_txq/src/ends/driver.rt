//! The driver's end: it posts frames and reaps them, and passes notes.
ghost use Rattle.std.specs.Prelude.{◌≡◌, ◌^◌, ◌+◌, ◌%◌, ◌<◌, ◌≤◌, length, true, false, vec_len, take};

use super::{TxDriverEnd, TxQueueNote};
use crate::reaping::reap_next;
use vmx_ends::{Post, Reap, TxDriver, TxMark, TxNote, need_of};

impl TxNote for TxQueueNote {
    ghost use Rattle.vmx_txq.specs.Ends.{note_view};

    ghost view = { note_view };
}

impl TxDriver for TxDriverEnd {
    ghost use Rattle.vmx_txq.specs.Ends.{driver_view};

    type Note = TxQueueNote;

    ghost view = { driver_view };

    fn post(&mut self, frame: &[u8], mark: &TxMark) -> Post {
        let need = need_of(&self.writer.made, frame.len());
        let used = (self.writer.posted - self.writer.returned) as u32;
        if self.writer.made.size < used + need {
            return Post::Full { used, need };
        }
        let place = self.writer.place;
        self.writer.send(frame, mark, need);
        Post::Done { place }
    }

    fn reap(&mut self) -> Reap {
        reap_next(&mut self.writer)
    }

    fn note(&mut self) -> TxQueueNote {
        TxQueueNote {
            seat: self.writer.note(),
        }
    }

    fn hear(&mut self, note: TxQueueNote) {
        let TxQueueNote { seat } = note;
        self.writer.hear(seat);
    }
}
