//! The driver's end: it posts frames and reaps them, and passes notes.
ghost use Rattle.std.specs.Prelude.{◌≡◌, ◌^◌, ◌+◌, ◌-◌, ◌/◌, ◌%◌, ◌<◌, ◌≤◌, length, true, false, vec_len, take};
ghost use Rattle.vmx_ends.specs.Transmit.{need};
ghost use Rattle.vmx_ends.specs.Queues.{least_piece};
ghost use Rattle.vmx_io.specs.declared.buffer.TheConstants.{MAX_FRAME};
ghost use Rattle.vmx_ends.specs.declared.limits.TheConstants.{MIN_PIECE, MAX_PIECE, MAX_DESCRIPTORS};
ghost use Rattle.vmx_layout.specs.declared.TheConstants.{COMPLETION_GENERATION_BIT};
ghost use Rattle.vmx_ends.specs.Words.{missed_word};

use super::log::TxParcel;
use super::plays::{DriverLook, DriverNote, DriverOpens, DriverStore, DriverTold, HearDevice};
use super::{ListTxDriver, ListTxNote, TxSlip};
use crate::bytes::fill;
use vmx_ends::{Post, Reap, TxDriver, TxMade, TxMark, TxNote, need_of};
use vmx_layout::{COMPLETION_GENERATION_BIT, DATA_ENTRY_SIZE};

impl TxNote for ListTxNote {
    ghost use Rattle.vmx_lists.specs.TxEnds.{note_view};

    ghost view = { note_view };
}

/// Puts a frame and its mark into a parcel.
fn pack(parcel: &mut TxParcel, frame: &[u8], mark: &TxMark)
    requires fits { length frame.now ≤ MAX_FRAME }
    ensures frame { take parcel.new.len parcel.new.bytes.items ≡ frame.now }
    ensures len { parcel.new.len ≡ length frame.now }
    ensures mark { parcel.new.mark ≡ mark.now }
{
    fill(&mut parcel.bytes, frame);
    parcel.len = frame.len();
    parcel.mark = *mark;
}

/// The look's word where the completion of a position is not there.
fn missed_completion(size: u32, position: u64) -> u64
    requires size { 0 < size }
    ensures word { result ≡ missed_word COMPLETION_GENERATION_BIT size position }
{
    if (position / size as u64).is_multiple_of(2) {
        0
    } else {
        1 << COMPLETION_GENERATION_BIT
    }
}

impl TxDriver for ListTxDriver {
    ghost use Rattle.vmx_lists.specs.TxEnds.{driver_view};

    type Note = ListTxNote;

    ghost view = { driver_view };

    fn post(&mut self, frame: &[u8], mark: &TxMark) -> Post {
        let need = need_of(&self.made, frame.len());
        let used = self.used;
        if self.made.size < used + need {
            return Post::Full { used, need };
        }
        let shared = &self.table.shared;
        shared.load::<DriverOpens>(&mut self.seat, 1);
        let index = (self.place % self.made.size as u64) as usize;
        pack(self.seat.slot_mut(shared, index), frame, mark);
        shared.store::<DriverStore>(&mut self.seat, 0, self.place + 1);
        let place = self.place;
        self.needs[index] = need;
        self.used = used + need;
        self.place += 1;
        Post::Done { place }
    }

    fn reap(&mut self) -> Reap {
        let shared = &self.table.shared;
        let completed = shared.load::<DriverLook>(&mut self.seat, 1);
        if completed <= self.reaped {
            return Reap::NotYet {
                word: missed_completion(self.made.size, self.reaped),
            };
        }
        let place = self.reaped;
        let descriptors = self.needs[(place % self.made.size as u64) as usize];
        self.used -= descriptors;
        self.reaped += 1;
        Reap::Done { place, descriptors }
    }

    fn note(&mut self) -> ListTxNote {
        let shared = &self.table.shared;
        ListTxNote::Told {
            slip: TxSlip {
                seat: shared.split_seat::<DriverNote>(&mut self.seat),
            },
        }
    }

    fn hear(&mut self, note: ListTxNote) {
        match note {
            ListTxNote::Told { slip } => {
                let TxSlip { seat } = slip;
                let shared = &self.table.shared;
                shared.join_seat::<HearDevice>(&mut self.seat, seat);
                shared.load::<DriverTold>(&mut self.seat, 0);
            }
            ListTxNote::Nothing => unreachable!(),
        }
    }
}
