//! The driver's end: it receives frames, and passes notes.
ghost use Rattle.std.specs.Prelude.{◌≡◌, ◌^◌, ◌<◌, ◌≤◌, length, take, true, false, vec_len, vec_capacity};
ghost use Rattle.vmx_layout.specs.declared.TheConstants.{COMPLETION_GENERATION_BIT};
ghost use Rattle.vmx_ends.specs.Words.{missed_word};
ghost use Rattle.vmx_io.specs.declared.buffer.TheConstants.{MAX_FRAME};

use super::log::RxParcel;
use super::plays::{DriverLook, DriverNote, DriverStore, DriverTold, HearDevice};
use super::{ListRxDriver, ListRxNote, RxSlip};
use crate::bytes::put;
use vmx_ends::{Receive, RxDriver, RxNote};
use vmx_layout::COMPLETION_GENERATION_BIT;

impl RxNote for ListRxNote {
    ghost use Rattle.vmx_lists.specs.RxEnds.{note_view};

    ghost view = { note_view };
}

/// Puts the frame of a parcel into an empty buffer.
fn unpack(parcel: &RxParcel, into: &mut Vec<u8>)
    requires empty { vec_len into.old ≡ 0 }
    requires room { MAX_FRAME ≤ vec_capacity into.old }
    ensures frame { into.new.items ≡ take parcel.now.len parcel.now.bytes.items }
    ensures room { vec_capacity into.old ≤ vec_capacity into.new }
{
    let _parcel = parcel;
    put(&parcel.bytes.as_slice()[..parcel.len], into);
}

/// The look's word where the completion of a position is not there.
fn missed_completion(size: u64, position: u64) -> u64
    requires size { 0 < size }
    ensures word { result ≡ missed_word COMPLETION_GENERATION_BIT size position }
{
    if (position / size).is_multiple_of(2) {
        0
    } else {
        1 << COMPLETION_GENERATION_BIT
    }
}

impl RxDriver for ListRxDriver {
    ghost use Rattle.vmx_lists.specs.RxEnds.{driver_view};

    type Note = ListRxNote;

    ghost view = { driver_view };

    fn receive(&mut self, into: &mut Vec<u8>) -> Receive {
        let shared = &self.table.shared;
        let delivered = shared.load::<DriverLook>(&mut self.seat, 0);
        if delivered <= self.place {
            let size = self.shape.size1 as u64 + self.shape.size2 as u64;
            return Receive::NotYet {
                word: missed_completion(size, self.position),
            };
        }
        let index = (self.place % self.shape.size1 as u64) as usize;
        let parcel = self.seat.slot_mut(shared, index);
        let meta = parcel.meta;
        let passed = parcel.passed;
        let pieces = parcel.pieces;
        unpack(parcel, into);
        shared.store::<DriverStore>(&mut self.seat, 1, self.place + 1);
        let place = self.place;
        self.place += 1;
        self.position += pieces;
        Receive::Frame {
            place,
            meta,
            descriptors: (passed + pieces) as u32,
        }
    }

    fn note(&mut self) -> ListRxNote {
        let shared = &self.table.shared;
        ListRxNote::Told {
            slip: RxSlip {
                seat: shared.split_seat::<DriverNote>(&mut self.seat),
            },
        }
    }

    fn hear(&mut self, note: ListRxNote) {
        match note {
            ListRxNote::Told { slip } => {
                let RxSlip { seat } = slip;
                let shared = &self.table.shared;
                shared.join_seat::<HearDevice>(&mut self.seat, seat);
                shared.load::<DriverTold>(&mut self.seat, 0);
            }
            ListRxNote::Nothing => unreachable!(),
        }
    }
}
