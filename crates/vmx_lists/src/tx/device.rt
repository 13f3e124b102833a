//! The device's end: it takes frames and completes them, and passes notes.
ghost use Rattle.std.specs.Prelude.{◌≡◌, ◌^◌, ◌+◌, ◌%◌, ◌<◌, ◌≤◌, length, take, true, false, vec_len, vec_capacity};
ghost use Rattle.vmx_layout.specs.declared.TheConstants.{TX_DESC_GENERATION_BIT};
ghost use Rattle.vmx_ends.specs.Words.{missed_word};
ghost use Rattle.vmx_io.specs.declared.buffer.TheConstants.{MAX_FRAME};

use super::log::TxParcel;
use super::plays::{DeviceLook, DeviceNote, DeviceReturns, DeviceStore, DeviceTold, HearDriver};
use super::{ListTxDevice, ListTxNote, TxSlip};
use crate::bytes::put;
use vmx_ends::{Take, TxDevice, need_of};
use vmx_layout::TX_DESC_GENERATION_BIT;

/// Puts the frame of a parcel into an empty buffer.
fn unpack(parcel: &TxParcel, into: &mut Vec<u8>)
    requires empty { vec_len into.old ≡ 0 }
    requires room { MAX_FRAME ≤ vec_capacity into.old }
    ensures frame { into.new.items ≡ take parcel.now.len parcel.now.bytes.items }
    ensures room { vec_capacity into.old ≤ vec_capacity into.new }
{
    let _parcel = parcel;
    put(&parcel.bytes.as_slice()[..parcel.len], into);
}

/// The look's word where the descriptor of a position is not there.
fn missed_descriptor(size: u32, position: u64) -> u64
    requires size { 0 < size }
    ensures word { result ≡ missed_word TX_DESC_GENERATION_BIT size position }
{
    if (position / size as u64).is_multiple_of(2) {
        0
    } else {
        1 << TX_DESC_GENERATION_BIT
    }
}

impl TxDevice for ListTxDevice {
    ghost use Rattle.vmx_lists.specs.TxEnds.{device_view};

    type Note = ListTxNote;

    ghost view = { device_view };

    fn take(&mut self, into: &mut Vec<u8>) -> Take {
        let shared = &self.table.shared;
        let sent = shared.load::<DeviceLook>(&mut self.seat, 0);
        if sent <= self.place {
            return Take::Empty {
                word: missed_descriptor(self.made.size, self.position),
            };
        }
        let index = (self.place % self.made.size as u64) as usize;
        let parcel = self.seat.slot_mut(shared, index);
        let mark = parcel.mark;
        unpack(parcel, into);
        let need = need_of(&self.made, into.as_slice().len());
        shared.load::<DeviceReturns>(&mut self.seat, 0);
        let place = self.place;
        self.place += 1;
        self.position += need as u64;
        Take::Frame { place, mark }
    }

    fn complete(&mut self) {
        let shared = &self.table.shared;
        shared.store::<DeviceStore>(&mut self.seat, 1, self.completed + 1);
        self.completed += 1;
    }

    fn note(&mut self) -> ListTxNote {
        let shared = &self.table.shared;
        ListTxNote::Told {
            slip: TxSlip {
                seat: shared.split_seat::<DeviceNote>(&mut self.seat),
            },
        }
    }

    fn hear(&mut self, note: ListTxNote) {
        match note {
            ListTxNote::Told { slip } => {
                let TxSlip { seat } = slip;
                let shared = &self.table.shared;
                shared.join_seat::<HearDriver>(&mut self.seat, seat);
                shared.load::<DeviceTold>(&mut self.seat, 0);
            }
            ListTxNote::Nothing => unreachable!(),
        }
    }
}
