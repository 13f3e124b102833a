//! The device's end: it delivers frames, and passes notes.
ghost use Rattle.std.specs.Prelude.{◌≡◌, ◌^◌, ◌+◌, ◌-◌, ◌%◌, ◌<◌, ◌≤◌, [], length, take, vec_len, suc, true, false, slice_index};
ghost use mathlib.Core.Option.{none};
ghost use Rattle.atomic_table.specs.Table.{step};
ghost use Rattle.vmx_layout.specs.declared.TheConstants.{RX_DESC_GENERATION_BIT};
ghost use Rattle.vmx_ends.specs.Words.{missed_word};
ghost use Rattle.vmx_io.specs.declared.buffer.TheConstants.{MAX_FRAME};
ghost use Rattle.vmx_ends.specs.ReceiveClauses.{made_of, ring_size};
ghost use Rattle.vmx_ends.specs.declared.limits.TheConstants.{MAX_DESCRIPTORS};
ghost use Rattle.vmx_layout.specs.declared.addresses.TheConstants.{MAX_RING_SIZE};
ghost use Rattle.vmx_lists.specs.RxPlays.{device_looked};
ghost use Rattle.vmx_lists.specs.RxSums.{sum_at};

use super::log::{RxFrames, RxLog, RxParcel};
use super::plays::{DeviceNote, DeviceStore, DeviceTold, HearDriver, LookOne, LookThree, LookTwo};
use super::{ListRxDevice, ListRxNote, RxSlip};
use crate::bytes::fill;
use atomic_table::{Seat, Shared};
use vmx_ends::walk::{Next, WalkEnd, walk_by};
use vmx_ends::{BODY_SIZE, Deliver, HEAD_SIZE, RxDevice, RxMeta, RxShape};
use vmx_layout::RX_DESC_GENERATION_BIT;

/// The load of the received number, for a frame of n + 1 pieces.
fn look(
    shared: &Shared<RxParcel, RxLog, RxShape, RxFrames>,
    seat: &mut Seat<RxParcel, RxLog>,
    n: u32,
) -> u64
    requires table { (seat.old.table_id ≡ shared.now.table_id) × (shared.now.table_id.words ≡ 2) }
    requires rests { (seat.old.me.0.delivers ≡ true) × (seat.old.me.0.receives ≡ false) × (seat.old.me.0.busy ≡ false) × (seat.old.me.1 ≡ []) }
    requires pieces { n ≤ 2 }
    ensures same { (seat.new.table_id ≡ seat.old.table_id) × (seat.new.id ≡ seat.old.id) }
    ensures looked { device_looked n (step shared.now.table_id.slots 1 0 0 none) seat.old.me result seat.new.me }
{
    if n == 0 {
        return shared.load::<LookOne>(seat, 1);
    }
    if n == 1 {
        return shared.load::<LookTwo>(seat, 1);
    }
    shared.load::<LookThree>(seat, 1)
}

/// The look's word where the descriptor of a position is not posted.
fn missed_descriptor(size: u32, position: u64) -> u64
    requires size { 0 < size }
    ensures word { result ≡ missed_word RX_DESC_GENERATION_BIT size position }
{
    if (position / size as u64).is_multiple_of(2) {
        0
    } else {
        1 << RX_DESC_GENERATION_BIT
    }
}

/// The descriptors of a ring, 1 or 2.
fn size_of(shape: &RxShape, ring: u32) -> u32
    ensures size { result ≡ ring_size (made_of shape.now) ring }
{
    let shape = *shape;
    if ring < 2 { shape.size1 } else { shape.size2 }
}

/// How many buffers left a supply with the first frames.
fn sum_of(size: u32, sums: &[u64], received: u64) -> u64
    requires sums { (length sums.now ≡ size + 1) × (size ≤ MAX_RING_SIZE) }
    ensures sum { result ≡ sum_at size sums.now received }
{
    if received == 0 {
        return 0;
    }
    sums[((received - 1) % (size as u64 + 1)) as usize]
}

/// Puts a frame and its meta into a parcel.
fn pack(parcel: &mut RxParcel, frame: &[u8], meta: &RxMeta, passed: u64, pieces: u64)
    requires fits { length frame.now ≤ MAX_FRAME }
    requires few { passed + pieces ≤ MAX_DESCRIPTORS }
    ensures frame { take parcel.new.len parcel.new.bytes.items ≡ frame.now }
    ensures len { parcel.new.len ≡ length frame.now }
    ensures meta { parcel.new.meta ≡ meta.now }
    ensures pieces { (parcel.new.passed ≡ passed) × (parcel.new.pieces ≡ pieces) }
{
    fill(&mut parcel.bytes, frame);
    parcel.len = frame.len();
    parcel.meta = *meta;
    parcel.passed = passed;
    parcel.pieces = pieces;
}

impl RxDevice for ListRxDevice {
    ghost use Rattle.vmx_lists.specs.RxEnds.{device_view};

    type Note = ListRxNote;

    ghost view = { device_view };

    fn deliver(&mut self, frame: &[u8], meta: &RxMeta) -> Deliver {
        let n = (frame.len() as u32 + (BODY_SIZE - HEAD_SIZE - 1)) / BODY_SIZE;
        let shared = &self.table.shared;
        let received = look(shared, &mut self.seat, n);
        let posted1 = self.shape.size1 as u64
            + sum_of(self.shape.size1, self.ones.as_slice(), received);
        let posted2 = self.shape.size2 as u64
            + sum_of(self.shape.size1, self.twos.as_slice(), received);
        let at = Next {
            one: self.next1,
            two: self.next2,
        };
        match walk_by(&self.shape, at, posted1, posted2, n) {
            WalkEnd::Misses { ring, position } => {
                let look = self.refusals;
                self.refusals += 1;
                let size = size_of(&self.shape, ring);
                Deliver::NoBuffer {
                    ring,
                    position,
                    word: missed_descriptor(size, position),
                    look,
                }
            }
            WalkEnd::Takes {
                passed,
                next1,
                next2,
            } => {
                let index = (self.place % self.shape.size1 as u64) as usize;
                pack(
                    self.seat.slot_mut(shared, index),
                    frame,
                    meta,
                    passed,
                    n as u64 + 1,
                );
                shared.store::<DeviceStore>(&mut self.seat, 0, self.place + 1);
                let place = self.place;
                let kept = (place % (self.shape.size1 as u64 + 1)) as usize;
                self.ones[kept] = next1;
                self.twos[kept] = next2;
                self.place += 1;
                self.next1 = next1;
                self.next2 = next2;
                Deliver::Done { place }
            }
        }
    }

    fn note(&mut self) -> ListRxNote {
        let shared = &self.table.shared;
        ListRxNote::Told {
            slip: RxSlip {
                seat: shared.split_seat::<DeviceNote>(&mut self.seat),
            },
        }
    }

    fn hear(&mut self, note: ListRxNote) {
        match note {
            ListRxNote::Told { slip } => {
                let RxSlip { seat } = slip;
                let shared = &self.table.shared;
                shared.join_seat::<HearDriver>(&mut self.seat, seat);
                shared.load::<DeviceTold>(&mut self.seat, 0);
            }
            ListRxNote::Nothing => unreachable!(),
        }
    }
}
