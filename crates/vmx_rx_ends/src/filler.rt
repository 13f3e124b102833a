//! The device's end.
ghost use Rattle.std.specs.Prelude.{◌≡◌, ◌≢◌, ◌+◌, ◌*◌, ◌/◌, ◌^◌, ◌<◌, ◌≤◌, ◌∷◌, [], length, true, false, not, None};
ghost use Rattle.std.specs.Arc.{arc_value};
ghost use Rattle.vmx_layout.specs.declared.TheConstants.{COMPLETION_GENERATION_BIT};
ghost use Rattle.vmx_ring_laws.specs.Keys.{key_of};
ghost use Rattle.vmx_ends.specs.declared.limits.TheConstants.{HEAD_SIZE};
ghost use Rattle.vmx_ends.specs.Frames.{IsFrame};
ghost use Rattle.vmx_ends.specs.Receive.{used, took1, took2, pieces_of, consumed1, consumed2};
ghost use Rattle.vmx_ends.specs.ReceiveClauses.{Delivers, GrowsDelivered, NotesDevice, DeviceHears, made_of};
ghost use Rattle.vmx_ends.specs.Walk.{further_pieces};
ghost use Rattle.vmx_rx_ring.specs.Shapes.{IsShape};
ghost use Rattle.vmx_rx_ring.specs.Words.{spot_of, body_of, body_word, TagFits};
ghost use Rattle.vmx_rx_walk.specs.Walking.{IsDevice, IsResting, chain_of};
ghost use Rattle.vmx_rx_walk.specs.Staging.{IsStill};
ghost use Rattle.vmx_rx_ends.specs.Views.{HasWords, device_seen, note_seen};

use atomic_table::Seat;
use std::alloc::Global;
use std::sync::Arc;
use vmx_ends::{BODY_SIZE, Deliver, HEAD_SIZE, RxMeta, RxShape};
use vmx_rx_ring::steps::{DeviceHeard, DeviceNote, HearsDriver};
use vmx_rx_ring::{Buffer, Known, Shelf, TellsVisible, body_for};
use vmx_rx_walk::{Plan, publish, stage_frame, walk_on};

/// The device's seat, between two deliveries.
#[derive(Drop)]
pub struct RxFiller<C: TellsVisible> {
    pub table: Arc<Shelf<C>, Global>,
    pub seat: Seat<Buffer, Known>,
    pub shape: RxShape,
    /// Frames delivered, completions published, and refusals.
    pub place: u64,
    pub published: u64,
    pub refusals: u64,
    /// The next positions of the two supplies.
    pub next1: u64,
    pub next2: u64,
    pub ghost seated: { (seat.table_id ≡ (arc_value table).shared.table_id) × IsShape shape },
    pub ghost device: { IsDevice seat.me shape },
    pub ghost still: { IsStill seat.me.0.device },
    pub ghost rests: { IsResting seat.me.0.device },
    pub ghost none: { seat.me.0.device.staged ≡ [] },
    pub ghost counts: { (place ≡ length seat.me.0.device.delivered) × (refusals ≡ length seat.me.0.device.refused) × (published ≡ used pieces_of seat.me.0.device.delivered) },
    pub ghost nexts: { (next1 ≡ seat.me.0.device.gone1) × (next2 ≡ seat.me.0.device.gone2) },
    pub ghost few: { published ≤ next1 + next2 },
    pub ghost tells: { (seat.me.0.of_device ≡ false) × (seat.me.0.of_driver ≡ false) },
    pub ghost gone: { (seat.me.0.device.gone1 ≡ used took1 seat.me.0.device.delivered) × (seat.me.0.device.gone2 ≡ used took2 seat.me.0.device.delivered) },
}

/// The second word, without its generation, of the first completion of a frame of n + 1 pieces.
fn first_body(frame: &[u8], meta: &RxMeta, n: u32) -> u64
    requires pieces { n ≡ further_pieces (length frame.now) }
    ensures one { n ≡ 0 → result ≡ body_of true meta.now frame.now }
    ensures more { n ≢ 0 → result ≡ body_word None HEAD_SIZE }
    ensures low { result < 2 ^ COMPLETION_GENERATION_BIT }
    ensures tag { TagFits meta.now.tci }
{
    if n == 0 {
        return body_for(true, meta, frame.len());
    }
    body_for(false, meta, HEAD_SIZE as usize)
}

impl<C: TellsVisible> RxFiller<C> {
    /// Delivers a frame of 14 to 9,022 bytes behind those delivered before. Where a descriptor is missing the frame is
    /// dropped whole, and nothing is consumed.
    pub fn deliver(&mut self, frame: &[u8], meta: &RxMeta) -> Deliver
        requires words { HasWords C.counted self.old.seat.table_id self.old.shape }
        requires frame { IsFrame frame.now }
        requires small { (length self.old.seat.me.0.device.delivered < 2 ^ 62) × (length self.old.seat.me.0.device.refused < 2 ^ 62) }
        requires positions { (consumed1 (device_seen (key_of self.old.seat.table_id) self.old.seat.me.0) < 2 ^ 62) × (consumed2 (device_seen (key_of self.old.seat.table_id) self.old.seat.me.0) < 2 ^ 62) }
        ensures same { (self.new.seat.table_id ≡ self.old.seat.table_id) × (self.new.shape ≡ self.old.shape) }
        ensures delivers { Delivers (device_seen (key_of self.old.seat.table_id) self.old.seat.me.0) frame.now meta.now result (device_seen (key_of self.new.seat.table_id) self.new.seat.me.0) }
        ensures grows { GrowsDelivered (device_seen (key_of self.old.seat.table_id) self.old.seat.me.0) (device_seen (key_of self.new.seat.table_id) self.new.seat.me.0) }
    {
        let rounding = (BODY_SIZE - HEAD_SIZE - 1) as usize;
        let n = ((frame.len() + rounding) / BODY_SIZE as usize) as u32;
        let shared = &self.table.shared;
        match walk_on(
            shared,
            &mut self.seat,
            &self.shape,
            n,
            self.next1,
            self.next2,
        ) {
            Plan::Missing {
                ring,
                position,
                word,
            } => {
                let look = self.refusals;
                self.refusals += 1;
                Deliver::NoBuffer {
                    ring,
                    position,
                    word,
                    look,
                }
            }
            Plan::Goes {
                first,
                second,
                third,
                next1,
                next2,
            } => {
                stage_frame(
                    shared,
                    &mut self.seat,
                    &self.shape,
                    self.published,
                    n,
                    meta,
                    first,
                    second,
                    third,
                    frame,
                );
                publish(
                    shared,
                    &mut self.seat,
                    &self.shape,
                    self.published,
                    n as u64 + 1,
                    first_body(frame, meta, n),
                );
                let place = self.place;
                self.place += 1;
                self.published += n as u64 + 1;
                self.next1 = next1;
                self.next2 = next2;
                Deliver::Done { place }
            }
        }
    }

    /// A seat that tells what this end did, for the driver's end to hear.
    pub fn note(&mut self) -> Seat<Buffer, Known>
        requires words { HasWords C.counted self.old.seat.table_id self.old.shape }
        ensures same { (self.new.seat.table_id ≡ self.old.seat.table_id) × (self.new.shape ≡ self.old.shape) }
        ensures notes { NotesDevice (device_seen (key_of self.old.seat.table_id) self.old.seat.me.0) (note_seen (key_of result.table_id) result.me.0) (device_seen (key_of self.new.seat.table_id) self.new.seat.me.0) }
        ensures slip { (result.me.1 ≡ []) × (result.me.0.of_device ≡ not result.me.0.of_driver) }
    {
        let shared = &self.table.shared;
        shared.split_seat::<DeviceNote>(&mut self.seat)
    }

    /// Hears a note of the driver's end, of this queue.
    pub fn hear(&mut self, note: Seat<Buffer, Known>)
        requires words { HasWords C.counted self.old.seat.table_id self.old.shape }
        requires key { key_of note.table_id ≡ key_of self.old.seat.table_id }
        requires side { note.me.0.of_driver ≡ true }
        requires slip { (note.me.1 ≡ []) × (note.me.0.of_device ≡ not note.me.0.of_driver) }
        ensures same { (self.new.seat.table_id ≡ self.old.seat.table_id) × (self.new.shape ≡ self.old.shape) }
        ensures hears { DeviceHears (device_seen (key_of self.old.seat.table_id) self.old.seat.me.0) (note_seen (key_of note.table_id) note.me.0) (device_seen (key_of self.new.seat.table_id) self.new.seat.me.0) }
    {
        let shared = &self.table.shared;
        shared.join_seat::<HearsDriver>(&mut self.seat, note);
        shared.load::<DeviceHeard>(&mut self.seat, 0);
    }
}
