//! The driver's end.
ghost use Rattle.std.specs.Prelude.{◌≡◌, ◌+◌, ◌*◌, ◌<◌, ◌≤◌, ◌^◌, [], length, false, not, suc, vec_len, vec_capacity};
ghost use Rattle.std.specs.Arc.{arc_value};
ghost use Rattle.vmx_io.specs.declared.buffer.TheConstants.{MAX_FRAME};
ghost use Rattle.vmx_ring_laws.specs.Keys.{key_of};
ghost use Rattle.vmx_ends.specs.Receive.{used, pieces_of, took1, took2};
ghost use Rattle.vmx_ends.specs.ReceiveClauses.{Receives, GrowsReceived, driver_note, DriverHears};
ghost use Rattle.vmx_rx_ring.specs.Shapes.{IsShape};
ghost use Rattle.vmx_rx_walk.specs.Reading.{IsDriver};
ghost use Rattle.vmx_rx_ends.specs.Views.{HasWords, driver_seen, note_seen};

use atomic_table::Seat;
use std::alloc::Global;
use std::sync::Arc;
use vmx_ends::{MAX_DESCRIPTORS, Receive, RxShape};
use vmx_rx_ring::steps::{DriverHeard, DriverNote, HearsDevice};
use vmx_rx_ring::{Buffer, Known, Shelf, TellsVisible, meta_of};
use vmx_rx_walk::{Back, Seen, look, read_frame};

/// The driver's seat, between two frames.
#[derive(Drop)]
pub struct RxReader<C: TellsVisible> {
    pub table: Arc<Shelf<C>, Global>,
    pub seat: Seat<Buffer, Known>,
    pub shape: RxShape,
    /// Frames received, completions read, and descriptors of each ring posted back.
    pub place: u64,
    pub read: u64,
    pub back1: u64,
    pub back2: u64,
    pub ghost seated: { (seat.table_id ≡ (arc_value table).shared.table_id) × IsShape shape },
    pub ghost driver: { IsDriver seat.me shape },
    pub ghost idle: { seat.me.0.driver.reading ≡ false },
    pub ghost counts: { (place ≡ length seat.me.0.driver.received) × (read ≡ seat.me.0.driver.read) × (back1 ≡ seat.me.0.driver.back1) × (back2 ≡ seat.me.0.driver.back2) },
    pub ghost sums: { (seat.me.0.driver.read ≡ used pieces_of seat.me.0.driver.received) × (seat.me.0.driver.back1 ≡ used took1 seat.me.0.driver.received) × (seat.me.0.driver.back2 ≡ used took2 seat.me.0.driver.received) },
    pub ghost tells: { (seat.me.0.of_device ≡ false) × (seat.me.0.of_driver ≡ false) },
    pub ghost small: { (back1 ≤ 3 * read) × (back2 ≤ read) },
}

impl<C: TellsVisible> RxReader<C> {
    /// Receives the next frame into an empty buffer with room for 9,022 bytes, and posts its descriptors back with those
    /// passed over before it.
    pub fn receive(&mut self, into: &mut Vec<u8>) -> Receive
        requires words { HasWords C.counted self.old.seat.table_id self.old.shape }
        requires empty { vec_len into.old ≡ 0 }
        requires room { MAX_FRAME ≤ vec_capacity into.old }
        requires small { (length self.old.seat.me.0.driver.received < 2 ^ 62) × (used pieces_of self.old.seat.me.0.driver.received < 2 ^ 62) }
        ensures same { (self.new.seat.table_id ≡ self.old.seat.table_id) × (self.new.shape ≡ self.old.shape) }
        ensures receives { Receives (driver_seen (key_of self.old.seat.table_id) self.old.seat.me.0) into.new.items result (driver_seen (key_of self.new.seat.table_id) self.new.seat.me.0) }
        ensures room { vec_capacity into.old ≤ vec_capacity into.new }
        ensures grows { GrowsReceived (driver_seen (key_of self.old.seat.table_id) self.old.seat.me.0) (driver_seen (key_of self.new.seat.table_id) self.new.seat.me.0) }
    {
        let shared = &self.table.shared;
        match look(shared, &mut self.seat, &self.shape, self.read) {
            Seen::Missing { word } => Receive::NotYet { word },
            Seen::Visible { second } => {
                let at = Back {
                    first: 0,
                    last: 0,
                    read: self.read,
                    back1: self.back1,
                    back2: self.back2,
                };
                let back = read_frame(
                    shared,
                    &mut self.seat,
                    &self.shape,
                    into,
                    MAX_DESCRIPTORS,
                    at,
                    second,
                );
                let descriptors = back.back1 - self.back1 + (back.back2 - self.back2);
                let place = self.place;
                self.place += 1;
                self.read = back.read;
                self.back1 = back.back1;
                self.back2 = back.back2;
                Receive::Frame {
                    place,
                    meta: meta_of(back.first, back.last),
                    descriptors: descriptors as u32,
                }
            }
        }
    }

    /// A seat that tells what this end did, for the device's end to hear.
    pub fn note(&mut self) -> Seat<Buffer, Known>
        requires words { HasWords C.counted self.old.seat.table_id self.old.shape }
        ensures same { (self.new.seat.table_id ≡ self.old.seat.table_id) × (self.new.shape ≡ self.old.shape) }
        ensures gives { (driver_seen (key_of self.new.seat.table_id) self.new.seat.me.0) ≡ record (driver_seen (key_of self.old.seat.table_id) self.old.seat.me.0) { notes_given = suc self.old.seat.me.0.driver.notes_given } }
        ensures tells { note_seen (key_of result.table_id) result.me.0 ≡ driver_note (driver_seen (key_of self.old.seat.table_id) self.old.seat.me.0) }
        ensures slip { (result.me.1 ≡ []) × (result.me.0.of_device ≡ not result.me.0.of_driver) }
    {
        let shared = &self.table.shared;
        shared.split_seat::<DriverNote>(&mut self.seat)
    }

    /// Hears a note of the device's end, of this queue.
    pub fn hear(&mut self, note: Seat<Buffer, Known>)
        requires words { HasWords C.counted self.old.seat.table_id self.old.shape }
        requires key { key_of note.table_id ≡ key_of self.old.seat.table_id }
        requires side { note.me.0.of_driver ≡ false }
        requires slip { (note.me.1 ≡ []) × (note.me.0.of_device ≡ not note.me.0.of_driver) }
        ensures same { (self.new.seat.table_id ≡ self.old.seat.table_id) × (self.new.shape ≡ self.old.shape) }
        ensures hears { DriverHears (driver_seen (key_of self.old.seat.table_id) self.old.seat.me.0) (note_seen (key_of note.table_id) note.me.0) (driver_seen (key_of self.new.seat.table_id) self.new.seat.me.0) }
    {
        let shared = &self.table.shared;
        shared.join_seat::<HearsDevice>(&mut self.seat, note);
        shared.load::<DriverHeard>(&mut self.seat, 0);
    }
}
