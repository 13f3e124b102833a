//! The driver's walk of the ring: it stages pieces and publishes them.
ghost use Rattle.std.specs.Prelude.{◌≡◌, ℕ, ◌+◌, ◌*◌, ◌^◌, ◌<◌, ◌≤◌, [], ◌∷◌, ◌++◌, length, true, false};
ghost use Rattle.std.specs.Arc.{arc_value};
ghost use mathlib.Core.List.{IsPrefix};
ghost use Rattle.vmx_layout.specs.declared.addresses.TheConstants.{MAX_RING_SIZE, DATA_ENTRY_SIZE};
ghost use Rattle.vmx_ends.specs.declared.limits.TheConstants.{MAX_PIECE, MAX_DESCRIPTORS};
ghost use Rattle.vmx_ends.specs.Frames.{IsMarked, sent_as};
ghost use Rattle.vmx_ends.specs.Queues.{least_piece};
ghost use Rattle.vmx_ends.specs.Transmit.{descriptors, need};
ghost use Rattle.vmx_tx_ring.specs.Pieces.{next_in_data, numbers_of, TagFits};
ghost use Rattle.vmx_tx_ring.specs.Seats.{gave_driver, driver_slip, hears_device};
ghost use Rattle.vmx_tx_ring.specs.Tells.{next_at, with_piece, with_sent};
ghost use Rattle.vmx_tx_ring.specs.Walks.{first_word, returned_to, IsWhole, Publishes};

use crate::known::{TellsCompletions, TxBuffer, TxKnown, TxRule};
use crate::steps::{
    DriverNote, DriverOpens, DriverPublishes, DriverStages, DriverTold, HearDevice,
};
use crate::words::{
    address_of, descriptor_word, ends, first_size_of, first_staged, goes_to_data, head_of, pack,
    piece_at, rest_of, staged_word,
};
use atomic_table::{Seat, Table};
use std::alloc::Global;
use std::sync::Arc;
use vmx_ends::{TxMade, TxMark};
use vmx_genring::Ring;

/// The table of a transmit ring.
pub type Shelf<C> = Table<TxBuffer, TxKnown, TxMade, TxRule<C>, Global>;

/// The driver's seat, between two steps of its own.
#[derive(Drop)]
pub struct TxWriter<C: TellsCompletions> {
    pub table: Arc<Shelf<C>, Global>,
    pub seat: Seat<TxBuffer, TxKnown>,
    pub made: TxMade,
    /// Positions that are published or staged, those that are published, and those that are given back.
    pub posted: u64,
    pub published: u64,
    pub returned: u64,
    /// Frames sent and frames reaped.
    pub place: u64,
    pub reaped: u64,
    /// The second word of the first staged descriptor, 0 where none is.
    pub first: u64,
    pub ghost seated: { seat.table_id ≡ (arc_value table).shared.table_id },
    pub ghost slots: { seat.table_id.slots ≡ made.size },
    pub ghost words: { made.size + (made.size + 1) ≤ seat.table_id.words },
    pub ghost size: { (0 < made.size) × (made.size ≤ MAX_RING_SIZE) },
    pub ghost piece: { (least_piece made.with_data ≤ made.piece) × (made.piece ≤ MAX_PIECE) },
    pub ghost rests: { (seat.me.0.drives ≡ true) × (seat.me.0.serves ≡ false) × (seat.me.0.driver.at.opened ≡ false) × (seat.me.0.driver.at.checking ≡ false) × (seat.me.1 ≡ []) },
    pub ghost made_is: { seat.me.0.made ≡ made },
    pub ghost counts: { (posted ≡ next_at seat.me.0) × (published ≡ descriptors seat.me.0.made seat.me.0.driver.at.sent) × (returned ≡ returned_to seat.me.0) },
    pub ghost places: { (place ≡ length seat.me.0.driver.at.sent) × (reaped ≡ seat.me.0.driver.at.reaped) },
    pub ghost order: { (returned ≤ published) × (published + length seat.me.0.driver.at.staged ≡ posted) × (posted ≤ returned + made.size) × (reaped ≤ place) },
    pub ghost small: { posted ≤ 2 ^ 62 + 16 },
    pub ghost first_is: { first ≡ first_word seat.me.0 },
    pub ghost note: { (seat.me.0.of_driver ≡ false) × (seat.me.0.of_device ≡ false) },
}

impl<C: TellsCompletions> TxWriter<C> {
    /// Writes the next descriptor and its piece, which the device does not see yet.
    fn stage(&mut self, piece: &[u8], mark: &TxMark, last: bool)
        requires room { self.old.posted < self.old.returned + self.old.made.size }
        requires small { self.old.posted < 2 ^ 62 + 16 }
        requires short { length piece.now ≤ MAX_PIECE }
        requires entry { next_in_data self.old.seat.me.0.made self.old.seat.me.0.driver.at.staged ≡ true → length piece.now ≤ DATA_ENTRY_SIZE }
        ensures key { self.new.seat.table_id ≡ self.old.seat.table_id }
        ensures staged { self.new.seat.me.0 ≡ with_piece self.old.seat.me.0 (record { bytes = piece.now; last = last; in_data = next_in_data self.old.seat.me.0.made self.old.seat.me.0.driver.at.staged; numbers = numbers_of mark.now }) }
        ensures tag { TagFits mark.now.tci }
        ensures same { (self.new.made ≡ self.old.made) × (self.new.returned ≡ self.old.returned) × (self.new.posted ≡ self.old.posted + 1) × (self.new.place ≡ self.old.place) }
    {
        let size = self.made.size as u64;
        let index = self.posted % size;
        let ring = Ring::new(self.made.size);
        let name = self.made.name;
        let in_data = goes_to_data(&self.made, self.posted, self.published);
        let word = descriptor_word(piece, ring.generation(self.posted), last, mark);
        let stored = staged_word(word, self.posted, self.published);
        let shared = &self.table.shared;
        shared.store::<DriverOpens>(
            &mut self.seat,
            (size + index) as usize,
            address_of(name.queue, in_data, index as u32),
        );
        pack(self.seat.slot_mut(shared, index as usize), in_data, piece);
        shared.store::<DriverStages>(&mut self.seat, index as usize, stored);
        self.first = first_staged(self.first, word, self.posted, self.published);
        self.posted += 1;
    }

    /// Makes the staged descriptors visible, all at once.
    fn publish(&mut self)
        requires some { 0 < length self.old.seat.me.0.driver.at.staged }
        requires whole { IsWhole self.old.seat.me.0 }
        requires small { self.old.place < 2 ^ 62 }
        ensures key { self.new.seat.table_id ≡ self.old.seat.table_id }
        ensures sent { Publishes self.old.seat.me.0 self.new.seat.me.0 }
        ensures same { (self.new.made ≡ self.old.made) × (self.new.returned ≡ self.old.returned) × (self.new.place ≡ self.old.place + 1) }
    {
        let index = self.published % self.made.size as u64;
        let shared = &self.table.shared;
        shared.store::<DriverPublishes>(&mut self.seat, index as usize, self.first);
        self.first = 0;
        self.published = self.posted;
        self.place += 1;
    }

    /// Stages all pieces of a frame, and publishes them: it goes last in the sent list. There is room for them.
    pub fn send(&mut self, frame: &[u8], mark: &TxMark, count: u32)
        requires none { self.old.seat.me.0.driver.at.staged ≡ [] }
        requires frame { IsMarked frame.now mark.now }
        requires count { count ≡ need self.old.seat.me.0.made (length frame.now) }
        requires room { self.old.posted + count ≤ self.old.returned + self.old.made.size }
        requires small { (self.old.posted + count ≤ 2 ^ 62 + 16) × (self.old.place < 2 ^ 62) }
        ensures key { self.new.seat.table_id ≡ self.old.seat.table_id }
        ensures sent { self.new.seat.me.0 ≡ with_sent self.old.seat.me.0 (sent_as frame.now mark.now) }
        ensures same { (self.new.made ≡ self.old.made) × (self.new.returned ≡ self.old.returned) × (self.new.place ≡ self.old.place + 1) }
    {
        let first_size = first_size_of(&self.made);
        self.stage(head_of(frame, first_size), mark, ends(0, count));
        let rest = rest_of(frame, first_size);
        let plain = TxMark::plain();
        let size = self.made.piece as usize;
        for place in 0..count - 1 {
            self.stage(
                piece_at(rest, place as usize, size),
                &plain,
                ends(place + 1, count),
            );
        }
        self.publish();
    }

    /// A seat that tells what this end did, for the other end to hear.
    pub fn note(&mut self) -> Seat<TxBuffer, TxKnown>
        ensures key { (self.new.seat.table_id ≡ self.old.seat.table_id) × (result.table_id ≡ self.old.seat.table_id) × (self.new.made ≡ self.old.made) }
        ensures given { self.new.seat.me.0 ≡ gave_driver self.old.seat.me.0 }
        ensures note { result.me ≡ (driver_slip self.old.seat.me.0, []) }
    {
        let shared = &self.table.shared;
        shared.split_seat::<DriverNote>(&mut self.seat)
    }

    /// Hears a note of the device's end.
    pub fn hear(&mut self, note: Seat<TxBuffer, TxKnown>)
        requires key { note.table_id ≡ self.old.seat.table_id }
        requires side { (note.me.0.of_device ≡ true) × (note.me.0.of_driver ≡ false) × (note.me.1 ≡ []) }
        ensures key { (self.new.seat.table_id ≡ self.old.seat.table_id) × (self.new.made ≡ self.old.made) }
        ensures heard { self.new.seat.me.0 ≡ hears_device self.old.seat.me.0 note.me.0 }
        ensures told { (note.me.0.news.made ≡ self.old.seat.me.0.made) × IsPrefix note.me.0.news.frames self.old.seat.me.0.driver.at.sent × (note.me.0.news.done ≤ length self.old.seat.me.0.driver.at.sent) }
    {
        let shared = &self.table.shared;
        shared.join_seat::<HearDevice>(&mut self.seat, note);
        shared.load::<DriverTold>(&mut self.seat, 0);
    }
}
