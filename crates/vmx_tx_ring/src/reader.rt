//! The device's walk of the ring: it looks for the next frame and reads its pieces.
ghost use Rattle.std.specs.Prelude.{◌≡◌, ℕ, ◌+◌, ◌-◌, ◌%◌, ◌^◌, ◌<◌, ◌≤◌, [], ◌∷◌, ◌++◌, length, true, false, vec_len, vec_capacity};
ghost use Rattle.std.specs.Arc.{arc_value};
ghost use Rattle.vmx_io.specs.declared.buffer.TheConstants.{MAX_FRAME};
ghost use Rattle.vmx_layout.specs.declared.addresses.TheConstants.{MAX_RING_SIZE};
ghost use Rattle.vmx_ring_laws.specs.Keys.{key_of};
ghost use Rattle.vmx_ends.specs.declared.limits.TheConstants.{MAX_PIECE, MAX_DESCRIPTORS};
ghost use Rattle.vmx_ends.specs.Frames.{IsComparable, sent_of};
ghost use Rattle.vmx_ends.specs.Queues.{least_piece};
ghost use Rattle.vmx_ends.specs.Transmit.{found_in};
ghost use Rattle.vmx_ends.specs.TransmitClauses.{Takes};
ghost use Rattle.vmx_tx_ring.specs.declared.known.TxBuffer.{TxBuffer};
ghost use Rattle.vmx_tx_ring.specs.Pieces.{Closes, ending, joined};
ghost use Rattle.vmx_tx_ring.specs.Seats.{gave_device, device_slip, hears_driver, device_seen};
ghost use Rattle.vmx_tx_ring.specs.Tells.{Found, emptied};
ghost use Rattle.vmx_tx_ring.specs.Walks.{Looks, GoesOn};

use crate::known::{TellsCompletions, TxBuffer, TxKnown};
use crate::steps::{DeviceGoesOn, DeviceLooks, DeviceNote, DeviceReturns, DeviceTold, HearDriver};
use crate::words::{mark_of, unpack};
use crate::writer::Shelf;
use atomic_table::Seat;
use std::alloc::Global;
use std::sync::Arc;
use vmx_ends::{MAX_DESCRIPTORS, Take, TxMade, TxMark};
use vmx_genring::Ring;
use vmx_layout::{TX_DESC_GENERATION_BIT, TxDesc};

/// What the first look at a frame finds.
pub enum Look {
    /// The word of the descriptor that is not there.
    Missing { word: u64 },
    /// A piece was read: whether it ends its frame, and the frame's mark.
    Piece { last: bool, mark: TxMark },
}

/// The device's seat, between two descriptors.
#[derive(Drop)]
pub struct TxReader<C: TellsCompletions> {
    pub table: Arc<Shelf<C>, Global>,
    pub seat: Seat<TxBuffer, TxKnown>,
    pub made: TxMade,
    /// Pieces read, frames taken and frames completed.
    pub read: u64,
    pub place: u64,
    pub completed: u64,
    pub ghost seated: { seat.table_id ≡ (arc_value table).shared.table_id },
    pub ghost slots: { seat.table_id.slots ≡ made.size },
    pub ghost words: { made.size + (made.size + 1) ≤ seat.table_id.words },
    pub ghost size: { (0 < made.size) × (made.size ≤ MAX_RING_SIZE) },
    pub ghost piece: { (least_piece made.with_data ≤ made.piece) × (made.piece ≤ MAX_PIECE) },
    pub ghost rests: { (seat.me.0.serves ≡ true) × (seat.me.0.drives ≡ false) × (seat.me.0.device.at.emptying ≡ false) × (seat.me.0.device.at.closing ≡ false) × (seat.me.1 ≡ []) },
    pub ghost made_is: { seat.me.0.made ≡ made },
    pub ghost places: { (read ≡ seat.me.0.device.at.read) × (place ≡ length seat.me.0.device.at.taken) × (completed ≡ seat.me.0.device.at.completed) },
    pub ghost found: { (seat.me.0.device.at.read + length seat.me.0.device.at.ahead ≡ found_in seat.me.0.device.at.taken) × (length seat.me.0.device.at.taken ≤ found_in seat.me.0.device.at.taken) },
    pub ghost note: { (seat.me.0.of_driver ≡ false) × (seat.me.0.of_device ≡ false) },
}

/// Copies the piece out of the buffer that is out, or of its data entry, and puts that home.
fn empty_slot<C: TellsCompletions>(
    table: &Shelf<C>,
    seat: &mut Seat<TxBuffer, TxKnown>,
    size: u32,
    index: u64,
    in_data: bool,
    word: u64,
    into: &mut Vec<u8>,
) -> bool
    requires key { seat.old.table_id ≡ table.now.shared.table_id }
    requires words { size + (size + 1) ≤ table.now.shared.table_id.words }
    requires place { (index ≡ seat.old.me.0.device.at.read % seat.old.me.0.made.size) × (size ≡ seat.old.me.0.made.size) × (0 < size) × (size ≤ MAX_RING_SIZE) }
    requires out { (b : TxBuffer) × (seat.old.me.1 ≡ (index, b) ∷ []) × Found seat.old.me.0 word seat.old.me.0.device.at.at_hand b }
    requires lies { in_data ≡ seat.old.me.0.device.at.at_hand.in_data }
    requires state { (seat.old.me.0.serves ≡ true) × (seat.old.me.0.drives ≡ false) × (seat.old.me.0.device.at.emptying ≡ true) }
    requires room { vec_len into.old + length seat.old.me.0.device.at.at_hand.bytes ≤ vec_capacity into.old }
    ensures key { seat.new.table_id ≡ seat.old.table_id }
    ensures seat { seat.new.me ≡ (emptied seat.old.me.0, []) }
    ensures into { into.new.items ≡ into.old.items ++ seat.old.me.0.device.at.at_hand.bytes }
    ensures last { result ≡ seat.old.me.0.device.at.at_hand.last }
    ensures room { vec_capacity into.old ≤ vec_capacity into.new }
{
    let len = TxDesc::len_of_second(word) as usize;
    let last = TxDesc::ends_packet(word);
    unpack(
        seat.slot_mut(&table.shared, index as usize),
        in_data,
        len,
        into,
    );
    table
        .shared
        .load::<DeviceReturns>(seat, (size as u64 + index) as usize);
    last
}

impl<C: TellsCompletions> TxReader<C> {
    /// Looks for the next frame, and reads its first piece.
    fn look(&mut self, into: &mut Vec<u8>) -> Look
        requires empty { vec_len into.old ≡ 0 }
        requires room { MAX_FRAME ≤ vec_capacity into.old }
        requires idle { (self.old.seat.me.0.device.at.ahead ≡ []) × (self.old.seat.me.0.device.at.completed ≡ length self.old.seat.me.0.device.at.taken) }
        requires small { (self.old.read < 2 ^ 62) × (self.old.place < 2 ^ 62) }
        ensures key { (self.new.seat.table_id ≡ self.old.seat.table_id) × (self.new.made ≡ self.old.made) }
        ensures looks { Looks self.old.seat.me.0 result into.new.items self.new.seat.me.0 }
        ensures room { vec_capacity into.old ≤ vec_capacity into.new }
    {
        let index = self.read % self.made.size as u64;
        let shared = &self.table.shared;
        let word = shared.load::<DeviceLooks>(&mut self.seat, index as usize);
        let ring = Ring::new(self.made.size);
        if !ring.owned(word, TX_DESC_GENERATION_BIT, self.read) {
            return Look::Missing { word };
        }
        let mark = mark_of(word);
        let last = empty_slot(
            &self.table,
            &mut self.seat,
            self.made.size,
            index,
            self.made.with_data,
            word,
            into,
        );
        self.read += 1;
        self.place += 1;
        Look::Piece { last, mark }
    }

    /// Reads the next piece of the frame.
    fn next(&mut self, into: &mut Vec<u8>) -> bool
        requires closes { Closes (ending false ∷ self.old.seat.me.0.device.at.ahead) }
        requires room { vec_len into.old + length (joined self.old.seat.me.0.device.at.ahead) ≤ vec_capacity into.old }
        requires small { self.old.read < 2 ^ 63 }
        ensures key { (self.new.seat.table_id ≡ self.old.seat.table_id) × (self.new.made ≡ self.old.made) }
        ensures goes_on { GoesOn self.old.seat.me.0 into.old.items result into.new.items self.new.seat.me.0 }
        ensures room { vec_capacity into.old ≤ vec_capacity into.new }
    {
        let index = self.read % self.made.size as u64;
        let shared = &self.table.shared;
        let word = shared.load::<DeviceGoesOn>(&mut self.seat, index as usize);
        let last = empty_slot(
            &self.table,
            &mut self.seat,
            self.made.size,
            index,
            false,
            word,
            into,
        );
        self.read += 1;
        last
    }

    /// Reads the next piece, if that was not the last.
    fn go_on(&mut self, last: bool, into: &mut Vec<u8>) -> bool
        requires closes { Closes (ending last ∷ self.old.seat.me.0.device.at.ahead) }
        requires room { vec_len into.old + length (joined self.old.seat.me.0.device.at.ahead) ≤ vec_capacity into.old }
        requires small { self.old.read < 2 ^ 63 }
        ensures key { (self.new.seat.table_id ≡ self.old.seat.table_id) × (self.new.made ≡ self.old.made) }
        ensures seen { device_seen [] self.new.seat.me.0 ≡ device_seen [] self.old.seat.me.0 }
        ensures closes { Closes (ending result ∷ self.new.seat.me.0.device.at.ahead) }
        ensures shorter { length self.new.seat.me.0.device.at.ahead ≤ length self.old.seat.me.0.device.at.ahead - 1 }
        ensures few { self.new.read ≤ self.old.read + 1 }
        ensures joined { into.new.items ++ joined self.new.seat.me.0.device.at.ahead ≡ into.old.items ++ joined self.old.seat.me.0.device.at.ahead }
        ensures room { vec_capacity into.old ≤ vec_capacity into.new }
    {
        if last { true } else { self.next(into) }
    }

    /// Reads the other pieces of a frame, at most 15.
    fn finish(&mut self, last: bool, into: &mut Vec<u8>)
        requires closes { Closes (ending last ∷ self.old.seat.me.0.device.at.ahead) }
        requires few { length self.old.seat.me.0.device.at.ahead + 1 ≤ MAX_DESCRIPTORS }
        requires room { vec_len into.old + length (joined self.old.seat.me.0.device.at.ahead) ≤ vec_capacity into.old }
        requires small { self.old.read ≤ 2 ^ 62 }
        ensures key { (self.new.seat.table_id ≡ self.old.seat.table_id) × (self.new.made ≡ self.old.made) }
        ensures seen { device_seen [] self.new.seat.me.0 ≡ device_seen [] self.old.seat.me.0 }
        ensures none { self.new.seat.me.0.device.at.ahead ≡ [] }
        ensures into { into.new.items ≡ into.old.items ++ joined self.old.seat.me.0.device.at.ahead }
        ensures room { vec_capacity into.old ≤ vec_capacity into.new }
    {
        let mut last = last;
        for _ in 1..MAX_DESCRIPTORS {
            last = self.go_on(last, into);
        }
    }

    /// Takes the next frame that was posted into an empty buffer. No frame may be taken and not completed.
    pub fn take(&mut self, into: &mut Vec<u8>) -> Take
        requires empty { vec_len into.old ≡ 0 }
        requires room { MAX_FRAME ≤ vec_capacity into.old }
        requires idle { (self.old.seat.me.0.device.at.ahead ≡ []) × (self.old.seat.me.0.device.at.completed ≡ length self.old.seat.me.0.device.at.taken) }
        requires small { (self.old.read < 2 ^ 62) × (self.old.place < 2 ^ 62) }
        ensures key { (self.new.seat.table_id ≡ self.old.seat.table_id) × (self.new.made ≡ self.old.made) }
        ensures takes { Takes (device_seen (key_of self.old.seat.table_id) self.old.seat.me.0) into.new.items result (device_seen (key_of self.new.seat.table_id) self.new.seat.me.0) }
        ensures none { self.new.seat.me.0.device.at.ahead ≡ [] }
        ensures grows { (length self.new.seat.me.0.device.at.taken ≤ length self.old.seat.me.0.device.at.taken + 1) × (found_in self.new.seat.me.0.device.at.taken ≤ found_in self.old.seat.me.0.device.at.taken + MAX_DESCRIPTORS) }
        ensures room { vec_capacity into.old ≤ vec_capacity into.new }
    {
        match self.look(into) {
            Look::Missing { word } => Take::Empty { word },
            Look::Piece { last, mark } => {
                let place = self.place - 1;
                self.finish(last, into);
                Take::Frame { place, mark }
            }
        }
    }

    /// A seat that tells what this end did, for the other end to hear.
    pub fn note(&mut self) -> Seat<TxBuffer, TxKnown>
        ensures key { (self.new.seat.table_id ≡ self.old.seat.table_id) × (result.table_id ≡ self.old.seat.table_id) × (self.new.made ≡ self.old.made) }
        ensures given { self.new.seat.me.0 ≡ gave_device self.old.seat.me.0 }
        ensures note { result.me ≡ (device_slip self.old.seat.me.0, []) }
    {
        let shared = &self.table.shared;
        shared.split_seat::<DeviceNote>(&mut self.seat)
    }

    /// Hears a note of the driver's end.
    pub fn hear(&mut self, note: Seat<TxBuffer, TxKnown>)
        requires key { note.table_id ≡ self.old.seat.table_id }
        requires side { (note.me.0.of_driver ≡ true) × (note.me.0.of_device ≡ false) × (note.me.1 ≡ []) }
        ensures key { (self.new.seat.table_id ≡ self.old.seat.table_id) × (self.new.made ≡ self.old.made) }
        ensures heard { self.new.seat.me.0 ≡ hears_driver self.old.seat.me.0 note.me.0 }
        ensures told { (note.me.0.news.made ≡ self.old.seat.me.0.made) × (note.me.0.news.done ≤ self.old.seat.me.0.device.at.completed) × IsComparable note.me.0.news.frames (sent_of self.old.seat.me.0.device.at.taken)
            × IsComparable (sent_of self.old.seat.me.0.device.at.taken) (hears_driver self.old.seat.me.0 note.me.0).device.heard }
    {
        let shared = &self.table.shared;
        shared.join_seat::<HearDriver>(&mut self.seat, note);
        shared.load::<DeviceTold>(&mut self.seat, 0);
    }
}
