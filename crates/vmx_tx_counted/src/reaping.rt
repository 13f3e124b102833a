//! The driver's look at the counting word, and its walk of the descriptors that come back.
ghost use Rattle.std.specs.Prelude.{◌≡◌, ℕ, ◌+◌, ◌%◌, ◌^◌, ◌<◌, ◌≤◌, true, false, length};
ghost use mathlib.Core.Option.{some};
ghost use lib.ListN.{get_elem?};
ghost use Rattle.vmx_layout.specs.declared.TheConstants.{COMPLETION_GENERATION_BIT};
ghost use Rattle.vmx_layout.specs.declared.addresses.TheConstants.{MAX_RING_SIZE};
ghost use Rattle.vmx_ring_laws.specs.Keys.{key_of};
ghost use Rattle.vmx_ends.specs.declared.frames.Sent.{Sent};
ghost use Rattle.vmx_ends.specs.declared.limits.TheConstants.{MAX_DESCRIPTORS};
ghost use Rattle.vmx_ends.specs.Transmit.{need};
ghost use Rattle.vmx_ends.specs.TransmitClauses.{Reaps};
ghost use Rattle.vmx_ends.specs.Words.{missed_word};
ghost use Rattle.vmx_tx_ring.specs.Seats.{driver_seen};
ghost use Rattle.vmx_tx_ring.specs.Walks.{returned_to};

use crate::counting::InCount;
use crate::steps::{DriverLooks, DriverReaps, DriverWalks};
use atomic_table::Seat;
use vmx_ends::{MAX_DESCRIPTORS, Reap};
use vmx_layout::{COMPLETION_GENERATION_BIT, TxDesc};
use vmx_tx_ring::{Shelf, TxBuffer, TxKnown, TxWriter};

/// The look's word where the completion of a position is not there: this form keeps no completions, so the bit of the
/// generation stands alone.
fn missed_completion(size: u32, position: u64) -> u64
    requires size { 0 < size }
    ensures word { result ≡ missed_word COMPLETION_GENERATION_BIT size position }
{
    if (position / size as u64).is_multiple_of(2) {
        0
    } else {
        1 << COMPLETION_GENERATION_BIT
    }
}

/// How many descriptors the next frame that was completed has: those from the position that is given back up to the first
/// that ends a packet.
fn descriptors_of(
    table: &Shelf<InCount>,
    seat: &mut Seat<TxBuffer, TxKnown>,
    size: u32,
    returned: u64,
) -> u32
    requires key { seat.old.table_id ≡ table.now.shared.table_id }
    requires words { size ≤ table.now.shared.table_id.words }
    requires place { (size ≡ seat.old.me.0.made.size) × (returned ≡ returned_to seat.old.me.0) × (0 < size) × (size ≤ MAX_RING_SIZE) × (returned < 2 ^ 63) }
    requires state { (seat.old.me.0.drives ≡ true) × (seat.old.me.0.driver.at.checking ≡ true) }
    requires frame { (s : Sent) × (get_elem? seat.old.me.0.driver.at.sent seat.old.me.0.driver.at.reaped ≡ some s) }
    requires need { (s : Sent) → get_elem? seat.old.me.0.driver.at.sent seat.old.me.0.driver.at.reaped ≡ some s → (1 ≤ need seat.old.me.0.made (length s.frame)) × (need seat.old.me.0.made (length s.frame) ≤ MAX_DESCRIPTORS) }
    ensures key { seat.new.table_id ≡ seat.old.table_id }
    ensures seat { seat.new.me ≡ seat.old.me }
    ensures count { (s : Sent) → get_elem? seat.old.me.0.driver.at.sent seat.old.me.0.driver.at.reaped ≡ some s → result ≡ need seat.old.me.0.made (length s.frame) }
    ensures few { result ≤ MAX_DESCRIPTORS }
{
    let size = size as u64;
    for before in 0..MAX_DESCRIPTORS - 1 {
        let index = (returned + before as u64) % size;
        let word = table.shared.load::<DriverWalks>(seat, index as usize);
        if TxDesc::ends_packet(word) {
            return before + 1;
        }
    }
    MAX_DESCRIPTORS
}

/// Takes back the descriptors of the next frame that was completed, where the counting word says that it was.
pub(crate) fn reap_next(writer: &mut TxWriter<InCount>) -> Reap
    requires small { writer.old.reaped < 2 ^ 62 }
    ensures key { (writer.new.seat.table_id ≡ writer.old.seat.table_id) × (writer.new.made ≡ writer.old.made) }
    ensures reaps { Reaps (driver_seen (key_of writer.old.seat.table_id) writer.old.seat.me.0) result (driver_seen (key_of writer.new.seat.table_id) writer.new.seat.me.0) }
    ensures staged { writer.new.seat.me.0.driver.at.staged ≡ writer.old.seat.me.0.driver.at.staged }
{
    let size = writer.made.size;
    let count = size as usize + size as usize;
    let shared = &writer.table.shared;
    let completed = shared.load::<DriverLooks>(&mut writer.seat, count);
    if completed <= writer.reaped {
        return Reap::NotYet {
            word: missed_completion(size, writer.reaped),
        };
    }
    let descriptors = descriptors_of(&writer.table, &mut writer.seat, size, writer.returned);
    shared.load::<DriverReaps>(&mut writer.seat, count);
    let place = writer.reaped;
    writer.returned += descriptors as u64;
    writer.reaped += 1;
    Reap::Done { place, descriptors }
}
