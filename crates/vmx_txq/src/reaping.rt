//! The driver's walk of the ring of completions.
ghost use Rattle.std.specs.Prelude.{◌≡◌, ◌+◌, ◌*◌, ◌^◌, ◌<◌, ◌≤◌};
ghost use Rattle.vmx_ring_laws.specs.Keys.{key_of};
ghost use Rattle.vmx_ends.specs.TransmitClauses.{Reaps};
ghost use Rattle.vmx_tx_ring.specs.Seats.{driver_seen};

use crate::rows::InRows;
use crate::steps::{DriverLooks, DriverReaps};
use crate::words::count_to;
use vmx_ends::Reap;
use vmx_genring::Ring;
use vmx_layout::COMPLETION_GENERATION_BIT;
use vmx_tx_ring::TxWriter;

/// Takes back the descriptors of the next frame that was completed. The load of its completion's second word finds it, and
/// the load of the first word consumes it, so that no word is overwritten before it is read.
pub(crate) fn reap_next(writer: &mut TxWriter<InRows>) -> Reap
    requires wide { writer.old.made.size + (writer.old.made.size + writer.old.made.size * 2) ≤ writer.old.seat.table_id.words }
    requires small { writer.old.reaped < 2 ^ 62 }
    ensures key { (writer.new.seat.table_id ≡ writer.old.seat.table_id) × (writer.new.made ≡ writer.old.made) }
    ensures reaps { Reaps (driver_seen (key_of writer.old.seat.table_id) writer.old.seat.me.0) result (driver_seen (key_of writer.new.seat.table_id) writer.new.seat.me.0) }
    ensures staged { writer.new.seat.me.0.driver.at.staged ≡ writer.old.seat.me.0.driver.at.staged }
{
    let size = writer.made.size as u64;
    let index = writer.reaped % size;
    let shared = &writer.table.shared;
    let word = shared.load::<DriverLooks>(&mut writer.seat, (size + (size + index)) as usize);
    let ring = Ring::new(writer.made.size);
    if !ring.owned(word, COMPLETION_GENERATION_BIT, writer.reaped) {
        return Reap::NotYet { word };
    }
    let last = shared.load::<DriverReaps>(
        &mut writer.seat,
        (size + (size + (size + index))) as usize,
    );
    let descriptors = count_to(writer.returned, last, writer.made.size);
    let place = writer.reaped;
    writer.returned += descriptors as u64;
    writer.reaped += 1;
    Reap::Done { place, descriptors }
}
