//! The device's walk of the ring of completions.
ghost use Rattle.std.specs.Prelude.{◌≡◌, ◌+◌, ◌*◌, ◌^◌, ◌<◌, ◌≤◌, [], length};
ghost use Rattle.vmx_ring_laws.specs.Keys.{key_of};
ghost use Rattle.vmx_ends.specs.TransmitClauses.{Completes};
ghost use Rattle.vmx_tx_ring.specs.Seats.{device_seen};

use crate::rows::InRows;
use crate::steps::{DeviceCloses, DeviceCompletes};
use crate::words::completion_words;
use vmx_genring::Ring;
use vmx_tx_ring::TxReader;

/// Completes the frame that is taken, whose pieces are all read: the second word of its completion makes it visible.
pub(crate) fn complete_next(reader: &mut TxReader<InRows>)
    requires wide { reader.old.made.size + (reader.old.made.size + reader.old.made.size * 2) ≤ reader.old.seat.table_id.words }
    requires taken { reader.old.seat.me.0.device.at.completed < length reader.old.seat.me.0.device.at.taken }
    requires none { reader.old.seat.me.0.device.at.ahead ≡ [] }
    requires small { reader.old.completed < 2 ^ 62 }
    ensures key { (reader.new.seat.table_id ≡ reader.old.seat.table_id) × (reader.new.made ≡ reader.old.made) }
    ensures completes { Completes (device_seen (key_of reader.old.seat.table_id) reader.old.seat.me.0) (device_seen (key_of reader.new.seat.table_id) reader.new.seat.me.0) }
    ensures none { reader.new.seat.me.0.device.at.ahead ≡ [] }
{
    let size = reader.made.size as u64;
    let index = reader.completed % size;
    let ring = Ring::new(reader.made.size);
    let [first, second] = completion_words(
        ((reader.read - 1) % size) as u16,
        ring.generation(reader.completed),
    );
    let shared = &reader.table.shared;
    shared.store::<DeviceCloses>(
        &mut reader.seat,
        (size + (size + (size + index))) as usize,
        first,
    );
    shared.store::<DeviceCompletes>(&mut reader.seat, (size + (size + index)) as usize, second);
    reader.completed += 1;
}
