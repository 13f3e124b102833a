//! The device's store of the counting word.
ghost use Rattle.std.specs.Prelude.{◌≡◌, ◌+◌, ◌^◌, ◌<◌, ◌≤◌, [], length};
ghost use Rattle.vmx_ring_laws.specs.Keys.{key_of};
ghost use Rattle.vmx_ends.specs.TransmitClauses.{Completes};
ghost use Rattle.vmx_tx_ring.specs.Seats.{device_seen};

use crate::counting::InCount;
use crate::steps::DeviceCounts;
use vmx_tx_ring::TxReader;

/// Completes the frame that is taken, whose pieces are all read: one more frame is counted.
pub(crate) fn complete_next(reader: &mut TxReader<InCount>)
    requires taken { reader.old.seat.me.0.device.at.completed < length reader.old.seat.me.0.device.at.taken }
    requires none { reader.old.seat.me.0.device.at.ahead ≡ [] }
    requires small { reader.old.completed < 2 ^ 62 }
    ensures key { (reader.new.seat.table_id ≡ reader.old.seat.table_id) × (reader.new.made ≡ reader.old.made) }
    ensures completes { Completes (device_seen (key_of reader.old.seat.table_id) reader.old.seat.me.0) (device_seen (key_of reader.new.seat.table_id) reader.new.seat.me.0) }
    ensures none { reader.new.seat.me.0.device.at.ahead ≡ [] }
{
    let size = reader.made.size as usize;
    let completed = reader.completed + 1;
    let shared = &reader.table.shared;
    shared.store::<DeviceCounts>(&mut reader.seat, size + size, completed);
    reader.completed = completed;
}
