//! A look at a queue's words and buffers from outside.
ghost use Rattle.std.specs.Prelude.{◌≡◌, ◌+◌, ◌*◌, ◌<◌, ◌≤◌, ◌++◌, length, true, false, vec_len, vec_capacity};
ghost use Rattle.vmx_txq.specs.Ends.{driver_view, device_view};
ghost use Rattle.vmx_txq.specs.Standing.{IsWord, StandsIn};
ghost use Rattle.vmx_txq.specs.Tells.{Seen};

use crate::ends::{TxDeviceEnd, TxDriverEnd};
use crate::rows::InRows;
use crate::steps::{BothEnds, Shows};
use std::alloc::Global;
use vmx_closing::{WritesDown, append};
use vmx_ends::MAX_PIECE;
use vmx_layout::DATA_ENTRY_SIZE;
use vmx_tx_ring::{TxBuffer, TxReader, TxWriter};

/// The bytes of a slot: a buffer of 4,096 bytes, and its data entry of 128.
pub const SLOT_SIZE: usize = MAX_PIECE as usize + DATA_ENTRY_SIZE as usize;

/// The load of a word, which changes nothing.
fn load(writer: &mut TxWriter<InRows>, index: usize) -> u64
    requires index { index < writer.old.seat.table_id.words }
    ensures same { (writer.new.seat.table_id ≡ writer.old.seat.table_id) × (writer.new.made ≡ writer.old.made) × (writer.new.seat.me ≡ writer.old.seat.me) }
    ensures seen { Seen writer.old.seat.me.0 index result }
{
    let shared = &writer.table.shared;
    shared.load::<Shows>(&mut writer.seat, index)
}

/// The word of the queue's table with this index, below four times the ring's size, as it stands between two calls of the
/// two ends: for whoever holds the words against another implementation of the ring.
pub fn word(driver: &mut TxDriverEnd, device: &TxDeviceEnd, index: u32) -> u64
    requires keys { (driver_view driver.old).key ≡ (device_view device.now).key }
    requires index { index < 4 * (driver_view driver.old).made.size }
    ensures same { driver_view driver.new ≡ driver_view driver.old }
    ensures word { IsWord (driver_view driver.old) index result }
{
    let _device = device;
    load(&mut driver.writer, index as usize)
}

/// A buffer of 4,096 bytes, and then its data entry of 128.
struct WithEntry;

impl WritesDown<TxBuffer> for WithEntry {
    ghost use Rattle.vmx_txq.specs.Standing.{bytes_of};
    ghost use Rattle.vmx_txq.specs.declared.shown.TheConstants.{SLOT_SIZE};

    ghost bytes = { bytes_of };

    ghost most = { SLOT_SIZE };

    fn put(buffer: &TxBuffer, into: &mut Vec<u8>) {
        append(buffer.bytes.as_slice(), into);
        append(buffer.entry.as_slice(), into);
    }

    ghost use Rattle.vmx_txq.specs.StandingLaws.{bytes_few};

    ghost few = { bytes_few };
}

/// Lets the two ends of one queue go, and writes down what stands in its table: its words, four for each descriptor, and
/// slot by slot the 4,096 bytes of the buffer and the 128 of its data entry. Both are empty and have room; no memory is
/// taken. It tells whether it did, which it does where nobody else has the table: no call hands it out.
pub fn write_down(
    driver: TxDriverEnd,
    device: TxDeviceEnd,
    words: &mut Vec<u64>,
    bytes: &mut Vec<u8>,
) -> bool
    requires keys { (driver_view driver).key ≡ (device_view device).key }
    requires empty { (vec_len words.old ≡ 0) × (vec_len bytes.old ≡ 0) }
    requires words { 4 * (driver_view driver).made.size ≤ vec_capacity words.old }
    requires bytes { (driver_view driver).made.size * SLOT_SIZE ≤ vec_capacity bytes.old }
    ensures stands { result ≡ true → StandsIn (driver_view driver) (device_view device) words.new.items bytes.new.items }
    ensures none { result ≡ false → (vec_len words.new ≡ 0) × (vec_len bytes.new ≡ 0) }
{
    let TxDriverEnd { writer } = driver;
    let TxDeviceEnd { reader } = device;
    let TxWriter {
        table,
        mut seat,
        made: _,
        posted: _,
        published: _,
        returned: _,
        place: _,
        reaped: _,
        first: _,
    } = writer;
    let TxReader {
        table: twin,
        seat: other,
        made: _,
        read: _,
        place: _,
        completed: _,
    } = reader;
    table.shared.join_seat::<BothEnds>(&mut seat, other);
    drop(twin);
    vmx_closing::write_down::<_, _, _, _, WithEntry>(table, seat, words, bytes)
}
