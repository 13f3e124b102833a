//! A look at a queue's words and buffers from outside.
ghost use Rattle.std.specs.Prelude.{◌≡◌, ◌+◌, ◌*◌, ◌<◌, ◌≤◌, ◌++◌, length, true, false, vec_len, vec_capacity};
ghost use Rattle.vmx_rx_ends.specs.Standing.{IsWord, StandsIn};
ghost use Rattle.vmx_rxq.specs.Ends.{device_view, driver_view};

use crate::device::RxDeviceEnd;
use crate::driver::RxDriverEnd;
use atomic_table::Play;
use vmx_closing::{WritesDown, append};
use vmx_ends::BODY_SIZE;
use vmx_layout::DATA_ENTRY_SIZE;
use vmx_rx_ends::{RxFiller, RxReader, word_of};
use vmx_rx_ring::steps::Together;
use vmx_rx_ring::{Buffer, Known};

/// The most bytes of a slot: the buffer of a BODY, 4,096 bytes, and its data entry of 128.
pub const MAX_SLOT_SIZE: usize = BODY_SIZE as usize + DATA_ENTRY_SIZE as usize;

/// The word of the queue's table with this index, below four times the descriptors of both rings, as it stands between two
/// calls of the two ends: for whoever holds the words against another implementation of the rings.
pub fn word(driver: &mut RxDriverEnd, device: &RxDeviceEnd, index: u32) -> u64
    requires keys { (driver_view driver.old).key ≡ (device_view device.now).key }
    requires index { index < 4 * ((driver_view driver.old).made.size1 + (driver_view driver.old).made.size2) }
    ensures same { driver_view driver.new ≡ driver_view driver.old }
    ensures word { IsWord false (driver_view driver.old) index result }
{
    let _device = device;
    word_of(&mut driver.reader, index)
}

/// A buffer, 2,048 bytes of a HEAD and 4,096 of a BODY, and then its data entry of 128.
struct WithEntry;

impl WritesDown<Buffer> for WithEntry {
    ghost use Rattle.vmx_rx_ends.specs.Standing.{bytes_of};
    ghost use Rattle.vmx_rxq.specs.declared.shown.TheConstants.{MAX_SLOT_SIZE};

    ghost bytes = { bytes_of };

    ghost most = { MAX_SLOT_SIZE };

    fn put(buffer: &Buffer, into: &mut Vec<u8>) {
        append(buffer.bytes.as_slice(), into);
        append(buffer.entry.as_slice(), into);
    }

    ghost use Rattle.vmx_rxq.specs.StandingLaws.{bytes_few};

    ghost few = { bytes_few };
}

/// A load that changes nothing, and tells how many slots there are.
struct CountsSlots;

impl Play<Buffer, Known> for CountsSlots {
    ghost use Rattle.vmx_rxq.specs.Counting.{counted_slots};

    ghost then = { counted_slots };
}

/// Lets the two ends of one queue go, and writes down what stands in its table: its words, four for each descriptor of both
/// rings, and slot by slot the bytes of the buffer, 2,048 of a HEAD and 4,096 of a BODY, and the 128 of its data entry. Both
/// are empty and have room, of 4,224 bytes a slot; no memory is taken. It tells whether it did, which it does where nobody
/// else has the table: no call hands it out.
pub fn write_down(
    driver: RxDriverEnd,
    device: RxDeviceEnd,
    words: &mut Vec<u64>,
    bytes: &mut Vec<u8>,
) -> bool
    requires keys { (driver_view driver).key ≡ (device_view device).key }
    requires empty { (vec_len words.old ≡ 0) × (vec_len bytes.old ≡ 0) }
    requires words { 4 * ((driver_view driver).made.size1 + (driver_view driver).made.size2) ≤ vec_capacity words.old }
    requires bytes { ((driver_view driver).made.size1 + (driver_view driver).made.size2) * MAX_SLOT_SIZE ≤ vec_capacity bytes.old }
    ensures stands { result ≡ true → StandsIn false (driver_view driver) (device_view device) words.new.items bytes.new.items }
    ensures none { result ≡ false → (vec_len words.new ≡ 0) × (vec_len bytes.new ≡ 0) }
{
    let RxDriverEnd { reader } = driver;
    let RxDeviceEnd { filler } = device;
    let RxReader {
        table,
        mut seat,
        shape: _,
        place: _,
        read: _,
        back1: _,
        back2: _,
    } = reader;
    let RxFiller {
        table: twin,
        seat: other,
        shape: _,
        place: _,
        published: _,
        refusals: _,
        next1: _,
        next2: _,
    } = filler;
    table.shared.join_seat::<Together>(&mut seat, other);
    table.shared.load::<CountsSlots>(&mut seat, 0);
    drop(twin);
    vmx_closing::write_down::<_, _, _, _, WithEntry>(table, seat, words, bytes)
}
