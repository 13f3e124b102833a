//! Statistics and status in a queue's descriptor. Receive descriptors stand behind so many transmit ones as the caller says, whatever
//! the image says.

ghost use Rattle.std.specs.Prelude.{◌≡◌, ◌≤◌, ◌<◌, ◌+◌, ◌*◌, ℕ, List, length, slice_index};
ghost use Rattle.vmx_shared_area.specs.Bytes.{number_at};
ghost use Rattle.vmx_shared_area.specs.declared.stats.Stats.{Stats as StatsOf};
ghost use Rattle.vmx_shared_area.specs.Layout.{descriptor_at, stats_bytes, status_bytes, with_part};

use crate::fields::Field::{U8, U32, U64, Zeros};
use crate::fields::put_all;
use crate::numbers::counts_at;
use crate::offsets::{
    DESCRIPTOR_SIZE, DESCRIPTORS, IMAGE_SIZE, STATISTICS, STATISTICS_COUNT, STATISTICS_SIZE,
    STATUS, STATUS_SIZE,
};
use crate::{Image, Side, Stats};
use vmx_layout::MAX_QUEUES;

/// Writes the statistics of a queue, and nothing else. `tx_queues` is 1 to 8 and `queue` below 8, on the transmit side below `tx_queues`.
pub fn write_stats(image: &mut Image, tx_queues: u32, side: Side, queue: u32, stats: &Stats)
    requires tx_low { 1 ≤ tx_queues }
    requires tx_high { tx_queues ≤ MAX_QUEUES }
    requires queue { queue < MAX_QUEUES }
    requires tx_queue { side ≡ Side.Tx → queue < tx_queues }
    ensures written { image.new ≡ with_part (descriptor_at tx_queues side queue + STATISTICS) STATISTICS_SIZE (stats_bytes stats.now.counts) image.old }
{
    let start = descriptor(tx_queues, side, queue);
    put_stats(image.bytes_mut(), start + STATISTICS, &stats.counts);
}

fn put_stats(bytes: &mut [u8], start: usize, counts: &[u64; STATISTICS_COUNT])
    requires room { start + STATISTICS_SIZE ≤ length bytes.old }
    ensures written { bytes.new ≡ with_part start STATISTICS_SIZE (stats_bytes counts.now) bytes.old }
{
    let fields = [
        U64(counts[0]),
        U64(counts[1]),
        U64(counts[2]),
        U64(counts[3]),
        U64(counts[4]),
        U64(counts[5]),
        U64(counts[6]),
        U64(counts[7]),
        U64(counts[8]),
        U64(counts[9]),
    ];
    put_all(bytes, start, start + STATISTICS_SIZE, &fields);
}

/// The statistics of a queue, under the conditions of `write_stats`.
pub fn read_stats(image: &Image, tx_queues: u32, side: Side, queue: u32) -> Stats
    requires tx_low { 1 ≤ tx_queues }
    requires tx_high { tx_queues ≤ MAX_QUEUES }
    requires queue { queue < MAX_QUEUES }
    requires tx_queue { side ≡ Side.Tx → queue < tx_queues }
    ensures round_trip { (s : StatsOf) (old : List ℕ) → length old ≡ IMAGE_SIZE → image.now ≡ with_part (descriptor_at tx_queues side queue + STATISTICS) STATISTICS_SIZE (stats_bytes s.counts) old → result ≡ s }
    ensures told { (i : ℕ) → i < STATISTICS_COUNT → slice_index result.counts i ≡ number_at 8 (descriptor_at tx_queues side queue + STATISTICS + 8 * i) image.now }
{
    let start = descriptor(tx_queues, side, queue);
    Stats {
        counts: counts_at(image.bytes(), start + STATISTICS),
    }
}

/// Writes the status of a queue, and nothing else, under the conditions of `write_stats`: stopped with the number of an error, or neither.
pub fn write_status(image: &mut Image, tx_queues: u32, side: Side, queue: u32, error: Option<u32>)
    requires tx_low { 1 ≤ tx_queues }
    requires tx_high { tx_queues ≤ MAX_QUEUES }
    requires queue { queue < MAX_QUEUES }
    requires tx_queue { side ≡ Side.Tx → queue < tx_queues }
    ensures written { image.new ≡ with_part (descriptor_at tx_queues side queue + STATUS) STATUS_SIZE (status_bytes error) image.old }
{
    let start = descriptor(tx_queues, side, queue);
    put_status(image.bytes_mut(), start + STATUS, error);
}

fn put_status(bytes: &mut [u8], start: usize, error: Option<u32>)
    requires room { start + STATUS_SIZE ≤ length bytes.old }
    ensures written { bytes.new ≡ with_part start STATUS_SIZE (status_bytes error) bytes.old }
{
    let fields = match error {
        Some(number) => [U8(1), Zeros(3), U32(number)],
        None => [U8(0), Zeros(3), U32(0)],
    };
    put_all(bytes, start, start + STATUS_SIZE, &fields);
}

/// Where the descriptor of a queue stands.
fn descriptor(tx_queues: u32, side: Side, queue: u32) -> usize
    requires tx_high { tx_queues ≤ MAX_QUEUES }
    requires queue { queue < MAX_QUEUES }
    ensures start { result ≡ descriptor_at tx_queues side queue }
    ensures inside { result + DESCRIPTOR_SIZE ≤ IMAGE_SIZE }
{
    match side {
        Side::Tx => DESCRIPTORS + DESCRIPTOR_SIZE * queue as usize,
        Side::Rx => DESCRIPTORS + DESCRIPTOR_SIZE * (tx_queues as usize + queue as usize),
    }
}
