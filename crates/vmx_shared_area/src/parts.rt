//! The parts of a setup, taken from an image whose checks hold.

ghost use Rattle.std.specs.Prelude.{◌≡◌, ◌≤◌, ◌<◌, ◌+◌, ◌*◌, ℕ, length, IfSome, Some, None};
ghost use Rattle.vmx_shared_area.specs.Checks.{csum_bit as csum_bit_of, rss_bit as rss_bit_of, strip_bit as strip_bit_of, fault, tx_count, mode_fault, multicast_fault, rss_fault, table_fault};
ghost use Rattle.vmx_shared_area.specs.Tells.{Tells, TellsFilter, TellsMulticast, TellsRss, TellsTable, EntriesBelow};
ghost use Rattle.vmx_shared_area.specs.declared.rss.Rss.{Rss as RssSetting};

use crate::numbers::{
    entries_at, key_at, levels_at, macs_at, u8_at, u16_at, u32_at, u64_at, vlans_at,
};
use crate::offsets::{
    AUTO_MASK, DESCRIPTOR_SIZE, DESCRIPTORS, FEATURE_RSS, FEATURE_RXCSUM, FEATURE_RXVLAN, FEATURES,
    HASH_TYPES, IMAGE_SIZE, MAC_SIZE, MTU, MULTICAST_LENGTH, RX_DATA_SIZE, RX_MODE, RX_QUEUES,
    RX_RING1_SIZE, RX_RING2_SIZE, TABLE_LENGTH, TX_DATA_SIZE, TX_QUEUES, TX_RING_SIZE,
};
use crate::{Filter, IndexTable, MacTable, Rss, Setup};

pub fn setup_at(bytes: &[u8]) -> Setup
    requires size { length bytes.now ≡ IMAGE_SIZE }
    requires sound { fault bytes.now ≡ None }
    ensures told { Tells bytes.now result }
{
    let tx_queues = u8_at(bytes, TX_QUEUES);
    let rx_queues = u8_at(bytes, RX_QUEUES);
    let tx = DESCRIPTORS;
    let rx = DESCRIPTORS + DESCRIPTOR_SIZE * usize::from(tx_queues);
    let tx_ring = u32_at(bytes, tx + TX_RING_SIZE);
    let rx_ring1 = u32_at(bytes, rx + RX_RING1_SIZE);
    let rx_ring2 = u32_at(bytes, rx + RX_RING2_SIZE);
    let mtu = u32_at(bytes, MTU);
    let mask = u8_at(bytes, AUTO_MASK);
    let tx_data = u32_at(bytes, tx + TX_DATA_SIZE);
    let rx_data = u16_at(bytes, rx + RX_DATA_SIZE);
    let strip = strip_bit(bytes);
    let csum = csum_bit(bytes);
    Setup {
        tx_queues,
        rx_queues,
        tx_ring,
        rx_ring1,
        rx_ring2,
        mtu,
        filter: filter_at(bytes),
        rss: rss_at(bytes, rx_queues),
        auto_mask: mask == 1,
        levels: levels_at(bytes),
        tx_data: tx_data != 0,
        rx_data: rx_data != 0,
        strip: strip == 1,
        csum: csum == 1,
    }
}

pub fn filter_at(bytes: &[u8]) -> Filter
    requires size { length bytes.now ≡ IMAGE_SIZE }
    requires mode { mode_fault bytes.now ≡ None }
    requires multicast { multicast_fault bytes.now ≡ None }
    ensures told { TellsFilter bytes.now result }
{
    Filter {
        mode: u32_at(bytes, RX_MODE),
        multicast: multicast_at(bytes),
        vlans: vlans_at(bytes),
    }
}

pub fn multicast_at(bytes: &[u8]) -> MacTable
    requires size { length bytes.now ≡ IMAGE_SIZE }
    requires sound { multicast_fault bytes.now ≡ None }
    ensures told { TellsMulticast bytes.now result }
{
    let count = u16_at(bytes, MULTICAST_LENGTH) / MAC_SIZE as u16;
    let macs = macs_at(bytes, usize::from(count));
    MacTable {
        count: u32::from(count),
        macs,
    }
}

/// The bit of the feature RXCSUM.
pub fn csum_bit(bytes: &[u8]) -> u64
    requires size { length bytes.now ≡ IMAGE_SIZE }
    ensures bit { result ≡ csum_bit_of bytes.now }
{
    u64_at(bytes, FEATURES) / FEATURE_RXCSUM % 2
}

/// The bit of the feature RSS.
pub fn rss_bit(bytes: &[u8]) -> u64
    requires size { length bytes.now ≡ IMAGE_SIZE }
    ensures bit { result ≡ rss_bit_of bytes.now }
{
    u64_at(bytes, FEATURES) / FEATURE_RSS % 2
}

/// The bit of the feature RXVLAN.
pub fn strip_bit(bytes: &[u8]) -> u64
    requires size { length bytes.now ≡ IMAGE_SIZE }
    ensures bit { result ≡ strip_bit_of bytes.now }
{
    u64_at(bytes, FEATURES) / FEATURE_RXVLAN % 2
}

pub fn rss_at(bytes: &[u8], rx_queues: u8) -> Option<Rss>
    requires size { length bytes.now ≡ IMAGE_SIZE }
    requires sound { rss_fault bytes.now rx_queues ≡ None }
    ensures told { TellsRss bytes.now result }
    ensures entries { (r : RssSetting) → result ≡ Some r → EntriesBelow rx_queues r.size r.table }
{
    let features = rss_bit(bytes);
    if features == 0 {
        return None;
    }
    let types = u16_at(bytes, HASH_TYPES);
    let size = u16_at(bytes, TABLE_LENGTH);
    Some(Rss {
        types,
        key: key_at(bytes),
        size,
        table: entries_at(bytes),
    })
}

pub fn table_at(bytes: &[u8], rx_queues: u8) -> IndexTable
    requires size { length bytes.now ≡ IMAGE_SIZE }
    requires sound { table_fault bytes.now rx_queues ≡ None }
    ensures told { TellsTable bytes.now result }
    ensures entries { EntriesBelow rx_queues result.size result.table }
{
    IndexTable {
        size: u16_at(bytes, TABLE_LENGTH),
        table: entries_at(bytes),
    }
}
