//! A setup written as an image. Each part of the image is a list of fields.

ghost use Rattle.std.specs.Prelude.{◌≡◌, ◌+◌, ◌*◌, ◌<◌, ◌≤◌, ◌++◌, take, length};
ghost use Rattle.vmx_shared_area.specs.Bytes.{zero_bytes};
ghost use Rattle.vmx_shared_area.specs.Layout.{header, tx_queue, rx_queue, queues, rss_config, mac_bytes, image_of, feature_word, if_on as if_on_of, if_rss as if_rss_of};

use crate::fields::Field::{Bytes, U8, U16, U32, U64, Words, Zeros};
use crate::fields::{put_all, put_bytes, put_zeros};
use crate::offsets::{
    DESCRIPTOR_SIZE, DESCRIPTORS, DESCRIPTORS_SIZE, FEATURE_RSS, FEATURE_RXCSUM, FEATURE_RXVLAN,
    FIRST_REVISION, FIRST_RSS_VERSION, HEADER_END, IMAGE_SIZE, KEY_SIZE, MAC_SIZE, MACS, MACS_END,
    MAGIC_NUMBER, MOST_PIECES, RSS_CONFIGURATION_SIZE, RSS_ROOM, RSS_START, STATISTICS,
    STATISTICS_SIZE, TOEPLITZ,
};
use crate::{Image, MacTable, Setup};
use vmx_layout::{
    DATA_ENTRY_SIZE, MAX_QUEUES, MULTICAST_TABLE, QUEUE_DESCRIPTORS, RSS_CONFIGURATION,
    rx_completion_ring_address, rx_data_ring_address, rx_ring1_address, rx_ring2_address,
    tx_completion_ring_address, tx_data_ring_address, tx_ring_address,
};

/// Writes the whole image of a setup.
pub fn write(setup: &Setup, image: &mut Image)
    ensures written { image.new ≡ image_of setup.now }
{
    write_bytes(setup, image.bytes_mut());
}

fn write_bytes(setup: &Setup, bytes: &mut [u8])
    requires size { length bytes.old ≡ IMAGE_SIZE }
    ensures written { bytes.new ≡ image_of setup.now }
{
    write_header(setup, bytes);
    write_tx_queues(setup, bytes);
    write_rx_queues(setup, bytes);
    let queues = usize::from(setup.tx_queues) + usize::from(setup.rx_queues);
    let end = DESCRIPTOR_SIZE * queues;
    put_zeros(bytes, DESCRIPTORS + end, DESCRIPTORS_SIZE - end);
    write_rss(setup, bytes);
    write_macs(&setup.filter.multicast, bytes);
    put_zeros(bytes, MACS_END, IMAGE_SIZE - MACS_END);
}

#[tactic(auto, unfolding(crate::specs::Layout::header))]
fn write_header(setup: &Setup, bytes: &mut [u8])
    requires size { length bytes.old ≡ IMAGE_SIZE }
    ensures written { take DESCRIPTORS bytes.new ≡ header setup.now }
{
    let queues = u32::from(setup.tx_queues) + u32::from(setup.rx_queues);
    let fields = [
        U32(MAGIC_NUMBER),
        Zeros(4),
        U32(0),
        U32(0),
        U32(FIRST_REVISION),
        U32(FIRST_REVISION),
        U64(features(setup)),
        U64(0),
        U64(QUEUE_DESCRIPTORS),
        U32(0),
        U32(DESCRIPTOR_SIZE as u32 * queues),
        U32(setup.mtu),
        U16(MOST_PIECES),
        U8(setup.tx_queues),
        U8(setup.rx_queues),
        Zeros(16),
        U8(setup.auto_mask as u8),
        U8(setup.tx_queues + setup.rx_queues + 1),
        U8(setup.tx_queues + setup.rx_queues),
        Bytes(&setup.levels),
        U32(0),
        Zeros(8),
        U32(setup.filter.mode),
        U16(MAC_SIZE as u16 * setup.filter.multicast.count as u16),
        Zeros(2),
        U64(MULTICAST_TABLE),
        Words(&setup.filter.vlans),
        U32(if_rss(setup, FIRST_RSS_VERSION)),
        U32(if_rss(setup, RSS_CONFIGURATION_SIZE)),
        U64(u64::from(if_rss(setup, RSS_CONFIGURATION as u32))),
        Zeros(32),
        U32(0),
        Zeros(20),
        Zeros(DESCRIPTORS - HEADER_END),
    ];
    put_all(bytes, 0, DESCRIPTORS, &fields);
}

/// A number where there is an RSS setting, else 0.
fn if_rss(setup: &Setup, n: u32) -> u32
    ensures value { result ≡ if_rss_of setup.now.rss n }
{
    match setup.rss {
        Some(_) => n,
        None => 0,
    }
}

/// A number where a setting is on, else 0.
fn if_on(setting: bool, n: u64) -> u64
    ensures value { result ≡ if_on_of setting n }
{
    if setting { n } else { 0 }
}

/// The features that a setup asks for.
fn features(setup: &Setup) -> u64
    ensures word { result ≡ feature_word setup.now }
{
    let csum = setup.csum as u64 * FEATURE_RXCSUM;
    let rss = u64::from(if_rss(setup, FEATURE_RSS as u32));
    let strip = setup.strip as u64 * FEATURE_RXVLAN;
    csum + rss + strip
}

fn write_tx_queues(setup: &Setup, bytes: &mut [u8])
    requires size { length bytes.old ≡ IMAGE_SIZE }
    ensures written { take (DESCRIPTORS + DESCRIPTOR_SIZE * setup.now.tx_queues) bytes.new ≡ take DESCRIPTORS bytes.old ++ queues (tx_queue setup.now) setup.now.tx_queues }
{
    for q in 0..setup.tx_queues {
        write_tx_queue(setup, q, bytes);
    }
}

#[tactic(auto, unfolding(crate::specs::Layout::tx_queue))]
fn write_tx_queue(setup: &Setup, q: u8, bytes: &mut [u8])
    requires size { length bytes.old ≡ IMAGE_SIZE }
    requires queue { q < MAX_QUEUES }
    ensures written { take (DESCRIPTORS + DESCRIPTOR_SIZE * q + DESCRIPTOR_SIZE) bytes.new
        ≡ take (DESCRIPTORS + DESCRIPTOR_SIZE * q) bytes.old ++ tx_queue setup.now q }
{
    let queue = u32::from(q);
    let data_ring = if_on(setup.tx_data, tx_data_ring_address(queue));
    let data_size = if_on(setup.tx_data, u64::from(setup.tx_ring)) as u32;
    let fields = [
        Zeros(16),
        U64(tx_ring_address(queue)),
        U64(data_ring),
        U64(tx_completion_ring_address(queue)),
        U64(0),
        Zeros(8),
        U32(setup.tx_ring),
        U32(data_size),
        U32(setup.tx_ring),
        U32(0),
        U8(q),
        Zeros(7),
        U8(0),
        Zeros(3),
        U32(0),
        Zeros(STATISTICS_SIZE),
        Zeros(DESCRIPTOR_SIZE - STATISTICS - STATISTICS_SIZE),
    ];
    let start = DESCRIPTORS + DESCRIPTOR_SIZE * usize::from(q);
    put_all(bytes, start, start + DESCRIPTOR_SIZE, &fields);
}

fn write_rx_queues(setup: &Setup, bytes: &mut [u8])
    requires size { length bytes.old ≡ IMAGE_SIZE }
    ensures written { take (DESCRIPTORS + DESCRIPTOR_SIZE * setup.now.tx_queues + DESCRIPTOR_SIZE * setup.now.rx_queues) bytes.new
        ≡ take (DESCRIPTORS + DESCRIPTOR_SIZE * setup.now.tx_queues) bytes.old ++ queues (rx_queue setup.now) setup.now.rx_queues }
{
    for q in 0..setup.rx_queues {
        write_rx_queue(setup, q, bytes);
    }
}

#[tactic(auto, unfolding(crate::specs::Layout::rx_queue))]
fn write_rx_queue(setup: &Setup, q: u8, bytes: &mut [u8])
    requires size { length bytes.old ≡ IMAGE_SIZE }
    requires queue { q < MAX_QUEUES }
    ensures written { take (DESCRIPTORS + DESCRIPTOR_SIZE * setup.now.tx_queues + DESCRIPTOR_SIZE * q + DESCRIPTOR_SIZE) bytes.new
        ≡ take (DESCRIPTORS + DESCRIPTOR_SIZE * setup.now.tx_queues + DESCRIPTOR_SIZE * q) bytes.old ++ rx_queue setup.now q }
{
    let queue = u32::from(q);
    let data_ring = if_on(setup.rx_data, rx_data_ring_address(queue));
    let entry_size = if_on(setup.rx_data, DATA_ENTRY_SIZE) as u16;
    let fields = [
        Zeros(16),
        U64(rx_ring1_address(queue)),
        U64(rx_ring2_address(queue)),
        U64(rx_completion_ring_address(queue)),
        U64(0),
        U64(data_ring),
        U32(setup.rx_ring1),
        U32(setup.rx_ring2),
        U32(setup.rx_ring1 + setup.rx_ring2),
        U32(0),
        U8(setup.tx_queues + q),
        Zeros(1),
        U16(entry_size),
        Zeros(4),
        U8(0),
        Zeros(3),
        U32(0),
        Zeros(STATISTICS_SIZE),
        Zeros(DESCRIPTOR_SIZE - STATISTICS - STATISTICS_SIZE),
    ];
    let before = usize::from(setup.tx_queues);
    let start = DESCRIPTORS + DESCRIPTOR_SIZE * before + DESCRIPTOR_SIZE * usize::from(q);
    put_all(bytes, start, start + DESCRIPTOR_SIZE, &fields);
}

#[tactic(auto, unfolding(crate::specs::Layout::rss_config))]
fn write_rss(setup: &Setup, bytes: &mut [u8])
    requires size { length bytes.old ≡ IMAGE_SIZE }
    ensures written { take MACS bytes.new ≡ take RSS_START bytes.old ++ rss_config setup.now.rss }
{
    match &setup.rss {
        Some(rss) => {
            let fields = [
                U16(rss.types),
                U16(TOEPLITZ),
                U16(KEY_SIZE as u16),
                U16(rss.size),
                Bytes(&rss.key),
                Bytes(&rss.table),
                Zeros(RSS_ROOM - RSS_CONFIGURATION_SIZE as usize),
            ];
            put_all(bytes, RSS_START, MACS, &fields);
        }
        None => put_zeros(bytes, RSS_START, RSS_ROOM),
    }
}

/// Writes all 256 entries of a multicast table.
#[tactic(auto, unfolding(crate::specs::Layout::mac_bytes))]
fn write_macs(table: &MacTable, bytes: &mut [u8])
    requires size { length bytes.old ≡ IMAGE_SIZE }
    ensures written { take MACS_END bytes.new ≡ take MACS bytes.old ++ mac_bytes table.now.macs }
{
    for (i, mac) in table.macs.iter().enumerate() {
        put_bytes(bytes, MACS + MAC_SIZE * i, mac);
    }
}
