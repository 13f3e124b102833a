//! Numbers at an offset, the lowest byte first.

ghost use Rattle.std.specs.Prelude.{◌≡◌, ◌+◌, ◌≤◌, ◌<◌, ◌^◌, ◌*◌, ℕ, length, slice_index};
ghost use Rattle.vmx_shared_area.specs.Bytes.{number_at, bytes_at, words_at};
ghost use Rattle.vmx_shared_area.specs.Macs.{mac_of, zero_mac};

use crate::offsets::{
    IMAGE_SIZE, KEY, KEY_SIZE, LEVEL_COUNT, LEVELS, MAC_SIZE, MACS, MAX_MACS, STATISTICS_COUNT,
    STATISTICS_SIZE, TABLE, TABLE_SIZE, VLAN_WORDS, VLANS,
};
use byteorder::{ByteOrder, LittleEndian};

#[tactic(auto, unfolding(crate::specs::Bytes::number_at))]
pub fn u8_at(bytes: &[u8], at: usize) -> u8
    requires room { at + 1 ≤ length bytes.now }
    ensures number { result ≡ number_at 1 at bytes.now }
{
    bytes[at]
}

#[tactic(auto, unfolding(crate::specs::Bytes::number_at))]
pub fn u16_at(bytes: &[u8], at: usize) -> u16
    requires room { at + 2 ≤ length bytes.now }
    ensures number { result ≡ number_at 2 at bytes.now }
{
    LittleEndian::read_u16(&bytes[at..])
}

#[tactic(auto, unfolding(crate::specs::Bytes::number_at))]
pub fn u32_at(bytes: &[u8], at: usize) -> u32
    requires room { at + 4 ≤ length bytes.now }
    ensures number { result ≡ number_at 4 at bytes.now }
{
    LittleEndian::read_u32(&bytes[at..])
}

#[tactic(auto, unfolding(crate::specs::Bytes::number_at))]
pub fn u64_at(bytes: &[u8], at: usize) -> u64
    requires room { at + 8 ≤ length bytes.now }
    ensures number { result ≡ number_at 8 at bytes.now }
{
    LittleEndian::read_u64(&bytes[at..])
}

/// The moderation levels.
#[tactic(auto, unfolding(crate::specs::Bytes::bytes_at))]
pub fn levels_at(bytes: &[u8]) -> [u8; LEVEL_COUNT]
    requires size { length bytes.now ≡ IMAGE_SIZE }
    ensures levels { result ≡ bytes_at LEVEL_COUNT LEVELS bytes.now }
{
    let mut levels = [0; LEVEL_COUNT];
    levels.copy_from_slice(&bytes[LEVELS..LEVELS + LEVEL_COUNT]);
    levels
}

/// The RSS key.
#[tactic(auto, unfolding(crate::specs::Bytes::bytes_at))]
pub fn key_at(bytes: &[u8]) -> [u8; KEY_SIZE]
    requires size { length bytes.now ≡ IMAGE_SIZE }
    ensures key { result ≡ bytes_at KEY_SIZE KEY bytes.now }
{
    let mut key = [0; KEY_SIZE];
    key.copy_from_slice(&bytes[KEY..KEY + KEY_SIZE]);
    key
}

/// The entries of the indirection table.
#[tactic(auto, unfolding(crate::specs::Bytes::bytes_at))]
pub fn entries_at(bytes: &[u8]) -> [u8; TABLE_SIZE]
    requires size { length bytes.now ≡ IMAGE_SIZE }
    ensures table { result ≡ bytes_at TABLE_SIZE TABLE bytes.now }
{
    let mut table = [0; TABLE_SIZE];
    table.copy_from_slice(&bytes[TABLE..TABLE + TABLE_SIZE]);
    table
}

/// A MAC address.
#[tactic(auto, unfolding(crate::specs::Bytes::bytes_at))]
pub fn mac_at(bytes: &[u8], at: usize) -> [u8; MAC_SIZE]
    requires room { at + MAC_SIZE ≤ length bytes.now }
    ensures mac { result ≡ bytes_at MAC_SIZE at bytes.now }
{
    let mut mac = [0; MAC_SIZE];
    mac.copy_from_slice(&bytes[at..at + MAC_SIZE]);
    mac
}

/// The VLAN table.
pub fn vlans_at(bytes: &[u8]) -> [u32; VLAN_WORDS]
    requires size { length bytes.now ≡ IMAGE_SIZE }
    ensures vlans { result ≡ words_at VLAN_WORDS VLANS bytes.now }
    ensures fit { (i : ℕ) → slice_index result i < 2 ^ 32 }
{
    let mut vlans = [0; VLAN_WORDS];
    LittleEndian::read_u32_into(&bytes[VLANS..VLANS + 4 * VLAN_WORDS], &mut vlans);
    vlans
}

/// Ten counts of eight bytes each.
pub fn counts_at(bytes: &[u8], start: usize) -> [u64; STATISTICS_COUNT]
    requires room { start + STATISTICS_SIZE ≤ length bytes.now }
    ensures each { (i : ℕ) → i < STATISTICS_COUNT → slice_index result i ≡ number_at 8 (start + 8 * i) bytes.now }
    ensures fit { (i : ℕ) → slice_index result i < 2 ^ 64 }
{
    let mut counts = [0; STATISTICS_COUNT];
    for i in 0..STATISTICS_COUNT {
        counts[i] = u64_at(bytes, start + 8 * i);
    }
    counts
}

/// The first MAC addresses of the multicast table, and zeros after them.
pub fn macs_at(bytes: &[u8], count: usize) -> [[u8; MAC_SIZE]; MAX_MACS]
    requires size { length bytes.now ≡ IMAGE_SIZE }
    requires count { count ≤ MAX_MACS }
    ensures read { (i : ℕ) → i < count → mac_of result i ≡ bytes_at MAC_SIZE (MACS + MAC_SIZE * i) bytes.now }
    ensures rest { (i : ℕ) → count ≤ i → mac_of result i ≡ zero_mac }
{
    let mut macs = [[0; MAC_SIZE]; MAX_MACS];
    for i in 0..count {
        macs[i] = mac_at(bytes, MACS + MAC_SIZE * i);
    }
    macs
}
