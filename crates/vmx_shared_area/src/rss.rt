//! Receive side scaling: which flows are hashed, with which key, and which queue an entry of the indirection table names.

ghost use Rattle.std.specs.Prelude.{◌≡◌, ◌<◌, ◌≤◌, ◌^◌, ℕ, length, slice_index};
ghost use Rattle.vmx_shared_area.specs.declared.offsets.TheConstants.{MAX_HASH_TYPES, KEY_SIZE, TABLE_SIZE};

use crate::offsets::{KEY_SIZE, TABLE_SIZE};

/// The default key of Microsoft's text on RSS.
pub const MICROSOFT_KEY: [u8; KEY_SIZE] = [
    0x6d, 0x5a, 0x56, 0xda, 0x25, 0x5b, 0x0e, 0xc2, 0x41, 0x67, 0x25, 0x3d, 0x43, 0xa3, 0x8f, 0xb0,
    0xd0, 0xca, 0x2b, 0xcb, 0xae, 0x7b, 0x30, 0xb4, 0x77, 0xcb, 0x2d, 0xa3, 0x80, 0x30, 0xf2, 0x0c,
    0x6a, 0x42, 0xb7, 0x3b, 0xbe, 0xac, 0x01, 0xfa,
];

/// The RSS setting of a guest.
#[derive(Clone, Copy, Debug, PartialEq, Eq)]
pub struct Rss {
    /// The kinds of flow that are hashed, at most 15: IPv4 1, TCP over IPv4 2, IPv6 4, TCP over IPv6 8.
    pub types: u16,
    /// The key of the Toeplitz hash.
    pub key: [u8; KEY_SIZE],
    /// The number of entries of the indirection table, 1 to 128.
    pub size: u16,
    /// The indirection table: entry i, below `size`, is a receive queue; the entries from `size` on are 0.
    pub table: [u8; TABLE_SIZE],
    ghost types_high: { types ≤ MAX_HASH_TYPES },
    ghost key_length: { length key ≡ KEY_SIZE },
    ghost key_fits: { (i : ℕ) → slice_index key i < 2 ^ 8 },
    ghost size_low: { 1 ≤ size },
    ghost size_high: { size ≤ TABLE_SIZE },
    ghost table_length: { length table ≡ TABLE_SIZE },
    ghost table_fits: { (i : ℕ) → slice_index table i < 2 ^ 8 },
    ghost rest: { (i : ℕ) → size ≤ i → slice_index table i ≡ 0 },
}

/// The indirection table alone, as an update of it reads it.
#[derive(Clone, Copy, Debug, PartialEq, Eq)]
pub struct IndexTable {
    /// The number of entries, 1 to 128.
    pub size: u16,
    /// The entries; those from `size` on are 0.
    pub table: [u8; TABLE_SIZE],
    ghost size_low: { 1 ≤ size },
    ghost size_high: { size ≤ TABLE_SIZE },
    ghost table_length: { length table ≡ TABLE_SIZE },
    ghost table_fits: { (i : ℕ) → slice_index table i < 2 ^ 8 },
    ghost rest: { (i : ℕ) → size ≤ i → slice_index table i ≡ 0 },
}
