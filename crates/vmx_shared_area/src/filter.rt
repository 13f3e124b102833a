//! What a device lets in: a receive mode, a multicast table and a table of VLANs.

ghost use Rattle.std.specs.Prelude.{◌≡◌, ◌<◌, ◌≤◌, ◌^◌, ℕ, length, slice_index};
ghost use Rattle.vmx_shared_area.specs.Macs.{mac_of, zero_mac};
ghost use Rattle.vmx_shared_area.specs.declared.offsets.TheConstants.{RX_MODE_END, VLAN_WORDS, MAC_SIZE, MAX_MACS};

use crate::offsets::{MAC_SIZE, MAX_MACS, VLAN_WORDS};

/// The receive filter of a guest.
#[derive(Clone, Copy, Debug, PartialEq, Eq)]
pub struct Filter {
    /// The receive mode, below 32: a sum of `RX_MODE_UCAST` 1, `RX_MODE_MCAST` 2, `RX_MODE_BCAST` 4, `RX_MODE_ALL_MULTI` 8 and
    /// `RX_MODE_PROMISC` 16.
    pub mode: u32,
    /// The multicast addresses that MCAST lets in.
    pub multicast: MacTable,
    /// The VLANs that are let in: the one with number `v` is bit `v % 32` of word `v / 32`.
    pub vlans: [u32; VLAN_WORDS],
    ghost mode_fits: { mode < RX_MODE_END },
    ghost vlans_length: { length vlans ≡ VLAN_WORDS },
    ghost vlans_fit: { (i : ℕ) → slice_index vlans i < 2 ^ 32 },
}

/// A table of at most 256 MAC addresses. The first `count` entries of `macs` are the addresses, all others are zeros.
#[derive(Clone, Copy, Debug, PartialEq, Eq)]
pub struct MacTable {
    /// The number of addresses, 0 to 256.
    pub count: u32,
    /// The addresses, and zeros after them.
    pub macs: [[u8; MAC_SIZE]; MAX_MACS],
    ghost count_high: { count ≤ MAX_MACS },
    ghost macs_length: { length macs ≡ MAX_MACS },
    ghost mac_length: { (i : ℕ) → length (mac_of macs i) ≡ MAC_SIZE },
    ghost macs_fit: { (i j : ℕ) → slice_index (mac_of macs i) j < 2 ^ 8 },
    ghost rest: { (i : ℕ) → count ≤ i → mac_of macs i ≡ zero_mac },
}

impl MacTable {
    /// A table without addresses.
    pub fn empty() -> MacTable
        ensures count { result.count ≡ 0 }
    {
        MacTable {
            count: 0,
            macs: [[0; MAC_SIZE]; MAX_MACS],
        }
    }
}
