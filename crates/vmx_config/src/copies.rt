//! Copies into arrays, whose clauses say what the array's type says: the length, and the range of each number.

ghost use Rattle.std.specs.Prelude.{◌≡◌, ◌<◌, ◌^◌, ℕ, length, slice_index};
ghost use Rattle.vmx_shared_area.specs.declared.offsets.TheConstants.{MAC_SIZE, KEY_SIZE, TABLE_SIZE, VLAN_WORDS};

use vmx_shared_area::offsets::{KEY_SIZE, MAC_SIZE, TABLE_SIZE, VLAN_WORDS};

/// A copy of an Ethernet address.
pub fn address_of(address: &[u8]) -> [u8; MAC_SIZE]
    requires size { length address.now ≡ MAC_SIZE }
    ensures same { result ≡ address.now }
    ensures fit { (i : ℕ) → slice_index result i < 2 ^ 8 }
{
    let mut copy = [0; MAC_SIZE];
    copy.copy_from_slice(address);
    copy
}

/// A copy of a hash key.
pub fn key_of(key: &[u8]) -> [u8; KEY_SIZE]
    requires size { length key.now ≡ KEY_SIZE }
    ensures same { result ≡ key.now }
    ensures fit { (i : ℕ) → slice_index result i < 2 ^ 8 }
{
    let mut copy = [0; KEY_SIZE];
    copy.copy_from_slice(key);
    copy
}

/// A copy of an indirection table.
pub fn table_of(table: &[u8]) -> [u8; TABLE_SIZE]
    requires size { length table.now ≡ TABLE_SIZE }
    ensures same { result ≡ table.now }
    ensures fit { (i : ℕ) → slice_index result i < 2 ^ 8 }
{
    let mut copy = [0; TABLE_SIZE];
    copy.copy_from_slice(table);
    copy
}

/// A copy of a table of VLANs.
pub fn vlans_of(vlans: &[u32]) -> [u32; VLAN_WORDS]
    requires size { length vlans.now ≡ VLAN_WORDS }
    ensures same { result ≡ vlans.now }
    ensures fit { (i : ℕ) → slice_index result i < 2 ^ 32 }
{
    let mut copy = [0; VLAN_WORDS];
    copy.copy_from_slice(vlans);
    copy
}
