//! Numbers and addresses at places in a frame.
//!
//! Each reader needs its bytes to be there: that is the only condition on a place.

ghost use Rattle.std.specs.Prelude.{◌≡◌, ◌+◌, ◌≤◌, length, slice_range};
ghost use Rattle.vmx_frame.specs.Bytes.{u16_at as number_at};

/// The two bytes from `at` on as one number, big-endian.
pub fn u16_at(bytes: &[u8], at: usize) -> u16
    requires within { at + 2 ≤ length bytes.now }
    ensures number { result ≡ number_at bytes.now at }
{
    u16::from(bytes[at]) * 256 + u16::from(bytes[at + 1])
}

/// The IPv4 address from `at` on.
pub fn v4_address_at(bytes: &[u8], at: usize) -> [u8; 4]
    requires within { at + 4 ≤ length bytes.now }
    ensures address { result ≡ slice_range bytes.now at (at + 4) }
{
    let mut address = [0; 4];
    address.copy_from_slice(&bytes[at..at + 4]);
    address
}

/// The IPv6 address from `at` on.
pub fn v6_address_at(bytes: &[u8], at: usize) -> [u8; 16]
    requires within { at + 16 ≤ length bytes.now }
    ensures address { result ≡ slice_range bytes.now at (at + 16) }
{
    let mut address = [0; 16];
    address.copy_from_slice(&bytes[at..at + 16]);
    address
}
