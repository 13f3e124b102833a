//! The fields of a capture by their place in bytes, in either byte order.

ghost use Rattle.std.specs.Prelude.{◌≡◌, ◌+◌, ◌≤◌, length};
ghost use Rattle.vmx_pcap.specs.Fields.{u16_at, u32_at, micros_of as micros_in};

use crate::format::NANOS_PER_MICRO;
use crate::kinds::{Endian, TimeUnit};
use byteorder::{BigEndian, ByteOrder, LittleEndian};

/// The number in the two bytes from place `i`.
#[tactic(auto, unfolding(crate::specs::Fields::u16_at))]
pub fn u16_field(endian: Endian, bytes: &[u8], i: usize) -> u16
    requires within { i + 2 ≤ length bytes.now }
    ensures value { result ≡ u16_at endian i bytes.now }
{
    match endian {
        Endian::Little => LittleEndian::read_u16(&bytes[i..]),
        Endian::Big => BigEndian::read_u16(&bytes[i..]),
    }
}

/// The number in the four bytes from place `i`.
#[tactic(auto, unfolding(crate::specs::Fields::u32_at))]
pub fn u32_field(endian: Endian, bytes: &[u8], i: usize) -> u32
    requires within { i + 4 ≤ length bytes.now }
    ensures value { result ≡ u32_at endian i bytes.now }
{
    match endian {
        Endian::Little => LittleEndian::read_u32(&bytes[i..]),
        Endian::Big => BigEndian::read_u32(&bytes[i..]),
    }
}

/// A fraction of a second in whole microseconds, rounded down.
pub fn micros_of(unit: TimeUnit, fraction: u32) -> u32
    ensures micros { result ≡ micros_in unit fraction }
{
    match unit {
        TimeUnit::Micros => fraction,
        TimeUnit::Nanos => fraction / NANOS_PER_MICRO,
    }
}
