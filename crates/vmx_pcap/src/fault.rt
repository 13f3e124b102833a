//! Why bytes are not read as a capture.

use thiserror::Error;

/// Why bytes are not read as a capture: the first check that fails, in this order. Source: the classic pcap format; the
/// two limits are own to this project.
#[derive(Clone, Copy, Debug, Drop, PartialEq, Eq, Error)]
pub enum CaptureFault {
    /// Fewer than the 24 bytes of a file header; `len` is their number.
    #[error("a header of {len} bytes")]
    Header { len: u32 },
    /// The first four bytes, read big-endian, are none of the four magic numbers.
    #[error("magic number {found}")]
    Magic { found: u32 },
    /// The version is not 2.4.
    #[error("version {major}.{minor}")]
    Version { major: u16, minor: u16 },
    /// The link type is not 1, Ethernet, or another bit of its field is set.
    #[error("link type {found}")]
    Link { found: u32 },
    /// The record with this index, counted from 0, has a captured length above 262,144 bytes.
    #[error("record {index} of {found} bytes")]
    Long { index: u32, found: u32 },
    /// The record with this index, counted from 0, is whole, and as many as the caller takes stand before it.
    #[error("record {index} is one too many")]
    Many { index: u32 },
    /// The frames did not find memory.
    #[error("no memory")]
    Memory,
}
