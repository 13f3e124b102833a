//! The numbers of the classic pcap format: where the fields of its headers stand, in bytes, and what they hold.

/// The magic number of little-endian captures in microseconds, its four bytes read big-endian. Source: pcap.
pub const MAGIC_LITTLE_MICROS: u32 = 0xd4c3_b2a1;
/// The magic number of big-endian captures in microseconds. Source: pcap.
pub const MAGIC_BIG_MICROS: u32 = 0xa1b2_c3d4;
/// The magic number of little-endian captures in nanoseconds, its four bytes read big-endian. Source: pcap.
pub const MAGIC_LITTLE_NANOS: u32 = 0x4d3c_b2a1;
/// The magic number of big-endian captures in nanoseconds. Source: pcap.
pub const MAGIC_BIG_NANOS: u32 = 0xa1b2_3c4d;

/// Nanoseconds in a microsecond.
pub const NANOS_PER_MICRO: u32 = 1_000;

/// The version is 2.4. Source: pcap.
pub const VERSION_MAJOR: u16 = 2;
/// The version's second number.
pub const VERSION_MINOR: u16 = 4;

/// The link type of Ethernet. Source: pcap's LINKTYPE_ETHERNET.
pub const LINK_ETHERNET: u32 = 1;

/// Where the magic number stands in the file header.
pub const MAGIC_OFFSET: usize = 0;
/// Where the version's first number stands in the file header.
pub const MAJOR_OFFSET: usize = 4;
/// Where the version's second number stands in the file header.
pub const MINOR_OFFSET: usize = 6;
/// Where the link type stands in the file header.
pub const LINK_OFFSET: usize = 20;
/// The length of the file header.
pub const FILE_HEADER_SIZE: usize = 24;

/// The file header that is written: magic number, version 2.4, time zone and accuracy 0, snap length 65,535, Ethernet.
pub const FILE_HEADER: [u8; FILE_HEADER_SIZE] = [
    0xd4, 0xc3, 0xb2, 0xa1, 2, 0, 4, 0, 0, 0, 0, 0, 0, 0, 0, 0, 0xff, 0xff, 0, 0, 1, 0, 0, 0,
];

/// Where the seconds stand in a record's header.
pub const SECONDS_OFFSET: usize = 0;
/// Where the fraction of a second stands in a record's header.
pub const FRACTION_OFFSET: usize = 4;
/// Where the captured length stands in a record's header, with the original length behind it.
pub const CAPTURED_OFFSET: usize = 8;
/// The length of a record's header.
pub const RECORD_HEADER_SIZE: usize = 16;

/// The greatest captured length that is read, in bytes. Own to this project; Wireshark's limit.
pub const MAX_CAPTURED: u32 = 262_144;

/// The most bytes of a capture that is read. Own to this project.
pub const MAX_CAPTURE: usize = 67_108_864;

/// The most bytes of a frame that is written: the snap length of the file header.
pub const SNAP_LENGTH: usize = 65_535;
