//! The answers about a frame: its TCP segment, and what a device tells of its checksum.

/// Where the TCP segment of a frame lies, in bytes from the frame's first: from `l4`, where its header begins behind the
/// IP header, up to `end`, where the IP packet ends. Bytes behind `end` are padding.
#[derive(Clone, Copy, Debug, PartialEq, Eq)]
pub struct Segment {
    pub l4: u32,
    pub end: u32,
}

/// What a device tells of a received frame in its completion (Linux `vmxnet3_defs.h`, `Vmxnet3_RxCompDesc`).
#[derive(Clone, Copy, Debug, PartialEq, Eq)]
pub struct Flags {
    /// The frame is an IPv4 packet.
    pub v4: bool,

    /// The frame is an IPv6 packet.
    pub v6: bool,

    /// The frame has a whole TCP segment.
    pub tcp: bool,

    /// The segment's checksum is right.
    pub tuc: bool,
}
