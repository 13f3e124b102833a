//! What receive side scaling makes of a flow.

/// The kind of a flow that is not hashed, as a receive completion tells it (Linux vmxnet3_defs.h, VMXNET3_RCD_RSS_TYPE_NONE).
pub const NO_KIND: u32 = 0;

/// The kind of a flow whose IPv4 addresses are hashed (VMXNET3_RCD_RSS_TYPE_IPV4).
pub const KIND_IPV4: u32 = 1;

/// The kind of a flow whose IPv4 addresses and TCP ports are hashed (VMXNET3_RCD_RSS_TYPE_TCPIPV4).
pub const KIND_TCP_IPV4: u32 = 2;

/// The kind of a flow whose IPv6 addresses are hashed (VMXNET3_RCD_RSS_TYPE_IPV6).
pub const KIND_IPV6: u32 = 3;

/// The kind of a flow whose IPv6 addresses and TCP ports are hashed (VMXNET3_RCD_RSS_TYPE_TCPIPV6).
pub const KIND_TCP_IPV6: u32 = 4;

/// A receive queue, and the hash and the kind of flow that chose it. All three are 0 for a flow that is not hashed.
#[derive(Clone, Copy, Debug, PartialEq, Eq)]
pub struct Choice {
    /// The receive queue, an entry of the indirection table.
    pub queue: u32,

    /// The Toeplitz hash.
    pub hash: u32,

    /// The kind of flow: 1 IPv4, 2 TCP over IPv4, 3 IPv6, 4 TCP over IPv6, and 0 where none is allowed.
    pub kind: u32,
}
