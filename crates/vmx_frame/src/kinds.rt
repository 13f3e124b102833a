//! The answers about a frame: its class, and its flow.
//!
//! Addresses are in the order of the wire, ports are numbers.

/// The two TCP ports of a flow, each 0 to 65,535.
#[derive(Clone, Copy, Debug, PartialEq, Eq)]
pub struct Ports {
    pub source: u16,
    pub target: u16,
}

/// What a frame belongs to, as the hash of receive side scaling sees it.
///
/// `ports` is there where the payload is TCP, is no fragment, and has at least the 20 bytes of a TCP header.
#[derive(Clone, Copy, Debug, PartialEq, Eq)]
pub enum Flow {
    /// Neither IPv4 nor IPv6, or a header that is cut short or has no lawful length.
    NonIp,

    V4 {
        source: [u8; 4],
        target: [u8; 4],
        ports: Option<Ports>,
    },

    V6 {
        source: [u8; 16],
        target: [u8; 16],
        ports: Option<Ports>,
    },
}

/// What the destination address of a frame names: all stations, a group of them, or one.
#[derive(Clone, Copy, Debug, PartialEq, Eq)]
pub enum Class {
    Broadcast,
    Multicast,
    Unicast,
}
