//! What a configuration says, in the ranges of its table.

use vmx_config_lists::Entries;
use vmx_io::{List, Text};
use vmx_shared_area::offsets::{KEY_SIZE, MAC_SIZE, VLAN_WORDS};

/// A guest's port and frames.
#[derive(Drop)]
pub struct PortSettings {
    pub name: Text,
    /// The Ethernet address.
    pub mac: [u8; MAC_SIZE],
    /// The name of its capture; none: it sends nothing.
    pub capture: Option<Text>,
    pub sniffer: bool,
    /// The VLAN of its frames.
    pub vlan: Option<u16>,
    /// Whether tags are taken off.
    pub strip: bool,
    /// In bytes.
    pub mtu: u32,
}

/// A guest's queues and rings.
#[derive(Clone, Copy, Debug, Drop, PartialEq, Eq)]
pub struct RingSettings {
    /// 1 to 8, as the receive queues.
    pub tx_queues: u8,
    pub rx_queues: u8,
    /// In descriptors, as the two after it.
    pub tx_ring: u32,
    pub rx_ring1: u32,
    pub rx_ring2: u32,
    /// The BODY descriptors behind each HEAD of ring 1.
    pub bodies: u32,
    pub tx_data: bool,
    pub rx_data: bool,
    /// The bytes of a transmit buffer.
    pub piece: u32,
}

/// A guest's receive filter.
#[derive(Drop)]
pub struct FilterSettings {
    /// A sum of UCAST 1, MCAST 2, BCAST 4, ALL_MULTI 8 and PROMISC 16.
    pub mode: u32,
    /// The group addresses, each once.
    pub multicast: List<[u8; MAC_SIZE]>,
    /// VID v is bit v mod 32 of word v div 32.
    pub vlans: [u32; VLAN_WORDS],
}

/// A guest's receive side scaling.
#[derive(Clone, Copy, Debug, Drop, PartialEq, Eq)]
pub struct RssSettings {
    /// A sum of IPv4 1, TCP over IPv4 2, IPv6 4, TCP over IPv6 8.
    pub types: u16,
    /// The key of the Toeplitz hash.
    pub key: [u8; KEY_SIZE],
    pub entries: Entries,
}

/// What an action does.
#[derive(Drop)]
pub enum DeedSettings {
    Quiesce,
    Activate,
    Reset,
    Mode { mode: u32 },
    Multicast { groups: List<[u8; MAC_SIZE]> },
    Vlans { table: [u32; VLAN_WORDS] },
    Rss { entries: Entries },
}

/// An action of a script, done before the captured frame with the number `at`.
#[derive(Drop)]
pub struct ActionSettings {
    pub at: u32,
    pub deed: DeedSettings,
}

/// A guest.
#[derive(Drop)]
pub struct GuestSettings {
    pub port: PortSettings,
    pub rings: RingSettings,
    pub filter: FilterSettings,
    pub rss: Option<RssSettings>,
    /// At most 256 actions, in the order of their numbers.
    pub script: List<ActionSettings>,
}

/// A whole configuration.
#[derive(Drop)]
pub struct Settings {
    /// What the names of the files begin with.
    pub output: Text,
    /// After so many copies that reached a guest its driver polls.
    pub poll_every: u32,
    /// 1 to 16 guests.
    pub guests: List<GuestSettings>,
}
