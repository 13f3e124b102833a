//! The limits of a configuration and of a replay. They are own to this project.

/// The most bytes of a guest's name.
pub const MAX_NAME: usize = 16;

/// The most bytes of a plan's prefix.
pub const MAX_PREFIX: usize = 64;

/// The greatest VLAN that a guest can have: 4,095 is reserved by IEEE 802.1Q.
pub const MAX_VLAN: u16 = 4_094;

/// The most actions of a script.
pub const MAX_ACTIONS: usize = 256;

/// The greatest number of an action.
pub const MAX_NUMBER: u32 = 262_144;

/// The most copies that may reach a guest before its driver polls.
pub const MAX_COPIES: u32 = 4_096;

/// The most descriptors of all rings of a plan.
pub const MAX_ALL_DESCRIPTORS: u32 = 65_536;

/// The most records of all captures of a plan.
pub const MAX_RECORDS: usize = 262_144;

/// The most bytes of all captures of a plan.
pub const MAX_BYTES: usize = 67_108_864;

/// The bytes of a record of a capture before its frame (the pcap format).
pub const RECORD_HEADER: usize = 16;

/// The bytes that a frame may have above the MTU: an Ethernet header of 14 and a VLAN tag of 4.
pub const ABOVE_MTU: usize = 18;

/// The packets that each link of a replay holds.
pub const LINK_CAPACITY: u64 = 64;
