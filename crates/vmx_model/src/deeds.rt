//! What a script asks of a guest's driver, and when. Own to this project.

use vmx_io::List;
use vmx_shared_area::MacTable;

/// A step of a script.
#[derive(Drop)]
pub enum Deed {
    /// The device is quiesced: until an activate, frames are not sent, and frames that arrive are refused.
    Quiesce,
    /// A quiesced device is activated again, with new queues.
    Activate,
    /// The device is reset at once and activated again, with new queues.
    Reset,
    /// Another receive mode, below 32: UCAST 1, MCAST 2, BCAST 4, ALL_MULTI 8, PROMISC 16.
    Mode { mode: u32 },
    /// Another multicast table.
    Multicast { table: MacTable },
    /// Another VLAN table: the VLAN with number `v` is bit `v % 32` of word `v / 32`.
    Vlans { table: [u32; 128] },
    /// Another indirection table of 1 to 128 entries, each below the number of receive queues. Those from `size` on are 0.
    Rss { size: u16, table: [u8; 128] },
}

/// A deed, done before the frame of the number `at`, counted from 0.
#[derive(Drop)]
pub struct Action {
    pub at: u32,
    pub deed: Deed,
}
