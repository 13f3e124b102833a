//! What a driver asks of its device: queues, ring sizes, MTU, filter, RSS, interrupts, data rings, tags and checksums. The type keeps
//! every range that the checks of an image ask for, so each setup can be written and is read back.

ghost use Rattle.std.specs.Prelude.{◌≡◌, ◌<◌, ◌≤◌, ◌^◌, ◌%◌, ℕ, length, slice_index, Some};
ghost use Rattle.vmx_layout.specs.declared.addresses.TheConstants.{MAX_RING_SIZE};
ghost use Rattle.vmx_layout.specs.declared.register.TheConstants.{MAX_QUEUES};
ghost use Rattle.vmx_shared_area.specs.declared.offsets.TheConstants.{MIN_RING, RING_STEP, MIN_MTU, MAX_MTU, LEVEL_COUNT};
ghost use Rattle.vmx_shared_area.specs.declared.rss.Rss.{Rss as RssSetting};

use crate::offsets::{LEVEL_COUNT, RX_MODE_BCAST, RX_MODE_MCAST, RX_MODE_UCAST, VLAN_WORDS};
use crate::{Filter, MacTable, Rss};

/// The descriptors of a transmit ring by default: `VMXNET3_DEF_TX_RING_SIZE` of Linux's `vmxnet3_defs.h`.
pub const DEFAULT_TX_RING: u32 = 512;

/// The descriptors of each receive ring by default (own to this project).
pub const DEFAULT_RX_RING: u32 = 256;

/// The MTU by default, in bytes: that of Ethernet.
pub const DEFAULT_MTU: u32 = 1_500;

/// A driver's setup.
#[derive(Clone, Copy, Debug, PartialEq, Eq)]
pub struct Setup {
    /// The number of transmit queues, 1 to 8.
    pub tx_queues: u8,
    /// The number of receive queues, 1 to 8.
    pub rx_queues: u8,
    /// The descriptors of each transmit ring: a multiple of 32 from 32 to 4,096.
    pub tx_ring: u32,
    /// The descriptors of ring 1 of each receive queue, in the same range.
    pub rx_ring1: u32,
    /// The descriptors of ring 2 of each receive queue, in the same range.
    pub rx_ring2: u32,
    /// The MTU, 60 to 9,000 bytes.
    pub mtu: u32,
    /// What is let in.
    pub filter: Filter,
    /// The RSS setting, if there is one. Each entry of its table, below its size, names one of the receive queues.
    pub rss: Option<Rss>,
    /// Whether an interrupt masks itself when it is raised.
    pub auto_mask: bool,
    /// The moderation level of each interrupt.
    pub levels: [u8; LEVEL_COUNT],
    /// Whether each transmit queue has a data ring, of as many entries as its ring has descriptors.
    pub tx_data: bool,
    /// Whether each receive queue has a data ring, of entries of 128 bytes.
    pub rx_data: bool,
    /// Whether the device takes the VLAN tag out of what it delivers.
    pub strip: bool,
    /// Whether checksums of received frames are checked; stored without effect.
    pub csum: bool,
    ghost tx_queues_low: { 1 ≤ tx_queues },
    ghost tx_queues_high: { tx_queues ≤ MAX_QUEUES },
    ghost rx_queues_low: { 1 ≤ rx_queues },
    ghost rx_queues_high: { rx_queues ≤ MAX_QUEUES },
    ghost tx_ring_low: { MIN_RING ≤ tx_ring },
    ghost tx_ring_high: { tx_ring ≤ MAX_RING_SIZE },
    ghost tx_ring_step: { tx_ring % RING_STEP ≡ 0 },
    ghost rx_ring1_low: { MIN_RING ≤ rx_ring1 },
    ghost rx_ring1_high: { rx_ring1 ≤ MAX_RING_SIZE },
    ghost rx_ring1_step: { rx_ring1 % RING_STEP ≡ 0 },
    ghost rx_ring2_low: { MIN_RING ≤ rx_ring2 },
    ghost rx_ring2_high: { rx_ring2 ≤ MAX_RING_SIZE },
    ghost rx_ring2_step: { rx_ring2 % RING_STEP ≡ 0 },
    ghost mtu_low: { MIN_MTU ≤ mtu },
    ghost mtu_high: { mtu ≤ MAX_MTU },
    ghost entries: { (r : RssSetting) → rss ≡ Some r → (i : ℕ) → i < r.size → slice_index r.table i < rx_queues },
    ghost levels_length: { length levels ≡ LEVEL_COUNT },
    ghost levels_fit: { (i : ℕ) → slice_index levels i < 2 ^ 8 },
}

impl Setup {
    ghost use Rattle.vmx_shared_area.specs.Defaults.{IsDefault};

    /// The setup of a guest whose configuration says nothing of it: a queue each way, rings of 512, 256 and 256 descriptors, an MTU of
    /// 1,500 bytes, the receive modes UCAST, MCAST and BCAST without a multicast address, all VLANs, no RSS, interrupts that mask
    /// themselves, all moderation levels 0, and no data rings, no tags taken out, no checksums.
    pub fn by_default() -> Setup
        ensures default { IsDefault result }
    {
        let filter = Filter {
            mode: RX_MODE_UCAST | RX_MODE_MCAST | RX_MODE_BCAST,
            multicast: MacTable::empty(),
            vlans: [u32::MAX; VLAN_WORDS],
        };
        Setup {
            tx_queues: 1,
            rx_queues: 1,
            tx_ring: DEFAULT_TX_RING,
            rx_ring1: DEFAULT_RX_RING,
            rx_ring2: DEFAULT_RX_RING,
            mtu: DEFAULT_MTU,
            filter,
            rss: None,
            auto_mask: true,
            levels: [0; LEVEL_COUNT],
            tx_data: false,
            rx_data: false,
            strip: false,
            csum: false,
        }
    }
}
