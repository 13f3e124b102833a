//! A guest of a plan: its port's address, its driver's setup, the capture whose frames it sends, and its script. The type keeps the
//! ranges of a configuration; they are own to this project.

ghost use Rattle.std.specs.Prelude.{◌≡◌, ◌≤◌, ◌%◌, ℕ, length, slice_index, is_some, true};
ghost use Rattle.vmx_ends.specs.declared.limits.TheConstants.{MAX_PIECE, MAX_BODIES};
ghost use Rattle.vmx_ends.specs.Queues.{least_piece};
ghost use Rattle.vmx_model.specs.declared.limits.TheConstants.{MAX_ACTIONS};
ghost use Rattle.vmx_model.specs.Ranges.{is_name, fits_vlan, fits_setup, fits_script};

use crate::deeds::Action;
use vmx_io::{List, Text};
use vmx_pcap::Capture;
use vmx_shared_area::Setup;

/// A guest at the switch. Where its numbers are known at run time alone, [`GuestPlan::of`] makes it of its parts.
#[derive(Drop)]
pub struct GuestPlan {
    /// 1 to 16 bytes of `a` to `z`, `0` to `9` and `_`.
    pub name: Text,
    /// The permanent Ethernet address, which is no group address.
    pub mac: [u8; 6],
    /// Whether the switch copies every frame to this guest.
    pub sniffer: bool,
    /// The VLAN whose tag each frame without one is given, 1 to 4,094.
    pub vlan: Option<u16>,
    /// The bytes of a transmit buffer: 640 to 4,096 where the setup has transmit data rings, else 576 to 4,096.
    pub piece: u32,
    /// The BODY descriptors behind each HEAD of ring 1, 0 to 2.
    pub bodies: u32,
    /// What the driver asks for at its first activation: interrupts mask themselves, at moderation level 0; no checksums are checked;
    /// each address of the multicast table is a group address.
    pub setup: Setup,
    /// The frames that the guest sends, in order.
    pub capture: Capture,
    /// At most 256 actions in the order in which they are done.
    pub script: List<Action>,
    pub ghost name_fits: { is_name name ≡ true },
    pub ghost unicast: { slice_index mac 0 % 2 ≡ 0 },
    pub ghost vlan_fits: { fits_vlan vlan ≡ true },
    pub ghost piece_low: { least_piece setup.tx_data ≤ piece },
    pub ghost piece_high: { piece ≤ MAX_PIECE },
    pub ghost bodies_high: { bodies ≤ MAX_BODIES },
    pub ghost setup_fits: { fits_setup setup ≡ true },
    pub ghost script_length: { length script ≤ MAX_ACTIONS },
    pub ghost script_fits: { fits_script setup.rx_queues (is_some setup.rss) script ≡ true },
}
