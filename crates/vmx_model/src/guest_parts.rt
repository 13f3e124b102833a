//! What a guest of a plan is made of, in whatever ranges: numbers and texts that are known at run time alone, as those of a
//! configuration, of a generator or of a test.

use crate::deeds::Action;
use vmx_io::{List, Text};
use vmx_pcap::Capture;
use vmx_shared_area::Setup;

/// The parts of a [`GuestPlan`](crate::GuestPlan), whose fields give their ranges. Nothing is known of them until
/// [`GuestPlan::of`](crate::GuestPlan::of) has tested them.
#[derive(Drop)]
pub struct GuestParts {
    pub name: Text,
    /// The permanent Ethernet address.
    pub mac: [u8; 6],
    pub sniffer: bool,
    /// The VLAN of its frames.
    pub vlan: Option<u16>,
    /// The bytes of a transmit buffer.
    pub piece: u32,
    /// The BODY descriptors behind each HEAD of ring 1.
    pub bodies: u32,
    pub setup: Setup,
    pub capture: Capture,
    pub script: List<Action>,
}
