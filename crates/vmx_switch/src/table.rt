//! The table of the switch: for each port its address, and whether it is a sniffer.
//!
//! Ports are numbered from 0 in the order of the two lists that the table is made of. A table never changes.

ghost use Rattle.std.specs.Prelude.{◌≤◌, take};
ghost use Rattle.vmx_switch.specs.Ports.{Wiring};
ghost use Rattle.vmx_switch.specs.declared.answer.TheConstants.{MAX_PORTS};

use crate::answer::MAX_PORTS;
use std::marker::Model;
use vmx_frame::ADDRESS_LEN;

/// The ports of a switch, 1 to 16.
#[derive(Drop)]
pub struct Table {
    macs: [[u8; ADDRESS_LEN]; MAX_PORTS],
    sniffers: [bool; MAX_PORTS],
    count: u32,
}

impl Model for Table {
    ghost Value = { Wiring };

    ghost view = { λ t. record { macs = take t.count t.macs; sniffers = take t.count t.sniffers } };

    ghost invariant = { λ t. t.count ≤ MAX_PORTS };
}

impl Table {
    ghost use Rattle.std.specs.Prelude.{◌≡◌, ◌<◌, length, IsTrue};
    ghost use Rattle.vmx_switch.specs.Ports.{all_unicast, are_distinct, is_wiring, owns, sniffs};

    /// The table of these ports: port i has the address `macs[i]` and is a sniffer where `sniffers[i]` says so.
    ///
    /// Condition: both lists have the same length, 1 to 16, and the addresses are unicast and all different.
    /// `Table::fits` tests it.
    pub fn new(macs: &[[u8; ADDRESS_LEN]], sniffers: &[bool]) -> Self
        requires same_len { length sniffers.now ≡ length macs.now }
        requires some { 1 ≤ length macs.now }
        requires few { length macs.now ≤ MAX_PORTS }
        requires unicast { IsTrue (all_unicast macs.now) }
        requires distinct { IsTrue (are_distinct macs.now) }
        ensures wiring { result ≡ record { macs = macs.now; sniffers = sniffers.now } }
    {
        Table {
            macs: padded_macs(macs),
            sniffers: padded_sniffers(sniffers),
            count: macs.len() as u32,
        }
    }

    /// Whether a table can be made of these two lists.
    pub fn fits(macs: &[[u8; ADDRESS_LEN]], sniffers: &[bool]) -> bool
        ensures fits { result ≡ is_wiring macs.now sniffers.now }
    {
        macs.len() == sniffers.len()
            && !macs.is_empty()
            && macs.len() <= MAX_PORTS
            && are_unicast(macs)
            && have_no_repeat(macs)
    }

    /// The number of ports, at most 16.
    pub fn len(&self) -> u32
        ensures few { result ≤ MAX_PORTS }
        ensures ports { result ≡ length self.now.macs }
    {
        self.count
    }

    /// Whether a port owns this address.
    pub fn owns(&self, port: u32, address: &[u8]) -> bool
        requires port { port < length self.now.macs }
        ensures owner { result ≡ owns self.now port address.now }
    {
        self.macs[port as usize].as_slice() == address
    }

    /// Whether a port is a sniffer.
    pub fn sniffs(&self, port: u32) -> bool
        requires port { port < length self.now.macs }
        ensures sniffer { result ≡ sniffs self.now port }
    {
        self.sniffers[port as usize]
    }
}

ghost use Rattle.std.specs.Prelude.{◌≡◌, length, bytes_eq};
ghost use Rattle.std.specs.List.{list_any};
ghost use Rattle.vmx_switch.specs.Ports.{all_unicast, are_distinct};

#[tactic(auto, using(std::proofs::lemmas::Slice::overwrites))]
fn padded_macs(macs: &[[u8; ADDRESS_LEN]]) -> [[u8; ADDRESS_LEN]; MAX_PORTS]
    requires few { length macs.now ≤ MAX_PORTS }
    ensures macs { take (length macs.now) result ≡ macs.now }
{
    let mut padded = [[0; ADDRESS_LEN]; MAX_PORTS];
    padded[..macs.len()].copy_from_slice(macs);
    padded
}

#[tactic(auto, using(std::proofs::lemmas::Slice::overwrites))]
fn padded_sniffers(sniffers: &[bool]) -> [bool; MAX_PORTS]
    requires few { length sniffers.now ≤ MAX_PORTS }
    ensures sniffers { take (length sniffers.now) result ≡ sniffers.now }
{
    let mut padded = [false; MAX_PORTS];
    padded[..sniffers.len()].copy_from_slice(sniffers);
    padded
}

/// Whether no address names a group.
fn are_unicast(macs: &[[u8; ADDRESS_LEN]]) -> bool
    ensures unicast { result ≡ all_unicast macs.now }
{
    macs.iter().all(|mac| mac[0] % 2 == 0)
}

/// Whether no address stands twice.
fn have_no_repeat(macs: &[[u8; ADDRESS_LEN]]) -> bool
    ensures distinct { result ≡ are_distinct macs.now }
{
    for (i, mac) in macs.iter().enumerate() {
        if stands_in(mac, &macs[i + 1..]) {
            return false;
        }
    }
    true
}

/// Whether an address stands in a list.
fn stands_in(address: &[u8; ADDRESS_LEN], macs: &[[u8; ADDRESS_LEN]]) -> bool
    ensures found { result ≡ list_any (bytes_eq address.now) macs.now }
{
    macs.iter().any(|mac| address == mac)
}
