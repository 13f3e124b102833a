//! The rules of the receive filter, in their order: PROMISC, then the VLAN, then the class of the destination.

ghost use Rattle.std.specs.Prelude.{◌≡◌, ◌<◌, ◌≤◌, length, bytes_eq};
ghost use Rattle.std.specs.List.{list_any};
ghost use Rattle.std.specs.Option.{ForSome};
ghost use Rattle.vmx_filters.specs.Admission.{has_mode as has_mode_of, is_foreign as is_foreign_of, is_allowed as is_allowed_of, is_listed as is_listed_of, pass_or, class_verdict as class_verdict_of, verdict_of};

use crate::answer::{Rule, Verdict};
use vmx_frame::{ADDRESS_LEN, Class, HEADER_LEN, VLAN_COUNT, class, tag};
use vmx_shared_area::offsets::VLAN_WORDS;
use vmx_shared_area::{
    Filter, MacTable, RX_MODE_ALL_MULTI, RX_MODE_BCAST, RX_MODE_MCAST, RX_MODE_PROMISC,
    RX_MODE_UCAST,
};

/// Bits of a word of the VLAN table: VLAN v is bit v % 32 of word v / 32 (Linux vmxnet3_defs.h, VMXNET3_SET_VFTABLE_ENTRY).
const VLANS_PER_WORD: u16 = 32;

/// Whether a device with the address `mac` lets a frame in under this filter.
///
/// With PROMISC it does (the modes are `RX_MODE_UCAST` and its fellows). Else a tag whose VLAN is not 0 and not in the VLAN table gives the rule `Vlan`. Else a unicast
/// frame needs UCAST and the destination `mac`, a broadcast frame needs BCAST, and a multicast frame needs ALL_MULTI, or
/// MCAST and its destination in the multicast table; what is missing gives the rule of that class.
///
/// Condition: the frame has at least 14 bytes.
#[tactic(auto, unfolding(crate::specs::Admission::verdict_of))]
pub fn admits(filter: &Filter, mac: &[u8; ADDRESS_LEN], frame: &[u8]) -> Verdict
    requires header { HEADER_LEN ≤ length frame.now }
    ensures verdict { result ≡ verdict_of filter.now mac.now frame.now }
{
    if has_mode(filter.mode, RX_MODE_PROMISC) {
        return Verdict::Yes;
    }
    if is_foreign(&filter.vlans, tag(frame)) {
        return Verdict::No { rule: Rule::Vlan };
    }
    class_verdict(class(frame), filter, mac, &frame[..ADDRESS_LEN])
}

/// The verdict on a frame of this class, by its destination.
fn class_verdict(
    class: Class,
    filter: &Filter,
    mac: &[u8; ADDRESS_LEN],
    destination: &[u8],
) -> Verdict
    ensures verdict { result ≡ class_verdict_of class filter.now mac.now destination.now }
{
    match class {
        Class::Unicast => pass(
            has_mode(filter.mode, RX_MODE_UCAST) && destination == mac.as_slice(),
            Rule::Unicast,
        ),
        Class::Broadcast => pass(has_mode(filter.mode, RX_MODE_BCAST), Rule::Broadcast),
        Class::Multicast => pass(
            has_mode(filter.mode, RX_MODE_ALL_MULTI)
                || has_mode(filter.mode, RX_MODE_MCAST)
                    && is_listed(&filter.multicast, destination),
            Rule::Multicast,
        ),
    }
}

/// Lets a frame in, or names the rule that refuses it.
fn pass(passes: bool, rule: Rule) -> Verdict
    ensures verdict { result ≡ pass_or passes rule }
{
    if passes {
        Verdict::Yes
    } else {
        Verdict::No { rule }
    }
}

/// Whether the bit of a receive mode is set.
fn has_mode(mode: u32, mask: u32) -> bool
    requires mask { 1 ≤ mask }
    ensures mode { result ≡ has_mode_of mode mask }
{
    mode / mask % 2 == 1
}

/// Whether a tag names a VLAN that is not let in.
fn is_foreign(vlans: &[u32; VLAN_WORDS], vlan: Option<u16>) -> bool
    requires range { ForSome vlan (λ v. v < VLAN_COUNT) }
    ensures foreign { result ≡ is_foreign_of vlans.now vlan }
{
    match vlan {
        None => false,
        Some(vlan) => vlan != 0 && !is_allowed(vlans, vlan),
    }
}

/// Whether a VLAN's bit is set in the VLAN table.
fn is_allowed(vlans: &[u32; VLAN_WORDS], vlan: u16) -> bool
    requires range { vlan < VLAN_COUNT }
    ensures allowed { result ≡ is_allowed_of vlans.now vlan }
{
    vlans[usize::from(vlan / VLANS_PER_WORD)] >> (vlan % VLANS_PER_WORD) & 1 == 1
}

/// Whether an address stands in the multicast table.
fn is_listed(table: &MacTable, address: &[u8]) -> bool
    ensures listed { result ≡ is_listed_of table.now address.now }
{
    is_among(&table.macs[..table.count as usize], address)
}

/// Whether an address stands in a list.
fn is_among(macs: &[[u8; ADDRESS_LEN]], address: &[u8]) -> bool
    ensures found { result ≡ list_any (λ mac. bytes_eq mac address.now) macs.now }
{
    macs.iter().any(|mac| mac.as_slice() == address)
}
