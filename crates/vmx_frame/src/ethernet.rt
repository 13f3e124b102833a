//! The Ethernet header: six bytes of destination, six of source, then the type or a tag.
//!
//! A tag (IEEE 802.1Q) is the type 0x8100 in bytes 12 and 13 and two bytes behind it, the lower 12 bits of which are
//! the VLAN. A frame that is too short to hold tag and type, below 18 bytes, has none (own to this project).

ghost use Rattle.std.specs.Prelude.{◌≡◌, ◌<◌, ◌≤◌, length, IfSome};
ghost use Rattle.vmx_frame.specs.Ethernet.{class_of, is_tagged as is_tagged_of, tag_of, vlan_of};

use crate::bytes::u16_at;
use crate::kinds::Class;

/// Bytes of a station's address (IEEE 802.3). The destination's stands first, the source's behind it.
pub const ADDRESS_LEN: usize = 6;

/// Bytes of the two addresses, and the place of the type, or of a tag's type, behind them (IEEE 802.3).
pub const TYPE_AT: usize = 12;

/// Bytes of a header without a tag (IEEE 802.3): two addresses and the type. Each frame here has them.
pub const HEADER_LEN: usize = 14;

/// The place of a tag's two control bytes, behind its type (IEEE 802.1Q).
pub const TCI_AT: usize = 14;

/// The place of the type in a frame with a tag, behind the tag's four bytes (IEEE 802.1Q).
pub const TAGGED_TYPE_AT: usize = 16;

/// Bytes of a header with a tag: two addresses, the tag and the type. A shorter frame has no tag (own to this project).
pub const TAGGED_HEADER_LEN: usize = 18;

/// The type of a tag, big-endian in its first two bytes (IEEE 802.1Q).
pub const TAG_TYPE: u16 = 0x8100;

/// How many VLANs there are: a tag's lower 12 control bits name one (IEEE 802.1Q).
pub const VLAN_COUNT: u16 = 4_096;

/// The class of a frame's destination address: broadcast is six bytes 0xFF, multicast any other whose first byte is odd.
///
/// Condition: the frame has at least 14 bytes.
#[tactic(auto, unfolding(crate::specs::Ethernet::class_of))]
pub fn class(frame: &[u8]) -> Class
    requires header { HEADER_LEN ≤ length frame.now }
    ensures class { result ≡ class_of frame.now }
{
    if frame[..ADDRESS_LEN] == [0xff; ADDRESS_LEN] {
        Class::Broadcast
    } else if frame[0] % 2 == 1 {
        Class::Multicast
    } else {
        Class::Unicast
    }
}

/// The VLAN of a frame, 0 to 4,095, where it has a tag.
///
/// Condition: the frame has at least 14 bytes.
#[tactic(auto, unfolding(crate::specs::Ethernet::is_tagged, crate::specs::Ethernet::tag_of))]
pub fn tag(frame: &[u8]) -> Option<u16>
    requires header { HEADER_LEN ≤ length frame.now }
    ensures vlan { result ≡ tag_of frame.now }
    ensures range { IfSome result (λ vlan. vlan < VLAN_COUNT) }
{
    if is_tagged(frame) {
        Some(vlan(u16_at(frame, TCI_AT)))
    } else {
        None
    }
}

/// The VLAN that a tag's two control bytes name; above it stand priority and drop bit (IEEE 802.1Q).
fn vlan(tci: u16) -> u16
    ensures vlan { result ≡ vlan_of tci }
    ensures range { result < VLAN_COUNT }
{
    tci % VLAN_COUNT
}

/// Whether a frame has a tag: it has at least 18 bytes, and the type of a tag in bytes 12 and 13.
///
/// Condition: the frame has at least 14 bytes.
#[tactic(auto, unfolding(crate::specs::Ethernet::is_tagged))]
pub fn is_tagged(frame: &[u8]) -> bool
    requires header { HEADER_LEN ≤ length frame.now }
    ensures tagged { result ≡ is_tagged_of frame.now }
{
    frame.len() >= TAGGED_HEADER_LEN && u16_at(frame, TYPE_AT) == TAG_TYPE
}
