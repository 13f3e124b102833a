//! The receive queue and the transmit queue of a flow.
//!
//! Both are functions of the flow and the setting alone, so that a flow stays on its queue.

ghost use Rattle.std.specs.Prelude.{◌≡◌, ◌<◌, ◌≤◌};
ghost use Rattle.std.specs.Option.{option_copied};
ghost use Rattle.vmx_rss.specs.Queues.{allows as allows_of, has_ports as has_ports_of, kind_of as kind_by, flow_hash as flow_hash_of, choice_of, tx_queue_of};

use crate::answer::{Choice, KIND_IPV4, KIND_IPV6, KIND_TCP_IPV4, KIND_TCP_IPV6, NO_KIND};
use crate::hash::{MAX_INPUT_LEN, toeplitz};
use crate::input::put_input;
use vmx_frame::Flow;
use vmx_layout::MAX_QUEUES;
use vmx_shared_area::offsets::KEY_SIZE;
use vmx_shared_area::{MICROSOFT_KEY, Rss};

/// The bit of `Rss::types` that allows IPv4 addresses (Linux vmxnet3_defs.h, VMXNET3_RSS_HASH_TYPE_IPV4).
pub const TYPE_IPV4: u16 = 1;

/// The bit that allows IPv4 addresses and TCP ports (VMXNET3_RSS_HASH_TYPE_TCP_IPV4).
pub const TYPE_TCP_IPV4: u16 = 2;

/// The bit that allows IPv6 addresses (VMXNET3_RSS_HASH_TYPE_IPV6).
pub const TYPE_IPV6: u16 = 4;

/// The bit that allows IPv6 addresses and TCP ports (VMXNET3_RSS_HASH_TYPE_TCP_IPV6).
pub const TYPE_TCP_IPV6: u16 = 8;

/// All four types of flow.
pub const ALL_TYPES: u16 = 15;

/// The receive queue of a flow, with its hash and kind.
///
/// The kind is 2 or 4 where the flow has ports and its family's TCP type is allowed, else 1 or 3 where the family's
/// address type is. The queue is the entry of the indirection table at the hash modulo the table's size. Without a
/// setting, and for kind 0, all three are 0.
pub fn choose(rss: Option<&Rss>, flow: &Flow) -> Choice
    ensures choice { result ≡ choice_of (option_copied rss.entry) flow.now }
{
    let none = Choice {
        queue: 0,
        hash: 0,
        kind: NO_KIND,
    };
    let Some(rss) = rss else {
        return none;
    };
    let kind = kind_of(rss.types, flow);
    if kind == NO_KIND {
        return none;
    }
    let hash = flow_hash(&rss.key, kind, flow);
    let queue = u32::from(rss.table[(hash % u32::from(rss.size)) as usize]);
    Choice { queue, hash, kind }
}

/// The transmit queue of a flow, below `queues`: the hash under Microsoft's key with all four types allowed, modulo
/// the number of queues, and 0 for a flow that is not IP.
///
/// Condition: 1 to 8 queues.
pub fn tx_queue(flow: &Flow, queues: u32) -> u32
    requires some { 1 ≤ queues }
    requires few { queues ≤ MAX_QUEUES }
    ensures queue { result ≡ tx_queue_of flow.now queues }
    ensures below { result < queues }
{
    let kind = kind_of(ALL_TYPES, flow);
    if kind == NO_KIND {
        return 0;
    }
    flow_hash(&MICROSOFT_KEY, kind, flow) % queues
}

/// The kind of a flow under the allowed types.
fn kind_of(types: u16, flow: &Flow) -> u32
    ensures kind { result ≡ kind_by types flow.now }
{
    match flow {
        Flow::NonIp => NO_KIND,
        Flow::V4 { ports, .. } => {
            if ports.is_some() && allows(types, TYPE_TCP_IPV4) {
                KIND_TCP_IPV4
            } else if allows(types, TYPE_IPV4) {
                KIND_IPV4
            } else {
                NO_KIND
            }
        }
        Flow::V6 { ports, .. } => {
            if ports.is_some() && allows(types, TYPE_TCP_IPV6) {
                KIND_TCP_IPV6
            } else if allows(types, TYPE_IPV6) {
                KIND_IPV6
            } else {
                NO_KIND
            }
        }
    }
}

/// Whether the bit of a type of flow is set.
fn allows(types: u16, mask: u16) -> bool
    requires mask { 1 ≤ mask }
    ensures allowed { result ≡ allows_of types mask }
{
    types / mask % 2 == 1
}

/// Whether the TCP ports are hashed for this kind.
fn has_ports(kind: u32) -> bool
    ensures ports { result ≡ has_ports_of kind }
{
    kind == KIND_TCP_IPV4 || kind == KIND_TCP_IPV6
}

/// The hash of a flow of this kind.
#[tactic(auto, unfolding(crate::specs::Queues::flow_hash))]
fn flow_hash(key: &[u8; KEY_SIZE], kind: u32, flow: &Flow) -> u32
    ensures hash { result ≡ flow_hash_of key.now kind flow.now }
{
    let mut input = [0; MAX_INPUT_LEN];
    let len = put_input(flow, has_ports(kind), &mut input);
    toeplitz(key, &input[..len])
}
