//! The targets of a frame.
//!
//! A frame never goes back to its sender. Each other port has one reason or several to be a target, and is listed
//! once: it owns the destination, the destination is a group address, or it is a sniffer.

ghost use Rattle.std.specs.Prelude.{◌≡◌, ◌-◌, ◌<◌, ◌≤◌, length, take, drop, replicate};
ghost use Rattle.vmx_switch.specs.Ports.{is_target as is_target_of, target_ports};

use crate::answer::{MAX_PORTS, Targets};
use crate::table::Table;
use vmx_frame::{ADDRESS_LEN, Class, HEADER_LEN, class};

/// The ports that a frame from port `from` goes to, in port order.
///
/// Condition: `from` is a port of the table, and the frame has at least 14 bytes.
#[tactic(auto, unfolding(crate::specs::Ports::target_ports))]
pub fn targets(table: &Table, from: u32, frame: &[u8]) -> Targets
    requires port { from < length table.now.macs }
    requires header { HEADER_LEN ≤ length frame.now }
    ensures count { result.count ≡ length (target_ports table.now from frame.now) }
    ensures ports { take result.count result.ports ≡ target_ports table.now from frame.now }
    ensures rest { drop result.count result.ports ≡ replicate (MAX_PORTS - result.count) 0 }
{
    let mut ports = [0; MAX_PORTS];
    let mut count: u32 = 0;
    for port in 0..table.len() {
        if is_target(table, from, frame, port) {
            ports[count as usize] = port;
            count += 1;
        }
    }
    Targets { count, ports }
}

/// Whether a frame from port `from` goes to this port.
#[tactic(auto, unfolding(crate::specs::Ports::is_target))]
fn is_target(table: &Table, from: u32, frame: &[u8], port: u32) -> bool
    requires port { port < length table.now.macs }
    requires header { HEADER_LEN ≤ length frame.now }
    ensures target { result ≡ is_target_of table.now from frame.now port }
{
    port != from
        && (names_group(class(frame))
            || table.owns(port, &frame[..ADDRESS_LEN])
            || table.sniffs(port))
}

ghost use Rattle.vmx_frame.specs.Ethernet.{names_group as names_group_of};

/// Whether a destination of this class is a group of stations.
fn names_group(class: Class) -> bool
    ensures group { result ≡ names_group_of class }
{
    match class {
        Class::Broadcast | Class::Multicast => true,
        Class::Unicast => false,
    }
}
