//! The input of the hash: the source address, the destination address, and for a TCP kind the two ports, big-endian.

ghost use Rattle.std.specs.Prelude.{◌≡◌, ◌+◌, ◌++◌, ◌≤◌, length, take};
ghost use Rattle.vmx_rss.specs.Queues.{input_of, ports_bytes, bytes_of_port, counted_ports as counted_ports_of};

use crate::hash::MAX_INPUT_LEN;
use vmx_frame::{Flow, Ports};

/// Writes the input of a flow at the front, and gives its length in bytes, at most 36.
pub fn put_input(flow: &Flow, tcp: bool, input: &mut [u8]) -> usize
    requires room { length input.old ≡ MAX_INPUT_LEN }
    ensures len { result ≤ MAX_INPUT_LEN }
    ensures bytes { take result input.new ≡ input_of tcp flow.now }
{
    match flow {
        Flow::NonIp => 0,
        Flow::V4 {
            source,
            target,
            ports,
        } => put_flow(input, source, target, counted_ports(tcp, *ports)),
        Flow::V6 {
            source,
            target,
            ports,
        } => put_flow(input, source, target, counted_ports(tcp, *ports)),
    }
}

/// The ports that are hashed: none for a kind without them.
fn counted_ports(tcp: bool, ports: Option<Ports>) -> Option<Ports>
    ensures ports { result ≡ counted_ports_of tcp ports }
{
    if tcp { ports } else { None }
}

/// Writes addresses, and ports where there are some, at the front, and gives their length together.
fn put_flow(input: &mut [u8], source: &[u8], target: &[u8], ports: Option<Ports>) -> usize
    requires room { length source.now + length target.now + 4 ≤ length input.old }
    ensures len { result ≤ length source.now + length target.now + 4 }
    ensures bytes { take result input.new ≡ source.now ++ (target.now ++ ports_bytes ports) }
{
    match ports {
        None => put_three(input, source, target, &[]),
        Some(ports) => {
            let ports = four_bytes(ports);
            put_three(input, source, target, &ports)
        }
    }
}

/// The two ports in the order of the wire.
fn four_bytes(ports: Ports) -> [u8; 4]
    ensures bytes { result ≡ bytes_of_port ports.source ++ bytes_of_port ports.target }
{
    [
        (ports.source / 256) as u8,
        (ports.source % 256) as u8,
        (ports.target / 256) as u8,
        (ports.target % 256) as u8,
    ]
}

/// Writes three parts at the front, one behind the other, and gives their length together.
fn put_three(input: &mut [u8], first: &[u8], second: &[u8], third: &[u8]) -> usize
    requires room { length first.now + length second.now + length third.now ≤ length input.old }
    ensures len { result ≡ length first.now + length second.now + length third.now }
    ensures bytes { take result input.new ≡ first.now ++ (second.now ++ third.now) }
{
    put(input, 0, first);
    put(input, first.len(), second);
    put(input, first.len() + second.len(), third);
    first.len() + second.len() + third.len()
}

/// Writes a part at a place.
fn put(bytes: &mut [u8], at: usize, part: &[u8])
    requires room { at + length part.now ≤ length bytes.old }
    ensures bytes { take (at + length part.now) bytes.new ≡ take at bytes.old ++ part.now }
{
    bytes[at..at + part.len()].copy_from_slice(part);
}
