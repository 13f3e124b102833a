//! The frames of the tests.

ghost use Rattle.std.specs.Prelude.{◌≡◌, ◌≤◌, ◌<◌, ◌+◌, ◌∷◌, ◌++◌, replicate, IfOk, vec_len};
ghost use Rattle.vmx_one_guest.specs.Samples.{sample_bytes, to_guest, tagged, flow as flow_bytes};

use std::alloc::{AllocError, Global};
use vmx_two_guests::frame_to;

/// The tag of the tagged frames: priority 1 and VLAN 5.
pub const TCI: u16 = 0x2005;

/// A frame of a test, the shortest of its kind. The first guest is at port 0, the second at port 1.
#[derive(Clone, Copy, Debug, PartialEq, Eq)]
pub enum Sample {
    /// To the first guest, of no protocol.
    ToFirst,
    /// To the second guest, of no protocol.
    ToSecond,
    /// To all, of no protocol.
    ToAll,
    /// To the first guest, with a VLAN tag.
    TaggedToFirst,
    /// To the second guest, with a VLAN tag.
    TaggedToSecond,
    /// To the first guest: UDP from and to the address 0.0.0.0.
    FlowToFirst,
}

/// The shortest frame to all.
fn broadcast() -> [u8; 60]
    ensures value { result ≡ replicate 6 0xff ++ replicate 54 0 }
{
    let mut frame = [0; 60];
    frame[0] = 0xff;
    frame[1] = 0xff;
    frame[2] = 0xff;
    frame[3] = 0xff;
    frame[4] = 0xff;
    frame[5] = 0xff;
    frame
}

/// The shortest frame to the guest at port 0 or 1 with `TCI` in a tag behind the addresses: 81 00, and the two bytes of the tag.
fn tagged_to(port: u8) -> [u8; 64]
    requires port { port < 2 }
    ensures value { result ≡ to_guest (port + 1) tagged }
{
    let mut frame = [0; 64];
    frame[1] = 0x50;
    frame[2] = 0x56;
    frame[5] = port + 1;
    frame[12] = 0x81;
    frame[14] = 0x20;
    frame[15] = 0x05;
    frame
}

/// The shortest UDP frame to the guest at port 0: type 08 00, then an IPv4 header of 20 bytes with the length 46, protocol 17.
fn flow() -> [u8; 60]
    ensures value { result ≡ to_guest 1 flow_bytes }
{
    let mut frame = frame_to(0);
    frame[12] = 0x08;
    frame[14] = 0x45;
    frame[17] = 46;
    frame[23] = 17;
    frame
}

/// The bytes of a frame, 60 or 64.
pub fn bytes_of(alloc: Global, sample: Sample) -> Result<Vec<u8>, AllocError>
    ensures bytes { IfOk result (λ v. v.items ≡ sample_bytes sample) }
    ensures length { IfOk result (λ v. (60 ≤ vec_len v) × (vec_len v ≤ 64)) }
{
    match sample {
        Sample::ToFirst => Vec::from_slice(alloc, &frame_to(0)),
        Sample::ToSecond => Vec::from_slice(alloc, &frame_to(1)),
        Sample::ToAll => Vec::from_slice(alloc, &broadcast()),
        Sample::TaggedToFirst => Vec::from_slice(alloc, &tagged_to(0)),
        Sample::TaggedToSecond => Vec::from_slice(alloc, &tagged_to(1)),
        Sample::FlowToFirst => Vec::from_slice(alloc, &flow()),
    }
}
