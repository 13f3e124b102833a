//! The guests of the cases, and their addresses.
ghost use Rattle.std.specs.Prelude.{◌≡◌};
ghost use Rattle.vmx_sketches.specs.declared.frames.Frames.TheVariants.{Same};

use crate::frames::Frames;
use crate::sketch::{Script, Sketch};
use vmx_frame::ADDRESS_LEN;

/// The broadcast address.
pub const BROADCAST: [u8; ADDRESS_LEN] = [0xff; ADDRESS_LEN];

/// An address that no guest has.
pub const NOBODY: [u8; ADDRESS_LEN] = [0x00, 0x50, 0x56, 0x00, 0x00, 0x63];

/// The address of the guest at port 0.
pub const MAC_A: [u8; ADDRESS_LEN] = [0x00, 0x50, 0x56, 0x00, 0x00, 0x00];

/// The address of the guest at port 1.
pub const MAC_B: [u8; ADDRESS_LEN] = [0x00, 0x50, 0x56, 0x00, 0x00, 0x01];

/// A guest with the modes UCAST, MCAST and BCAST, that sends nothing.
pub const QUIET: Sketch = Sketch {
    mode: 7,
    sniffer: false,
    vlan: None,
    allowed: None,
    strip: false,
    data: false,
    ring: 256,
    bodies: 0,
    mtu: 1500,
    rss: false,
    frames: Frames::Same {
        count: 0,
        to: NOBODY,
        bytes: 60,
    },
    script: Script::Nothing,
};

/// A guest that sends so many frames of so many bytes to an address.
pub fn sends(count: u32, to: [u8; ADDRESS_LEN], bytes: u32) -> Sketch
    ensures frames { result.frames ≡ Same count to bytes }
{
    Sketch {
        frames: Frames::Same { count, to, bytes },
        ..QUIET
    }
}

/// The same with the greatest MTU and receive rings of 32 descriptors.
pub fn large(sketch: Sketch) -> Sketch
    ensures large { result ≡ record sketch { ring = 32; mtu = 9000 } }
{
    Sketch {
        ring: 32,
        mtu: 9000,
        ..sketch
    }
}
