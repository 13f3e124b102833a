//! Plans of two guests, of which the first may have a script.

ghost use Rattle.std.specs.Prelude.{◌≡◌, ◌<◌, ◌+◌, ◌∷◌, replicate};

use std::alloc::{AllocError, Global};
use vmx_io::{Bytes, List, Text};
use vmx_model::{Action, GuestParts, GuestPlan, Plan};
use vmx_pcap::{Capture, Stamped};
use vmx_shared_area::Setup;

/// The addresses of the guests at both ports.
pub const MACS: [[u8; 6]; 2] = [
    [0x00, 0x50, 0x56, 0x00, 0x00, 0x01],
    [0x00, 0x50, 0x56, 0x00, 0x00, 0x02],
];

/// Bytes of a piece of a posted frame.
const PIECE: u32 = 4096;

/// The plan of two guests: the first sends so many frames to the second and follows this script, and the second sends so many
/// back. None where it does not fit.
pub fn plan_of(
    alloc: Global,
    frames: u32,
    script: List<Action>,
    back: u32,
) -> Result<Option<Plan>, AllocError> {
    let to_second = frames_to(alloc, 1, frames)?;
    let to_first = frames_to(alloc, 0, back)?;
    let first = guest(alloc, "a", MACS[0], to_second, script)?;
    let second = guest(alloc, "b", MACS[1], to_first, List::new(alloc))?;
    let (Some(first), Some(second)) = (first, second) else {
        return Ok(None);
    };
    let mut guests = List::new(alloc);
    guests.push(first)?;
    guests.push(second)?;
    Ok(Plan::of(Text::from_str(alloc, "out/")?, 32, guests))
}

/// So many of the shortest frames to the guest at port 0 or 1.
fn frames_to(alloc: Global, port: u8, frames: u32) -> Result<List<Stamped>, AllocError>
    requires port { port < 2 }
{
    let mut records = List::new(alloc);
    for _ in 0..frames {
        records.push(Stamped {
            seconds: 0,
            micros: 0,
            frame: Bytes::from_slice(alloc, &frame_to(port))?,
        })?;
    }
    Ok(records)
}

fn guest(
    alloc: Global,
    name: &str,
    mac: [u8; 6],
    records: List<Stamped>,
    script: List<Action>,
) -> Result<Option<GuestPlan>, AllocError> {
    Ok(GuestPlan::of(GuestParts {
        name: Text::from_str(alloc, name)?,
        mac,
        sniffer: false,
        vlan: None,
        piece: PIECE,
        bodies: 0,
        setup: Setup::by_default(),
        capture: Capture { records, tail: 0 },
        script,
    }))
}

/// The shortest frame to the guest at port 0 or 1, of no protocol.
pub fn frame_to(port: u8) -> [u8; 60]
    requires port { port < 2 }
    ensures value { result ≡ 0x00 ∷ 0x50 ∷ 0x56 ∷ 0x00 ∷ 0x00 ∷ (port + 1) ∷ replicate 54 0 }
{
    let mut frame = [0; 60];
    frame[1] = 0x50;
    frame[2] = 0x56;
    frame[5] = port + 1;
    frame
}
