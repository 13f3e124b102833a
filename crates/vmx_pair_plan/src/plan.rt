//! The fixed plan of `pair`: guest `a` sends the capture, and guest `b` is a sniffer. All else is as a configuration has it by default.
ghost use Rattle.std.specs.Prelude.{◌≡◌, ◌%◌, true, slice_index, IfOk};
ghost use Rattle.vmx_model.specs.Ranges.{is_name};
ghost use Rattle.vmx_pair_plan.specs.Plan.{Fits, HasDefaults, IsGuest, IsPairPlan};

use std::alloc::{AllocError, Global};
use vmx_io::{List, Text};
use vmx_model::{GuestPlan, Plan};
use vmx_pcap::Capture;
use vmx_shared_area::offsets::MAC_SIZE;
use vmx_shared_area::{RX_MODE_PROMISC, Setup};

/// The address of guest `a`.
pub const MAC_A: [u8; MAC_SIZE] = [0x00, 0x50, 0x56, 0x00, 0x00, 0x01];

/// The address of guest `b`.
pub const MAC_B: [u8; MAC_SIZE] = [0x00, 0x50, 0x56, 0x00, 0x00, 0x02];

/// The bytes of a transmit buffer by default (own to this project).
pub const PIECE: u32 = 4_096;

/// The plan of `pair` for this capture.
pub fn pair_plan(alloc: Global, capture: Capture) -> Result<Plan, AllocError>
    requires fits { Fits capture }
    ensures plan { IfOk result (λ plan. IsPairPlan capture plan) }
{
    let nothing = Capture {
        records: List::new(alloc),
        tail: 0,
    };
    let a = guest(alloc, "a", MAC_A, false, Setup::by_default(), capture)?;
    let b = guest(alloc, "b", MAC_B, true, promiscuous(), nothing)?;
    let mut guests = Vec::with_capacity(alloc, 2)?;
    guests.push(a)?;
    guests.push(b)?;
    Ok(Plan {
        prefix: Text::from_str(alloc, "out")?,
        poll_every: 1,
        guests: List::of(guests),
    })
}

/// A guest with these, and all else by default.
fn guest(
    alloc: Global,
    name: &str,
    mac: [u8; MAC_SIZE],
    sniffer: bool,
    setup: Setup,
    capture: Capture,
) -> Result<GuestPlan, AllocError>
    requires name { is_name name.now ≡ true }
    requires unicast { slice_index mac 0 % 2 ≡ 0 }
    requires defaults { HasDefaults setup.filter.mode setup }
    ensures guest { IfOk result (λ guest. IsGuest name.now mac sniffer setup.filter.mode capture guest) }
{
    Ok(GuestPlan {
        name: Text::from_str(alloc, name)?,
        mac,
        sniffer,
        vlan: None,
        piece: PIECE,
        bodies: 0,
        setup,
        capture,
        script: List::new(alloc),
    })
}

/// The setup that a configuration has by default, but that every frame is let in.
fn promiscuous() -> Setup
    ensures mode { result.filter.mode ≡ RX_MODE_PROMISC }
    ensures defaults { HasDefaults RX_MODE_PROMISC result }
{
    let mut setup = Setup::by_default();
    setup.filter.mode = RX_MODE_PROMISC;
    setup
}
