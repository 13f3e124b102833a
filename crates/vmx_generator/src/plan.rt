//! The plan and its guests.

ghost use Rattle.std.specs.Prelude.{◌≡◌, ◌<◌, ◌++◌, codes, IfOk};
ghost use Rattle.std.specs.List.{AllZip, range_with_len};
ghost use Rattle.std.specs.Fmt.{decimal};
ghost use Rattle.vmx_generator.specs.Plans.{IsGuest, IsGenerated};

use crate::GUESTS;
use crate::all_draws::AllDraws;
use crate::frames::{address, capture};
use crate::setups::setup;
use std::alloc::{AllocError, Global};
use vmx_io::{List, Text};
use vmx_model::{GuestPlan, Plan};

/// The number of the guest to which the switch copies every frame.
pub const SNIFFER: u8 = 7;

/// The bytes of a transmit buffer by default (own to this project).
const PIECE: u32 = 4_096;

/// After so many copies that reached a guest its driver polls.
const POLL_EVERY: u32 = 4;

/// The plan that the generator makes of a number: the guests `g0` to `g7` with the addresses 00:50:56:00:01:00 to 00:50:56:00:01:07, two
/// transmit and four receive queues and RSS, and 2,000 frames each, of 60 to 1,514 bytes; `g7` is a sniffer. It takes about 13 MB.
pub fn generated_plan(alloc: Global, number: u64) -> Result<Plan, AllocError>
    ensures plan { IfOk result (λ plan. IsGenerated number plan) }
{
    let draws = AllDraws::of(alloc, number)?;
    let guests = guests(alloc, &draws)?;
    let prefix = Text::from_str(alloc, "out")?;
    Ok(Plan {
        prefix,
        poll_every: POLL_EVERY,
        guests: List::of(guests),
    })
}

fn guests(alloc: Global, draws: &AllDraws) -> Result<Vec<GuestPlan>, AllocError>
    ensures guests { IfOk result (λ guests. AllZip (IsGuest draws.now.number) (range_with_len 0 8) guests.items) }
{
    let mut guests = Vec::with_capacity(alloc, GUESTS as usize)?;
    for number in 0..GUESTS {
        let guest = guest(alloc, number, draws)?;
        guests.push(guest)?;
    }
    Ok(guests)
}

/// The guest with this number.
fn guest(alloc: Global, number: u8, draws: &AllDraws) -> Result<GuestPlan, AllocError>
    requires number { number < 8 }
    ensures guest { IfOk result (λ guest. IsGuest draws.now.number number guest) }
{
    let name = name(alloc, number)?;
    let capture = capture(alloc, number, draws)?;
    Ok(GuestPlan {
        name,
        mac: address(number),
        sniffer: number == SNIFFER,
        vlan: None,
        piece: PIECE,
        bodies: 0,
        setup: setup(number),
        capture,
        script: List::new(alloc),
    })
}

fn name(alloc: Global, number: u8) -> Result<Text, AllocError>
    ensures name { IfOk result (λ name. name ≡ codes "g" ++ decimal number) }
{
    Ok(Text::of(format!(in alloc; "g{number}")?))
}
