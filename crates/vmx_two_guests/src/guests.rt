//! Two guests at the two ports of a switch: the driver and the device of each, joined by two links.

ghost use Rattle.std.specs.Prelude.{◌≡◌, ◌<◌, length, IfOk, IfSome};
ghost use Rattle.vmx_link.specs.Ends.{out_view, in_view};
ghost use Rattle.vmx_device_laws.specs.New.{IsNewOut, IsNewIn};

use crate::driven::{Driven, driver_of};
use crate::far::{Far, links_of};
use crate::served::{Served, device_of};
use std::alloc::{AllocError, Global};
use vmx_ends::Ends;
use vmx_link::{LinkIn, LinkOut, pair};
use vmx_lists::ListFabric;
use vmx_model::Plan;
use vmx_regs::make;

/// An interrupt for each of 16 queues, and one for events.
pub const INTERRUPTS: u32 = 17;

/// Packets that a link holds.
pub const LINK_PACKETS: u32 = 64;

/// Both actors of a guest.
#[derive(Drop)]
pub struct Guest<'a> {
    pub driver: Driven<'a>,
    pub device: Served,
}

/// The actors of the guest at one of two ports.
fn guest_of<'a>(
    alloc: Global,
    port: u32,
    plan: &'a Plan,
    to: LinkOut,
    from: LinkIn,
) -> Result<Guest<'a>, AllocError>
    requires port { port < 2 }
    requires guest { port < length plan.now.guests }
    requires links { IsNewOut port 0 (out_view to) × IsNewIn port 0 (in_view from) }
    ensures ports { IfOk result (λ g. (g.driver.driver.driver.guest ≡ port) × (g.device.device.port ≡ port)) }
{
    let (regs, other) = make::<Ends<ListFabric>>(alloc, INTERRUPTS)?;
    let device = device_of(alloc, port, other, to, from)?;
    let driver = driver_of(alloc, port, plan, regs)?;
    Ok(Guest { driver, device })
}

/// Both guests of a plan, at ports 0 and 1; none where it has fewer.
pub fn guests_of<'a>(
    alloc: Global,
    plan: &'a Plan,
) -> Result<Option<(Guest<'a>, Guest<'a>)>, AllocError>
    ensures ports { IfOk result (λ o. IfSome o (λ g. (g.0.device.device.port ≡ 0) × (g.1.device.device.port ≡ 1))) }
{
    if plan.guests.len() < 2 {
        return Ok(None);
    }
    let (a_to_b, b_from_a) = pair(alloc, 0, 1, LINK_PACKETS)?;
    let (b_to_a, a_from_b) = pair(alloc, 1, 0, LINK_PACKETS)?;
    let a = guest_of(alloc, 0, plan, a_to_b, a_from_b)?;
    let b = guest_of(alloc, 1, plan, b_to_a, b_from_a)?;
    Ok(Some((a, b)))
}

/// The first guest of a plan, at port 0, and the other one by the ends of its links alone; none where the plan has no guest.
pub fn first_of<'a>(alloc: Global, plan: &'a Plan) -> Result<Option<(Guest<'a>, Far)>, AllocError>
    ensures ports { IfOk result (λ o. IfSome o (λ p. p.0.device.device.port ≡ 0)) }
{
    if plan.guests.is_empty() {
        return Ok(None);
    }
    let (far, to, from) = links_of(alloc)?;
    let guest = guest_of(alloc, 0, plan, to, from)?;
    Ok(Some((guest, far)))
}
