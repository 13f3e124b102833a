//! The guests.
ghost use Rattle.std.specs.Prelude.{◌≡◌, ◌<◌, length, IfOk};
ghost use Rattle.vmx_replay_worlds.specs.Starts.{AreNewGuests};
ghost use Rattle.vmx_replay_start.specs.Views.{guest_view, guest_views};
ghost use Rattle.vmx_replay_start.specs.Switch.{IsSwitchOf};
ghost use Rattle.vmx_replay_start.specs.Linking.{IsRow, IsColumn, outs_view, ins_view};
ghost use Rattle.vmx_replay_start.specs.Made.{IsMadeAt, AreMade};

use crate::links::{links_between, take_ends};
use crate::switch::{Switch, switch_of, table_of};
use std::alloc::{AllocError, Global};
use vmx_device::Device;
use vmx_driver::Driver;
use vmx_ends::{Ends, Fabric};
use vmx_io::List;
use vmx_layout::MAX_QUEUES;
use vmx_link::{LinkIn, LinkOut};
use vmx_model::Plan;
use vmx_regs::make;
use vmx_replay_guests::Guest;

/// The interrupts of a guest: one for each queue, and one for events.
pub const INTERRUPTS: u32 = MAX_QUEUES + MAX_QUEUES + 1;

/// The guests of a plan by port, before the first step of any: each driver and its device have new registers between them, and each
/// device has a new link to and from each other, in port order.
pub fn new_guests<'a, F: Fabric>(
    alloc: Global,
    plan: &'a Plan,
) -> Result<List<Guest<'a, F>>, AllocError>
    ensures made { IfOk result (λ gs. AreMade plan.now (guest_views gs)) }
    ensures new { IfOk result (λ gs. AreNewGuests (length plan.now.guests) 0 plan.now.guests (guest_views gs)) }
{
    let switch = switch_of(alloc, plan)?;
    let ports = plan.guests.len() as u32;
    let mut links = links_between(alloc, ports)?;
    let mut guests = List::new(alloc);
    for port in 0..ports {
        let (out, input) = take_ends(alloc, &mut links, port);
        guests.push(guest_at(alloc, plan, &switch, port, out, input)?)?;
    }
    Ok(guests)
}

/// The guest at a port with its ends of links.
fn guest_at<'a, F: Fabric>(
    alloc: Global,
    plan: &'a Plan,
    switch: &Switch,
    port: u32,
    out: List<LinkOut>,
    input: List<LinkIn>,
) -> Result<Guest<'a, F>, AllocError>
    requires port { port < length plan.now.guests }
    requires switch { IsSwitchOf plan.now switch.now }
    requires out { IsRow (length plan.now.guests) port (outs_view out) }
    requires input { IsColumn (length plan.now.guests) port (ins_view input) }
    ensures made { IfOk result (λ g. IsMadeAt plan.now port (guest_view g)) }
    ensures links { IfOk result (λ g. (g.device.out ≡ outs_view out) × (g.device.input ≡ ins_view input)) }
{
    let (regs, other) = make::<Ends<F>>(alloc, INTERRUPTS)?;
    let mac = plan.guests.at(port as usize).mac;
    let table = table_of(plan, switch);
    let device = Device::<F>::new(alloc, port, mac, table, other, out, input)?;
    let driver = Driver::<F>::new(alloc, port, plan, regs)?;
    Ok(Guest { driver, device })
}
