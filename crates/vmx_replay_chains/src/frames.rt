//! A frame goes out, and a packet comes in.
ghost use Rattle.std.specs.Prelude.{◌≡◌, ◌≤◌, ◌^◌, ℕ, length, take, IfOk, OnOk};
ghost use Rattle.vmx_switch.specs.declared.answer.TheConstants.{MAX_PORTS};
ghost use Rattle.vmx_replay_settled.specs.Linked.{HasLinksIn, IsLinkOn};
ghost use Rattle.vmx_replay_chains.specs.Views.{guest_views};
ghost use Rattle.vmx_replay_chains.specs.Chains.{AllPaired, IsPairedOn, IsAlikeOn, SendsOn, PutsBy, LooksOn, has_more_on, entries_on, devices_of, due_at};
ghost use Rattle.vmx_replay_chains.specs.Targets.{targets_behind};
ghost use Rattle.vmx_driver_steps.specs.declared.progress.Due.TheVariants.{Frame};
ghost use Rattle.vmx_replay_due.specs.Standing.{is_frame as is_frame_of};

use crate::guests::{post_on, tell_all, tell_on, turn_on};
use crate::targets::{no_targets, targets_from};
use std::alloc::AllocError;
use vmx_driver_steps::Due;
use vmx_ends::Fabric;
use vmx_io::List;
use vmx_replay_guests::Guest;
use vmx_switch::Targets;

/// Where the frame of a number is due with the driver at a port, it goes out, and else nothing is done. Answers the ports to which it
/// went, 16 at most. For want of memory nothing is said of the guests.
pub fn put_on<F: Fabric>(
    guests: &mut List<Guest<F>>,
    port: u32,
    number: u32,
) -> Result<Targets, AllocError>
    requires pair { IsPairedOn (2 ^ 53) (2 ^ 29) port (guest_views guests.old) }
    requires alike { IsAlikeOn port (guest_views guests.old) }
    requires links { HasLinksIn port (devices_of (guest_views guests.old)) }
    requires few { length guests.old ≤ MAX_PORTS }
    ensures puts { OnOk result (PutsBy (is_frame_of number (due_at port (guest_views guests.old))) port (guest_views guests.old) (guest_views guests.new)) }
    ensures targets { IfOk result (λ t. take t.count t.ports ≡ take MAX_PORTS (targets_behind (length (entries_on port (guest_views guests.old))) (entries_on port (guest_views guests.new)))) }
    ensures room { IfOk result (λ t. length t.ports ≡ MAX_PORTS) }
    ensures paired { OnOk result (AllPaired (guest_views guests.old) → AllPaired (guest_views guests.new)) }
{
    if !is_frame(guests.at(port as usize).driver.due(), number) {
        return Ok(no_targets());
    }
    let before = guests.at(port as usize).device.journal().entries.len();
    send(guests, port)?;
    let entries = guests.at(port as usize).device.journal().entries.as_slice();
    Ok(targets_from(entries, before))
}

/// Whether the frame of a number is due.
fn is_frame(due: Due, number: u32) -> bool
    ensures frame { result ≡ is_frame_of number due }
{
    match due {
        Due::Frame { index } => index == number,
        Due::Nothing
        | Due::Activate
        | Due::Answer
        | Due::Meet
        | Due::Action { at: _ }
        | Due::Close => false,
    }
}

/// The driver at a port posts the frame that is due, and its device has one turn.
fn send<F: Fabric>(guests: &mut List<Guest<F>>, port: u32) -> Result<(), AllocError>
    requires pair { IsPairedOn (2 ^ 53) (2 ^ 29) port (guest_views guests.old) }
    requires alike { IsAlikeOn port (guest_views guests.old) }
    requires due { (i : ℕ) × (due_at port (guest_views guests.old) ≡ Frame i) }
    requires links { HasLinksIn port (devices_of (guest_views guests.old)) }
    requires few { length guests.old ≤ MAX_PORTS }
    ensures sends { OnOk result (SendsOn port (guest_views guests.old) (guest_views guests.new)) }
    ensures paired { OnOk result (AllPaired (guest_views guests.old) → AllPaired (guest_views guests.new)) }
{
    post_on(guests, port)?;
    turn_on(guests, port)?;
    tell_all(guests, port);
    Ok(())
}

/// The device at a port looks at the link from another. Answers whether its journal grew. For want of memory nothing is said of the
/// guests.
pub fn look_on<F: Fabric>(
    guests: &mut List<Guest<F>>,
    from: u32,
    to: u32,
) -> Result<bool, AllocError>
    requires pair { IsPairedOn (2 ^ 53) (2 ^ 29) to (guest_views guests.old) }
    requires link { IsLinkOn from to (devices_of (guest_views guests.old)) }
    requires links { HasLinksIn to (devices_of (guest_views guests.old)) }
    requires few { length guests.old ≤ MAX_PORTS }
    ensures looks { OnOk result (LooksOn from to (guest_views guests.old) (guest_views guests.new)) }
    ensures found { IfOk result (λ f. f ≡ has_more_on to (guest_views guests.old) (guest_views guests.new)) }
    ensures paired { OnOk result (AllPaired (guest_views guests.old) → AllPaired (guest_views guests.new)) }
{
    let before = guests.at(to as usize).device.journal().entries.len();
    look(guests, from, to)?;
    Ok(before < guests.at(to as usize).device.journal().entries.len())
}

/// The device at a port is told of the link from another, and has one turn.
fn look<F: Fabric>(guests: &mut List<Guest<F>>, from: u32, to: u32) -> Result<(), AllocError>
    requires pair { IsPairedOn (2 ^ 53) (2 ^ 29) to (guest_views guests.old) }
    requires link { IsLinkOn from to (devices_of (guest_views guests.old)) }
    requires links { HasLinksIn to (devices_of (guest_views guests.old)) }
    requires few { length guests.old ≤ MAX_PORTS }
    ensures looks { OnOk result (LooksOn from to (guest_views guests.old) (guest_views guests.new)) }
    ensures paired { OnOk result (AllPaired (guest_views guests.old) → AllPaired (guest_views guests.new)) }
{
    tell_on(guests, from, to);
    turn_on(guests, to)?;
    tell_all(guests, to);
    Ok(())
}
