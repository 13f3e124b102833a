//! A command and all that follows from it.
ghost use Rattle.std.specs.Prelude.{◌≡◌, ◌≤◌, ◌+◌, ◌^◌, ℕ, true, length, OnOk};
ghost use Rattle.vmx_switch.specs.declared.answer.TheConstants.{MAX_PORTS};
ghost use Rattle.vmx_device.specs.declared.growing.TheConstants.{TURN_ENTRIES};
ghost use Rattle.vmx_replay_settled.specs.Settled.{ArePaired};
ghost use Rattle.vmx_replay_settled.specs.Linked.{HasLinksIn};
ghost use Rattle.vmx_replay_chains.specs.Views.{guest_views};
ghost use Rattle.vmx_replay_chains.specs.Chains.{AllPaired, IsPairedOn, AnswersOn, ChangesOn, HasMet, Meets, RenewsBy, FollowsOn, devices_of, due_at, is_meeting as is_meeting_of, is_activating as is_activating_of};

use crate::guests::{act_on, tell_all, turn_on};
use std::alloc::AllocError;
use vmx_driver_steps::Due;
use vmx_ends::Fabric;
use vmx_io::List;
use vmx_replay_guests::Guest;
use vmx_replay_settled::{keep, settle};

/// The driver at a port acts: it sends a command. The device answers it, the driver takes the answer, and where its ends came back all
/// ends meet; an activation that is then due is done as well. For want of memory nothing is said of the guests.
pub fn follow<F: Fabric>(guests: &mut List<Guest<F>>, port: u32) -> Result<(), AllocError>
    requires pair { IsPairedOn (2 ^ 52) (2 ^ 28) port (guest_views guests.old) }
    requires links { HasLinksIn port (devices_of (guest_views guests.old)) }
    requires few { length guests.old ≤ MAX_PORTS }
    ensures follows { OnOk result (FollowsOn port (guest_views guests.old) (guest_views guests.new)) }
    ensures paired { OnOk result (AllPaired (guest_views guests.old) → AllPaired (guest_views guests.new)) }
{
    act_on(guests, port)?;
    answer(guests, port)?;
    meet(guests, port)?;
    renew(guests, port)?;
    Ok(())
}

/// The device at a port has one turn, in which it answers the command that is outstanding, and its driver takes the answer.
fn answer<F: Fabric>(guests: &mut List<Guest<F>>, port: u32) -> Result<(), AllocError>
    requires pair { IsPairedOn (2 ^ 53) (2 ^ 29) port (guest_views guests.old) }
    requires links { HasLinksIn port (devices_of (guest_views guests.old)) }
    requires few { length guests.old ≤ MAX_PORTS }
    ensures answers { OnOk result (AnswersOn port (guest_views guests.old) (guest_views guests.new)) }
    ensures pair { OnOk result ((n m : ℕ) → IsPairedOn n m port (guest_views guests.old) → IsPairedOn (n + TURN_ENTRIES) (m + 1) port (guest_views guests.new)) }
    ensures paired { OnOk result (AllPaired (guest_views guests.old) → AllPaired (guest_views guests.new)) }
{
    turn_on(guests, port)?;
    tell_all(guests, port);
    act_on(guests, port)?;
    Ok(())
}

/// Where the driver at a port holds both ends of its queues, it acts until they have met; then notes go both ways.
fn meet<F: Fabric>(guests: &mut List<Guest<F>>, port: u32) -> Result<(), AllocError>
    requires pair { IsPairedOn (2 ^ 54) (2 ^ 30) port (guest_views guests.old) }
    ensures meets { OnOk result (ChangesOn port Meets (guest_views guests.old) (guest_views guests.new)) }
    ensures pair { OnOk result ((n m : ℕ) → IsPairedOn n m port (guest_views guests.old) → IsPairedOn n m port (guest_views guests.new)) }
    ensures paired { OnOk result (AllPaired (guest_views guests.old) → AllPaired (guest_views guests.new)) }
{
    let guest = guests.at_mut(port as usize);
    meet_all(guest)?;
    settle(guest);
    Ok(())
}

/// The driver acts while both ends of its queues are to meet.
fn meet_all<F: Fabric>(guest: &mut Guest<F>) -> Result<(), AllocError>
    requires pair { ArePaired guest.old.driver.driver guest.old.device }
    ensures meets { OnOk result (HasMet guest.old.driver.driver guest.new.driver.driver) }
    ensures pair { OnOk result (ArePaired guest.new.driver.driver guest.new.device) }
    ensures device { OnOk result (guest.new.device ≡ guest.old.device) }
{
    keep(guest);
    while is_meeting(guest.driver.due()) {
        guest.driver.act()?;
        keep(guest);
    }
    Ok(())
}

/// Where an activation is due with the driver at a port, it is done: the driver sends it, the device answers it, and the driver takes the
/// answer. For want of memory nothing is said of the guests.
pub fn renew<F: Fabric>(guests: &mut List<Guest<F>>, port: u32) -> Result<(), AllocError>
    requires pair { IsPairedOn (2 ^ 53) (2 ^ 29) port (guest_views guests.old) }
    requires links { HasLinksIn port (devices_of (guest_views guests.old)) }
    requires few { length guests.old ≤ MAX_PORTS }
    ensures renews { OnOk result (RenewsBy (is_activating_of (due_at port (guest_views guests.old))) port (guest_views guests.old) (guest_views guests.new)) }
    ensures paired { OnOk result (AllPaired (guest_views guests.old) → AllPaired (guest_views guests.new)) }
{
    if is_activating(guests.at(port as usize).driver.due()) {
        activate(guests, port)?;
    }
    Ok(())
}

/// The activation that is due with the driver at a port is done.
fn activate<F: Fabric>(guests: &mut List<Guest<F>>, port: u32) -> Result<(), AllocError>
    requires pair { IsPairedOn (2 ^ 53) (2 ^ 29) port (guest_views guests.old) }
    requires links { HasLinksIn port (devices_of (guest_views guests.old)) }
    requires few { length guests.old ≤ MAX_PORTS }
    ensures renews { OnOk result (RenewsBy true port (guest_views guests.old) (guest_views guests.new)) }
    ensures paired { OnOk result (AllPaired (guest_views guests.old) → AllPaired (guest_views guests.new)) }
{
    act_on(guests, port)?;
    answer(guests, port)?;
    Ok(())
}

/// Whether both ends of a driver's queues are to meet.
fn is_meeting(due: Due) -> bool
    ensures meeting { result ≡ is_meeting_of due }
{
    matches!(due, Due::Meet)
}

/// Whether an activation is to be sent.
fn is_activating(due: Due) -> bool
    ensures activating { result ≡ is_activating_of due }
{
    matches!(due, Due::Activate)
}
