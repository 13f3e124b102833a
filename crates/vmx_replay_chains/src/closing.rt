//! The end of a guest's run.
ghost use Rattle.std.specs.Prelude.{◌≡◌, ◌≤◌, ◌^◌, length, OnOk};
ghost use Rattle.vmx_switch.specs.declared.answer.TheConstants.{MAX_PORTS};
ghost use Rattle.vmx_driver.specs.Stocked.{IsClosable, closed_as};
ghost use Rattle.vmx_replay_settled.specs.Settled.{ArePaired, BothKeep};
ghost use Rattle.vmx_replay_settled.specs.Linked.{HasLinksIn};
ghost use Rattle.vmx_replay_chains.specs.Views.{guest_views};
ghost use Rattle.vmx_replay_chains.specs.Chains.{AllPaired, IsPairedOn, IsClosableOn, ClosesOn, ClosesBy, is_over_on, QuiescesBy, devices_of, due_at, is_closing as is_closing_of};

use crate::commands::follow;
use std::alloc::AllocError;
use vmx_driver_steps::Due;
use vmx_ends::Fabric;
use vmx_io::List;
use vmx_replay_guests::Guest;
use vmx_replay_settled::keep;

/// The guest at a port is closed, where it is not closed yet. For want of memory nothing is said of the guests.
pub fn close_where_open<F: Fabric>(guests: &mut List<Guest<F>>, port: u32) -> Result<(), AllocError>
    requires pair { IsPairedOn (2 ^ 52) (2 ^ 28) port (guest_views guests.old) }
    requires due { IsClosableOn port (guest_views guests.old) }
    requires links { HasLinksIn port (devices_of (guest_views guests.old)) }
    requires few { length guests.old ≤ MAX_PORTS }
    ensures closes { OnOk result (ClosesBy (is_over_on port (guest_views guests.old)) port (guest_views guests.old) (guest_views guests.new)) }
    ensures paired { OnOk result (AllPaired (guest_views guests.old) → AllPaired (guest_views guests.new)) }
{
    if !guests.at(port as usize).driver.is_over() {
        close(guests, port)?;
    }
    Ok(())
}

/// The driver at a port, with which nothing is due, is told that nothing more comes; where it is active it quiesces its device, and all
/// ends meet. For want of memory nothing is said of the guests.
pub fn close<F: Fabric>(guests: &mut List<Guest<F>>, port: u32) -> Result<(), AllocError>
    requires pair { IsPairedOn (2 ^ 52) (2 ^ 28) port (guest_views guests.old) }
    requires due { IsClosableOn port (guest_views guests.old) }
    requires links { HasLinksIn port (devices_of (guest_views guests.old)) }
    requires few { length guests.old ≤ MAX_PORTS }
    ensures closes { OnOk result (ClosesOn port (guest_views guests.old) (guest_views guests.new)) }
    ensures paired { OnOk result (AllPaired (guest_views guests.old) → AllPaired (guest_views guests.new)) }
{
    tell_closed(guests.at_mut(port as usize));
    quiesce(guests, port)?;
    Ok(())
}

/// A guest's driver, with which nothing is due, is told that nothing more comes.
fn tell_closed<F: Fabric>(guest: &mut Guest<F>)
    requires pair { ArePaired guest.old.driver.driver guest.old.device }
    requires due { IsClosable guest.old.driver.driver }
    ensures closes { guest.new.driver.driver ≡ closed_as guest.old.driver.driver }
    ensures device { guest.new.device ≡ guest.old.device }
    ensures pair { ArePaired guest.new.driver.driver guest.new.device }
    ensures keeps { BothKeep guest.new.driver.driver guest.new.device }
{
    guest.driver.close();
    keep(guest);
}

/// Where a driver that was closed is to quiesce its device, it does.
fn quiesce<F: Fabric>(guests: &mut List<Guest<F>>, port: u32) -> Result<(), AllocError>
    requires pair { IsPairedOn (2 ^ 52) (2 ^ 28) port (guest_views guests.old) }
    requires links { HasLinksIn port (devices_of (guest_views guests.old)) }
    requires few { length guests.old ≤ MAX_PORTS }
    ensures quiesces { OnOk result (QuiescesBy (is_closing_of (due_at port (guest_views guests.old))) port (guest_views guests.old) (guest_views guests.new)) }
    ensures paired { OnOk result (AllPaired (guest_views guests.old) → AllPaired (guest_views guests.new)) }
{
    if is_closing(guests.at(port as usize).driver.due()) {
        follow(guests, port)?;
    }
    Ok(())
}

/// Whether the closing quiesce is to be sent.
fn is_closing(due: Due) -> bool
    ensures closing { result ≡ is_closing_of due }
{
    matches!(due, Due::Close)
}
