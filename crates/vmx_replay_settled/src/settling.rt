//! Notes both ways between a guest's driver and its device.
ghost use Rattle.std.specs.Prelude.{◌≡◌, None};
ghost use Rattle.vmx_driver_steps.specs.Driver.{Keeps as DriverKeeps};
ghost use Rattle.vmx_actor_laws.specs.Joint.{AreCaughtUp};
ghost use Rattle.vmx_replay_guests.specs.Passing.{QueuesPassed};
ghost use Rattle.vmx_replay_settled.specs.Settled.{ArePaired, BothKeep, QueuesSettled, Settles};

use crate::keeping::keep;
use vmx_ends::Fabric;
use vmx_replay_guests::{Guest, pass_queues, pass_regs};

/// Passes notes of the registers both ways, and where no command is outstanding, notes of all queues of which the device holds an end.
pub fn settle<F: Fabric>(guest: &mut Guest<F>)
    requires pair { ArePaired guest.old.driver.driver guest.old.device }
    ensures settles { Settles guest.old.driver.driver guest.old.device guest.new.driver.driver guest.new.device }
    ensures pair { ArePaired guest.new.driver.driver guest.new.device }
    ensures keeps { BothKeep guest.new.driver.driver guest.new.device }
{
    pass_regs(guest);
    pass_where_alike(guest);
    keep(guest);
}

/// Passes notes of all queues where no command is outstanding.
fn pass_where_alike<F: Fabric>(guest: &mut Guest<F>)
    requires alike { guest.old.driver.driver.calls.asked ≡ None → AreCaughtUp guest.old.driver.driver guest.old.device }
    ensures passed { QueuesSettled guest.old.driver.driver.calls.asked guest.old.driver.driver guest.old.device guest.new.driver.driver guest.new.device }
{
    if !guest.driver.outstanding() {
        pass_alike(guest);
    }
}

/// Passes notes of all queues of a guest whose two sides know the same commands.
pub(crate) fn pass_alike<F: Fabric>(guest: &mut Guest<F>)
    requires alike { AreCaughtUp guest.old.driver.driver guest.old.device }
    ensures passed { QueuesPassed guest.old.driver.driver guest.old.device guest.new.driver.driver guest.new.device }
    ensures kept { DriverKeeps guest.old.driver.driver }
{
    keep(guest);
    pass_queues(guest);
}
