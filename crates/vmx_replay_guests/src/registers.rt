//! Notes between the two sides of a guest's registers.
ghost use Rattle.std.specs.Prelude.{◌≡◌};
ghost use Rattle.vmx_driver.specs.Stocked.{SameRoom};
ghost use Rattle.vmx_replay_guests.specs.Passing.{RegsPassed};

use crate::guest::Guest;
use vmx_ends::Fabric;

/// Passes a note of the driver's side of the registers to the device's side, and one back.
pub fn pass_regs<F: Fabric>(guest: &mut Guest<F>)
    requires pair { guest.old.driver.driver.key ≡ guest.old.device.key }
    ensures passed { RegsPassed guest.old.driver.driver guest.old.device guest.new.driver.driver guest.new.device }
    ensures room { SameRoom guest.old.driver guest.new.driver }
{
    let sent = guest.driver.note_regs();
    guest.device.hear_regs(sent);
    let served = guest.device.note_regs();
    guest.driver.hear_regs(served);
}
