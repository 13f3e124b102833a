//! Notes both ways between the two sides of one set of registers. Own to this project.

ghost use Rattle.std.specs.Prelude.{◌≡◌, None};
ghost use Rattle.vmx_regs.specs.Rule.{told_driver, driver_note, told_device, device_note, hears_driver, hears_device, DriverKnows, DeviceKnows};
ghost use Rattle.vmx_regs.specs.Masks.{masks_note, hears_masks};
ghost use Rattle.vmx_regs.specs.Ends.{driver_key, device_key, driver_view, device_view, driver_masks, device_masks};

use crate::{DeviceRegs, DriverRegs};
use vmx_io::Handed;

/// Passes a note of the driver to the device, and then one back, each of which is heard.
#[tactic(auto, using(crate::specs::Agree::same_turns))]
pub fn pass<E: Handed>(driver: &mut DriverRegs<E>, device: &mut DeviceRegs<E>)
    requires pair { driver_key driver.old ≡ device_key device.old }
    ensures driver_key { driver_key driver.new ≡ driver_key driver.old }
    ensures device_key { device_key device.new ≡ device_key device.old }
    ensures device { device_view device.new ≡ told_device (hears_driver (device_view device.old) (driver_note (driver_view driver.old))) }
    ensures driver { driver_view driver.new ≡ hears_device (told_driver (driver_view driver.old)) (device_note (device_view device.old)) }
    ensures masks { driver_masks driver.new ≡ driver_masks driver.old }
    ensures told { device_masks device.new ≡ hears_masks (device_masks device.old) (masks_note (driver_masks driver.old)) }
    ensures driver_knows { DriverKnows (driver_view driver.new) }
    ensures device_knows { DeviceKnows (device_view device.new) }
    // With no command outstanding both sides know the same turns, and the device holds no command.
    ensures same { (driver_view driver.old).asked ≡ None → ((driver_view driver.new).turns ≡ (device_view device.new).served) × ((device_view device.new).serving ≡ None) }
{
    let note = driver.note();
    device.hear(note);
    let back = device.note();
    driver.hear(back);
}
