//! Steps of a guest's actors.
ghost use Rattle.std.specs.Prelude.{◌≡◌, ◌<◌, ◌^◌, ℕ, false, length, IfOk, OnOk};
ghost use Rattle.vmx_driver_steps.specs.declared.progress.Due.TheVariants.{Frame};
ghost use Rattle.vmx_driver_steps.specs.Progress.{due_of};
ghost use Rattle.vmx_actor_laws.specs.Joint.{AreCaughtUp};
ghost use Rattle.vmx_replay_settled.specs.Settled.{ArePaired, BothKeep, ActsSettled, TurnsSettled, PollsSettled, PostsSettled};

use crate::keeping::keep;
use crate::settling::{pass_alike, settle};
use std::alloc::AllocError;
use vmx_driver::Act;
use vmx_ends::Fabric;
use vmx_replay_guests::Guest;

/// The driver acts, and notes go both ways. For want of memory nothing is said of the guest.
pub fn act<F: Fabric>(guest: &mut Guest<F>) -> Result<Act, AllocError>
    requires pair { ArePaired guest.old.driver.driver guest.old.device }
    ensures acts { IfOk result (λ a. ActsSettled guest.old.driver.driver guest.old.device a guest.new.driver.driver guest.new.device) }
    ensures pair { OnOk result (ArePaired guest.new.driver.driver guest.new.device) }
    ensures keeps { OnOk result (BothKeep guest.new.driver.driver guest.new.device) }
{
    let act = guest.driver.act()?;
    keep(guest);
    settle(guest);
    Ok(act)
}

/// The device has one turn, and notes go both ways. For want of memory nothing is said of the guest.
pub fn turn<F: Fabric>(guest: &mut Guest<F>) -> Result<(), AllocError>
    requires pair { ArePaired guest.old.driver.driver guest.old.device }
    requires few { (length guest.old.device.entries < 2 ^ 55) × (length guest.old.device.calls.served < 2 ^ 31) }
    ensures turns { OnOk result (TurnsSettled guest.old.driver.driver guest.old.device guest.new.driver.driver guest.new.device) }
    ensures pair { OnOk result (ArePaired guest.new.driver.driver guest.new.device) }
    ensures keeps { OnOk result (BothKeep guest.new.driver.driver guest.new.device) }
{
    keep(guest);
    guest.device.turn()?;
    keep(guest);
    settle(guest);
    Ok(())
}

/// The driver polls, and notes of the queues go both ways; it answers how many frames were handed up. For want of memory nothing is said
/// of the guest.
pub fn poll<F: Fabric>(guest: &mut Guest<F>) -> Result<u32, AllocError>
    requires pair { ArePaired guest.old.driver.driver guest.old.device }
    requires alike { AreCaughtUp guest.old.driver.driver guest.old.device }
    ensures polls { IfOk result (λ n. PollsSettled guest.old.driver.driver guest.old.device n guest.new.driver.driver guest.new.device) }
    ensures pair { OnOk result (ArePaired guest.new.driver.driver guest.new.device) }
    ensures keeps { OnOk result (BothKeep guest.new.driver.driver guest.new.device) }
{
    let count = guest.driver.poll()?;
    pass_alike(guest);
    keep(guest);
    Ok(count)
}

/// The driver acts where a frame is due, and notes of the queues go both ways. For want of memory nothing is said of the guest.
pub fn post<F: Fabric>(guest: &mut Guest<F>) -> Result<Act, AllocError>
    requires pair { ArePaired guest.old.driver.driver guest.old.device }
    requires alike { AreCaughtUp guest.old.driver.driver guest.old.device }
    requires due { (i : ℕ) × (due_of guest.old.driver.driver.plan guest.old.driver.driver.at false ≡ Frame i) }
    ensures posts { IfOk result (λ a. PostsSettled guest.old.driver.driver guest.old.device a guest.new.driver.driver guest.new.device) }
    ensures pair { OnOk result (ArePaired guest.new.driver.driver guest.new.device) }
    ensures keeps { OnOk result (BothKeep guest.new.driver.driver guest.new.device) }
{
    let act = guest.driver.act()?;
    pass_alike(guest);
    keep(guest);
    Ok(act)
}
