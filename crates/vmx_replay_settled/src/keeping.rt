//! What always holds of a guest's two actors.
ghost use Rattle.vmx_replay_settled.specs.Settled.{BothKeep};

use vmx_ends::Fabric;
use vmx_replay_guests::Guest;

/// Nothing is done: the contract tells what always holds of a guest's driver and device.
pub fn keep<F: Fabric>(guest: &Guest<F>)
    ensures keeps { BothKeep guest.now.driver.driver guest.now.device }
{
    let _count = guest.driver.received().len();
    let _journal = guest.device.journal();
}
