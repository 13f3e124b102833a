//! A step of one guest of all, and notes behind it.
ghost use Rattle.vmx_driver_steps.specs.declared.progress.Due.TheVariants.{Frame};
ghost use Rattle.std.specs.Prelude.{◌≡◌, ◌≤◌, ◌+◌, ◌^◌, ℕ, length, IfOk, OnOk};
ghost use Rattle.vmx_switch.specs.declared.answer.TheConstants.{MAX_PORTS};
ghost use Rattle.vmx_device.specs.declared.growing.TheConstants.{TURN_ENTRIES};
ghost use Rattle.vmx_replay_settled.specs.Linked.{HasLinksIn, IsLinkOn};
ghost use Rattle.vmx_replay_chains.specs.Views.{guest_views};
ghost use Rattle.vmx_replay_chains.specs.Chains.{AllPaired, IsPairedOn, IsAlikeOn, ActsOn, TurnsOn, PostsOn, PollsOn, LinksOn, LinkOn, devices_of, due_at};

use std::alloc::AllocError;
use vmx_ends::Fabric;
use vmx_io::List;
use vmx_replay_guests::Guest;
use vmx_replay_settled::{act, pass_link_on, pass_links_to, poll, post, turn};

/// The driver at a port acts, and notes go both ways.
pub(crate) fn act_on<F: Fabric>(guests: &mut List<Guest<F>>, port: u32) -> Result<(), AllocError>
    requires pair { IsPairedOn (2 ^ 54) (2 ^ 30) port (guest_views guests.old) }
    ensures acts { OnOk result (ActsOn port (guest_views guests.old) (guest_views guests.new)) }
    ensures pair { OnOk result ((n m : ℕ) → IsPairedOn n m port (guest_views guests.old) → IsPairedOn n m port (guest_views guests.new)) }
    ensures paired { OnOk result (AllPaired (guest_views guests.old) → AllPaired (guest_views guests.new)) }
{
    act(guests.at_mut(port as usize))?;
    Ok(())
}

/// The device at a port has one turn, and notes go both ways.
pub(crate) fn turn_on<F: Fabric>(guests: &mut List<Guest<F>>, port: u32) -> Result<(), AllocError>
    requires pair { IsPairedOn (2 ^ 54) (2 ^ 30) port (guest_views guests.old) }
    ensures turns { OnOk result (TurnsOn port (guest_views guests.old) (guest_views guests.new)) }
    ensures pair { OnOk result ((n m : ℕ) → IsPairedOn n m port (guest_views guests.old) → IsPairedOn (n + TURN_ENTRIES) (m + 1) port (guest_views guests.new)) }
    ensures paired { OnOk result (AllPaired (guest_views guests.old) → AllPaired (guest_views guests.new)) }
{
    turn(guests.at_mut(port as usize))?;
    Ok(())
}

/// The driver at a port acts where a frame is due, and notes of the queues go both ways.
pub(crate) fn post_on<F: Fabric>(guests: &mut List<Guest<F>>, port: u32) -> Result<(), AllocError>
    requires pair { IsPairedOn (2 ^ 54) (2 ^ 30) port (guest_views guests.old) }
    requires alike { IsAlikeOn port (guest_views guests.old) }
    requires due { (i : ℕ) × (due_at port (guest_views guests.old) ≡ Frame i) }
    ensures posts { OnOk result (PostsOn port (guest_views guests.old) (guest_views guests.new)) }
    ensures pair { OnOk result ((n m : ℕ) → IsPairedOn n m port (guest_views guests.old) → IsPairedOn n m port (guest_views guests.new)) }
    ensures paired { OnOk result (AllPaired (guest_views guests.old) → AllPaired (guest_views guests.new)) }
{
    post(guests.at_mut(port as usize))?;
    Ok(())
}

/// The driver at a port polls, and notes of the queues go both ways; it answers how many frames were handed up. For want of
/// memory nothing is said of the guests.
pub fn poll_on<F: Fabric>(guests: &mut List<Guest<F>>, port: u32) -> Result<u32, AllocError>
    requires pair { (n : ℕ) × (m : ℕ) × IsPairedOn n m port (guest_views guests.old) }
    requires alike { IsAlikeOn port (guest_views guests.old) }
    ensures polls { IfOk result (λ n. PollsOn port n (guest_views guests.old) (guest_views guests.new)) }
    ensures paired { OnOk result (AllPaired (guest_views guests.old) → AllPaired (guest_views guests.new)) }
{
    poll(guests.at_mut(port as usize))
}

/// Notes go both ways over the link between two ports.
pub(crate) fn tell_on<F: Fabric>(guests: &mut List<Guest<F>>, from: u32, to: u32)
    requires link { IsLinkOn from to (devices_of (guest_views guests.old)) }
    ensures tells { LinkOn from to (guest_views guests.old) (guest_views guests.new) }
{
    pass_link_on(guests, from, to);
}

/// Notes go both ways over all links to a port.
pub(crate) fn tell_all<F: Fabric>(guests: &mut List<Guest<F>>, to: u32)
    requires links { HasLinksIn to (devices_of (guest_views guests.old)) }
    requires few { length guests.old ≤ MAX_PORTS }
    ensures tells { LinksOn to (guest_views guests.old) (guest_views guests.new) }
{
    pass_links_to(guests, to);
}
