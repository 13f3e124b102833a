//! Guests that have ended.
ghost use Rattle.std.specs.Prelude.{◌≡◌};
ghost use Rattle.vmx_model.specs.Serial.{serial_run};
ghost use Rattle.vmx_replay_worlds.specs.Worlds.{world_of};
ghost use Rattle.vmx_replay_chains.specs.Views.{guest_views};
ghost use Rattle.vmx_replay_calls.specs.Resting.{RunRests, AllKeep};
ghost use Rattle.vmx_replay_kept.specs.Sound.{AllSound};
ghost use Rattle.vmx_replay_gather.specs.Ending.{AreOver};

use std::marker::Model;
use vmx_ends::Fabric;
use vmx_io::List;
use vmx_model::Plan;
use vmx_replay_guests::Guest;

/// The guests of a plan at the end of its run, by port: each driver was closed and has met all its ends. Contracts see the plan, and
/// what they see of each driver and device.
#[derive(Drop)]
pub struct Ended<'a, F: Fabric> {
    pub(crate) plan: &'a Plan,
    pub(crate) guests: List<Guest<'a, F>>,
}

impl<'a, F: Fabric> Model for Ended<'a, F> {
    ghost use Rattle.vmx_replay_chains.specs.Views.{guest_views};
    ghost use Rattle.vmx_replay_gather.specs.Ending.{EndedView, HaveEnded};

    ghost Value = { EndedView };

    ghost view = { λ e. record { plan = e.plan.now; guests = guest_views e.guests } };

    ghost invariant = { λ e. HaveEnded e.plan.now (guest_views e.guests) };
}

impl<'a, F: Fabric> Ended<'a, F> {
    /// Guests that stand for the world of their plan's serial run. It takes no memory.
    ///
    /// Conditions: no command is out, each end was told all that the other did, each end of each link heard as many notes as it gave,
    /// and each driver is over.
    pub fn new(plan: &'a Plan, guests: List<Guest<'a, F>>) -> Ended<'a, F>
        requires run { world_of (guest_views guests) ≡ serial_run plan.now }
        requires rests { RunRests plan.now (guest_views guests) }
        requires keeps { AllKeep (guest_views guests) }
        requires sound { AllSound (guest_views guests) }
        requires over { AreOver (guest_views guests) }
        ensures plan { result.plan ≡ plan.now }
        ensures guests { result.guests ≡ guest_views guests.entry }
    {
        Ended { plan, guests }
    }
}
