//! The beginning of a run.
ghost use Rattle.std.specs.Prelude.{length, IfOk};
ghost use Rattle.vmx_replay_chains.specs.Views.{guest_views};
ghost use Rattle.vmx_replay_actors.specs.Runs.{AreBegun};

use std::alloc::{AllocError, Global};
use vmx_ends::Fabric;
use vmx_io::List;
use vmx_model::Plan;
use vmx_replay_chains::renew;
use vmx_replay_guests::Guest;
use vmx_replay_start::new_guests;

/// The guests of a plan by port, each of which was activated, one after the other in port order.
pub(crate) fn activated_guests<'a, F: Fabric>(
    alloc: Global,
    plan: &'a Plan,
) -> Result<List<Guest<'a, F>>, AllocError>
    ensures begun { IfOk result (λ gs. AreBegun (length plan.now.guests) plan.now (guest_views gs)) }
{
    let ports = plan.guests.len() as u32;
    let mut guests = new_guests::<F>(alloc, plan)?;
    for port in 0..ports {
        renew(&mut guests, port)?;
    }
    Ok(guests)
}
