//! The serial replay.
ghost use Rattle.std.specs.Prelude.{IfOk};
ghost use Rattle.vmx_model.specs.Serial.{serial_run};
ghost use Rattle.vmx_model.specs.Record.{HasLists};
ghost use Rattle.vmx_model.specs.Account.{Accounts};

use std::alloc::{AllocError, Global};
use vmx_ends::Fabric;
use vmx_model::Plan;
use vmx_record::RecordOf;
use vmx_replay_actors::Run;
use vmx_replay_gather::{Ended, gather};
use vmx_replay_order::serial as order;

/// The record of the serial replay of a plan, over queues of any fabric: every guest is activated, in port order; then, number by number
/// and in port order, each guest does its actions of that number and sends its frame, whose targets take it one by one; at the end every
/// driver polls until nothing comes, and active guests are quiesced. `AllocError` is for want of memory alone.
pub fn serial<F: Fabric>(alloc: Global, plan: &Plan) -> Result<RecordOf<F>, AllocError>
    // Its lists are those of the model's serial run.
    ensures lists { IfOk result (λ r. HasLists r (serial_run plan.now)) }
    // Every copy of the plan has exactly one fate in it, and all else that a record owes its plan holds.
    ensures accounts { IfOk result (λ r. Accounts plan.now r) }
{
    let run = Run::<F>::begin(alloc, plan)?;
    let run = order(plan, run)?;
    gather(alloc, Ended::new(plan, run.guests()))
}
