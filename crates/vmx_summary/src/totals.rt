//! What a plan's guests captured together.
ghost use Rattle.std.specs.Prelude.{◌≡◌};
ghost use Rattle.vmx_model.specs.Totals.{records_of};
ghost use Rattle.vmx_summary.specs.Summary.{tails_of};

use vmx_model::Plan;

/// The records of all captures.
pub(crate) fn captured(plan: &Plan) -> u64
    ensures captured { result ≡ records_of plan.now.guests }
{
    let mut captured = 0;
    for guest in plan.guests.as_slice() {
        captured += guest.capture.records.len() as u64;
    }
    captured
}

/// The bytes behind the last whole records of all captures.
#[tactic(auto, using(crate::proofs::Counts::few_tails))]
pub(crate) fn tail(plan: &Plan) -> u64
    ensures tail { result ≡ tails_of plan.now.guests }
{
    let mut tail = 0;
    for guest in plan.guests.as_slice() {
        tail += u64::from(guest.capture.tail);
    }
    tail
}
