//! The last number of a plan and of a guest, counted as the numbers that a run goes over: it goes from 0 to the last number, without it.
ghost use Rattle.std.specs.Prelude.{◌≡◌, ◌≤◌, ◌+◌, length};
ghost use Rattle.vmx_model.specs.declared.limits.TheConstants.{MAX_NUMBER, MAX_RECORDS};
ghost use Rattle.vmx_model.specs.Serial.{last_at as last_at_of, last_number as last_number_of};
ghost use Rattle.vmx_plan_bounds.specs.Numbers.{AreEarly, last_of as last_of_guest};

use vmx_model::{Action, GuestPlan, Plan};

/// The last number of a plan, 0 to 262,145: the greatest of its guests'.
pub fn last_number(plan: &Plan) -> u32
    ensures last { result ≡ last_number_of plan.now.guests }
    ensures few { result ≤ MAX_NUMBER + 1 }
{
    let mut last: u32 = 0;
    for guest in plan.guests.as_slice() {
        last = last.max(last_of(guest));
    }
    last
}

/// The last number of a guest, 0 to 262,145: the number of its captured frames, or the greatest number of an action and 1.
pub fn last_of(guest: &GuestPlan) -> u32
    requires records { length guest.now.capture.records ≤ MAX_RECORDS }
    ensures last { result ≡ last_of_guest guest.now }
    ensures few { result ≤ MAX_NUMBER + 1 }
{
    let records = guest.capture.records.len() as u32;
    records.max(last_at(guest.script.as_slice()))
}

/// The greatest number of an action and 1, or 0 where there is none.
fn last_at(script: &[Action]) -> u32
    requires early { AreEarly script.now }
    ensures last { result ≡ last_at_of script.now }
    ensures few { result ≤ MAX_NUMBER + 1 }
{
    let mut last: u32 = 0;
    for action in script {
        last = last.max(action.at + 1);
    }
    last
}
