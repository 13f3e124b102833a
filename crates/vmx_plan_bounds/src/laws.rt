//! The bounds as laws, each the contract of a function that does nothing.
ghost use Rattle.std.specs.Prelude.{◌≡◌, ◌≢◌, ◌≤◌, ◌<◌, ℕ, List, All, length, Some, slice_get};
ghost use Rattle.vmx_switch.specs.declared.answer.TheConstants.{MAX_PORTS};
ghost use Rattle.vmx_model.specs.declared.plan.Plan.{Plan as PlanValue};
ghost use Rattle.vmx_model.specs.declared.guest.GuestPlan.{GuestPlan as GuestValue};
ghost use Rattle.vmx_model.specs.Totals.{wiring};
ghost use Rattle.vmx_model.specs.Wire.{targets};
ghost use Rattle.vmx_model.specs.Serial.{last_number as last_number_of};
ghost use Rattle.vmx_plan_bounds.specs.Numbers.{AreEarly, InOrder, last_of as last_of_guest};

/// A plan has at most 16 guests, and a frame goes to at most 16 ports, each another guest's.
pub fn plans_are_small()
    ensures guests { (plan : PlanValue) → length plan.guests ≤ MAX_PORTS }
    ensures targets { (plan : PlanValue) (from : ℕ) (frame : List ℕ) → length (targets (wiring plan.guests) from frame) ≤ MAX_PORTS }
    ensures ports { (plan : PlanValue) (from : ℕ) (frame : List ℕ) → All (λ to. (to < length plan.guests) × (to ≢ from)) (targets (wiring plan.guests) from frame) }
{}

/// The actions of a guest stand in the order of their numbers, and none has a number above 262,144.
pub fn scripts_are_in_order()
    ensures order { (guest : GuestValue) → InOrder guest.script }
    ensures early { (guest : GuestValue) → AreEarly guest.script }
{}

/// The last number of a plan is no less than that of each guest.
pub fn nothing_is_behind_the_last()
    ensures behind { (guests : List GuestValue) (port : ℕ) (guest : GuestValue) → slice_get guests port ≡ Some guest → last_of_guest guest ≤ last_number_of guests }
{}
