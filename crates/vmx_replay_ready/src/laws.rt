//! The laws.
ghost use Rattle.std.specs.Prelude.{List};
ghost use Rattle.std.specs.List.{AllByRecursion};
ghost use Rattle.vmx_model.specs.declared.plan.Plan.{Plan};
ghost use Rattle.vmx_replay_worlds.specs.Guests.{GuestView};
ghost use Rattle.vmx_replay_settled.specs.Settled.{ArePaired, BothKeep};
ghost use Rattle.vmx_replay_calls.specs.Resting.{RunRests};
ghost use Rattle.vmx_replay_start.specs.Made.{AreMade};

/// New guests of a plan rest, as guests do between any two calls of a run; both actors of each have one pair of registers, with ends
/// that are even, and what always holds of either holds of both.
pub fn new_guests_rest()
    ensures rest { (plan : Plan) (rs : List GuestView) → AreMade plan rs → RunRests plan rs }
    ensures paired { (plan : Plan) (rs : List GuestView) → AreMade plan rs → AllByRecursion (λ (r : GuestView). ArePaired r.driver r.device) rs }
    ensures keeps { (plan : Plan) (rs : List GuestView) → AreMade plan rs → AllByRecursion (λ (r : GuestView). BothKeep r.driver r.device) rs }
{}
