//! The laws.
ghost use Rattle.std.specs.Prelude.{ℕ, true, List};
ghost use Rattle.vmx_model.specs.declared.plan.Plan.{Plan};
ghost use Rattle.vmx_replay_worlds.specs.Guests.{GuestView};
ghost use Rattle.vmx_replay_chains.specs.Chains.{ClosesOn, FollowsOn, LooksOn, PollsOn, RenewsBy, SendsOn};
ghost use Rattle.vmx_replay_calls.specs.Resting.{AllKeep, RunRests};
ghost use Rattle.vmx_replay_start.specs.Made.{AreMade};
ghost use Rattle.vmx_replay_kept.specs.Sound.{AllSound};

/// Each end of each link heard as many notes as it gave, and a driver stood behind the words of all ends that a device handed back: so
/// it is of new guests, and so it stays over each call of a replay's actors, where the run rested before it.
pub fn devices_stay_sound()
    ensures new { (plan : Plan) (rs : List GuestView) → AreMade plan rs → AllSound rs }
    ensures sends { (plan : Plan) (port : ℕ) (rs rs' : List GuestView) → RunRests plan rs → AllKeep rs → AllSound rs → SendsOn port rs rs' → AllSound rs' }
    ensures looks { (plan : Plan) (from to : ℕ) (rs rs' : List GuestView) → RunRests plan rs → AllKeep rs → AllSound rs → LooksOn from to rs rs' → AllSound rs' }
    ensures polls { (plan : Plan) (port n : ℕ) (rs rs' : List GuestView) → RunRests plan rs → AllKeep rs → AllSound rs → PollsOn port n rs rs' → AllSound rs' }
    ensures follows { (plan : Plan) (port : ℕ) (rs rs' : List GuestView) → RunRests plan rs → AllKeep rs → AllSound rs → FollowsOn port rs rs' → AllSound rs' }
    ensures renews { (plan : Plan) (port : ℕ) (rs rs' : List GuestView) → RunRests plan rs → AllKeep rs → AllSound rs → RenewsBy true port rs rs' → AllSound rs' }
    ensures closes { (plan : Plan) (port : ℕ) (rs rs' : List GuestView) → RunRests plan rs → AllKeep rs → AllSound rs → ClosesOn port rs rs' → AllSound rs' }
{}
