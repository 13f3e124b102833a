//! The laws, each the contract of a function that does nothing.
ghost use Rattle.std.specs.Prelude.{◌≡◌, ◌≤◌, ◌+◌, ℕ, true, false, Some, [], length, slice_get};
ghost use Rattle.vmx_pcap.specs.declared.records.Stamped.{Stamped as StampedValue};
ghost use Rattle.vmx_model.specs.declared.guest.GuestPlan.{GuestPlan as GuestValue};
ghost use Rattle.vmx_ends.specs.declared.frames.Sent.{Sent as SentValue};
ghost use Rattle.vmx_model.specs.declared.plan.Plan.{Plan as PlanValue};
ghost use Rattle.vmx_model.specs.Serial.{World};
ghost use Rattle.vmx_model.specs.declared.sending.Sending.{Sending as SendingValue};
ghost use Rattle.vmx_model.specs.declared.sending.Sending.TheVariants.{Sent};
ghost use Rattle.vmx_model.specs.Wire.{tx_queue};
ghost use Rattle.vmx_model.specs.Plan.{captured_as, place_of, verdict_on};
ghost use Rattle.vmx_driver_steps.specs.declared.progress.Progress.{Progress as ProgressValue};
ghost use Rattle.vmx_driver_steps.specs.declared.progress.Due.TheVariants.{Nothing};
ghost use Rattle.vmx_driver_steps.specs.Progress.{due_of};
ghost use Rattle.vmx_driver_steps.specs.Driving.{PassesOver};
ghost use Rattle.vmx_replay_runs.specs.Runs.{is_of, put_by, targets_by};
ghost use Rattle.vmx_replay_due.specs.Standing.{HasGone, StandsAt, HasActed, is_action, is_frame, is_sent};

/// What is due with a driver that stands at a number tells of the serial order: whether its next action is of this number; and, where
/// it has begun all actions up to the number, whether the frame of the number is sent, and then on which queue, of the activation in
/// hand. Behind its script and its capture nothing is due.
pub fn due_tells()
    ensures acting { (n : ℕ) (p : GuestValue) (s : ProgressValue) → StandsAt n p s → is_action n (due_of p s false) ≡ is_of n (slice_get p.script s.done) }
    ensures sent { (n : ℕ) (p : GuestValue) (s : ProgressValue) (r : StampedValue) → StandsAt n p s → HasActed n p s.done → slice_get p.capture.records n ≡ Some r
        → is_frame n (due_of p s false) ≡ is_sent (verdict_on p (captured_as p n r)) }
    ensures queue { (n : ℕ) (p : GuestValue) (s : ProgressValue) (r : StampedValue) → StandsAt n p s → HasActed n p s.done → slice_get p.capture.records n ≡ Some r → is_frame n (due_of p s false) ≡ true
        → (s.next ≡ n) × (verdict_on p (captured_as p n r) ≡ Sent s.ended (tx_queue r.frame p.setup.tx_queues) (place_of p s.ended (tx_queue r.frame p.setup.tx_queues) n)) }
    ensures over { (n : ℕ) (p : GuestValue) (s : ProgressValue) → StandsAt n p s → length p.script ≤ s.done → length p.capture.records ≤ n → due_of p s false ≡ Nothing }
{}

/// A driver that has gone through the frames below a number goes on: to the next number by posting its frame, or where that frame is not
/// sent; and it stays where it passes over frames.
pub fn gone_goes_on()
    ensures posted { (n next : ℕ) (p : GuestValue) → PassesOver p (n + 1) next → HasGone (n + 1) p next }
    ensures unsent { (n : ℕ) (p : GuestValue) (s : ProgressValue) → StandsAt n p s → HasActed n p s.done → is_frame n (due_of p s false) ≡ false → HasGone (n + 1) p s.next }
    ensures passed { (n from to : ℕ) (p : GuestValue) → HasGone n p from → PassesOver p from to → HasGone n p to }
{}

/// A frame that is not sent is put nowhere: it leaves the world as it is, and has no target.
pub fn unsent_stays()
    ensures stays { (plan : PlanValue) (port : ℕ) (posted : SentValue) (s : SendingValue) (w : World) → is_sent s ≡ false → (put_by plan port posted s w ≡ w) × (targets_by plan port posted s ≡ []) }
{}
