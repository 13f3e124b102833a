//! What the plan of `pair` says of the frames of its capture, each law the contract of a function that does nothing.
ghost use Rattle.std.specs.Prelude.{◌≡◌, ℕ, Some, filter, length, map, slice_get, take};
ghost use Rattle.vmx_pcap.specs.declared.records.Capture.{Capture as CaptureValue};
ghost use Rattle.vmx_pcap.specs.declared.records.Stamped.{Stamped as StampedValue};
ghost use Rattle.vmx_model.specs.declared.plan.Plan.{Plan as PlanValue};
ghost use Rattle.vmx_model.specs.Lists.{count};
ghost use Rattle.vmx_model.specs.Plan.{captured_as, frames_of, verdict_on};
ghost use Rattle.vmx_shared_area.specs.declared.setup.TheConstants.{DEFAULT_MTU};
ghost use Rattle.vmx_pair_plan.specs.Plan.{IsPairPlan};
ghost use Rattle.vmx_pair_plan.specs.Lengths.{is_sent, sending_of};
ghost use Rattle.vmx_pair_plan.specs.Fates.{sent_records};

/// The verdict on each frame of guest `a` goes by its length: below 14 bytes it is short, above 1,518 too long, and else it is sent on
/// queue 0 of activation 0, behind those that were captured before it and are sent. So the sent records are those of such lengths, in
/// their order, and their frames go over the wire as they were captured.
pub fn lengths_decide()
    ensures verdict { (capture : CaptureValue) (plan : PlanValue) (p : IsPairPlan capture plan) (i : ℕ) (r : StampedValue) → slice_get capture.records i ≡ Some r
        → verdict_on p.a (captured_as p.a i r) ≡ sending_of DEFAULT_MTU (count (is_sent DEFAULT_MTU) (take i capture.records)) (length r.frame) }
    ensures sent { (capture : CaptureValue) (plan : PlanValue) (p : IsPairPlan capture plan) → sent_records p.a ≡ filter (is_sent DEFAULT_MTU) capture.records }
    ensures frames { (capture : CaptureValue) (plan : PlanValue) (p : IsPairPlan capture plan) → frames_of p.a 0 0 ≡ map (λ r. r.frame) (sent_records p.a) }
{}
