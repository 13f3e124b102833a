//! What a serial run by the plan of `pair` leaves, each law the contract of a function that does nothing.
ghost use Rattle.std.specs.Prelude.{◌≡◌, List, [], ◌∷◌, map, slice_get, Some};
ghost use Rattle.vmx_pcap.specs.declared.records.Capture.{Capture as CaptureValue};
ghost use Rattle.vmx_pcap.specs.declared.records.Stamped.{Stamped as StampedValue};
ghost use Rattle.vmx_model.specs.declared.journal.Fate.{Fate as FateValue};
ghost use Rattle.vmx_model.specs.declared.plan.Plan.{Plan as PlanValue};
ghost use Rattle.vmx_model.specs.Fates.{all_fates};
ghost use Rattle.vmx_model.specs.Order.{CameUp, came_up};
ghost use Rattle.vmx_model.specs.Plan.{frames_of, stamped_of};
ghost use Rattle.vmx_model.specs.Record.{HasLists};
ghost use Rattle.vmx_model.specs.Serial.{Seat, serial_run};
ghost use Rattle.vmx_model.specs.Views.{GuestView, RecordView};
ghost use Rattle.vmx_pair_plan.specs.Plan.{IsPairPlan};
ghost use Rattle.vmx_pair_plan.specs.Fates.{fates_due, handed_up, sent_records};

/// Guest `a` is handed nothing, and guest `b` the frames that `a` sends: each once, in their order, unchanged. So in the run, and so in
/// every record that has its lists.
pub fn b_is_handed_what_a_sends()
    ensures run { (capture : CaptureValue) (plan : PlanValue) (p : IsPairPlan capture plan)
        → map (λ (s : Seat). s.received) (serial_run plan).seats ≡ [] ∷ handed_up 0 (frames_of p.a 0 0) ∷ [] }
    ensures told { (capture : CaptureValue) (plan : PlanValue) (p : IsPairPlan capture plan) (r : RecordView) → HasLists r (serial_run plan)
        → map (λ (v : GuestView). v.received) r.guests ≡ [] ∷ handed_up 0 (frames_of p.a 0 0) ∷ [] }
{}

/// Each captured frame has one copy, and that one the fate by the verdict on it: it comes up where the frame is sent, and else is down,
/// short or too long.
pub fn each_frame_has_its_fate()
    ensures fates { (capture : CaptureValue) (plan : PlanValue) (p : IsPairPlan capture plan) (r : RecordView) → HasLists r (serial_run plan)
        → all_fates plan r ≡ map (λ (f : FateValue). f ∷ []) (fates_due p.a) }
{}

/// The packets that came up at guest `b` are, in their order, those of the records that `a` sends: each has the stamp of its record.
pub fn b_is_handed_the_stamps()
    ensures stamps { (capture : CaptureValue) (plan : PlanValue) (p : IsPairPlan capture plan) (r : RecordView) → HasLists r (serial_run plan) → (v : GuestView) → slice_get r.guests 1 ≡ Some v
        → map (λ (u : CameUp). stamped_of plan u.packet.tag) (came_up r.links 1 v.entries) ≡ map (λ (x : StampedValue). Some x) (sent_records p.a) }
{}
