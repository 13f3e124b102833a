//! What table and summary say of a record with the lists of a run by the plan of `pair`, each law the contract of a function that does
//! nothing.
ghost use Rattle.std.specs.Prelude.{◌≡◌, ℕ, List, filter_map, slice_get, Some};
ghost use Rattle.vmx_pcap.specs.declared.records.Capture.{Capture as CaptureValue};
ghost use Rattle.vmx_pcap.specs.declared.records.Stamped.{Stamped as StampedValue};
ghost use Rattle.vmx_model.specs.declared.plan.Plan.{Plan as PlanValue};
ghost use Rattle.vmx_model.specs.declared.journal.Fate.TheVariants.{Up};
ghost use Rattle.vmx_model.specs.Record.{HasLists};
ghost use Rattle.vmx_model.specs.Serial.{serial_run};
ghost use Rattle.vmx_model.specs.Views.{RecordView};
ghost use Rattle.vmx_copies.specs.declared.copy.FrameCopy.{FrameCopy};
ghost use Rattle.vmx_copies.specs.Table.{IsTable};
ghost use Rattle.vmx_summary.specs.Summary.{summary};
ghost use Rattle.vmx_pair_plan.specs.Plan.{IsPairPlan};
ghost use Rattle.vmx_pair_plan.specs.Fates.{sent_records};
ghost use Rattle.vmx_pair_plan.specs.Summary.{summary as pair_summary};
ghost use Rattle.vmx_pair_table.specs.Rows.{record_up, rows_due};

/// The table has one row a captured frame of guest `a`, in order, by the verdict on it. The records of the rows whose frames came up at
/// guest `b` are just the records that `a` sends, in order; and a row that came up at a place is of the sent record of that place.
pub fn the_table_has_a_row_a_frame()
    ensures rows { (capture : CaptureValue) (plan : PlanValue) (p : IsPairPlan capture plan) (r : RecordView) → HasLists r (serial_run plan) → (rows : List FrameCopy) → IsTable plan r rows
        → rows ≡ rows_due p.a }
    ensures records { (capture : CaptureValue) (plan : PlanValue) (p : IsPairPlan capture plan) (r : RecordView) → HasLists r (serial_run plan) → (rows : List FrameCopy) → IsTable plan r rows
        → filter_map (record_up capture.records) rows ≡ sent_records p.a }
    ensures origins { (capture : CaptureValue) (plan : PlanValue) (p : IsPairPlan capture plan) (r : RecordView) → HasLists r (serial_run plan) → (rows : List FrameCopy) → IsTable plan r rows
        → (i : ℕ) (x : FrameCopy) → slice_get rows i ≡ Some x → (activation queue place : ℕ) → x.fate ≡ Up activation queue place
        → (s : StampedValue) × (slice_get capture.records x.number ≡ Some s) × (slice_get (sent_records p.a) place ≡ Some s) }
{}

/// The summary is the one that counts the verdicts on the captured frames of guest `a`.
pub fn the_summary_counts_the_verdicts()
    ensures summary { (capture : CaptureValue) (plan : PlanValue) (p : IsPairPlan capture plan) (r : RecordView) → HasLists r (serial_run plan) → summary plan r ≡ pair_summary p.a }
{}
