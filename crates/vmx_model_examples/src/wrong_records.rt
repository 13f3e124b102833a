//! Records that the accounts refuse.
ghost use Rattle.std.specs.Prelude.{◌≡◌, ℕ, List, [], ◌∷◌, None, Some, Ok, suc};
ghost use Rattle.vmx_shared_area.specs.Tells.{Reads};
ghost use Rattle.vmx_filters.specs.declared.answer.Rule.TheVariants.{Unicast};
ghost use Rattle.vmx_ends.specs.declared.frames.Sent.{Sent};
ghost use Rattle.vmx_ends.specs.Marks.{mark_with, plain_mark};
ghost use Rattle.vmx_model.specs.declared.journal.Entry.TheVariants.{In};
ghost use Rattle.vmx_model.specs.declared.journal.Fate.TheVariants.{Filtered, Stopped};
ghost use Rattle.vmx_model.specs.declared.plan.Plan.{Plan as PlanValue};
ghost use Rattle.vmx_model.specs.declared.guest.GuestPlan.{GuestPlan as GuestValue};
ghost use Rattle.vmx_model.specs.declared.journal.Entry.{Entry as EntryValue};
ghost use Rattle.vmx_shared_area.specs.declared.setup.Setup.{Setup as SetupValue};
ghost use Rattle.vmx_model.specs.Views.{GuestView, RecordView};
ghost use Rattle.vmx_model.specs.Journal.{IsLawful};
ghost use Rattle.vmx_model.specs.Meta.{whole};
ghost use Rattle.vmx_model.specs.Account.{Accounts, AccountsGuest, beside};
ghost use Rattle.vmx_model.specs.Stats.{tx_counts};
ghost use Rattle.vmx_model_examples.specs.Tags.{bare, other, up_as};
ghost use Rattle.vmx_model_examples.specs.RightRecord.{plain, twelve, ends_with, first_counts, unicast};
ghost use Rattle.vmx_model_examples.specs.WrongRecords.{one_more, beside_queues, third_filtered, filtering, counting};

/// Fates that are invented beside empty queues, a frame marked as filtered that the filter lets in, one without a buffer marked so, and a queue
/// that stops in a record: none of them accounts.
pub fn wrong_fates_are_refused()
    ensures invented { (image : List ℕ) → Accounts twelve (beside_queues image) → ⊥ }
    ensures admitted { (image : List ℕ) → Reads image (Ok plain) → Accounts twelve (filtering image third_filtered) → ⊥ }
    ensures without_buffer { (image : List ℕ) → Reads image (Ok plain) → Accounts twelve (filtering image (ends_with (Filtered Unicast))) → ⊥ }
    ensures stopped { (r : RecordView) (g : ℕ) (p : GuestValue) (v : GuestView) (setups : List SetupValue) (before : List EntryValue) (from place a q : ℕ) → IsLawful (beside r g p v) setups before (In from place (Stopped a q)) → ⊥ }
{}

/// A frame without a buffer that is counted nowhere or twice, a sent frame that is counted twice, and any count that is one too many.
pub fn wrong_counts_are_refused()
    ensures not_counted { (image : List ℕ) → Accounts twelve (counting image (first_counts (unicast 12 0 0)) (first_counts (unicast 11 0 0))) → ⊥ }
    ensures counted_twice { (image : List ℕ) → Accounts twelve (counting image (first_counts (unicast 12 0 0)) (first_counts (unicast 11 2 0))) → ⊥ }
    ensures sent_twice { (image : List ℕ) → Accounts twelve (counting image (first_counts (unicast 13 0 0)) (first_counts (unicast 11 1 0))) → ⊥ }
    ensures one_more { (plan : PlanValue) (r : RecordView) (g : ℕ) (p : GuestValue) (v : GuestView) → v.tx_stats ≡ one_more (tx_counts v.tx v.entries) → AccountsGuest plan r g p v → ⊥ }
{}

/// A tag that was not put in, and one that is lost on the way up.
pub fn lost_tags_are_refused()
    ensures mark { (f : Sent) → f ≡ record { frame = bare; mark = plain_mark } → f ≡ record { frame = bare; mark = mark_with (Some 5) } → ⊥ }
    ensures tci { whole (up_as 0 bare None) ≡ other → ⊥ }
{}
