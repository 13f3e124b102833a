//! The laws on records, each the contract of a function that does nothing.
ghost use Rattle.vmx_model.specs.Types.{Plan as PlanValue, Tag as TagValue};
ghost use Rattle.vmx_model.specs.Order.{CameUp, came_up};
ghost use Rattle.vmx_model.specs.Views.{RecordView};
ghost use Rattle.vmx_model.specs.Types.{GuestPlan as GuestValue};
ghost use Rattle.std.specs.Prelude.{ℕ, ◌≡◌, false, List, Some, slice_get};
ghost use Rattle.std.specs.List.{AllByRecursion};
ghost use Rattle.vmx_model.specs.declared.sending.Sending.TheVariants.{Sent};
ghost use Rattle.vmx_model.specs.Plan.{Captured, captured, verdict_on, ends_by_reset, frame_of, stamped_of, HasStamp};
ghost use Rattle.vmx_model.specs.Fates.{fates_of};
ghost use Rattle.vmx_model.specs.AccountLaws.{IsNotDiscarded};
ghost use Rattle.vmx_model.specs.Views.{GuestView};
ghost use Rattle.vmx_model.specs.Account.{Premises, LeavesGuest, Accounts};
ghost use Rattle.vmx_model.specs.Bags.{GuestActors, Actors};
ghost use Rattle.vmx_model.specs.Serial.{serial_run};
ghost use Rattle.vmx_model.specs.Record.{HasLists};
ghost use Rattle.vmx_model.specs.Left.{NothingIsLeft, RunsInOrder};

/// A record whose parts are those of whole runs accounts for the plan: each copy has exactly one fate, each fate its cause, order and
/// flows are kept, and statistics are counts.
pub fn law_of_parts()
    ensures accounts { (plan : PlanValue) (r : RecordView) → Premises plan r → Accounts plan r }
{}

/// A frame whose verdict says that it is sent, in an activation that no scripted reset ended, is not discarded: so `Discarded` comes only
/// in an activation that one ended.
pub fn only_a_reset_discards()
    ensures kept { (plan : PlanValue) (r : RecordView) → Accounts plan r → (g : ℕ) (p : GuestValue) (v : GuestView) → slice_get plan.guests g ≡ Some p → slice_get r.guests g ≡ Some v
        → (c : Captured) → slice_get (captured p) c.number ≡ Some c → (a q k : ℕ) → verdict_on p c ≡ Sent a q k → ends_by_reset p a ≡ false → AllByRecursion (AllByRecursion IsNotDiscarded) (fates_of plan r g p c) }
{}

/// The frame of a tag is the wire form of the record of a capture that the tag names, and so is each packet's frame that came up in a
/// record that accounts: its stamp is that record's.
pub fn frames_have_stamps()
    ensures tags { (plan : PlanValue) (t : TagValue) (f : List ℕ) → frame_of plan t ≡ Some f → HasStamp (slice_get plan.guests t.guest) (stamped_of plan t) f }
    ensures came_up { (plan : PlanValue) (r : RecordView) → Accounts plan r → (g : ℕ) (p : GuestValue) (v : GuestView) → slice_get plan.guests g ≡ Some p → slice_get r.guests g ≡ Some v
        → AllByRecursion (λ (u : CameUp). HasStamp (slice_get plan.guests u.packet.tag.guest) (stamped_of plan u.packet.tag) u.packet.frame) (came_up r.links g v.entries) }
{}

/// What a device hands back in its bags, and what its driver's facts say, are what a guest leaves: the registers tell of each bag its
/// ends' lists of numbers, and these determine frames, meta and refused looks.
pub fn bags_tell()
    ensures leaves { (plan : PlanValue) (r : RecordView) (g : ℕ) (p : GuestValue) (v : GuestView) → GuestActors plan r g p v → LeavesGuest plan r g p v }
{}

/// What the devices at the two ends of each link say, and the meeting of the ends, is what a link leaves: a packet on it has the frame
/// that its sender's device took, since that device says so of its own ends. So what all actors leave are the premises of the law.
pub fn links_tell()
    ensures premises { (plan : PlanValue) (r : RecordView) → Actors plan r → Premises plan r }
{}

/// A record with the lists of the serial run leaves nothing on its way: what was pushed is pulled, what was sent is taken, completed and
/// reaped, what was delivered is received.
pub fn nothing_is_left()
    ensures left { (plan : PlanValue) (r : RecordView) → HasLists r (serial_run plan) → NothingIsLeft r }
{}

/// In a record with the lists of the serial run the set commands of each guest are its plan's, each answered 0; the first stands before
/// all traffic, and where the plan closes with a quiesce, that one behind all of it; and no link was found full.
pub fn runs_in_order()
    ensures order { (plan : PlanValue) (r : RecordView) → HasLists r (serial_run plan) → RunsInOrder plan r }
{}
