//! The steps by which journals, queues and the serial run grow, each the contract of a function that does nothing: what a device, a
//! driver and a replay need for their invariants.
ghost use Rattle.std.specs.List.{AllByRecursion};
ghost use Rattle.vmx_model.specs.Turns.{put_out, taken_in, takes_next, comes_up, IsReady};
ghost use Rattle.vmx_model.specs.Totals.{wiring};
ghost use Rattle.std.specs.Prelude.{◌≢◌, fold, ◌≡◌, ◌≤◌, ◌<◌, ◌+◌, ◌-◌, ℕ, Some, true, false, List, [], ◌∷◌, ◌++◌, length, filter_map, slice_get};
ghost use Rattle.vmx_model.specs.Types.{Plan as PlanValue, GuestPlan as GuestValue, Entry as EntryValue, Setup as SetupValue, Tag as TagValue};
ghost use Rattle.vmx_model.specs.Lists.{EachAfter, count};
ghost use Rattle.vmx_model.specs.Journal.{Beside, IsLawful, IsLawfulJournal, is_setting, has_setup, needs};
ghost use Rattle.vmx_model.specs.JournalSteps.{Extends};
ghost use Rattle.vmx_model.specs.Order.{came_up};
ghost use Rattle.vmx_model.specs.Wire.{targets};
ghost use Rattle.vmx_switch.specs.Ports.{Wiring};
ghost use Rattle.vmx_model.specs.Plan.{Captured, captured, goes_on};
ghost use Rattle.vmx_model.specs.Account.{deliveries, arrival_in, sends_on, planned, frame_sends};
ghost use Rattle.vmx_model.specs.Fates.{tag_at};
ghost use Rattle.vmx_model.specs.QueueSteps.{sent_before};
ghost use Rattle.vmx_model.specs.Serial.{World, Seat, start, turn, turns, rounds, poll, pending, emptied, drained, spread, reaches};

/// A lawful journal stays lawful with one more lawful entry, while commands, packets and setups are added; and what came up and was
/// delivered before stays as it was.
pub fn journal_grows()
    ensures lawful { (old new : Beside) → Extends old new → (setups more : List SetupValue) (es : List EntryValue) (e : EntryValue) → count is_setting es ≤ length old.told
        → IsLawfulJournal old es setups → IsLawful new (setups ++ more) es e → length more ≡ count has_setup (e ∷ []) → IsLawfulJournal new (es ++ e ∷ []) (setups ++ more) }
    ensures stays { (old new : Beside) → Extends old new → (setups : List SetupValue) (es : List EntryValue) → count is_setting es ≤ length old.told → IsLawfulJournal old es setups → IsLawfulJournal new es setups }
    ensures came_up { (old new : Beside) → Extends old new → (setups : List SetupValue) (es : List EntryValue) → EachAfter (IsLawful old setups) [] es
        → came_up new.links new.port es ≡ came_up old.links old.port es }
    ensures delivered { (old new : Beside) → Extends old new → (setups : List SetupValue) (a q : ℕ) (es : List EntryValue) → count is_setting es ≤ length old.told → EachAfter (IsLawful old setups) [] es
        → deliveries new a q [] es ≡ deliveries old a q [] es }
{}

/// One entry more is one more of what the entries list.
pub fn entries_add()
    ensures came_up { (b : Beside) (es : List EntryValue) (e : EntryValue) → came_up b.links b.port (es ++ e ∷ []) ≡ came_up b.links b.port es ++ came_up b.links b.port (e ∷ []) }
    ensures delivered { (b : Beside) (a q : ℕ) (es : List EntryValue) (e : EntryValue) → deliveries b a q [] (es ++ e ∷ []) ≡ deliveries b a q [] es ++ arrival_in b a q es e }
    ensures refused { (a q : ℕ) (es : List EntryValue) (e : EntryValue) → needs a q (es ++ e ∷ []) ≡ needs a q es ++ needs a q (e ∷ []) }
    ensures sends { (a q : ℕ) (es more : List EntryValue) → sends_on a q (es ++ more) ≡ sends_on a q es ++ sends_on a q more }
{}

/// One frame more of a queue is one more that goes to its targets; a captured frame that goes on a queue is the next that its driver
/// sends there, and any other is none.
pub fn frames_add()
    ensures planned { (w : Wiring) (g a q k : ℕ) (fs : List (List ℕ)) (f : List ℕ) → planned w g a q k (fs ++ f ∷ []) ≡ planned w g a q k fs ++ frame_sends (tag_at g a q (k + length fs)) (targets w g f) }
    ensures here { (p : GuestValue) (a q i : ℕ) (c : Captured) → slice_get (captured p) i ≡ Some c → goes_on p a q c ≡ true → sent_before p a q (i + 1) ≡ sent_before p a q i ++ c ∷ [] }
    ensures other { (p : GuestValue) (a q i : ℕ) (c : Captured) → slice_get (captured p) i ≡ Some c → goes_on p a q c ≡ false → sent_before p a q (i + 1) ≡ sent_before p a q i }
{}

/// The serial run, one guest and one captured number on; a poll of a guest that is to be emptied or drained leaves it to be, and takes what
/// it hands up from what is pending; where it hands up nothing, nothing is pending.
pub fn run_goes_on()
    ensures turns { (plan : PlanValue) (n g : ℕ) (w : World) → turns plan n (g + 1) w ≡ turn plan n g (turns plan n g w) }
    ensures rounds { (plan : PlanValue) (n : ℕ) (w : World) → rounds plan (n + 1) w ≡ turns plan n (length plan.guests) (rounds plan n w) }
    ensures emptied { (s : Seat) → emptied (poll (s.begun - 1) s) ≡ emptied s }
    ensures emptied_stays { (s : Seat) → comes_up (s.begun - 1) s ≡ [] → emptied s ≡ s }
    ensures less { (a : ℕ) (s : Seat) → pending (poll a s).rx + length (comes_up a s) ≡ pending s.rx }
    ensures polls { (s : Seat) → s.active ≡ true → drained (poll (s.begun - 1) s) ≡ drained s }
{}

/// Where all links are emptied, the copies of a frame that cross their links one by one, each taken at once, leave what they leave where
/// the sender's device first gives all of them to the links, and each target's device then takes its own, or whatever stands next on its link.
pub fn spread_in_turns()
    ensures turns { (plan : PlanValue) (t : TagValue) (f : List ℕ) (to : ℕ) (tos : List ℕ) (w : World) → AllByRecursion (λ to. t.guest ≢ to) (to ∷ tos) → AllByRecursion (λ l. l.pulled ≡ l.pushed) w.wires
        → spread plan t f (to ∷ tos) w ≡ fold (taken_in plan t f) (fold (put_out t f) w (to ∷ tos)) (to ∷ tos) }
    ensures looks { (plan : PlanValue) (t : TagValue) (f : List ℕ) (w : World) → IsReady plan w → t.guest < length plan.guests
        → fold (takes_next plan t.guest) (fold (put_out t f) w (targets (wiring plan.guests) t.guest f)) (targets (wiring plan.guests) t.guest f) ≡ fold (reaches plan t f) w (targets (wiring plan.guests) t.guest f) }
{}

/// Between two steps of the serial run all links and guests are there, and what was pushed is pulled.
pub fn stays_ready()
    ensures start { (plan : PlanValue) → IsReady plan (start plan) }
    ensures turn { (plan : PlanValue) (n g : ℕ) (w : World) → IsReady plan w → IsReady plan (turn plan n g w) }
{}
