//! The laws, each the contract of a function that does nothing. Own to this project.
ghost use Rattle.std.specs.Prelude.{◌≡◌, ◌≢◌, ◌<◌, ℕ, suc, List, length, Some, None, slice_get, slice_set};
ghost use Rattle.std.specs.List.{AllByRecursion};
ghost use Rattle.vmx_ends.specs.declared.frames.Sent.{Sent};
ghost use Rattle.vmx_ends.specs.declared.packet.Packet.{Packet};
ghost use Rattle.vmx_ends.specs.declared.packet.Tag.{Tag};
ghost use Rattle.vmx_link.specs.Views.{LinkOutView, LinkInView};
ghost use Rattle.vmx_model.specs.Bags.{Pairwise};
ghost use Rattle.vmx_model.specs.Record.{carried_of};
ghost use Rattle.vmx_model.specs.declared.guest.GuestPlan.{GuestPlan};
ghost use Rattle.vmx_model.specs.declared.plan.Plan.{Plan};
ghost use Rattle.vmx_model.specs.Serial.{Seat, Wire, where_it, activated, at_number, is_wire, start, transmitted};
ghost use Rattle.vmx_model.specs.Turns.{IsEmptied, AreEmptied, at_guest, comes_in, next_on, pulled_on, pulls};
ghost use Rattle.vmx_device_laws.specs.Views.{DeviceView};
ghost use Rattle.vmx_driver_steps.specs.Driver.{DriverView};
ghost use Rattle.vmx_replay_worlds.specs.Guests.{GuestView};
ghost use Rattle.vmx_replay_worlds.specs.Worlds.{world_of};
ghost use Rattle.vmx_replay_worlds.specs.Ports.{AreAtPorts, HasAll, Lies, IsLinkOf, IsBare};
ghost use Rattle.vmx_replay_worlds.specs.Starts.{AreNewGuests, started};
ghost use Rattle.vmx_replay_worlds.specs.Notes.{DriverNotes, DeviceNotes};
ghost use Rattle.vmx_replay_worlds.specs.Moves.{IsSameGuest, MovesOne, PutsOn, Waits, TakesOn};
ghost use Rattle.vmx_replay_runs.specs.Runs.{put_to};

/// Where one guest moved and its links are as before, the world is as before but for its seat.
pub fn a_guest_moves()
    ensures moves { (rs rs' : List GuestView) (port : ℕ) (change : Seat → Seat) → MovesOne rs port change rs' → world_of rs' ≡ at_guest port change (world_of rs) }
    ensures same { (rs : List GuestView) (port : ℕ) (before after : GuestView) → slice_get rs port ≡ Some before → IsSameGuest before after → world_of (slice_set rs port after) ≡ world_of rs }
{}

/// No note that an end gives or hears changes the world.
pub fn notes_move_nothing()
    ensures driver { (r : GuestView) (v : DriverView) → DriverNotes r.driver v → IsSameGuest r (record r { driver = v }) }
    ensures device { (r : GuestView) (d : DeviceView) → DeviceNotes r.device d → IsSameGuest r (record r { device = d }) }
{}

/// A frame that a driver posts, and its device takes, completes and gives to links with room, goes through its queue and is put out in
/// the world as well.
pub fn a_frame_goes_out()
    ensures puts { (rs rs' : List GuestView) (t : Tag) (posted : Sent) (frame tos : List ℕ) → AreAtPorts rs → PutsOn rs t posted frame tos rs' → world_of rs' ≡ put_to t frame tos (at_guest t.guest (transmitted t.activation t.queue posted) (world_of rs)) }
{}

/// A packet that waits on a link is the world's next one there, and on a bare link there is none; where its receiver's device pulls and handles it, it is pulled and
/// comes in in the world as well.
pub fn a_packet_comes_in()
    ensures next { (rs : List GuestView) (from to : ℕ) (x : Packet) → AreAtPorts rs → Waits rs from to x → next_on (world_of rs).wires from to ≡ Some (carried_of x) }
    ensures none { (rs : List GuestView) (from to : ℕ) (l : Lies rs from to) → AreAtPorts rs → IsBare l.link l.end → next_on (world_of rs).wires from to ≡ None }
    ensures takes { (mac : List ℕ) (rs rs' : List GuestView) (from to : ℕ) (x : Packet) (w : Waits rs from to x) → AreAtPorts rs → TakesOn mac rs from to x w rs'
        → world_of rs' ≡ record { seats = at_number to (comes_in mac from (pulled_on (world_of rs).wires from to) x.frame) (world_of rs).seats; wires = where_it (is_wire from to) (pulls (carried_of x)) (world_of rs).wires } }
{}

/// Each link to a guest has its sender's end, and between two ports there is one link, at its number among those to its receiver. Where
/// the world has nothing on its wires, nothing is on the links.
pub fn a_guest_has_its_links()
    ensures links { (rs : List GuestView) (to : ℕ) (r : GuestView) → AreAtPorts rs → AllByRecursion (HasAll (length rs)) rs → slice_get rs to ≡ Some r → (links : List LinkOutView) × Pairwise (IsLinkOf rs to) links r.device.input }
    ensures bare { (rs : List GuestView) (to : ℕ) (r : GuestView) → AreAtPorts rs → slice_get rs to ≡ Some r → (links : List LinkOutView) → Pairwise (IsLinkOf rs to) links r.device.input → AreEmptied (world_of rs) → Pairwise IsBare links r.device.input }
    ensures between { (rs : List GuestView) (from to : ℕ) → AreAtPorts rs → AllByRecursion (HasAll (length rs)) rs → from < length rs → to < length rs → to ≢ from → Lies rs from to }
    ensures number { (rs : List GuestView) (from to : ℕ) (l : Lies rs from to) (links : List LinkOutView) → AreAtPorts rs → Pairwise (IsLinkOf rs to) links l.receiver.device.input → slice_get links l.k ≡ Some l.link }
    ensures others { (rs : List GuestView) (from to : ℕ) (l : Lies rs from to) (links : List LinkOutView) → AreAtPorts rs → Pairwise (IsLinkOf rs to) links l.receiver.device.input → AllByRecursion (λ (w : Wire). w.from ≢ from → IsEmptied w) (world_of rs).wires
        → (n : ℕ) (o : LinkOutView) (i : LinkInView) → n ≢ l.k → slice_get links n ≡ Some o → slice_get l.receiver.device.input n ≡ Some i → IsBare o i }
{}

/// New guests of a plan stand for the world in which nobody is activated; activating one after the other in port order leads to the
/// start of the serial run.
pub fn guests_start()
    ensures new { (plan : Plan) (rs : List GuestView) → AreNewGuests (length plan.guests) 0 plan.guests rs → world_of rs ≡ started 0 plan }
    ensures next { (plan : Plan) (k : ℕ) (g : GuestPlan) → slice_get plan.guests k ≡ Some g → at_guest k (activated k g) (started k plan) ≡ started (suc k) plan }
    ensures last { (plan : Plan) → started (length plan.guests) plan ≡ start plan }
{}
