//! The laws, each the contract of a function that does nothing. Own to this project.
ghost use Rattle.std.specs.Prelude.{◌≡◌, ◌-◌, ℕ, Bool, true, false, is_some, List, length};
ghost use Rattle.vmx_ends.specs.Transmit.{TxDriverView, TxDeviceView};
ghost use Rattle.vmx_ends.specs.Receive.{RxDriverView, RxDeviceView};
ghost use Rattle.vmx_ends.specs.declared.packet.Packet.{Packet};
ghost use Rattle.vmx_link.specs.Views.{LinkOutView};
ghost use Rattle.vmx_machine_state.specs.Views.{MachineView};
ghost use Rattle.vmx_model.specs.Bags.{Pairwise};
ghost use Rattle.vmx_model.specs.Serial.{activated, emptied, poll, set_command};
ghost use Rattle.vmx_model.specs.Turns.{comes_up};
ghost use Rattle.vmx_device_looks.specs.Looks.{with_tx, with_rx};
ghost use Rattle.vmx_device_laws.specs.Views.{DeviceView};
ghost use Rattle.vmx_device_laws.specs.Pairs.{tx_of, rx_of};
ghost use Rattle.vmx_driver_steps.specs.declared.progress.Then.{Then};
ghost use Rattle.vmx_driver_steps.specs.declared.progress.Stage.TheVariants.{Active};
ghost use Rattle.vmx_driver_steps.specs.Progress.{in_hand, setup_now};
ghost use Rattle.vmx_driver_steps.specs.Driver.{DriverView, Keeps};
ghost use Rattle.vmx_driver_steps.specs.Driving.{PollsAll, ReapsAll, WaitsForRoom, LooksOnce, unreaped};
ghost use Rattle.vmx_driver_steps.specs.Dues.{FrameDue};
ghost use Rattle.vmx_driver_steps.specs.Near.{IsNearTx, IsNearRx};
ghost use Rattle.vmx_note_laws.specs.Each.{EachPasses};
ghost use Rattle.vmx_note_laws.specs.Queues.{PassesTx, IsToldRx, IsBehindRx, PassesRx};
ghost use Rattle.vmx_trusted_turns.specs.Trusted.{IsTrusted};
ghost use Rattle.vmx_replay_worlds.specs.Guests.{GuestView, begun_by, seat_of};
ghost use Rattle.vmx_replay_worlds.specs.Moves.{IsSameGuest};
ghost use Rattle.vmx_replay_steps.specs.Between.{IsThrough, IsToldSent, WasSent, WasPosted, WasDelivered};
ghost use Rattle.vmx_replay_steps.specs.Polls.{PollsBetween};
ghost use Rattle.vmx_replay_steps.specs.Commands.{WasAnswered, StopsBetween, UpdatesBetween, ActivatesBetween, MeetsBetween, stopped};
ghost use Rattle.vmx_replay_steps.specs.Waits.{KnowsCompleted, KnowsAnswer};
ghost use Rattle.vmx_replay_steps.specs.Turns.{StandsTogether, SendsBetween, WasPutOut, LooksBetween, WasTakenIn, IdlesBetween, RestsAfter};

/// A poll of a driver with queues in hand, which was told of all that was delivered, is the serial run's poll; one of a driver with none
/// finds nothing.
pub fn a_driver_polls()
    ensures seat { (r : GuestView) (n : ℕ) (v : DriverView) → PollsBetween r n v → seat_of (record r { driver = v }) ≡ poll (begun_by r.driver - 1) (seat_of r) }
    ensures count { (r : GuestView) (n : ℕ) (v : DriverView) → PollsBetween r n v → n ≡ length (comes_up (begun_by r.driver - 1) (seat_of r)) }
    ensures idle { (r : GuestView) (n : ℕ) (v : DriverView) → Keeps r.driver → in_hand r.driver.at.stage ≡ 0 → PollsAll r.driver n v → (seat_of (record r { driver = v }) ≡ seat_of r) × (n ≡ 0) }
{}

/// A device is active just while its driver is, where both stand together.
pub fn a_device_is_active_as_its_driver()
    ensures on { (v : DriverView) (d : DeviceView) → StandsTogether v d → v.at.stage ≡ Active → is_some d.machine.active ≡ true }
    ensures off { (v : DriverView) (d : DeviceView) → StandsTogether v d → in_hand v.at.stage ≡ 0 → is_some d.machine.active ≡ false }
{}

/// A turn of a device between notes finds what was there, and nothing else: a frame that its driver posted goes through its queue and
/// out to its targets; a packet that waited on a link comes in; where nothing was there, nothing changes.
pub fn a_turn_finds_what_was_there()
    ensures frame { (v v' : DriverView) (links : List LinkOutView) (worked : Bool) (old new : DeviceView) → SendsBetween v v' links worked old new → WasPutOut v v' old new }
    ensures packet { (v : DriverView) (links : List LinkOutView) (k : ℕ) (x : Packet) (worked : Bool) (old new : DeviceView) (b : LooksBetween v links k x worked old new) → WasTakenIn v k x old new b.input }
    ensures nothing { (v : DriverView) (links : List LinkOutView) (worked : Bool) (old new : DeviceView) → IdlesBetween v links worked old new → RestsAfter v old new }
{}

/// A command that a driver sends, its device answers in a turn, and the driver takes the answer of: a quiesce or a reset makes the
/// device idle, and its ends come back as they were; an update changes the setup alone; an activation makes it active with new queues. After
/// an update or an activation both stand together again, so all that was sent is taken, and notes of the receive queues may go behind
/// an activation, and behind an update where notes had told both sides before it.
pub fn a_command_is_answered()
    ensures stops { (number : ℕ) (t : Then) (v v1 v2 : DriverView) (links : List LinkOutView) (worked : Bool) (old new : DeviceView) → StopsBetween number t v v1 v2 links worked old new → WasAnswered (stopped number) v v2 old new }
    ensures updates { (number : ℕ) (v v1 v2 : DriverView) (links : List LinkOutView) (worked : Bool) (old new : DeviceView) → UpdatesBetween number v v1 v2 links worked old new
        → WasAnswered (λ s. set_command (record s { setup = setup_now v.plan v1.at }) number) v v2 old new }
    ensures activates { (v v1 v2 : DriverView) (links : List LinkOutView) (worked : Bool) (old new : DeviceView) → ActivatesBetween v v1 v2 links worked old new → WasAnswered (activated v.guest v.plan) v v2 old new }
    ensures updated { (number : ℕ) (v v1 v2 : DriverView) (links : List LinkOutView) (worked : Bool) (old new : DeviceView) → UpdatesBetween number v v1 v2 links worked old new → StandsTogether v2 new }
    ensures activated_ { (v v1 v2 : DriverView) (links : List LinkOutView) (worked : Bool) (old new : DeviceView) → ActivatesBetween v v1 v2 links worked old new → StandsTogether v2 new }
    ensures behind { (v v1 v2 : DriverView) (links : List LinkOutView) (worked : Bool) (old new : DeviceView) → ActivatesBetween v v1 v2 links worked old new → Pairwise IsBehindRx v2.rx (rx_of new.machine.active) }
    ensures still_behind { (number : ℕ) (v v1 v2 : DriverView) (links : List LinkOutView) (worked : Bool) (old new : DeviceView) → UpdatesBetween number v v1 v2 links worked old new → Pairwise IsToldRx v.rx (rx_of old.machine.active)
        → Pairwise IsBehindRx v2.rx (rx_of new.machine.active) }
{}

/// A driver that has both ends of its queues hands up what is left and lets all ends meet: in the serial run it polls until nothing
/// comes.
pub fn all_ends_meet()
    ensures meets { (t : Then) (r : GuestView) (w u : DriverView) → MeetsBetween t r w u → seat_of (record r { driver = u }) ≡ emptied (seat_of r) }
{}

/// A driver that was told of all that its device did waits for nothing: where a frame is due its ring has room, after reaping nothing
/// is left to be reaped, and a look at an answer finds it.
pub fn a_told_driver_waits_for_nothing()
    ensures room { (v w : DriverView) → Keeps v → FrameDue v.plan v.at → KnowsCompleted v → WaitsForRoom v w → ⊥ }
    ensures reaped { (v w : DriverView) → KnowsCompleted v → ReapsAll v w → unreaped w.tx ≡ 0 }
    ensures answer { (v w : DriverView) → KnowsAnswer v → LooksOnce v w → ⊥ }
{}

/// Notes both ways of all queues: each device's end was told of all that was sent, and neither side did what the other knows nothing of;
/// in the serial run the guest is as before.
pub fn notes_pass_all_queues()
    ensures told { (ds : List TxDriverView) (es : List TxDeviceView) (ds' : List TxDriverView) (es' : List TxDeviceView) → EachPasses PassesTx ds es ds' es' → Pairwise IsToldSent ds es' }
    ensures sent { (ds : List TxDriverView) (es : List TxDeviceView) (ds' : List TxDriverView) (es' : List TxDeviceView) → EachPasses PassesTx ds es ds' es' → Pairwise WasSent ds es }
    ensures posted { (ds : List RxDriverView) (es : List RxDeviceView) (ds' : List RxDriverView) (es' : List RxDeviceView) → EachPasses PassesRx ds es ds' es' → Pairwise WasPosted ds es }
    ensures delivered { (ds : List RxDriverView) (es : List RxDeviceView) (ds' : List RxDriverView) (es' : List RxDeviceView) → EachPasses PassesRx ds es ds' es' → Pairwise WasDelivered ds es }
    ensures tx_driver { (r : GuestView) (v : DriverView) (es es' : List TxDeviceView) → EachPasses PassesTx r.driver.tx es v.tx es' → v ≡ record r.driver { tx = v.tx } → IsSameGuest r (record r { driver = v }) }
    ensures rx_driver { (r : GuestView) (v : DriverView) (es es' : List RxDeviceView) → EachPasses PassesRx r.driver.rx es v.rx es' → v ≡ record r.driver { rx = v.rx } → IsSameGuest r (record r { driver = v }) }
    ensures tx_device { (r : GuestView) (d : DeviceView) (ds ds' : List TxDriverView) → EachPasses PassesTx ds (tx_of r.device.machine.active) ds' (tx_of d.machine.active) → d ≡ record r.device { machine = with_tx (tx_of d.machine.active) r.device.machine }
        → IsSameGuest r (record r { device = d }) }
    ensures rx_device { (r : GuestView) (d : DeviceView) (ds ds' : List RxDriverView) → EachPasses PassesRx ds (rx_of r.device.machine.active) ds' (rx_of d.machine.active) → d ≡ record r.device { machine = with_rx (rx_of d.machine.active) r.device.machine }
        → IsSameGuest r (record r { device = d }) }
{}

/// Notes of all queues leave what stands between two steps: a driver's ends are as before but for what they heard and gave, what is
/// taken is still all that was sent, and the device is trusted. What a device took later had been sent before the notes.
pub fn notes_leave_what_stands()
    ensures near_tx { (ds : List TxDriverView) (es : List TxDeviceView) (ds' : List TxDriverView) (es' : List TxDeviceView) → EachPasses PassesTx ds es ds' es' → Pairwise IsNearTx ds ds' }
    ensures near_rx { (ds : List RxDriverView) (es : List RxDeviceView) (ds' : List RxDriverView) (es' : List RxDeviceView) → EachPasses PassesRx ds es ds' es' → Pairwise IsNearRx ds ds' }
    ensures through_ { (ds : List TxDriverView) (es : List TxDeviceView) (ds' : List TxDriverView) (es' : List TxDeviceView) → EachPasses PassesTx ds es ds' es' → Pairwise IsThrough ds es → Pairwise IsThrough ds' es' }
    ensures sent { (ds : List TxDriverView) (es : List TxDeviceView) (ds' : List TxDriverView) (es' fs : List TxDeviceView) → EachPasses PassesTx ds es ds' es' → Pairwise WasSent ds' fs → Pairwise WasSent ds fs }
    ensures trusted { (m m' : MachineView) (ds ds' : List TxDriverView) (fs fs' : List RxDriverView) → EachPasses PassesTx ds (tx_of m.active) ds' (tx_of m'.active) → EachPasses PassesRx fs (rx_of m.active) fs' (rx_of m'.active)
        → m'.tx_stopped ≡ m.tx_stopped → m'.rx_stopped ≡ m.rx_stopped → IsTrusted m → IsTrusted m' }
{}
