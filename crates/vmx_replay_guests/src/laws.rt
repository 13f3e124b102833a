//! What polls and turns leave for the notes behind them: laws, each the contract of a function that does nothing. Own to this project.
ghost use Rattle.std.specs.Prelude.{◌≡◌, ℕ, Bool, true, List};
ghost use Rattle.vmx_ends.specs.Receive.{RxDriverView};
ghost use Rattle.vmx_ends.specs.HandedEnds.{ends_handed};
ghost use Rattle.vmx_machine_state.specs.Views.{EndsView};
ghost use Rattle.vmx_model.specs.Bags.{Pairwise};
ghost use Rattle.vmx_device_laws.specs.Views.{DeviceView, AreWhole};
ghost use Rattle.vmx_device_laws.specs.Steps.{TurnsOnce};
ghost use Rattle.vmx_device_laws.specs.Pairs.{rx_of};
ghost use Rattle.vmx_driver_steps.specs.Driver.{DriverView};
ghost use Rattle.vmx_driver_steps.specs.Driving.{PollsAll};
ghost use Rattle.vmx_driver.specs.Stocked.{AreEven};
ghost use Rattle.vmx_replay_guests.specs.Passing.{QueuesPassed};
ghost use Rattle.vmx_note_laws.specs.Queues.{AreOneRx, IsBehindRx, GoesOnRxDriver, GoesOnRxDevice};

/// A poll leaves each receive end of a driver with more frames or as many, and a turn leaves each of a device with what it had heard. A
/// device's ends that did nothing yet have delivered nothing.
pub fn receive_ends_go_on()
    ensures polls { (old new : DriverView) (n : ℕ) → PollsAll old n new → Pairwise GoesOnRxDriver old.rx new.rx }
    ensures turns { (worked : Bool) (d d' : DeviceView) (t : TurnsOnce worked d d') → Pairwise GoesOnRxDevice (rx_of t.asked.machine.active) (rx_of d'.machine.active) }
    ensures fresh { (ds : List RxDriverView) (e : EndsView) → Pairwise AreOneRx ds e.rx → (ends_handed e.tx e.rx).fresh ≡ true → Pairwise IsBehindRx ds e.rx }
{}

/// Notes of all queues leave a driver's ends even where they were, and so a device's, with no frame taken and not completed: so both
/// may act and turn.
pub fn passed_ends_stay_even()
    ensures driver { (v v' : DriverView) (d d' : DeviceView) → QueuesPassed v d v' d' → AreEven v → AreEven v' }
    ensures device { (v v' : DriverView) (d d' : DeviceView) → QueuesPassed v d v' d' → AreWhole d → AreWhole d' }
{}
