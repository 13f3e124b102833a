//! The laws, each the contract of a function that does nothing. Own to this project.
ghost use Rattle.std.specs.Prelude.{◌≡◌, ◌≢◌, ◌<◌, ℕ, Bool, true, List, length};
ghost use Rattle.vmx_model.specs.declared.plan.Plan.{Plan};
ghost use Rattle.vmx_model.specs.Serial.{activated, emptied, set_command};
ghost use Rattle.vmx_model.specs.Turns.{AreEmptied};
ghost use Rattle.vmx_device_laws.specs.Views.{DeviceView};
ghost use Rattle.vmx_device_laws.specs.Steps.{TurnsOnce};
ghost use Rattle.vmx_driver_steps.specs.declared.progress.Then.{Then};
ghost use Rattle.vmx_driver_steps.specs.declared.progress.Due.TheVariants.{Action, Activate, Frame};
ghost use Rattle.vmx_driver_steps.specs.Progress.{setup_now};
ghost use Rattle.vmx_replay_runs.specs.Runs.{ComesFrom};
ghost use Rattle.vmx_replay_worlds.specs.Guests.{GuestView};
ghost use Rattle.vmx_replay_worlds.specs.Worlds.{world_of};
ghost use Rattle.vmx_replay_settled.specs.Linked.{HasLinksIn, IsLinkOn};
ghost use Rattle.vmx_replay_chains.specs.Chains.{ActsOn, AnswersOn, ChangesOn, ClosesBy, FollowsOn, IsClosableOn, LinkOn, LooksOn, Meets, PollsOn, RenewsBy, SendsOn, devices_of, due_at, is_over_on};
ghost use Rattle.vmx_replay_calls.specs.Selves.{IsOneDevice};
ghost use Rattle.vmx_replay_calls.specs.Resting.{RunRests, AllKeep};
ghost use Rattle.vmx_replay_calls.specs.Commands.{SendsStop, SendsUpdate, SendsActivation};
ghost use Rattle.vmx_replay_calls.specs.Results.{WasPolled, WasLooked, WasSentOut, WasDone, Holds, WasStopped, WasActed, WasActivated, WasClosed};

/// A device has the same port, table, registers and address after a turn.
pub fn a_device_stays_itself()
    ensures turn { (worked : Bool) (d d' : DeviceView) → TurnsOnce worked d d' → IsOneDevice d d' }
{}

/// In a run that rests there is a link from each port to each other one, and both ends of it have one key.
pub fn a_run_has_its_links()
    ensures link { (plan : Plan) (from to : ℕ) (rs : List GuestView) → RunRests plan rs → from < length rs → to < length rs → to ≢ from → IsLinkOn from to (devices_of rs) }
    ensures links { (plan : Plan) (port : ℕ) (rs : List GuestView) → RunRests plan rs → port < length rs → HasLinksIn port (devices_of rs) }
{}

/// A poll of a guest's driver is a poll in the serial run of an active guest, and finds nothing where the guest is not active; it
/// answers how many frames were handed up, and the run rests as before.
pub fn a_poll_hands_up()
    ensures polls { (plan : Plan) (port n : ℕ) (rs rs' : List GuestView) → RunRests plan rs → AllKeep rs → PollsOn port n rs rs' → WasPolled plan port n rs rs' }
{}

/// Notes of a link move nothing. A look of a device behind them handles the packet that comes next on that link, where nothing waits on
/// others; the run rests as before.
pub fn a_link_is_looked_at()
    ensures notes { (from to : ℕ) (rs rs' : List GuestView) → LinkOn from to rs rs' → world_of rs' ≡ world_of rs }
    ensures looks { (plan : Plan) (from to : ℕ) (rs rs' : List GuestView) → RunRests plan rs → AllKeep rs → ComesFrom from (world_of rs) → to ≢ from → LooksOn from to rs rs' → WasLooked plan from to rs rs' }
{}

/// A frame that is due, where nothing waits on any link, goes through its queue and out to its targets; the run rests as before.
pub fn a_frame_is_sent_out()
    ensures sends { (plan : Plan) (port i : ℕ) (rs rs' : List GuestView) → RunRests plan rs → AllKeep rs → AreEmptied (world_of rs) → due_at port rs ≡ Frame i → SendsOn port rs rs' → WasSentOut plan port rs rs' }
{}

/// A command that a driver sends, with its answer: a quiesce or a reset makes the device idle, and its ends come back; an update
/// changes the setup in force; an activation makes new queues. Behind the last two the run rests as before.
pub fn a_command_is_done()
    ensures stops { (plan : Plan) (port number : ℕ) (t : Then) (rs ms rs' : List GuestView) → RunRests plan rs → AllKeep rs → AreEmptied (world_of rs) → (acts : ActsOn port rs ms) → AnswersOn port ms rs'
        → SendsStop number t acts.before.driver acts.does.1.acted → WasStopped plan port number t rs rs' }
    ensures updates { (plan : Plan) (port number : ℕ) (rs ms rs' : List GuestView) → RunRests plan rs → AllKeep rs → AreEmptied (world_of rs) → (acts : ActsOn port rs ms) → AnswersOn port ms rs'
        → SendsUpdate number acts.before.driver acts.does.1.acted → WasDone plan port (λ s. set_command (record s { setup = setup_now acts.before.driver.plan acts.does.1.acted.at }) number) rs rs' }
    ensures activates { (plan : Plan) (port : ℕ) (rs ms rs' : List GuestView) → RunRests plan rs → AllKeep rs → AreEmptied (world_of rs) → (acts : ActsOn port rs ms) → AnswersOn port ms rs'
        → SendsActivation acts.before.driver acts.does.1.acted → WasDone plan port (activated acts.before.driver.guest acts.before.driver.plan) rs rs' }
{}

/// A driver whose ends came back hands up what is left until nothing comes, and all ends meet; the run rests behind that.
pub fn the_ends_meet()
    ensures meets { (plan : Plan) (port : ℕ) (t : Then) (rs rs' : List GuestView) → AllKeep rs → Holds plan port t rs → ChangesOn port Meets rs rs' → WasDone plan port emptied rs rs' }
{}

/// A deed of a script that is due, where nothing waits on any link, is done in the serial run: its command with the answer, the meeting
/// of all ends where they came back, and the activation behind a reset. The driver passes over frames that are not sent and waits for
/// what is next; the run rests as before.
pub fn a_deed_is_done()
    ensures does { (plan : Plan) (port n : ℕ) (rs rs' : List GuestView) → RunRests plan rs → AllKeep rs → AreEmptied (world_of rs) → due_at port rs ≡ Action n → FollowsOn port rs rs' → WasActed plan port rs rs' }
{}

/// A driver with which nothing is due, where nothing waits on any link, is closed: an active guest is quiesced in the serial run, and
/// another one stays as it is; the run rests as before.
pub fn a_guest_is_closed()
    ensures closes { (plan : Plan) (port : ℕ) (rs rs' : List GuestView) → RunRests plan rs → AllKeep rs → AreEmptied (world_of rs) → IsClosableOn port rs → ClosesBy (is_over_on port rs) port rs rs' → WasClosed plan port rs rs' }
{}

/// A driver with which an activation is due, where nothing waits on any link, is activated in the serial run. It passes over frames that
/// are not sent and waits for what is next; the run rests as before.
pub fn a_guest_is_activated()
    ensures activates { (plan : Plan) (port : ℕ) (rs rs' : List GuestView) → RunRests plan rs → AllKeep rs → AreEmptied (world_of rs) → due_at port rs ≡ Activate → RenewsBy true port rs rs' → WasActivated plan port rs rs' }
{}
