//! The machine that answers commands.

ghost use Rattle.std.specs.Prelude.{◌≡◌};
ghost use Rattle.vmx_machine_state.specs.Views.{new_machine};

use std::marker::Model;
use vmx_activated::{Activated, activate, quiesce, update};
use vmx_device_state::{Order, UNKNOWN_COMMAND};
use vmx_ends::{EndFault, Ends, Fabric};
use vmx_layout::{Command, MAX_QUEUES};
use vmx_machine_state::{
    Count, QUEUES, State, count_in, error_number, nothing_counted, value_of, write_all_stats,
    write_all_status,
};
use vmx_regs::Bag;
use vmx_shared_area::{Image, Setup, Side, Stats};

/// A device's state, its queue ends, its statistics and the errors of its queues.
#[derive(Drop)]
pub struct Machine<F: Fabric> {
    mac: [u8; 6],
    // Setup and ends lie in one option, so ends are held exactly while the machine is active.
    active: Option<Activated<F>>,
    tx: [Stats; QUEUES],
    rx: [Stats; QUEUES],
    // Errors outlive an activation: only a reset clears them.
    tx_stopped: [Option<u32>; QUEUES],
    rx_stopped: [Option<u32>; QUEUES],
}

impl<F: Fabric> Model for Machine<F> {
    ghost use Rattle.std.specs.Prelude.{◌≡◌, length, map};
    ghost use Rattle.vmx_activated.specs.Held.{held_view};
    ghost use Rattle.vmx_layout.specs.declared.register.TheConstants.{MAX_QUEUES};
    ghost use Rattle.vmx_machine_state.specs.Views.{MachineView};

    ghost Value = { MachineView };

    ghost view = { λ m. record { mac = m.mac; active = held_view F.TxDevice.view F.RxDevice.view m.active; tx_stats = map (λ s. s.counts) m.tx; rx_stats = map (λ s. s.counts) m.rx; tx_stopped = m.tx_stopped; rx_stopped = m.rx_stopped } };

    ghost invariant = { λ m. (length m.tx ≡ MAX_QUEUES) × (length m.rx ≡ MAX_QUEUES) × (length m.tx_stopped ≡ MAX_QUEUES) × (length m.rx_stopped ≡ MAX_QUEUES) };
}

impl<F: Fabric> Machine<F> {
    ghost use Rattle.std.specs.Prelude.{◌<◌, option_map, slice_index_or, []};
    ghost use Rattle.vmx_device_state.specs.DeviceState.{after_answer};
    ghost use Rattle.vmx_device_state.specs.Deals.{IsWhole, deal_of};
    ghost use Rattle.vmx_device_state.specs.Answers.{answer_to};
    ghost use Rattle.vmx_machine_state.specs.Ends.{ends_held, ends_back};
    ghost use Rattle.vmx_machine_state.specs.Images.{image_back, TellsStats};
    ghost use Rattle.vmx_layout.specs.Command.{number_of};
    ghost use Rattle.vmx_layout.specs.declared.command.Command.TheVariants.{GetStats};
    ghost use Rattle.std.specs.Borrow.{LendsIf, sem};
    ghost use Rattle.vmx_device_state.specs.SetupView.{setup_view};
    ghost use Rattle.vmx_machine_state.specs.Views.{Stays, ends_view, ends_in, handed_of, counts_in, state_of, setup_of, ends_of, with_ends, no_errors};
    ghost use Rattle.vmx_machine_state.specs.Stopped.{IsInUse, error_of, error_on, after_stop, errors_after};
    ghost use Rattle.vmx_machine_state.specs.States.{state_name};
    ghost use Rattle.vmx_machine_state.specs.Statistics.{stats_on, after_count, IsCounted, AreSumsAfter};
    ghost use Rattle.vmx_machine.specs.contracts.machine.Machine.{the_row as machine_row};
    ghost use Rattle.vmx_ends.specs.contracts.fabric.Ends.{the_row as ends_row};

    /// An idle machine that counted nothing, with its permanent address.
    pub fn new(mac: [u8; 6]) -> Machine<F>
        ensures new { result ≡ new_machine mac }
    {
        Machine {
            mac,
            active: None,
            tx: [nothing_counted(); QUEUES],
            rx: [nothing_counted(); QUEUES],
            tx_stopped: [None; QUEUES],
            rx_stopped: [None; QUEUES],
        }
    }

    /// Answers a command, and gives its bag back. An activation that is answered 0 takes the ends out of the bag, and a quiesce or
    /// reset of an active machine gives them back; GET_STATS and GET_QUEUE_STATUS write into the image of an active one. A reset that
    /// is answered 0 clears the errors of all queues; no other command changes one. The ends that the machine holds must be whole.
    ///
    /// A set command is answered 0, or by the first check that its image fails, 1 to 9; by 10, where an active machine is to be
    /// activated; by 11, where the bag has not the ends that it must have; an unknown one by 0xFFFFFFFF.
    pub fn apply(&mut self, command: u32, bag: Bag<Ends<F>>) -> (u32, Bag<Ends<F>>)
        requires whole { IsWhole (option_map handed_of (ends_of self.old)) }
        ensures answer { result.0 ≡ answer_to self.old.mac (state_of self.old) command bag.image (counts_in (ends_in F.TxDevice.view F.RxDevice.view bag)) }
        ensures state { state_of self.new ≡ after_answer (state_of self.old) command bag.image result.0 }
        ensures held { ends_of self.new ≡ ends_held (deal_of command result.0) (ends_of self.old) (ends_in F.TxDevice.view F.RxDevice.view bag) }
        ensures kept { self.new ≡ record self.old { active = self.new.active; tx_stopped = self.new.tx_stopped; rx_stopped = self.new.rx_stopped } }
        ensures stays { Stays self.old self.new }
        ensures tx_errors { self.new.tx_stopped ≡ errors_after command result.0 self.old.tx_stopped }
        ensures rx_errors { self.new.rx_stopped ≡ errors_after command result.0 self.old.rx_stopped }
        ensures image { result.1.image ≡ image_back self.old command bag.image }
        ensures told { command ≡ number_of GetStats → TellsStats (state_of self.old) self.old result.1.image }
        ensures ends { ends_in F.TxDevice.view F.RxDevice.view result.1 ≡ ends_back (deal_of command result.0) (ends_of self.old) (ends_in F.TxDevice.view F.RxDevice.view bag) }
    {
        let (value, bag) = self.obey(command, bag);
        if command == Command::ResetDev.number() && value == 0 {
            self.clear_errors();
        }
        (value, bag)
    }

    /// The same, but for the errors, which stay.
    fn obey(&mut self, command: u32, bag: Bag<Ends<F>>) -> (u32, Bag<Ends<F>>)
        requires whole { IsWhole (option_map handed_of (ends_of self.old)) }
        ensures answer { result.0 ≡ answer_to self.old.mac (state_of self.old) command bag.image (counts_in (ends_in F.TxDevice.view F.RxDevice.view bag)) }
        ensures state { state_of self.new ≡ after_answer (state_of self.old) command bag.image result.0 }
        ensures held { ends_of self.new ≡ ends_held (deal_of command result.0) (ends_of self.old) (ends_in F.TxDevice.view F.RxDevice.view bag) }
        ensures kept { self.new ≡ record self.old { active = self.new.active } }
        ensures image { result.1.image ≡ image_back self.old command bag.image }
        ensures told { command ≡ number_of GetStats → TellsStats (state_of self.old) self.old result.1.image }
        ensures ends { ends_in F.TxDevice.view F.RxDevice.view result.1 ≡ ends_back (deal_of command result.0) (ends_of self.old) (ends_in F.TxDevice.view F.RxDevice.view bag) }
    {
        match Order::of(command) {
            Order::Activate => activate(&mut self.active, bag),
            Order::Stop => quiesce(&mut self.active, bag),
            Order::Update { part } => {
                let value = update(&mut self.active, part, &bag.image);
                (value, bag)
            }
            Order::Unknown => (UNKNOWN_COMMAND, bag),
            Order::Get => {
                let Bag { mut image, ends } = bag;
                self.write_back(command, &mut image);
                (value_of(&self.mac, command), Bag { image, ends })
            }
        }
    }

    fn clear_errors(&mut self)
        ensures cleared { self.new ≡ record self.old { tx_stopped = no_errors; rx_stopped = no_errors } }
    {
        self.tx_stopped = [None; QUEUES];
        self.rx_stopped = [None; QUEUES];
    }

    /// Writes what a GET writes into the image, where it writes something. What was written is there to be read.
    fn write_back(&self, command: u32, image: &mut Image)
        ensures image { image.new ≡ image_back self.now command image.old }
        ensures told { command ≡ number_of GetStats → TellsStats (state_of self.now) self.now image.new }
    {
        // The type's facts: a setup has at most 8 queues a side, and an image 8,192 bytes.
        let _active = &self.active;
        let _bytes = image.bytes();
        self.write_queues(command, image);
    }

    fn write_queues(&self, command: u32, image: &mut Image)
        ensures image { image.new ≡ image_back self.now command image.old }
    {
        if let Some(active) = &self.active {
            let tx = u32::from(active.setup.tx_queues);
            let rx = u32::from(active.setup.rx_queues);
            if command == Command::GetStats.number() {
                write_all_stats(image, tx, Side::Tx, &self.tx, tx);
                write_all_stats(image, tx, Side::Rx, &self.rx, rx);
                return;
            }
            if command == Command::GetQueueStatus.number() {
                write_all_status(image, tx, Side::Tx, &self.tx_stopped, tx);
                write_all_status(image, tx, Side::Rx, &self.rx_stopped, rx);
            }
        }
    }

    /// The permanent address.
    pub fn mac(&self) -> [u8; 6]
        ensures mac { result ≡ self.now.mac }
    {
        self.mac
    }

    pub fn state(&self) -> State
        ensures state { result ≡ state_name (state_of self.now) }
    {
        match &self.active {
            None => State::Idle,
            Some(_) => State::Active,
        }
    }

    /// The setup in force, or None exactly while the machine is idle.
    pub fn setup(&self) -> Option<&Setup>
        ensures setup { option_map (λ s. setup_view s.now) result ≡ setup_of self.now }
    {
        match &self.active {
            None => None,
            Some(active) => Some(&active.setup),
        }
    }

    /// The queue ends that are held, or None exactly while the machine is idle.
    pub fn ends(&self) -> Option<&Ends<F>>
        ensures ends { option_map (λ e. ends_view F.TxDevice.view F.RxDevice.view e.now) result ≡ ends_of self.now }
    {
        match &self.active {
            None => None,
            Some(active) => Some(&active.ends),
        }
    }

    /// Lends the queue ends that are held, or None exactly while the machine is idle. Nothing else of the machine changes.
    pub fn ends_mut(&mut self) -> Option<&mut Ends<F>>
        ensures* writes_back { sem 𝓛 (LendsIf (machine_row F.row F.TxNote.row F.TxDriver.row F.TxDevice.row F.TxFacts.row F.RxNote.row F.RxDriver.row F.RxDevice.row F.RxFacts.row F.TxNote.TxNote F.TxDriver.TxDriver F.TxDevice.TxDevice F.TxFacts.TxFacts F.RxNote.RxNote F.RxDriver.RxDriver F.RxDevice.RxDevice F.RxFacts.RxFacts) (ends_row F.row F.TxNote.row F.TxDriver.row F.TxDevice.row F.TxFacts.row F.RxNote.row F.RxDriver.row F.RxDevice.row F.RxFacts.row) self.entry result (λ e. with_ends self.old (ends_view F.TxDevice.view F.RxDevice.view e)) self.old) }
        ensures ends { option_map (λ e. ends_view F.TxDevice.view F.RxDevice.view e.now) result ≡ ends_of self.old }
    {
        let active = self.active.as_mut()?;
        Some(&mut active.ends)
    }

    /// Counts one thing more on a queue, below 8. A transmit queue lacks no buffer, and a receive queue discards nothing.
    pub fn count(&mut self, side: Side, queue: u32, what: Count)
        requires queue { queue < MAX_QUEUES }
        requires what { IsCounted side what }
        ensures counted { self.new ≡ after_count side queue what self.old }
        ensures sums { AreSumsAfter side queue what self.old self.new }
    {
        match side {
            Side::Tx => count_in(&mut self.tx[queue as usize], side, what),
            Side::Rx => count_in(&mut self.rx[queue as usize], side, what),
        }
    }

    /// Stops a queue of the active setup by the number of a fault: 1 for `Field`, 2 for `Offload`, 3 for `Chain`, 4 for `Size` and 5
    /// for `Address`. It is stopped until a reset; where it is stopped already, the newer number stands.
    pub fn stop(&mut self, side: Side, queue: u32, fault: &EndFault)
        requires queue { IsInUse side queue (state_of self.old) }
        ensures stopped { self.new ≡ after_stop side queue (error_of fault.now) self.old }
    {
        // The type's facts: a setup has at most 8 queues a side.
        let _active = &self.active;
        let error = Some(error_number(fault));
        match side {
            Side::Tx => self.tx_stopped[queue as usize] = error,
            Side::Rx => self.rx_stopped[queue as usize] = error,
        }
    }

    /// The number of the error by which a queue, below 8, is stopped; None exactly where it is not stopped.
    pub fn stopped(&self, side: Side, queue: u32) -> Option<u32>
        requires queue { queue < MAX_QUEUES }
        ensures stopped { result ≡ error_on side self.now queue }
    {
        match side {
            Side::Tx => self.tx_stopped[queue as usize],
            Side::Rx => self.rx_stopped[queue as usize],
        }
    }

    /// The statistics of a queue, below 8: of all activations together.
    pub fn stats(&self, side: Side, queue: u32) -> Stats
        requires queue { queue < MAX_QUEUES }
        ensures stats { result.counts ≡ slice_index_or (stats_on side self.now) queue [] }
    {
        match side {
            Side::Tx => self.tx[queue as usize],
            Side::Rx => self.rx[queue as usize],
        }
    }
}
